// Whether numbers are within a range: numbers to be written, and numbers that stand in bytes.
// A test goes on to the end, so that the compiler tests several at once; only then the first at fault is looked for.
#![tactic(auto)]

pub mod held;
pub mod read;
