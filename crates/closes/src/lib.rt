// How a branch is closed: the tests of a close, and the bytes of its formula.
// specs/Ends.antt says what a close row leaves, by the tests of proof/specs/Rows.antt.
#![tactic(auto)]

pub mod closing;
pub mod ends;
