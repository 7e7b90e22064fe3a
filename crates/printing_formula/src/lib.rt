// A formula read from its file and its text put, in either dialect, in one pass; and its forms as text.
// What the functions leave is specs/Printing.antt; `print` calls it to write, and before that, where the output may be too short,
// to measure. Where it is surely long enough the formula is only read before (once).
#![tactic(auto)]

pub mod language;
pub mod once;
pub mod reading;
pub mod terms;
pub mod words;
