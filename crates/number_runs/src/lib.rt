// Runs of numbers of two or four bytes, read from bytes and written as bytes, several at once where that is quicker.
// Each is the number that number_bytes/specs/Numbers.antt has; bundles are read, loaded and written by runs.
#![tactic(auto)]

pub mod put;
pub mod store;
