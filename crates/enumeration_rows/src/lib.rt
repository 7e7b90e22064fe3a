// The rows of short proofs by their numbers (enumeration/specs/Numbering.antt): their bytes, the number of a row by its bytes,
// what a row does to the lines of a branch, and the table of some rows in the lent output. enumeration_search and enumerate call it.
#![tactic(auto)]

pub mod close;
pub mod deliver;
pub mod found;
pub mod infer;
pub mod read;
pub mod write;
