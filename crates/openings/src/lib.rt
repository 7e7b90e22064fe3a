// The rows that open branches, strengthen, rounding and split: their tests, the line that the first branch starts with,
// and how each other branch of a rounding starts. Their refusals and branches are those of `check_row` (proof/specs/Check.antt):
// specs/Opening.antt, and specs/Splitting.antt for the split. branches calls it.
#![tactic(auto)]

pub mod opening;
pub mod rounding;
pub mod split;
pub mod strengthen;
