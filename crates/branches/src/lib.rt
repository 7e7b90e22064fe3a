// A branch of the proof: its entries, its end, and the branches that a strengthen, a rounding or a split opens.
// `check_branch` gives what `check_branch` does (proof/specs/Check.antt): specs/Branching.antt. The root is a branch too.
#![tactic(auto)]

pub mod branch;
