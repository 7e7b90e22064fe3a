// The cuts of a run: each checked as check checks A and B, all of them beside the walk, and the guards written. run_guards lends the arrays.
// The definitions are `check_cut`, `check_cuts`, `check_run` and `guards` of run/specs/Run.antt; specs/Cuts.antt has the code's answers as results.
#![tactic(auto)]

pub mod all;
pub mod begun;
pub mod cut;
pub mod deliver;
pub mod load;
pub mod writing;
