// The fields of a run's proof as the walk sees them: what an entry is, by its tag and length, and whether two branches have the same fields.
// The definitions are `entry` of proof/specs/Entries.antt and `same_items` of run/specs/Uniform.antt; run_branches calls these.
#![tactic(auto)]

pub mod kind;
pub mod same;
pub mod walked;
