// Whether a run's proof is uniform: its tree walked by its fields, without lines. 27 for a claim, 28 for branches that must be alike and are not.
// The definition is `uniform` of run/specs/Uniform.antt; specs/Walks.antt says how the code's answers tell of it.
#![tactic(auto)]

pub mod walk;
