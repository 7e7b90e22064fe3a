// The larger tables of stages (proof/specs/Stages.antt): where in the tree a refusal stands, and which of two refusals comes
// first. They are evaluated here so that an edit of `proof` does not pay for them. No code.
#![tactic(auto)]
