// Theorems of those statements of `guarantee` that no edit of it changes, and the laws that only these need.
// They stand above what is edited, so that the edits do not pay for them. No code.
#![tactic(auto)]
