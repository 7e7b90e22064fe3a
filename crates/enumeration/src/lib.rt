// All short proofs of two bundles: which files they are, in which order, and which is the next. No code.
// Statements of the function are guarantee/specs/ShortProofs.antt; the code is in enumeration_rows, enumeration_search and enumerate.
#![tactic(auto)]
