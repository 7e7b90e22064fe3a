// Checking a proof, as definitions: what check answers (specs/Check.antt), and what three files must be to certify a formula
// (specs/Layout.antt); that both agree is proofs/Agree.antt. No code: the crates from entries to checking meet these.
#![tactic(auto)]
