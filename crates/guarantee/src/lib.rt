// What is promised of the operations together: statements in specs/, proofs in proofs/. No code.
// They speak of the records that the functions ensure (specs/Promises.antt of each); docs/GUARANTEES.md goes through them.
#![tactic(auto)]
