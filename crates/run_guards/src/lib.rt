// The operation: guards for a whole run of stages. It tests the lengths, reads the stages and the proof's
// header, and lends the arrays in which run_cuts checks the cuts. `guards` ensures `WritesGuards` (run/specs/Promises.antt).
#![tactic(auto)]

pub mod guards;
