// Why the guards of a run form a chain: a run and its cuts, a uniform proof, and the law `run-chain`. No code.
// The definitions are specs/Runs.antt; `run` defines its operation by them, and guarantee proves of its guards what the law says.
#![tactic(auto)]
