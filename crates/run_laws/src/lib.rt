// Laws about the guards of a run, of the definitions in `run`: when a run is accepted, and how it is refused.
// `guarantee` rests on them; an edit of `run` does not pay for them here. No code.
#![tactic(auto)]
