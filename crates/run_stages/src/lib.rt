// The stages of a run: that their lengths part the buffer, that none is too long, and how many constraints they state together.
// The definitions are `parted`, `stages_short` and `read_stages` of run/specs/Run.antt.
#![tactic(auto)]

pub mod reading;
