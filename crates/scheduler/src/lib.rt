// Checks that wait at eight seats and are served in turn. What a state is, and what its calls
// mean, in specs/. No code: only types, specs and proofs.
//
// A seat is a number, 0 to 7; a slot is what stands at a seat. All numbers have the width of a place, so a state has no padding.
#![tactic(auto)]

use answers::{Answer, WriteResult};

pub const SEATS: usize = 8;

// Where a file stands in the buffer; end is the byte after its last.
#[repr(C)]
#[derive(Clone, Copy, Default)]
pub struct Part {
    pub start: usize,
    pub end: usize,
}

// A job: where its three files stand.
#[repr(C)]
#[derive(Clone, Copy, Default)]
pub struct Job {
    pub a: Part,
    pub b: Part,
    pub proof: Part,
}

// What stands at a seat: a waiting job, or nothing, where `waiting` is 0.
#[repr(C)]
#[derive(Clone, Copy, Default)]
pub struct Slot {
    pub waiting: usize,
    pub job: Job,
}

// The state: a slot for each seat, and the seat that the next turn looks at first.
#[repr(C)]
#[derive(Clone, Copy)]
pub struct Scheduler {
    pub slots: [Slot; SEATS],
    pub first: usize,
}

// What submitting and cancelling give: the state that they leave, and the answer.
#[repr(C)]
#[derive(Clone, Copy)]
pub struct Changed {
    pub scheduler: Scheduler,
    pub answer: Answer,
}

// What a turn gives: the state that it leaves, what the check of the job gave, the seat served, and whether the turn was idle.
#[repr(C)]
#[derive(Clone, Copy)]
pub struct Turned {
    pub scheduler: Scheduler,
    pub result: WriteResult,
    pub seat: usize,
    pub idle: bool,
}
