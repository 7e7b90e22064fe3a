// Rows that nothing rests on, and a proof without them: what it means and what stays. No code: only a type,
// specs and proofs.
// Statements of the function are guarantee/specs/Shortening.antt; the code is in shortening_stack, shortening_marks, shortening_table and shorten.
#![tactic(auto)]

use answers::Answer;

// What shortening answers: how many rows it reported and how many bytes the table has, 0 where it is refused.
#[repr(C)]
#[derive(Clone, Copy)]
pub struct ShortenResult {
    pub answer: Answer,
    pub rows: usize,
    pub count: usize,
}
