// A run whose stages and whose proof's header are read.

// The stages stand end to end in the buffer, and have K constants and so many constraints together; the proof's fields go on at
// `at`, and its edition is the number that the file says. That they are read stays in the contracts (`Passed`, `Begun`, `Asked`): a
// ghost field's fact must have one proof at most, which nothing shows of equations of the definitions' results, and none may stand beside a `&mut`.
#[derive(Clone, Copy)]
pub struct Run<'a> {
    pub buffer: &'a [u8],
    pub lengths: &'a [usize],
    pub k: u8,
    pub count: usize,
    pub proof: &'a [u8],
    pub at: usize,
    pub edition: u8,
}
