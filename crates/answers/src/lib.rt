// The answer that every operation gives, and the functions that make one.
// specs/Answers.antt has what an answer is, and results: the first refusal that applies, by which every operation is defined.
#![tactic(auto)]

pub mod by_name;
pub mod refusals;

ghost use Rattle.std.specs.Prelude.{◌≡◌};
ghost use Rattle.answers.specs.Answers.{root, answer_at, answer, acceptance, row_told, refusal_at};

use forms::RowNumber;

// An answer: a refusal's number, the file and the place at fault, all three 0 for accepted. Amid a proof it tells also the row at
// fault, the row of the innermost open branching step, and its branch; each is 65,535 where there is none.
#[repr(C)]
#[derive(Clone, Copy)]
pub struct Answer {
    pub number: u8,
    pub file: u8,
    pub place: usize,
    pub row: RowNumber,
    pub step: RowNumber,
    pub branch: u16,
}

// Where in the tree a field of the proof stands: the innermost open branching step, by its row, and its branch; branches count
// from 0 in file order. The root is no branch: both are 65,535.
#[derive(Clone, Copy)]
pub struct Position {
    pub step: RowNumber,
    pub branch: u16,
}

// What an operation that writes bytes answers: how many it wrote, 0 where it is refused.
#[repr(C)]
#[derive(Clone, Copy)]
pub struct WriteResult {
    pub answer: Answer,
    pub count: usize,
}

// What a row, step or branch is where there is none.
const NOWHERE: u16 = 65535;

pub fn root() -> Position
    ensures { result ≡ root }
{
    Position {
        step: RowNumber(NOWHERE),
        branch: NOWHERE,
    }
}

fn answer_at(row: RowNumber, position: Position, number: u8, file: u8, place: usize) -> Answer
    ensures { result ≡ answer_at row.0 position number file place }
{
    Answer {
        number,
        file,
        place,
        row,
        step: position.step,
        branch: position.branch,
    }
}

// Which row is told of a field before which there were so many rows.
#[tactic(auto, unfolding(crate::specs::Answers::row_told))]
fn row_told(number: u8, rows: RowNumber) -> RowNumber
    ensures { result.0 ≡ row_told number rows.0 }
{
    match number {
        14 => RowNumber(rows.0.saturating_sub(1)),
        10..=18 => rows,
        _ => RowNumber(NOWHERE),
    }
}

// Amid the proof, at a field before which there were so many rows. Any number will do; by_name has those of refusals.
pub fn proof_refusal(position: Position, rows: RowNumber, number: u8, place: usize) -> Answer
    ensures { result ≡ refusal_at position rows.0 place number }
{
    answer_at(row_told(number, rows), position, number, 3, place)
}

// Outside the proof's tree.
pub fn refusal(number: u8, file: u8, place: usize) -> Answer
    ensures { result ≡ answer number file place }
{
    answer_at(RowNumber(NOWHERE), root(), number, file, place)
}

pub fn acceptance() -> Answer
    ensures { result ≡ acceptance }
{
    answer_at(RowNumber(NOWHERE), root(), 0, 0, 0)
}
