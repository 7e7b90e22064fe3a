// The answers of refusals by their names.
ghost use Rattle.std.specs.Prelude.{◌≡◌};
ghost use Rattle.answers.specs.Answers.{answer, refusal_at};
ghost use Rattle.answers.specs.Refusals.{number_of};

use crate::refusals::Refusal;
use crate::{Answer, Position};
use forms::RowNumber;

// Amid the proof, at a field before which there were so many rows.
pub fn proof_refusal(position: Position, rows: RowNumber, refusal: Refusal, place: usize) -> Answer
    ensures { result ≡ refusal_at position rows.0 place (number_of refusal) }
{
    crate::proof_refusal(position, rows, refusal.number(), place)
}

// Outside the proof's tree.
pub fn refusal(refusal: Refusal, file: u8, place: usize) -> Answer
    ensures { result ≡ answer (number_of refusal) file place }
{
    crate::refusal(refusal.number(), file, place)
}
