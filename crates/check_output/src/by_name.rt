// The results of refusals by their names.
ghost use Rattle.std.specs.Prelude.{◌≡◌};
ghost use Rattle.answers.specs.Answers.{answer};
ghost use Rattle.answers.specs.Refusals.{number_of};

use answers::WriteResult;
use answers::refusals::Refusal;

pub fn refusal(refusal: Refusal, file: u8, place: usize) -> WriteResult
    ensures { result ≡ record { answer = answer (number_of refusal) file place; count = 0 } }
{
    crate::refusal(refusal.number(), file, place)
}
