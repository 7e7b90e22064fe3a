// What may stand after all is read.
ghost use Rattle.fields.specs.Ending.{IsEnding};

use super::header::known;
use super::{End, FileKind, next_field};
use answers::refusals::{Fault, Refusal};

// Nothing but notes. 2, 3, 19.
pub fn ending_at(s: &[u8], at: usize, kind: FileKind) -> Result<(), Fault>
    ensures { IsEnding kind s.now at result }
{
    match next_field(s, at) {
        Ok(field) => {
            if known(kind, field.tag) {
                return Err(field.refused(Refusal::FieldAfterEnd));
            }
            Err(field.refused(Refusal::UnknownTag))
        }
        Err(End::Cut { at: place }) => Err(Fault {
            refusal: Refusal::Truncated,
            place,
        }),
        Err(End::Ends { at: _ }) => Ok(()),
    }
}
