// The operation write: a bundle from its edition, K, kinds and numbers.
// Its definition is bundle/specs/Write.antt, its contract specs/Promises.antt.
#![tactic(auto)]

mod put;

ghost use Rattle.std.specs.Prelude.{◌≡◌, ◌&&◌, leb, cond};
ghost use Rattle.forms.specs.Edition.{newest_edition};
ghost use Rattle.bundle_write.specs.Ordered.{Orders};
ghost use Rattle.bundle_write.specs.Promises.{Writes};

use answers::by_name::refusal;
use answers::refusals::{Fault, Refusal};
use answers::{WriteResult, acceptance};
use fields::header::put_header;
use forms::{CONSTANTS, CONSTRAINTS, NEWEST};
use number_bytes::words::Width;
use number_ranges::held::first_unheld;
use put::{first_bad, put_constraints};

// n as a byte, where it is 1 up to `most`, whatever number it is.
fn up_to(n: usize, most: u8) -> Option<u8>
    ensures { result ≡ cond (leb 1 n && leb n most) (Some n) None }
{
    if 1 <= n && n <= most as usize {
        Some(n as u8)
    } else {
        None
    }
}

// The edition and K of a bundle to write.
#[derive(Clone, Copy)]
pub struct Ordered {
    pub edition: u8,
    pub k: u8,
}

// What a bundle to write is refused for, apart from the output; or its edition and K, which are within their bounds.
fn order(edition: usize, k: usize, kinds: &[u8], numbers: &[i32]) -> Result<Ordered, Fault>
    ensures { Orders newest_edition edition k kinds.now numbers.now result }
{
    let Some(edition) = up_to(edition, NEWEST) else {
        return Err(Fault {
            refusal: Refusal::WrongEdition,
            place: 0,
        });
    };
    let Some(k) = up_to(k, CONSTANTS) else {
        return Err(Fault {
            refusal: Refusal::WrongConstants,
            place: 0,
        });
    };
    let count = kinds.len();
    if count > CONSTRAINTS {
        return Err(Fault {
            refusal: Refusal::TooManyConstraints,
            place: 0,
        });
    }
    if let Some(bad) = first_bad(kinds) {
        return Err(Fault {
            refusal: Refusal::WrongKinds,
            place: bad,
        });
    }
    if numbers.len() != count * (k as usize + 1) {
        return Err(Fault {
            refusal: Refusal::WrongKinds,
            place: count,
        });
    }
    if let Some(unheld) = first_unheld(Width::of_coefficients(edition), numbers) {
        return Err(Fault {
            refusal: Refusal::OutOfRange,
            place: unheld,
        });
    }
    Ok(Ordered { edition, k })
}

// Writes a bundle of that edition from K, kinds and numbers, whatever numbers edition and K are.
pub fn write(edition: usize, k: usize, kinds: &[u8], numbers: &[i32], out: &mut [u8]) -> WriteResult
    ensures { Writes edition k kinds.now numbers.now out.old out.new result }
{
    let ordered = match order(edition, k, kinds, numbers) {
        Ok(ordered) => ordered,
        Err(fault) => {
            return WriteResult {
                answer: refusal(fault.refusal, 4, fault.place),
                count: 0,
            };
        }
    };
    let width = Width::of_coefficients(ordered.edition);
    let needed = 8 + kinds.len() * (3 + (ordered.k as usize + 1) * width.bytes());
    if out.len() < needed {
        return WriteResult {
            answer: refusal(Refusal::OutputTooShort, 4, needed),
            count: 0,
        };
    }
    put_header(out, ordered.edition, ordered.k);
    put_constraints(out, 8, ordered.edition, ordered.k, kinds, numbers);
    WriteResult {
        answer: acceptance(),
        count: needed,
    }
}
