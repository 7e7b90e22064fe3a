// A constraint's field, found by its line number.
ghost use Rattle.std.specs.Prelude.{◌≡◌};
ghost use Rattle.forms.specs.Edition.{edition};
ghost use Rattle.bundle.specs.Writable.{field_size};
ghost use Rattle.bundle_show.specs.Locate.{IsLocated};

use answers::refusals::{Fault, Refusal};
use bundle_scan::scan;
use forms::{BUNDLE_BYTES, coefficient_bytes};

// A part of A's or B's buffer, by the number with which answers name the file.
#[derive(Clone, Copy)]
pub struct Located {
    pub file: u8,
    pub start: usize,
    pub size: usize,
}

// A constraint without fault has one size.
fn field_size(e: u8, k: u8) -> usize
    ensures { result ≡ field_size (edition e).coefficient_width k }
{
    3 + (k as usize + 1) * coefficient_bytes(e)
}

// A's lines come first: wanted is constraint i of A, or the one of B that lies as far beyond A's. Where the call is refused, the fault tells no file.
pub fn locate(a: &[u8], b: &[u8], i: usize) -> Result<Located, Fault>
    ensures { IsLocated a.now b.now i result }
{
    if a.len() > BUNDLE_BYTES || b.len() > BUNDLE_BYTES {
        return Err(Fault {
            refusal: Refusal::TooLong,
            place: 0,
        });
    }
    let first = scan(a, 0, i)?;
    let m = first.body.count;
    let second = scan(b, first.k, i.saturating_sub(m))?;
    if i < m {
        return Ok(Located {
            file: 1,
            start: first.start,
            size: field_size(first.body.edition, first.k),
        });
    }
    if i - m < second.body.count {
        return Ok(Located {
            file: 2,
            start: second.start,
            size: field_size(second.body.edition, first.k),
        });
    }
    Err(Fault {
        refusal: Refusal::NoSuchLine,
        place: 0,
    })
}
