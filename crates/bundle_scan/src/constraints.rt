// The constraints after a bundle's header, gone over one by one.
ghost use Rattle.std.specs.Prelude.{◌≡◌, cond, eqb};
ghost use Rattle.fields.specs.Fields.{nth};
ghost use Rattle.fields.specs.Places.{fields_at};
ghost use Rattle.number_bytes.specs.Widths.{bytes_of};
ghost use Rattle.bundle_scan.specs.Scan.{fault_of, counted, start_of, sought_of};

use answers::refusals::{Fault, Refusal};
use fields::header::known;
use fields::{End, FileKind, next_field};
use forms::CONSTRAINTS;
use integers::between;
use number_bytes::words::Width;
use number_ranges::read::all_in_range;

// How many constraints there are, and where the one wanted starts, 0 where there is none.
#[derive(Clone, Copy)]
pub struct Sought {
    pub count: usize,
    pub start: usize,
}

// What a field with these contents is refused for as constraint n.
fn constraint_fault(contents: &[u8], width: Width, k: u8, n: usize, tag: u8) -> Result<(), Refusal>
    ensures { result ≡ fault_of (bytes_of width) k n tag contents.now }
{
    if between(tag, 0x03, 0x05) {
        let many = k as usize + 1;
        if contents.len() != many * width.bytes() {
            return Err(Refusal::WrongLength);
        }
        if n < CONSTRAINTS {
            if all_in_range(contents, width, many) {
                return Ok(());
            }
            return Err(Refusal::OutOfRange);
        }
        return Err(Refusal::TooManyConstraints);
    }
    if known(FileKind::Bundle, tag) {
        return Err(Refusal::MisplacedTag);
    }
    Err(Refusal::UnknownTag)
}

// The place kept after constraint n: its own, if it is the one wanted, else the one found before.
fn kept(n: usize, wanted: usize, place: usize, found: usize) -> usize
    ensures { result ≡ cond (eqb n wanted) place found }
{
    if n == wanted { place } else { found }
}

// Count and place in one pass. A constraint without fault has one size: to go on by that does not wait for the length to be read from the file.
// How the fields end is told behind the last one, so that the loop has no head.
pub fn seek_constraint(
    s: &[u8],
    at: usize,
    width: Width,
    k: u8,
    wanted: usize,
) -> Result<Sought, Fault>
    ensures { result ≡ sought_of (start_of (nth wanted (fields_at s.now at))) (counted (bytes_of width) k 0 (fields_at s.now at)) }
{
    let size = (k as usize + 1) * width.bytes();
    let mut here = at;
    let mut n: usize = 0;
    let mut found: usize = 0;
    loop {
        match next_field(s, here) {
            Ok(field) => {
                let contents = &s[field.start..field.start + field.len];
                if let Err(refusal) = constraint_fault(contents, width, k, n, field.tag) {
                    return Err(field.refused(refusal));
                }
                found = kept(n, wanted, field.at, found);
                n += 1;
                here = field.start + size;
            }
            Err(End::Cut { at: place }) => {
                return Err(Fault {
                    refusal: Refusal::Truncated,
                    place,
                });
            }
            Err(End::Ends { at: _ }) => {
                return Ok(Sought {
                    count: n,
                    start: found,
                });
            }
        }
    }
}
