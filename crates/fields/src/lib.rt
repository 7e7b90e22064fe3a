// The fields of a file of any kind, its header, and what may follow its last field. Notes are passed over here.
// The definitions are specs/Fields.antt and specs/Header.antt; specs/Places.antt has them by place, as the code reads.
#![tactic(auto)]

pub mod ending;
pub mod header;

ghost use Rattle.std.specs.Prelude.{◌≡◌};
ghost use Rattle.answers.specs.Refusals.{fault};
ghost use Rattle.fields.specs.Places.{found_at, fields_at, next_of, truncated, next_or_fault};

use answers::refusals::{Fault, Refusal};

// The kinds of file, each with tags of its own.
#[derive(Clone, Copy)]
pub enum FileKind {
    Bundle,
    Proof,
    Formula,
}

// A whole field, and its place: its contents start at start and have len bytes; next is the place after it.
#[derive(Clone, Copy)]
pub struct WholeField {
    pub at: usize,
    pub tag: u8,
    pub start: usize,
    pub len: usize,
    pub next: usize,
}

impl WholeField {
    // What this field is refused for.
    pub fn refused(self, refusal: Refusal) -> Fault
        ensures { result ≡ fault refusal self.at }
    {
        Fault {
            refusal,
            place: self.at,
        }
    }
}

// Header or contents of a field that run past the end.
#[derive(Clone, Copy)]
pub struct Broken;

// The field that stands at a place, a note too; none where nothing is left.
pub fn field_at(s: &[u8], at: usize) -> Result<Option<WholeField>, Broken>
    ensures { result ≡ found_at s.now at }
{
    if s.len() <= at {
        return Ok(None);
    }
    let left = s.len() - at;
    if left < 3 {
        return Err(Broken);
    }
    let tag = s[at];
    let high = s[at + 1] as usize;
    let low = s[at + 2] as usize;
    let len = high * 256 + low;
    if left - 3 < len {
        return Err(Broken);
    }
    Ok(Some(WholeField {
        at,
        tag,
        start: at + 3,
        len,
        next: at + 3 + len,
    }))
}

// How a file ends: amid bytes that are no whole field, or after a whole one.
#[derive(Clone, Copy)]
pub enum End {
    Cut { at: usize },
    Ends { at: usize },
}

impl End {
    // Where more was to come, both are too early.
    pub fn truncated(self) -> Fault
        ensures { result ≡ truncated self }
    {
        match self {
            End::Cut { at } | End::Ends { at } => Fault {
                refusal: Refusal::Truncated,
                place: at,
            },
        }
    }
}

// Notes are passed over here; only where whole fields are known to stand do bundle_read and conversion_bundle pass them over by
// the tag alone.
fn next_at(s: &[u8], at: usize) -> Result<WholeField, End>
    ensures { result ≡ next_of (fields_at s.now at) }
{
    let mut here = at;
    loop {
        match field_at(s, here) {
            Ok(Some(field)) => {
                if field.tag < 0x80 {
                    return Ok(field);
                }
                here = field.next;
            }
            Ok(None) => return Err(End::Ends { at: here }),
            Err(Broken) => return Err(End::Cut { at: here }),
        }
    }
}

// The reader: a file and a place in it, carried together.
#[derive(Clone, Copy)]
pub struct Fields<'a> {
    pub file: &'a [u8],
    pub at: usize,
}

impl<'a> Fields<'a> {
    // The next field that is no note, or how the file ends.
    pub fn next(self) -> Result<WholeField, End>
        ensures { result ≡ next_of (fields_at self.entry.file.now self.entry.at) }
    {
        next_at(self.file, self.at)
    }
}

// What every other function calls: a file and a place as they come.
pub fn next_field(s: &[u8], at: usize) -> Result<WholeField, End>
    ensures { result ≡ next_of (fields_at s.now at) }
{
    Fields { file: s, at }.next()
}

// The next field, where there must be one.
pub fn next_or_fault(s: &[u8], at: usize) -> Result<WholeField, Fault>
    ensures { result ≡ next_or_fault (fields_at s.now at) }
{
    match next_field(s, at) {
        Ok(field) => Ok(field),
        Err(end) => Err(end.truncated()),
    }
}
