// A proof gone over before it is turned: its entries read, its line numbers, the bytes of the result.
// specs/SurveyAnswers.antt has its answers as those of the definition (conversion/specs/Turning.antt).
#![tactic(auto)]

ghost use Rattle.std.specs.Prelude.{◌≡◌, ◌+◌, ◌-◌, ◌*◌, ◌^◌, ◌≤◌, ltb, length, take, drop};
ghost use Rattle.forms.specs.Edition.{edition, edition1};
ghost use Rattle.forms.specs.Forms.{every};
ghost use Rattle.answers.specs.Answers.{file_proof};
ghost use Rattle.answers.specs.Refusals.{told};
ghost use Rattle.number_bytes.specs.Numbers.{unsigned, unsigneds};
ghost use Rattle.fields.specs.Places.{fields_at};
ghost use Rattle.proof.specs.Entries.{entry_tagged, line_count};
ghost use Rattle.conversion.specs.Turning.{each_field, lines_fit};
ghost use Rattle.conversion_survey.specs.SurveyAnswers.{sized_as, FieldLaid, EntriesReadAs, LinesThere};

use answers::refusals::{Fault, Refusal};
use fields::{End, next_field};
use forms::{MULTIPLIER_BYTES, TERM_BYTES, line_bytes};
use number_bytes::numbers::unsigned_at;

// How many bytes the fields have together when they are turned; if `fit`, the edition asked for holds each line number.
#[derive(Clone, Copy)]
pub struct Turned {
    pub size: usize,
    pub fit: bool,
}

// The edition that a proof has, and the one that it is turned into: as numbers, as headers say them.
#[derive(Clone, Copy)]
pub struct Editions {
    pub from: u8,
    pub to: u8,
}

// Contents of `len` bytes where `size` are laid out. 6.
fn sized(len: usize, size: usize, made: bool) -> Result<bool, Refusal>
    ensures { result ≡ sized_as len size made }
{
    if len == size {
        return Ok(made);
    }
    Err(Refusal::WrongLength)
}

// Whether a claim may stand behind a field of a proof of edition e, by its tag and length alone: an entry's contents are not
// looked at. 3, 4, 6.
fn laid_out(tag: u8, len: usize, k: usize, e: u8, made: bool) -> Result<bool, Refusal>
    requires { k ≤ edition1.constants }
    ensures { FieldLaid e k tag len made result }
{
    let width = line_bytes(e);
    match tag {
        0x10 => sized(len, 2 * width + 2 * MULTIPLIER_BYTES, true),
        0x11 => sized(len, 2 * width + MULTIPLIER_BYTES, true),
        0x12 => sized(len, width + MULTIPLIER_BYTES, true),
        0x13 => sized(len, width, false),
        0x14 => sized(len, width, false),
        0x15 => sized(len, width + MULTIPLIER_BYTES, false),
        0x16 => sized(len, width + 2 * MULTIPLIER_BYTES, false),
        0x17 => sized(len, width, false),
        0x20 => {
            if made {
                return sized(len, 2 * TERM_BYTES * (k + 1), false);
            }
            Err(Refusal::MisplacedTag)
        }
        0x01 => Err(Refusal::MisplacedTag),
        0x02 => Err(Refusal::MisplacedTag),
        _ => Err(Refusal::UnknownTag),
    }
}

// How many line numbers a row begins with, by its tag; a claim has none.
pub fn line_count(tag: u8) -> usize
    ensures is { result ≡ line_count (entry_tagged tag) }
    ensures most { result ≤ 2 }
{
    match tag {
        0x10..=0x11 => 2,
        0x12..=0x17 => 1,
        _ => 0,
    }
}

// One more than the greatest line number of an edition.
fn line_full(number: u8) -> u64
    ensures { result ≡ 256 ^ (edition number).line_width }
{
    if number == 1 { 0x100 } else { 0x1_0000 }
}

// A line number, as wide as an edition has it. Two calls, so that the compiler makes a load for each width.
pub fn line_at(p: &[u8], at: usize, e: u8) -> u16
    requires { at + (edition e).line_width ≤ length p.now }
    ensures { result ≡ unsigned (take (edition e).line_width (drop at p.now)) }
{
    if e == 1 {
        return unsigned_at(p, at, 1) as u16;
    }
    unsigned_at(p, at, 2) as u16
}

// Whether the edition asked for holds the line number at a place.
fn line_held(p: &[u8], at: usize, editions: Editions) -> bool
    requires { at + (edition editions.from).line_width ≤ length p.now }
    ensures { result ≡ ltb (unsigned (take (edition editions.from).line_width (drop at p.now))) (256 ^ (edition editions.to).line_width) }
{
    u64::from(line_at(p, at, editions.from)) < line_full(editions.to)
}

// The same of the n line numbers, two at most, from start on.
fn lines_held(p: &[u8], start: usize, n: usize, editions: Editions) -> bool
    requires n_bound { n ≤ 2 }
    requires e_in_bounds { start + n * (edition editions.from).line_width ≤ length p.now }
    ensures { result ≡ every (λ m. ltb m (256 ^ (edition editions.to).line_width)) (unsigneds (edition editions.from).line_width n (drop start p.now)) }
{
    if n == 0 {
        return true;
    }
    if line_held(p, start, editions) {
        if n == 1 {
            return true;
        }
        return line_held(p, start + line_bytes(editions.from), editions);
    }
    false
}

// The first field with a line number that the edition asked for cannot hold.
pub fn first_wide(p: &[u8], at: usize, editions: Editions) -> Result<(), Fault>
    requires { LinesThere (edition editions.from).line_width (fields_at p.now at) }
    ensures { each_field 10 file_proof (lines_fit (edition editions.from) (edition editions.to)) (fields_at p.now at) ≡ told file_proof (λ x. x) result }
{
    let mut here = at;
    while let Ok(field) = next_field(p, here) {
        if !lines_held(p, field.start, line_count(field.tag), editions) {
            return Err(field.refused(Refusal::NoSuchLine));
        }
        here = field.next;
    }
    Ok(())
}

// How many bytes the contents of a field have when its line numbers are turned.
pub fn turned_len(tag: u8, len: usize, editions: Editions) -> usize
    requires e_bound { line_count (entry_tagged tag) * (edition editions.from).line_width ≤ len }
    requires len_bound { len ≤ 65_536 }
    ensures is { result ≡ line_count (entry_tagged tag) * (edition editions.to).line_width + (len - line_count (entry_tagged tag) * (edition editions.from).line_width) }
    ensures most { result ≤ len + 2 }
{
    let n = line_count(tag);
    n * line_bytes(editions.to) + (len - n * line_bytes(editions.from))
}

// Whether each field is an entry in its place, whether its line numbers fit, and how many bytes they have together when they are
// turned: all at once, since a proof that is turned passes all. No line is looked for. (A loop without a head: how the file ends
// is told apart.)
pub fn read_entries(p: &[u8], at: usize, k: u8, editions: Editions) -> Result<Turned, Fault>
    requires k_le_constants { k ≤ edition1.constants }
    requires p_len_bound { length p.now ≤ 65_536 }
    ensures { EntriesReadAs editions.from editions.to k (fields_at p.now at) result }
{
    let mut here = at;
    let mut made = false;
    let mut size = 0;
    let mut fit = true;
    loop {
        match next_field(p, here) {
            Ok(field) => {
                match laid_out(field.tag, field.len, k as usize, editions.from, made) {
                    Ok(makes) => made = makes,
                    Err(refusal) => return Err(field.refused(refusal)),
                }
                fit &= lines_held(p, field.start, line_count(field.tag), editions);
                size += 3 + turned_len(field.tag, field.len, editions);
                here = field.next;
            }
            Err(End::Cut { at: place }) => {
                return Err(Fault {
                    refusal: Refusal::Truncated,
                    place,
                });
            }
            Err(End::Ends { at: _ }) => return Ok(Turned { size, fit }),
        }
    }
}
