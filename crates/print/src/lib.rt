// The operation print: a formula's file as text over the integer constants r0, r1, ..: as a term of SMT-LIB 2, or in words.
// Its definition is printing/specs/Print.antt, its contract printing/specs/Promises.antt; the library calls it.
#![tactic(auto)]

ghost use Rattle.std.specs.Prelude.{◌≡◌, true, false, ◌*◌, ◌≤◌, length};
ghost use Rattle.forms.specs.Edition.{edition1};
ghost use Rattle.answers.specs.Refusals.{number_of};
ghost use Rattle.printing_formula.specs.Printing.{Place};
ghost use Rattle.printing.specs.Promises.{PrintsFile};
ghost use Rattle.print.specs.Phases.{Sized, ReadsWhole, Measures, WritesText, PrintsBehind, Prints, refused_write};

use answers::by_name::refusal;
use answers::refusals::{Fault, Refusal};
use answers::{WriteResult, acceptance};
use fields::FileKind;
use fields::ending::ending_at;
use fields::header::read_header;
use forms::{FORMULA_BYTES, LEVELS};
use printing_formula::language::Language;
use printing_formula::once::whole_at;
use printing_formula::reading::formula_at;
use printing_formula::terms::SmtLib;
use printing_formula::words::PlainWords;
use printing_text::Text;

// (`check_output::refusal` does the like; printing stands on nothing of a check.)
fn refuse(refused: Refusal, file: u8, place: usize) -> WriteResult
    ensures { result ≡ refused_write (number_of refused) file place }
{
    WriteResult {
        answer: refusal(refused, file, place),
        count: 0,
    }
}

// The formula behind the header is read up to the end of its file.
fn read_whole(formula: &[u8], at: usize, k: usize) -> Result<(), Fault>
    requires { k ≤ edition1.constants }
    ensures { ReadsWhole formula.now at k result }
{
    let next = whole_at(formula, at, k, LEVELS)?;
    ending_at(formula, next, FileKind::Formula)
}

// The same, and how many bytes its text has: what a byte does not hold is left out.
fn measure<L: Language>(formula: &[u8], at: usize, k: usize) -> Result<usize, Fault>
    requires { Place formula.now at k 0 }
    ensures { Measures L.wording formula.now at k result }
{
    let mut scratch = [0u8; 1];
    let mut text = Text {
        out: &mut scratch,
        end: 0,
    };
    let next = formula_at::<L>(formula, at, k, LEVELS, false, &mut text)?;
    ending_at(formula, next, FileKind::Formula)?;
    Ok(text.end)
}

// The text, of so many bytes, of a formula that is read whole.
fn put_whole<L: Language>(
    formula: &[u8],
    at: usize,
    k: usize,
    size: usize,
    out: &mut [u8],
) -> WriteResult
    requires place { Place formula.now at k 0 }
    requires sized { Sized L.wording formula.now at k size }
    ensures { WritesText L.wording formula.now at k out.old out.new result }
{
    if out.len() < size {
        return refuse(Refusal::OutputTooShort, 4, size);
    }
    let mut text = Text { out, end: 0 };
    let _next = formula_at::<L>(formula, at, k, LEVELS, false, &mut text);
    WriteResult {
        answer: acceptance(),
        count: size,
    }
}

// The text of a formula that is read whole, into an output that holds the text of any file so long.
fn put_surely<L: Language>(formula: &[u8], at: usize, k: usize, out: &mut [u8]) -> WriteResult
    requires place { Place formula.now at k 0 }
    requires formula_in_bounds { 6 * length formula.now ≤ length out.old }
    ensures { WritesText L.wording formula.now at k out.old out.new result }
{
    let mut text = Text { out, end: 0 };
    match formula_at::<L>(formula, at, k, LEVELS, false, &mut text) {
        Ok(_) => WriteResult {
            answer: acceptance(),
            count: text.end,
        },
        Err(fault) => refuse(fault.refusal, 3, fault.place),
    }
}

// The formula behind the header is read whole before anything is put. A formula's text has at most 6 bytes for each byte of its
// file: an output so long needs no measuring.
fn print_from<L: Language>(
    formula: &[u8],
    at: usize,
    k: usize,
    out: &mut [u8],
) -> Result<WriteResult, Fault>
    requires { Place formula.now at k 0 }
    ensures { PrintsBehind L.wording formula.now at k out.old out.new result }
{
    if 6 * formula.len() <= out.len() {
        read_whole(formula, at, k)?;
        return Ok(put_surely::<L>(formula, at, k, out));
    }
    let size = measure::<L>(formula, at, k)?;
    Ok(put_whole::<L>(formula, at, k, size, out))
}

fn print_file<L: Language>(formula: &[u8], out: &mut [u8]) -> Result<WriteResult, Fault>
    ensures { Prints L.wording formula.now out.old out.new result }
{
    if FORMULA_BYTES < formula.len() {
        return Err(Fault {
            refusal: Refusal::TooLong,
            place: 0,
        });
    }
    let head = read_header(formula, FileKind::Formula, 1, 0)?;
    print_from::<L>(formula, head.next, head.k as usize, out)
}

fn print_as<L: Language>(formula: &[u8], out: &mut [u8]) -> WriteResult
    ensures { PrintsFile L.wording formula.now out.old out.new result }
{
    match print_file::<L>(formula, out) {
        Ok(written) => written,
        Err(fault) => refuse(fault.refusal, 3, fault.place),
    }
}

// Prints a formula as a term of SMT-LIB 2. Refuses: 1, then as the formula is read, whatever K it has, then 21.
pub fn print(formula: &[u8], out: &mut [u8]) -> WriteResult
    ensures { PrintsFile false formula.now out.old out.new result }
{
    print_as::<SmtLib>(formula, out)
}

// The same in words.
pub fn print_words(formula: &[u8], out: &mut [u8]) -> WriteResult
    ensures { PrintsFile true formula.now out.old out.new result }
{
    print_as::<PlainWords>(formula, out)
}
