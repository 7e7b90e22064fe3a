// The tests of the rows that close a branch.
ghost use Rattle.std.specs.Prelude.{◌≡◌, leb, nat_abs};
ghost use Rattle.forms.specs.Flat.{kind_of};
ghost use Rattle.proof.specs.Rows.{fails};
ghost use Rattle.lines.specs.Ready.{Ready};
ghost use Rattle.closes.specs.Closing.{ByNumber};
ghost use Rattle.closes.specs.Striding.{ByStride};

use answers::refusals::Refusal;
use forms::LineNumber;
use lines::kinds::{EQUALITY, kind_of};
use tally::Tally;

// d > 0 for an inequality, d ≠ 0 for an equality.
fn is_false(kind: u8, d: i64) -> bool
    ensures { result ≡ fails (kind_of kind) d }
{
    if kind == 0 {
        return integers::is_positive(d);
    }
    !integers::is_zero(d)
}

// Close by number. 10, 11, 15.
pub fn test_number(
    lines: &[i32],
    kinds: &[u8],
    tally: Tally,
    i: LineNumber,
    k: usize,
) -> Result<(), Refusal>
    requires { Ready tally.edition k kinds.now lines.now tally.lines.0 }
    ensures { ByNumber k kinds.now lines.now tally i.0 result }
{
    if !tally.is_there(i) {
        return Err(Refusal::NoSuchLine);
    }
    let kind = kind_of(kinds, i);
    if kind > EQUALITY {
        return Err(Refusal::WrongLineKind);
    }
    let t = lines::place(i, k);
    if !lines::all_zero(lines, t, k) {
        return Err(Refusal::ConditionNotMet);
    }
    let d = integers::number(lines, t + k);
    if !is_false(kind, d) {
        return Err(Refusal::ConditionNotMet);
    }
    Ok(())
}

// Close by stride. 10, 11, 12, 15.
pub fn test_stride(
    lines: &[i32],
    kinds: &[u8],
    tally: Tally,
    i: LineNumber,
    g: u16,
    k: usize,
) -> Result<(), Refusal>
    requires { Ready tally.edition k kinds.now lines.now tally.lines.0 }
    ensures { ByStride k kinds.now lines.now tally i.0 g result }
{
    if !tally.is_there(i) {
        return Err(Refusal::NoSuchLine);
    }
    if kind_of(kinds, i) != EQUALITY {
        return Err(Refusal::WrongLineKind);
    }
    if g < 2 {
        return Err(Refusal::WrongMultiplier);
    }
    let stride = i64::from(g);
    let t = lines::place(i, k);
    if !lines::all_divisible(lines, t, k, stride) {
        return Err(Refusal::ConditionNotMet);
    }
    let d = integers::number(lines, t + k);
    if integers::divides(stride, d) {
        return Err(Refusal::ConditionNotMet);
    }
    Ok(())
}
