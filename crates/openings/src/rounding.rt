// A rounding (k-STRENGTHEN of section 6.1 in source 000): its tests, the line that its first branch starts with, and what stands before the formula of each other branch.
ghost use Rattle.std.specs.Prelude.{◌≡◌, ◌+◌, ◌≤◌, ◌<◌, pos, nat_abs, ◌≤ℤ◌, length};
ghost use Rattle.integers.specs.Magnitude.{Within};
ghost use Rattle.forms.specs.Edition.{edition1};
ghost use Rattle.formula_write.specs.Writing.{scratch_limit, Divisor, StrideTemplate};
ghost use Rattle.proof.specs.Rows.{undivided};
ghost use Rattle.lines.specs.Buffer.{line_in, LineStart};
ghost use Rattle.lines.specs.Ready.{Ready};
ghost use Rattle.openings.specs.Opening.{Roundable, RoundOpens, RoundedStarts};

use crate::opening::open_step;
use answers::refusals::Refusal;
use forms::{LineNumber, ROUNDING};
use formula_write::put_front;
use line_starts::start_line;
use lines::kinds::{INEQUALITY, kind_of};
use lines::place_a;
use tally::Tally;

// Whether g divides d + j for no j below `by`.
fn is_undivided(g: i64, d: i64, by: u16) -> bool
    requires pos_bound { (pos 2) ≤ℤ g }
    requires within { Within edition1.range d × (by ≤ edition1.rounding) }
    ensures { result ≡ undivided (nat_abs g) d by }
{
    for j in (0..by).rev() {
        if integers::divides(g, d + j as i64) {
            return false;
        }
    }
    true
}

// 10, 11, 12, 15.
fn test_round(
    lines: &[i32],
    kinds: &[u8],
    tally: Tally,
    i: LineNumber,
    g: u16,
    by: u16,
    k: usize,
) -> Result<(), Refusal>
    requires { Ready tally.edition k kinds.now lines.now tally.lines.0 }
    ensures { Roundable k kinds.now lines.now tally i.0 g by result }
{
    if !tally.is_there(i) {
        return Err(Refusal::NoSuchLine);
    }
    if kind_of(kinds, i) != INEQUALITY {
        return Err(Refusal::WrongLineKind);
    }
    if g < 2 {
        return Err(Refusal::WrongMultiplier);
    }
    if by == 0 || by > ROUNDING {
        return Err(Refusal::WrongMultiplier);
    }
    let stride = i64::from(g);
    let t = lines::place(i, k);
    if !lines::all_divisible(lines, t, k, stride) {
        return Err(Refusal::ConditionNotMet);
    }
    let d = integers::number(lines, t + k);
    if !is_undivided(stride, d, by) {
        return Err(Refusal::ConditionNotMet);
    }
    Ok(())
}

// 10, 11, 12, 15, then as `open_step`.
pub fn round(
    lines: &mut [i32],
    kinds: &mut [u8],
    tally: Tally,
    i: LineNumber,
    g: u16,
    by: u16,
    k: usize,
) -> Result<Tally, Refusal>
    requires { Ready tally.edition k kinds.old lines.old tally.lines.0 }
    ensures { RoundOpens k kinds.old lines.old tally i.0 g by kinds.new lines.new result }
{
    test_round(lines, kinds, tally, i, g, by, k)?;
    open_step(lines, kinds, tally, i, by, by, k)
}

// The branch of j of a rounding by `by` starts: line n becomes line i with t + by and tA + j, and what stands before its formula is written, with Ej of that tA
// by the template of line i's: they differ in the constant term only.
pub fn start_rounded(
    lines: &mut [i32],
    kinds: &mut [u8],
    i: LineNumber,
    n: LineNumber,
    k: usize,
    g: i64,
    by: u16,
    j: u16,
    others: bool,
    template: &[u8],
    scratch: &mut [u8],
    o: usize,
) -> usize
    requires line_start { LineStart k lines.old i.0 n.0 by by × (n.0 < length kinds.old) × (j < by) }
    requires divisor { Divisor g × (o + 81 ≤ scratch_limit) }
    requires stride_template { StrideTemplate k (nat_abs g) (line_in k kinds.old lines.old i.0).t_A template.now }
    ensures { RoundedStarts k i.0 n.0 (nat_abs g) by j others kinds.old lines.old scratch.old o kinds.new lines.new scratch.new result }
{
    start_line(lines, kinds, i, n, k, INEQUALITY, by, j);
    let ta = place_a(n, k);
    let d = integers::number(lines, ta + k);
    put_front(template, d, k, g, others, scratch, o)
}
