// The rows that make a line: their tests, and the new line behind the branch's lines.
ghost use Rattle.integers.specs.Magnitude.{Within};
ghost use Rattle.forms.specs.Edition.{multiplier_range};
ghost use Rattle.calculus.specs.Rules.{Combine, Reduce, Scale};
ghost use Rattle.lines.specs.Ready.{Ready};
ghost use Rattle.rows.specs.Rows.{Operands, Appended, Derives};

use answers::refusals::Refusal;
use forms::LineNumber;
use lines::kinds::{EQUALITY, INEQUALITY, kind_of, set_kind};
use tally::Tally;

// One line more: f times line i plus g times line j, of the kind given; the form first and then the partial interpolant, where it is said. 16, 13.
fn append(
    lines: &mut [i32],
    kinds: &mut [u8],
    tally: Tally,
    form_first: bool,
    f: i64,
    i: LineNumber,
    g: i64,
    j: LineNumber,
    kind: u8,
    k: usize,
) -> Result<Tally, Refusal>
    requires ready { Ready tally.edition k kinds.old lines.old tally.lines.0 }
    requires operands { Operands tally.lines.0 f i.0 g j.0 kind }
    ensures { Appended k kinds.old lines.old tally f i.0 g j.0 kind kinds.new lines.new result }
{
    let mut next = tally;
    next.count_line()?;
    let n = tally.lines;
    if !lines::sums::mix_line(lines, form_first, f, i, g, j, n, k) {
        return Err(Refusal::OutOfRange);
    }
    set_kind(kinds, n, kind);
    Ok(next)
}

// FM-ELIM of Figure 6 in source 000: α·s, then β·t, then their sum αs + βt; then the partial interpolants in the same steps, αsA + βtA (`lines::sums::mix`). 10, 11, 12, then as `append`.
pub fn combine(
    lines: &mut [i32],
    kinds: &mut [u8],
    tally: Tally,
    s: LineNumber,
    t: LineNumber,
    alpha: u16,
    beta: u16,
    k: usize,
) -> Result<Tally, Refusal>
    requires { Ready tally.edition k kinds.old lines.old tally.lines.0 }
    ensures { Derives k kinds.old lines.old tally (Combine s.0 t.0 alpha beta) kinds.new lines.new result }
{
    if !tally.is_there(s) {
        return Err(Refusal::NoSuchLine);
    }
    if !tally.is_there(t) {
        return Err(Refusal::NoSuchLine);
    }
    if kind_of(kinds, s) != INEQUALITY {
        return Err(Refusal::WrongLineKind);
    }
    if kind_of(kinds, t) != INEQUALITY {
        return Err(Refusal::WrongLineKind);
    }
    if alpha == 0 {
        return Err(Refusal::WrongMultiplier);
    }
    if beta == 0 {
        return Err(Refusal::WrongMultiplier);
    }
    append(
        lines,
        kinds,
        tally,
        true,
        i64::from(alpha),
        s,
        i64::from(beta),
        t,
        INEQUALITY,
        k,
    )
}

// RED-LEFT: s as 1·s, then α·t, then their sum s + αt, of s's kind; likewise sA + αtA, in the same run.
pub fn reduce(
    lines: &mut [i32],
    kinds: &mut [u8],
    tally: Tally,
    s: LineNumber,
    t: LineNumber,
    alpha: i64,
    k: usize,
) -> Result<Tally, Refusal>
    requires ready { Ready tally.edition k kinds.old lines.old tally.lines.0 }
    requires within { Within multiplier_range alpha }
    ensures { Derives k kinds.old lines.old tally (Reduce s.0 t.0 alpha) kinds.new lines.new result }
{
    if !tally.is_there(s) {
        return Err(Refusal::NoSuchLine);
    }
    if !tally.is_there(t) {
        return Err(Refusal::NoSuchLine);
    }
    let kind_s = kind_of(kinds, s);
    if kind_s > EQUALITY {
        return Err(Refusal::WrongLineKind);
    }
    if kind_of(kinds, t) != EQUALITY {
        return Err(Refusal::WrongLineKind);
    }
    if integers::is_zero(alpha) {
        return Err(Refusal::WrongMultiplier);
    }
    append(lines, kinds, tally, false, 1, s, alpha, t, kind_s, k)
}

// MUL-LEFT: α·t, to which 0·t is added, of t's kind; likewise αtA, in the same run.
pub fn scale(
    lines: &mut [i32],
    kinds: &mut [u8],
    tally: Tally,
    t: LineNumber,
    alpha: u16,
    k: usize,
) -> Result<Tally, Refusal>
    requires { Ready tally.edition k kinds.old lines.old tally.lines.0 }
    ensures { Derives k kinds.old lines.old tally (Scale t.0 alpha) kinds.new lines.new result }
{
    if !tally.is_there(t) {
        return Err(Refusal::NoSuchLine);
    }
    let kind = kind_of(kinds, t);
    if kind > EQUALITY {
        return Err(Refusal::WrongLineKind);
    }
    if alpha == 0 {
        return Err(Refusal::WrongMultiplier);
    }
    append(
        lines,
        kinds,
        tally,
        false,
        i64::from(alpha),
        t,
        0,
        t,
        kind,
        k,
    )
}
