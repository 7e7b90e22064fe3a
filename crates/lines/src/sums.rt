// A new line as a sum of two: α·s + β·t, form and partial interpolant, number by number within the range.
// The line is `mixed_line` (specs/Buffer.antt); rows and line_starts call it.
ghost use Rattle.std.specs.Prelude.{◌*◌};
ghost use Rattle.lines.specs.Buffer.{size, SumAsked, LineTerms, Mixes};

use crate::{place, place_a};
use forms::LineNumber;
use integers::number;

// One form of a new line, number by number in the steps of FM-ELIM: α·s, then β·t, then their sum, up to the first that is out of range; whether there is none. The w numbers of s, of t and of the new form start at these places.
fn mix_numbers(
    lines: &mut [i32],
    alpha: i64,
    s: usize,
    beta: i64,
    t: usize,
    new: usize,
    w: usize,
) -> bool
    requires { SumAsked lines.old alpha s beta t new w }
    ensures { Mixes lines.old alpha s beta t new w lines.new result }
{
    for x in 0..w {
        let alpha_s = alpha * number(lines, s + x);
        let beta_t = beta * number(lines, t + x);
        let sum = alpha_s + beta_t;
        if !integers::in_range(sum) {
            return false;
        }
        lines[new + x] = sum as i32;
    }
    true
}

// FM-ELIM of Figure 6 in source 000: from line s with its partial interpolant sA and line t with tA, line n becomes αs + βt with αsA + βtA, if every number of it is within the range; whether they are.
fn mix(
    lines: &mut [i32],
    alpha: i64,
    s: LineNumber,
    beta: i64,
    t: LineNumber,
    n: LineNumber,
    k: usize,
) -> bool
    requires { LineTerms k lines.old alpha s.0 beta t.0 n.0 }
    ensures { Mixes lines.old alpha (s.0 * size k) beta (t.0 * size k) (n.0 * size k) (size k) lines.new result }
{
    // First the form: α·s, β·t, αs + βt.
    let s_at = place(s, k);
    let t_at = place(t, k);
    let new_at = place(n, k);
    if !mix_numbers(lines, alpha, s_at, beta, t_at, new_at, k + 1) {
        return false;
    }
    // When that is done, the partial interpolant in the same steps: α·sA, β·tA, αsA + βtA.
    let sa_at = place_a(s, k);
    let ta_at = place_a(t, k);
    let new_a_at = place_a(n, k);
    mix_numbers(lines, alpha, sa_at, beta, ta_at, new_a_at, k + 1)
}

// The same in one run over t and tA: where a factor is 1 or 0 the compiler then leaves its product out.
pub fn mix_whole(
    lines: &mut [i32],
    alpha: i64,
    s: LineNumber,
    beta: i64,
    t: LineNumber,
    n: LineNumber,
    k: usize,
) -> bool
    requires { LineTerms k lines.old alpha s.0 beta t.0 n.0 }
    ensures { Mixes lines.old alpha (s.0 * size k) beta (t.0 * size k) (n.0 * size k) (size k) lines.new result }
{
    let s_at = place(s, k);
    let t_at = place(t, k);
    let new_at = place(n, k);
    mix_numbers(lines, alpha, s_at, beta, t_at, new_at, 2 * (k + 1))
}

// Line n of lines s and t: the form and then the partial interpolant, or both in one run. (A flag, not a closure: each call has it as a literal, and the two runs have one contract.)
pub fn mix_line(
    lines: &mut [i32],
    form_first: bool,
    alpha: i64,
    s: LineNumber,
    beta: i64,
    t: LineNumber,
    n: LineNumber,
    k: usize,
) -> bool
    requires { LineTerms k lines.old alpha s.0 beta t.0 n.0 }
    ensures { Mixes lines.old alpha (s.0 * size k) beta (t.0 * size k) (n.0 * size k) (size k) lines.new result }
{
    if form_first {
        return mix(lines, alpha, s, beta, t, n, k);
    }
    mix_whole(lines, alpha, s, beta, t, n, k)
}
