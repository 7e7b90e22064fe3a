// The line that a branch starts with: a line copied or negated, and raised; and whether it stays within the range.
// The lines are `started_line` and `negated_line` (lines/specs/Buffer.antt); openings and branches call it.
#![tactic(auto)]

ghost use Rattle.std.specs.Prelude.{◌≡◌, ◌&&◌, ◌+◌, ◌*◌, ◌<◌, ◌≤◌, length, get_or, set, pos, negsuc, ◌+ℤ◌, ◌*ℤ◌};
ghost use Rattle.std.proofs.Math.Seq.{paste};
ghost use Rattle.integers.specs.Magnitude.{Within};
ghost use Rattle.forms.specs.Forms.{small};
ghost use Rattle.forms.specs.Edition.{edition, edition1, newest_edition, multiplier_range};
ghost use Rattle.forms.specs.Flat.{form_in};
ghost use Rattle.lines.specs.Parts.{part};
ghost use Rattle.lines.specs.Buffer.{size, Bounded, LineCopy, LineStart, LineNegated, Raised, raised, raised_line, copied_line, started_line, negated_line};

use forms::LineNumber;
use integers::number;
use lines::kinds::set_kind;
use lines::sums::mix_whole;
use lines::{place, place_a};

// x more at a place.
fn raise(lines: &mut [i32], at: usize, x: u16)
    requires at_in_bounds { at < length lines.old }
    requires within { Within edition1.range (get_or lines.old at (pos 0) +ℤ pos x) }
    ensures { lines.new ≡ raised at x lines.old }
{
    let sum = number(lines, at) + x as i64;
    lines[at] = sum as i32;
}

// Line n becomes line i.
fn copy_line(lines: &mut [i32], i: LineNumber, n: LineNumber, k: usize)
    requires { LineCopy k lines.old i.0 n.0 }
    ensures { lines.new ≡ copied_line k i.0 n.0 lines.old }
{
    let from = place(i, k);
    let to = place(n, k);
    lines.copy_within(from..from + 2 * (k + 1), to);
}

// t + x and tA + y in place of t and tA of line n.
fn raise_line(lines: &mut [i32], n: LineNumber, k: usize, x: u16, y: u16)
    requires n_bound { (n.0 < (edition newest_edition).lines) × (k ≤ edition1.constants) × (n.0 * size k + size k ≤ length lines.old) }
    requires raised { Raised k lines.old n.0 x y }
    ensures { lines.new ≡ raised_line k n.0 x y lines.old }
{
    let at = place(n, k);
    raise(lines, at + k, x);
    let at_a = place_a(n, k);
    raise(lines, at_a + k, y);
}

// Line n, of the kind given, becomes line i as a branch starts with it: t + x with tA + y.
pub fn start_line(
    lines: &mut [i32],
    kinds: &mut [u8],
    i: LineNumber,
    n: LineNumber,
    k: usize,
    kind: u8,
    x: u16,
    y: u16,
)
    requires { LineStart k lines.old i.0 n.0 x y × (n.0 < length kinds.old) }
    ensures lines { lines.new ≡ started_line k i.0 n.0 x y lines.old }
    ensures kinds { kinds.new ≡ set kinds.old n.0 kind }
{
    copy_line(lines, i, n, k);
    raise_line(lines, n, k, x, y);
    set_kind(kinds, n, kind);
}

// Line `new` becomes line i negated, as the second branch of a split starts with it: -t + x with -tA + y. (The negated numbers are in range.)
pub fn start_negated(
    lines: &mut [i32],
    kinds: &mut [u8],
    i: LineNumber,
    new: LineNumber,
    k: usize,
    kind: u8,
    x: u16,
    y: u16,
)
    requires { LineNegated k lines.old i.0 new.0 x y × (new.0 < length kinds.old) }
    ensures lines { lines.new ≡ negated_line k i.0 new.0 x y lines.old }
    ensures kinds { kinds.new ≡ set kinds.old new.0 kind }
{
    mix_whole(lines, -1, i, 0, i, new, k);
    raise_line(lines, new, k, x, y);
    set_kind(kinds, new, kind);
}

// Whether f times the number at a place, and x more, is within the range.
fn term_fits(lines: &[i32], at: usize, f: i64, x: u16) -> bool
    requires { (at < length lines.now) × Within multiplier_range f × Within edition1.range (get_or lines.now at (pos 0)) }
    ensures { result ≡ small edition1.range (f *ℤ get_or lines.now at (pos 0) +ℤ pos x) }
{
    let product = f * number(lines, at);
    let sum = product + x as i64;
    integers::in_range(sum)
}

// Whether f·t + x and f·tA + y of line i stay within the range: told by their constant terms.
fn terms_fit(lines: &[i32], i: LineNumber, k: usize, f: i64, x: u16, y: u16) -> bool
    requires i_bound { (i.0 < (edition newest_edition).lines) × (k ≤ edition1.constants) × (i.0 * size k + size k ≤ length lines.now) }
    requires bounded { Bounded k lines.now (i.0 + 1) × Within multiplier_range f }
    ensures { result ≡ small edition1.range (f *ℤ (form_in k lines.now (i.0 * size k)).d +ℤ pos x) && small edition1.range (f *ℤ (form_in k lines.now (i.0 * size k + (k + 1))).d +ℤ pos y) }
{
    let at = place(i, k);
    let at_a = place_a(i, k);
    let t = term_fits(lines, at + k, f, x);
    let ta = term_fits(lines, at_a + k, f, y);
    t & ta
}

// Whether t + x and tA + y of line i stay within the range.
pub fn raised_fit(lines: &[i32], i: LineNumber, k: usize, x: u16, y: u16) -> bool
    requires i_bound { (i.0 < (edition newest_edition).lines) × (k ≤ edition1.constants) × (i.0 * size k + size k ≤ length lines.now) }
    requires bounded { Bounded k lines.now (i.0 + 1) }
    ensures { result ≡ small edition1.range ((form_in k lines.now (i.0 * size k)).d +ℤ pos x) && small edition1.range ((form_in k lines.now (i.0 * size k + (k + 1))).d +ℤ pos y) }
{
    terms_fit(lines, i, k, 1, x, y)
}

// Whether -t + x and -tA + y of line i stay within the range.
pub fn negated_fit(lines: &[i32], i: LineNumber, k: usize, x: u16, y: u16) -> bool
    requires i_bound { (i.0 < (edition newest_edition).lines) × (k ≤ edition1.constants) × (i.0 * size k + size k ≤ length lines.now) }
    requires bounded { Bounded k lines.now (i.0 + 1) }
    ensures { result ≡ small edition1.range (negsuc 0 *ℤ (form_in k lines.now (i.0 * size k)).d +ℤ pos x) && small edition1.range (negsuc 0 *ℤ (form_in k lines.now (i.0 * size k + (k + 1))).d +ℤ pos y) }
{
    terms_fit(lines, i, k, -1, x, y)
}
