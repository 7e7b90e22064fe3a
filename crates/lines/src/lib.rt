// The lines of a branch in one flat lent buffer: where they stand, their kinds, tests of their coefficients, and a line as a sum of two.
// Every number is within the range, so it has 32 bits here; what is computed of it has 64.
#![tactic(auto)]

pub mod kinds;
pub mod sums;

ghost use Rattle.std.specs.Prelude.{◌≡◌, ◌+◌, ◌*◌, ◌≤◌, length, pos, ◌≤ℤ◌};
ghost use Rattle.integers.specs.Linear.{eq_z};
ghost use Rattle.integers.specs.Divides.{divb};
ghost use Rattle.forms.specs.Forms.{every};
ghost use Rattle.forms.specs.Edition.{edition, edition1, newest_edition};
ghost use Rattle.lines.specs.Parts.{part};
ghost use Rattle.lines.specs.Buffer.{size};

use forms::LineNumber;
use integers::number;

// Where the numbers of line i's t start, with k constants. Only here a line number becomes a place.
pub fn place(i: LineNumber, k: usize) -> usize
    requires { (i.0 ≤ (edition newest_edition).lines) × (k ≤ edition1.constants) }
    ensures { result ≡ i.0 * size k }
{
    let n = i.0 as usize;
    n * (2 * (k + 1))
}

// Where the numbers of line i's tA start.
pub fn place_a(i: LineNumber, k: usize) -> usize
    requires { (i.0 ≤ (edition newest_edition).lines) × (k ≤ edition1.constants) }
    ensures { result ≡ i.0 * size k + (k + 1) }
{
    place(i, k) + (k + 1)
}

// Whether the k coefficients at a place are all 0. One number stands for those passed, so that the compiler can join several at once.
pub fn all_zero(lines: &[i32], at: usize, k: usize) -> bool
    requires { at + k ≤ length lines.now }
    ensures { result ≡ every (λ c. eq_z c (pos 0)) (part at k lines.now) }
{
    let mut joined = 0;
    for x in 0..k {
        joined = integers::joined(joined, number(lines, at + x));
    }
    integers::is_zero(joined)
}

// Whether g divides each of the k coefficients at a place.
pub fn all_divisible(lines: &[i32], at: usize, k: usize, g: i64) -> bool
    requires k_in_bounds { at + k ≤ length lines.now }
    requires pos_bound { (pos 2) ≤ℤ g }
    ensures { result ≡ every (divb g) (part at k lines.now) }
{
    for x in 0..k {
        if !integers::divides(g, number(lines, at + x)) {
            return false;
        }
    }
    true
}
