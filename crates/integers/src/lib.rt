// The integers: definitions in specs/, laws in proofs/, and the signed arithmetic of the machine.
// Every function here says what it gives in ℤ, so that nothing above meets a machine word.
#![tactic(auto)]

ghost use Rattle.std.specs.Prelude.{◌≡◌, ◌&&◌, ◌<◌, leb, pos, nat_abs, length, get_or, ◌≤ℤ◌};
ghost use Rattle.std.specs.Int.Signed.{le_z, lt_z};
ghost use Rattle.integers.specs.Linear.{eq_z};
ghost use Rattle.integers.specs.Divides.{divb};
ghost use Rattle.integers.specs.Remainder.{remainder};

// The number at a place, of 64 bits. Every number of a line, and every register value, that is tested or computed with is read here.
pub fn number(numbers: &[i32], at: usize) -> i64
    requires { at < length numbers.now }
    ensures { result ≡ get_or numbers.now at (pos 0) }
{
    numbers[at] as i64
}

// All numbers of t and tA stay within ± this.
const RANGE: i64 = 2147483647;

const LEAST: i64 = -RANGE;

// Whether x is within the range.
pub fn in_range(x: i64) -> bool
    ensures { result ≡ leb (nat_abs x) 2147483647 }
{
    x <= RANGE && LEAST <= x
}

// Whether g divides x.
pub fn divides(g: i64, x: i64) -> bool
    requires { (pos 2) ≤ℤ g }
    ensures { result ≡ divb g x }
{
    x % g == 0
}

// Whether x lies from 0 to g-1.
fn is_residue(x: i64, g: i64) -> bool
    ensures { result ≡ le_z (pos 0) x && lt_z x g }
{
    0 <= x && x < g
}

// The remainder of x from 0 to g-1. Most numbers are their own, and a division takes long.
#[tactic(auto, unfolding(crate::specs::Remainder::remainder))]
pub fn remainder(x: i64, g: i64) -> i64
    requires { (pos 2) ≤ℤ g }
    ensures { result ≡ pos (remainder (nat_abs g) x) }
{
    if is_residue(x, g) {
        return x;
    }
    x.rem_euclid(g)
}

// Comparisons by name: each tells its answer in ℤ, where the operator's test is told of the machine's words.
pub fn is_zero(x: i64) -> bool
    ensures { result ≡ eq_z x (pos 0) }
{
    x == 0
}

// A number that is 0 where x and y both are, and only there.
pub fn joined(x: i64, y: i64) -> i64
    ensures { eq_z result (pos 0) ≡ eq_z x (pos 0) && eq_z y (pos 0) }
{
    x | y
}

pub fn is_positive(x: i64) -> bool
    ensures { result ≡ lt_z (pos 0) x }
{
    0 < x
}

pub fn same(x: i64, y: i64) -> bool
    ensures { result ≡ eq_z x y }
{
    x == y
}

pub fn between(x: u8, low: u8, high: u8) -> bool
    ensures { result ≡ (leb low x && leb x high) }
{
    low <= x && x <= high
}
