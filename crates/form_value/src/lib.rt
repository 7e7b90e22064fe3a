// The value of a form at register values, and whether a number divides it: in whole numbers, and in words where the number is a power of two.
// Words and what they tell are specs/Quick.antt; formula_read and the crates of lists judge stride parts by it.
#![tactic(auto)]

ghost use Rattle.std.specs.Prelude.{◌≡◌, ℕ, ℤ, List, ◌+◌, ◌*◌, ◌<◌, ◌≤◌, length, take, drop, pos, ◌+ℤ◌, ◌*ℤ◌, ◌≤ℤ◌, slice_index_or};
ghost use Rattle.forms.specs.Flat.{form_in};
ghost use Rattle.integers.specs.Divides.{divb};
ghost use Rattle.integers.specs.Magnitude.{Within};
ghost use Rattle.forms.specs.Edition.{edition1};
ghost use Rattle.forms.specs.Forms.{value};
ghost use Rattle.number_bytes.specs.Numbers.{signed};
ghost use Rattle.number_bytes.specs.Ranges.{Held};
ghost use Rattle.formula.specs.Test.{registers};
ghost use Rattle.form_value.specs.Quick.{word, power, Power};
ghost use Rattle.form_value.specs.Registers.{Registers, TotalSmall};
ghost use Rattle.form_value.specs.FormAt.{form_at, numbers_of, Whole};

use forms::TERM_BYTES;
use integers::{divides, number};
use number_bytes::words::Width;

// The numbers of a form, wherever they stand: the K coefficients, and the constant term behind them.
pub trait Numbers: Copy {
    ghost numbers: { Self → List ℤ };

    fn number(self, i: usize) -> i64
        requires { i < length (numbers self) }
        ensures is { result ≡ slice_index_or (numbers self) i (pos 0) }
        ensures range { Within 2147483648 result };
}

// In the bytes of a file, four to each.
#[derive(Clone, Copy)]
pub struct InBytes<'a> {
    pub bytes: &'a [u8],
}

impl<'a> Numbers for InBytes<'a> {
    ghost numbers = { λ form. numbers_of form.bytes.now };

    fn number(self, i: usize) -> i64 {
        Width::Four.signed_at(self.bytes, i * TERM_BYTES)
    }
}

// Read before.
#[derive(Clone, Copy)]
pub struct InNumbers<'a> {
    pub numbers: &'a [i32],
}

impl<'a> Numbers for InNumbers<'a> {
    ghost numbers = { λ form. form.numbers.now };

    fn number(self, i: usize) -> i64 {
        self.numbers[i] as i64
    }
}

// What a form's value is summed in: whole numbers, or words that wrap.
pub trait Total: Copy {
    ghost of: { ℤ → Self };

    fn of(n: i64) -> Self
        requires { Within 2147483648 n }
        ensures { result ≡ of n };

    // A coefficient times a register, and the total so far.
    fn with_term(self, c: i64, x: i64) -> Self
        requires c_small { Within 2147483648 c }
        requires x_small { Within edition1.values x }
        requires total { TotalSmall of self }
        ensures { (z : ℤ) → self ≡ of z → result ≡ of (c *ℤ x +ℤ z) };
}

impl Total for i64 {
    ghost of = { λ z. z };

    fn of(n: i64) -> i64 {
        n
    }

    fn with_term(self, c: i64, x: i64) -> i64 {
        c * x + self
    }
}

impl Total for u32 {
    ghost of = { word };

    fn of(n: i64) -> u32 {
        word(n)
    }

    fn with_term(self, c: i64, x: i64) -> u32 {
        word(c).wrapping_mul(word(x)).wrapping_add(self)
    }
}

// The word of a number.
fn word(x: i64) -> u32
    requires { Within 2147483648 x }
    ensures { result ≡ word x }
{
    ((x + 0x1_0000_0000) as u64 % 0x1_0000_0000) as u32
}

// The value of a form, from the last term to the first, so that the total is always that of a form: of the numbers summed so far.
pub fn total_of<N: Numbers, T: Total>(form: N, values: &[i32], k: usize) -> T
    requires k_in_bounds { k < length (N.numbers form) }
    requires registers { Registers values.now k }
    ensures { result ≡ T.of (value (form_in k (N.numbers form) 0) (registers values.now)) }
{
    let mut total = T::of(form.number(k));
    for i in (0..k).rev() {
        total = total.with_term(form.number(i), number(values, i));
    }
    total
}

pub fn value_at(s: &[u8], at: usize, values: &[i32], k: usize) -> i64
    requires whole { Whole s.now at k }
    requires registers { Registers values.now k }
    ensures { result ≡ value (form_at s.now at k) (registers values.now) }
{
    total_of(InBytes { bytes: &s[at..] }, values, k)
}

// value_at in words.
fn word_at(s: &[u8], at: usize, values: &[i32], k: usize) -> u32
    requires whole { Whole s.now at k }
    requires registers { Registers values.now k }
    ensures { result ≡ word (value (form_at s.now at k) (registers values.now)) }
{
    total_of(InBytes { bytes: &s[at..] }, values, k)
}

// Whether g is a power of two: it has no bit in common with the number below it. (`is_power_of_two` counts bits, and std has no law that ties the count to 2^e.)
pub fn is_power(g: u32) -> bool
    requires { (2 ≤ g) × (g < 2147483648) }
    ensures { result ≡ power g }
{
    g & (g - 1) == 0
}

// Whether g, a power of two, divides a word.
pub fn divides_word(g: u32, w: u32) -> bool
    requires { Power g }
    ensures { result ≡ divb (pos g) (pos w) }
{
    w & (g - 1) == 0
}

// Whether g divides the value of a form. Where g is a power of two, 2 to 2^30, the sum is formed in words: g divides the word just where it
// divides the sum.
pub fn divides_at(s: &[u8], at: usize, values: &[i32], k: usize, g: i64) -> bool
    requires whole { Whole s.now at k }
    requires registers { Registers values.now k }
    requires pos_bound { ((pos 2) ≤ℤ g) × Held edition1.term_width g }
    ensures { result ≡ divb g (value (form_at s.now at k) (registers values.now)) }
{
    let n = g as u32;
    if is_power(n) {
        return divides_word(n, word_at(s, at, values, k));
    }
    divides(g, value_at(s, at, values, k))
}
