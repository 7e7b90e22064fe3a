// A leaf of a formula, a part that is no and/or, judged at the vectors of a block: its form's numbers are read once.
// specs/Leaves.antt has its answer as the truths of the definition, as the bits of a number (specs/Masks.antt); formula_block calls it.
#![tactic(auto)]

ghost use Rattle.std.specs.Prelude.{◌≡◌, ◌+◌, ◌*◌, ◌%◌, ◌^◌, ◌<◌, ◌≤◌, ◌&&◌, length, take, drop, pos, ◌+ℤ◌, ◌*ℤ◌, ◌==◌, slice_index_or};
ghost use Rattle.forms.specs.Flat.{form_in};
ghost use Rattle.formula.specs.Test.{judge, registers};
ghost use Rattle.form_value.specs.Registers.{Registers};
ghost use Rattle.form_value.specs.FormAt.{form_at, Whole};
ghost use Rattle.formula_leaf.specs.Masks.{Marks};
ghost use Rattle.formula.specs.TestList.{byte};
ghost use Rattle.formula_leaf.specs.Leaves.{leaf_formula, Proper, VectorAt, Block};

use form_value::{InNumbers, divides_word, total_of};
use forms::CONSTANTS;
use formula_read::reading::says;
use integers::divides;
use number_bytes::words::Width;
use number_runs::store::store_numbers;

#[derive(Clone, Copy)]
pub enum Leaf {
    // "t = 0" where equality is true, "t ≤ 0" where it is false.
    Literal { equality: bool },
    // A stride that is a power of two.
    Power { g: u32 },
    // Any stride.
    Stride { g: u32 },
}

// Whether a leaf is true of a vector.
fn holds_of(leaf: Leaf, numbers: &[i32], vector: &[i32], k: usize) -> bool
    requires proper { Proper leaf }
    requires k_in_bounds { k < length numbers.now }
    requires registers { Registers vector.now k }
    ensures { result ≡ judge (leaf_formula leaf (form_in k numbers.now 0)) (registers vector.now) }
{
    match leaf {
        Leaf::Literal { equality } => says(equality, total_of(InNumbers { numbers }, vector, k)),
        Leaf::Power { g } => divides_word(g, total_of(InNumbers { numbers }, vector, k)),
        Leaf::Stride { g } => divides(g as i64, total_of(InNumbers { numbers }, vector, k)),
    }
}

// A mask with the bit p of vector i added, if the vector is asked for, as `left` is odd, and the leaf is true of it.
fn with_vector(
    leaf: Leaf,
    numbers: &[i32],
    values: &[i32],
    k: usize,
    i: usize,
    left: u64,
    p: u64,
    mask: u64,
) -> u64
    requires proper { Proper leaf }
    requires k_in_bounds { k < length numbers.now }
    requires vector_at { VectorAt values.now k i }
    requires p_bound { mask + p < 2 ^ 64 }
    ensures { result ≡ mask + p * byte (left % 2 == 1 && judge (leaf_formula leaf (form_in k numbers.now 0)) (registers (take k (drop (i * k) values.now)))) }
{
    if left % 2 == 0 {
        return mask;
    }
    let from = i * k;
    let end = from + k;
    if holds_of(leaf, numbers, &values[from..end], k) {
        return mask + p;
    }
    mask
}

// The vectors of `active` of which a leaf is true. No vector behind the last active one is looked at.
fn marks(leaf: Leaf, numbers: &[i32], values: &[i32], k: usize, n: usize, active: u64) -> u64
    requires proper { Proper leaf }
    requires k_in_bounds { k < length numbers.now }
    requires block { Block values.now k n active }
    ensures small { result ≤ active }
    ensures is { Marks (leaf_formula leaf (form_in k numbers.now 0)) values.now k n active result }
{
    let mut left = active;
    let mut mask: u64 = 0;
    let mut p: u64 = 1;
    let mut i = 0;
    while 0 < left {
        mask = with_vector(leaf, numbers, values, k, i, left, p, mask);
        left /= 2;
        p *= 2;
        i += 1;
    }
    mask
}

// The most numbers of a form.
const NUMBERS: usize = CONSTANTS as usize + 1;

// The same for the form at a place, whose numbers go into an array first.
pub fn leaf_marks(
    leaf: Leaf,
    s: &[u8],
    at: usize,
    values: &[i32],
    k: usize,
    n: usize,
    active: u64,
) -> u64
    requires proper { Proper leaf }
    requires whole { Whole s.now at k }
    requires block { Block values.now k n active }
    ensures small { result ≤ active }
    ensures is { Marks (leaf_formula leaf (form_at s.now at k)) values.now k n active result }
{
    if active == 0 {
        return 0;
    }
    let mut array = [0; NUMBERS];
    let numbers = &mut array[..k + 1];
    store_numbers(s, at, Width::Four, numbers);
    marks(leaf, numbers, values, k, n, active)
}
