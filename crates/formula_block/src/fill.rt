// The truths of all vectors, block by block.
ghost use Rattle.std.specs.Prelude.{◌≡◌, ◌+◌, ◌^◌, ◌≤◌, length};
ghost use Rattle.formula_leaf.specs.Masks.{bits_of};
ghost use Rattle.formula_block.specs.Blocks.{VectorList, Fills};

use crate::block::block_judged;
use forms::LEVELS;

// The most vectors of a block: the bit behind the last one still has 64 bits.
const BLOCK: usize = 63;

// A mask with n bits, all of them 1.
fn all_of(n: usize) -> u64
    requires { n ≤ 63 }
    ensures { result + 1 ≡ 2 ^ n }
{
    (1 << n) - 1
}

// As many bits of a mask as there is room for, one byte each.
fn put_bits(mask: u64, out: &mut [u8])
    ensures { out.new ≡ bits_of (length out.old) mask }
{
    let mut left = mask;
    for bit in out.iter_mut() {
        *bit = (left % 2) as u8;
        left /= 2;
    }
}

// The formula at `start`, which has been read, at n vectors of K values.
pub fn fill(formula: &[u8], start: usize, values: &[i32], k: usize, n: usize, out: &mut [u8])
    requires vector_list { VectorList values.now k n }
    requires n_in_bounds { n ≤ length out.old }
    ensures { Fills formula.now start values.now k n out.old out.new }
{
    // (The last step is shorter; `step_by` would want a measure too.)
    let mut i = 0;
    while i < n {
        let size = BLOCK.min(n - i);
        let from = i * k;
        let end = from + size * k;
        let judged = block_judged(
            formula,
            start,
            &values[from..end],
            k,
            size,
            LEVELS,
            all_of(size),
        );
        put_bits(judged.mask, &mut out[i..i + size]);
        i += size;
    }
}
