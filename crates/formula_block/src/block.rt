// A formula that has been read, judged at all vectors of a block in one pass: each field is read once for up to 63 vectors, and the truths are the
// bits of one number. What is no longer asked for is not computed: the second part of an and only where the first is true, of an or where it is false.
ghost use Rattle.std.specs.Prelude.{◌+◌, ◌≤◌, pos, nat_abs, take, drop, ◌≤ℤ◌};
ghost use Rattle.forms.specs.Edition.{edition1};
ghost use Rattle.forms.specs.Forms.{◌divides◌};
ghost use Rattle.number_bytes.specs.Numbers.{signed};
ghost use Rattle.form_value.specs.FormAt.{form_at, Whole};
ghost use Rattle.formula_leaf.specs.Masks.{Marks};
ghost use Rattle.formula_leaf.specs.Leaves.{Block};
ghost use Rattle.formula_block.specs.Blocks.{BlockJudged, BothJudged};

use fields::next_or_fault;
use form_value::is_power;
use forms::TERM_BYTES;
use formula_leaf::{Leaf, leaf_marks};
use formula_read::node::{Node, node_of};
use number_bytes::words::Width;

// The vectors of which a formula is true, and the place after it.
#[derive(Clone, Copy)]
pub struct Masked {
    pub mask: u64,
    pub next: usize,
}

// A stride part: by words where g is a power of two.
fn stride_marks(s: &[u8], start: usize, values: &[i32], k: usize, n: usize, active: u64) -> u64
    requires whole { Whole s.now (start + edition1.term_width) k }
    requires block { Block values.now k n active }
    ensures small { result ≤ active }
    ensures is { (pos 2) ≤ℤ signed (take edition1.term_width (drop start s.now)) → Marks (nat_abs (signed (take edition1.term_width (drop start s.now))) divides form_at s.now (start + edition1.term_width) k) values.now k n active result }
{
    let g = Width::Four.signed_at(s, start);
    if g < 2 {
        return 0;
    }
    let at = start + TERM_BYTES;
    let stride = g as u32;
    if is_power(stride) {
        return leaf_marks(Leaf::Power { g: stride }, s, at, values, k, n, active);
    }
    leaf_marks(Leaf::Stride { g: stride }, s, at, values, k, n, active)
}

#[cycle(block_judged_both_judged)]
pub fn block_judged(
    s: &[u8],
    at: usize,
    values: &[i32],
    k: usize,
    n: usize,
    levels: usize,
    active: u64,
) -> Masked
    requires { Block values.now k n active }
    ensures { BlockJudged s.now at values.now k n levels active result }
{
    let Ok(field) = next_or_fault(s, at) else {
        return Masked { mask: 0, next: at };
    };
    match node_of(field.tag, field.len, k) {
        Ok(Node::Pair { either }) => both_judged(
            s, field.next, values, k, n, levels, active, either,
        ),
        Ok(Node::Literal { equality }) => Masked {
            mask: leaf_marks(
                Leaf::Literal { equality },
                s,
                field.start,
                values,
                k,
                n,
                active,
            ),
            next: field.next,
        },
        Ok(Node::Stride) => Masked {
            mask: stride_marks(s, field.start, values, k, n, active),
            next: field.next,
        },
        Err(_) => Masked {
            mask: 0,
            next: field.next,
        },
    }
}

// The two parts of an and/or, the second where the first leaves it open: no vector is in both masks of an or.
#[cycle(block_judged_both_judged)]
fn both_judged(
    s: &[u8],
    at: usize,
    values: &[i32],
    k: usize,
    n: usize,
    levels: usize,
    active: u64,
    either: bool,
) -> Masked
    requires { Block values.now k n active }
    ensures { BothJudged s.now at values.now k n levels active either result }
{
    if levels == 0 {
        return Masked { mask: 0, next: at };
    }
    let first = block_judged(s, at, values, k, n, levels - 1, active);
    let mask = first.mask;
    let middle = first.next;
    if either {
        let second = block_judged(s, middle, values, k, n, levels - 1, active - mask);
        return Masked {
            mask: mask + second.mask,
            next: second.next,
        };
    }
    block_judged(s, middle, values, k, n, levels - 1, mask)
}
