// The rows of short proofs, by number, applied: the line that an inference makes, and whether a close holds.
ghost use Rattle.std.specs.Prelude.{◌≡◌, ◌+◌, ◌%◌, ◌≤◌, ◌<◌};
ghost use Rattle.calculus.specs.Rules.{CloseStride};
ghost use Rattle.enumeration.specs.Numbering.{inference_count, close_count, signed_factor, close_at};
ghost use Rattle.enumeration_rows.specs.Applied.{tally_of, SearchRoom, Infers, CloseHolds};

use closes::closing::{test_number, test_stride};
use forms::{LineNumber, RowNumber};
use rows::derive::{combine, reduce, scale};
use tally::Tally;

// 1 or 2.
fn factor(x: usize) -> u16
    ensures { result ≡ 1 + x % 2 }
{
    (1 + x % 2) as u16
}

// 1, 2, -2, -1: the order of their bytes.
fn signed_factor(x: usize) -> i64
    ensures { result ≡ signed_factor (x % 4) }
{
    match x % 4 {
        0 => 1,
        1 => 2,
        2 => -2,
        _ => -1,
    }
}

// A line by its number.
fn line(i: usize) -> LineNumber
    requires { i < 65536 }
    ensures { result.0 ≡ i }
{
    LineNumber(i as u16)
}

// The tally of n lines, in a proof of edition 1.
fn tally_of(n: usize) -> Tally
    requires { n < 65536 }
    ensures { result ≡ tally_of n }
{
    Tally {
        rows: RowNumber(0),
        lines: LineNumber(n as u16),
        open: 0,
        edition: 1,
    }
}

// Makes the line of inference j behind the n lines; whether it is not refused. (lines, kinds, n and k are no struct: rows and closes
// take the buffers apart, and each contract would have to say that n and k stay.)
#[tactic(auto, using(crate::proofs::Counts::eights, crate::proofs::Counts::square))]
pub fn infer(lines: &mut [i32], kinds: &mut [u8], n: usize, j: usize, k: usize) -> bool
    requires search_room { SearchRoom k 1 kinds.old lines.old (tally_of n) }
    requires j_bound { j < inference_count n }
    ensures { Infers k n j kinds.old lines.old kinds.new lines.new result }
{
    let tally = tally_of(n);
    let block = 4 * n * n;
    if j < block {
        let s = line(j / (4 * n));
        let t = line(j / 4 % n);
        let alpha = factor(j / 2);
        let beta = factor(j);
        return combine(lines, kinds, tally, s, t, alpha, beta, k).is_ok();
    }
    if j < 2 * block {
        let x = j - block;
        let s = line(x / (4 * n));
        let t = line(x / 4 % n);
        let alpha = signed_factor(x);
        return reduce(lines, kinds, tally, s, t, alpha, k).is_ok();
    }
    let x = j - 2 * block;
    let t = line(x / 2);
    let alpha = factor(x);
    scale(lines, kinds, tally, t, alpha, k).is_ok()
}

// Whether line i closes by stride g. (Called with literals, so that the compiler divides by known numbers.)
fn holds_stride(lines: &[i32], kinds: &[u8], tally: Tally, i: usize, g: u16, k: usize) -> bool
    requires search_room { SearchRoom k 0 kinds.now lines.now tally }
    requires i_bound { i < 65536 }
    ensures { CloseHolds k kinds.now lines.now tally.lines.0 (CloseStride i g) result }
{
    test_stride(lines, kinds, tally, line(i), g, k).is_ok()
}

// Whether close c of the n lines holds.
#[tactic(auto, unfolding(enumeration::specs::Numbering::close_at))]
pub fn holds(lines: &[i32], kinds: &[u8], n: usize, c: usize, k: usize) -> bool
    requires search_room { SearchRoom k 0 kinds.now lines.now (tally_of n) }
    requires c_bound { c < close_count n }
    ensures { CloseHolds k kinds.now lines.now n (close_at n c) result }
{
    let tally = tally_of(n);
    if c < n {
        return test_number(lines, kinds, tally, line(c), k).is_ok();
    }
    let x = c - n;
    let i = x / 3;
    match x % 3 {
        0 => holds_stride(lines, kinds, tally, i, 2, k),
        1 => holds_stride(lines, kinds, tally, i, 3, k),
        _ => holds_stride(lines, kinds, tally, i, 4, k),
    }
}
