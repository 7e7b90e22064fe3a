// The number of the row that the rest of a table begins with.
ghost use Rattle.std.specs.Prelude.{◌≡◌, ◌+◌, ◌*◌, ◌%◌, ◌≤◌, ◌<◌, length, get_or, drop, take};
ghost use Rattle.enumeration.specs.Numbering.{inference_count, close_count, factor_number, inference_bytes, close_bytes, inference_guess, close_guess, begins};
ghost use Rattle.number_bytes.specs.Same.{same_bytes};
ghost use Rattle.enumeration_rows.specs.Recognised.{InferenceFound, CloseFound};

use crate::write::{
    close_bytes, close_count, inference_bytes, inference_count, put_close, put_inference,
};
use number_bytes::compare::same_bytes;

// The byte at a place, 0 behind the end.
fn byte_at(rest: &[u8], at: usize) -> u8
    ensures { result ≡ get_or rest.now at 0 }
{
    rest.get(at).copied().unwrap_or(0)
}

// Whether the n first bytes of `part` stand in s from a place on.
pub fn stands(s: &[u8], at: usize, part: &[u8], n: usize) -> bool
    requires { (at ≤ length s.now) × (n ≤ length part.now) }
    ensures { result ≡ begins (take n part.now) (drop at s.now) }
{
    if s.len() - at < n {
        return false;
    }
    same_bytes(part, 0, s, at, n)
}

// ---- the number of a row, by its bytes
// That of a reduce's multiplier, by its second byte.
fn factor_number(low: usize) -> usize
    ensures { result ≡ factor_number low }
{
    match low {
        1 => 0,
        2 => 1,
        0xFE => 2,
        _ => 3,
    }
}

// The number that a combine, a reduce or a scale would have, by its bytes.
fn combine_guess(i: u8, j: u8, alpha: u8, beta: u8, n: usize) -> usize
    requires { n ≤ 6 }
    ensures { result ≡ 4 * (i * n + j) + 2 * ((alpha + 1) % 2) + (beta + 1) % 2 }
{
    4 * (i as usize * n + j as usize) + 2 * ((alpha as usize + 1) % 2) + (beta as usize + 1) % 2
}

fn reduce_guess(i: u8, j: u8, low: u8, n: usize) -> usize
    requires { n ≤ 6 }
    ensures { result ≡ 4 * n * n + 4 * (i * n + j) + factor_number low }
{
    4 * n * n + 4 * (i as usize * n + j as usize) + factor_number(low as usize)
}

fn scale_guess(i: u8, alpha: u8, n: usize) -> usize
    requires { n ≤ 6 }
    ensures { result ≡ 8 * n * n + 2 * i + (alpha + 1) % 2 }
{
    8 * n * n + 2 * i as usize + (alpha as usize + 1) % 2
}

// The number that the inference would have, if it is one.
#[tactic(auto, unfolding(enumeration::specs::Numbering::inference_guess))]
fn inference_guess(rest: &[u8], n: usize) -> usize
    requires { n ≤ 6 }
    ensures { result ≡ inference_guess n rest.now }
{
    let i = byte_at(rest, 3);
    match byte_at(rest, 0) {
        0x10 => {
            let j = byte_at(rest, 4);
            let alpha = byte_at(rest, 6);
            let beta = byte_at(rest, 8);
            combine_guess(i, j, alpha, beta, n)
        }
        0x11 => {
            let j = byte_at(rest, 4);
            let low = byte_at(rest, 6);
            reduce_guess(i, j, low, n)
        }
        _ => {
            let alpha = byte_at(rest, 5);
            scale_guess(i, alpha, n)
        }
    }
}

// Whether inference j stands there.
fn is_inference(rest: &[u8], n: usize, j: usize) -> bool
    requires { (n ≤ 5) × (j < inference_count n) }
    ensures { result ≡ begins (inference_bytes n j) rest.now }
{
    let mut row = [0u8; 9];
    put_inference(&mut row, 0, n, j);
    stands(rest, 0, &row, inference_bytes(n, j))
}

// The number of the inference that stands there, if one does. (close_at is as short, with other functions in each place.)
pub fn inference_at(rest: &[u8], n: usize) -> Option<usize>
    requires { n ≤ 5 }
    ensures { InferenceFound n rest.now result }
{
    let j = inference_guess(rest, n);
    if j < inference_count(n) && is_inference(rest, n, j) {
        Some(j)
    } else {
        None
    }
}

#[tactic(auto, unfolding(enumeration::specs::Numbering::close_guess))]
fn close_guess(rest: &[u8], n: usize) -> usize
    requires { n ≤ 6 }
    ensures { result ≡ close_guess n rest.now }
{
    let i = byte_at(rest, 3) as usize;
    if byte_at(rest, 0) == 0x14 {
        return i;
    }
    n + 3 * i + (byte_at(rest, 5) as usize + 1) % 3
}

// Whether close c stands there and ends the table.
fn is_close(rest: &[u8], n: usize, c: usize) -> bool
    requires { (n ≤ 6) × (c < close_count n) }
    ensures { result ≡ same_bytes (close_bytes n c) rest.now }
{
    let size = close_bytes(n, c);
    if rest.len() != size {
        return false;
    }
    let mut row = [0u8; 6];
    put_close(&mut row, 0, n, c);
    stands(rest, 0, &row, size)
}

// The number of the close that stands there and ends the table, if one does.
pub fn close_at(rest: &[u8], n: usize) -> Option<usize>
    requires { n ≤ 6 }
    ensures { CloseFound n rest.now result }
{
    let c = close_guess(rest, n);
    if c < close_count(n) && is_close(rest, n, c) {
        Some(c)
    } else {
        None
    }
}
