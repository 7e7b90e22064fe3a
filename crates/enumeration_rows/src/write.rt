// The rows of short proofs, by number: how many there are over n lines, and their bytes.
ghost use Rattle.std.specs.Prelude.{◌≡◌, ◌≤◌, ◌+◌, ◌/◌, ◌%◌, ◌<◌, [], ◌∷◌, length};
ghost use Rattle.enumeration.specs.Numbering.{inference_count, close_count, factor_low, factor_high, combine_bytes, reduce_bytes, inference_bytes, close_bytes};
ghost use Rattle.std.proofs.lemmas.List.Edits.{sets};

// How many rows make a line, and how many close one.
pub fn inference_count(n: usize) -> usize
    requires { n ≤ 6 }
    ensures { result ≡ inference_count n }
{
    8 * n * n + 2 * n
}

pub fn close_count(n: usize) -> usize
    requires { n ≤ 6 }
    ensures { result ≡ close_count n }
{
    4 * n
}

// ---- the rows that make a line
// The two bytes of a reduce's multiplier.
fn factor_bytes(m: usize) -> [u8; 2]
    ensures { result ≡ factor_high m ∷ factor_low m ∷ [] }
{
    match m {
        0 => [0, 1],
        1 => [0, 2],
        2 => [0xFF, 0xFE],
        _ => [0xFF, 0xFF],
    }
}

#[tactic(auto, using(crate::proofs::Stored::part_stored))]
fn put_combine(out: &mut [u8], at: usize, n: usize, x: usize)
    requires { (at + 9 ≤ length out.old) × (1 ≤ n) × (n ≤ 6) × (x < 255) }
    ensures { out.new ≡ sets out.old at (combine_bytes n x) }
{
    let s = (x / (4 * n)) as u8;
    let t = (x / 4 % n) as u8;
    let alpha = (1 + x / 2 % 2) as u8;
    let beta = (1 + x % 2) as u8;
    out[at..at + 9].copy_from_slice(&[0x10, 0, 6, s, t, 0, alpha, 0, beta]);
}

fn put_reduce(out: &mut [u8], at: usize, n: usize, x: usize)
    requires { (at + 7 ≤ length out.old) × (1 ≤ n) × (n ≤ 6) × (x < 255) }
    ensures { out.new ≡ sets out.old at (reduce_bytes n x) }
{
    let s = (x / (4 * n)) as u8;
    let t = (x / 4 % n) as u8;
    let [high, low] = factor_bytes(x % 4);
    out[at..at + 7].copy_from_slice(&[0x11, 0, 4, s, t, high, low]);
}

// A row with a line and a number: a scale, or a close by stride.
#[tactic(auto, using(crate::proofs::Stored::part_stored))]
fn put_line_and_number(out: &mut [u8], at: usize, tag: u8, line: u8, number: u8)
    requires { at + 6 ≤ length out.old }
    ensures { out.new ≡ sets out.old at (tag ∷ 0 ∷ 3 ∷ line ∷ 0 ∷ number ∷ []) }
{
    out[at..at + 6].copy_from_slice(&[tag, 0, 3, line, 0, number]);
}

// How many bytes inference j has.
#[tactic(auto, unfolding(enumeration::specs::Numbering::inference_bytes))]
pub fn inference_bytes(n: usize, j: usize) -> usize
    requires { n ≤ 6 }
    ensures { result ≡ length (inference_bytes n j) }
{
    let block = 4 * n * n;
    if j < block {
        return 9;
    }
    if j < 2 * block {
        return 7;
    }
    6
}

// Inference j from a place on. (The place is in the lent output: the next row goes on behind it.)
#[tactic(auto, using(crate::proofs::Counts::eights, crate::proofs::Counts::square), unfolding(enumeration::specs::Numbering::inference_bytes))]
pub fn put_inference(out: &mut [u8], at: usize, n: usize, j: usize)
    requires { (n ≤ 5) × (j < inference_count n) × (at + length (inference_bytes n j) ≤ length out.old) }
    ensures { out.new ≡ sets out.old at (inference_bytes n j) }
{
    let block = 4 * n * n;
    if j < block {
        put_combine(out, at, n, j);
        return;
    }
    if j < 2 * block {
        put_reduce(out, at, n, j - block);
        return;
    }
    let x = j - 2 * block;
    put_line_and_number(out, at, 0x12, (x / 2) as u8, (1 + x % 2) as u8);
}

// ---- the rows that close
#[tactic(auto, unfolding(enumeration::specs::Numbering::close_bytes))]
pub fn close_bytes(n: usize, c: usize) -> usize
    ensures { result ≡ length (close_bytes n c) }
{
    if c < n {
        return 4;
    }
    6
}

#[tactic(auto, using(crate::proofs::Stored::part_stored))]
fn put_number(out: &mut [u8], at: usize, c: usize)
    requires { (at + 4 ≤ length out.old) × (c < 256) }
    ensures { out.new ≡ sets out.old at (0x14 ∷ 0 ∷ 1 ∷ c ∷ []) }
{
    out[at..at + 4].copy_from_slice(&[0x14, 0, 1, c as u8]);
}

#[tactic(auto, unfolding(enumeration::specs::Numbering::close_bytes))]
pub fn put_close(out: &mut [u8], at: usize, n: usize, c: usize)
    requires { (n ≤ 6) × (c < close_count n) × (at + length (close_bytes n c) ≤ length out.old) }
    ensures { out.new ≡ sets out.old at (close_bytes n c) }
{
    if c < n {
        put_number(out, at, c);
        return;
    }
    let x = c - n;
    put_line_and_number(out, at, 0x15, (x / 3) as u8, (2 + x % 3) as u8);
}
