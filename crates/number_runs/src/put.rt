// A run of numbers, written as bytes.
ghost use Rattle.std.specs.Prelude.{◌≡◌, ◌+◌, ◌*◌, ◌%◌, ◌≤◌, length};
ghost use Rattle.std.proofs.lemmas.List.Edits.{sets};
ghost use Rattle.number_bytes.specs.Numbers.{signeds_bytes};
ghost use Rattle.number_bytes.specs.Ranges.{Held};
ghost use Rattle.number_bytes.specs.Widths.{bytes_of, width_of};
ghost use Rattle.number_runs.specs.Runs.{HeldAll};

use number_bytes::words::{Width, width_by};

// All of the numbers, at `at`.
fn put_run(out: &mut [u8], at: usize, width: Width, numbers: &[i32])
    requires held_all { HeldAll (bytes_of width) numbers.now }
    requires in_bounds { at + length numbers.now * bytes_of width ≤ length out.old }
    ensures { out.new ≡ sets out.old at (signeds_bytes (bytes_of width) numbers.now) }
{
    for (i, x) in numbers.iter().enumerate() {
        width.put_signed(out, at + i * width.bytes(), i64::from(*x));
    }
}

// x, which the width holds. Told so of two bytes, the compiler narrows eight such numbers by one instruction.
fn narrowed(x: i32, width: Width) -> i32
    requires { Held (bytes_of width) x }
    ensures { result ≡ x }
{
    match width {
        Width::Two => x.clamp(-32768, 32767),
        Width::Four => x,
    }
}

// N numbers, by way of an array. All are read before the first is written: the compiler does not know that numbers and out lie apart.
fn put_block<const N: usize, const BYTES: usize>(out: &mut [u8], at: usize, numbers: &[i32])
    requires held_all { HeldAll (bytes_of (width_of BYTES)) numbers.now }
    requires len { length numbers.now ≡ N }
    requires in_bounds { at + N * bytes_of (width_of BYTES) ≤ length out.old }
    ensures { out.new ≡ sets out.old at (signeds_bytes (bytes_of (width_of BYTES)) numbers.now) }
{
    let mut block: [i32; N] = [0; N];
    for (i, x) in numbers.iter().enumerate() {
        block[i] = narrowed(*x, width_by(BYTES));
    }
    put_run(out, at, width_by(BYTES), &block);
}

// Fours of numbers. The step is 4, and no range's over fours: of a length that is n / 4 * 4 the compiler sees how few they may be, of n / 4
// not, and then writing took 1.4 of the time.
fn put_fours<const BYTES: usize>(out: &mut [u8], at: usize, numbers: &[i32])
    requires held_all { HeldAll (bytes_of (width_of BYTES)) numbers.now }
    requires whole { length numbers.now % 4 ≡ 0 }
    requires in_bounds { at + length numbers.now * bytes_of (width_of BYTES) ≤ length out.old }
    ensures { out.new ≡ sets out.old at (signeds_bytes (bytes_of (width_of BYTES)) numbers.now) }
{
    let mut i = 0;
    while i < numbers.len() {
        put_block::<4, BYTES>(out, at + i * width_by(BYTES).bytes(), &numbers[i..i + 4]);
        i += 4;
    }
}

// In fours, or 16 at once where there are so many, and the rest one by one. They are at most 19, so that behind 16 the rest is n % 4, of which
// the compiler sees how few it may be.
fn put_parts<const BYTES: usize>(out: &mut [u8], at: usize, numbers: &[i32])
    requires held_all { HeldAll (bytes_of (width_of BYTES)) numbers.now }
    requires few { length numbers.now ≤ 19 }
    requires in_bounds { at + length numbers.now * bytes_of (width_of BYTES) ≤ length out.old }
    ensures { out.new ≡ sets out.old at (signeds_bytes (bytes_of (width_of BYTES)) numbers.now) }
{
    let n = numbers.len();
    let w = width_by(BYTES).bytes();
    if n < 16 {
        let m = n / 4 * 4;
        put_fours::<BYTES>(out, at, &numbers[..m]);
        put_run(out, at + m * w, width_by(BYTES), &numbers[m..m + n % 4]);
        return;
    }
    put_block::<8, BYTES>(out, at, &numbers[..8]);
    put_block::<8, BYTES>(out, at + 8 * w, &numbers[8..16]);
    put_run(out, at + 16 * w, width_by(BYTES), &numbers[16..16 + n % 4]);
}

// The numbers of one constraint, as two calls: the compiler makes the code for each width.
pub fn put_numbers(out: &mut [u8], at: usize, width: Width, numbers: &[i32])
    requires held_all { HeldAll (bytes_of width) numbers.now }
    requires few { length numbers.now ≤ 19 }
    requires in_bounds { at + length numbers.now * bytes_of width ≤ length out.old }
    ensures { out.new ≡ sets out.old at (signeds_bytes (bytes_of width) numbers.now) }
{
    match width {
        Width::Two => put_parts::<2>(out, at, numbers),
        Width::Four => put_parts::<4>(out, at, numbers),
    }
}
