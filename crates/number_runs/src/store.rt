// A run of numbers, read from bytes into lent numbers.
ghost use Rattle.std.specs.Prelude.{◌≡◌, ◌+◌, ◌*◌, ◌%◌, ◌≤◌, length, drop};
ghost use Rattle.number_bytes.specs.Numbers.{signeds};
ghost use Rattle.number_bytes.specs.Widths.{bytes_of, width_of};

use number_bytes::words::{Width, width_by};

// All of the numbers, from the bytes at start on.
fn store_run(s: &[u8], start: usize, width: Width, numbers: &mut [i32])
    requires { start + length numbers.old * bytes_of width ≤ length s.now }
    ensures { numbers.new ≡ signeds (bytes_of width) (length numbers.old) (drop start s.now) }
{
    for (i, x) in numbers.iter_mut().enumerate() {
        *x = width.signed_at(s, start + i * width.bytes()) as i32;
    }
}

// The same, as two calls: the compiler makes a loop for each width.
pub fn store_numbers(s: &[u8], start: usize, width: Width, numbers: &mut [i32])
    requires { start + length numbers.old * bytes_of width ≤ length s.now }
    ensures { numbers.new ≡ signeds (bytes_of width) (length numbers.old) (drop start s.now) }
{
    match width {
        Width::Two => store_run(s, start, Width::Two, numbers),
        Width::Four => store_run(s, start, Width::Four, numbers),
    }
}

// N numbers, by way of an array. All are read before the first is stored: the compiler does not know that s and numbers lie apart.
fn store_block<const N: usize, const BYTES: usize>(s: &[u8], start: usize, numbers: &mut [i32])
    requires len { length numbers.old ≡ N }
    requires in_bounds { start + N * bytes_of (width_of BYTES) ≤ length s.now }
    ensures { numbers.new ≡ signeds (bytes_of (width_of BYTES)) N (drop start s.now) }
{
    let mut block: [i32; N] = [0; N];
    store_run(s, start, width_by(BYTES), &mut block);
    numbers.copy_from_slice(&block);
}

// Fours of numbers. The step is 4, as in put_fours.
fn store_fours<const BYTES: usize>(s: &[u8], start: usize, numbers: &mut [i32])
    requires whole { length numbers.old % 4 ≡ 0 }
    requires in_bounds { start + length numbers.old * bytes_of (width_of BYTES) ≤ length s.now }
    ensures { numbers.new ≡ signeds (bytes_of (width_of BYTES)) (length numbers.old) (drop start s.now) }
{
    let mut i = 0;
    while i < numbers.len() {
        store_block::<4, BYTES>(
            s,
            start + i * width_by(BYTES).bytes(),
            &mut numbers[i..i + 4],
        );
        i += 4;
    }
}

// In fours, or 16 at once where there are so many, and the rest one by one. They are at most 19, so that behind 16 the rest is n % 4, of which
// the compiler sees how few it may be.
fn store_parts<const BYTES: usize>(s: &[u8], start: usize, numbers: &mut [i32])
    requires few { length numbers.old ≤ 19 }
    requires in_bounds { start + length numbers.old * bytes_of (width_of BYTES) ≤ length s.now }
    ensures { numbers.new ≡ signeds (bytes_of (width_of BYTES)) (length numbers.old) (drop start s.now) }
{
    let n = numbers.len();
    let w = width_by(BYTES).bytes();
    if n < 16 {
        let m = n / 4 * 4;
        store_fours::<BYTES>(s, start, &mut numbers[..m]);
        store_run(
            s,
            start + m * w,
            width_by(BYTES),
            &mut numbers[m..m + n % 4],
        );
        return;
    }
    store_block::<8, BYTES>(s, start, &mut numbers[..8]);
    store_block::<8, BYTES>(s, start + 8 * w, &mut numbers[8..16]);
    store_run(
        s,
        start + 16 * w,
        width_by(BYTES),
        &mut numbers[16..16 + n % 4],
    );
}

// The numbers of one constraint: two calls, as in store_numbers.
pub fn store_form(s: &[u8], start: usize, width: Width, numbers: &mut [i32])
    requires few { length numbers.old ≤ 19 }
    requires in_bounds { start + length numbers.old * bytes_of width ≤ length s.now }
    ensures { numbers.new ≡ signeds (bytes_of width) (length numbers.old) (drop start s.now) }
{
    match width {
        Width::Two => store_parts::<2>(s, start, numbers),
        Width::Four => store_parts::<4>(s, start, numbers),
    }
}
