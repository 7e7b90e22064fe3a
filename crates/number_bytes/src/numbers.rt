// Big-endian numbers of some bytes, read and written.
ghost use Rattle.std.specs.Prelude.{◌≡◌, ◌+◌, ◌^◌, ◌<◌, ◌≤◌, length, take, drop};
ghost use Rattle.std.proofs.lemmas.List.Edits.{sets};
ghost use Rattle.number_bytes.specs.Numbers.{unsigned, unsigned_bytes};

// The number of `width` bytes at `at`.
pub fn unsigned_at(s: &[u8], at: usize, width: usize) -> u64
    requires width_bound { width ≤ 4 }
    requires width_in_bounds { at + width ≤ length s.now }
    ensures is { result ≡ unsigned (take width (drop at s.now)) }
    ensures below { result < 256 ^ width }
{
    let mut n: u64 = 0;
    for b in &s[at..at + width] {
        n = n * 256 + u64::from(*b);
    }
    n
}

// The `width` last bytes of n, from the last one on.
pub fn put_unsigned(out: &mut [u8], at: usize, width: usize, n: u64)
    requires { at + width ≤ length out.old }
    ensures { out.new ≡ sets out.old at (unsigned_bytes width n) }
{
    let mut m = n;
    for i in (0..width).rev() {
        out[at + i] = (m % 256) as u8;
        m /= 256;
    }
}
