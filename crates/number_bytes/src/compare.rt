// Bytes compared.
ghost use Rattle.std.specs.Prelude.{◌≡◌, ◌+◌, ◌≤◌, length, take, drop};
ghost use Rattle.number_bytes.specs.Same.{same_bytes};

// Whether the n bytes of s that start at `at` are those of t that start at `from`.
pub fn same_bytes(s: &[u8], at: usize, t: &[u8], from: usize, n: usize) -> bool
    requires { (at + n ≤ length s.now) × (from + n ≤ length t.now) }
    ensures { result ≡ same_bytes (take n (drop at s.now)) (take n (drop from t.now)) }
{
    s[at..at + n] == t[from..from + n]
}
