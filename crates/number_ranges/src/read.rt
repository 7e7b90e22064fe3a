// Numbers that stand in bytes: whether each is within the range.
ghost use Rattle.std.specs.Prelude.{◌≡◌, ◌+◌, ◌*◌, ◌≤◌, length, take, drop};
ghost use Rattle.forms.specs.Edition.{edition1};
ghost use Rattle.forms.specs.Forms.{small, every};
ghost use Rattle.number_bytes.specs.Numbers.{signed, signeds};
ghost use Rattle.number_bytes.specs.Widths.{bytes_of};

use number_bytes::words::Width;

// Whether the number of four bytes at a place is within the range.
fn long_in_range(s: &[u8], at: usize) -> bool
    requires { at + 4 ≤ length s.now }
    ensures { result ≡ small edition1.range (signed (take 4 (drop at s.now))) }
{
    let x = Width::Four.signed_at(s, at) as i32;
    x > i32::MIN
}

// Whether each of n numbers of four bytes is within the range. It goes on to the end, so that the compiler tests several at once.
fn longs_in_range(s: &[u8], n: usize) -> bool
    requires { n * 4 ≤ length s.now }
    ensures { result ≡ every (small edition1.range) (signeds 4 n s.now) }
{
    let mut ok = true;
    for i in 0..n {
        ok &= long_in_range(s, i * 4);
    }
    ok
}

// The same of numbers of any width: every number of two bytes is.
pub fn all_in_range(s: &[u8], width: Width, n: usize) -> bool
    requires { n * bytes_of width ≤ length s.now }
    ensures { result ≡ every (small edition1.range) (signeds (bytes_of width) n s.now) }
{
    match width {
        Width::Two => true,
        Width::Four => longs_in_range(s, n),
    }
}
