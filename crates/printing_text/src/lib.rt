// Text and decimal numbers into an output that is lent. What does not fit is left out; the place after it is kept all the same
// (specs/PutsText.antt).
#![tactic(auto)]

ghost use Rattle.std.specs.Prelude.{◌≡◌, ◌+◌, ◌%◌, ◌≤◌, ◌<◌, length, nat_abs};
ghost use Rattle.number_bytes.specs.Ranges.{Held};
ghost use Rattle.printing.specs.Smt.{register};
ghost use Rattle.printing.specs.Text.{decimal, term_text};
ghost use Rattle.printing_text.specs.PutsText.{text_limit, Puts};

use itoa::Buffer;

// The last digit.
fn digit(n: u32) -> u8
    ensures { result ≡ 48 + n % 10 }
{
    b'0' + (n % 10) as u8
}

// An output, and the place after what is put.
#[derive(Drop)]
pub struct Text<'a> {
    pub out: &'a mut [u8],
    pub end: usize,
}

impl<'a> Text<'a> {
    pub fn put(&mut self, bytes: &[u8])
        requires { self.old.end + length bytes.now ≤ text_limit }
        ensures same_output { self.new.out.ghost_name ≡ self.old.out.ghost_name }
        ensures puts { Puts self.old self.new bytes.now (length bytes.now) }
    {
        let start = self.end;
        let end = start + bytes.len();
        self.end = end;
        if self.out.len() < end {
            return;
        }
        self.out[start..end].copy_from_slice(bytes);
    }

    // A number in decimal.
    pub fn put_decimal(&mut self, n: u32)
        requires { self.old.end + 10 ≤ text_limit }
        ensures same_output { self.new.out.ghost_name ≡ self.old.out.ghost_name }
        ensures puts { Puts self.old self.new (decimal n) 10 }
    {
        if n < 10 {
            self.put(&[digit(n)]);
            return;
        }
        let mut buffer = Buffer::new();
        self.put(buffer.format(n).as_bytes());
    }

    // r0, r15
    pub fn put_register(&mut self, i: usize)
        requires end_bound { self.old.end + 3 ≤ text_limit }
        requires i_bound { i < 100 }
        ensures same_output { self.new.out.ghost_name ≡ self.old.out.ghost_name }
        ensures puts { Puts self.old self.new (term_text (register i)) 3 }
    {
        let n = i as u32;
        if n < 10 {
            self.put(&[b'r', digit(n)]);
            return;
        }
        self.put(&[b'r', digit(n / 10), digit(n)]);
    }
}

// The number without its sign.
pub fn magnitude(z: i64) -> u32
    requires { Held 4 z }
    ensures { (result ≡ nat_abs z) × (result ≤ 0x8000_0000) }
{
    z.unsigned_abs() as u32
}
