// Signed numbers of two or four bytes, read and written: each way as a word of the machine.
ghost use Rattle.std.specs.Prelude.{◌≡◌, ◌+◌, ◌≤◌, length, take, drop};
ghost use Rattle.std.proofs.lemmas.List.Edits.{sets};
ghost use Rattle.forms.specs.Edition.{edition};
ghost use Rattle.number_bytes.specs.Numbers.{signed, signed_bytes};
ghost use Rattle.number_bytes.specs.Ranges.{Held};
ghost use Rattle.number_bytes.specs.Widths.{bytes_of, width_of};

// How many bytes a signed number has.
#[derive(Clone, Copy)]
pub enum Width {
    Two,
    Four,
}

impl Width {
    // Of a bundle's numbers, by the edition's number.
    pub fn of_coefficients(number: u8) -> Width
        ensures { bytes_of result ≡ (edition number).coefficient_width }
    {
        if number == 1 { Width::Two } else { Width::Four }
    }

    pub fn bytes(self) -> usize
        ensures { result ≡ bytes_of self }
    {
        match self {
            Width::Two => 2,
            Width::Four => 4,
        }
    }

    // The two's complement number at `at`.
    pub fn signed_at(self, s: &[u8], at: usize) -> i64
        requires { at + bytes_of self ≤ length s.now }
        ensures is { result ≡ signed (take (bytes_of self) (drop at s.now)) }
        ensures range { Held (bytes_of self) result }
    {
        match self {
            Width::Two => i64::from(short_at(s, at)),
            Width::Four => i64::from(long_at(s, at)),
        }
    }

    // A number at `at`.
    pub fn put_signed(self, out: &mut [u8], at: usize, value: i64)
        requires at_in_bounds { at + bytes_of self ≤ length out.old }
        requires held { Held (bytes_of self) value }
        ensures { out.new ≡ sets out.old at (signed_bytes (bytes_of self) value) }
    {
        match self {
            Width::Two => put_short(out, at, value as i16),
            Width::Four => put_long(out, at, value as i32),
        }
    }
}

// The width of so many bytes, of 4 and else of 2: what a const parameter says, so that each width has a function of its own.
pub fn width_by(bytes: usize) -> Width
    ensures { result ≡ width_of bytes }
{
    if bytes == 4 { Width::Four } else { Width::Two }
}

// The two's complement number of two bytes at `at`. The bytes are taken with the low one first, of which the compiler makes one load,
// and then turned round: with the high one first it loads each byte.
fn short_at(s: &[u8], at: usize) -> i16
    requires { at + 2 ≤ length s.now }
    ensures { result ≡ signed (take 2 (drop at s.now)) }
{
    u16::from_le_bytes([s[at], s[at + 1]])
        .swap_bytes()
        .cast_signed()
}

// The same of four bytes.
fn long_at(s: &[u8], at: usize) -> i32
    requires { at + 4 ≤ length s.now }
    ensures { result ≡ signed (take 4 (drop at s.now)) }
{
    u32::from_le_bytes([s[at], s[at + 1], s[at + 2], s[at + 3]])
        .swap_bytes()
        .cast_signed()
}

fn put_short(out: &mut [u8], at: usize, value: i16)
    requires { at + 2 ≤ length out.old }
    ensures { out.new ≡ sets out.old at (signed_bytes 2 value) }
{
    out[at..at + 2].copy_from_slice(&value.to_be_bytes());
}

fn put_long(out: &mut [u8], at: usize, value: i32)
    requires { at + 4 ≤ length out.old }
    ensures { out.new ≡ sets out.old at (signed_bytes 4 value) }
{
    out[at..at + 4].copy_from_slice(&value.to_be_bytes());
}
