// The kinds of a branch's lines, a byte each. A kind is read and stored here only. (No byte above 3 is stored; the definitions read it as a t ≠ 0 of B.)
ghost use Rattle.std.specs.Prelude.{◌≡◌, ◌<◌, length, get_or, set};
ghost use Rattle.lines.specs.Ready.{KindRead};

use forms::LineNumber;

// The kind of a line as its byte: an inequality, an equality, and behind these a constraint t ≠ 0, of A and of B. (A byte and no enum: the
// definitions read every byte, those above 3 too, and what is read here is that byte.)
pub const INEQUALITY: u8 = 0;

pub const EQUALITY: u8 = 1;

pub const APART_A: u8 = 2;

pub const APART_B: u8 = 3;

pub fn kind_of(kinds: &[u8], i: LineNumber) -> u8
    requires { i.0 < length kinds.now }
    ensures { KindRead (get_or kinds.now i.0 0) result }
{
    let x = i.0 as usize;
    kinds[x]
}

pub fn set_kind(kinds: &mut [u8], i: LineNumber, kind: u8)
    requires { i.0 < length kinds.old }
    ensures { kinds.new ≡ set kinds.old i.0 kind }
{
    let x = i.0 as usize;
    kinds[x] = kind;
}
