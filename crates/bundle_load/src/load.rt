// The constraints of a bundle as lines, behind the lines that the buffer has.
ghost use Rattle.std.specs.Prelude.{◌≡◌, [], ◌∷◌, map, drop};
ghost use Rattle.number_bytes.specs.Numbers.{signeds};
ghost use Rattle.number_bytes.specs.Widths.{bytes_of};
ghost use Rattle.fields.specs.Places.{fields_at};
ghost use Rattle.bundle_scan.specs.Scan.{stated};
ghost use Rattle.bundle_load.specs.Load.{Copies, NumbersStored, partial_of, line_byte, line_of, Loads, Loaded, form_line, Able};

use fields::next_field;
use forms::LineNumber;
use lines::kinds::{APART_A, APART_B, set_kind};
use number_bytes::words::Width;
use number_runs::store::store_numbers;

// The numbers of tA: those of t for a line of A, 0 for one of B.
fn load_partial(
    s: &[u8],
    start: usize,
    width: Width,
    n: usize,
    lines: &mut [i32],
    at: usize,
    in_a: bool,
)
    requires { Copies s.now start (bytes_of width) n lines.old at }
    ensures { NumbersStored lines.old at (partial_of in_a (signeds (bytes_of width) n (drop start s.now))) n lines.new }
{
    if in_a {
        store_numbers(s, start, width, &mut lines[at..at + n]);
        return;
    }
    lines[at..at + n].fill(0);
}

// The byte of a line's kind, by that of its constraint: a t ≠ 0 of B has one of its own.
fn line_kind(kind: u8, in_a: bool) -> u8
    ensures { result ≡ line_byte in_a kind }
{
    if !in_a && kind == APART_A {
        APART_B
    } else {
        kind
    }
}

// The form that starts at a place, as line n.
fn load_line(
    s: &[u8],
    start: usize,
    width: Width,
    kind: u8,
    in_a: bool,
    lines: &mut [i32],
    kinds: &mut [u8],
    n: LineNumber,
    k: usize,
)
    requires { Loads s.now start (bytes_of width) k kind kinds.old lines.old n.0 }
    ensures { Loaded k kinds.old lines.old n.0 (form_line in_a (bytes_of width) k kind s.now start ∷ []) kinds.new lines.new }
{
    let w = k + 1;
    let at = lines::place(n, k);
    store_numbers(s, start, width, &mut lines[at..at + w]);
    load_partial(s, start, width, w, lines, at + w, in_a);
    set_kind(kinds, n, line_kind(kind, in_a));
}

// The fields from at on, which are constraints without fault with numbers of that width, as lines behind the first n.
pub fn load(
    s: &[u8],
    at: usize,
    width: Width,
    k: u8,
    in_a: bool,
    lines: &mut [i32],
    kinds: &mut [u8],
    n: LineNumber,
)
    requires { Able (bytes_of width) k (fields_at s.now at) kinds.old lines.old n.0 }
    ensures { Loaded k kinds.old lines.old n.0 (map (line_of in_a) (stated (bytes_of width) k (fields_at s.now at))) kinds.new lines.new }
{
    let constants = k as usize;
    let mut here = at;
    let mut m = n;
    while let Ok(field) = next_field(s, here) {
        load_line(
            s,
            field.start,
            width,
            field.tag - 3,
            in_a,
            lines,
            kinds,
            m,
            constants,
        );
        m = LineNumber(m.0 + 1);
        here = field.next;
    }
}
