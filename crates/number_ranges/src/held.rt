// Numbers to be written: whether some bytes hold each.
ghost use Rattle.std.specs.Prelude.{◌≡◌, ltb, not, position};
ghost use Rattle.forms.specs.Forms.{every};
ghost use Rattle.number_bytes.specs.Widths.{bytes_of};
ghost use Rattle.bundle.specs.Write.{holdable};

use number_bytes::words::Width;

// x + 32,768 as a word: below 65,536 where two bytes hold x, and only there.
fn shifted(x: i32) -> u32
    ensures { ltb result 0x1_0000 ≡ holdable 2 x }
{
    x.cast_unsigned().wrapping_add(0x8000)
}

// Whether two bytes hold each number. All are merged and tested once: a sum and an `or` for four numbers.
fn all_short(numbers: &[i32]) -> bool
    ensures { result ≡ every (holdable 2) numbers.now }
{
    let mut all: u32 = 0;
    for x in numbers {
        all |= shifted(*x);
    }
    all < 0x1_0000
}

// Whether it is not -2,147,483,648, and so within the range.
fn above_lowest(x: i32) -> bool
    ensures { result ≡ holdable 4 x }
{
    x > i32::MIN
}

// Whether no number is -2,147,483,648. It goes on to the end, so that the compiler tests several at once.
fn all_above_lowest(numbers: &[i32]) -> bool
    ensures { result ≡ every (holdable 4) numbers.now }
{
    let mut ok = true;
    for x in numbers {
        ok &= above_lowest(*x);
    }
    ok
}

// Whether a width holds each number, and none is -2,147,483,648.
fn all_held(width: Width, numbers: &[i32]) -> bool
    ensures { result ≡ every (holdable (bytes_of width)) numbers.now }
{
    match width {
        Width::Two => all_short(numbers),
        Width::Four => all_above_lowest(numbers),
    }
}

// The same of one number.
fn held(width: Width, x: i32) -> bool
    ensures { result ≡ holdable (bytes_of width) x }
{
    match width {
        Width::Two => shifted(x) < 0x1_0000,
        Width::Four => above_lowest(x),
    }
}

// Where the first number stands that is not held. Most often each is.
pub fn first_unheld(width: Width, numbers: &[i32]) -> Option<usize>
    ensures { result ≡ position (λ x. not (holdable (bytes_of width) x)) numbers.now }
{
    if all_held(width, numbers) {
        return None;
    }
    numbers.iter().position(|x| !held(width, *x))
}
