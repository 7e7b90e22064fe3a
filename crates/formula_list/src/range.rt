// The first value of a list that is out of range. Whether there is one is told first, by a loop that tests every value, in the width of a value: the
// compiler then tests several at once.
ghost use Rattle.std.specs.Prelude.{◌≡◌};
ghost use Rattle.forms.specs.Forms.{every};
ghost use Rattle.formula_test.specs.Values.{permitted, FirstOutside};

use formula_test::values::{first_outside, is_permitted};

// (`all` stops at the first that is out of range, and `fold` with `&` says no more than this loop.)
fn all_permitted(values: &[i32]) -> bool
    ensures { result ≡ every permitted values.now }
{
    let mut ok = true;
    for x in values {
        ok &= is_permitted(*x);
    }
    ok
}

pub fn outside_at(values: &[i32]) -> Option<usize>
    ensures { FirstOutside values.now result }
{
    if all_permitted(values) {
        return None;
    }
    first_outside(values)
}
