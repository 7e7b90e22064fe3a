// Register values: the first that is out of range.
ghost use Rattle.std.specs.Prelude.{◌≡◌};
ghost use Rattle.formula_test.specs.Values.{permitted, FirstOutside};

use forms::VALUES;

const MOST: i32 = VALUES as i32;

const LEAST: i32 = -MOST;

// Whether x is in the range of register values.
pub fn is_permitted(x: i32) -> bool
    ensures { result ≡ permitted x }
{
    x <= MOST && LEAST <= x
}

pub fn first_outside(values: &[i32]) -> Option<usize>
    ensures { FirstOutside values.now result }
{
    values.iter().position(|x| !is_permitted(*x))
}
