// Reading a formula and judging it at the register values, in one pass.
ghost use Rattle.std.specs.Prelude.{◌≡◌, ◌+◌, take, drop};
ghost use Rattle.forms.specs.Edition.{edition1};
ghost use Rattle.forms.specs.Forms.{value};
ghost use Rattle.number_bytes.specs.Numbers.{signed};
ghost use Rattle.formula.specs.Test.{holds, registers};
ghost use Rattle.form_value.specs.Registers.{Registers};
ghost use Rattle.form_value.specs.FormAt.{form_at, Whole};
ghost use Rattle.formula_read.specs.Nodes.{literal_kind};
ghost use Rattle.formula_read.specs.Judging.{FormulaRead, PairRead, connected, stride_judged};

use crate::node::{Node, node_of};
use answers::refusals::{Fault, Refusal};
use fields::next_or_fault;
use form_value::{divides_at, value_at};
use forms::TERM_BYTES;
use integers::is_zero;
use number_bytes::words::Width;

// A formula read: its truth, and the place after it.
#[derive(Clone, Copy)]
pub struct Judged {
    pub holds: bool,
    pub next: usize,
}

// The same of the two parts of an and/or.
#[derive(Clone, Copy)]
pub struct Pair {
    pub first: bool,
    pub second: bool,
    pub next: usize,
}

pub fn says(equality: bool, x: i64) -> bool
    ensures { result ≡ holds (literal_kind equality) x }
{
    if equality { is_zero(x) } else { x <= 0 }
}

fn literal_at(s: &[u8], start: usize, values: &[i32], k: usize, equality: bool) -> bool
    requires whole { Whole s.now start k }
    requires registers { Registers values.now k }
    ensures { result ≡ holds (literal_kind equality) (value (form_at s.now start k) (registers values.now)) }
{
    let x = value_at(s, start, values, k);
    says(equality, x)
}

fn stride_at(s: &[u8], start: usize, values: &[i32], k: usize) -> Result<bool, Refusal>
    requires whole { Whole s.now (start + edition1.term_width) k }
    requires registers { Registers values.now k }
    ensures { result ≡ stride_judged (signed (take edition1.term_width (drop start s.now))) (value (form_at s.now (start + edition1.term_width) k) (registers values.now)) }
{
    let g = Width::Four.signed_at(s, start);
    if g < 2 {
        return Err(Refusal::WrongMultiplier);
    }
    Ok(divides_at(s, start + TERM_BYTES, values, k, g))
}

fn connect(either: bool, first: bool, second: bool) -> bool
    ensures { result ≡ connected either first second }
{
    if either {
        first || second
    } else {
        first && second
    }
}

// Reading a formula calls on reading its two parts, each again a formula: formula reader and pair reader call each other in a
// cycle, and the levels still allowed and the unread bytes fall. The cycle has both twice, and the compiler makes one function
// of them: two levels are then one call, and a processor foretells the returns of some two dozen calls only (docs/SPEED.md).
#[cycle(formula_at_pair_at_part_at_part_pair_at)]
pub fn formula_at(
    s: &[u8],
    at: usize,
    values: &[i32],
    k: usize,
    levels: usize,
) -> Result<Judged, Fault>
    requires { Registers values.now k }
    ensures { FormulaRead s.now at values.now k levels result }
{
    let field = next_or_fault(s, at)?;
    match node_of(field.tag, field.len, k) {
        Ok(Node::Pair { either }) => {
            let both = pair_at(s, field.at, field.next, values, k, levels)?;
            Ok(Judged {
                holds: connect(either, both.first, both.second),
                next: both.next,
            })
        }
        Ok(Node::Literal { equality }) => Ok(Judged {
            holds: literal_at(s, field.start, values, k, equality),
            next: field.next,
        }),
        Ok(Node::Stride) => match stride_at(s, field.start, values, k) {
            Ok(holds) => Ok(Judged {
                holds,
                next: field.next,
            }),
            Err(refusal) => Err(field.refused(refusal)),
        },
        Err(refusal) => Err(field.refused(refusal)),
    }
}

// The two parts of an and/or whose field starts at place; they start at `at`. Both are read by one call in a loop, since what is
// called at one place is compiled in.
#[cycle(formula_at_pair_at_part_at_part_pair_at)]
fn pair_at(
    s: &[u8],
    place: usize,
    at: usize,
    values: &[i32],
    k: usize,
    levels: usize,
) -> Result<Pair, Fault>
    requires { Registers values.now k }
    ensures { PairRead s.now place at values.now k levels result }
{
    if levels == 0 {
        return Err(Fault {
            refusal: Refusal::TooDeep,
            place,
        });
    }
    let mut here = at;
    let mut first = false;
    let mut second = false;
    for _i in 0..2usize {
        let part = part_at(s, here, values, k, levels - 1)?;
        first = second;
        second = part.holds;
        here = part.next;
    }
    Ok(Pair {
        first,
        second,
        next: here,
    })
}

// The formula reader again, for a part.
#[cycle(formula_at_pair_at_part_at_part_pair_at)]
fn part_at(s: &[u8], at: usize, values: &[i32], k: usize, levels: usize) -> Result<Judged, Fault>
    requires { Registers values.now k }
    ensures { FormulaRead s.now at values.now k levels result }
{
    let field = next_or_fault(s, at)?;
    match node_of(field.tag, field.len, k) {
        Ok(Node::Pair { either }) => {
            let both = part_pair_at(s, field.at, field.next, values, k, levels)?;
            Ok(Judged {
                holds: connect(either, both.first, both.second),
                next: both.next,
            })
        }
        Ok(Node::Literal { equality }) => Ok(Judged {
            holds: literal_at(s, field.start, values, k, equality),
            next: field.next,
        }),
        Ok(Node::Stride) => match stride_at(s, field.start, values, k) {
            Ok(holds) => Ok(Judged {
                holds,
                next: field.next,
            }),
            Err(refusal) => Err(field.refused(refusal)),
        },
        Err(refusal) => Err(field.refused(refusal)),
    }
}

// The pair reader again, for a part that is an and/or.
#[cycle(formula_at_pair_at_part_at_part_pair_at)]
fn part_pair_at(
    s: &[u8],
    place: usize,
    at: usize,
    values: &[i32],
    k: usize,
    levels: usize,
) -> Result<Pair, Fault>
    requires { Registers values.now k }
    ensures { PairRead s.now place at values.now k levels result }
{
    if levels == 0 {
        return Err(Fault {
            refusal: Refusal::TooDeep,
            place,
        });
    }
    let left = formula_at(s, at, values, k, levels - 1)?;
    let right = formula_at(s, left.next, values, k, levels - 1)?;
    Ok(Pair {
        first: left.holds,
        second: right.holds,
        next: right.next,
    })
}
