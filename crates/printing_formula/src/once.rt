// Reading a formula without its text: whether it is one. (Testing has a reader of its own; with a third caller it is compiled
// otherwise, and deep formulas take longer: docs/SPEED.md.)
ghost use Rattle.std.specs.Prelude.{◌+◌, ◌≤◌, length};
ghost use Rattle.forms.specs.Edition.{edition1};
ghost use Rattle.printing_formula.specs.Reaching.{StrideReached, WholeAt, PartsAt};

use answers::refusals::{Fault, Refusal};
use fields::next_or_fault;
use formula_read::node::{Node, node_of};
use number_bytes::words::Width;

// The place after the stride part whose field starts at place.
fn stride_whole(s: &[u8], place: usize, start: usize, next: usize) -> Result<usize, Fault>
    requires { start + edition1.term_width ≤ length s.now }
    ensures { StrideReached s.now place start next result }
{
    let g = Width::Four.signed_at(s, start);
    if g < 2 {
        return Err(Fault {
            refusal: Refusal::WrongMultiplier,
            place,
        });
    }
    Ok(next)
}

// The place after a formula. The two readers call each other in a cycle, as those with text do.
#[cycle(parts_whole_whole_at)]
pub fn whole_at(s: &[u8], at: usize, k: usize, levels: usize) -> Result<usize, Fault>
    requires { k ≤ edition1.constants }
    ensures { WholeAt s.now at k levels result }
{
    let field = next_or_fault(s, at)?;
    match node_of(field.tag, field.len, k) {
        Ok(Node::Literal { equality: _ }) => Ok(field.next),
        Ok(Node::Stride) => stride_whole(s, field.at, field.start, field.next),
        Ok(Node::Pair { either: _ }) => parts_whole(s, field.at, field.next, k, levels),
        Err(refusal) => Err(field.refused(refusal)),
    }
}

// The two parts of the and/or whose field starts at place; they start at `at`.
#[cycle(parts_whole_whole_at)]
fn parts_whole(s: &[u8], place: usize, at: usize, k: usize, levels: usize) -> Result<usize, Fault>
    requires { k ≤ edition1.constants }
    ensures { PartsAt s.now place at k levels result }
{
    if levels == 0 {
        return Err(Fault {
            refusal: Refusal::TooDeep,
            place,
        });
    }
    let middle = whole_at(s, at, k, levels - 1)?;
    whole_at(s, middle, k, levels - 1)
}
