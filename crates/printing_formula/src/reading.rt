// Reading a formula and putting its text, in one pass. What is given is the place after it in the file.
ghost use Rattle.std.specs.Prelude.{◌≡◌, ◌+◌, ◌≤◌, length};
ghost use Rattle.forms.specs.Edition.{edition1};
ghost use Rattle.form_value.specs.FormAt.{Whole};
ghost use Rattle.printing_text.specs.PutsText.{text_limit};
ghost use Rattle.printing_formula.specs.Printing.{Place, StrideAt, FormulaAt, PairAt};

use crate::language::Language;
use answers::refusals::{Fault, Refusal};
use fields::next_or_fault;
use forms::TERM_BYTES;
use formula_read::node::{Node, node_of};
use number_bytes::words::Width;
use printing_text::Text;

// The stride part whose field starts at place.
fn stride_at<L: Language>(
    s: &[u8],
    place: usize,
    start: usize,
    next: usize,
    k: usize,
    text: &mut Text<'_>,
) -> Result<usize, Fault>
    requires whole { Whole s.now (start + edition1.term_width) k × (next ≤ length s.now) }
    requires k_le_constants { k ≤ edition1.constants }
    requires end_bound { text.old.end + 800 ≤ text_limit }
    ensures same_output { text.new.out.ghost_name ≡ text.old.out.ghost_name }
    ensures read { StrideAt L.wording s.now place start next k text.old text.new result }
{
    let g = Width::Four.signed_at(s, start);
    if g < 2 {
        return Err(Fault {
            refusal: Refusal::WrongMultiplier,
            place,
        });
    }
    L::put_stride(s, start + TERM_BYTES, k, g, text);
    Ok(next)
}

// Formula reader and pair reader call each other in a cycle; the levels still allowed and the unread bytes fall.
#[cycle(formula_at_pair_at)]
pub fn formula_at<L: Language>(
    s: &[u8],
    at: usize,
    k: usize,
    levels: usize,
    inner: bool,
    text: &mut Text<'_>,
) -> Result<usize, Fault>
    requires { Place s.now at k text.old.end }
    ensures same_output { text.new.out.ghost_name ≡ text.old.out.ghost_name }
    ensures read { FormulaAt L.wording inner s.now at k levels text.old text.new result }
{
    let field = next_or_fault(s, at)?;
    match node_of(field.tag, field.len, k) {
        Ok(Node::Literal { equality }) => {
            L::put_literal(s, field.start, k, equality, text);
            Ok(field.next)
        }
        Ok(Node::Stride) => stride_at::<L>(s, field.at, field.start, field.next, k, text),
        Ok(Node::Pair { either }) => {
            pair_at::<L>(s, field.at, field.next, k, levels, inner, either, text)
        }
        Err(refusal) => Err(field.refused(refusal)),
    }
}

// The and/or whose field starts at place, and whose two parts start at `at`.
#[cycle(formula_at_pair_at)]
fn pair_at<L: Language>(
    s: &[u8],
    place: usize,
    at: usize,
    k: usize,
    levels: usize,
    inner: bool,
    either: bool,
    text: &mut Text<'_>,
) -> Result<usize, Fault>
    requires { Place s.now at k (text.old.end + 16) × (at ≤ length s.now) }
    ensures same_output { text.new.out.ghost_name ≡ text.old.out.ghost_name }
    ensures read { PairAt L.wording inner s.now place at k levels either text.old text.new result }
{
    if levels == 0 {
        return Err(Fault {
            refusal: Refusal::TooDeep,
            place,
        });
    }
    L::put_open(text, inner, either);
    let middle = formula_at::<L>(s, at, k, levels - 1, true, text)?;
    L::put_between(text, either);
    let next = formula_at::<L>(s, middle, k, levels - 1, true, text)?;
    L::put_close(text, inner);
    Ok(next)
}
