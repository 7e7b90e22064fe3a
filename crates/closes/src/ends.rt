// The rows that close a branch, with the formula's bytes.
ghost use Rattle.std.specs.Prelude.{◌≤◌, nat_abs};
ghost use Rattle.formula_write.specs.Writing.{scratch_limit};
ghost use Rattle.proof.specs.Rows.{by_number, by_stride};
ghost use Rattle.lines.specs.Buffer.{lines_in};
ghost use Rattle.lines.specs.Ready.{Ready};
ghost use Rattle.closes.specs.Ends.{EndedBy};

use crate::closing::{test_number, test_stride};
use answers::refusals::Refusal;
use forms::LineNumber;
use formula_write::{put_literal, put_stride};
use lines::kinds::kind_of;
use tally::Tally;

// Where the formula's bytes end, from o on. 10, 11, 15.
pub fn close_number(
    lines: &[i32],
    kinds: &[u8],
    tally: Tally,
    i: LineNumber,
    k: usize,
    scratch: &mut [u8],
    o: usize,
) -> Result<usize, Refusal>
    requires ready { Ready tally.edition k kinds.now lines.now tally.lines.0 }
    requires o_le_scratch_limit { o ≤ scratch_limit }
    ensures { EndedBy (λ refusal. by_number refusal (lines_in k kinds.now lines.now tally.lines.0) i.0) scratch.old o scratch.new result }
{
    test_number(lines, kinds, tally, i, k)?;
    let ta = lines::place_a(i, k);
    let kind = kind_of(kinds, i);
    Ok(put_literal(lines, ta, k, kind, scratch, o))
}

// The same. 10, 11, 12, 15.
pub fn close_stride(
    lines: &[i32],
    kinds: &[u8],
    tally: Tally,
    i: LineNumber,
    g: u16,
    k: usize,
    scratch: &mut [u8],
    o: usize,
) -> Result<usize, Refusal>
    requires ready { Ready tally.edition k kinds.now lines.now tally.lines.0 }
    requires o_le_scratch_limit { o ≤ scratch_limit }
    ensures { EndedBy (λ refusal. by_stride refusal (lines_in k kinds.now lines.now tally.lines.0) i.0 g) scratch.old o scratch.new result }
{
    test_stride(lines, kinds, tally, i, g, k)?;
    let ta = lines::place_a(i, k);
    Ok(put_stride(lines, ta, k, i64::from(g), scratch, o))
}
