// One entry of a branch: a row or a claim, counted, tested and applied.
// specs/Steps.antt has the code's answers as those of the definition (`check_entry`, proof/specs/Check.antt); branches calls `step`.
#![tactic(auto)]

ghost use Rattle.std.specs.Prelude.{◌≡◌, true, ◌≤◌, length};
ghost use Rattle.lines.specs.Ready.{Ready};
ghost use Rattle.steps.specs.Steps.{field_checked, Steps, Advances};

use answers::refusals::Refusal;
use entries::{Entry, entry_at};
use forms::LineNumber;
use rows::claims::claim_holds;
use rows::derive::{combine, reduce, scale};
use tally::Tally;

#[derive(Clone, Copy)]
pub enum Stepped {
    // A row 0x10 to 0x12 made a line.
    Made {
        tally: Tally,
    },
    // A claim stated the line made last.
    Claimed,
    // A row that opens branches or ends this one, counted but not yet tested.
    Strengthens {
        tally: Tally,
        t: LineNumber,
    },
    ClosesNumber {
        tally: Tally,
        t: LineNumber,
    },
    ClosesStride {
        tally: Tally,
        t: LineNumber,
        g: u16,
    },
    Rounds {
        tally: Tally,
        t: LineNumber,
        g: u16,
        by: u16,
    },
    Splits {
        tally: Tally,
        t: LineNumber,
    },
}

// One entry of a branch, by the tag and the contents of its field. 3, 4, 6, then as the row, counted first (18), or the claim (14).
// Each row is counted in its own arm, so that the compiler makes one choice by the tag of both matches (docs/DECISIONS.md).
pub fn step(
    contents: &[u8],
    tag: u8,
    made: bool,
    lines: &mut [i32],
    kinds: &mut [u8],
    mut tally: Tally,
    k: usize,
) -> Result<Stepped, Refusal>
    requires ready { Ready tally.edition k kinds.old lines.old tally.lines.0 }
    requires line_made { made ≡ true → 1 ≤ tally.lines.0 }
    ensures steps { Steps (field_checked k kinds.old lines.old tally made tag contents.now) k kinds.old lines.old tally kinds.new lines.new result }
    ensures advances { Advances tally.edition (length contents.now) result }
{
    let entry = entry_at(contents, tag, k, tally.edition, made)?;
    match entry {
        Entry::Combine { s, t, alpha, beta } => {
            tally.count_row()?;
            let tally = combine(lines, kinds, tally, s, t, alpha, beta, k)?;
            Ok(Stepped::Made { tally })
        }
        Entry::Reduce { s, t, alpha } => {
            tally.count_row()?;
            let tally = reduce(lines, kinds, tally, s, t, alpha, k)?;
            Ok(Stepped::Made { tally })
        }
        Entry::Scale { t, alpha } => {
            tally.count_row()?;
            let tally = scale(lines, kinds, tally, t, alpha, k)?;
            Ok(Stepped::Made { tally })
        }
        Entry::Strengthen { t } => {
            tally.count_row()?;
            Ok(Stepped::Strengthens { tally, t })
        }
        Entry::CloseNumber { t } => {
            tally.count_row()?;
            Ok(Stepped::ClosesNumber { tally, t })
        }
        Entry::CloseStride { t, g } => {
            tally.count_row()?;
            Ok(Stepped::ClosesStride { tally, t, g })
        }
        Entry::Round { t, g, by } => {
            tally.count_row()?;
            Ok(Stepped::Rounds { tally, t, g, by })
        }
        Entry::Split { t } => {
            tally.count_row()?;
            Ok(Stepped::Splits { tally, t })
        }
        Entry::Claim => {
            let last = LineNumber(tally.lines.0 - 1);
            if !claim_holds(contents, lines, last, k) {
                return Err(Refusal::WrongClaim);
            }
            Ok(Stepped::Claimed)
        }
    }
}
