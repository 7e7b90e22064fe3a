// The tally of a check: the numbers of the next row and the next line, and the branching steps open;
// and the edition of the proof, by which lines are limited, as the number that the file says: `edition n` is of every n.
#![tactic(auto)]

ghost use Rattle.std.specs.Prelude.{◌≡◌, ◌+◌, ltb};
ghost use Rattle.answers.specs.declared.refusals.Refusal.TheVariants.{TooManyLines, TooDeep, TooManyRows};
ghost use Rattle.tally.specs.Tally.{tallied, row_counted, line_counted, open_counted, returned_to, Advanced};

use answers::refusals::Refusal;
use forms::{BRANCHINGS, LineNumber, ROWS, RowNumber, lines_limit};

#[derive(Clone, Copy)]
pub struct Tally {
    pub rows: RowNumber,
    pub lines: LineNumber,
    pub open: u16,
    pub edition: u8,
}

// One more of what there may be so many of, or none where all are there.
fn one_more(count: u16, limit: u16) -> Option<u16>
    ensures { result ≡ tallied (ltb count limit) (count + 1) }
{
    if count < limit { Some(count + 1) } else { None }
}

#[tactic(auto, using(std::proofs::lemmas::Bool::Decides::nat_tests), unfolding(crate::specs::Tally::row_counted, crate::specs::Tally::line_counted, crate::specs::Tally::open_counted))]
impl Tally {
    // The tally after a step of each sort, or none where the step is refused.
    pub fn row_counted(self) -> Option<Tally>
        ensures { result ≡ row_counted self }
    {
        let rows = RowNumber(one_more(self.rows.0, ROWS)?);
        Some(Tally { rows, ..self })
    }

    pub fn line_counted(self) -> Option<Tally>
        ensures { result ≡ line_counted self }
    {
        let lines = LineNumber(one_more(self.lines.0, lines_limit(self.edition))?);
        Some(Tally { lines, ..self })
    }

    pub fn open_counted(self) -> Option<Tally>
        ensures { result ≡ open_counted self }
    {
        let open = one_more(self.open, BRANCHINGS)?;
        Some(Tally { open, ..self })
    }

    // The same steps on a tally that is lent and advanced there, a line each. 18, 16, 17.
    pub fn count_row(&mut self) -> Result<(), Refusal>
        ensures { Advanced row_counted TooManyRows self.old self.new result }
    {
        *self = self.row_counted().ok_or(Refusal::TooManyRows)?;
        Ok(())
    }

    pub fn count_line(&mut self) -> Result<(), Refusal>
        ensures { Advanced line_counted TooManyLines self.old self.new result }
    {
        *self = self.line_counted().ok_or(Refusal::TooManyLines)?;
        Ok(())
    }

    pub fn count_open(&mut self) -> Result<(), Refusal>
        ensures { Advanced open_counted TooDeep self.old self.new result }
    {
        *self = self.open_counted().ok_or(Refusal::TooDeep)?;
        Ok(())
    }

    // The step back when a branch is closed: the lines and open branching steps are again those of the tally given, the rows go on.
    pub fn returned(self, given: Tally) -> Tally
        ensures { result ≡ returned_to self given }
    {
        Tally {
            rows: self.rows,
            ..given
        }
    }

    // Whether a line is there, by its number.
    pub fn is_there(self, i: LineNumber) -> bool
        ensures { result ≡ ltb i.0 self.lines.0 }
    {
        i.0 < self.lines.0
    }
}
