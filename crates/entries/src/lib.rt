// Rows and claims as a proof's field states them: what entry a tag and its contents are.
// The definition is proof/specs/Entries.antt; specs/Entries.antt has the code's answers as its entries.
#![tactic(auto)]

ghost use Rattle.std.specs.Prelude.{◌≡◌, ◌≢◌, ◌+◌, ◌*◌, ◌<◌, ◌≤◌, length, MatchResult};
ghost use Rattle.forms.specs.Edition.{edition, edition1};
ghost use Rattle.number_bytes.specs.Numbers.{unsigned, signed};
ghost use Rattle.number_bytes.specs.Ranges.{Held};
ghost use Rattle.proof.specs.Entries.{line_number, multiplier};
ghost use Rattle.answers.specs.declared.refusals.Refusal.TheVariants.{WrongLength};
ghost use Rattle.entries.specs.Entries.{Entered};

use answers::refusals::Refusal;
use forms::{LineNumber, MULTIPLIER_BYTES, TERM_BYTES, line_bytes};
use number_bytes::numbers::unsigned_at;
use number_bytes::words::Width;

#[derive(Clone, Copy)]
pub enum Entry {
    Combine {
        s: LineNumber,
        t: LineNumber,
        alpha: u16,
        beta: u16,
    },
    Reduce {
        s: LineNumber,
        t: LineNumber,
        alpha: i64,
    },
    Scale {
        t: LineNumber,
        alpha: u16,
    },
    Strengthen {
        t: LineNumber,
    },
    CloseNumber {
        t: LineNumber,
    },
    CloseStride {
        t: LineNumber,
        g: u16,
    },
    // Line t, rounded by `by`.
    Round {
        t: LineNumber,
        g: u16,
        by: u16,
    },
    Split {
        t: LineNumber,
    },
    // The contents are a claim's.
    Claim,
}

// A number of t and one of tA, of which a claim has k + 1.
const PAIR_BYTES: usize = 2 * TERM_BYTES;

// The contents of a row: so many line numbers, and behind these so many multipliers (or g, or what a rounding rounds by).
#[derive(Clone, Copy)]
struct Row<'a> {
    contents: &'a [u8],
    e: u8,
    lines: usize,
    multipliers: usize,
    ghost laid_out: { length contents.now ≡ lines * (edition e).line_width + multipliers * edition1.multiplier_width },
}

impl<'a> Row<'a> {
    // In a proof of edition e. 6.
    fn of(contents: &'a [u8], e: u8, lines: usize, multipliers: usize) -> Result<Row<'a>, Refusal>
        requires lines_bound { lines ≤ 2 }
        requires multipliers_bound { multipliers ≤ 2 }
        ensures { MatchResult result
            (λ row. (row.contents.now ≡ contents.now) × (row.e ≡ e) × (row.lines ≡ lines) × (row.multipliers ≡ multipliers))
            (λ r. (r ≡ WrongLength) × (length contents.now ≢ lines * (edition e).line_width + multipliers * edition1.multiplier_width)) }
    {
        if contents.len() != lines * line_bytes(e) + multipliers * MULTIPLIER_BYTES {
            return Err(Refusal::WrongLength);
        }
        Ok(Row {
            contents,
            e,
            lines,
            multipliers,
        })
    }

    // Line number i, as wide as the proof's edition has it. Two calls, so that the compiler makes a load for each width.
    #[tactic(auto, using(std::proofs::lemmas::Bool::Decides::nat_tests), unfolding(proof::specs::Entries::line_number))]
    fn line(&self, i: usize) -> LineNumber
        requires { i < self.now.lines }
        ensures { result.0 ≡ line_number (edition self.now.e) i self.now.contents.now }
    {
        let n = if self.e == 1 {
            unsigned_at(self.contents, i, 1)
        } else {
            unsigned_at(self.contents, i * 2, 2)
        };
        LineNumber(n as u16)
    }

    // Multiplier i.
    #[tactic(auto, unfolding(proof::specs::Entries::multiplier))]
    fn multiplier(&self, i: usize) -> u16
        requires { i < self.now.multipliers }
        ensures { result ≡ unsigned (multiplier (edition self.now.e) self.now.lines i self.now.contents.now) }
    {
        let at = self.lines * line_bytes(self.e) + i * MULTIPLIER_BYTES;
        unsigned_at(self.contents, at, MULTIPLIER_BYTES) as u16
    }

    // Multiplier i, signed.
    #[tactic(auto, unfolding(proof::specs::Entries::multiplier))]
    fn signed_multiplier(&self, i: usize) -> i64
        requires { i < self.now.multipliers }
        ensures is { result ≡ signed (multiplier (edition self.now.e) self.now.lines i self.now.contents.now) }
        ensures range { Held 2 result }
    {
        let at = self.lines * line_bytes(self.e) + i * MULTIPLIER_BYTES;
        Width::Two.signed_at(self.contents, at)
    }
}

// The entry that a field of a proof of edition e states, by its tag and contents. The tags 0x01 and 0x02 are known, but not in place here.
pub fn entry_at(contents: &[u8], tag: u8, k: usize, e: u8, made: bool) -> Result<Entry, Refusal>
    requires { k ≤ edition1.constants }
    ensures { Entered e k contents.now tag made result }
{
    match tag {
        0x10 => {
            let row = Row::of(contents, e, 2, 2)?;
            Ok(Entry::Combine {
                s: row.line(0),
                t: row.line(1),
                alpha: row.multiplier(0),
                beta: row.multiplier(1),
            })
        }
        // Only here the multiplier is signed.
        0x11 => {
            let row = Row::of(contents, e, 2, 1)?;
            Ok(Entry::Reduce {
                s: row.line(0),
                t: row.line(1),
                alpha: row.signed_multiplier(0),
            })
        }
        0x12 => {
            let row = Row::of(contents, e, 1, 1)?;
            Ok(Entry::Scale {
                t: row.line(0),
                alpha: row.multiplier(0),
            })
        }
        0x13 => {
            let row = Row::of(contents, e, 1, 0)?;
            Ok(Entry::Strengthen { t: row.line(0) })
        }
        0x14 => {
            let row = Row::of(contents, e, 1, 0)?;
            Ok(Entry::CloseNumber { t: row.line(0) })
        }
        0x15 => {
            let row = Row::of(contents, e, 1, 1)?;
            Ok(Entry::CloseStride {
                t: row.line(0),
                g: row.multiplier(0),
            })
        }
        0x16 => {
            let row = Row::of(contents, e, 1, 2)?;
            Ok(Entry::Round {
                t: row.line(0),
                g: row.multiplier(0),
                by: row.multiplier(1),
            })
        }
        0x17 => {
            let row = Row::of(contents, e, 1, 0)?;
            Ok(Entry::Split { t: row.line(0) })
        }
        0x20 if !made => Err(Refusal::MisplacedTag),
        0x20 if contents.len() != PAIR_BYTES * (k + 1) => Err(Refusal::WrongLength),
        0x20 => Ok(Entry::Claim),
        0x01 | 0x02 => Err(Refusal::MisplacedTag),
        _ => Err(Refusal::UnknownTag),
    }
}
