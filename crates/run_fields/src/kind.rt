// What an entry is to the walk, by its tag and length: of its contents only the k of a rounding is looked at.
ghost use Rattle.std.specs.Prelude.{◌≡◌, ◌≢◌, ◌+◌, ◌≤◌, length, take, drop};
ghost use Rattle.run_fields.specs.Kinds.{compared_in, LaidOut, RoundKind, IsKind};

use crate::walked::WalkedProof;
use answers::refusals::Refusal;
use fields::WholeField;
use forms::{MULTIPLIER_BYTES, TERM_BYTES, line_bytes};
use number_bytes::numbers::unsigned_at;

// Which branches of a step must be the same rows.
#[derive(Clone, Copy)]
pub enum Matching {
    FirstAndThird,
    All,
    Nothing,
}

impl Matching {
    // Whether branch b must be as the first.
    pub fn compares(self, b: u16) -> bool
        ensures { result ≡ compared_in self b }
    {
        match self {
            Matching::FirstAndThird => b == 2,
            Matching::All => b != 0,
            Matching::Nothing => false,
        }
    }
}

#[derive(Clone, Copy)]
pub enum EntryKind {
    // Another line of the branch.
    Derives,
    // Opens branches 0 to last.
    Opens { last: u16, alike: Matching },
    // Closes the branch.
    Closes,
    Claims,
}

// How many bytes a field's contents have by its tag, and what it then is; a rounding is read apart. 3, 4.
#[tactic(auto, using(crate::proofs::ByTag::widths))]
fn laid_out(proof: &WalkedProof, tag: u8, made: bool) -> Result<(usize, EntryKind), Refusal>
    requires { tag ≢ 0x16 }
    ensures { LaidOut proof.now.edition proof.now.k tag made result }
{
    let width = line_bytes(proof.edition);
    match tag {
        0x10 => Ok((2 * width + 2 * MULTIPLIER_BYTES, EntryKind::Derives)),
        0x11 => Ok((2 * width + MULTIPLIER_BYTES, EntryKind::Derives)),
        0x12 => Ok((width + MULTIPLIER_BYTES, EntryKind::Derives)),
        0x13 => {
            let opens = EntryKind::Opens {
                last: 2,
                alike: Matching::FirstAndThird,
            };
            Ok((width, opens))
        }
        0x14 => Ok((width, EntryKind::Closes)),
        0x15 => Ok((width + MULTIPLIER_BYTES, EntryKind::Closes)),
        0x17 => {
            let opens = EntryKind::Opens {
                last: 1,
                alike: Matching::Nothing,
            };
            Ok((width, opens))
        }
        0x20 => {
            if made {
                return Ok((2 * TERM_BYTES * (proof.k + 1), EntryKind::Claims));
            }
            Err(Refusal::MisplacedTag)
        }
        0x01 | 0x02 => Err(Refusal::MisplacedTag),
        _ => Err(Refusal::UnknownTag),
    }
}

// A rounding: its branches are 0 to k. 6.
#[tactic(auto, using(crate::proofs::ByTag::widths))]
fn rounding(proof: &WalkedProof, field: WholeField) -> Result<EntryKind, Refusal>
    requires { field.start + field.len ≤ length proof.now.bytes.now }
    ensures { RoundKind proof.now.edition (take field.len (drop field.start proof.now.bytes.now)) result }
{
    let width = line_bytes(proof.edition);
    if field.len == width + 2 * MULTIPLIER_BYTES {
        let at = field.start + width + MULTIPLIER_BYTES;
        let by = unsigned_at(proof.bytes, at, MULTIPLIER_BYTES);
        return Ok(EntryKind::Opens {
            last: by as u16,
            alike: Matching::All,
        });
    }
    Err(Refusal::WrongLength)
}

// What a field of a proof is. 3, 4, 6.
pub fn kind_at(proof: &WalkedProof, field: WholeField, made: bool) -> Result<EntryKind, Refusal>
    requires { field.start + field.len ≤ length proof.now.bytes.now }
    ensures { IsKind proof.now.edition proof.now.k field.tag (take field.len (drop field.start proof.now.bytes.now)) made result }
{
    if field.tag == 0x16 {
        return rounding(proof, field);
    }
    let (size, kind) = laid_out(proof, field.tag, made)?;
    if field.len != size {
        return Err(Refusal::WrongLength);
    }
    Ok(kind)
}
