// A branch and the branches that it opens, walked by their fields. Other refusals than 27 and 28 check has given at that place or before.
ghost use Rattle.std.specs.Prelude.{◌≡◌, ◌+◌, ◌≤◌};
ghost use Rattle.forms.specs.Edition.{edition1};
ghost use Rattle.answers.specs.Answers.{refusal_at};
ghost use Rattle.answers.specs.Refusals.{number_of};
ghost use Rattle.run.specs.Uniform.{with_number};
ghost use Rattle.run_branches.specs.Branches.{Likens};
ghost use Rattle.run_branches.specs.Walks.{Countable, Stops, WalksBranch, WalksBranches};

use answers::by_name::proof_refusal;
use answers::refusals::Refusal;
use answers::{Answer, Position};
use fields::{End, next_field};
use forms::{BRANCHINGS, RowNumber};
use run_fields::kind::{EntryKind, Matching, kind_at};
use run_fields::same::same_fields;
use run_fields::walked::WalkedProof;

// An answer by another number.
#[tactic(auto, unfolding(run::specs::Uniform::with_number))]
pub fn renumber(answer: Answer, number: u8) -> Answer
    ensures { result ≡ with_number number answer }
{
    Answer { number, ..answer }
}

// A refusal that stands where another would.
fn standing(
    refusal: Refusal,
    position: Position,
    rows: RowNumber,
    other: Refusal,
    place: usize,
) -> Answer
    ensures { result ≡ with_number (number_of refusal) (refusal_at position rows.0 place (number_of other)) }
{
    renumber(
        proof_refusal(position, rows, other, place),
        refusal.number(),
    )
}

// A branch that is closed: the fields go on at next, there are so many rows up to there, and `unlike` is 28 at its closing row.
#[derive(Clone, Copy)]
pub struct Closed {
    pub next: usize,
    pub rows: RowNumber,
    pub unlike: Answer,
}

// The row that ends the entries of a branch.
#[derive(Clone, Copy)]
pub enum Stop {
    Closes(Closed),
    // The row at `at`, of that number, opens branches 0 to last; the fields go on at next.
    Opens {
        last: u16,
        alike: Matching,
        row: RowNumber,
        at: usize,
        next: usize,
    },
}

// The entries of a branch up to the row that closes it or opens branches. 2, 3, 4, 6, 20, 27.
fn walk_entries(
    proof: &WalkedProof,
    at: usize,
    position: Position,
    rows: RowNumber,
) -> Result<Stop, Answer>
    requires { Countable proof.now.bytes.now at rows.0 }
    ensures { Stops proof.now.edition proof.now.k proof.now.bytes.now at position rows.0 result }
{
    let mut here = at;
    let mut count = rows.0;
    let mut made = false;
    // No `for`: a field tells where the next one starts, and each way out is a return.
    loop {
        let row = RowNumber(count);
        let field = match next_field(proof.bytes, here) {
            Ok(field) => field,
            Err(End::Cut { at }) => {
                return Err(proof_refusal(position, row, Refusal::Truncated, at));
            }
            Err(End::Ends { at }) => {
                return Err(proof_refusal(position, row, Refusal::BranchesOpen, at));
            }
        };
        match kind_at(proof, field, made) {
            Ok(EntryKind::Derives) => {
                count += 1;
                made = true;
                here = field.next;
            }
            Ok(EntryKind::Opens { last, alike }) => {
                return Ok(Stop::Opens {
                    last,
                    alike,
                    row,
                    at: field.at,
                    next: field.next,
                });
            }
            Ok(EntryKind::Closes) => {
                let other = Refusal::ConditionNotMet;
                let unlike = standing(Refusal::BranchesDiffer, position, row, other, field.at);
                return Ok(Stop::Closes(Closed {
                    next: field.next,
                    rows: RowNumber(count + 1),
                    unlike,
                }));
            }
            Ok(EntryKind::Claims) => {
                let other = Refusal::WrongClaim;
                return Err(standing(Refusal::ClaimInRun, position, row, other, field.at));
            }
            Err(refusal) => return Err(proof_refusal(position, row, refusal, field.at)),
        }
    }
}

// A branch's own fields: so many from `at` on, a row each.
#[derive(Clone, Copy)]
struct Own {
    at: usize,
    rows: u16,
}

// Whether the branches that must be alike are, with branch b; `like` tells of those before it.
fn likened(p: &[u8], like: bool, alike: Matching, b: u16, first: Own, own: Own) -> bool
    ensures { Likens p.now like alike b first own result }
{
    if !like || !alike.compares(b) {
        return like;
    }
    first.rows == own.rows && same_fields(p, first.at, own.at, own.rows)
}

// Branches 0 to last of the row `step`, from `at` on; 28 at the last one's closing row if those are not alike that must be.
#[cycle(walk_branch_walk_branches)]
fn walk_branches(
    proof: &WalkedProof,
    at: usize,
    step: RowNumber,
    last: u16,
    alike: Matching,
    opened: u16,
) -> Result<Closed, Answer>
    requires opened_few { opened ≤ edition1.branchings }
    requires countable { Countable proof.now.bytes.now at (step.0 + 1) }
    ensures { WalksBranches proof.now.edition proof.now.k proof.now.bytes.now at step.0 last alike opened result }
{
    let rows = RowNumber(step.0 + 1);
    let place = Position { step, branch: 0 };
    let mut closed = walk_branch(proof, at, place, rows, opened)?;
    let first = Own {
        at,
        rows: closed.rows.0 - rows.0,
    };
    let mut like = true;
    for b in 0..last {
        let place = Position {
            step,
            branch: b + 1,
        };
        let next = walk_branch(proof, closed.next, place, closed.rows, opened)?;
        let own = Own {
            at: closed.next,
            rows: next.rows.0 - closed.rows.0,
        };
        like = likened(proof.bytes, like, alike, b + 1, first, own);
        closed = next;
    }
    if !like {
        return Err(closed.unlike);
    }
    Ok(closed)
}

// The branch at a position, before which there were so many rows; `opened` steps are open. 17, 28, else as `walk_entries`.
#[cycle(walk_branch_walk_branches)]
pub fn walk_branch(
    proof: &WalkedProof,
    at: usize,
    position: Position,
    rows: RowNumber,
    opened: u16,
) -> Result<Closed, Answer>
    requires opened_few { opened ≤ edition1.branchings }
    requires countable { Countable proof.now.bytes.now at rows.0 }
    ensures { WalksBranch proof.now.edition proof.now.k proof.now.bytes.now at position rows.0 opened result }
{
    match walk_entries(proof, at, position, rows)? {
        Stop::Closes(closed) => Ok(closed),
        Stop::Opens {
            last,
            alike,
            row,
            at,
            next,
        } => {
            if opened == BRANCHINGS {
                return Err(proof_refusal(position, row, Refusal::TooDeep, at));
            }
            walk_branches(proof, next, row, last, alike, opened + 1)
        }
    }
}
