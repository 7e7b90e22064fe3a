// The check of one cut.
ghost use Rattle.std.specs.Prelude.{◌≡◌};
ghost use Rattle.lines.specs.Buffer.{lines_in};
ghost use Rattle.tally.specs.Tally.{tally};
ghost use Rattle.branches.specs.Branching.{Started};
ghost use Rattle.run_cuts.specs.Cuts.{claimed_as, RootChecked, Asked, CutChecked};

use crate::begun::Run;
use crate::load::load_cut;
use answers::by_name::refusal;
use answers::refusals::Refusal;
use answers::{Answer, root};
use branches::branch::{Here, check_branch};
use fields::FileKind;
use fields::ending::ending_at;
use forms::{LineNumber, RowNumber};
use run_branches::walk::renumber;
use tally::Tally;

// 27 in place of 14.
fn claimed(answer: Answer) -> Answer
    ensures { result ≡ claimed_as answer }
{
    if answer.number == Refusal::WrongClaim.number() {
        return renumber(answer, Refusal::ClaimInRun.number());
    }
    answer
}

// The root, and what follows it: the bytes of its formula, which goes into the scratch, if there is room for it.
fn check_loaded(
    run: &Run,
    lines: &mut [i32],
    kinds: &mut [u8],
    scratch: &mut [u8],
) -> Result<usize, Answer>
    requires { Started run.now.k kinds.old lines.old (tally run.now.edition 0 run.now.count 0) run.now.proof.now run.now.at 0 }
    ensures { RootChecked run.now (lines_in run.now.k kinds.old lines.old run.now.count) scratch.old scratch.new result }
{
    let tally = Tally {
        rows: RowNumber(0),
        lines: LineNumber(run.count as u16),
        open: 0,
        edition: run.edition,
    };
    let here = Here {
        at: run.at,
        k: run.k as usize,
        o: 0,
    };
    let closed = check_branch(run.proof, here, root(), lines, kinds, tally, scratch).map_err(
        |fault| fault.answer(),
    )?;
    ending_at(run.proof, closed.at, FileKind::Proof).map_err(|fault| refusal(
        fault.refusal,
        3,
        fault.place,
    ))?;
    Ok(closed.o)
}

// Cut c of the stages: the bytes of its formula.
pub fn check_cut(
    run: &Run,
    c: usize,
    lines: &mut [i32],
    kinds: &mut [u8],
    scratch: &mut [u8],
) -> Result<usize, Answer>
    requires { Asked run.now kinds.old lines.old }
    ensures { CutChecked run.now c scratch.old scratch.new result }
{
    load_cut(run, c, lines, kinds);
    check_loaded(run, lines, kinds, scratch).map_err(claimed)
}
