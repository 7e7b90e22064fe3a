// The end of the operation: every cut checked, the walk, and the guards written where there is room.
ghost use Rattle.run_cuts.specs.Cuts.{Asked};
ghost use Rattle.run_cuts.specs.Phases.{Passed, Totals, Guarded};

use crate::all::{Derived, check_cuts, judged};
use crate::begun::Run;
use crate::writing::write_guards;
use answers::by_name::refusal;
use answers::refusals::Refusal;
use answers::{Answer, root};
use forms::RowNumber;
use run_branches::walk::walk_branch;
use run_fields::walked::WalkedProof;

// The guards, where the proof was accepted for every cut and walked through: their bytes together. 1, 21.
fn deliver(
    run: &Run,
    derived: Derived,
    lines: &mut [i32],
    kinds: &mut [u8],
    out: &mut [u8],
    sizes: &mut [usize],
) -> Result<usize, Answer>
    requires passed { Passed run.now }
    requires asked { Asked run.now kinds.old lines.old }
    requires totals { Totals run.now derived }
    ensures { Guarded run.now.buffer.now run.now.lengths.now run.now.proof.now out.old sizes.old out.new sizes.new result }
{
    let total = derived.total;
    if !derived.fit {
        return Err(refusal(Refusal::TooLong, 4, total));
    }
    if out.len() < total || sizes.len() < run.lengths.len() + 1 {
        return Err(refusal(Refusal::OutputTooShort, 4, total));
    }
    write_guards(run, lines, kinds, out, sizes);
    Ok(total)
}

// Every cut, with no room for a formula; the walk; and then the guards.
pub fn check_run(
    run: &Run,
    lines: &mut [i32],
    kinds: &mut [u8],
    scratch: &mut [u8],
    out: &mut [u8],
    sizes: &mut [usize],
) -> Result<usize, Answer>
    requires passed { Passed run.now }
    requires asked { Asked run.now kinds.old lines.old }
    ensures { Guarded run.now.buffer.now run.now.lengths.now run.now.proof.now out.old sizes.old out.new sizes.new result }
{
    let all = check_cuts(run, lines, kinds, scratch);
    let proof = WalkedProof {
        bytes: run.proof,
        k: run.k as usize,
        edition: run.edition,
    };
    let walked = walk_branch(&proof, run.at, root(), RowNumber(0), 0);
    let derived = judged(all, walked)?;
    deliver(run, derived, lines, kinds, out, sizes)
}
