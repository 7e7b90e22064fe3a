// The operation, stage by stage.
ghost use Rattle.std.specs.Prelude.{◌*◌, ◌<◌, ◌≤◌};
ghost use Rattle.forms.specs.Edition.{edition};
ghost use Rattle.run.specs.Promises.{WritesGuards};
ghost use Rattle.run_cuts.specs.Phases.{StagesPassed, Passed, Begun, Guarded};

use answers::by_name::refusal;
use answers::refusals::Refusal;
use answers::{Answer, WriteResult, acceptance};
use fields::FileKind;
use fields::header::read_header;
use forms::{CONSTANTS, LINES, LINES_1, NEWEST, PROOF_BYTES};
use run_cuts::begun::Run;
use run_cuts::deliver::check_run;
use run_stages::reading::{Stages, long_stage, parted, read_stages};

// The most constraints of all stages together.
const ALL_CONSTRAINTS: usize = 64;

// The numbers of a line: t and tA, each with its constant term.
const LINE_NUMBERS: usize = 2 * (CONSTANTS as usize + 1);

// The kinds and the numbers of the lines on a branch, and of the one that is being made: of a proof of edition 1, and of any edition.
const KINDS_1: usize = LINES_1 as usize + 1;

const NUMBERS_1: usize = KINDS_1 * LINE_NUMBERS;

const KINDS_ANY: usize = LINES as usize + 1;

const NUMBERS_ANY: usize = KINDS_ANY * LINE_NUMBERS;

// The cuts, and the guards, in arrays of these sizes.
fn check_sized<const KINDS: usize, const NUMBERS: usize>(
    run: &Run,
    out: &mut [u8],
    sizes: &mut [usize],
) -> Result<usize, Answer>
    requires passed { Passed run.now }
    requires begun { Begun run.now }
    requires kinds_enough { (edition run.now.edition).lines < KINDS }
    requires numbers_enough { (KINDS * 34 ≤ NUMBERS) × (NUMBERS ≤ 34_034) }
    ensures { Guarded run.now.buffer.now run.now.lengths.now run.now.proof.now out.old sizes.old out.new sizes.new result }
{
    let mut lines = [0i32; NUMBERS];
    let mut kinds = [0u8; KINDS];
    let mut none = [0u8; 1];
    check_run(run, &mut lines, &mut kinds, &mut none, out, sizes)
}

// The proof's header, where all stages were read. 2, 3, 4, 6, 5, 7, 9.
fn check_header(
    buffer: &[u8],
    lengths: &[usize],
    stages: Stages,
    proof: &[u8],
    out: &mut [u8],
    sizes: &mut [usize],
) -> Result<usize, Answer>
    requires { StagesPassed buffer.now lengths.now proof.now stages.k stages.count }
    ensures { Guarded buffer.now lengths.now proof.now out.old sizes.old out.new sizes.new result }
{
    let header = read_header(proof, FileKind::Proof, NEWEST, stages.k).map_err(|fault| refusal(
        fault.refusal,
        3,
        fault.place,
    ))?;
    let run = Run {
        buffer,
        lengths,
        k: stages.k,
        count: stages.count,
        proof,
        at: header.next,
        edition: header.edition,
    };
    if header.edition == 1 {
        return check_sized::<KINDS_1, NUMBERS_1>(&run, out, sizes);
    }
    check_sized::<KINDS_ANY, NUMBERS_ANY>(&run, out, sizes)
}

// The guards, or the first refusal: how many bytes they have together. 25, 1, 26.
fn guard_stages(
    buffer: &[u8],
    lengths: &[usize],
    proof: &[u8],
    out: &mut [u8],
    sizes: &mut [usize],
) -> Result<usize, Answer>
    ensures { Guarded buffer.now lengths.now proof.now out.old sizes.old out.new sizes.new result }
{
    if !parted(buffer, lengths) {
        return Err(refusal(Refusal::WrongStages, 4, 0));
    }
    if let Some(file) = long_stage(buffer, lengths) {
        return Err(refusal(Refusal::TooLong, file, 0));
    }
    if proof.len() > PROOF_BYTES {
        return Err(refusal(Refusal::TooLong, 3, 0));
    }
    let stages = read_stages(buffer, lengths)?;
    if stages.count > ALL_CONSTRAINTS {
        return Err(refusal(Refusal::TooManyInRun, 4, 0));
    }
    check_header(buffer, lengths, stages, proof, out, sizes)
}

// The guards of a run of stages: bundles end to end, their lengths, the proof; the guard files end to end, and their sizes.
pub fn guards(
    buffer: &[u8],
    lengths: &[usize],
    proof: &[u8],
    out: &mut [u8],
    sizes: &mut [usize],
) -> WriteResult
    ensures { WritesGuards buffer.now lengths.now proof.now out.old sizes.old out.new sizes.new result }
{
    match guard_stages(buffer, lengths, proof, out, sizes) {
        Ok(count) => WriteResult {
            answer: acceptance(),
            count,
        },
        Err(answer) => WriteResult { answer, count: 0 },
    }
}
