// The operations for other programs, thin, over the proved operations; dulgaverk_c exports them.
// A slice is a pointer and a length; what is lent as `&mut` overlaps nothing else that is passed.
#![tactic(auto)]

ghost use Rattle.std.specs.Prelude.{◌≡◌, true, false};
ghost use Rattle.forms.specs.Edition.{newest_edition};
ghost use Rattle.bundle.specs.Show.{show_part};
ghost use Rattle.bundle_show.specs.Promises.{AnswersShow, part_bytes};
ghost use Rattle.bundle_read.specs.Promises.{Reads};
ghost use Rattle.bundle_write.specs.Promises.{Writes};
ghost use Rattle.formula_test.specs.Promises.{Tests};
ghost use Rattle.formula_list.specs.Promises.{TestsList};
ghost use Rattle.printing.specs.Promises.{PrintsFile};
ghost use Rattle.proof.specs.Promises.{Checks};
ghost use Rattle.enumeration.specs.Promises.{WritesNext};
ghost use Rattle.conversion.specs.Promises.{TurnsBundle, TurnsProof};
ghost use Rattle.scheduler.specs.Scheduler.{empty};
ghost use Rattle.scheduler.specs.Promises.{Submits, Cancels, Turns};
ghost use Rattle.dulgaverk.specs.Jobs.{ChecksJob};
ghost use Rattle.bundle_show.specs.Copied.{Copied};
ghost use Rattle.shortening.specs.Promises.{Shortens};
ghost use Rattle.run.specs.Promises.{WritesGuards};

use answers::refusals::Refusal;
use answers::{Answer, WriteResult};
use bundle_read::ReadResult;
use bundle_show::{copy_shown, show_answer};
use checking::check;
use formula_test::Tested;
use scheduler::{Changed, Job, Scheduler, Turned};
use scheduler_turn::{files_of, idle, next_seat, served};
use shorten::shorten;
use shortening::ShortenResult;

pub fn dulgaverk_read(file: &[u8], kinds: &mut [u8], numbers: &mut [i32]) -> ReadResult
    ensures { Reads file.now kinds.old numbers.old kinds.new numbers.new result }
{
    bundle_read::read(file, kinds, numbers)
}

pub fn dulgaverk_write(
    edition: usize,
    k: usize,
    kinds: &[u8],
    numbers: &[i32],
    out: &mut [u8],
) -> WriteResult
    ensures { Writes edition k kinds.now numbers.now out.old out.new result }
{
    bundle_write::write(edition, k, kinds, numbers, out)
}

pub fn dulgaverk_show_answer(a: &[u8], b: &[u8], line: usize) -> Answer
    ensures { AnswersShow a.now b.now line result }
{
    show_answer(a, b, line)
}

// The check of a proof; the formula's file goes into `out`.
pub fn dulgaverk_check(a: &[u8], b: &[u8], proof: &[u8], out: &mut [u8]) -> WriteResult
    ensures { Checks a.now b.now proof.now out.old out.new result }
{
    check(a, b, proof, out)
}

// The report on the proof's rows goes into `report`, and the table without those that nothing rests on into `out`. An output of
// one byte is too short for any formula's file, so that 21 says that the proof is accepted.
pub fn dulgaverk_shorten(
    a: &[u8],
    b: &[u8],
    proof: &[u8],
    report: &mut [u8],
    out: &mut [u8],
) -> ShortenResult
    ensures { Shortens a.now b.now proof.now report.old out.old report.new out.new result }
{
    let mut none = [0u8; 1];
    let checked = dulgaverk_check(a, b, proof, &mut none);
    shorten(a, b, proof, checked.answer, report, out)
}

// The guards of a run of stages: bundles end to end in `buffer`, their lengths, the proof. The guard files go end to end into `out`, their sizes into `sizes`.
pub fn dulgaverk_guards(
    buffer: &[u8],
    lengths: &[usize],
    proof: &[u8],
    out: &mut [u8],
    sizes: &mut [usize],
) -> WriteResult
    ensures { WritesGuards buffer.now lengths.now proof.now out.old sizes.old out.new sizes.new result }
{
    run_guards::guards::guards(buffer, lengths, proof, out, sizes)
}

// The constraint's field, copied into `out`, and its length. (An exported function cannot return a reference.) Where it does not fit, nothing is copied.
pub fn dulgaverk_show<'a>(a: &'a [u8], b: &'a [u8], line: usize, out: &mut [u8]) -> usize
    ensures { Copied (part_bytes (show_part newest_edition a.now b.now line) a.now b.now) out.old out.new result }
{
    copy_shown(a, b, line, out)
}

pub fn dulgaverk_test(formula: &[u8], values: &[i32]) -> Tested
    ensures { Tests formula.now values.now result }
{
    formula_test::test(formula, values)
}

// Into the other edition; `edition` is the one asked for, any number: 5 for every one but 1 and 2.
pub fn dulgaverk_turn_bundle(file: &[u8], edition: usize, out: &mut [u8]) -> WriteResult
    ensures { TurnsBundle edition file.now out.old out.new result }
{
    convert::turn_bundle(file, edition, out)
}

pub fn dulgaverk_turn_proof(file: &[u8], edition: usize, out: &mut [u8]) -> WriteResult
    ensures { TurnsProof edition file.now out.old out.new result }
{
    convert::turn_proof(file, edition, out)
}

// The short proof after a table; after the header alone the first.
pub fn dulgaverk_next_proof(a: &[u8], b: &[u8], table: &[u8], out: &mut [u8]) -> WriteResult
    ensures { WritesNext a.now b.now table.now out.old out.new result }
{
    enumerate::next_proof(a, b, table, out)
}

// Checks that wait at eight seats. The state is a struct by value: it goes in, and comes back with the answer.
pub fn dulgaverk_scheduler_empty() -> Scheduler
    ensures { result ≡ empty }
{
    scheduler_change::empty()
}

pub fn dulgaverk_scheduler_submit(s: Scheduler, seat: usize, job: Job) -> Changed
    ensures { Submits s seat job result }
{
    scheduler_change::submit(s, seat, job)
}

pub fn dulgaverk_scheduler_cancel(s: Scheduler, seat: usize) -> Changed
    ensures { Cancels s seat result }
{
    scheduler_change::cancel(s, seat)
}

// The check of a job on the buffer as it is now. 34, then what the check gives on the three parts.
fn check_job(job: Job, buffer: &[u8], out: &mut [u8]) -> WriteResult
    ensures { ChecksJob job buffer.now out.old out.new result }
{
    match files_of(job, buffer) {
        Some(files) => dulgaverk_check(files.a, files.b, files.proof, out),
        None => WriteResult {
            answer: answers::by_name::refusal(Refusal::PartOutside, 4, 0),
            count: 0,
        },
    }
}

// Serves the first seat that waits.
pub fn dulgaverk_scheduler_turn(s: Scheduler, buffer: &[u8], out: &mut [u8]) -> Turned
    ensures { Turns s buffer.now out.old out.new result }
{
    match next_seat(s) {
        Some(seat) => served(s, seat, check_job(s.slots[seat].job, buffer, out)),
        None => idle(s),
    }
}

// Tests a formula at a list of vectors, K values each; one byte a vector goes into `out`.
pub fn dulgaverk_test_list(formula: &[u8], k: usize, values: &[i32], out: &mut [u8]) -> WriteResult
    ensures { TestsList formula.now k values.now out.old out.new result }
{
    formula_list::test_list(formula, k, values, out)
}

// A formula as a term of SMT-LIB 2, and in words.
pub fn dulgaverk_print(formula: &[u8], out: &mut [u8]) -> WriteResult
    ensures { PrintsFile false formula.now out.old out.new result }
{
    print::print(formula, out)
}

pub fn dulgaverk_print_words(formula: &[u8], out: &mut [u8]) -> WriteResult
    ensures { PrintsFile true formula.now out.old out.new result }
{
    print::print_words(formula, out)
}
