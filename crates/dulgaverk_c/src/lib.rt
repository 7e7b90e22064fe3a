// What C calls: each export is the function of that name of the crate dulgaverk, with its clauses. The static library that
// scripts/library makes. A slice is a pointer and a length; what is lent as `&mut` overlaps nothing else that is passed.
#![tactic(auto)]

ghost use Rattle.std.specs.Prelude.{◌≡◌, true, false};
ghost use Rattle.forms.specs.Edition.{newest_edition};
ghost use Rattle.bundle.specs.Show.{show_part};
ghost use Rattle.bundle_show.specs.Promises.{AnswersShow, part_bytes};
ghost use Rattle.bundle_read.specs.Promises.{Reads};
ghost use Rattle.bundle_write.specs.Promises.{Writes};
ghost use Rattle.formula_test.specs.Promises.{Tests};
ghost use Rattle.formula_list.specs.Promises.{TestsList};
ghost use Rattle.printing.specs.Promises.{PrintsFile};
ghost use Rattle.proof.specs.Promises.{Checks};
ghost use Rattle.enumeration.specs.Promises.{WritesNext};
ghost use Rattle.conversion.specs.Promises.{TurnsBundle, TurnsProof};
ghost use Rattle.scheduler.specs.Scheduler.{empty};
ghost use Rattle.scheduler.specs.Promises.{Submits, Cancels, Turns};
ghost use Rattle.bundle_show.specs.Copied.{Copied};
ghost use Rattle.shortening.specs.Promises.{Shortens};
ghost use Rattle.run.specs.Promises.{WritesGuards};

use answers::{Answer, WriteResult};
use bundle_read::ReadResult;
use formula_test::Tested;
use scheduler::{Changed, Job, Scheduler, Turned};
use shortening::ShortenResult;

#[unsafe(no_mangle)]
pub extern "C" fn dulgaverk_read(file: &[u8], kinds: &mut [u8], numbers: &mut [i32]) -> ReadResult
    ensures { Reads file.now kinds.old numbers.old kinds.new numbers.new result }
{
    dulgaverk::dulgaverk_read(file, kinds, numbers)
}

#[unsafe(no_mangle)]
pub extern "C" fn dulgaverk_write(
    edition: usize,
    k: usize,
    kinds: &[u8],
    numbers: &[i32],
    out: &mut [u8],
) -> WriteResult
    ensures { Writes edition k kinds.now numbers.now out.old out.new result }
{
    dulgaverk::dulgaverk_write(edition, k, kinds, numbers, out)
}

#[unsafe(no_mangle)]
pub extern "C" fn dulgaverk_show_answer(a: &[u8], b: &[u8], line: usize) -> Answer
    ensures { AnswersShow a.now b.now line result }
{
    dulgaverk::dulgaverk_show_answer(a, b, line)
}

#[unsafe(no_mangle)]
pub extern "C" fn dulgaverk_check(a: &[u8], b: &[u8], proof: &[u8], out: &mut [u8]) -> WriteResult
    ensures { Checks a.now b.now proof.now out.old out.new result }
{
    dulgaverk::dulgaverk_check(a, b, proof, out)
}

#[unsafe(no_mangle)]
pub extern "C" fn dulgaverk_shorten(
    a: &[u8],
    b: &[u8],
    proof: &[u8],
    report: &mut [u8],
    out: &mut [u8],
) -> ShortenResult
    ensures { Shortens a.now b.now proof.now report.old out.old report.new out.new result }
{
    dulgaverk::dulgaverk_shorten(a, b, proof, report, out)
}

#[unsafe(no_mangle)]
pub extern "C" fn dulgaverk_guards(
    buffer: &[u8],
    lengths: &[usize],
    proof: &[u8],
    out: &mut [u8],
    sizes: &mut [usize],
) -> WriteResult
    ensures { WritesGuards buffer.now lengths.now proof.now out.old sizes.old out.new sizes.new result }
{
    dulgaverk::dulgaverk_guards(buffer, lengths, proof, out, sizes)
}

#[unsafe(no_mangle)]
pub extern "C" fn dulgaverk_show<'a>(a: &'a [u8], b: &'a [u8], line: usize, out: &mut [u8]) -> usize
    ensures { Copied (part_bytes (show_part newest_edition a.now b.now line) a.now b.now) out.old out.new result }
{
    dulgaverk::dulgaverk_show(a, b, line, out)
}

#[unsafe(no_mangle)]
pub extern "C" fn dulgaverk_test(formula: &[u8], values: &[i32]) -> Tested
    ensures { Tests formula.now values.now result }
{
    dulgaverk::dulgaverk_test(formula, values)
}

#[unsafe(no_mangle)]
pub extern "C" fn dulgaverk_turn_bundle(file: &[u8], edition: usize, out: &mut [u8]) -> WriteResult
    ensures { TurnsBundle edition file.now out.old out.new result }
{
    dulgaverk::dulgaverk_turn_bundle(file, edition, out)
}

#[unsafe(no_mangle)]
pub extern "C" fn dulgaverk_turn_proof(file: &[u8], edition: usize, out: &mut [u8]) -> WriteResult
    ensures { TurnsProof edition file.now out.old out.new result }
{
    dulgaverk::dulgaverk_turn_proof(file, edition, out)
}

#[unsafe(no_mangle)]
pub extern "C" fn dulgaverk_next_proof(
    a: &[u8],
    b: &[u8],
    table: &[u8],
    out: &mut [u8],
) -> WriteResult
    ensures { WritesNext a.now b.now table.now out.old out.new result }
{
    dulgaverk::dulgaverk_next_proof(a, b, table, out)
}

#[unsafe(no_mangle)]
pub extern "C" fn dulgaverk_scheduler_empty() -> Scheduler
    ensures { result ≡ empty }
{
    dulgaverk::dulgaverk_scheduler_empty()
}

#[unsafe(no_mangle)]
pub extern "C" fn dulgaverk_scheduler_submit(s: Scheduler, seat: usize, job: Job) -> Changed
    ensures { Submits s seat job result }
{
    dulgaverk::dulgaverk_scheduler_submit(s, seat, job)
}

#[unsafe(no_mangle)]
pub extern "C" fn dulgaverk_scheduler_cancel(s: Scheduler, seat: usize) -> Changed
    ensures { Cancels s seat result }
{
    dulgaverk::dulgaverk_scheduler_cancel(s, seat)
}

#[unsafe(no_mangle)]
pub extern "C" fn dulgaverk_scheduler_turn(s: Scheduler, buffer: &[u8], out: &mut [u8]) -> Turned
    ensures { Turns s buffer.now out.old out.new result }
{
    dulgaverk::dulgaverk_scheduler_turn(s, buffer, out)
}

#[unsafe(no_mangle)]
pub extern "C" fn dulgaverk_test_list(
    formula: &[u8],
    k: usize,
    values: &[i32],
    out: &mut [u8],
) -> WriteResult
    ensures { TestsList formula.now k values.now out.old out.new result }
{
    dulgaverk::dulgaverk_test_list(formula, k, values, out)
}

#[unsafe(no_mangle)]
pub extern "C" fn dulgaverk_print(formula: &[u8], out: &mut [u8]) -> WriteResult
    ensures { PrintsFile false formula.now out.old out.new result }
{
    dulgaverk::dulgaverk_print(formula, out)
}

#[unsafe(no_mangle)]
pub extern "C" fn dulgaverk_print_words(formula: &[u8], out: &mut [u8]) -> WriteResult
    ensures { PrintsFile true formula.now out.old out.new result }
{
    dulgaverk::dulgaverk_print_words(formula, out)
}
