// One formula tested at a list of vectors, each of K register values.
// Its definition is formula/specs/TestList.antt, its contract specs/Promises.antt.
#![tactic(auto)]

ghost use Rattle.std.specs.Prelude.{◌≡◌, ◌≤◌};
ghost use Rattle.answers.specs.Refusals.{number_of};
ghost use Rattle.forms.specs.Edition.{edition1};
ghost use Rattle.formula_list.specs.Promises.{TestsList};
ghost use Rattle.formula_list.specs.Phases.{unwritten, ToRead, FormulaStands, ReadOnce};

use answers::refusals::{Fault, Refusal};
use answers::{WriteResult, acceptance};
use fields::FileKind;
use fields::ending::ending_at;
use fields::header::read_header;
use forms::{CONSTANTS, FORMULA_BYTES, LEVELS};
use formula_block::fill::fill;
use formula_read::reading::formula_at;

mod range;

use range::outside_at;

fn refuse(refusal: Refusal, file: u8, place: usize) -> WriteResult
    ensures { result ≡ unwritten (number_of refusal) file place }
{
    let answer = answers::by_name::refusal(refusal, file, place);
    WriteResult { answer, count: 0 }
}

// The formula is read; last comes 21, and then nothing is refused any more.
fn deliver(
    formula: &[u8],
    start: usize,
    values: &[i32],
    k: usize,
    n: usize,
    out: &mut [u8],
) -> WriteResult
    requires to_read { ToRead formula.now values.now k n }
    requires stands { FormulaStands formula.now k start }
    ensures { TestsList formula.now k values.now out.old out.new result }
{
    if out.len() < n {
        return refuse(Refusal::OutputTooShort, 4, n);
    }
    fill(formula, start, values, k, n, out);
    let answer = acceptance();
    WriteResult { answer, count: n }
}

// The most values of a vector, one for each constant.
const MOST: usize = CONSTANTS as usize;

// The place of a formula that is whole, with nothing but notes behind it. Which refusal it gets does not depend on the values: it is read once, at 0 for each constant.
fn read_once(formula: &[u8], k: usize) -> Result<usize, Fault>
    requires { (1 ≤ k) × (k ≤ edition1.constants) }
    ensures { ReadOnce formula.now k result }
{
    let zeros = [0; MOST];
    let header = read_header(formula, FileKind::Formula, 1, k as u8)?;
    let read = formula_at(formula, header.next, &zeros[..k], k, LEVELS)?;
    ending_at(formula, read.next, FileKind::Formula)?;
    Ok(header.next)
}

// Tests a formula at the vectors of a list, K values each, one after the other: one byte a vector. Refuses: 7, 23, 1, then as the formula is read, last 21.
pub fn test_list(formula: &[u8], k: usize, values: &[i32], out: &mut [u8]) -> WriteResult
    ensures { TestsList formula.now k values.now out.old out.new result }
{
    if k < 1 || MOST < k {
        return refuse(Refusal::WrongConstants, 4, 0);
    }
    let all = values.len();
    if 0 < all % k {
        return refuse(Refusal::WrongConstants, 4, 0);
    }
    if let Some(i) = outside_at(values) {
        return refuse(Refusal::ValueOutOfRange, 4, i);
    }
    if FORMULA_BYTES < formula.len() {
        return refuse(Refusal::TooLong, 3, 0);
    }
    match read_once(formula, k) {
        Ok(start) => deliver(formula, start, values, k, all / k, out),
        Err(fault) => refuse(fault.refusal, 3, fault.place),
    }
}
