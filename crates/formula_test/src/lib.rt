// The operation test: a formula's file at register values.
// Its definition is formula/specs/Test.antt, its contract specs/Promises.antt.
#![tactic(auto)]

pub mod values;

ghost use Rattle.std.specs.Prelude.{◌≡◌};
ghost use Rattle.answers.specs.Refusals.{number_of};
ghost use Rattle.fields.specs.Fields.{fields};
ghost use Rattle.formula.specs.Formula.{read_formula};
ghost use Rattle.formula.specs.Test.{judged};
ghost use Rattle.form_value.specs.Registers.{Registers};
ghost use Rattle.formula_test.specs.Promises.{as_tested, Tests};
ghost use Rattle.formula_test.specs.Outcomes.{test_refused, given};

use answers::refusals::{Fault, Refusal};
use answers::{Answer, acceptance};
use fields::FileKind;
use fields::ending::ending_at;
use fields::header::read_header;
use forms::{CONSTANTS, FORMULA_BYTES, LEVELS};
use formula_read::reading::formula_at;
use values::first_outside;

// What testing gives: the answer, and whether the formula holds (false where it is refused).
#[repr(C)]
#[derive(Clone, Copy)]
pub struct Tested {
    pub answer: Answer,
    pub holds: bool,
}

fn refuse(refusal: Refusal, file: u8, place: usize) -> Tested
    ensures { result ≡ test_refused (number_of refusal) file place }
{
    Tested {
        answer: answers::by_name::refusal(refusal, file, place),
        holds: false,
    }
}

// The formula is read whole, with nothing but notes behind it, before its truth is given.
fn read_whole(formula: &[u8], values: &[i32], k: usize) -> Result<bool, Fault>
    requires { Registers values.now k }
    ensures { given result ≡ as_tested (judged values.now (read_formula k (fields formula.now))) }
{
    let header = read_header(formula, FileKind::Formula, 1, k as u8)?;
    let read = formula_at(formula, header.next, values, k, LEVELS)?;
    ending_at(formula, read.next, FileKind::Formula)?;
    Ok(read.holds)
}

// The most values, one for each constant.
const MOST: usize = CONSTANTS as usize;

// Tests a formula at K register values. Refuses: 7, 23, 1, then as the formula is read.
pub fn test(formula: &[u8], values: &[i32]) -> Tested
    ensures { Tests formula.now values.now result }
{
    let k = values.len();
    if k < 1 || MOST < k {
        return refuse(Refusal::WrongConstants, 4, 0);
    }
    if let Some(i) = first_outside(values) {
        return refuse(Refusal::ValueOutOfRange, 4, i);
    }
    if FORMULA_BYTES < formula.len() {
        return refuse(Refusal::TooLong, 3, 0);
    }
    match read_whole(formula, values, k) {
        Ok(holds) => Tested {
            answer: acceptance(),
            holds,
        },
        Err(fault) => refuse(fault.refusal, 3, fault.place),
    }
}
