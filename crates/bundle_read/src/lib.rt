// The operation read: a bundle into kinds and numbers.
// Its definition is bundle/specs/Read.antt, its contract specs/Promises.antt.
#![tactic(auto)]

mod store;

ghost use Rattle.std.specs.Prelude.{◌≡◌};
ghost use Rattle.std.proofs.Math.Option.{none};
ghost use Rattle.forms.specs.Edition.{newest_edition};
ghost use Rattle.answers.specs.Answers.{answer, file_a};
ghost use Rattle.answers.specs.Refusals.{number_of};
ghost use Rattle.bundle.specs.Bundle.{bundle};
ghost use Rattle.bundle.specs.Read.{stored};
ghost use Rattle.bundle_scan.specs.Scan.{IsBundle};
ghost use Rattle.bundle_read.specs.Promises.{read_of, Reads};

use answers::by_name::refusal;
use answers::refusals::Refusal;
use answers::{Answer, acceptance};
use bundle_scan::{Body, scan};
use forms::BUNDLE_BYTES;
use number_bytes::words::Width;
use store::store_constraints;

// What reading a bundle answers: the edition, how many constraints and K, 0 for all where it is refused.
#[repr(C)]
#[derive(Clone, Copy)]
pub struct ReadResult {
    pub answer: Answer,
    pub count: usize,
    pub k: u8,
    pub edition: u8,
}

fn refused_read(reason: Refusal, file: u8, place: usize) -> ReadResult
    ensures { result ≡ record { answer = answer (number_of reason) file place; count = 0; k = 0; edition = 0 } }
{
    ReadResult {
        answer: refusal(reason, file, place),
        count: 0,
        k: 0,
        edition: 0,
    }
}

// Stores the constraints of a bundle that is without fault, if both outputs are long enough.
fn store_body(file: &[u8], k: u8, body: Body, kinds: &mut [u8], numbers: &mut [i32]) -> ReadResult
    requires { IsBundle 0 file.now k body }
    ensures { read_of result kinds.new numbers.new ≡ stored kinds.old numbers.old (bundle newest_edition file_a none file.now) }
{
    let edition = body.edition;
    let count = body.count;
    if kinds.len() < count {
        return refused_read(Refusal::OutputTooShort, 4, count);
    }
    if numbers.len() < count * (k as usize + 1) {
        return refused_read(Refusal::OutputTooShort, 4, count);
    }
    let width = Width::of_coefficients(edition);
    store_constraints(file, body.at, width, k, count, kinds, numbers);
    ReadResult {
        answer: acceptance(),
        count,
        k,
        edition,
    }
}

// Reads a bundle into kinds (0 inequality, 1 equality, 2 disequality) and numbers, K+1 a constraint.
pub fn read(file: &[u8], kinds: &mut [u8], numbers: &mut [i32]) -> ReadResult
    ensures { Reads file.now kinds.old numbers.old kinds.new numbers.new result }
{
    if file.len() > BUNDLE_BYTES {
        return refused_read(Refusal::TooLong, 1, 0);
    }
    match scan(file, 0, 0) {
        Ok(bundle) => store_body(file, bundle.k, bundle.body, kinds, numbers),
        Err(fault) => refused_read(fault.refusal, 1, fault.place),
    }
}
