// The end of a check: what follows the root, and the formula's file in the lent output; and the result of a refusal.
// What is left is said in specs/Output.antt; check_root ends with it.
#![tactic(auto)]

pub mod by_name;

ghost use Rattle.std.specs.Prelude.{◌≡◌};
ghost use Rattle.answers.specs.Answers.{answer};
ghost use Rattle.check_output.specs.Output.{InScratch, Delivers, Finishes};

use answers::WriteResult;
use answers::refusals::Refusal;
use fields::FileKind;
use fields::ending::ending_at;
use fields::header::put_header;
use forms::FORMULA_BYTES;
use number_bytes::copy::copy_bytes;

// By any number; by_name has those of refusals.
pub fn refusal(number: u8, file: u8, place: usize) -> WriteResult
    ensures { result ≡ record { answer = answer number file place; count = 0 } }
{
    WriteResult {
        answer: answers::refusal(number, file, place),
        count: 0,
    }
}

// The two header fields and the o first bytes of the scratch, if a formula's file may be so long, and the output has room for them. 1, 21.
fn deliver(scratch: &[u8], o: usize, k: u8, out: &mut [u8]) -> WriteResult
    requires { InScratch o scratch.now }
    ensures { Delivers k scratch.now o out.old out.new result }
{
    let needed = 8 + o;
    if needed > FORMULA_BYTES {
        return by_name::refusal(Refusal::TooLong, 4, needed);
    }
    if out.len() < needed {
        return by_name::refusal(Refusal::OutputTooShort, 4, needed);
    }
    put_header(out, 1, k);
    copy_bytes(scratch, 0, o, out, 8);
    WriteResult {
        answer: answers::acceptance(),
        count: needed,
    }
}

// What follows the root, and then the output. 2, 3, 19, 1, 21.
pub fn finish(
    proof: &[u8],
    at: usize,
    scratch: &[u8],
    o: usize,
    k: u8,
    out: &mut [u8],
) -> WriteResult
    requires { InScratch o scratch.now }
    ensures { Finishes k proof.now at scratch.now o out.old out.new result }
{
    match ending_at(proof, at, FileKind::Proof) {
        Ok(()) => deliver(scratch, o, k, out),
        Err(fault) => by_name::refusal(fault.refusal, 3, fault.place),
    }
}
