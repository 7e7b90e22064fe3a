// Reads two bundles from the files a and b and a proof from the file p of the working directory, and prints the bytes of
// the formula that the check assigns, or the line of a refusal.
#![tactic(auto)]

ghost use Rattle.std.specs.Prelude.{take, replicate};
ghost use Rattle.files.specs.Counts.{IsPrefixLen};
ghost use Rattle.forms.specs.Edition.{edition1};
ghost use Rattle.proof.specs.Check.{check as checked};
ghost use Rattle.checker.specs.Said.{Printed};

use answer_text::put_answer;
use checking::check;
use forms::{BUNDLE_BYTES, FORMULA_BYTES, PROOF_BYTES};

// Two digits for each byte of the longest formula, and what else the lines of an acceptance may have (`PutAccepted` of
// answer_text). The line of a refusal is shorter.
const TEXT: usize = 2 * FORMULA_BYTES + 31;

// What is to be printed of the three files, at the start of text: what the check leaves in an output that has room for any
// formula.
fn answer(a: &[u8], b: &[u8], p: &[u8], text: &mut [u8; TEXT]) -> usize
    ensures prefix_len { IsPrefixLen result text.new }
    ensures printed { Printed (checked a.now b.now p.now (replicate edition1.formula_bytes 0)) (take result text.new) }
{
    let mut out = [0u8; FORMULA_BYTES];
    let r = check(a, b, p, &mut out);
    let answer = r.answer;
    let n = r.count;
    put_answer(text, answer.number, answer.file, answer.place, &out[..n])
}

// Each file has room for one byte more than it may have, so that one that is too long is seen to be so; the rest of it changes nothing (`read-enough` of proofs/Enough.antt).
fn main(rt: HostRuntime) {
    let mut a = [0u8; BUNDLE_BYTES + 1];
    let mut b = [0u8; BUNDLE_BYTES + 1];
    let mut p = [0u8; PROOF_BYTES + 1];
    let mut text = [0u8; TEXT];
    let na = files::read(&rt, b"a", &mut a);
    let nb = files::read(&rt, b"b", &mut b);
    let np = files::read(&rt, b"p", &mut p);
    let n = answer(&a[..na], &b[..nb], &p[..np], &mut text);
    files::write(&mut rt.stdout(), &text[..n]);
}
