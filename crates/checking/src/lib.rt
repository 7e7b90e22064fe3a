// The operation check: its bundles, the proof's header, and then the lines and the root.
// Its definition is proof/specs/Check.antt, its contract proof/specs/Promises.antt.
#![tactic(auto)]

ghost use Rattle.proof.specs.Promises.{Checks};
ghost use Rattle.bundle_load.specs.Both.{Both};
ghost use Rattle.bundle_load.specs.Begun.{WithinLimits};

use answers::WriteResult;
use answers::refusals::Refusal;
use bundle_scan::{Body, scan};
use check_output::by_name::refusal;
use check_sizes::check_lines;
use check_sizes::inputs::Inputs;
use fields::FileKind;
use fields::header::read_header;
use forms::{BUNDLE_BYTES, NEWEST, PROOF_BYTES};

// The proof's header, where both bundles were gone over. 2, 3, 4, 6, 5, 7, 9.
fn check_header(
    a: &[u8],
    b: &[u8],
    first: Body,
    second: Body,
    proof: &[u8],
    k: u8,
    out: &mut [u8],
) -> WriteResult
    requires within_limits { WithinLimits a.now b.now proof.now }
    requires both { Both a.now b.now first second k }
    ensures { Checks a.now b.now proof.now out.old out.new result }
{
    match read_header(proof, FileKind::Proof, NEWEST, k) {
        Ok(header) => {
            let inputs = Inputs {
                a,
                b,
                first,
                second,
                proof,
                header,
            };
            check_lines(&inputs, out)
        }
        Err(fault) => refusal(fault.refusal, 3, fault.place),
    }
}

// A, and then B with A's K. No constraint's place is wanted, so any number will do.
fn check_bundles(a: &[u8], b: &[u8], proof: &[u8], out: &mut [u8]) -> WriteResult
    requires { WithinLimits a.now b.now proof.now }
    ensures { Checks a.now b.now proof.now out.old out.new result }
{
    match scan(a, 0, 0) {
        Ok(first) => match scan(b, first.k, 0) {
            Ok(second) => check_header(a, b, first.body, second.body, proof, first.k, out),
            Err(fault) => refusal(fault.refusal, 2, fault.place),
        },
        Err(fault) => refusal(fault.refusal, 1, fault.place),
    }
}

// Checks a proof over the bundles A and B, and writes the formula that it derives.
pub fn check(a: &[u8], b: &[u8], proof: &[u8], out: &mut [u8]) -> WriteResult
    ensures { Checks a.now b.now proof.now out.old out.new result }
{
    if a.len() > BUNDLE_BYTES {
        return refusal(Refusal::TooLong, 1, 0);
    }
    if b.len() > BUNDLE_BYTES {
        return refusal(Refusal::TooLong, 2, 0);
    }
    if proof.len() > PROOF_BYTES {
        return refusal(Refusal::TooLong, 3, 0);
    }
    check_bundles(a, b, proof, out)
}
