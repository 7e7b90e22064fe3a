// The operation that writes the next short proof after a table.
// It ensures WritesNext (enumeration/specs/Promises.antt); guarantee/specs/ShortProofs.antt says what that is worth.
#![tactic(auto)]

ghost use Rattle.enumeration.specs.Promises.{WritesNext};
ghost use Rattle.bundle_load.specs.Both.{Both};
ghost use Rattle.enumerate.specs.Limits.{BothWithinLimits};

use answers::WriteResult;
use answers::refusals::Refusal;
use bundle_load::prepare;
use bundle_scan::{Body, scan};
use check_output::by_name::refusal;
use enumeration_find::{deliver, find};
use forms::{BUNDLE_BYTES, CONSTANTS};

// The numbers of a line: t and tA, each with its constant term. There are six lines at most, and room for one more.
const LINE_NUMBERS: usize = 2 * (CONSTANTS as usize + 1);

const NUMBERS: usize = 7 * LINE_NUMBERS;

// 8, and then the search, in buffers for seven lines.
fn next_few(
    a: &[u8],
    b: &[u8],
    first: Body,
    second: Body,
    table: &[u8],
    k: u8,
    out: &mut [u8],
) -> WriteResult
    requires both_within_limits { BothWithinLimits a.now b.now }
    requires both { Both a.now b.now first second k }
    ensures { WritesNext a.now b.now table.now out.old out.new result }
{
    if first.count + second.count > 4 {
        return refusal(Refusal::TooManyConstraints, 4, 0);
    }
    let mut lines = [0i32; NUMBERS];
    let mut kinds = [0u8; 7];
    prepare(a, b, first, second, k, &mut lines, &mut kinds);
    let n = first.count + second.count;
    let found = find(&mut lines, &mut kinds, n, k, table);
    deliver(out, k, n, found)
}

// Writes the short proof of A and B that follows the one given; the first, where the header alone is given. A is read, then B.
pub fn next_proof(a: &[u8], b: &[u8], table: &[u8], out: &mut [u8]) -> WriteResult
    ensures { WritesNext a.now b.now table.now out.old out.new result }
{
    if a.len() > BUNDLE_BYTES {
        return refusal(Refusal::TooLong, 1, 0);
    }
    if b.len() > BUNDLE_BYTES {
        return refusal(Refusal::TooLong, 2, 0);
    }
    let first = match scan(a, 0, 0) {
        Ok(scanned) => scanned,
        Err(fault) => return refusal(fault.refusal, 1, fault.place),
    };
    match scan(b, first.k, 0) {
        Ok(second) => next_few(a, b, first.body, second.body, table, first.k, out),
        Err(fault) => refusal(fault.refusal, 2, fault.place),
    }
}
