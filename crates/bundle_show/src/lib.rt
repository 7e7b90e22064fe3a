// The operation show: the part of A's or B's bytes that states a constraint.
// Its definition is bundle/specs/Show.antt, its contracts specs/Promises.antt.
#![tactic(auto)]

mod locate;

ghost use Rattle.forms.specs.Edition.{newest_edition};
ghost use Rattle.bundle.specs.Show.{show_part};
ghost use Rattle.bundle_show.specs.Promises.{Shows, AnswersShow, part_bytes};
ghost use Rattle.bundle_show.specs.Copied.{Copied};

use answers::by_name::refusal;
use answers::refusals::Refusal;
use answers::{Answer, acceptance};
use bundle_scan::scan;
use forms::BUNDLE_BYTES;
use locate::locate;
use number_bytes::copy::copy_bytes;

// The field of the constraint that a line number names, out of A's or B's buffer; the empty part at A's start where it is refused.
pub fn show<'a>(a: &'a [u8], b: &'a [u8], line: usize) -> &'a [u8]
    ensures { Shows a.entry b.entry line result }
{
    match locate(a, b, line) {
        Ok(part) => {
            let end = part.start + part.size;
            if part.file == 1 {
                return &a[part.start..end];
            }
            &b[part.start..end]
        }
        Err(_) => &a[0..0],
    }
}

// The answer to the same call: no place is wanted, so any number will do.
pub fn show_answer(a: &[u8], b: &[u8], line: usize) -> Answer
    ensures { AnswersShow a.now b.now line result }
{
    if a.len() > BUNDLE_BYTES {
        return refusal(Refusal::TooLong, 1, 0);
    }
    if b.len() > BUNDLE_BYTES {
        return refusal(Refusal::TooLong, 2, 0);
    }
    let first = match scan(a, 0, 0) {
        Ok(first) => first,
        Err(fault) => return refusal(fault.refusal, 1, fault.place),
    };
    let second = match scan(b, first.k, 0) {
        Ok(second) => second,
        Err(fault) => return refusal(fault.refusal, 2, fault.place),
    };
    if line < first.body.count + second.body.count {
        return acceptance();
    }
    refusal(Refusal::NoSuchLine, 1, 0)
}

// The constraint's field, copied into `out`, and its length. Where it does not fit, nothing is copied.
pub fn copy_shown<'a>(a: &'a [u8], b: &'a [u8], line: usize, out: &mut [u8]) -> usize
    ensures { Copied (part_bytes (show_part newest_edition a.now b.now line) a.now b.now) out.old out.new result }
{
    let part = show(a, b, line);
    let n = part.len();
    if out.len() < n {
        return n;
    }
    copy_bytes(part, 0, n, out, 0);
    n
}
