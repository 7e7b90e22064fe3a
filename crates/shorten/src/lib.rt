// The operation that leaves out the rows on which nothing rests.
// Its definition is shortening/specs/Shorten.antt, its contract shortening/specs/Promises.antt.
#![tactic(auto)]

ghost use Rattle.shortening.specs.Promises.{Shortens};
ghost use Rattle.shorten.specs.Phases.{CheckAnswered, Accepted};

use answers::Answer;
use bundle_scan::scan;
use fields::FileKind;
use fields::header::read_header;
use forms::NEWEST;
use shortening::ShortenResult;
use shortening_marks::ProofBody;
use shortening_table::arrays::{
    BYTES_FEW, LINES_FEW, LINES_MOST, ROWS_FEW, ROWS_MOST, refused, shorten_in,
};

// What check read once is read again: the numbers of constraints, and the proof's header.
fn shorten_accepted(
    a: &[u8],
    b: &[u8],
    proof: &[u8],
    answer: Answer,
    report: &mut [u8],
    table: &mut [u8],
) -> ShortenResult
    requires { Accepted a.now b.now proof.now }
    ensures { Shortens a.now b.now proof.now report.old table.old report.new table.new result }
{
    let Ok(first) = scan(a, 0, 0) else {
        return refused(answer);
    };
    let Ok(second) = scan(b, first.k, 0) else {
        return refused(answer);
    };
    let Ok(head) = read_header(proof, FileKind::Proof, NEWEST, first.k) else {
        return refused(answer);
    };
    let body = ProofBody {
        at: head.next,
        edition: head.edition,
        k: first.k,
        constraints: (first.body.count + second.body.count) as u16,
    };
    if proof.len() <= BYTES_FEW {
        return shorten_in::<ROWS_FEW, LINES_FEW>(proof, body, report, table);
    }
    shorten_in::<ROWS_MOST, LINES_MOST>(proof, body, report, table)
}

// The report on the rows of a proof, and the table without those that nothing rests on. `checked` is what a check with an output
// of one byte answered, and is told on; its 21 says that the proof is accepted, since no formula is so short.
pub fn shorten(
    a: &[u8],
    b: &[u8],
    proof: &[u8],
    checked: Answer,
    report: &mut [u8],
    table: &mut [u8],
) -> ShortenResult
    requires { CheckAnswered a.now b.now proof.now checked }
    ensures { Shortens a.now b.now proof.now report.old table.old report.new table.new result }
{
    if checked.number != 21 {
        return refused(checked);
    }
    shorten_accepted(a, b, proof, checked, report, table)
}
