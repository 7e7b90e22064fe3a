// A proof that is accepted, shortened: its rows reported on, then the table and the report written, in arrays that suit its
// length. specs/Arrays.antt has what each asks and leaves.
ghost use Rattle.std.specs.Prelude.{◌≡◌, ◌+◌, ◌*◌, ◌≤◌};
ghost use Rattle.forms.specs.Edition.{edition1};
ghost use Rattle.fields.specs.Places.{fields_at};
ghost use Rattle.shortening_table.specs.Arrays.{Stated, Deliverable, ShortensFields};

use crate::{put_table, table_bytes};
use answers::Answer;
use answers::refusals::Refusal;
use fields::header::put_header;
use forms::{CONSTRAINTS, ROWS};
use number_bytes::copy::copy_bytes;
use shortening::ShortenResult;
use shortening_marks::{NO_ROW, ProofBody, report_rows};
use shortening_stack::stack::{NO_STEP, Step};

// The most rows, and the lines of two bundles, one for each row, and one more. A proof of 256 bytes has 64 rows at most, since
// each has four bytes; an array is cleared before it is used, which takes longer than shortening so short a proof.
pub const ROWS_MOST: usize = ROWS as usize;

pub const LINES_MOST: usize = 2 * CONSTRAINTS + ROWS_MOST + 1;

pub const BYTES_FEW: usize = 256;

pub const ROWS_FEW: usize = BYTES_FEW / 4;

pub const LINES_FEW: usize = 2 * CONSTRAINTS + ROWS_FEW + 1;

pub fn refused(answer: Answer) -> ShortenResult
    ensures { result ≡ record { answer = answer; rows = 0; count = 0 } }
{
    ShortenResult {
        answer,
        rows: 0,
        count: 0,
    }
}

// By the report on the rows: the bytes of the table, and then the table and the report. 21.
fn write_both(
    proof: &[u8],
    body: ProofBody,
    reported: &[u8],
    rows: usize,
    gones: &mut [u16],
    steps: &mut [Step],
    report: &mut [u8],
    table: &mut [u8],
) -> ShortenResult
    requires { Deliverable body.edition body.k (fields_at proof.now body.at) body.constraints reported.now rows gones.old steps.old }
    ensures { ShortensFields body.edition body.k (fields_at proof.now body.at) body.constraints report.old table.old report.new table.new result }
{
    let needed = 8 + table_bytes(proof, body.at, reported);
    let short = refused(answers::by_name::refusal(Refusal::OutputTooShort, 4, needed));
    if report.len() < rows {
        return short;
    }
    if table.len() < needed {
        return short;
    }
    put_header(table, body.edition, body.k);
    put_table(proof, body, reported, gones, steps, table, 8);
    copy_bytes(reported, 0, rows, report, 0);
    let answer = answers::acceptance();
    ShortenResult {
        answer,
        rows,
        count: needed,
    }
}

// A proof that is accepted, in arrays for so many rows and lines.
pub fn shorten_in<const ROWS: usize, const LINES: usize>(
    proof: &[u8],
    body: ProofBody,
    report: &mut [u8],
    table: &mut [u8],
) -> ShortenResult
    requires stated { Stated body.edition body.k (fields_at proof.now body.at) body.constraints ROWS }
    requires rows_bound { ROWS ≤ 1_024 }
    requires lines_are { LINES ≡ 2 * edition1.constraints + ROWS + 1 }
    ensures { ShortensFields body.edition body.k (fields_at proof.now body.at) body.constraints report.old table.old report.new table.new result }
{
    let mut gathered = [NO_ROW; ROWS];
    let mut steps = [NO_STEP; ROWS];
    let mut marks = [0u8; LINES];
    let mut gones = [0u16; LINES];
    let mut reported = [0u8; ROWS];
    let rows = report_rows(
        proof,
        body,
        &mut gathered,
        &mut steps,
        &mut marks,
        &mut reported,
    );
    write_both(
        proof, body, &reported, rows, &mut gones, &mut steps, report, table,
    )
}
