// The rows of an accepted proof gathered, and those marked on which a close or branching row depends: the report.
// The definition is shortening/specs/Passes.antt; specs/Gathered.antt and specs/Marks.antt have the arrays beside it.
#![tactic(auto)]

ghost use Rattle.std.specs.Prelude.{◌≡◌, ◌<◌, length, get_or, set};
ghost use Rattle.fields.specs.Places.{fields_at};
ghost use Rattle.shortening_marks.specs.Gathered.{Gatherable, GathersAll, Reportable, Reported};
ghost use Rattle.shortening_marks.specs.Marks.{made_marks, MarkedRow, Markable, MarkedFrom};

use fields::next_field;
use shortening_stack::stack::{Standing, Step};
use shortening_stack::{Class, outline_at};

// Of an accepted proof: where its rows start, its edition, and how many constants and constraints it is over.
#[derive(Clone, Copy)]
pub struct ProofBody {
    pub at: usize,
    pub edition: u8,
    pub k: u8,
    pub constraints: u16,
}

// Of a row that is gathered: what it does, how many lines stand before it, and the lines that it names.
#[derive(Clone, Copy)]
pub struct GatheredRow {
    pub class: Class,
    pub lines: u16,
    pub first: u16,
    pub second: u16,
}

// What stands where no row is gathered.
pub const NO_ROW: GatheredRow = GatheredRow {
    class: Class::Makes,
    lines: 0,
    first: 0,
    second: 0,
};

// The rows of a proof, and how many there are. (Counted by hand, here and in the table: a claim is no row.)
pub fn gather(p: &[u8], body: ProofBody, gathered: &mut [GatheredRow], steps: &mut [Step]) -> usize
    requires { Gatherable body.edition body.k (fields_at p.now body.at) body.constraints gathered.old steps.old }
    ensures { GathersAll body.edition body.k (fields_at p.now body.at) body.constraints gathered.new result }
{
    let mut here = body.at;
    let mut lines = body.constraints;
    let mut depth = 0;
    let mut rows = 0;
    let e = body.edition;
    while let Ok(field) = next_field(p, here) {
        let x = outline_at(p, field.tag, field.start, e);
        match x.class {
            Class::Claims => {}
            class => {
                gathered[rows] = GatheredRow {
                    class,
                    lines,
                    first: x.first,
                    second: x.second,
                };
                let standing = Standing {
                    lines,
                    kept: 0,
                    depth,
                };
                let moved = x.advance(standing, steps);
                lines = moved.lines;
                depth = moved.depth;
                rows += 1;
            }
        }
        here = field.next;
    }
    rows
}

// The mark of line i; what lies beyond the array is never asked for. (Not by `get_mut`: no proof knows what a write through it leaves.)
fn mark(marks: &mut [u8], i: u16)
    ensures { marks.new ≡ set marks.old i 1 }
{
    let j = i as usize;
    if j < marks.len() {
        marks[j] = 1;
    }
}

// A row that makes line n, which the rows behind it need or not.
fn mark_made(marks: &mut [u8], n: u16, s: u16, t: u16) -> u8
    requires { n < length marks.old }
    ensures reported { result ≡ get_or marks.old n 0 }
    ensures marked { marks.new ≡ made_marks (get_or marks.old n 0) marks.old n s t }
{
    let j = n as usize;
    let own = marks[j];
    marks[j] = 0;
    if own == 0 {
        return own;
    }
    mark(marks, s);
    mark(marks, t);
    own
}

fn mark_row(marks: &mut [u8], row: GatheredRow) -> u8
    requires { row.lines < length marks.old }
    ensures { MarkedRow marks.old row marks.new result }
{
    match row.class {
        Class::Makes => mark_made(marks, row.lines, row.first, row.second),
        Class::Branches => {
            marks[row.lines as usize] = 0;
            mark(marks, row.first);
            2
        }
        _ => {
            mark(marks, row.first);
            2
        }
    }
}

// From the last row to the first.
fn mark_rows(gathered: &[GatheredRow], rows: usize, marks: &mut [u8], report: &mut [u8])
    requires { Markable gathered.now rows marks.old report.old }
    ensures { MarkedFrom gathered.now rows 0 marks.old report.old marks.new report.new }
{
    for r in (0..rows).rev() {
        report[r] = mark_row(marks, gathered[r]);
    }
}

// The report on the rows of a proof; how many rows there are.
pub fn report_rows(
    p: &[u8],
    body: ProofBody,
    gathered: &mut [GatheredRow],
    steps: &mut [Step],
    marks: &mut [u8],
    report: &mut [u8],
) -> usize
    requires { Reportable body.edition body.k (fields_at p.now body.at) body.constraints gathered.old steps.old marks.old report.old }
    ensures { Reported body.edition body.k (fields_at p.now body.at) body.constraints report.old report.new result }
{
    let rows = gather(p, body, gathered, steps);
    mark_rows(gathered, rows, marks, report);
    rows
}
