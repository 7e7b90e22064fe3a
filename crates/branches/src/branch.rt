// A branch: its entries up to the row that ends it or opens branches, and the branches that are opened.
ghost use Rattle.lines.specs.Ready.{Ready};
ghost use Rattle.branches.specs.Spare.{lines_left, Spare};
ghost use Rattle.branches.specs.Branches.{unclosed, Stopped};
ghost use Rattle.std.specs.Prelude.{◌≡◌, ◌+◌, Ok};
ghost use Rattle.answers.specs.Answers.{position};
ghost use Rattle.openings.specs.Opening.{RoundsBy};
ghost use Rattle.branches.specs.Branching.{resumed_by, refused_row, closed_by, answer_of, Started, ChecksBranch, Opened, FirstStands, RoundingChecked, RoundedChecked, SplitOpened, SplitChecked};

use answers::by_name::proof_refusal;
use answers::refusals::{Fault, Refusal};
use answers::{Answer, Position};
use closes::ends::{close_number, close_stride};
use fields::{End, WholeField, next_field};
use forms::{LineNumber, RowNumber};
use formula_write::{put_pair, put_stride};
use line_starts::{start_line, start_negated};
use lines::kinds::{EQUALITY, INEQUALITY, kind_of};
use lines::place_a;
use openings::rounding::{round, start_rounded};
use openings::split::{joined_by, raised_by, split};
use openings::strengthen::strengthen;
use steps::{Stepped, step};
use tally::Tally;

// Why a branch is refused, with the rows before the place at fault, and the position of the branch that it stands in.
#[derive(Clone, Copy)]
pub struct BranchFault {
    pub fault: Fault,
    pub rows: RowNumber,
    pub position: Position,
}

impl BranchFault {
    pub fn answer(self) -> Answer
        ensures { result ≡ answer_of self }
    {
        proof_refusal(
            self.position,
            self.rows,
            self.fault.refusal,
            self.fault.place,
        )
    }
}

// How a row ends its branch, or what it opens.
#[derive(Clone, Copy)]
pub enum Ending {
    Strengthens,
    ClosesNumber,
    ClosesStride { g: u16 },
    Rounds { g: u16, by: u16 },
    Splits,
}

// The row of line t that stands at `at`; the tally has counted it, and the fields go on at next.
#[derive(Clone, Copy)]
pub struct Stop {
    pub ending: Ending,
    pub t: LineNumber,
    pub row: RowNumber,
    pub at: usize,
    pub next: usize,
    pub tally: Tally,
}

// What the entries come to, where a row of line t is no line of its own.
fn stopped(
    field: WholeField,
    row: RowNumber,
    tally: Tally,
    t: LineNumber,
    ending: Ending,
) -> Result<Stop, BranchFault>
    ensures { result ≡ Ok (record { ending = ending; t = t; row = row; at = field.at; next = field.next; tally = tally }) }
{
    Ok(Stop {
        ending,
        t,
        row,
        at: field.at,
        next: field.next,
        tally,
    })
}

// A closed branch: the fields go on at `at`, and the formula's bytes end at o.
#[derive(Clone, Copy)]
pub struct Closed {
    pub at: usize,
    pub o: usize,
    pub tally: Tally,
}

impl Closed {
    // The branch that opened it goes on where it ends, with its own lines.
    fn resumed(self, given: Tally) -> Closed
        ensures { result ≡ resumed_by self given }
    {
        Closed {
            tally: self.tally.returned(given),
            ..self
        }
    }
}

impl Stop {
    // What its row is refused for.
    fn refused(self, position: Position, refusal: Refusal) -> BranchFault
        ensures { result ≡ refused_row self position refusal }
    {
        BranchFault {
            fault: Fault {
                refusal,
                place: self.at,
            },
            rows: self.row,
            position,
        }
    }

    // Its row closes the branch, whose formula's bytes end at o.
    fn closed(self, o: usize, given: Tally) -> Closed
        ensures { result ≡ closed_by self o given }
    {
        Closed {
            at: self.next,
            o,
            tally: self.tally.returned(given),
        }
    }
}

// A branch that is not closed where the file is cut off or ends. 2, 20.
fn unclosed(end: End, rows: RowNumber, position: Position) -> BranchFault
    ensures { result ≡ unclosed end rows position }
{
    let fault = match end {
        End::Cut { at } => Fault {
            refusal: Refusal::Truncated,
            place: at,
        },
        End::Ends { at } => Fault {
            refusal: Refusal::BranchesOpen,
            place: at,
        },
    };
    BranchFault {
        fault,
        rows,
        position,
    }
}

// 2, 20, else as `step`.
pub fn entries(
    p: &[u8],
    at: usize,
    position: Position,
    lines: &mut [i32],
    kinds: &mut [u8],
    tally: Tally,
    k: usize,
) -> Result<Stop, BranchFault>
    requires ready { Ready tally.edition k kinds.old lines.old tally.lines.0 }
    requires spare { Spare tally.edition k (tally.lines.0 + lines_left tally.edition p.now at) kinds.old lines.old }
    ensures { Stopped k p.now at position kinds.old lines.old tally kinds.new lines.new result }
{
    let mut here = at;
    let mut count = tally;
    let mut made = false;
    loop {
        let rows = count.rows;
        let field = next_field(p, here).map_err(|end| unclosed(end, rows, position))?;
        let contents = &p[field.start..field.start + field.len];
        match step(contents, field.tag, made, lines, kinds, count, k) {
            Err(refusal) => {
                return Err(BranchFault {
                    fault: field.refused(refusal),
                    rows,
                    position,
                });
            }
            Ok(Stepped::Made { tally: u }) => {
                count = u;
                made = true;
            }
            Ok(Stepped::Claimed) => {
                made = false;
            }
            Ok(Stepped::Strengthens { tally: u, t }) => {
                return stopped(field, rows, u, t, Ending::Strengthens);
            }
            Ok(Stepped::ClosesNumber { tally: u, t }) => {
                return stopped(field, rows, u, t, Ending::ClosesNumber);
            }
            Ok(Stepped::ClosesStride { tally: u, t, g }) => {
                return stopped(field, rows, u, t, Ending::ClosesStride { g });
            }
            Ok(Stepped::Rounds { tally: u, t, g, by }) => {
                return stopped(field, rows, u, t, Ending::Rounds { g, by });
            }
            Ok(Stepped::Splits { tally: u, t }) => {
                return stopped(field, rows, u, t, Ending::Splits);
            }
        }
        here = field.next;
    }
}

// Where a branch starts: its first field is at `at` in the proof, its formula's first byte at `o` in the scratch; and K, which
// goes along. One argument for three (docs/SPEED.md).
#[derive(Clone, Copy)]
pub struct Here {
    pub at: usize,
    pub k: usize,
    pub o: usize,
}

impl Here {
    // Another place.
    fn on(self, at: usize, o: usize) -> Here
        ensures { result ≡ record { at = at; k = self.k; o = o } }
    {
        Here { at, o, ..self }
    }
}

// A branch of the step that a row opens.
fn branch_of(row: RowNumber, branch: u16) -> Position
    ensures { result ≡ position row.0 branch }
{
    Position { step: row, branch }
}

// The branch that starts here. The formula's bytes go into the scratch as far as they fit.
#[cycle(check_branch_check_rounded_check_rounding_check_split)]
pub fn check_branch(
    p: &[u8],
    here: Here,
    position: Position,
    lines: &mut [i32],
    kinds: &mut [u8],
    tally: Tally,
    scratch: &mut [u8],
) -> Result<Closed, BranchFault>
    requires { Started here.k kinds.old lines.old tally p.now here.at here.o }
    ensures { ChecksBranch here.k p.now here.at position kinds.old lines.old tally scratch.old here.o kinds.new lines.new scratch.new result }
{
    let k = here.k;
    let stop = entries(p, here.at, position, lines, kinds, tally, k)?;
    let refused = |refusal| stop.refused(position, refusal);
    let t = stop.t;
    let u = stop.tally;
    match stop.ending {
        Ending::ClosesNumber => {
            let o = close_number(lines, kinds, u, t, k, scratch, here.o).map_err(refused)?;
            Ok(stop.closed(o, tally))
        }
        Ending::ClosesStride { g } => {
            let o = close_stride(lines, kinds, u, t, g, k, scratch, here.o).map_err(refused)?;
            Ok(stop.closed(o, tally))
        }
        Ending::Strengthens => {
            let v = strengthen(lines, kinds, u, t, k).map_err(refused)?;
            let row = stop.row;
            let n = u.lines;
            let head = put_pair(scratch, here.o, 0x31);
            let from = here.on(stop.next, head);
            let place = branch_of(row, 0);
            let first = check_branch(p, from, place, lines, kinds, v, scratch)?;
            start_line(lines, kinds, t, n, k, EQUALITY, 0, 0);
            let head2 = put_pair(scratch, first.o, 0x32);
            let from2 = here.on(first.at, head2);
            let place2 = branch_of(row, 1);
            let second = check_branch(p, from2, place2, lines, kinds, first.tally, scratch)?;
            start_line(lines, kinds, t, n, k, INEQUALITY, 1, 0);
            let from3 = here.on(second.at, second.o);
            let place3 = branch_of(row, 2);
            let third = check_branch(p, from3, place3, lines, kinds, second.tally, scratch)?;
            Ok(third.resumed(tally))
        }
        Ending::Rounds { g, by } => {
            let v = round(lines, kinds, u, t, g, by, k).map_err(refused)?;
            let n = u.lines;
            let from = here.on(stop.next, here.o);
            let all = check_rounding(p, from, stop.row, lines, kinds, v, t, n, g, by, scratch)?;
            Ok(all.resumed(tally))
        }
        Ending::Splits => {
            let v = split(lines, kinds, u, t, k).map_err(refused)?;
            let n = u.lines;
            let from = here.on(stop.next, here.o);
            let both = check_split(p, from, stop.row, lines, kinds, v, t, n, scratch)?;
            Ok(both.resumed(tally))
        }
    }
}

// The two branches of a split of line t, behind n lines: t + 1 ≤ 0, whose line stands already, and then -t + 1 ≤ 0. Its row tells the step.
#[cycle(check_branch_check_rounded_check_rounding_check_split)]
fn check_split(
    p: &[u8],
    here: Here,
    row: RowNumber,
    lines: &mut [i32],
    kinds: &mut [u8],
    tally: Tally,
    t: LineNumber,
    n: LineNumber,
    scratch: &mut [u8],
) -> Result<Closed, BranchFault>
    requires { SplitOpened here.k n.0 kinds.old lines.old tally t.0 p.now here.at here.o }
    ensures { SplitChecked here.k row.0 n.0 p.now here.at kinds.old lines.old tally t.0 scratch.old here.o kinds.new lines.new scratch.new result }
{
    let kind = kind_of(kinds, t);
    let head = put_pair(scratch, here.o, joined_by(kind));
    let from = here.on(here.at, head);
    let place = branch_of(row, 0);
    let first = check_branch(p, from, place, lines, kinds, tally, scratch)?;
    start_negated(lines, kinds, t, n, here.k, INEQUALITY, 1, raised_by(kind));
    let from2 = here.on(first.at, first.o);
    let place2 = branch_of(row, 1);
    check_branch(p, from2, place2, lines, kinds, first.tally, scratch)
}

// The branches of a rounding of line t by `by`, behind n lines: that of j = by, whose line stands already, and then the others. Its row tells the step.
#[cycle(check_branch_check_rounded_check_rounding_check_split)]
fn check_rounding(
    p: &[u8],
    here: Here,
    row: RowNumber,
    lines: &mut [i32],
    kinds: &mut [u8],
    tally: Tally,
    t: LineNumber,
    n: LineNumber,
    g: u16,
    by: u16,
    scratch: &mut [u8],
) -> Result<Closed, BranchFault>
    requires opened { Opened here.k n.0 by by kinds.old lines.old tally t.0 p.now here.at here.o × FirstStands tally.edition here.k n.0 by by kinds.old lines.old t.0 }
    requires rounds { RoundsBy g by }
    ensures { RoundingChecked here.k row.0 n.0 p.now here.at kinds.old lines.old tally t.0 g by scratch.old here.o kinds.new lines.new scratch.new result }
{
    let head = put_pair(scratch, here.o, 0x31);
    let from = here.on(here.at, head);
    let place = branch_of(row, 0);
    let first = check_branch(p, from, place, lines, kinds, tally, scratch)?;
    let from2 = here.on(first.at, first.o);
    check_rounded(
        p,
        from2,
        row,
        lines,
        kinds,
        first.tally,
        t,
        n,
        g,
        by,
        scratch,
    )
}

// The branches of a rounding behind the first: t + by ≤ 0 with tA + j for each j below `by`, each with Ej before its formula.
#[cycle(check_branch_check_rounded_check_rounding_check_split)]
fn check_rounded(
    p: &[u8],
    here: Here,
    row: RowNumber,
    lines: &mut [i32],
    kinds: &mut [u8],
    tally: Tally,
    t: LineNumber,
    n: LineNumber,
    g: u16,
    by: u16,
    scratch: &mut [u8],
) -> Result<Closed, BranchFault>
    requires opened { Opened here.k n.0 by by kinds.old lines.old tally t.0 p.now here.at here.o }
    requires rounds { RoundsBy g by }
    ensures { RoundedChecked here.k row.0 n.0 p.now here.at kinds.old lines.old tally t.0 g by 0 scratch.old here.o kinds.new lines.new scratch.new result }
{
    let k = here.k;
    // Ej of j = 0; the others differ from it in their last four bytes.
    let mut template = [0u8; 75];
    let ta = place_a(t, k);
    let stride = i64::from(g);
    put_stride(lines, ta, k, stride, &mut template, 0);
    let mut end = Closed {
        at: here.at,
        o: here.o,
        tally,
    };
    for j in 0..by {
        let others = j + 1 < by;
        let front = start_rounded(
            lines, kinds, t, n, k, stride, by, j, others, &template, scratch, end.o,
        );
        let from = here.on(end.at, front);
        let place = branch_of(row, j + 1);
        end = check_branch(p, from, place, lines, kinds, end.tally, scratch)?;
    }
    Ok(end)
}
