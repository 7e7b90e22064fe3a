// The shorter table: its bytes counted and written, line numbers anew.
// The definition is shortening/specs/Shorten.antt; specs/Written.antt has the table field by field, specs/Table.antt one field.
// The arrays that all of it stands in are `arrays`, which shorten calls.
#![tactic(auto)]

pub mod arrays;

ghost use Rattle.std.specs.Prelude.{◌≡◌, true, ◌+◌, ◌-◌, ◌≤◌, ◌<◌, length, get_or};
ghost use Rattle.fields.specs.Places.{fields_at};
ghost use Rattle.std.proofs.lemmas.List.Edits.{sets};
ghost use Rattle.forms.specs.Edition.{edition};
ghost use Rattle.shortening_table.specs.Table.{ReportCovers, bytes_from, Fewer, renewed, Puttable, PutField, Keepable, PutKept};
ghost use Rattle.shortening_table.specs.Written.{TableWritable, table_from};

use conversion_survey::line_count;
use conversion_write::put_number;
use fields::header::put_head;
use fields::{WholeField, next_field};
use forms::line_bytes;
use number_bytes::copy::copy_bytes;
use shortening_marks::ProofBody;
use shortening_stack::stack::{Standing, Step};
use shortening_stack::{Class, outline_at};

// How many bytes the fields from a place on have that stay.
pub fn table_bytes(p: &[u8], at: usize, report: &[u8]) -> usize
    requires { ReportCovers (fields_at p.now at) report.now }
    ensures is { result ≡ bytes_from (fields_at p.now at) report.now true }
    ensures within { result ≤ length p.now }
{
    let mut here = at;
    let mut rows = 0;
    let mut stays = true;
    let mut bytes = 0;
    while let Ok(field) = next_field(p, here) {
        if field.tag != 0x20 {
            stays = report[rows] != 0;
            rows += 1;
        }
        if stays {
            bytes += 3 + field.len;
        }
        here = field.next;
    }
    bytes
}

// The new number of a line: as many fewer as lines before it are gone; what lies beyond the array keeps its own.
fn new_number(gones: &[u16], i: u16) -> u64
    requires { Fewer gones.now }
    ensures { result ≡ i - get_or gones.now i 0 }
{
    match gones.get(i as usize) {
        Some(gone) => u64::from(i - *gone),
        None => u64::from(i),
    }
}

// A row whose line is made: how many of the lines before it are gone. A close makes none.
fn renew(gones: &mut [u16], class: Class, standing: Standing)
    requires { (standing.lines < length gones.old) × (standing.kept ≤ standing.lines) }
    ensures { gones.new ≡ renewed class gones.old standing.lines standing.kept }
{
    match class {
        Class::Makes | Class::Branches => {
            gones[standing.lines as usize] = standing.lines - standing.kept;
        }
        Class::Closes | Class::Claims => {}
    }
}

// A field of a proof of edition e whose first `count` line numbers are written anew: none, one or two.
fn put_field(
    p: &[u8],
    field: WholeField,
    e: u8,
    count: usize,
    first: u64,
    second: u64,
    out: &mut [u8],
    o: usize,
)
    requires { Puttable p.now field.start field.len (edition e).line_width count out.old o }
    ensures { PutField p.now field.tag field.start field.len (edition e).line_width count first second out.old o out.new }
{
    let WholeField {
        tag,
        start,
        len,
        ..
    } = field;
    put_head(out, o, tag, len);
    if count == 0 {
        copy_bytes(p, start, len, out, o + 3);
        return;
    }
    let width = line_bytes(e);
    put_number(first, e, out, o + 3);
    if count == 1 {
        copy_bytes(p, start + width, len - width, out, o + 3 + width);
        return;
    }
    put_number(second, e, out, o + 3 + width);
    copy_bytes(
        p,
        start + 2 * width,
        len - 2 * width,
        out,
        o + 3 + 2 * width,
    );
}

// A field with new line numbers. Where the next one goes.
fn put_kept(
    p: &[u8],
    field: WholeField,
    e: u8,
    first: u16,
    second: u16,
    gones: &[u16],
    out: &mut [u8],
    o: usize,
) -> usize
    requires { Keepable p.now field.tag field.start field.len (edition e).line_width true gones.now out.old o }
    ensures { PutKept p.now field.tag field.start field.len (edition e).line_width first second true gones.now out.old o out.new result }
{
    let one = new_number(gones, first);
    let two = new_number(gones, second);
    let count = line_count(field.tag);
    put_field(p, field, e, count, one, two, out, o);
    o + 3 + field.len
}

// The fields of a proof that stay, behind the o first bytes.
pub fn put_table(
    p: &[u8],
    body: ProofBody,
    report: &[u8],
    gones: &mut [u16],
    steps: &mut [Step],
    out: &mut [u8],
    o: usize,
)
    requires { TableWritable body.edition body.k (fields_at p.now body.at) body.constraints report.now gones.old steps.old out.old o }
    ensures { out.new ≡ sets out.old o (table_from body.edition body.k body.constraints (fields_at p.now body.at) report.now) }
{
    let mut here = body.at;
    let mut to = o;
    let mut standing = Standing {
        lines: body.constraints,
        kept: body.constraints,
        depth: 0,
    };
    let mut rows = 0;
    let mut stays = true;
    let e = body.edition;
    while let Ok(field) = next_field(p, here) {
        if field.tag == 0x20 {
            if stays {
                to = put_kept(p, field, e, 0, 0, gones, out, to);
            }
        } else if report[rows] == 0 {
            stays = false;
            renew(gones, Class::Makes, standing);
            standing.lines += 1;
            rows += 1;
        } else {
            stays = true;
            let x = outline_at(p, field.tag, field.start, e);
            to = put_kept(p, field, e, x.first, x.second, gones, out, to);
            renew(gones, x.class, standing);
            standing = x.advance(standing, steps);
            rows += 1;
        }
        here = field.next;
    }
}
