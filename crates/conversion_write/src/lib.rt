// The entries of a proof written in the other edition.
// Each contract is an equation with the definition (conversion/specs/Turning.antt).
#![tactic(auto)]

ghost use Rattle.std.specs.Prelude.{◌≡◌, ◌+◌, ◌-◌, ◌*◌, ◌≤◌, length, take, drop};
ghost use Rattle.std.proofs.lemmas.List.Edits.{sets};
ghost use Rattle.forms.specs.Edition.{edition};
ghost use Rattle.number_bytes.specs.Numbers.{unsigned, unsigned_bytes, unsigneds, unsigneds_bytes};
ghost use Rattle.fields.specs.Fields.{field_bytes, item};
ghost use Rattle.fields.specs.Places.{fields_at};
ghost use Rattle.proof.specs.Entries.{entry_tagged, line_count};
ghost use Rattle.conversion.specs.Turning.{lines_turned, fields_turned};
ghost use Rattle.conversion_survey.specs.SurveyAnswers.{LinesThere};

use conversion_survey::{Editions, line_at, line_count, turned_len};
use fields::header::put_head;
use fields::{WholeField, next_field};
use forms::line_bytes;
use number_bytes::copy::copy_bytes;
use number_bytes::numbers::put_unsigned;

// A line number as wide as an edition has it. Two calls, so that the compiler makes a store for each width.
pub fn put_number(n: u64, to: u8, out: &mut [u8], o: usize)
    requires { o + (edition to).line_width ≤ length out.old }
    ensures { out.new ≡ sets out.old o (unsigned_bytes (edition to).line_width n) }
{
    if to == 1 {
        put_unsigned(out, o, 1, n);
        return;
    }
    put_unsigned(out, o, 2, n);
}

// A line number in the other width.
fn put_line(p: &[u8], at: usize, editions: Editions, out: &mut [u8], o: usize)
    requires e_in_bounds { at + (edition editions.from).line_width ≤ length p.now }
    requires to_in_bounds { o + (edition editions.to).line_width ≤ length out.old }
    ensures { out.new ≡ sets out.old o (unsigned_bytes (edition editions.to).line_width (unsigned (take (edition editions.from).line_width (drop at p.now)))) }
{
    let n = line_at(p, at, editions.from);
    put_number(u64::from(n), editions.to, out, o);
}

// n of them, two at most.
fn put_lines(p: &[u8], start: usize, n: usize, editions: Editions, out: &mut [u8], o: usize)
    requires n_bound { n ≤ 2 }
    requires e_in_bounds { start + n * (edition editions.from).line_width ≤ length p.now }
    requires to_in_bounds { o + n * (edition editions.to).line_width ≤ length out.old }
    ensures { out.new ≡ sets out.old o (unsigneds_bytes (edition editions.to).line_width (unsigneds (edition editions.from).line_width n (drop start p.now))) }
{
    if n == 0 {
        return;
    }
    put_line(p, start, editions, out, o);
    if n == 1 {
        return;
    }
    let second = start + line_bytes(editions.from);
    put_line(p, second, editions, out, o + line_bytes(editions.to));
}

// One field.
fn put_entry(p: &[u8], field: WholeField, editions: Editions, out: &mut [u8], o: usize)
    requires e_bound { line_count (entry_tagged field.tag) * (edition editions.from).line_width ≤ field.len }
    requires len_in_bounds { (field.start + field.len ≤ length p.now) × (field.len ≤ 65_536) }
    requires e_in_bounds { o + 3 + (line_count (entry_tagged field.tag) * (edition editions.to).line_width + (field.len - line_count (entry_tagged field.tag) * (edition editions.from).line_width)) ≤ length out.old }
    ensures { out.new ≡ sets out.old o (field_bytes field.tag (lines_turned (edition editions.from) (edition editions.to) (item field.tag (take field.len (drop field.start p.now))))) }
{
    let WholeField {
        tag,
        start,
        len,
        ..
    } = field;
    let n = line_count(tag);
    let head = n * line_bytes(editions.from);
    let wide = n * line_bytes(editions.to);
    put_head(out, o, tag, turned_len(tag, len, editions));
    put_lines(p, start, n, editions, out, o + 3);
    copy_bytes(p, start + head, len - head, out, o + 3 + wide);
}

// The fields from a place on, one after the other, from o on.
pub fn put_entries(p: &[u8], at: usize, editions: Editions, out: &mut [u8], o: usize)
    requires lines_there { LinesThere (edition editions.from).line_width (fields_at p.now at) }
    requires p_len_bound { length p.now ≤ 65_536 }
    requires at_in_bounds { o + length (fields_turned (lines_turned (edition editions.from) (edition editions.to)) (fields_at p.now at)) ≤ length out.old }
    ensures { out.new ≡ sets out.old o (fields_turned (lines_turned (edition editions.from) (edition editions.to)) (fields_at p.now at)) }
{
    let mut here = at;
    let mut end = o;
    while let Ok(field) = next_field(p, here) {
        put_entry(p, field, editions, out, end);
        end += 3 + turned_len(field.tag, field.len, editions);
        here = field.next;
    }
}
