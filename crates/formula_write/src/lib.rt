// Writing a formula's bytes into a scratch that is lent. A part that does not fit is not written.
// The bytes are those of `encode` (formula/specs/Formula.antt): specs/Writing.antt. closes, openings and branches call it.
#![tactic(auto)]

ghost use Rattle.std.specs.Prelude.{◌≡◌, ℤ, map, [], ◌++◌, ◌+◌, ◌*◌, ◌≤◌, nat_abs, length, pos};
ghost use Rattle.std.proofs.lemmas.List.Edits.{sets};
ghost use Rattle.integers.specs.Remainder.{remainder};
ghost use Rattle.forms.specs.Edition.{edition1};
ghost use Rattle.forms.specs.Forms.{literal, ◌divides◌};
ghost use Rattle.forms.specs.Reduced.{reduced};
ghost use Rattle.forms.specs.Flat.{kind_of, form_in};
ghost use Rattle.number_bytes.specs.Numbers.{flat, signeds_bytes};
ghost use Rattle.fields.specs.Fields.{field_bytes};
ghost use Rattle.formula_write.specs.Writing.{scratch_limit, Numbered, Divisor, Heads, Puts, Stores, or_bytes, template_size, filled, Writes, Gives};

use fields::header::put_head;
use integers::{number, remainder};
use number_bytes::copy::copy_bytes;
use number_bytes::words::Width;

// The numbers of the form at a place, of four bytes each, as `written` gives them.
fn put_numbers<F: Fn(i64) -> i64>(
    numbers: &[i32],
    at: usize,
    k: usize,
    written: F,
    scratch: &mut [u8],
    o: usize,
)
    requires numbered { Numbered k numbers.now at }
    requires k_in_bounds { o + edition1.term_width * (k + 1) ≤ length scratch.old }
    requires written { Writes (F.pre written) (F.post written) }
    ensures { (f : ℤ → ℤ) → Gives (F.post written) f → scratch.new ≡ sets scratch.old o (signeds_bytes edition1.term_width (map f (flat (form_in k numbers.now at)))) }
{
    for x in 0..k + 1 {
        let n = number(numbers, at + x);
        Width::Four.put_signed(scratch, o + 4 * x, written(n));
    }
}

// The three bytes of an and or an or; its two parts follow.
pub fn put_pair(scratch: &mut [u8], o: usize, tag: u8) -> usize
    requires { o ≤ scratch_limit }
    ensures { Heads scratch.old o tag scratch.new result }
{
    let end = o + 3;
    if scratch.len() < end {
        return end;
    }
    put_head(scratch, o, tag, 0);
    end
}

// t ≤ 0 or t = 0, by the kind's byte.
pub fn put_literal(
    numbers: &[i32],
    at: usize,
    k: usize,
    kind: u8,
    scratch: &mut [u8],
    o: usize,
) -> usize
    requires numbered { Numbered k numbers.now at }
    requires o_le_scratch_limit { o ≤ scratch_limit }
    ensures { Puts scratch.old o (literal (kind_of kind) (form_in k numbers.now at)) scratch.new result }
{
    let len = 4 * (k + 1);
    let end = o + 3 + len;
    if scratch.len() < end {
        return end;
    }
    let tag = if kind == 0 { 0x33 } else { 0x34 };
    put_head(scratch, o, tag, len);
    put_numbers(numbers, at, k, |n| n, scratch, o + 3);
    end
}

// g divides the form, with each number as its remainder.
pub fn put_stride(
    numbers: &[i32],
    at: usize,
    k: usize,
    g: i64,
    scratch: &mut [u8],
    o: usize,
) -> usize
    requires numbered { Numbered k numbers.now at × Divisor g }
    requires o_le_scratch_limit { o ≤ scratch_limit }
    ensures { Puts scratch.old o (nat_abs g divides reduced (nat_abs g) (form_in k numbers.now at)) scratch.new result }
{
    let len = 4 * (k + 2);
    let end = o + 3 + len;
    if scratch.len() < end {
        return end;
    }
    put_head(scratch, o, 0x35, len);
    Width::Four.put_signed(scratch, o + 3, g);
    let reduced = move |n: i64| -> i64
        requires { Divisor g }
        ensures { result ≡ pos (remainder (nat_abs g) n) }
    { remainder(n, g) };
    put_numbers(numbers, at, k, reduced, scratch, o + 7);
    end
}

// The head of an or, where others follow.
fn put_or(scratch: &mut [u8], o: usize, others: bool) -> usize
    requires { o ≤ scratch_limit }
    ensures { Stores scratch.old o (or_bytes others) scratch.new result }
{
    if others {
        return put_pair(scratch, o, 0x31);
    }
    o
}

// A stride part by its template: what does not depend on d is copied, and the remainder of d written behind it.
fn put_filled(template: &[u8], d: i64, k: usize, g: i64, scratch: &mut [u8], o: usize) -> usize
    requires k_le_constants { (k ≤ edition1.constants) × (template_size k ≤ length template.now) × Divisor g }
    requires o_le_scratch_limit { o ≤ scratch_limit }
    ensures { Stores scratch.old o (filled k (nat_abs g) d template.now) scratch.new result }
{
    let len = 7 + 4 * k;
    let end = o + len + 4;
    if scratch.len() < end {
        return end;
    }
    copy_bytes(template, 0, len, scratch, o);
    let r = remainder(d, g);
    Width::Four.put_signed(scratch, o + len, r);
    end
}

// What stands before Ij in a rounding's formula: an or where others follow, and then "Ej and", where Ej is the template's stride part with the constant term d.
pub fn put_front(
    template: &[u8],
    d: i64,
    k: usize,
    g: i64,
    others: bool,
    scratch: &mut [u8],
    o: usize,
) -> usize
    requires k_le_constants { (k ≤ edition1.constants) × (template_size k ≤ length template.now) × Divisor g }
    requires o_bound { o + 81 ≤ scratch_limit }
    ensures { Stores scratch.old o (or_bytes others ++ field_bytes 0x32 [] ++ filled k (nat_abs g) d template.now) scratch.new result }
{
    let head = put_or(scratch, o, others);
    let pair = put_pair(scratch, head, 0x32);
    put_filled(template, d, k, g, scratch, pair)
}
