// A bundle's constraints turned into the other edition, field by field: the first with a number that the edition asked for does
// not hold, and each written with its numbers in the new width.
// The file was gone over before, so that nothing is tested again. The definition is conversion/specs/Turning.antt; convert calls it.
#![tactic(auto)]

ghost use Rattle.std.specs.Prelude.{◌≡◌, true, ◌+◌, ◌*◌, ◌≤◌, length, take, drop};
ghost use Rattle.std.proofs.lemmas.List.Edits.{sets};
ghost use Rattle.forms.specs.Forms.{every};
ghost use Rattle.answers.specs.Answers.{file_a, accepted};
ghost use Rattle.answers.specs.Refusals.{told};
ghost use Rattle.number_bytes.specs.Numbers.{signed, signeds, signeds_bytes};
ghost use Rattle.number_bytes.specs.Widths.{bytes_of};
ghost use Rattle.fields.specs.Fields.{field_bytes};
ghost use Rattle.fields.specs.Places.{fields_at};
ghost use Rattle.bundle.specs.Write.{holdable};
ghost use Rattle.bundle.specs.Writable.{field_size};
ghost use Rattle.bundle_scan.specs.Scan.{ConstraintsLeft};
ghost use Rattle.conversion_bundle.specs.Turned.{old_width, new_width, numbers_held, constraints_turned, bundle_turned_bytes};

use answers::refusals::{Fault, Refusal};
use fields::header::{put_head, put_header};
use forms::coefficient_bytes;
use number_bytes::numbers::unsigned_at;
use number_bytes::words::Width;

// ---- numbers that two bytes hold
// Whether they hold x. By itself, so that the compiler compares 32 bits and not 64.
fn is_short(x: i32) -> bool
    ensures { result ≡ holdable 2 x }
{
    (x >= -32768) & (x <= 32767)
}

// Whether they hold the number of four bytes at a place.
fn long_held(s: &[u8], at: usize) -> bool
    requires { at + 4 ≤ length s.now }
    ensures { result ≡ holdable 2 (signed (take 4 (drop at s.now))) }
{
    is_short(Width::Four.signed_at(s, at) as i32)
}

// The same of n numbers from start on. It goes on to the end, so that the compiler tests several at once.
fn longs_held(s: &[u8], start: usize, n: usize) -> bool
    requires { start + n * 4 ≤ length s.now }
    ensures { result ≡ every (holdable 2) (signeds 4 n (drop start s.now)) }
{
    let mut ok = true;
    for i in 0..n {
        ok &= long_held(s, start + i * 4);
    }
    ok
}

// Of the count constraints from at on, of edition 2, the first with a number that edition 1 does not hold. (Counted by hand, here
// and below: a note between them is no constraint.)
fn first_long(s: &[u8], at: usize, k: u8, count: usize) -> Result<(), Fault>
    requires { ConstraintsLeft 4 k 0 count s.now at }
    ensures { numbers_held 1 k (fields_at s.now at) ≡ told file_a (λ x. x) result }
{
    let many = k as usize + 1;
    let size = 3 + many * 4;
    let mut here = at;
    let mut n: usize = 0;
    while n < count {
        let tag = s[here];
        if tag < 0x80 {
            if longs_held(s, here + 3, many) {
                here += size;
                n += 1;
            } else {
                return Err(Fault {
                    refusal: Refusal::OutOfRange,
                    place: here,
                });
            }
        } else {
            here += 3 + unsigned_at(s, here + 1, 2) as usize;
        }
    }
    Ok(())
}

// The same for the edition asked for: edition 2 holds every number of edition 1, so that nothing is gone over.
pub fn first_field_unheld(s: &[u8], at: usize, k: u8, count: usize, to: u8) -> Result<(), Fault>
    requires { ConstraintsLeft (old_width to) k 0 count s.now at }
    ensures { numbers_held to k (fields_at s.now at) ≡ told file_a (λ x. x) result }
{
    if to == 1 {
        return first_long(s, at, k, count);
    }
    Ok(())
}

// ---- constraints written
// n numbers of one width, written in another.
fn turn_run(s: &[u8], start: usize, from: Width, n: usize, width: Width, out: &mut [u8], o: usize)
    requires from_in_bounds { start + n * bytes_of from ≤ length s.now }
    requires s_value { every (holdable (bytes_of width)) (signeds (bytes_of from) n (drop start s.now)) ≡ true }
    requires width_in_bounds { o + n * bytes_of width ≤ length out.old }
    ensures { out.new ≡ sets out.old o (signeds_bytes (bytes_of width) (signeds (bytes_of from) n (drop start s.now))) }
{
    let old = from.bytes();
    let new = width.bytes();
    for i in 0..n {
        let x = from.signed_at(s, start + i * old);
        width.put_signed(out, o + i * new, x);
    }
}

// How many bytes a number has in the edition that is not asked for.
fn old_bytes(to: u8) -> usize
    ensures { result ≡ old_width to }
{
    if to == 1 { 4 } else { 2 }
}

// One constraint's field in the edition asked for. Two calls, so that the compiler makes a loop for each pair of widths.
fn turn_constraint(s: &[u8], tag: u8, start: usize, k: u8, to: u8, out: &mut [u8], o: usize)
    requires to_in_bounds { start + (k + 1) * old_width to ≤ length s.now }
    requires s_value { every (holdable (new_width to)) (signeds (old_width to) (k + 1) (drop start s.now)) ≡ true }
    requires k_in_bounds { o + field_size (new_width to) k ≤ length out.old }
    ensures { out.new ≡ sets out.old o (field_bytes tag (signeds_bytes (new_width to) (signeds (old_width to) (k + 1) (drop start s.now)))) }
{
    let n = k as usize + 1;
    put_head(out, o, tag, n * coefficient_bytes(to));
    if to == 1 {
        turn_run(s, start, Width::Four, n, Width::Two, out, o + 3);
        return;
    }
    turn_run(s, start, Width::Two, n, Width::Four, out, o + 3);
}

// The count constraints from at on, one after the other, from o on.
fn turn_constraints(s: &[u8], at: usize, k: u8, count: usize, to: u8, out: &mut [u8], o: usize)
    requires constraints_left { ConstraintsLeft (old_width to) k 0 count s.now at }
    requires at_value { numbers_held to k (fields_at s.now at) ≡ accepted tt }
    requires k_in_bounds { o + count * field_size (new_width to) k ≤ length out.old }
    ensures { out.new ≡ sets out.old o (constraints_turned to k (fields_at s.now at)) }
{
    let many = k as usize + 1;
    let size = 3 + many * old_bytes(to);
    let turned = 3 + many * coefficient_bytes(to);
    let mut here = at;
    let mut end = o;
    let mut n: usize = 0;
    while n < count {
        let tag = s[here];
        if tag < 0x80 {
            turn_constraint(s, tag, here + 3, k, to, out, end);
            here += size;
            end += turned;
            n += 1;
        } else {
            here += 3 + unsigned_at(s, here + 1, 2) as usize;
        }
    }
}

// The whole bundle: its header, and behind it the constraints.
pub fn put_turned(s: &[u8], at: usize, k: u8, count: usize, to: u8, out: &mut [u8])
    requires constraints_left { ConstraintsLeft (old_width to) k 0 count s.now at }
    requires at_value { numbers_held to k (fields_at s.now at) ≡ accepted tt }
    requires k_in_bounds { 8 + count * field_size (new_width to) k ≤ length out.old }
    ensures { out.new ≡ sets out.old 0 (bundle_turned_bytes to k (fields_at s.now at)) }
{
    put_header(out, to, k);
    turn_constraints(s, at, k, count, to, out, 8);
}
