// The constraints of a bundle, written as fields.
ghost use Rattle.std.specs.Prelude.{◌≡◌, ◌+◌, ◌*◌, ◌≤◌, leb, length, not, position};
ghost use Rattle.std.proofs.lemmas.List.Edits.{sets};
ghost use Rattle.forms.specs.Edition.{edition, newest_edition};
ghost use Rattle.forms.specs.Forms.{every};
ghost use Rattle.number_bytes.specs.Numbers.{signeds_bytes};
ghost use Rattle.number_bytes.specs.Widths.{bytes_of};
ghost use Rattle.fields.specs.Fields.{field_bytes};
ghost use Rattle.number_runs.specs.Runs.{HeldAll};
ghost use Rattle.bundle.specs.Write.{constraints_bytes};
ghost use Rattle.bundle.specs.Writable.{field_size, InOrder};

use fields::header::put_head;
use number_bytes::words::Width;
use number_runs::put::put_numbers;

// Whether it is a kind: 0, 1 or 2.
fn is_kind(kind: u8) -> bool
    ensures { result ≡ leb kind 2 }
{
    kind <= 2
}

// Whether each is a kind. It goes on to the end, so that the compiler tests several at once.
fn all_kinds(kinds: &[u8]) -> bool
    ensures { result ≡ every (λ kind. leb kind 2) kinds.now }
{
    let mut ok = true;
    for kind in kinds {
        ok &= is_kind(*kind);
    }
    ok
}

// Where the first stands that is no kind. Most often each is.
pub fn first_bad(kinds: &[u8]) -> Option<usize>
    ensures { result ≡ position (λ kind. not (leb kind 2)) kinds.now }
{
    if all_kinds(kinds) {
        return None;
    }
    kinds.iter().position(|kind| !is_kind(*kind))
}

// One constraint's field.
fn put_constraint(out: &mut [u8], at: usize, width: Width, kind: u8, numbers: &[i32])
    requires held_all { HeldAll (bytes_of width) numbers.now }
    requires few { length numbers.now ≤ 17 }
    requires kind_few { kind ≤ 2 }
    requires in_bounds { at + (3 + length numbers.now * bytes_of width) ≤ length out.old }
    ensures { out.new ≡ sets out.old at (field_bytes (3 + kind) (signeds_bytes (bytes_of width) numbers.now)) }
{
    put_head(out, at, 3 + kind, numbers.len() * width.bytes());
    put_numbers(out, at + 3, width, numbers);
}

// All constraints of a bundle of edition e, from at on.
pub fn put_constraints(out: &mut [u8], at: usize, e: u8, k: u8, kinds: &[u8], numbers: &[i32])
    requires in_order { InOrder newest_edition e k kinds.now numbers.now }
    requires k_in_bounds { at + length kinds.now * field_size (edition e).coefficient_width k ≤ length out.old }
    ensures { out.new ≡ sets out.old at (constraints_bytes (edition e) k kinds.now numbers.now) }
{
    let width = Width::of_coefficients(e);
    let many = k as usize + 1;
    let size = 3 + many * width.bytes();
    let mut here = at;
    let mut from: usize = 0;
    for kind in kinds {
        put_constraint(out, here, width, *kind, &numbers[from..from + many]);
        here += size;
        from += many;
    }
}
