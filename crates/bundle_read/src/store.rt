// The constraints of a bundle, stored into lent outputs.
ghost use Rattle.std.specs.Prelude.{◌≡◌, ◌≤◌};
ghost use Rattle.std.proofs.lemmas.List.Edits.{sets};
ghost use Rattle.number_bytes.specs.Widths.{bytes_of};
ghost use Rattle.fields.specs.Places.{fields_at};
ghost use Rattle.bundle.specs.Read.{kinds_of, numbers_of};
ghost use Rattle.bundle_scan.specs.Scan.{stated};
ghost use Rattle.bundle_read.specs.Store.{Storable};

use number_bytes::numbers::unsigned_at;
use number_bytes::words::Width;
use number_runs::store::store_form;

// The count constraints from at on, which are without fault: a tag tells a constraint from a note, and no length is tested again.
// A note takes a turn and is not counted, so that n is no range's.
pub fn store_constraints(
    s: &[u8],
    at: usize,
    width: Width,
    k: u8,
    count: usize,
    kinds: &mut [u8],
    numbers: &mut [i32],
)
    requires few { k ≤ 16 }
    requires storable { Storable (bytes_of width) k 0 count (fields_at s.now at) kinds.old numbers.old }
    ensures kinds { kinds.new ≡ sets kinds.old 0 (kinds_of (stated (bytes_of width) k (fields_at s.now at))) }
    ensures numbers { numbers.new ≡ sets numbers.old 0 (numbers_of (stated (bytes_of width) k (fields_at s.now at))) }
{
    let many = k as usize + 1;
    let size = 3 + many * width.bytes();
    let mut here = at;
    let mut to: usize = 0;
    let mut n: usize = 0;
    while n < count {
        let tag = s[here];
        if tag < 0x80 {
            kinds[n] = tag - 3;
            store_form(s, here + 3, width, &mut numbers[to..to + many]);
            here += size;
            to += many;
            n += 1;
        } else {
            here += 3 + unsigned_at(s, here + 1, 2) as usize;
        }
    }
}
