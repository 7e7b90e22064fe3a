// Whether parts of a proof are the same rows: the same fields, tags and contents, notes aside.
ghost use Rattle.run_fields.specs.Same.{Compares, SameFields};

use fields::next_field;
use number_bytes::compare::same_bytes;

// The places after the next field from a on and the next from b on, where the two are the same: a field is a place in the file, so
// tags and bytes are compared, not values of a type.
fn same_field(p: &[u8], a: usize, b: usize) -> Option<(usize, usize)>
    ensures { Compares p.now a b result }
{
    let Ok(first) = next_field(p, a) else {
        return None;
    };
    let Ok(second) = next_field(p, b) else {
        return None;
    };
    if first.tag == second.tag
        && first.len == second.len
        && same_bytes(p, first.start, p, second.start, first.len)
    {
        return Some((first.next, second.next));
    }
    None
}

// Whether the n fields from a on are those from b on, where there are so many: two cursors in lockstep.
pub fn same_fields(p: &[u8], a: usize, b: usize, n: u16) -> bool
    ensures { SameFields p.now a b n result }
{
    let mut cursors = (a, b);
    for _ in 0..n {
        let Some(next) = same_field(p, cursors.0, cursors.1) else {
            return false;
        };
        cursors = next;
    }
    true
}
