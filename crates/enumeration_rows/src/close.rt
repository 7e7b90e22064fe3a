// The closes, one after the other: the first that holds, and the one after that which a table ends with.
ghost use Rattle.std.specs.Prelude.{Ok};
ghost use Rattle.enumeration.specs.Sequence.{proofs_of};
ghost use Rattle.enumeration.specs.Search.{first_found, next_found, proofs_from};
ghost use Rattle.lines.specs.Buffer.{lines_in};
ghost use Rattle.enumeration_rows.specs.Applied.{tally_of, SearchRoom};
ghost use Rattle.enumeration_rows.specs.Searching.{Finds};

use crate::found::{NotAmong, Rows};
use crate::infer::holds;
use crate::read::close_at;
use crate::write::close_count;

// The first close that holds, from a number on. (By `find` the three closes of a new line by stride are no longer unrolled:
// docs/SPEED.md, `seek_close`.)
pub fn seek_close(lines: &[i32], kinds: &[u8], n: usize, k: usize, from: usize) -> Option<Rows>
    requires { SearchRoom k 0 kinds.now lines.now (tally_of n) }
    ensures { Finds k n 0 (first_found (proofs_from 0 (lines_in k kinds.now lines.now n) from)) kinds.now lines.now kinds.now lines.now (Ok result) }
{
    for c in from..close_count(n) {
        if holds(lines, kinds, n, c, k) {
            return Some(Rows::One { c });
        }
    }
    None
}

// The close after the one that the rest of the table is.
pub fn after_close(
    lines: &[i32],
    kinds: &[u8],
    n: usize,
    k: usize,
    rest: &[u8],
) -> Result<Option<Rows>, NotAmong>
    requires { SearchRoom k 0 kinds.now lines.now (tally_of n) }
    ensures { Finds k n 0 (next_found rest.now (proofs_of 0 (lines_in k kinds.now lines.now n))) kinds.now lines.now kinds.now lines.now result }
{
    let Some(c) = close_at(rest, n) else {
        return Err(NotAmong);
    };
    if !holds(lines, kinds, n, c, k) {
        return Err(NotAmong);
    }
    Ok(seek_close(lines, kinds, n, k, c + 1))
}
