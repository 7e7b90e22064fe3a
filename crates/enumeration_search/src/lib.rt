// The next short proof of one, two or three rows: the table given is found by its rows, and the search goes on from there.
// enumeration_rows/specs/Searching.antt says what is found, by the sequence of enumeration/specs/Search.antt.
#![tactic(auto)]

ghost use Rattle.std.specs.Prelude.{suc, ◌+◌, ◌-◌, ◌*◌, ◌≤◌, ◌<◌, Ok, length, drop};
ghost use Rattle.enumeration.specs.Sequence.{proofs_of};
ghost use Rattle.enumeration.specs.Numbering.{inference_count};
ghost use Rattle.enumeration.specs.Search.{first_found, next_found, if_none_left, proofs_beginning, proofs_from, first_of_depths, next_of_depths};
ghost use Rattle.lines.specs.Buffer.{lines_in};
ghost use Rattle.enumeration_rows.specs.Applied.{tally_of, SearchRoom};
ghost use Rattle.enumeration_rows.specs.Searching.{Finds, FindsAny, Unclosed};

use enumeration_rows::close::{after_close, seek_close};
use enumeration_rows::found::{NotAmong, Rows};
use enumeration_rows::infer::{holds, infer};
use enumeration_rows::read::inference_at;
use enumeration_rows::write::{inference_bytes, inference_count};

// The first close that holds behind n lines and a new one. Where no close of the n lines holds (`unclosed`) only those of the new
// line are tested: number n, and the last three.
fn seek_close_behind(
    lines: &[i32],
    kinds: &[u8],
    n: usize,
    k: usize,
    unclosed: bool,
) -> Option<Rows>
    requires search_room { SearchRoom k 0 kinds.now lines.now (tally_of (n + 1)) }
    requires unclosed { Unclosed k n kinds.now lines.now unclosed }
    ensures { Finds k (n + 1) 0 (first_found (proofs_from 0 (lines_in k kinds.now lines.now (n + 1)) 0)) kinds.now lines.now kinds.now lines.now (Ok result) }
{
    if !unclosed {
        return seek_close(lines, kinds, n + 1, k, 0);
    }
    if holds(lines, kinds, n + 1, n, k) {
        return Some(Rows::One { c: n });
    }
    seek_close(lines, kinds, n + 1, k, 4 * n + 1)
}

// The first proof that begins with inference j and has `depth` inferences and a close more. (`unclosed`: no close of the n lines holds.)
#[cycle(beginning_seek)]
fn beginning(
    lines: &mut [i32],
    kinds: &mut [u8],
    n: usize,
    k: usize,
    depth: usize,
    j: usize,
    unclosed: bool,
) -> Option<Rows>
    requires search_room { SearchRoom k (suc depth) kinds.old lines.old (tally_of n) }
    requires depth_bound { (depth ≤ 1) × (j < inference_count n) }
    requires unclosed { Unclosed k n kinds.old lines.old unclosed }
    ensures { Finds k n (suc depth) (first_found (proofs_beginning (suc depth) (lines_in k kinds.old lines.old n) j)) kinds.old lines.old kinds.new lines.new (Ok result) }
{
    if !infer(lines, kinds, n, j, k) {
        return None;
    }
    if depth == 0 {
        let rows = seek_close_behind(lines, kinds, n, k, unclosed)?;
        return rows.with_first(j);
    }
    let rows = seek(lines, kinds, n + 1, k, depth, 0)?;
    rows.with_first(j)
}

// The first proof of `depth` inferences and a close, whose first row has a number from `from` on.
#[cycle(beginning_seek)]
fn seek(
    lines: &mut [i32],
    kinds: &mut [u8],
    n: usize,
    k: usize,
    depth: usize,
    from: usize,
) -> Option<Rows>
    requires search_room { SearchRoom k depth kinds.old lines.old (tally_of n) }
    requires depth_bound { depth ≤ 2 }
    ensures { Finds k n depth (first_found (proofs_from depth (lines_in k kinds.old lines.old n) from)) kinds.old lines.old kinds.new lines.new (Ok result) }
{
    if depth == 0 {
        return seek_close(lines, kinds, n, k, from);
    }
    // Asked once for all j: docs/SPEED.md, `seek`.
    let unclosed = seek_close(lines, kinds, n, k, 0).is_none();
    for j in from..inference_count(n) {
        if let Some(rows) = beginning(lines, kinds, n, k, depth - 1, j, unclosed) {
            return Some(rows);
        }
    }
    None
}

// The proof of `depth` inferences and a close after the one that the rest of the table is.
fn after(
    lines: &mut [i32],
    kinds: &mut [u8],
    n: usize,
    k: usize,
    depth: usize,
    rest: &[u8],
) -> Result<Option<Rows>, NotAmong>
    requires search_room { SearchRoom k depth kinds.old lines.old (tally_of n) }
    requires depth_bound { depth ≤ 2 }
    ensures { Finds k n depth (next_found rest.now (proofs_of depth (lines_in k kinds.old lines.old n))) kinds.old lines.old kinds.new lines.new result }
{
    if depth == 0 {
        return after_close(lines, kinds, n, k, rest);
    }
    let Some(j) = inference_at(rest, n) else {
        return Err(NotAmong);
    };
    if !infer(lines, kinds, n, j, k) {
        return Err(NotAmong);
    }
    let behind = &rest[inference_bytes(n, j)..];
    match after(lines, kinds, n + 1, k, depth - 1, behind)? {
        Some(rows) => Ok(rows.with_first(j)),
        None => Ok(seek(lines, kinds, n, k, depth, j + 1)),
    }
}

// The first proof of `depth` inferences and a close, or of more.
pub fn first_from(
    lines: &mut [i32],
    kinds: &mut [u8],
    n: usize,
    k: usize,
    depth: usize,
) -> Option<Rows>
    requires search_room { SearchRoom k 2 kinds.old lines.old (tally_of n) }
    requires depth_bound { depth ≤ 3 }
    ensures { FindsAny k n (first_of_depths (3 - depth) depth (lines_in k kinds.old lines.old n)) kinds.old lines.old kinds.new lines.new (Ok result) }
{
    for d in depth..3 {
        if let Some(rows) = seek(lines, kinds, n, k, d, 0) {
            return Some(rows);
        }
    }
    None
}

// The proof after these rows, of `depth` inferences and a close.
fn after_depth(
    lines: &mut [i32],
    kinds: &mut [u8],
    n: usize,
    k: usize,
    depth: usize,
    rest: &[u8],
) -> Result<Option<Rows>, NotAmong>
    requires search_room { SearchRoom k 2 kinds.old lines.old (tally_of n) }
    requires depth_bound { depth ≤ 2 }
    ensures { FindsAny k n (if_none_left (next_found rest.now (proofs_of depth (lines_in k kinds.old lines.old n))) (first_of_depths (2 - depth) (suc depth) (lines_in k kinds.old lines.old n))) kinds.old lines.old kinds.new lines.new result }
{
    match after(lines, kinds, n, k, depth, rest)? {
        Some(rows) => Ok(Some(rows)),
        None => Ok(first_from(lines, kinds, n, k, depth + 1)),
    }
}

// The proof after the one whose rows these are.
pub fn after_table(
    lines: &mut [i32],
    kinds: &mut [u8],
    n: usize,
    k: usize,
    rest: &[u8],
) -> Result<Option<Rows>, NotAmong>
    requires { SearchRoom k 2 kinds.old lines.old (tally_of n) }
    ensures { FindsAny k n (next_of_depths 3 0 rest.now (lines_in k kinds.old lines.old n)) kinds.old lines.old kinds.new lines.new result }
{
    for d in 0..3 {
        if let Ok(found) = after_depth(lines, kinds, n, k, d, rest) {
            return Ok(found);
        }
    }
    Err(NotAmong)
}
