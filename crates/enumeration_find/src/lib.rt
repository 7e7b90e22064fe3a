// What is found for a table that is given, and the file of the proof found, or its refusal. enumerate calls both.
// specs/Finding.antt has what is found, by the sequence of enumeration/specs/Search.antt.
#![tactic(auto)]

ghost use Rattle.std.specs.Prelude.{◌≡◌, ◌≤◌};
ghost use Rattle.fields.specs.Header.{header_bytes};
ghost use Rattle.enumeration.specs.Numbering.{begins};
ghost use Rattle.lines.specs.Buffer.{lines_in};
ghost use Rattle.enumeration_rows.specs.Applied.{tally_of, SearchRoom};
ghost use Rattle.enumeration_rows.specs.Delivered.{WritesFound};
ghost use Rattle.enumeration_rows.specs.Searching.{found_of, NumbersIn, FindsAny};
ghost use Rattle.enumeration_find.specs.Finding.{found_for};

use answers::WriteResult;
use answers::refusals::Refusal;
use check_output::by_name::refusal;
use enumeration_rows::deliver::deliver_rows;
use enumeration_rows::found::{NotAmong, Rows};
use enumeration_rows::read::stands;
use enumeration_search::{after_table, first_from};
use fields::header::put_header;

// Whether the table begins with the header.
fn is_headed(table: &[u8], k: u8) -> bool
    ensures { result ≡ begins (header_bytes 1 k) table.now }
{
    let mut header = [0u8; 8];
    put_header(&mut header, 1, k);
    stands(table, 0, &header, 8)
}

pub fn find(
    lines: &mut [i32],
    kinds: &mut [u8],
    n: usize,
    k: u8,
    table: &[u8],
) -> Result<Option<Rows>, NotAmong>
    requires { SearchRoom k 2 kinds.old lines.old (tally_of n) }
    ensures { FindsAny k n (found_for k table.now (lines_in k kinds.old lines.old n)) kinds.old lines.old kinds.new lines.new result }
{
    if !is_headed(table, k) {
        return Err(NotAmong);
    }
    if table.len() == 8 {
        return Ok(first_from(lines, kinds, n, k as usize, 0));
    }
    after_table(lines, kinds, n, k as usize, &table[8..])
}

// 32, 33, 21.
#[tactic(auto, unfolding(enumeration::specs::Search::found_file, answers::specs::Answers::written))]
pub fn deliver(
    out: &mut [u8],
    k: u8,
    n: usize,
    found: Result<Option<Rows>, NotAmong>,
) -> WriteResult
    requires n_bound { n ≤ 4 }
    requires numbers_in { NumbersIn n found }
    ensures { WritesFound k (found_of n found) out.old out.new result }
{
    match found {
        Err(NotAmong) => refusal(Refusal::NotShortProof, 4, 0),
        Ok(None) => refusal(Refusal::NoFollowingProof, 4, 0),
        Ok(Some(Rows::One { c })) => deliver_rows(out, k, n, &[], c),
        Ok(Some(Rows::Two { a, c })) => deliver_rows(out, k, n, &[a], c),
        Ok(Some(Rows::Three { a, b, c })) => deliver_rows(out, k, n, &[a, b], c),
    }
}
