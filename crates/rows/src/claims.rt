// A claim states the line made last.
ghost use Rattle.std.specs.Prelude.{◌≡◌, ◌+◌, ◌*◌, ◌≤◌, ◌<◌, length};
ghost use Rattle.forms.specs.Edition.{edition, edition1, newest_edition};
ghost use Rattle.number_bytes.specs.Numbers.{signeds};
ghost use Rattle.proof.specs.Rows.{equals};
ghost use Rattle.lines.specs.Parts.{part};
ghost use Rattle.rows.specs.Claims.{Claimed};

use forms::{LineNumber, TERM_BYTES};
use number_bytes::words::Width;

// Whether the k + 1 numbers that these bytes begin with are those of the form at a place.
fn same_form(bytes: &[u8], lines: &[i32], at: usize, k: usize) -> bool
    requires k_le_constants { k ≤ edition1.constants }
    requires bytes_in_bounds { edition1.term_width * (k + 1) ≤ length bytes.now }
    requires lines_in_bounds { at + k < length lines.now }
    ensures { result ≡ equals (signeds edition1.term_width (k + 1) bytes.now) (part at (k + 1) lines.now) }
{
    for x in 0..k + 1 {
        let n = Width::Four.signed_at(bytes, TERM_BYTES * x);
        if !integers::same(n, integers::number(lines, at + x)) {
            return false;
        }
    }
    true
}

// Whether t, and then tA, of a claim are those of line i.
pub fn claim_holds(claim: &[u8], lines: &[i32], i: LineNumber, k: usize) -> bool
    requires k_le_constants { k ≤ edition1.constants }
    requires claim_in_bounds { 2 * edition1.term_width * (k + 1) ≤ length claim.now }
    requires i_lt_lines { i.0 < (edition newest_edition).lines }
    requires lines_in_bounds { i.0 * (2 * (k + 1)) + 2 * (k + 1) ≤ length lines.now }
    ensures { Claimed k claim.now lines.now i.0 result }
{
    same_form(claim, lines, lines::place(i, k), k)
        && same_form(
            &claim[TERM_BYTES * (k + 1)..],
            lines,
            lines::place_a(i, k),
            k,
        )
}
