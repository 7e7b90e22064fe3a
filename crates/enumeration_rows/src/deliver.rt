// A table in the lent output: inferences, and the close behind them. 21.
ghost use Rattle.std.specs.Prelude.{◌≡◌, ◌+◌, ◌≤◌, length};
ghost use Rattle.answers.specs.Answers.{acceptance};
ghost use Rattle.enumeration.specs.Search.{at};
ghost use Rattle.enumeration_rows.specs.Delivered.{WritesFound};
ghost use Rattle.enumeration_rows.specs.Searching.{rows_at, NumbersAt};

use crate::write::{close_bytes, inference_bytes, put_close, put_inference};
use answers::WriteResult;
use answers::refusals::Refusal;
use check_output::by_name::refusal;
use fields::header::put_header;

fn written(needed: usize) -> WriteResult
    ensures { result ≡ record { answer = acceptance; count = needed } }
{
    let answer = answers::acceptance();
    WriteResult {
        answer,
        count: needed,
    }
}

// The inferences of these numbers behind n lines, and then close c.
pub fn deliver_rows(out: &mut [u8], k: u8, n: usize, inferences: &[usize], c: usize) -> WriteResult
    requires { (n + length inferences.now ≤ 6) × NumbersAt n inferences.now c }
    ensures { WritesFound k (at (rows_at n inferences.now c)) out.old out.new result }
{
    let mut needed = 8;
    'sizes: for (i, j) in inferences.iter().enumerate() {
        needed += inference_bytes(n + i, *j);
    }
    needed += close_bytes(n + inferences.len(), c);
    if out.len() < needed {
        return refusal(Refusal::OutputTooShort, 4, needed);
    }
    put_header(out, 1, k);
    let mut at = 8;
    'rows: for (i, j) in inferences.iter().enumerate() {
        put_inference(out, at, n + i, *j);
        at += inference_bytes(n + i, *j);
    }
    put_close(out, at, n + inferences.len(), c);
    written(needed)
}
