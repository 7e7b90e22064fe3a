// Reads a formula from the file f and register values, four signed bytes each, from the file v of the working directory,
// and prints `true`, `false` or the line of a refusal.
#![tactic(auto)]

ghost use Rattle.std.specs.Prelude.{take};
ghost use Rattle.files.specs.Counts.{IsPrefixLen};
ghost use Rattle.guard.specs.Said.{test_files, Printed};

use answers::refusals::Refusal;
use forms::{CONSTANTS, FORMULA_BYTES};
use number_bytes::words::Width;
use number_runs::store::store_numbers;

// One value more than may be: that many are as wrong as any more.
const MANY: usize = CONSTANTS as usize + 1;

// The bytes that the longest line of a refusal may have.
const LINE: usize = 79;

// What is to be printed of the two files, at the start of text.
fn answer(f: &[u8], v: &[u8], text: &mut [u8; LINE]) -> usize
    ensures prefix_len { IsPrefixLen result text.new }
    ensures printed { Printed (test_files f.now v.now) (take result text.new) }
{
    if v.len() % 4 != 0 {
        return files::put_refused(text, Refusal::WrongConstants.number(), 4, 0);
    }
    let mut array = [0; MANY];
    let values = &mut array[..MANY.min(v.len() / 4)];
    store_numbers(v, 0, Width::Four, values);
    let r = formula_test::test(f, values);
    let a = r.answer;
    if a.number != 0 {
        return files::put_refused(text, a.number, a.file, a.place);
    }
    if r.holds {
        return files::put_text(text, 0, b"true\n");
    }
    files::put_text(text, 0, b"false\n")
}

// Of a file that is longer than its buffer the rest changes nothing (`read-enough` of proofs/Values.antt).
fn main(rt: HostRuntime) {
    let mut f = [0u8; FORMULA_BYTES + 1];
    let mut v = [0u8; MANY * 4];
    let mut text = [0u8; LINE];
    let nf = files::read(&rt, b"f", &mut f);
    let nv = files::read(&rt, b"v", &mut v);
    let n = answer(&f[..nf], &v[..nv], &mut text);
    files::write(&mut rt.stdout(), &text[..n]);
}
