// The root of a proof and the lines before it, in arrays of a size that suits the proof: `check_lines` gives what check gives
// (`Checks`, proof/specs/Promises.antt), where bundles and header are read. specs/Root.antt says what the root gives and the
// room that it asks, specs/Sizes.antt what arrays are long enough.
#![tactic(auto)]

pub mod inputs;

ghost use Rattle.std.specs.Prelude.{◌≡◌, ◌&&◌, leb, ltb, ◌+◌, ◌*◌, ◌/◌, ◌≤◌, min};
ghost use Rattle.forms.specs.Edition.{edition, edition1};
ghost use Rattle.fields.specs.Places.{unread_bytes};
ghost use Rattle.proof.specs.Promises.{Checks};
ghost use Rattle.lines.specs.Buffer.{size, lines_in};
ghost use Rattle.tally.specs.Tally.{tally};
ghost use Rattle.branches.specs.Spare.{lines_left, Spare};
ghost use Rattle.branches.specs.Branching.{per_byte, Started};
ghost use Rattle.check_sizes.specs.Root.{Roots};
ghost use Rattle.check_sizes.specs.Sizes.{IsBegun, lines_to_come, NumbersWithin, Arrays, CheckedWithin, Tries};

use answers::WriteResult;
use answers::refusals::Refusal;
use branches::branch::{Here, check_branch};
use bundle_load::prepare;
use check_output::by_name::refusal;
use check_output::finish;
use fields::field_at;
use forms::{CONSTANTS, FORMULA_BYTES, LINES, LINES_1, LineNumber, RowNumber, lines_limit};
use inputs::Inputs;
use tally::Tally;

// The most bytes of a formula whose file is not too long: its header has 8.
const LONGEST: usize = FORMULA_BYTES - 8;

// Whether a formula of o bytes, whose file is not too long, has no room in so many.
fn lacks_room(length: usize, o: usize) -> bool
    ensures { result ≡ (leb o 65528 && ltb length o) }
{
    o <= LONGEST && length < o
}

// The root, from a place of the proof on, and all that follows. The buffers hold the lines, and the scratch takes the formula;
// where it is too short for it, that is too long.
fn check_root(
    proof: &[u8],
    at: usize,
    e: u8,
    k: u8,
    count: usize,
    lines: &mut [i32],
    kinds: &mut [u8],
    scratch: &mut [u8],
    out: &mut [u8],
) -> WriteResult
    requires { Started k kinds.old lines.old (tally e 0 count 0) proof.now at 0 }
    ensures { Roots e k (lines_in k kinds.old lines.old count) proof.now at scratch.old out.old out.new result }
{
    let rows = RowNumber(0);
    let made = LineNumber(count as u16);
    let tally = Tally {
        rows,
        lines: made,
        open: 0,
        edition: e,
    };
    let here = Here {
        at,
        k: k as usize,
        o: 0,
    };
    match check_branch(proof, here, answers::root(), lines, kinds, tally, scratch) {
        Ok(root) => {
            if lacks_room(scratch.len(), root.o) {
                return refusal(Refusal::TooLong, 4, root.o);
            }
            finish(proof, root.at, scratch, root.o, k, out)
        }
        Err(fault) => WriteResult {
            answer: fault.answer(),
            count: 0,
        },
    }
}

// The lines, and then the root, with room for the lines that may come.
fn check_within(
    inputs: &Inputs,
    lines: &mut [i32],
    kinds: &mut [u8],
    scratch: &mut [u8],
    out: &mut [u8],
) -> WriteResult
    requires begun { IsBegun inputs.now }
    requires spare { Spare inputs.now.header.edition inputs.now.header.k (lines_to_come inputs.now) kinds.old lines.old }
    ensures { CheckedWithin inputs.now.a.now inputs.now.b.now inputs.now.proof.now inputs.now.header.next scratch.old out.old out.new result }
{
    let header = inputs.header;
    let k = header.k;
    prepare(
        inputs.a,
        inputs.b,
        inputs.first,
        inputs.second,
        k,
        lines,
        kinds,
    );
    check_root(
        inputs.proof,
        header.next,
        header.edition,
        k,
        inputs.first.count + inputs.second.count,
        lines,
        kinds,
        scratch,
        out,
    )
}

// The sizes of the arrays. An array is cleared before it is used, which takes longer than the check of a short proof, so a
// short proof is given little: the sizes named by N are for proofs of N bytes at most, or that need no more. (A row has six bytes or so.)
// A row makes one line at most, and has four bytes, in edition 2 five: there is room for the lines of two constraints, of N / 4
// rows and for one that is being made, each of 16 constants (for 24 and 41 of 7). With fewer constants there is room
// for more lines; a line has four numbers at least, so a kind for each four numbers is enough.
// Up to 248 the scratch has BYTE_BYTES for each byte: a close has a field of four bytes at least, and adds 156 bytes to the
// formula at most: its own part over 16 constants has 75, the stride part before it, where it closes a branch of a rounding, 75
// too, and 6 are for the heads of an and and an or.
// Another proof, if `is_tried`, is tried with TRIED_BYTES for each of 960 bytes, and checked again with room for every formula where
// these are too few. Where nothing is rounded they are not: a strengthen and two closes are 3 fields of 12 bytes and add 148 bytes,
// or of 16 and add 156. (That is by reckoning; nothing rests on it.) The arrays then have 31 KB in edition 1 and 40 KB in edition 2, about what the
// first cache holds; what is larger takes longer by the byte (docs/SPEED.md).
const BYTE_BYTES: usize = 39;

const TRIED_BYTES: usize = 13;

// The numbers of a line: t and tA, each with its constant term.
const LINE_NUMBERS: usize = 2 * (CONSTANTS as usize + 1);

const SCRATCH_24: usize = 24 * BYTE_BYTES;

const NUMBERS_24: usize = (6 + 3) * (2 * (7 + 1));

const KINDS_24: usize = NUMBERS_24 / 4;

const SCRATCH_41: usize = 41 * BYTE_BYTES;

const NUMBERS_41: usize = (10 + 3) * (2 * (7 + 1));

const KINDS_41: usize = NUMBERS_41 / 4;

const SCRATCH_66: usize = 66 * BYTE_BYTES;

const NUMBERS_66: usize = (16 + 3) * LINE_NUMBERS;

const KINDS_66: usize = NUMBERS_66 / 4;

const SCRATCH_248: usize = 248 * BYTE_BYTES;

const NUMBERS_248: usize = (62 + 3) * LINE_NUMBERS;

const KINDS_248: usize = NUMBERS_248 / 4;

const SCRATCH_960: usize = 960 * TRIED_BYTES;

// All lines that a branch may have in edition 1, and one more.
const NUMBERS_1: usize = (LINES_1 as usize + 1) * LINE_NUMBERS;

const KINDS_1: usize = NUMBERS_1 / 4;

// More than these, in edition 2: those of 960 bytes, and all.
const NUMBERS_WIDE_960: usize = (192 + 3) * LINE_NUMBERS;

const KINDS_WIDE: usize = LINES as usize + 1;

const NUMBERS_WIDE: usize = KINDS_WIDE * LINE_NUMBERS;

// The lines, and then the root, in arrays of these sizes: check's answer where a formula of the proof has room in the scratch. Each
// choice of sizes is a function of its own.
fn check_sized<const SCRATCH: usize, const KINDS: usize, const NUMBERS: usize>(
    inputs: &Inputs,
    out: &mut [u8],
) -> WriteResult
    requires begun { IsBegun inputs.now }
    requires numbers_within { NumbersWithin inputs.now.header.edition inputs.now.header.k (lines_to_come inputs.now) NUMBERS }
    requires arrays { Arrays SCRATCH KINDS NUMBERS }
    ensures enough { min (per_byte * unread_bytes inputs.now.proof.now inputs.now.header.next) edition1.formula_bytes ≤ SCRATCH → Checks inputs.now.a.now inputs.now.b.now inputs.now.proof.now out.old out.new result }
    ensures tries { Tries inputs.now.a.now inputs.now.b.now inputs.now.proof.now out.old out.new result }
{
    let mut scratch = [0u8; SCRATCH];
    let mut kinds = [0u8; KINDS];
    let mut lines = [0i32; NUMBERS];
    check_within(inputs, &mut lines, &mut kinds, &mut scratch, out)
}

// A proof that is tried has at most so many bytes or, with claims, fewer fields than so many, notes among them. One of more bytes
// than the last of these is not gone over for that.
const TRIED_PROOF: usize = 960;

const TRIED_FIELDS: usize = 192;

const COUNTED_PROOF: usize = 8192;

// Whether so many fields that end at a place have, beyond 32, fewer than 16 bytes each, as rows alone have. (32 branching rows
// may stand at the start, one inside the other.)
fn is_dense(count: usize, end: usize) -> bool
    requires { count ≤ 192 }
{
    count > 32 && end < 16 * (count - 32)
}

// Whether a proof is tried. Claims make it long, and its formula not, so its fields are counted as long as they are not dense.
// Only time rests on it.
fn is_tried(proof: &[u8], from: usize) -> bool {
    if proof.len() <= TRIED_PROOF {
        return true;
    }
    if proof.len() > COUNTED_PROOF {
        return false;
    }
    let mut at = from;
    for count in 1..=TRIED_FIELDS {
        let Ok(Some(field)) = field_at(proof, at) else {
            return true;
        };
        if is_dense(count, field.next) {
            return false;
        }
        at = field.next;
    }
    false
}

// A proof of more bytes than 248, or of more lines, whose lines may come to have so many numbers: tried, and checked again with room for
// every formula where one is too long. A function of its own: the frame of a function has room for the largest of
// its arrays, and each page of that is touched at every call. It stays one since it is called twice with the same sizes
// (docs/SPEED.md).
fn check_long<const TRIED_NUMBERS: usize, const NUMBERS: usize, const KINDS: usize>(
    inputs: &Inputs,
    numbers: usize,
    out: &mut [u8],
) -> WriteResult
    requires begun { IsBegun inputs.now }
    requires numbers_within { NumbersWithin inputs.now.header.edition inputs.now.header.k (lines_to_come inputs.now) numbers }
    requires all_within { NumbersWithin inputs.now.header.edition inputs.now.header.k (lines_to_come inputs.now) NUMBERS }
    requires tried_arrays { Arrays SCRATCH_960 KINDS TRIED_NUMBERS }
    requires all_arrays { Arrays FORMULA_BYTES KINDS NUMBERS }
    ensures { Checks inputs.now.a.now inputs.now.b.now inputs.now.proof.now out.old out.new result }
{
    if numbers <= TRIED_NUMBERS && is_tried(inputs.proof, inputs.header.next) {
        let tried = check_sized::<SCRATCH_960, KINDS, TRIED_NUMBERS>(inputs, out);
        if tried.answer.number != Refusal::TooLong.number() {
            return tried;
        }
    }
    check_sized::<FORMULA_BYTES, KINDS, NUMBERS>(inputs, out)
}

// How many rows so many bytes may have: each has a tag, a length and a line number at least. Two divisions, by literals.
fn most_rows(e: u8, bytes: usize) -> usize
    ensures { result ≡ bytes / (3 + (edition e).line_width) }
{
    if e == 1 {
        return bytes / 4;
    }
    bytes / 5
}

// How many lines a branch may come to have, where count may come.
fn most_lines(e: u8, count: usize) -> usize
    ensures { result ≡ min count (edition e).lines }
{
    count.min(lines_limit(e) as usize)
}

// The lines, and then the root, with arrays for the lines that the proof may make by its bytes.
// To count its rows would take longer than to clear what is then not used, but where there are claims (`is_tried`).
pub fn check_lines(inputs: &Inputs, out: &mut [u8]) -> WriteResult
    requires { IsBegun inputs.now }
    ensures { Checks inputs.now.a.now inputs.now.b.now inputs.now.proof.now out.old out.new result }
{
    let header = inputs.header;
    let bytes = inputs.proof.len();
    let rows = most_rows(header.edition, bytes);
    let k = header.k;
    let size = 2 * (k as usize + 1);
    let count = most_lines(
        header.edition,
        inputs.first.count + inputs.second.count + rows,
    );
    let numbers = (count + 1) * size;
    if bytes <= 248 {
        if bytes <= 24 && numbers <= NUMBERS_24 {
            return check_sized::<SCRATCH_24, KINDS_24, NUMBERS_24>(inputs, out);
        }
        if bytes <= 41 && numbers <= NUMBERS_41 {
            return check_sized::<SCRATCH_41, KINDS_41, NUMBERS_41>(inputs, out);
        }
        if bytes <= 66 && numbers <= NUMBERS_66 {
            return check_sized::<SCRATCH_66, KINDS_66, NUMBERS_66>(inputs, out);
        }
        if numbers <= NUMBERS_248 {
            return check_sized::<SCRATCH_248, KINDS_248, NUMBERS_248>(inputs, out);
        }
        if numbers <= NUMBERS_1 {
            return check_long::<NUMBERS_1, NUMBERS_1, KINDS_1>(inputs, numbers, out);
        }
        return check_long::<NUMBERS_WIDE_960, NUMBERS_WIDE, KINDS_WIDE>(inputs, numbers, out);
    }
    if numbers <= NUMBERS_1 {
        return check_long::<NUMBERS_1, NUMBERS_1, KINDS_1>(inputs, numbers, out);
    }
    check_long::<NUMBERS_WIDE_960, NUMBERS_WIDE, KINDS_WIDE>(inputs, numbers, out)
}
