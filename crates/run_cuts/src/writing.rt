// The guards' files, end to end, and their sizes.
ghost use Rattle.run_cuts.specs.Cuts.{Asked};
ghost use Rattle.run_cuts.specs.Writing.{GuardFits, WritesGuard, GuardsFit, WritesAll};

use crate::all::HEADER_BYTES;
use crate::begun::Run;
use crate::cut::check_cut;
use fields::header::put_header;

// The file of guard c, at the front of the output; its size.
fn write_guard(run: &Run, c: usize, lines: &mut [i32], kinds: &mut [u8], out: &mut [u8]) -> usize
    requires asked { Asked run.now kinds.old lines.old }
    requires guard_fits { GuardFits run.now c out.old }
    ensures { WritesGuard run.now c out.old out.new result }
{
    put_header(out, 1, run.k);
    let o = check_cut(run, c, lines, kinds, &mut out[HEADER_BYTES..]).unwrap();
    o + HEADER_BYTES
}

// All guards' files, end to end, and their sizes.
pub fn write_guards(
    run: &Run,
    lines: &mut [i32],
    kinds: &mut [u8],
    out: &mut [u8],
    sizes: &mut [usize],
)
    requires asked { Asked run.now kinds.old lines.old }
    requires guards_fit { GuardsFit run.now out.old sizes.old }
    ensures { WritesAll run.now out.old out.new sizes.old sizes.new }
{
    let mut o = 0;
    for c in 0..=run.lengths.len() {
        let size = write_guard(run, c, lines, kinds, &mut out[o..]);
        sizes[c] = size;
        o += size;
    }
}
