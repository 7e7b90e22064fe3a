// The lines of a cut: the stages up to it are A's, the others B's.
ghost use Rattle.bundle_load.specs.Load.{Space};
ghost use Rattle.run_cuts.specs.Cuts.{Read, LoadsCut};

use crate::begun::Run;
use bundle_load::load::load;
use bundle_scan::scan;
use forms::LineNumber;
use number_bytes::words::Width;

// Cut c.
pub fn load_cut(run: &Run, c: usize, lines: &mut [i32], kinds: &mut [u8])
    requires staged { Read run.now }
    requires space { Space run.now.k run.now.count kinds.old lines.old }
    ensures { LoadsCut run.now c kinds.old lines.old kinds.new lines.new }
{
    let mut left = run.buffer;
    let mut m: u16 = 0;
    let mut given: u8 = 0;
    for (i, own) in run.lengths.iter().enumerate() {
        let (part, rest) = left.split_at(*own);
        let stage = scan(part, given, 0).unwrap();
        let body = stage.body;
        let width = Width::of_coefficients(body.edition);
        load(
            part,
            body.at,
            width,
            stage.k,
            i < c,
            lines,
            kinds,
            LineNumber(m),
        );
        m += body.count as u16;
        given = stage.k;
        left = rest;
    }
}
