// The constraints of a bundle as lines of a branch; and those of A and B (`prepare`), which check starts with.
// What it asks and leaves: specs/Load.antt for one bundle, specs/Both.antt for two; specs/Begun.antt has what a check knows then,
// and proofs/Phases.antt each refusal before.
#![tactic(auto)]

pub mod load;

ghost use Rattle.std.specs.Prelude.{◌+◌};
ghost use Rattle.bundle_load.specs.Load.{Space};
ghost use Rattle.bundle_load.specs.Both.{Both, Prepared};

use bundle_scan::Body;
use forms::LineNumber;
use load::load;
use number_bytes::words::Width;

// The lines of A and B.
pub fn prepare(
    a: &[u8],
    b: &[u8],
    first: Body,
    second: Body,
    k: u8,
    lines: &mut [i32],
    kinds: &mut [u8],
)
    requires both { Both a.now b.now first second k }
    requires space { Space k (first.count + second.count) kinds.old lines.old }
    ensures { Prepared a.now b.now first second k kinds.new lines.new }
{
    let none = LineNumber(0);
    load(
        a,
        first.at,
        Width::of_coefficients(first.edition),
        k,
        true,
        lines,
        kinds,
        none,
    );
    let n = LineNumber(first.count as u16);
    load(
        b,
        second.at,
        Width::of_coefficients(second.edition),
        k,
        false,
        lines,
        kinds,
        n,
    );
}
