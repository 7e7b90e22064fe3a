// The cuts together: of all refusals the one of least place, or the bytes of all guards.
ghost use Rattle.std.specs.Prelude.{◌≡◌};
ghost use Rattle.run_cuts.specs.Cuts.{Asked};
ghost use Rattle.run_cuts.specs.All.{earlier_refusal, both_of, joined_by, judged_by, Summable, CutsChecked};

use crate::begun::Run;
use crate::cut::check_cut;
use answers::Answer;
use forms::FORMULA_BYTES;
use run_branches::walk::Closed;

// The two header fields of a guard's file.
pub const HEADER_BYTES: usize = 8;

// What the cuts derive: the bytes of all guards' files, and whether none of them is too long.
#[derive(Clone, Copy)]
pub struct Derived {
    pub total: usize,
    pub fit: bool,
}

// Of two refusals that of the lesser place, at one place the first.
pub fn earlier_refusal(a: Answer, b: Answer) -> Answer
    ensures { result ≡ earlier_refusal a b }
{
    if a.place <= b.place { a } else { b }
}

// Both, or the refusal that comes first.
fn both<X: Copy, Y: Copy>(
    first: Result<X, Answer>,
    second: Result<Y, Answer>,
) -> Result<(X, Y), Answer>
    ensures { result ≡ both_of first second }
{
    match (first, second) {
        (Ok(x), Ok(y)) => Ok((x, y)),
        (Err(a), Err(b)) => Err(earlier_refusal(a, b)),
        (Err(a), Ok(_)) => Err(a),
        (Ok(_), Err(b)) => Err(b),
    }
}

// A cut, whose formula has so many bytes, and those after it.
fn joined(cut: Result<usize, Answer>, others: Result<Derived, Answer>) -> Result<Derived, Answer>
    requires { Summable cut others }
    ensures { result ≡ joined_by cut others }
{
    let (o, derived) = both(cut, others)?;
    let size = o + HEADER_BYTES;
    Ok(Derived {
        total: derived.total + size,
        fit: size <= FORMULA_BYTES && derived.fit,
    })
}

// The cuts, and then the walk, which comes after them at one place.
pub fn judged(
    all: Result<Derived, Answer>,
    walked: Result<Closed, Answer>,
) -> Result<Derived, Answer>
    ensures { result ≡ judged_by all walked }
{
    let (derived, _) = both(all, walked)?;
    Ok(derived)
}

// All cuts, from the last down: what is found so far is that of the cuts after this one. No formula is kept, so any scratch does.
pub fn check_cuts(
    run: &Run,
    lines: &mut [i32],
    kinds: &mut [u8],
    scratch: &mut [u8],
) -> Result<Derived, Answer>
    requires { Asked run.now kinds.old lines.old }
    ensures { CutsChecked run.now result }
{
    let mut all = Ok(Derived {
        total: 0,
        fit: true,
    });
    for c in (0..=run.lengths.len()).rev() {
        let own = check_cut(run, c, lines, kinds, scratch);
        all = joined(own, all);
    }
    all
}
