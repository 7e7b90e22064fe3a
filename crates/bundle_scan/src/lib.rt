// Going over a bundle: its header, its constraints one by one, the first fault or their count and a place.
// It finds what the definition `bundle` gives (specs/Scan.antt). Every operation that reads bundles starts with it.
#![tactic(auto)]

mod constraints;

ghost use Rattle.forms.specs.Edition.{newest_edition};
ghost use Rattle.bundle_scan.specs.Scan.{IsBundleHeader, Scans};

use answers::refusals::{Fault, Refusal};
use constraints::seek_constraint;
use fields::FileKind;
use fields::header::{Headed, read_constants, read_edition};
use forms::{NEWEST, bundle_limit};
use number_bytes::words::Width;

// What stands before a bundle's constraints. A file that is too long for its edition is refused after the edition is read, and before K is.
pub fn open_bundle(s: &[u8], given: u8) -> Result<Headed, Fault>
    ensures { IsBundleHeader newest_edition given s.now result }
{
    let edition = read_edition(s, FileKind::Bundle, NEWEST)?;
    if s.len() > bundle_limit(edition.value) {
        return Err(Fault {
            refusal: Refusal::TooLong,
            place: 0,
        });
    }
    let constants = read_constants(s, edition.next, FileKind::Bundle, given)?;
    Ok(Headed {
        edition: edition.value,
        k: constants.value,
        next: constants.next,
    })
}

// What stands behind a bundle's header: the edition of its numbers, the place where it starts, and how many constraints it has.
#[derive(Clone, Copy)]
pub struct Body {
    pub edition: u8,
    pub at: usize,
    pub count: usize,
}

// What going over a bundle tells: K, its body, and where the constraint wanted starts.
#[derive(Clone, Copy)]
pub struct Scanned {
    pub k: u8,
    pub body: Body,
    pub start: usize,
}

// Goes over a bundle's fields, to the first fault. K must be the given one, if that is not 0.
pub fn scan(s: &[u8], given: u8, wanted: usize) -> Result<Scanned, Fault>
    ensures { Scans given s.now wanted result }
{
    let head = open_bundle(s, given)?;
    let width = Width::of_coefficients(head.edition);
    let sought = seek_constraint(s, head.next, width, head.k, wanted)?;
    Ok(Scanned {
        k: head.k,
        body: Body {
            edition: head.edition,
            at: head.next,
            count: sought.count,
        },
        start: sought.start,
    })
}
