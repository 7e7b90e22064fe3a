// What shortening takes of an entry, and the branches that are open.
// specs/Outline.antt has an outline beside the entry, specs/Stack.antt the branches to come; shortening_marks and shortening_table call it.
#![tactic(auto)]

pub mod stack;

ghost use Rattle.std.specs.Prelude.{◌≡◌, ◌+◌, ◌≤◌, length, take, drop};
ghost use Rattle.forms.specs.Edition.{edition, edition1};
ghost use Rattle.number_bytes.specs.Numbers.{unsigned};
ghost use Rattle.shortening_stack.specs.Outline.{outline_by, LaidBy};

use conversion_survey::line_at;
use forms::{MULTIPLIER_BYTES, line_bytes};
use number_bytes::numbers::unsigned_at;

// A row 0x10 to 0x12 makes a line, a branching row one for each of its branches, a close ends a branch; a claim is no row.
#[derive(Clone, Copy)]
pub enum Class {
    Makes,
    Branches,
    Closes,
    Claims,
}

// The lines that it names, the second the first where there is one only; how many branches are to come behind its first.
#[derive(Clone, Copy)]
pub struct Outline {
    pub class: Class,
    pub first: u16,
    pub second: u16,
    pub come: u16,
}

// What a rounding rounds by.
fn rounding_at(p: &[u8], at: usize) -> u16
    requires { at + edition1.multiplier_width ≤ length p.now }
    ensures { result ≡ unsigned (take edition1.multiplier_width (drop at p.now)) }
{
    unsigned_at(p, at, MULTIPLIER_BYTES) as u16
}

fn outlined(class: Class, first: u16, second: u16, come: u16) -> Outline
    ensures { result ≡ record { class = class; first = first; second = second; come = come } }
{
    Outline {
        class,
        first,
        second,
        come,
    }
}

// Of a field of a proof of edition e whose contents start there. (Not through `entries::entry_at`, which would then no longer
// be compiled into the check.)
pub fn outline_at(p: &[u8], tag: u8, start: usize, e: u8) -> Outline
    requires { LaidBy p.now tag start (edition e).line_width }
    ensures { result ≡ outline_by (edition e).line_width tag (drop start p.now) }
{
    if tag == 0x20 {
        return outlined(Class::Claims, 0, 0, 0);
    }
    let width = line_bytes(e);
    let first = line_at(p, start, e);
    match tag {
        0..=0x11 => {
            let second = line_at(p, start + width, e);
            outlined(Class::Makes, first, second, 0)
        }
        0x12 => outlined(Class::Makes, first, first, 0),
        0x13 => outlined(Class::Branches, first, first, 2),
        0x16 => {
            let by = rounding_at(p, start + width + MULTIPLIER_BYTES);
            outlined(Class::Branches, first, first, by)
        }
        0x17 => outlined(Class::Branches, first, first, 1),
        _ => outlined(Class::Closes, first, first, 0),
    }
}
