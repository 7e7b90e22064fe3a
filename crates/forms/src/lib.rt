// Forms, constraints, lines and formulas, and what they say: specs/. Here are the numbers of lines and rows, and the limits that
// code tests, as specs/Edition.antt has them.
#![tactic(auto)]

ghost use Rattle.std.specs.Prelude.{◌≡◌, cond, eqb};
ghost use Rattle.forms.specs.Edition.{edition};

// The newest edition that is read; the others are 1 up to it.
pub const NEWEST: u8 = 2;

// A line is numbered on its branch, from 0: A's constraints in file order, then B's, then the lines that rows make.
#[derive(Clone, Copy)]
pub struct LineNumber(pub u16);

// A row is numbered in the file, from 0. An answer that other programs read tells it.
#[repr(C)]
#[derive(Clone, Copy)]
pub struct RowNumber(pub u16);

// The most constants: K is 1 to this.
pub const CONSTANTS: u8 = 16;

// The most constraints of a bundle.
pub const CONSTRAINTS: usize = 32;

// The most rows of a proof, lines on a branch (in any edition, and in edition 1), and open branching steps.
pub const ROWS: u16 = 1024;

pub const LINES: u16 = 1000;

pub const LINES_1: u16 = 128;

pub const BRANCHINGS: u16 = 32;

// The most by which one rounding raises its line.
pub const ROUNDING: u16 = 16;

// The most bytes of a file; of a bundle in any edition, and in edition 1.
pub const BUNDLE_BYTES: usize = 8192;

pub const BUNDLE_BYTES_1: usize = 4096;

pub const PROOF_BYTES: usize = 65536;

pub const FORMULA_BYTES: usize = 65536;

// How many bytes a multiplier or g has in a proof, and a number in a claim or a formula.
pub const MULTIPLIER_BYTES: usize = 2;

pub const TERM_BYTES: usize = 4;

// The most levels of and/or in a formula.
pub const LEVELS: usize = 600;

// Register values stay within ± this.
pub const VALUES: i64 = 1000000;

// ---- what differs between editions, by the edition's number
// That of edition 1, or that of every later one.
fn by_edition<T: Copy>(number: u8, first: T, later: T) -> T
    ensures { result ≡ cond (eqb number 1) first later }
{
    if number == 1 { first } else { later }
}

// How many bytes a number of a bundle has.
pub fn coefficient_bytes(number: u8) -> usize
    ensures { result ≡ (edition number).coefficient_width }
{
    by_edition(number, 2, 4)
}

// How many bytes a line number has in a proof.
pub fn line_bytes(number: u8) -> usize
    ensures { result ≡ (edition number).line_width }
{
    by_edition(number, 1, 2)
}

// The most lines on a branch.
pub fn lines_limit(number: u8) -> u16
    ensures { result ≡ (edition number).lines }
{
    by_edition(number, LINES_1, LINES)
}

// The most bytes of a bundle.
pub fn bundle_limit(number: u8) -> usize
    ensures { result ≡ (edition number).bundle_bytes }
{
    by_edition(number, BUNDLE_BYTES_1, BUNDLE_BYTES)
}
