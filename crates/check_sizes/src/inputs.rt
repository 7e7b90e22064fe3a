// What a check goes over.
use bundle_scan::Body;
use fields::header::Headed;

// Both bundles, gone over, and the proof, whose header is read. (That they are is a clause, `IsBegun`, and no ghost field: it holds
// for every number of a file, and so is no proposition that the check finds to be one.)
#[derive(Clone, Copy)]
pub struct Inputs<'a> {
    pub a: &'a [u8],
    pub b: &'a [u8],
    pub first: Body,
    pub second: Body,
    pub proof: &'a [u8],
    pub header: Headed,
}
