// A formula that has been read, judged at a list of vectors in blocks: each block in one pass, and block by block.
// specs/Blocks.antt has its answer as the truths of the definition (formula/specs/TestList.antt); formula_list calls it.
#![tactic(auto)]

pub mod block;
pub mod fill;
