// The rows that make a line, combine, reduce and scale: their tests, and the new line behind the branch's lines; and claims.
// The definitions are in proof/specs/Rows.antt; specs/Rows.antt and specs/Claims.antt have what the code leaves.
#![tactic(auto)]

pub mod claims;
pub mod derive;
