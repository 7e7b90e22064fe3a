// Reading a formula and judging it at register values, in one pass: its nodes, and the values of its forms.
// specs/Judging.antt has the code's answers as those of the definition (formula/specs/Test.antt).
#![tactic(auto)]

pub mod node;
pub mod reading;
