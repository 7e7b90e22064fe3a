// Numbers to and from bytes: big-endian, unsigned and two's complement, one at a time; and runs of bytes copied and compared.
// The definitions, for any width, are specs/Numbers.antt; every number in a file is one of these.
#![tactic(auto)]

pub mod compare;
pub mod copy;
pub mod numbers;
pub mod words;
