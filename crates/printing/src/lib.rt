// Formulas as text, as definitions: a fragment of SMT-LIB 2 and what it means, a formula so translated, its text and how that is
// read, the same in words, and what is proved of both (specs/OneReading.antt). No code: `print` is the operation.
#![tactic(auto)]
