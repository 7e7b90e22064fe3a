// Formulas as definitions: what a formula's file is, reading one, and whether it is true of register values. No code.
// formula_test is the operation, formula_read reads and judges, formula_write writes the parts of what check gives.
#![tactic(auto)]
