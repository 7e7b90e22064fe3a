// Turning a bundle or a proof into the other edition: what it means and what stays. No code.
// Statements of the functions are guarantee/specs/Conversion.antt; the code is in conversion_bundle, conversion_survey,
// conversion_write and convert.
#![tactic(auto)]
