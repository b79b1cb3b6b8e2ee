// The exact reduction without any rounding, and how far the reported tonnes may lie below it: specifications and laws
// only. No program works with fractions, so there is no function here.
#![tactic(auto)]
