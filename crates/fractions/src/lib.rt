// Fractions of whole numbers, and how near a reported number of tonnes lies to one: specifications and laws only, for whatever is
// quantified. No program works with fractions, so there is no function here.
#![tactic(auto)]
