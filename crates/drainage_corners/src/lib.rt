// No code: the definitions computed at their corners (specs/).
#![tactic(auto)]
