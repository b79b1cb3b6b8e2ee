// No code: the definitions of ventilation air computed at their corners (specs/).
#![tactic(auto)]
