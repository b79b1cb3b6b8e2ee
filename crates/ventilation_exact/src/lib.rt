// The exact reduction of ventilation air over the readings used, as fractions (specs/Exact.antt), and demand 3 over it
// (proofs/Demand3.antt). There is no code here.
#![tactic(auto)]
