// Demand 2 over the definitions, in proofs/: what good cards answer, over any lawful rule. There is no code here.

#![tactic(auto)]
