// The customer's three demands as theorems, in proofs/, and document 01's worked table. There is no code here.

#![tactic(auto)]
