// Worked cases of the definitions, as theorems in proofs/: there is no code here.
#![tactic(auto)]
