// An example of demand 3 and a first publishing, worked out by computation, in proofs/. There is no code.
#![tactic(auto)]
