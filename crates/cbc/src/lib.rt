// CBC and cutting, over any block permutation: definitions in specs/, theorems in proofs/. No code.
#![tactic(auto)]
