// What is true of the four calls of a seal together: the demand in specs/, theorems in proofs/. No code.
#![tactic(auto)]
