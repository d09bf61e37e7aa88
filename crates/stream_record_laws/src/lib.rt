// What is true of a stream's record and of the two calls together: the demand in specs/, theorems in proofs/. No code.
#![tactic(auto)]
