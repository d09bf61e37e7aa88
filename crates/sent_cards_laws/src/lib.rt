// What is true of a sent card by the layout of its file: the layout in specs/, theorems in proofs/. No code.
#![tactic(auto)]
