// E2 deciphered undoes E2 enciphered, and the round keys of a key are bytes, about the definitions. No code.
#![tactic(auto)]
