// Noekeon deciphered undoes Noekeon enciphered, about the definitions. No code.
#![tactic(auto)]
