// The facts that the ciphers and the chain share: definitions in specs/, laws in proofs/. No code.
#![tactic(auto)]
