// Hierocrypt-3's theorems that no code stands on: what its steps and the cipher undo, and what its round keys are. This crate has no code.
#![tactic(auto)]
