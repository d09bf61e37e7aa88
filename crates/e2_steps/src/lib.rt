// E2's steps (001): ⊗ and ⊘ on a block, and S, P and BRL on half of one.
#![tactic(auto)]

pub mod half;
pub mod quad;
