// The three demands: what is true of the calls together. No code stands here.
#![tactic(auto)]
