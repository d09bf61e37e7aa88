// The marked cases of 01, proved together. No code.
#![tactic(auto)]
