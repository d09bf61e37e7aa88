// What is true of finding and putting together, about the definitions of cards. No code.
#![tactic(auto)]
