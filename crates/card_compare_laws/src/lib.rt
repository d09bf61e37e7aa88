// What is true of any two cards and the list of their differences, about the definitions of cards and of that list. No code.
#![tactic(auto)]
