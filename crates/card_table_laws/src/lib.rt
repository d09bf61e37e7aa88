// What is true of a card written as a table, about the definitions: what is written is read again. No code.
#![tactic(auto)]
