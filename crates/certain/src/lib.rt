// How many writes are certain after an erase, whatever the data, and what no code and no weights can help. It has no function.
#![tactic(auto)]
