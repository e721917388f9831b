// What the calls on a block of pages promise, and that what they compute keeps it: definitions and laws. It has no function.
#![tactic(auto)]
