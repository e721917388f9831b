// The paper's table of known cases, and runs of writes, each row computed. It has no function.
#![tactic(auto)]
