// The search, as mathematics: definitions and laws that the crates above it cite. It has no function.
#![tactic(auto)]
