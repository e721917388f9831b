// What a write picks, over the whole page, as mathematics: definitions and laws that the calls cite. It has no function.
#![tactic(auto)]
