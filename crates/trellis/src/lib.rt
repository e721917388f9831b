// The search of a strip: what its data costs, and the digits of the cheapest way.
#![tactic(auto)]

pub mod backward;
pub mod forward;
