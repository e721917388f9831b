// One stage of the search, from the back, on a row of four prices.
#![tactic(auto)]

pub mod stage;

// From this number on there is no cost: `closed`.
pub const CLOSED: u32 = 524288;
