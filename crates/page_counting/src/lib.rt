// The census of a page: how many cells of each strip are at each level.
#![tactic(auto)]

pub mod counting;

use refusals::Completion;

// The cells of a strip at levels 0 to 3.
#[derive(Clone, Copy, Drop)]
pub struct Row {
    pub counts: [u32; 4],
}

// A row for each strip, beside the answer.
#[derive(Clone, Copy, Drop)]
pub struct Census {
    pub answer: Completion,
    pub rows: [Row; 64],
}
