// The calls on a page: read, price, write, write a list or in a band, erase and census, on numbers and byte slices. Each takes every
// input, and refuses what is not in order. Most stand in rooms of their own, and are handed on here.
#![tactic(auto)]

pub mod answers;
pub mod counting;
pub mod erasing;
pub mod reading;
pub mod shape;
pub mod writing;

pub use page_answers::{Answer, BandAnswer, End, ListAnswer, Total};
pub use page_counting::{Census, Row};
pub use refusals::{Completion, Refusal};
