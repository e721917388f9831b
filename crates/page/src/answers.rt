// The paper's numbers and values of the answers.
pub use page_answers::{end_number, end_strip, number, plain, value};
