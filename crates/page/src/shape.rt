// The strips of a page, as parts of the caller's page.
pub use page_parts::{strip, strip_mut};
