// Erasing a page.
pub use page_erasing::{erase, erase_mapped};
