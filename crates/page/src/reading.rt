// Reading a page.
pub use page_reading::read;
