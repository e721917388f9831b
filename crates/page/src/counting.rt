// The census of a page.
pub use page_counting::counting::census;
