//! The catalogue of a store as it lies on a device: whole in one text, or in pages.
//!
//! The commit names the text of a short catalogue. For a long one it names a root: the name of each table, and where the page with the schema and
//! segments of the table lies. A change writes the pages of the tables that it changes and a new root; the other pages stay where they are.
//! `StoredCatalogue` reads both kinds at any size.
#![tactic(auto)]

mod laws;
mod paging;
mod reading;
mod stored;

pub use laws::{kept_catalogues_are_read, pages_hold_what_was_read};
pub use paging::{Layout, layout_of, settle};
pub use stored::StoredCatalogue;
