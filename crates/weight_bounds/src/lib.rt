//! How much the rows of streams may weigh at most, by their number and the number of bytes, without reading them.
//!
//! Cells weigh what as many nulls weigh, and more: a byte of a string for each byte of contents, and an item for the bytes of an item. A stream has no more
//! bytes of these than bytes, however its columns share them ([`streams_weigh_at_most`]). There is no bound if a type has values that take no bytes, as a list
//! of nulls, or that can be named often, as a dictionary of strings.
//!
//! ```ignore
//! if weight_bounds::stays_light(&schema, rows, bytes, weight) {
//!     // rows of this weight may be appended to as many rows in as many bytes
//! }
//! ```
#![tactic(auto)]

mod bound;
mod laws;

pub use bound::stays_light;
pub use laws::streams_weigh_at_most;
