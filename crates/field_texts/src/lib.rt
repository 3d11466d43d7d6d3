//! Field texts: the fields of a schema as they are typed in and printed.
//!
//! The contracts say exactly how a field is printed, which fields a list of texts means or why it is refused, that a text is that of at most one
//! column, and which text is taken for a field ([`typed_text`]). The grammar is in docs/formats/field_texts.md. Contracts see fields as the plain trees of `arrow_schema`.
//!
//! ```
//! let fields = parse_fields(alloc, &["id:uint64", "tags:list<utf8?>?"])?;
//! assert!(field_text(alloc, &fields[0])?.as_str() == "\"id\":uint64");
//! ```
#![tactic(auto)]

mod build;
mod grammar;
mod keyword;
mod laws;
mod parse;
mod print;
mod scan;
mod typed;

pub use laws::one_column_of_a_text;
pub use parse::{ParseError, parse_fields};
pub use print::field_text;
pub use typed::typed_text;
