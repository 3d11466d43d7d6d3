//! Arrow schemas: types, fields and their limits.
//!
//! A [`Schema`] is a list of fields and a list of key/value pairs. Exactly specified are whether it is within the limits,
//! and otherwise the first that it exceeds, and whether two schemas have one shape. Contracts see fields as the plain trees of
//! `specs/Column.antt`, without their memory. The texts of fields are in `field_texts`.
//!
//! ```
//! let fields = field_texts::parse_fields(alloc, &["id:uint64", "tags:list<utf8?>?"])?;
//! let schema = Schema { fields, pairs: Vec::new(alloc) };
//! assert!(schema.check().is_ok() && schema.width() == 2);
//! ```
#![tactic(auto)]

mod compare;
mod copy;
mod laws;
mod limits;
mod types;

pub use compare::same_shape;
pub use laws::{one_shape_is_an_equivalence, one_shape_is_decided};
pub use limits::{MAX_DEPTH, MAX_FIELDS, MAX_PAIRS, MAX_TEXT_BYTES, NUMBER_END, SchemaError};
pub use types::{BitWidth, DataType, DateUnit, DictSpec, Field, IntegerType, Schema, TimeUnit};
