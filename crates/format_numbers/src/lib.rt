//! The numbers of the format as the Arrow columnar format, its schema files or the pages of docs/formats write them.
//!
//! The definitions of other crates name these numbers as constants, so a wrong constant would change the code and the definition alike. Here each one
//! is stated as a number. The functions do nothing: their contracts are the laws.
#![tactic(auto)]

mod limits;
mod messages;
mod types;

pub use limits::{limits_of_metadata, limits_of_programs, limits_of_stores, limits_of_tables};
pub use messages::numbers_of_messages;
pub use types::{codes_of_supported_types, codes_of_types};
