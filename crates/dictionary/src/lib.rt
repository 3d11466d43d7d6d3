//! The dictionaries of a stream (Arrow columnar format, "Dictionary Messages"): [`Dictionaries`] keeps the arrays of their batches, and knows which
//! are in effect for each id.
//!
//! A batch that is not a delta begins the dictionary of its id anew ([`Dictionaries::replace`]), and a delta is appended ([`Dictionaries::append`]). An
//! array of a record batch keeps the [`columns::DictionaryPart`] that was known when it was read; no later batch changes the arrays of that part.
//!
//! ```ignore
//! let mut dictionaries = Dictionaries::new(alloc);
//! dictionaries.replace(alloc, 0, first)?;
//! let part = dictionaries.part(0);
//! ```
#![tactic(auto)]

mod current;
mod dictionaries;
mod laws;

pub use dictionaries::Dictionaries;
pub use laws::last_batches_are_in_effect;
