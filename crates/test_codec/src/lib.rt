//! Tests of the public calls of the codec's crates: a module for each crate, each case a row of data.
//!
//! A test here uses only the crates' contracts, so no library is proved again for it. What needs a crate's private parts is tested in that
//! crate. `docs/gate.md` says which forms of tests are cheap.
#![tactic(auto)]

#[cfg(test)]
mod batches;
#[cfg(test)]
mod bitmaps;
#[cfg(test)]
mod dictionaries;
#[cfg(test)]
mod dictionary_batches;
#[cfg(test)]
mod heavy_texts;
#[cfg(test)]
mod made;
#[cfg(test)]
mod messages;
#[cfg(test)]
mod queries;
#[cfg(test)]
mod read_streams;
#[cfg(test)]
mod record_batches;
#[cfg(test)]
mod several_parts;
#[cfg(test)]
mod stream_bytes;
#[cfg(test)]
mod streams;
#[cfg(test)]
mod table_calls;
