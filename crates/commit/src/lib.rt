//! Commits of a store: opening and formatting a store, and publishing a new catalogue so that a crash at any moment leaves either the old store or
//! the new one whole. A catalogue is any type that implements `ReadCatalogue`.
//!
//! Opening a store, and adding a segment and a catalogue that names it:
//!
//! ```
//! let mut store = recover::<Tables, _>(alloc, &mut device)?;
//! let places = place(alloc, &mut store.map, contents, &[], text_bytes)?;
//! let (tables, texts) = with_segment(&store.catalogue, &places)?;
//! let plan = plan_next(store.commit, version, kind, tables, places, texts, text_bytes);
//! publish(&mut device, &store, &plan)?;
//! store.map.give_each(&given_up);
//! ```
#![tactic(auto)]

mod agreeing;
mod catalogue;
mod cause;
mod entering;
mod formatting;
mod opening;
mod opening_refusal;
mod placing;
mod publishing;
mod reading;
mod recovery;
mod sector;

pub use agreeing::commits_agree;
pub use catalogue::ReadCatalogue;
pub use cause::Cause;
pub use entering::occupy_runs;
pub use formatting::{FormatError, format};
pub use opening::read_ruling;
pub use opening_refusal::OpeningRefusal;
pub use placing::{Places, place, take_runs};
pub use publishing::{Plan, plan_next, publish};
pub use reading::{OpenError, read_extent, read_text};
pub use recovery::{Opened, recover};
pub use sector::{CatalogueKind, Commit, FormatVersion, one_text_each};
