//! Archives of tables, as POSIX tape archives (`ustar`) that `tar` reads: `manifest.jsonl`, a member for each segment that is sent, and `end`, which has
//! the digest of the manifest.
//!
//! The definition is `archive_of` (`specs/Archive.antt`, docs/definitions/archive.md). An archive is made in pieces: [`archive_frame`] makes the member of
//! the manifest and the end, and [`segment_header`] and [`push_padding`] stand around the stream of each segment between them. [`WantedDigests`] says which
//! segments are sent, [`parse_digests`] reads which of them a receiver has, and [`typed_fields`] gives the texts of a table's fields. [`read_archive`] reads
//! a whole archive in memory.
//!
//! ```
//! let frame = archive_frame(alloc, ArchiveVersion::Two, epoch, &tables)?;
//! output.write_all(&frame.front)?;
//! output.write_all(&frame.end)?; // an archive without segments
//! ```
#![tactic(auto)]

mod archive;
mod digests;
mod manifest;
mod members;
mod named;
mod names;
mod parsing;
mod reading;
mod tar;
mod texts;
mod wanted;
mod whole;

pub use archive::{ArchiveError, ArchiveFrame, archive_frame, end_tells_manifest, segment_header};
pub use digests::{DigestsError, parse_digests};
pub use manifest::{ArchiveVersion, ListedSegment, ListedTable};
pub use reading::{Archive, ArchiveFault};
pub use tar::push_padding;
pub use texts::typed_fields;
pub use wanted::WantedDigests;
pub use whole::read_archive;
