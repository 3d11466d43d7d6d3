//! FlatBuffers: reads tables that may be malicious, and writes tables so that they read back.
//!
//! A read returns the content of a slot as the format defines it, or the first thing that is out of bounds, and does
//! not allocate. [`Writer`] has one layout for each tree, and what it writes reads back as that tree.
//!
//! ```
//! // The byte of slot 1 of the root table, 0 where it is absent.
//! let mut budget = Budget::new();
//! let root = Buf::new(bytes).root(&mut budget)?;
//! let kind = root.scalar_u8(1, 0)?;
//! ```
#![tactic(auto)]

ghost use Rattle.std.specs.Prelude.{ℕ, ◌≡◌, ◌<◌, ◌^◌, ◌%◌, ◌+◌, List, length};
ghost use Rattle.flatbuf.specs.Tree.{Tree};
ghost use Rattle.flatbuf.specs.Laid.{laid, start, metadata, gap};
ghost use Rattle.flatbuf.specs.Ends.{end_at};
ghost use Rattle.flatbuf.specs.Lookup.{target};
ghost use Rattle.flatbuf.specs.Held.{Has, Fits};
ghost use Rattle.flatbuf.specs.Stands.{At};

use thiserror::Error;

/// The first bad thing that a reader met.
#[derive(Clone, Copy, Debug, Error)]
pub enum FlatError {
    /// Something lies outside the bytes.
    #[error("something outside the bytes")]
    Bounds,
    /// A vtable's size is odd or below 4.
    #[error("a vtable whose size is odd or below 4")]
    VtableSize,
    /// More than `MAX_BUFFER_TABLES` tables, or a table more than `MAX_LEVELS` levels deep.
    #[error("more than {tables} tables, or one more than {levels} levels deep", tables = MAX_BUFFER_TABLES, levels = MAX_LEVELS)]
    Budget,
}

mod buf;
mod emit;
mod limits;
mod nodes;
mod numbers;
mod references;
mod sizes;
mod table;
mod writer;

pub use buf::{Budget, Buf};
pub use limits::{MAX_BUFFER_BYTES, MAX_BUFFER_TABLES, MAX_LEVELS};
pub use nodes::{Node, Slot};
pub use references::References;
pub use table::{Table, Union};
pub use writer::Writer;

/// What is written reads back: wherever the bytes of a tree are placed, a reader finds that tree.
pub fn written_is_read()
    ensures anywhere { (bytes : List ℕ) (at : ℕ) (n : Tree) → length bytes < 2 ^ 31 → Fits n → At bytes at (laid at n) → Has bytes (start at n) n }
    ensures size { (n : Tree) → length (metadata n) ≡ end_at 4 n + gap 8 (end_at 4 n) }
    ensures whole { (n : Tree) → length (metadata n) % 8 ≡ 0 }
    ensures root { (n : Tree) → length (metadata n) < 2 ^ 31 → Fits n → Has (metadata n) (target (metadata n) 0) n }
{}
