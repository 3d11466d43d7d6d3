ghost use Rattle.std.specs.Prelude.{◌≡◌, ◌<◌, ◌^◌, length, IfOk};
ghost use Rattle.flatbuf.specs.Laid.{metadata};
ghost use Rattle.flatbuf.specs.Held.{Fits};
ghost use Rattle.flatbuf.specs.View.{node_of};

use crate::emit::{pad, put};
use crate::nodes::Node;
use crate::sizes::{aligned, end_of, start_of};
use std::alloc::{AllocError, Global};

/// Writes trees of tables as the metadata of messages.
#[derive(Clone, Copy)]
pub struct Writer {
    alloc: Global,
}

impl Writer {
    pub fn new(alloc: Global) -> Writer {
        Writer { alloc }
    }

    /// Returns the metadata whose root is this node (docs/formats/writing.md), in a single allocation. Each byte is written once; the size of a table
    /// is computed once for each level above it.
    ///
    /// The caller ensures that the metadata is shorter than 2 GiB, that each number fits its slot, and that each table fits
    /// the 16 bits of its vtable.
    ///
    /// # Errors
    /// `AllocError` if memory was refused.
    #[tactic(auto, using(crate::proofs::Ends::metadata_len))]
    pub fn write(&self, root: &Node) -> Result<Vec<u8>, AllocError>
        requires fits { Fits (node_of root.now) }
        requires small { length (metadata (node_of root.now)) < 2 ^ 31 }
        ensures { IfOk result (λ bytes. bytes.items ≡ metadata (node_of root.now)) }
    {
        let end = end_of(4, root);
        let mut out = Vec::with_capacity(self.alloc, aligned(8, end))?;
        out.extend_from_slice(&(start_of(4, root) as u32).to_le_bytes())?;
        put(&mut out, root)?;
        pad(&mut out, end, 8)?;
        Ok(out)
    }
}
