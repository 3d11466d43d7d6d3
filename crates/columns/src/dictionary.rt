// The arrays of a dictionary, with the running entry count at the end of each.
ghost use Rattle.std.specs.Prelude.{◌≡◌};
ghost use Rattle.columns.specs.Ends.{ends_from};

use crate::array::{Dictionary, PlacedArray};
use std::alloc::{AllocError, Global};

/// The first arrays of a dictionary: those that existed when an array was read.
#[derive(Clone, Copy)]
pub struct KnownArrays<'a> {
    pub arrays: &'a [PlacedArray],
    pub(crate) ends: &'a [u128],
    pub ghost ended: { ends.now ≡ ends_from 0 arrays.now },
}

impl<'a> KnownArrays<'a> {
    ghost use Rattle.std.specs.Prelude.{[]};

    /// Returns no arrays, for a dictionary that does not exist.
    pub fn none() -> KnownArrays<'a>
        ensures { result.arrays.now ≡ [] }
    {
        KnownArrays {
            arrays: &[],
            ends: &[],
        }
    }
}

impl Dictionary {
    ghost use Rattle.std.specs.Prelude.{◌++◌, [], ◌∷◌, take, OnOk, OnErr};

    /// Returns a dictionary without arrays.
    pub fn new(alloc: Global) -> Dictionary
        ensures { result.arrays.items ≡ [] }
    {
        Dictionary {
            arrays: Vec::new(alloc),
            ends: Vec::new(alloc),
            entries: 0,
        }
    }

    /// Appends an array.
    ///
    /// # Errors
    /// `AllocError` if memory was refused: the arrays are unchanged.
    pub fn push(&mut self, array: PlacedArray) -> Result<(), AllocError>
        ensures longer { OnOk result (self.new.arrays.items ≡ self.old.arrays.items ++ array ∷ []) }
        ensures unchanged { OnErr result (self.new.arrays.items ≡ self.old.arrays.items) }
    {
        let entries = self.entries + array.slots as u128;
        self.ends.reserve(1)?;
        self.arrays.push(array)?;
        self.ends.push_reserved(entries);
        self.entries = entries;
        Ok(())
    }

    /// Returns the first `count` arrays, or all of them if there are fewer.
    pub fn first(&self, count: usize) -> KnownArrays<'_>
        ensures { result.arrays.now ≡ take count self.now.arrays.items }
    {
        let count = count.min(self.arrays.len());
        KnownArrays {
            arrays: &self.arrays[..count],
            ends: &self.ends[..count],
        }
    }
}
