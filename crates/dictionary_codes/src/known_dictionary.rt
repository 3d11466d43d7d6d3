// What is known of the entries of a dictionary.
ghost use Rattle.std.specs.Prelude.{◌≡◌, true};
ghost use Rattle.dictionary_codes.specs.inner.Codes.{own_entries};
ghost use Rattle.dictionary_codes.specs.inner.Known.{dictionary_entries};

use crate::same_dictionary::{Compared, are_alike, is_same_dictionary};
use crate::stamped_numbers::StampedNumbers;
use arrow_schema::{DataType, Field};
use columns::{ArrayView, KnownArrays};

// How many bytes of a buffer are compared for each entry that the last run of a dictionary was the first to name. Otherwise such an entry is compared by
// itself, at a place that is in no cache.
const BYTES_PER_NAMED: usize = 256;

/// A dictionary of values of a type, and the numbers under which its entries are known.
#[derive(Drop)]
pub(crate) struct KnownDictionary<'a> {
    pub(crate) data_type: &'a DataType,
    pub(crate) bytes: &'a [u8],
    pub(crate) arrays: KnownArrays<'a>,
    pub(crate) numbers: StampedNumbers,
    // How many of its entries the last run of slots was the first to name.
    pub(crate) named: usize,
}

impl<'a> KnownDictionary<'a> {
    /// Returns whether this is known to be the dictionary of an array. No buffer is compared that has more than `most` bytes and `BYTES_PER_NAMED` for each of
    /// the `named` entries.
    pub(crate) fn is_of(&self, field: &Field, array: ArrayView<'_>, most: usize) -> bool
        ensures { result ≡ true → dictionary_entries self.now ≡ own_entries field.now array.entry }
    {
        let for_named = self.named.saturating_mul(BYTES_PER_NAMED);
        let compared = Compared {
            own: self.bytes,
            others: array.bytes,
            most: most.saturating_add(for_named),
        };
        self.data_type.equals(&field.data_type)
            && is_same_dictionary(compared, self.arrays, array.dictionary())
    }

    /// Returns whether this may be the dictionary of an array, by the places of its arrays. No byte is compared.
    pub(crate) fn may_be_of(&self, array: ArrayView<'_>) -> bool {
        are_alike(self.arrays, array.dictionary())
    }
}
