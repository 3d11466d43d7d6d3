// What the entries of a dictionary weigh, as far as that is known before slots are visited.
ghost use Rattle.std.specs.Prelude.{◌≡◌, ◌<◌, true, IfSome, length, get_or};
ghost use Rattle.std.specs.List.{list_all};
ghost use Rattle.arrow_schema.specs.View.{kind_of};
ghost use Rattle.columns.specs.Array.{array_list, dictionary_in};
ghost use Rattle.columns.specs.Offsets.{width_of};
ghost use Rattle.columns.specs.Sound.{is_kind_sound};
ghost use Rattle.columns.specs.View.{view_array};
ghost use Rattle.arrays.specs.inner.EntryWeights.{content_weights};
ghost use Rattle.arrays.specs.inner.Weights.{AreEntryWeights};

use crate::sized_slots::SizedSlots;
use arrow_schema::DataType;
use cells::TOO_HEAVY;
use columns::{ArrayView, contents_width};

/// The weights of the first entries of a dictionary; or the array that has all of its entries, of texts or binaries, whose offsets tell what each weighs.
#[derive(Clone, Copy)]
pub(crate) enum EntryWeights<'a> {
    First(&'a [u64]),
    Sized(SizedSlots<'a>),
}

impl<'a> EntryWeights<'a> {
    ghost use Rattle.arrays.specs.inner.EntryWeights.{weights_in};

    /// Of how many entries they are.
    #[inline]
    pub(crate) fn count(self) -> u64
        ensures { result ≡ length (weights_in self.entry) }
    {
        match self {
            EntryWeights::First(weights) => weights.len() as u64,
            EntryWeights::Sized(slots) => slots.slots() as u64,
        }
    }

    /// What an entry weighs.
    #[inline]
    pub(crate) fn at(self, number: usize) -> u64
        requires { number < length (weights_in self) }
        ensures { result ≡ get_or (weights_in self.entry) number 0 }
    {
        match self {
            EntryWeights::First(weights) => weights[number],
            EntryWeights::Sized(slots) => 1 + slots.size(number).min(TOO_HEAVY - 1),
        }
    }
}

/// The entries of an array's dictionary, where these are texts or binaries in one array.
pub(crate) fn sized_entries<'a>(data_type: &DataType, view: ArrayView<'a>) -> Option<SizedSlots<'a>>
    requires { list_all (is_kind_sound (kind_of data_type.now)) (array_list (dictionary_in (view_array view))) ≡ true }
    ensures { IfSome result (λ slots. AreEntryWeights (kind_of data_type.now) (dictionary_in (view_array view.entry))
        (content_weights (width_of slots.width) (view_array slots.view))) }
{
    match (contents_width(data_type), view.dictionary().arrays) {
        (Some(width), [array]) => {
            let entries = ArrayView {
                array,
                bytes: view.bytes,
                dictionaries: &[],
            };
            Some(SizedSlots::new(width, entries))
        }
        _ => None,
    }
}
