// Arrays described by the places of their buffers.
ghost use Rattle.std.specs.Prelude.{◌≡◌, ◌≤◌, ◌*◌, ◌^◌, length};
ghost use Rattle.columns.specs.Ends.{entry_count, ends_from};

use crate::span::Span;

/// An array, described by the places of its buffers in bytes that are kept elsewhere. It stays valid when bytes are appended to them.
#[derive(Debug, Drop)]
#[cycle(array)]
pub struct PlacedArray {
    pub slots: usize,
    pub validity: Span,
    pub layout: PlacedLayout,
}

/// The layout of an array with its buffers and children (Arrow columnar format, "Physical Memory Layout").
#[derive(Debug, Drop)]
#[cycle(array)]
pub enum PlacedLayout {
    Null,
    Bits(Span),
    Fixed(Span),
    Binary(Span, Span),
    List(Span, Box<PlacedArray>),
    FixedList(Box<PlacedArray>),
    Struct(Vec<PlacedArray>),
    Dictionary(Span, DictionaryPart),
}

/// The dictionary of an array: its number, and how many of its arrays existed when the array was read.
#[derive(Clone, Copy, Debug)]
pub struct DictionaryPart {
    pub number: usize,
    pub count: usize,
}

/// The arrays of a dictionary: the one of its first batch, followed by those of its delta batches. The running entry count at the end of each array
/// is kept, so that an entry is found by binary search.
#[derive(Debug, Drop)]
pub struct Dictionary {
    pub arrays: Vec<PlacedArray>,
    pub(crate) ends: Vec<u128>,
    pub(crate) entries: u128,
    pub ghost counted: { entries ≡ entry_count arrays.items },
    pub ghost ended: { ends.items ≡ ends_from 0 arrays.items },
    pub ghost few: { entries ≤ length arrays.items * 2 ^ 64 },
}
