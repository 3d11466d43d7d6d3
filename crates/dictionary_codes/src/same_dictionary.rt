// Whether two dictionaries are equal, by the bytes of their arrays.
ghost use Rattle.std.specs.Prelude.{◌≡◌, true};
ghost use Rattle.dictionary_codes.specs.inner.Same.{IsSameArray, IsSameLayout};
ghost use Rattle.columns.specs.Places.{within};
ghost use Rattle.columns.specs.View.{placed_dictionary};

use columns::{KnownArrays, PlacedArray, PlacedLayout, Span, bytes_at};

// Dictionaries of more arrays than this are not compared.
const MOST_ARRAYS: usize = 16;

/// The bytes in which the buffers of two dictionaries are, and up to how many bytes a buffer is compared.
#[derive(Clone, Copy)]
pub struct Compared<'a> {
    pub own: &'a [u8],
    pub others: &'a [u8],
    pub most: usize,
}

fn is_same_span(bytes: Compared<'_>, a: Span, b: Span) -> bool
    ensures { result ≡ true → within bytes.entry.own.now a ≡ within bytes.entry.others.now b }
{
    a.len <= bytes.most && bytes_at(bytes.own, a) == bytes_at(bytes.others, b)
}

fn is_same_layout(bytes: Compared<'_>, a: &PlacedLayout, b: &PlacedLayout) -> bool
    ensures { result ≡ true → IsSameLayout bytes.entry.own.now a.now bytes.entry.others.now b.now }
{
    match (a, b) {
        (PlacedLayout::Null, PlacedLayout::Null) => true,
        (PlacedLayout::Bits(a), PlacedLayout::Bits(b)) => is_same_span(bytes, *a, *b),
        (PlacedLayout::Fixed(a), PlacedLayout::Fixed(b)) => is_same_span(bytes, *a, *b),
        (PlacedLayout::Binary(a, contents), PlacedLayout::Binary(b, others)) => {
            is_same_span(bytes, *contents, *others) && is_same_span(bytes, *a, *b)
        }
        _ => false,
    }
}

// Returns whether two arrays of a flat type are equal.
fn is_same_array(bytes: Compared<'_>, a: &PlacedArray, b: &PlacedArray) -> bool
    ensures { result ≡ true → IsSameArray bytes.entry.own.now a.now bytes.entry.others.now b.now }
{
    a.slots == b.slots
        && is_same_span(bytes, a.validity, b.validity)
        && is_same_layout(bytes, &a.layout, &b.layout)
}

fn is_at(a: Span, b: Span) -> bool {
    a.start == b.start && a.len == b.len
}

// Returns whether the values of two arrays are at the same places, each in its own bytes.
fn is_alike(a: &PlacedArray, b: &PlacedArray) -> bool {
    match (&a.layout, &b.layout) {
        (PlacedLayout::Bits(a), PlacedLayout::Bits(b)) => is_at(*a, *b),
        (PlacedLayout::Fixed(a), PlacedLayout::Fixed(b)) => is_at(*a, *b),
        (PlacedLayout::Binary(a, contents), PlacedLayout::Binary(b, others)) => {
            is_at(*a, *b) && is_at(*contents, *others)
        }
        _ => false,
    }
}

/// Returns whether the values of two dictionaries are at the same places, each in its own bytes.
pub(crate) fn are_alike(own: KnownArrays<'_>, others: KnownArrays<'_>) -> bool {
    if own.arrays.len() != others.arrays.len() {
        return false;
    }
    for (i, array) in own.arrays.iter().enumerate() {
        if !is_alike(array, &others.arrays[i]) {
            return false;
        }
    }
    true
}

/// Returns whether two dictionaries are known to be equal. Large ones are not compared.
pub fn is_same_dictionary(
    bytes: Compared<'_>,
    own: KnownArrays<'_>,
    others: KnownArrays<'_>,
) -> bool
    ensures { result ≡ true
        → placed_dictionary bytes.entry.others.now others.entry.arrays.now ≡ placed_dictionary bytes.entry.own.now own.entry.arrays.now }
{
    if own.arrays.len() != others.arrays.len() || own.arrays.len() > MOST_ARRAYS {
        return false;
    }
    for (i, array) in own.arrays.iter().enumerate() {
        if !is_same_array(bytes, array, &others.arrays[i]) {
            return false;
        }
    }
    true
}
