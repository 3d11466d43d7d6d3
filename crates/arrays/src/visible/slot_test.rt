// What is asked of each visible slot.

/// A test of a slot, by what it finds.
#[derive(Clone, Copy)]
pub(crate) enum SlotTest {
    // F26: it is valid, and its index names no entry
    NoEntry,
    // F15: its text is not UTF-8
    NotUtf8,
    // F23: it is a null, in a column that takes none
    Forbidden,
}
