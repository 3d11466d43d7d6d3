use crate::view::ArrayView;

/// A run of consecutive slots of an array, or a number of nulls.
#[derive(Clone, Copy)]
pub enum SlotRun<'a> {
    Slots {
        array: ArrayView<'a>,
        from: usize,
        len: usize,
    },
    Nulls(usize),
}
