// Why a store is damaged.

/// Why a store is damaged, in the order of the tests that opening makes.
#[derive(Clone, Copy, Debug, PartialEq, Eq)]
pub enum Cause {
    /// The device has a number of sectors that differs from the commit's, or that no store has.
    DeviceSize,
    /// The catalogue's run lies outside the device, or its number of sectors is not what its bytes need.
    CatalogueRange,
    /// A sector of the catalogue can't be read.
    CatalogueUnreadable,
    /// The catalogue's bytes are not the text of a catalogue.
    CatalogueText,
    /// A run that the catalogue names lies outside the device.
    RunRange,
    /// Two runs share a sector.
    RunOverlap,
}
