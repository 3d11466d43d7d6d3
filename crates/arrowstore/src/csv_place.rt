// Where a byte of a CSV text stands: as `csv` reads a text (RFC 4180; commas, double quotes), which `text_import` takes its records from.

/// A text may begin with this mark, which is no part of its first record.
pub(crate) const UTF_8_MARK: [u8; 3] = [0xef, 0xbb, 0xbf];

/// Where a byte of a CSV text stands.
#[derive(Clone, Copy, PartialEq, Eq)]
pub(crate) enum Place {
    BetweenRecords,
    BeforeField,
    InField,
    InQuotationMarks,
    AfterQuotationMark,
}

/// Returns where the byte after this one stands.
pub(crate) fn next_place(place: Place, byte: u8) -> Place {
    match (place, byte) {
        (Place::InQuotationMarks, b'"') => Place::AfterQuotationMark,
        (Place::InQuotationMarks, _) => Place::InQuotationMarks,
        (Place::AfterQuotationMark | Place::BeforeField | Place::BetweenRecords, b'"') => {
            Place::InQuotationMarks
        }
        (_, b',') => Place::BeforeField,
        (_, b'\n' | b'\r') => Place::BetweenRecords,
        _ => Place::InField,
    }
}
