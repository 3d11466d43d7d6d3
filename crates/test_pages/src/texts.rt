// The texts of a list, of a root and of a page, with and without digests (catalogue). The bytes were written by hand according to
// docs/formats/store.md.
use arrow_schema::{BitWidth, DataType, Schema};
use catalogue::{
    Catalogue, DecodeError, RootEntry, Segment, SegmentForm, TableEntry, decode, decode_page,
    decode_root, encode,
};
use std::alloc::{AllocError, Global};

/// Four tables with pages of 160 bytes each, in the sectors 2, 4, 5 and 6.
const ROOT: [u8; 120] = [
    0x04, 0x00, 0x00, 0x00, 0x01, 0x00, 0x00, 0x00, 0x74, 0x02, 0x00, 0x00, 0x00, 0x00, 0x00, 0x00,
    0x00, 0x01, 0x00, 0x00, 0x00, 0x00, 0x00, 0x00, 0x00, 0xa0, 0x00, 0x00, 0x00, 0x00, 0x00, 0x00,
    0x00, 0x01, 0x00, 0x00, 0x00, 0x75, 0x04, 0x00, 0x00, 0x00, 0x00, 0x00, 0x00, 0x00, 0x01, 0x00,
    0x00, 0x00, 0x00, 0x00, 0x00, 0x00, 0xa0, 0x00, 0x00, 0x00, 0x00, 0x00, 0x00, 0x00, 0x01, 0x00,
    0x00, 0x00, 0x76, 0x05, 0x00, 0x00, 0x00, 0x00, 0x00, 0x00, 0x00, 0x01, 0x00, 0x00, 0x00, 0x00,
    0x00, 0x00, 0x00, 0xa0, 0x00, 0x00, 0x00, 0x00, 0x00, 0x00, 0x00, 0x01, 0x00, 0x00, 0x00, 0x77,
    0x06, 0x00, 0x00, 0x00, 0x00, 0x00, 0x00, 0x00, 0x01, 0x00, 0x00, 0x00, 0x00, 0x00, 0x00, 0x00,
    0xa0, 0x00, 0x00, 0x00, 0x00, 0x00, 0x00, 0x00,
];

const NAMES: &[&str] = &["t", "u", "v", "w"];

const STARTS: &[u64] = &[2, 4, 5, 6];

/// A table with one column, a nullable Int32 named `a`, and one segment: 2 rows in 328 bytes, in sector 3.
const PAGE: [u8; 192] = [
    0x98, 0x00, 0x00, 0x00, 0xff, 0xff, 0xff, 0xff, 0x90, 0x00, 0x00, 0x00, 0x10, 0x00, 0x00, 0x00,
    0x0c, 0x00, 0x18, 0x00, 0x04, 0x00, 0x06, 0x00, 0x08, 0x00, 0x10, 0x00, 0x0c, 0x00, 0x00, 0x00,
    0x04, 0x00, 0x01, 0x00, 0x18, 0x00, 0x00, 0x00, 0x00, 0x00, 0x00, 0x00, 0x00, 0x00, 0x00, 0x00,
    0x00, 0x00, 0x00, 0x00, 0x08, 0x00, 0x0c, 0x00, 0x04, 0x00, 0x08, 0x00, 0x08, 0x00, 0x00, 0x00,
    0x00, 0x00, 0x00, 0x00, 0x04, 0x00, 0x00, 0x00, 0x01, 0x00, 0x00, 0x00, 0x18, 0x00, 0x00, 0x00,
    0x00, 0x00, 0x00, 0x00, 0x10, 0x00, 0x14, 0x00, 0x04, 0x00, 0x08, 0x00, 0x09, 0x00, 0x0c, 0x00,
    0x00, 0x00, 0x10, 0x00, 0x10, 0x00, 0x00, 0x00, 0x10, 0x00, 0x00, 0x00, 0x01, 0x02, 0x00, 0x00,
    0x1c, 0x00, 0x00, 0x00, 0x24, 0x00, 0x00, 0x00, 0x01, 0x00, 0x00, 0x00, 0x61, 0x00, 0x00, 0x00,
    0x00, 0x00, 0x00, 0x00, 0x08, 0x00, 0x0c, 0x00, 0x04, 0x00, 0x08, 0x00, 0x08, 0x00, 0x00, 0x00,
    0x20, 0x00, 0x00, 0x00, 0x01, 0x00, 0x00, 0x00, 0x00, 0x00, 0x00, 0x00, 0x01, 0x00, 0x00, 0x00,
    0x03, 0x00, 0x00, 0x00, 0x00, 0x00, 0x00, 0x00, 0x01, 0x00, 0x00, 0x00, 0x00, 0x00, 0x00, 0x00,
    0x48, 0x01, 0x00, 0x00, 0x00, 0x00, 0x00, 0x00, 0x02, 0x00, 0x00, 0x00, 0x00, 0x00, 0x00, 0x00,
];

/// The bytes of a list of the table `t` before the text of its page: one table, and the name.
const ONE_NAMED_T: [u8; 9] = [0x01, 0x00, 0x00, 0x00, 0x01, 0x00, 0x00, 0x00, 0x74];

/// The digest of the segment, after its rows.
const DIGEST: [u8; 32] = [
    0x01, 0x02, 0x03, 0x04, 0x05, 0x06, 0x07, 0x08, 0x09, 0x0a, 0x0b, 0x0c, 0x0d, 0x0e, 0x0f, 0x10,
    0x11, 0x12, 0x13, 0x14, 0x15, 0x16, 0x17, 0x18, 0x19, 0x1a, 0x1b, 0x1c, 0x1d, 0x1e, 0x1f, 0x20,
];

/// The bytes of the page that may have another value: whether the column is nullable, its name, whether its integers are signed, the first sector of
/// the segment, and the lower two of the eight bytes of its size and of its rows.
const FREE: &[usize] = &[
    108, 124, 148, 160, 161, 162, 163, 164, 165, 166, 167, 176, 177, 184, 185,
];

/// Memory was refused.
#[derive(Clone, Copy)]
struct NotMade;

/// The result of reading a text.
#[derive(Clone, Copy, PartialEq, Eq)]
enum Seen {
    Same,
    Other,
    Refused,
}

fn is_entry(entry: &RootEntry<'_>, place: usize) -> bool {
    let (name, start) = (NAMES.get(place), STARTS.get(place));
    let page = entry.page;
    name.is_some_and(|name| entry.name == *name)
        && start == Some(&page.run.start)
        && page.run.count == 1
        && page.bytes == 160
}

fn are_four(entries: &[RootEntry<'_>]) -> bool {
    for (place, entry) in entries.iter().enumerate() {
        if !is_entry(entry, place) {
            return false;
        }
    }
    entries.len() == 4
}

fn seen_root(alloc: Global, bytes: &[u8]) -> Result<Seen, NotMade> {
    match decode_root(alloc, bytes) {
        Ok(entries) if are_four(&entries) => Ok(Seen::Same),
        Ok(_) => Ok(Seen::Other),
        Err(DecodeError::NoText) => Ok(Seen::Refused),
        Err(DecodeError::OutOfMemory) => Err(NotMade),
    }
}

// Returns whether the segment has the digest of a text in this form.
fn has_digest(segment: &Segment, form: SegmentForm) -> bool {
    match (form, segment.digest) {
        (SegmentForm::Bare, None) => true,
        (SegmentForm::Digested, Some(digest)) => digest == DIGEST,
        _ => false,
    }
}

fn is_one_segment(segments: &[Segment], form: SegmentForm) -> bool {
    match segments {
        [segment] => {
            let place = segment.place;
            let numbers = (place.run.start, place.run.count, place.bytes, segment.rows);
            numbers == (3, 1, 328, 2) && has_digest(segment, form)
        }
        _ => false,
    }
}

fn is_signed(data_type: &DataType) -> bool {
    match data_type {
        DataType::Int(integer) => integer.signed && integer.width == BitWidth::ThirtyTwo,
        _ => false,
    }
}

fn is_one_column(schema: &Schema) -> bool {
    match schema.fields.as_slice() {
        [field] => { field.name.as_str() == "a" && field.nullable && is_signed(&field.data_type) }
        _ => false,
    }
}

fn is_one_table(schema: &Schema, segments: &[Segment], form: SegmentForm) -> bool {
    is_one_column(schema) && is_one_segment(segments, form)
}

fn seen_formed(alloc: Global, form: SegmentForm, most: u64, bytes: &[u8]) -> Result<Seen, NotMade> {
    match decode_page(alloc, form, most, bytes) {
        Ok((schema, segments)) => {
            let is_same = is_one_table(&schema, &segments, form);
            Ok(if is_same { Seen::Same } else { Seen::Other })
        }
        Err(DecodeError::NoText) => Ok(Seen::Refused),
        Err(DecodeError::OutOfMemory) => Err(NotMade),
    }
}

fn seen_page(alloc: Global, most: u64, bytes: &[u8]) -> Result<Seen, NotMade> {
    seen_formed(alloc, SegmentForm::Bare, most, bytes)
}

// Returns the bytes with a different one at this place.
fn other(alloc: Global, bytes: &[u8], place: usize) -> Result<Vec<u8>, NotMade> {
    let mut other = Vec::from_slice(alloc, bytes)?;
    if let Some(byte) = other.get_mut(place) {
        *byte ^= 1;
    }
    Ok(other)
}

// Only the numbers of a page in a root may change: the count, the lengths and the names, which ascend, may not.
fn wanted_of_root(place: usize) -> Seen {
    if place >= 4 && (place - 4) % 29 >= 5 {
        Seen::Other
    } else {
        Seen::Refused
    }
}

fn wanted_of_page(place: usize) -> Seen {
    if FREE.contains(&place) {
        Seen::Other
    } else {
        Seen::Refused
    }
}

// Returns the first byte of the root whose change has the wrong result.
fn wrong_in_root(alloc: Global) -> Result<Option<usize>, NotMade> {
    for place in 0..ROOT.len() {
        if seen_root(alloc, &other(alloc, &ROOT, place)?)? != wanted_of_root(place) {
            return Ok(Some(place));
        }
    }
    Ok(None)
}

fn wrong_in_page(alloc: Global) -> Result<Option<usize>, NotMade> {
    for place in 0..PAGE.len() {
        if seen_page(alloc, 1, &other(alloc, &PAGE, place)?)? != wanted_of_page(place) {
            return Ok(Some(place));
        }
    }
    Ok(None)
}

// A text that is cut or has an extra byte must be refused.
fn wrong_cut(alloc: Global) -> Result<Option<usize>, NotMade> {
    for end in 0..ROOT.len() {
        if seen_root(alloc, &ROOT[..end])? != Seen::Refused {
            return Ok(Some(end));
        }
    }
    for end in 0..PAGE.len() {
        if seen_page(alloc, 1, &PAGE[..end])? != Seen::Refused {
            return Ok(Some(end));
        }
    }
    Ok(None)
}

fn are_read(alloc: Global) -> Result<bool, NotMade> {
    let root = seen_root(alloc, &ROOT)? == Seen::Same;
    let page = seen_page(alloc, 1, &PAGE)? == Seen::Same;
    let full = seen_page(alloc, 0, &PAGE)? == Seen::Refused;
    Ok(root && page && full)
}

fn no_place(wrong: Result<Option<usize>, NotMade>) -> bool {
    matches!(wrong, Ok(None))
}

#[test]
fn a_root_and_a_page_are_read(rt: HostRuntime) {
    assert!(rt; matches!(are_read(rt.alloc()), Ok(true)));
}

/// A text of the table with this digest after its rows, and the result of reading it in this form.
struct FormCase {
    digest: &'static [u8],
    form: SegmentForm,
    bytes: usize,
    wanted: Seen,
}

const FORMS: &[FormCase] = &[
    FormCase {
        digest: &[],
        form: SegmentForm::Bare,
        bytes: 201,
        wanted: Seen::Same,
    },
    FormCase {
        digest: &[],
        form: SegmentForm::Digested,
        bytes: 201,
        wanted: Seen::Refused,
    },
    FormCase {
        digest: &DIGEST,
        form: SegmentForm::Bare,
        bytes: 233,
        wanted: Seen::Refused,
    },
    FormCase {
        digest: &DIGEST,
        form: SegmentForm::Digested,
        bytes: 233,
        wanted: Seen::Same,
    },
];

fn is_table_t(entries: &[TableEntry], form: SegmentForm) -> bool {
    match entries {
        [entry] => { entry.name() == "t" && is_one_table(entry.schema(), entry.segments(), form) }
        _ => false,
    }
}

// Returns `Same` if the list has the table and is encoded as the bytes it was read from.
fn seen_again(
    alloc: Global,
    list: &Catalogue,
    form: SegmentForm,
    bytes: &[u8],
) -> Result<Seen, NotMade> {
    let again = encode(alloc, list)?;
    if is_table_t(list.entries(), form) && again.as_slice() == bytes {
        Ok(Seen::Same)
    } else {
        Ok(Seen::Other)
    }
}

fn seen_list(alloc: Global, form: SegmentForm, bytes: &[u8]) -> Result<Seen, NotMade> {
    match decode(alloc, form, bytes) {
        Ok(list) => seen_again(alloc, &list, form, bytes),
        Err(DecodeError::NoText) => Ok(Seen::Refused),
        Err(DecodeError::OutOfMemory) => Err(NotMade),
    }
}

fn is_as_wanted(alloc: Global, case: &FormCase) -> Result<bool, NotMade> {
    let mut page = Vec::from_slice(alloc, &PAGE)?;
    page.extend_from_slice(case.digest)?;
    let mut list = Vec::from_slice(alloc, &ONE_NAMED_T)?;
    list.extend_from_slice(&page)?;
    let seen = (
        seen_formed(alloc, case.form, 1, &page)?,
        seen_list(alloc, case.form, &list)?,
    );
    Ok(seen == (case.wanted, case.wanted) && list.len() == case.bytes)
}

// Returns the first case with the wrong result.
fn wrong_form(alloc: Global) -> Result<Option<usize>, NotMade> {
    for (place, case) in FORMS.iter().enumerate() {
        if !is_as_wanted(alloc, case)? {
            return Ok(Some(place));
        }
    }
    Ok(None)
}

#[test]
fn texts_are_read_in_the_form_that_they_have(rt: HostRuntime) {
    assert!(rt; no_place(wrong_form(rt.alloc())));
}

#[test]
fn each_byte_of_a_root_is_read(rt: HostRuntime) {
    assert!(rt; no_place(wrong_in_root(rt.alloc())));
}

#[test]
fn each_byte_of_a_page_is_read(rt: HostRuntime) {
    assert!(rt; no_place(wrong_in_page(rt.alloc())));
}

#[test]
fn texts_that_are_cut_are_refused(rt: HostRuntime) {
    assert!(rt; no_place(wrong_cut(rt.alloc())));
}

impl From<AllocError> for NotMade {
    fn from(_: AllocError) -> Self {
        NotMade
    }
}
