// The line on which a refused record of a CSV text begins, in a sentence for a terminal.
use crate::csv_place::{Place, UTF_8_MARK, next_place};
use cli_reports::Refusal;
use cli_requests::{StoreCommand, StoreRequest};
use std::alloc::Global;
use text_import::TextForm;

// Returns the line, counted from 1, on which a record of a CSV text begins; the header has the number 0. Empty lines are no records.
fn line_of_record(text: &[u8], number: u64) -> Option<u64> {
    let (mut place, mut record, mut line) = (Place::BetweenRecords, 0_u64, 1_u64);
    let mut is_after_return = false;
    for byte in text {
        let is_end = *byte == b'\n' || *byte == b'\r';
        if place == Place::BetweenRecords && !is_end {
            if record == number {
                return Some(line);
            }
            record = record.checked_add(1)?;
        }
        if is_end && !(is_after_return && *byte == b'\n') {
            line = line.checked_add(1)?;
        }
        is_after_return = *byte == b'\r';
        place = next_place(place, *byte);
    }
    None
}

// Returns the line of a record, unless it is the one after the lines of the header and of as many records as precede it.
fn about_record(alloc: Global, text: &[u8], number: u64) -> Option<String> {
    let unmarked = text.strip_prefix(&UTF_8_MARK).unwrap_or(text);
    let line = line_of_record(unmarked, number)?;
    if number == 0 || Some(line) == number.checked_add(1) {
        return None;
    }
    format!(in alloc; "Record {number} begins on line {line}. ").ok()
}

/// Returns on which line the refused record of a CSV text begins, if that is not the one after those of as many records as precede it. `start` are the
/// first bytes of the text.
pub(crate) fn line_of_refused(
    alloc: Global,
    request: &StoreRequest<'_>,
    start: &[u8],
    done: &Result<(), Refusal>,
) -> Option<String> {
    match (request, done) {
        (
            StoreRequest::Command {
                command: StoreCommand::AppendText {
                    form: TextForm::Csv(_),
                    ..
                },
                ..
            },
            Err(Refusal::Text(refused)),
        ) => about_record(alloc, start, refused.number),
        _ => None,
    }
}
