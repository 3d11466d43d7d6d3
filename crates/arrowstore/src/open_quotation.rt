// The quotation that a CSV text ends within.
use crate::csv_place::{Place, UTF_8_MARK, next_place};
use std::convert::AsStr;

/// Follows a CSV text, and knows on which line the last quotation begins.
#[derive(Clone, Copy)]
pub(crate) struct QuotationWatch {
    place: Place,
    // The number of the line of the next byte, counted from 1.
    line: u64,
    begun: u64,
    is_after_return: bool,
    // How many bytes of a byte order mark the text begins with; more than it has once anything else was read.
    mark: usize,
}

impl QuotationWatch {
    pub(crate) fn new() -> QuotationWatch {
        QuotationWatch {
            place: Place::BetweenRecords,
            line: 1,
            begun: 1,
            is_after_return: false,
            mark: 0,
        }
    }

    /// Goes on with the next bytes of the text.
    pub(crate) fn follow(&mut self, bytes: &[u8]) {
        for byte in bytes {
            self.take(*byte);
            self.pass_mark(*byte);
        }
    }

    fn take(&mut self, byte: u8) {
        let next = next_place(self.place, byte);
        if next == Place::InQuotationMarks
            && !matches!(
                self.place,
                Place::InQuotationMarks | Place::AfterQuotationMark
            )
        {
            self.begun = self.line;
        }
        let is_end = byte == b'\n' || byte == b'\r';
        if is_end && !(self.is_after_return && byte == b'\n') {
            self.line = self.line.saturating_add(1);
        }
        self.is_after_return = byte == b'\r';
        self.place = next;
    }

    // Begins the first record anew behind a byte order mark.
    fn pass_mark(&mut self, byte: u8) {
        self.mark = match UTF_8_MARK.get(self.mark) {
            Some(wanted) if *wanted == byte => self.mark.saturating_add(1),
            _ => UTF_8_MARK.len() + 1,
        };
        if self.mark == UTF_8_MARK.len() {
            self.place = Place::BetweenRecords;
        }
    }

    /// Returns the line, counted from 1, on which the quotation begins that the text so far ends within.
    pub(crate) fn open_line(self) -> Option<u64> {
        if self.place == Place::InQuotationMarks {
            Some(self.begun)
        } else {
            None
        }
    }
}

/// Returns whether these arguments may state that the input is CSV: others are not worth a look at each byte.
pub fn asks_csv<S: AsStr>(arguments: &[S]) -> bool {
    arguments
        .iter()
        .any(|argument| matches!(argument.as_str(), "csv" | "--as=csv"))
}
