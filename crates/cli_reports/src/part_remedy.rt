// What to do about a text of which a part is refused.
ghost use Rattle.std.specs.Prelude.{◌≡◌};
ghost use Rattle.text_import.specs.Part.{part_of};
ghost use Rattle.cli_reports.specs.PartRemedy.{has_control, field_remedy, line_remedy, part_remedy};

use crate::remedies::{
    ESCAPE_CONTROLS, GIVE_A_NUMBER, ITEMS_OF_A_LINE, ROW_ON_A_LINE, SHORTER_VALUES, WRITE_DIGITS,
    text_remedy,
};
use text_import::{Refusal, RefusedPart};

// Returns whether a line has a control character other than the carriage return that may end it. A string of JSON has none.
fn has_control(line: &[u8]) -> bool
    ensures { result ≡ has_control line.now }
{
    line.iter().any(|byte| *byte < b' ' && *byte != b'\r')
}

// Returns what to do about the text of a field in CSV.
fn field_remedy(text: &[u8], refusal: Refusal) -> &'static str
    ensures { result.now ≡ field_remedy text.now refusal }
{
    match refusal {
        Refusal::NotANumber => {
            if text.is_empty() {
                GIVE_A_NUMBER
            } else {
                WRITE_DIGITS
            }
        }
        _ => text_remedy(refusal),
    }
}

// Returns what to do about a line of JSON Lines.
fn line_remedy(line: &[u8], refusal: Refusal) -> &'static str
    ensures { result.now ≡ line_remedy line.now refusal }
{
    match refusal {
        Refusal::Width => ITEMS_OF_A_LINE,
        Refusal::TooHeavy => SHORTER_VALUES,
        Refusal::Json => {
            if has_control(line) {
                ESCAPE_CONTROLS
            } else {
                ROW_ON_A_LINE
            }
        }
        _ => text_remedy(refusal),
    }
}

/// Returns what to do about a text of which this part is refused, in a sentence.
pub(crate) fn part_remedy(part: &RefusedPart, refusal: Refusal) -> &'static str
    ensures { result.now ≡ part_remedy (part_of part.now) refusal }
{
    match part {
        RefusedPart::Field { text, .. } => field_remedy(text, refusal),
        RefusedPart::Line { text, .. } => line_remedy(text, refusal),
        _ => text_remedy(refusal),
    }
}
