// What of the literal of a condition may not have been meant.
use cli_reports::LiteralForm;

// SQL and JSON have texts in such marks.
fn is_marked(literal: &str) -> bool {
    match literal.as_bytes() {
        [first @ (b'\'' | b'"'), .., last] => first == last,
        _ => false,
    }
}

/// Returns the literal of a condition, if it has one: what follows the operator and one space.
pub(crate) fn literal_of(condition: &str) -> Option<&str> {
    let (_, test) = condition.split_once(' ')?;
    let (operator, literal) = test.split_once(' ')?;
    if operator == "is" {
        None
    } else {
        Some(literal)
    }
}

/// Returns what of a literal may not have been meant.
pub(crate) fn literal_form(literal: &str) -> Option<LiteralForm> {
    if is_marked(literal) {
        Some(LiteralForm::Marked)
    } else if literal.starts_with(' ') || literal.ends_with(' ') {
        Some(LiteralForm::Spaced)
    } else if literal.eq_ignore_ascii_case("null") {
        Some(LiteralForm::Null)
    } else if literal.contains(" and ") || literal.contains(" AND ") {
        Some(LiteralForm::Joined)
    } else {
        None
    }
}
