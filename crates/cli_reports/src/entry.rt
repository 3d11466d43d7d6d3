// What the page of refusals says of one code.
use crate::page::{FILE_REFUSALS, TABLE_REFUSALS, refusals_page};
use std::alloc::{AllocError, Global};

// Each entry is an item of a list, and begins with its code.
const ITEM: &str = "\n- ";

// The last section has items too, with the word of each code.
const AFTER_ENTRIES: &str = "\n\n## Words for scripts";

// The code of a refusal that is told without a name.
const OF_MEMORY: &str = "OutOfMemory";

// Returns the text up to a mark, or all of it.
fn before<'a>(text: &'a str, mark: &str) -> &'a str {
    match text.split_once(mark) {
        Some((front, _)) => front,
        None => text,
    }
}

// Returns whether a word is a capital letter and a number.
fn is_numbered(word: &str) -> bool {
    match word.as_bytes() {
        [letter, digits @ ..] => letter.is_ascii_uppercase()
            && !digits.is_empty()
            && digits.iter().all(|digit| digit.is_ascii_digit()),
        _ => false,
    }
}

// Returns the code that an item of the page begins with, if it is an entry.
fn code_of(item: &str) -> Option<&str> {
    let first = before(item, " ");
    let word = first.strip_suffix(':').unwrap_or(first);
    if is_numbered(word) || word == OF_MEMORY {
        Some(word)
    } else {
        None
    }
}

fn is_of(item: &str, code: &str) -> bool {
    matches!(code_of(item), Some(found) if found == code)
}

fn begins_entry(piece: &str, code: &str) -> bool {
    piece.split(ITEM).skip(1).any(|item| is_of(item, code))
}

/// Returns whether the page has an entry for this code.
pub fn has_entry(code: &str) -> bool {
    FILE_REFUSALS.iter().any(|piece| begins_entry(piece, code))
        || TABLE_REFUSALS.iter().any(|piece| begins_entry(piece, code))
}

/// Returns the codes that have an entry on the page, in its order, with a comma and a space between them.
///
/// # Errors
/// `AllocError` if memory is refused.
pub fn codes_with_entries(alloc: Global) -> Result<String, AllocError> {
    let page = refusals_page(alloc)?;
    let mut codes = String::new(alloc);
    for item in before(page.as_str(), AFTER_ENTRIES).split(ITEM).skip(1) {
        if let Some(code) = code_of(item) {
            if !codes.is_empty() {
                codes.push_str(", ")?;
            }
            codes.push_str(code)?;
        }
    }
    Ok(codes)
}

/// Returns the entry of the page for a code, with a line break after it, or an empty text if there is none.
///
/// # Errors
/// `AllocError` if memory is refused.
pub(crate) fn entry_of(alloc: Global, code: &str) -> Result<String, AllocError> {
    let page = refusals_page(alloc)?;
    for item in before(page.as_str(), AFTER_ENTRIES).split(ITEM).skip(1) {
        if is_of(item, code) {
            return format!(in alloc; "{}\n", before(item, "\n\n"));
        }
    }
    Ok(String::new(alloc))
}
