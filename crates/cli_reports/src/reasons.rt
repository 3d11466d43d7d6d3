// Why the system refused a read or a write.
use std::alloc::Global;
use std::io;

/// Returns the error of a call that failed.
pub fn failure_of<T>(done: &io::Result<T>) -> Option<io::Error> {
    match done {
        Ok(_) => None,
        Err(error) => Some(*error),
    }
}

// Strips the error number: `Permission denied (os error 13)` becomes `Permission denied`.
fn without_number(text: &str) -> &str {
    match text.split_once(" (") {
        Some((words, _)) => words,
        None => text,
    }
}

/// Returns the system's text for an error, without its number, or `None` if memory is refused.
pub fn system_text(alloc: Global, error: &io::Error) -> Option<String> {
    let text = format!(in alloc; "{error}").ok()?;
    String::from_str(alloc, without_number(text.as_str())).ok()
}
