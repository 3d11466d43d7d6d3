// Reads a refused script once more, to show the refused line on a terminal.
use crate::about_words::about_line;
use crate::asking_again::{AskedAgain, Served};
use crate::kept_start::MOST_KEPT;
use crate::streams_again::FoundOfStreams;
use cli_commands::lacks_end;
use cli_reports::{FailedFile, FileReason};
use cli_requests::StoreRequest;
use cli_scripts::{ScriptLine, line_of, script_words};
use std::alloc::Global;
use std::fs;
use std::rt::Files;

// A pipe can't be read twice.
fn read_again<H: Files + AllocGlobal>(rt: &H, path: &str) -> Option<Vec<u8>> {
    let found = fs::metadata(rt, path).ok()?;
    if found.is_file() {
        fs::read(rt, path).ok()
    } else {
        None
    }
}

// Returns the path of the script.
fn script_of<'a>(request: &StoreRequest<'a>) -> Option<&'a str> {
    match request {
        StoreRequest::Replay(words) => Some(words.script),
        StoreRequest::Apply { script, .. } => Some(script),
        _ => None,
    }
}

// Only `apply` takes a script from the input.
fn is_input(request: &StoreRequest<'_>) -> bool {
    match request {
        StoreRequest::Apply { script, .. } => *script == "-",
        _ => false,
    }
}

/// A refused line of a script.
#[derive(Drop)]
pub(crate) struct RefusedLine {
    pub(crate) text: Vec<u8>,
    /// The script is one of `apply`.
    is_applied: bool,
    /// It is the last line, and lacks its line feed.
    lacks_line_feed: bool,
}

impl RefusedLine {
    /// Returns what is wrong with the line, in sentences.
    pub(crate) fn about(&self, alloc: Global) -> Option<String> {
        let mut text = about_line(alloc, &self.text, self.is_applied).unwrap_or(String::new(alloc));
        // Only `apply` needs it.
        if self.is_applied && self.lacks_line_feed {
            text.push_str("The last line has no line feed at its end: the script may be cut off. ")
                .ok()?;
        }
        Some(text)
    }
}

// Returns a line, counted from 1. The last line of a text that may go on is none.
fn line_at(
    alloc: Global,
    text: &[u8],
    number: u64,
    is_applied: bool,
    may_go_on: bool,
) -> Option<AskedAgain> {
    let place = usize::try_from(number).ok()?.checked_sub(1)?;
    let mut lines = text.split(|byte| *byte == b'\n');
    let line = lines.nth(place)?;
    let is_last = lines.next().is_none();
    if is_last && may_go_on {
        return None;
    }
    Some(AskedAgain::Line(RefusedLine {
        text: Vec::from_slice(alloc, line).ok()?,
        is_applied,
        lacks_line_feed: is_last,
    }))
}

fn found_in_input(alloc: Global, served: Served<'_>, number: u64) -> Option<AskedAgain> {
    if served.is_input_empty {
        return Some(AskedAgain::Streams(FoundOfStreams::Empty));
    }
    let start = served.start;
    line_at(alloc, start, number, true, start.len() == MOST_KEPT)
}

/// Returns what is refused of the script that the request names: a line, counted from 1, of its file, or of the bytes at the start of the input that were
/// kept; or that `apply` was given an empty script.
pub(crate) fn found_in_script<H: Files + AllocGlobal>(
    rt: &H,
    request: &StoreRequest<'_>,
    served: Served<'_>,
    number: u64,
) -> Option<AskedAgain> {
    if is_input(request) {
        return found_in_input(rt.alloc(), served, number);
    }
    let path = script_of(request)?;
    let script = read_again(rt, path)?;
    let is_applied = matches!(request, StoreRequest::Apply { .. });
    if is_applied && script.is_empty() {
        let file = FailedFile::new(rt.alloc(), path, FileReason::Empty)?;
        return Some(AskedAgain::File(file));
    }
    line_at(rt.alloc(), &script, number, is_applied, false)
}

// Returns the script that the request names, if all of it is there once more.
fn whole_script<H: Files + AllocGlobal>(
    rt: &H,
    request: &StoreRequest<'_>,
    served: Served<'_>,
) -> Option<Vec<u8>> {
    if !is_input(request) {
        return read_again(rt, script_of(request)?);
    }
    if served.start.len() == MOST_KEPT {
        return None;
    }
    Vec::from_slice(rt.alloc(), served.start).ok()
}

// Returns the file of a line whose stream is to be complete.
fn complete_file<'a>(line: &ScriptLine<'a>) -> Option<&'a str> {
    match line {
        ScriptLine::Import {
            file,
            is_complete: true,
            ..
        }
        | ScriptLine::Append {
            file,
            is_complete: true,
            ..
        } => Some(file),
        _ => None,
    }
}

// Returns whether these words name a stream that is to be complete, and that lacks its end.
fn names_unended_stream<H: Files + AllocGlobal>(rt: &H, words: &[String]) -> Option<bool> {
    let alloc = rt.alloc();
    let texts: Vec<&str> = words.iter().map(|word| word.as_str()).collect(alloc).ok()?;
    let line = line_of(alloc, &texts).ok()??;
    match complete_file(&line) {
        Some(path) => Some(lacks_end(&read_again(rt, path)?)),
        None => Some(false),
    }
}

/// Returns the first line of the script that the request names whose stream is to be complete and lacks its end.
pub(crate) fn line_without_end<H: Files + AllocGlobal>(
    rt: &H,
    request: &StoreRequest<'_>,
    served: Served<'_>,
) -> Option<AskedAgain> {
    let script = whole_script(rt, request, served)?;
    let lines = script_words(rt.alloc(), &script).ok()?;
    for (place, line) in lines.iter().enumerate() {
        let words = line.as_ref()?;
        if names_unended_stream(rt, words)? {
            return found_in_script(rt, request, served, place as u64 + 1);
        }
    }
    None
}
