// Splits a script into lines, and each line into words.
ghost use Rattle.std.specs.Prelude.{◌≡◌, ◌==◌, ◌<◌, IfOk, option_map, string_bytes, map};
ghost use Rattle.std.specs.List.{slice_split};
ghost use Rattle.std.specs.Option.{option_and_then, option_copied};
ghost use Rattle.facts.specs.Outcomes.{Reads};
ghost use Rattle.facts.specs.Texts.{text_list};
ghost use Rattle.field_texts.specs.inner.Scan.{cut_at, stripped};
ghost use Rattle.cli_scripts.specs.Words.{is_ended, quoted, after_word, split_word, closed_word, word_at, ReadsWords, HasWords, ends_empty, lines_of, HaveWords};
ghost use Rattle.cli_scripts.specs.Plain.{plain_words};

use std::alloc::{AllocError, Global};
use text_import::text_of;

// Splits a text at the first of these characters, which are ASCII.
fn cut(text: &str, delimiter: char) -> Option<(&str, &str)>
    requires { delimiter < 128 }
    ensures { Reads (λ p. (p.0.now, p.1.now)) result (cut_at delimiter text.now) }
{
    text.split_once(delimiter)
}

fn strip<'a>(text: &'a str, beginning: &str) -> Option<&'a str>
    ensures { Reads (λ rest. rest.now) result (stripped beginning.now text.now) }
{
    text.strip_prefix(beginning)
}

// Returns the word whose opening quotation mark is passed, and what follows the mark that closes it.
fn quoted(alloc: Global, text: &str) -> Result<Option<(String, &str)>, AllocError>
    ensures { IfOk result (λ found. option_map (λ p. (string_bytes p.0, p.1.now)) found ≡ quoted text.now) }
{
    let mut word = String::new(alloc);
    let mut rest = text;
    while let Some((part, after)) = cut(rest, '"') {
        word.push_str(part)?;
        match strip(after, "\"") {
            Some(more) => {
                word.push_str("\"")?;
                rest = more;
            }
            None => return Ok(Some((word, after))),
        }
    }
    Ok(None)
}

#[tactic(auto, unfolding(crate::specs::Words::after_word))]
fn after_word(text: &str) -> Option<Option<&str>>
    ensures { option_map option_copied result ≡ after_word text.now }
{
    if text.is_empty() {
        return Some(None);
    }
    match strip(text, " ") {
        Some(rest) => Some(Some(rest)),
        None => None,
    }
}

fn closed_word<'a>(
    alloc: Global,
    text: &'a str,
) -> Result<Option<(String, Option<&'a str>)>, AllocError>
    ensures { IfOk result (λ found. option_map (λ p. (string_bytes p.0, option_copied p.1)) found ≡ option_and_then closed_word (quoted text.now)) }
{
    let Some((word, after)) = quoted(alloc, text)? else {
        return Ok(None);
    };
    match after_word(after) {
        Some(rest) => Ok(Some((word, rest))),
        None => Ok(None),
    }
}

fn plain_word<'a>(alloc: Global, line: &'a str) -> Result<(String, Option<&'a str>), AllocError>
    ensures { IfOk result (λ p. (string_bytes p.0, option_copied p.1) ≡ split_word line.now (cut_at 32 line.now)) }
{
    match cut(line, ' ') {
        Some((word, rest)) => Ok((String::from_str(alloc, word)?, Some(rest))),
        None => Ok((String::from_str(alloc, line)?, None)),
    }
}

// Returns the first word of a line, and what stands after the space that ends it.
fn first_word<'a>(
    alloc: Global,
    line: &'a str,
) -> Result<Option<(String, Option<&'a str>)>, AllocError>
    ensures { IfOk result (λ found. option_map (λ p. (string_bytes p.0, option_copied p.1)) found ≡ word_at line.now) }
{
    match strip(line, "\"") {
        Some(text) => closed_word(alloc, text),
        None => Ok(Some(plain_word(alloc, line)?)),
    }
}

// Returns the words of a text, or `None` if it has none.
fn words_of(alloc: Global, text: &str) -> Result<Option<Vec<String>>, AllocError>
    ensures { IfOk result (λ found. ReadsWords text.now (plain_words found)) }
{
    let mut words = Vec::new(alloc);
    let mut rest = text;
    'words: loop {
        let Some((word, after)) = first_word(alloc, rest)? else {
            return Ok(None);
        };
        words.push(word)?;
        match after {
            Some(next) => rest = next,
            None => return Ok(Some(words)),
        }
    }
}

fn words_of_line(alloc: Global, line: &[u8]) -> Result<Option<Vec<String>>, AllocError>
    ensures { IfOk result (λ found. HasWords line.now (plain_words found)) }
{
    match text_of(line) {
        Some(text) => words_of(alloc, text),
        None => Ok(None),
    }
}

// Returns the parts of `bytes` before, between and after the bytes `end`.
fn parts_of(alloc: Global, bytes: &[u8], end: u8) -> Result<Vec<&[u8]>, AllocError>
    ensures { IfOk result (λ parts. text_list parts.items ≡ slice_split (λ b. b == end) bytes.now) }
{
    bytes.split(|byte| *byte == end).collect(alloc)
}

fn ends_empty(parts: &[&[u8]]) -> bool
    ensures { result ≡ ends_empty (text_list parts.now) }
{
    match parts.last() {
        Some(last) => last.is_empty(),
        None => false,
    }
}

fn lines_of(alloc: Global, script: &[u8]) -> Result<Vec<&[u8]>, AllocError>
    ensures { IfOk result (λ lines. text_list lines.items ≡ lines_of script.now) }
{
    let mut lines = parts_of(alloc, script, b'\n')?;
    if ends_empty(&lines) {
        lines.pop();
    }
    Ok(lines)
}

/// Returns whether a script has a last line, and this its line feed. If not, the script may be cut off, or what should have written it failed.
pub fn is_ended(script: &[u8]) -> bool
    ensures { result ≡ is_ended script.now }
{
    match script.last() {
        Some(last) => *last == b'\n',
        None => false,
    }
}

/// Returns the words of each line of a script, or `None` for a line that is not UTF-8, has a quotation mark that is not closed, or has something else than
/// a space after the mark that closes a word.
///
/// # Errors
/// `AllocError` if memory is refused.
pub fn script_words(alloc: Global, script: &[u8]) -> Result<Vec<Option<Vec<String>>>, AllocError>
    ensures { IfOk result (λ words. HaveWords (lines_of script.now) (map plain_words words.items)) }
{
    let lines = lines_of(alloc, script)?;
    let mut words = Vec::with_capacity(alloc, lines.len())?;
    for line in &lines {
        words.push(words_of_line(alloc, line)?)?;
    }
    Ok(words)
}
