// A reader of the tokens of a line of JSON.
ghost use Rattle.std.specs.Prelude.{◌≡◌, ◌∷◌, [], true, option_map, Some, IfOk, IfSome};
ghost use Rattle.std.specs.Bool.{MatchBool};
ghost use Rattle.json.specs.Json.{after_end_array, read_key};
ghost use Rattle.json.specs.Lex.{tokens};
ghost use Rattle.json.specs.Reads.{token_of};

use crate::plain_reader::PlainReader;
use json::{Invalid, Reader, Scratch, Token};
use memchr::memchr;
use std::alloc::AllocError;
use std::marker::Model;

// A line is read in place, unless something in it is escaped.
#[derive(Drop)]
pub(crate) enum Source<'a> {
    Plain(PlainReader<'a>),
    Escaped(Reader<'a>),
}

/// A reader of the tokens of a line. Clauses see the tokens that are left.
#[derive(Drop)]
pub(crate) struct LineReader<'a> {
    source: Source<'a>,
}

impl<'a> Model for LineReader<'a> {
    ghost use Rattle.std.specs.Prelude.{List};
    ghost use Rattle.json.specs.Token.{Token as SpecToken, tokens_code};
    ghost use Rattle.text_columns.specs.inner.Sources.{source_tokens};

    ghost Value = { List SpecToken };

    ghost coded = { tokens_code };

    ghost view = { λ a. source_tokens a.source };
}

/// Returns whether a text has a backslash.
pub(crate) fn has_escape(text: &str) -> bool {
    memchr(b'\\', text.as_bytes()).is_some()
}

impl<'a> LineReader<'a> {
    /// Begins to read a line. A string in which something is escaped is written to `scratch`, and any other is borrowed from the line. `escapes` is whether
    /// anything can be escaped.
    #[inline(always)]
    pub(crate) fn new(
        line: &'a str,
        scratch: &'a mut Scratch,
        escapes: bool,
    ) -> Result<LineReader<'a>, AllocError>
        ensures { IfOk result (λ reader. reader ≡ tokens line.now) }
    {
        if !escapes || !has_escape(line) {
            let source = Source::Plain(PlainReader::new(line));
            return Ok(LineReader { source });
        }
        let source = Source::Escaped(Reader::new(line, scratch)?);
        Ok(LineReader { source })
    }

    /// Returns the next token; `None` if no value begins with it.
    #[inline(always)]
    pub(crate) fn next(&mut self) -> Option<Token<'a>>
        ensures value { IfSome result (λ t. self.old ≡ token_of t ∷ self.new) }
    {
        match &mut self.source {
            Source::Plain(reader) => reader.next(),
            Source::Escaped(reader) => reader.next(),
        }
    }

    /// Returns the next key; `None` at the brace that closes an object.
    #[inline(always)]
    pub(crate) fn next_key(&mut self) -> Result<Option<&'a str>, Invalid>
        ensures value { IfOk result (λ k. read_key self.old ≡ Some (option_map (λ s. s.now) k, self.new)) }
    {
        match &mut self.source {
            Source::Plain(reader) => reader.next_key(),
            Source::Escaped(reader) => reader.next_key(),
        }
    }

    /// Takes the bracket that closes an array, and returns whether it is next.
    #[inline(always)]
    pub(crate) fn take_end_array(&mut self) -> bool
        ensures { MatchBool result (after_end_array self.old ≡ Some self.new) (self.new ≡ self.old) }
    {
        match &mut self.source {
            Source::Plain(reader) => reader.take_end_array(),
            Source::Escaped(reader) => reader.take_end_array(),
        }
    }

    /// Returns whether no token is left.
    pub(crate) fn is_at_end(&mut self) -> bool
        ensures { result ≡ true → self.old ≡ [] }
    {
        match &mut self.source {
            Source::Plain(reader) => reader.is_at_end(),
            Source::Escaped(reader) => reader.next().is_none(),
        }
    }
}
