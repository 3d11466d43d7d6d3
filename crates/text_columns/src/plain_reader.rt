// A reader of a line of JSON in which nothing is escaped. It makes no index, which costs a short line more than its tokens.
ghost use Rattle.std.specs.Prelude.{◌≡◌, ◌≤◌, ◌<◌, ◌∷◌, [], true, length, drop, slice_index, option_map, false, Some, IfOk, IfSome};
ghost use Rattle.std.specs.Bool.{MatchBool};
ghost use Rattle.json.specs.Json.{after_end_array, read_key};
ghost use Rattle.json.specs.Lex.{between, fresh, lex, may_begin, may_close, punctuate, tokens};
ghost use Rattle.json.specs.Reads.{token_of};
ghost use Rattle.json.specs.Token as spec;
ghost use Rattle.text_columns.specs.inner.Stands.{Begins, Closes, FollowsValue, place_of, tokens_at};

use crate::lexemes::{scalar_at, skip_spaces, string_at};
use json::{Invalid, Token};
use std::marker::Model;

/// What was read before the place where a reader is.
#[derive(Clone, Copy, Drop)]
pub(crate) enum Place {
    Fresh,
    AfterValue,
    AfterComma,
}

/// A place of a line, after all spaces.
#[derive(Clone, Copy)]
pub(crate) struct Stand {
    pub(crate) at: usize,
    pub(crate) place: Place,
}

/// A token, and where the reader stands after it.
#[derive(Clone, Copy)]
pub(crate) struct Step<'a> {
    pub(crate) token: Token<'a>,
    pub(crate) stand: Stand,
}

/// A key, and where the reader stands after its colon.
#[derive(Clone, Copy)]
pub(crate) struct KeyStep<'a> {
    pub(crate) key: &'a str,
    pub(crate) stand: Stand,
}

impl Place {
    #[inline(always)]
    fn may_begin(self) -> bool
        ensures { result ≡ may_begin (place_of self) }
    {
        match self {
            Place::AfterValue => false,
            _ => true,
        }
    }

    #[inline(always)]
    fn may_close(self) -> bool
        ensures { result ≡ may_close (place_of self) }
    {
        match self {
            Place::AfterComma => false,
            _ => true,
        }
    }
}

// Returns where a reader stands after an opening bracket, or a key and its colon, that ends at `from`.
#[inline(always)]
fn fresh(line: &[u8], from: usize) -> Stand
    requires { from ≤ length line.now }
    ensures within { result.at ≤ length line.now }
    ensures same { tokens_at result.place (drop result.at line.now) ≡ punctuate fresh (lex between (drop from line.now)) }
{
    let at = skip_spaces(line, from);
    let place = Place::Fresh;
    Stand { at, place }
}

// Returns where a reader stands after a value that ends at `end`, and the comma after it; `None` if what follows is neither a comma nor a closing bracket nor
// the end of the line.
#[inline(always)]
fn after_value(line: &[u8], end: usize) -> Option<Stand>
    requires { end ≤ length line.now }
    ensures { IfSome result (FollowsValue line.now end) }
{
    let at = skip_spaces(line, end);
    let place = Place::AfterValue;
    if at == line.len() {
        return Some(Stand { at, place });
    }
    if line[at] == b',' {
        let next = skip_spaces(line, at + 1);
        let place = Place::AfterComma;
        return Some(Stand { at: next, place });
    }
    if line[at] == b']' || line[at] == b'}' {
        return Some(Stand { at, place });
    }
    None
}

// Returns the first token of the value at `from`; `None` if there is none.
#[inline(always)]
fn value_at<'a>(line: &'a str, from: usize) -> Option<Step<'a>>
    requires { from < length line.now }
    ensures { IfSome result (λ s. Begins line.now from (token_of s.token) s.stand) }
{
    let bytes = line.as_bytes();
    let byte = bytes[from];
    if byte == b'[' {
        let token = Token::BeginArray;
        let stand = fresh(bytes, from + 1);
        return Some(Step { token, stand });
    }
    if byte == b'{' {
        let token = Token::BeginObject;
        let inside = fresh(bytes, from + 1);
        return Some(Step {
            token,
            stand: inside,
        });
    }
    let scalar = scalar_at(line, from)?;
    let stand = after_value(bytes, scalar.end)?;
    let token = scalar.token;
    Some(Step { token, stand })
}

// Returns the key whose quote is at `from`; `None` if it is no key, or something in it is escaped.
#[inline(always)]
fn key_at<'a>(line: &'a str, from: usize) -> Option<KeyStep<'a>>
    requires within { from < length line.now }
    requires quote { slice_index line.now from ≡ 34 }
    ensures { IfSome result (λ s. Begins line.now from (spec.key s.key.now) s.stand) }
{
    let bytes = line.as_bytes();
    let string = string_at(line, from)?;
    let colon = skip_spaces(bytes, string.end);
    if colon == bytes.len() {
        return None;
    }
    if bytes[colon] != b':' {
        return None;
    }
    let stand = fresh(bytes, colon + 1);
    let key = string.text;
    Some(KeyStep { key, stand })
}

// Returns where a reader stands after the closing bracket at `from`; `None` if it is not there.
#[inline(always)]
fn closed(line: &[u8], from: usize, bracket: u8) -> Option<Stand>
    requires { from ≤ length line.now }
    ensures within { IfSome result (λ s. s.at ≤ length line.now) }
    ensures array { IfSome result (λ s. bracket ≡ 93 → Closes line.now from spec.end_array s) }
    ensures object { IfSome result (λ s. bracket ≡ 125 → Closes line.now from spec.end_object s) }
{
    if from == line.len() {
        return None;
    }
    if line[from] != bracket {
        return None;
    }
    after_value(line, from + 1)
}

/// A reader of the tokens of a line. Clauses see the tokens that are left.
#[derive(Drop)]
pub(crate) struct PlainReader<'a> {
    line: &'a str,
    at: usize,
    place: Place,
}

impl<'a> Model for PlainReader<'a> {
    ghost use Rattle.std.specs.Prelude.{◌≤◌, List, drop, length};
    ghost use Rattle.json.specs.Token.{Token as SpecToken, tokens_code};
    ghost use Rattle.text_columns.specs.inner.Stands.{tokens_at};

    ghost Value = { List SpecToken };

    ghost coded = { tokens_code };

    ghost view = { λ a. tokens_at a.place (drop a.at a.line.now) };

    ghost invariant = { λ a. a.at ≤ length a.line.now };
}

impl<'a> PlainReader<'a> {
    pub(crate) fn new(line: &'a str) -> PlainReader<'a>
        ensures { result ≡ tokens line.now }
    {
        let stand = fresh(line.as_bytes(), 0);
        PlainReader {
            line,
            at: stand.at,
            place: stand.place,
        }
    }

    // Takes a bracket that closes an array or an object, and returns whether it is next.
    #[inline(always)]
    fn close(&mut self, bracket: u8) -> bool
        ensures closes { result ≡ true → (bracket ≡ 93 → self.old ≡ spec.end_array ∷ self.new) × (bracket ≡ 125 → self.old ≡ spec.end_object ∷ self.new) }
        ensures stays { result ≡ false → self.new ≡ self.old }
    {
        if !self.place.may_close() {
            return false;
        }
        let Some(stand) = closed(self.line.as_bytes(), self.at, bracket) else {
            return false;
        };
        self.at = stand.at;
        self.place = stand.place;
        true
    }

    // Returns the next key; `None` if no key is next.
    #[inline(always)]
    fn key(&mut self) -> Option<&'a str>
        ensures { IfSome result (λ s. self.old ≡ spec.key s.now ∷ self.new) }
    {
        if !self.place.may_begin() {
            return None;
        }
        if self.at == self.line.len() {
            return None;
        }
        if self.line.as_bytes()[self.at] != b'"' {
            return None;
        }
        let step = key_at(self.line, self.at)?;
        self.at = step.stand.at;
        self.place = step.stand.place;
        Some(step.key)
    }

    /// Returns the next token; `None` if no value begins with it.
    #[inline(always)]
    pub(crate) fn next(&mut self) -> Option<Token<'a>>
        ensures value { IfSome result (λ t. self.old ≡ token_of t ∷ self.new) }
    {
        if !self.place.may_begin() {
            return None;
        }
        if self.at == self.line.len() {
            return None;
        }
        let step = value_at(self.line, self.at)?;
        self.at = step.stand.at;
        self.place = step.stand.place;
        Some(step.token)
    }

    /// Returns the next key; `None` at the brace that closes an object.
    #[inline(always)]
    pub(crate) fn next_key(&mut self) -> Result<Option<&'a str>, Invalid>
        ensures value { IfOk result (λ k. read_key self.old ≡ Some (option_map (λ s. s.now) k, self.new)) }
    {
        if self.close(b'}') {
            return Ok(None);
        }
        match self.key() {
            Some(key) => Ok(Some(key)),
            None => Err(Invalid),
        }
    }

    /// Takes the bracket that closes an array, and returns whether it is next.
    #[inline(always)]
    pub(crate) fn take_end_array(&mut self) -> bool
        ensures { MatchBool result (after_end_array self.old ≡ Some self.new) (self.new ≡ self.old) }
    {
        self.close(b']')
    }

    /// Returns whether no token is left.
    pub(crate) fn is_at_end(&self) -> bool
        ensures { result ≡ true → self.now ≡ [] }
    {
        if !self.place.may_close() {
            return false;
        }
        self.at == self.line.len()
    }
}
