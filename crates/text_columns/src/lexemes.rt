// The lexemes of a line of JSON in which nothing is escaped, read in place (RFC 8259, sections 2, 3, 6 and 7).
ghost use Rattle.std.specs.Prelude.{◌≡◌, ◌+◌, ◌-◌, ◌<◌, ◌≤◌, false, true, length, drop, take, slice_index, IfSome};
ghost use Rattle.std.specs.Char.{is_ascii_digit};
ghost use Rattle.std.specs.List.{prefix_len};
ghost use Rattle.json.specs.Lex.{between, lex};
ghost use Rattle.json.specs.Reads.{token_of};
ghost use Rattle.json.specs.Token as tokens;
ghost use Rattle.json.specs.Word.{after_minus, ends_word, is_operator, is_space};
ghost use Rattle.text_columns.specs.inner.Lexemes.{IsLexeme, IsLiteral, IsScalar, is_plain};

use json::Token;

/// A text within a line, and where its lexeme ends.
#[derive(Clone, Copy)]
pub(crate) struct Lexeme<'a> {
    pub(crate) text: &'a str,
    pub(crate) end: usize,
}

/// A token that is a value by itself, and where its lexeme ends.
#[derive(Clone, Copy)]
pub(crate) struct Scalar<'a> {
    pub(crate) token: Token<'a>,
    pub(crate) end: usize,
}

#[inline(always)]
fn is_space(byte: u8) -> bool
    ensures { result ≡ is_space byte }
{
    byte == b' ' || byte == b'\t' || byte == b'\n' || byte == b'\r'
}

#[inline(always)]
fn is_operator(byte: u8) -> bool
    ensures { result ≡ is_operator byte }
{
    byte == b'{' || byte == b'}' || byte == b'[' || byte == b']' || byte == b':' || byte == b','
}

/// Returns where the spaces from `from` on end.
#[inline(always)]
pub(crate) fn skip_spaces(line: &[u8], from: usize) -> usize
    requires { from ≤ length line.now }
    ensures low { from ≤ result }
    ensures high { result ≤ length line.now }
    ensures same { lex between (drop result line.now) ≡ lex between (drop from line.now) }
{
    for i in from..line.len() {
        if !is_space(line[i]) {
            return i;
        }
    }
    line.len()
}

// Returns whether a number or a literal can end at `at`.
#[inline(always)]
fn ends_word(line: &[u8], at: usize) -> bool
    requires { at ≤ length line.now }
    ensures { result ≡ ends_word (drop at line.now) }
{
    if at == line.len() {
        return true;
    }
    let byte = line[at];
    is_operator(byte) || is_space(byte)
}

// Returns where the digits from `from` on end.
#[inline(always)]
fn digits_end(line: &[u8], from: usize) -> usize
    requires { from ≤ length line.now }
    ensures value { result ≡ from + prefix_len is_ascii_digit (drop from line.now) }
    ensures high { result ≤ length line.now }
{
    for i in from..line.len() {
        if !line[i].is_ascii_digit() {
            return i;
        }
    }
    line.len()
}

// Returns where the digits of the number at `from` begin: after its minus, if it has one.
#[inline(always)]
fn first_digit(line: &[u8], from: usize) -> usize
    requires { from < length line.now }
    ensures low { from ≤ result }
    ensures high { result ≤ length line.now }
    ensures rest { drop result line.now ≡ after_minus (drop from line.now) }
{
    if line[from] == b'-' { from + 1 } else { from }
}

// Returns whether the digits from `first` to `end` are a zero and more digits, which are no number.
#[inline(always)]
fn has_leading_zero(line: &[u8], first: usize, end: usize) -> bool
    requires below { first < end }
    requires within { end ≤ length line.now }
    ensures { result ≡ false → slice_index line.now first ≡ 48 → end ≤ first + 1 }
{
    line[first] == b'0' && end > first + 1
}

// Returns where the integer at `from` ends; `None` if there is none.
#[inline(always)]
fn integer_end(line: &[u8], from: usize) -> Option<usize>
    requires { from < length line.now }
    ensures { IfSome result (λ end. IsLexeme line.now from end (tokens.number (take (end - from) (drop from line.now)))) }
{
    let first = first_digit(line, from);
    let end = digits_end(line, first);
    if end == first {
        return None;
    }
    if !ends_word(line, end) {
        return None;
    }
    if has_leading_zero(line, first, end) {
        return None;
    }
    Some(end)
}

// Returns where the plain bytes of a string end: at a quote, a backslash or a control byte, or with the line.
#[inline(always)]
fn plain_end(line: &[u8], from: usize) -> usize
    requires { from ≤ length line.now }
    ensures value { result ≡ from + prefix_len is_plain (drop from line.now) }
    ensures high { result ≤ length line.now }
{
    for i in from..line.len() {
        if line[i] == b'"' || line[i] == b'\\' || line[i] < 0x20 {
            return i;
        }
    }
    line.len()
}

/// Returns the string whose quote is at `from`; `None` if something in it is escaped, or it is no string.
#[inline(always)]
pub(crate) fn string_at<'a>(line: &'a str, from: usize) -> Option<Lexeme<'a>>
    requires within { from < length line.now }
    requires quote { slice_index line.now from ≡ 34 }
    ensures { IfSome result (λ s. IsLexeme line.now from s.end (tokens.string s.text.now)) }
{
    let bytes = line.as_bytes();
    let start = from + 1;
    let stop = plain_end(bytes, start);
    if stop == bytes.len() {
        return None;
    }
    if bytes[stop] != b'"' {
        return None;
    }
    let text = line.get(start..stop)?;
    let end = stop + 1;
    Some(Lexeme { text, end })
}

// Returns the integer at `from`; `None` if there is none.
#[inline(always)]
fn integer_at<'a>(line: &'a str, from: usize) -> Option<Lexeme<'a>>
    requires { from < length line.now }
    ensures { IfSome result (λ n. IsLexeme line.now from n.end (tokens.number n.text.now)) }
{
    let end = integer_end(line.as_bytes(), from)?;
    let text = line.get(from..end)?;
    Some(Lexeme { text, end })
}

// Returns the literal at `from`, whose name and token are given; `None` if it is not there.
#[inline(always)]
fn literal_at<'a>(line: &[u8], from: usize, name: &[u8], token: Token<'a>) -> Option<Scalar<'a>>
    requires within { from < length line.now }
    requires literal { IsLiteral name.now (token_of token) }
    ensures lexeme { IfSome result (λ s. IsLexeme line.now from s.end (token_of s.token)) }
    ensures scalar { IfSome result (λ s. IsScalar (token_of s.token)) }
{
    if line.len() - from < name.len() {
        return None;
    }
    let end = from + name.len();
    if &line[from..end] != name {
        return None;
    }
    if !ends_word(line, end) {
        return None;
    }
    Some(Scalar { token, end })
}

// Returns the string at `from` as a token.
#[inline(always)]
fn string_token<'a>(line: &'a str, from: usize) -> Option<Scalar<'a>>
    requires within { from < length line.now }
    requires quote { slice_index line.now from ≡ 34 }
    ensures lexeme { IfSome result (λ s. IsLexeme line.now from s.end (token_of s.token)) }
    ensures scalar { IfSome result (λ s. IsScalar (token_of s.token)) }
{
    let string = string_at(line, from)?;
    let token = Token::String(string.text);
    let end = string.end;
    Some(Scalar { token, end })
}

// Returns the integer at `from` as a token.
#[inline(always)]
fn integer_token<'a>(line: &'a str, from: usize) -> Option<Scalar<'a>>
    requires { from < length line.now }
    ensures lexeme { IfSome result (λ s. IsLexeme line.now from s.end (token_of s.token)) }
    ensures scalar { IfSome result (λ s. IsScalar (token_of s.token)) }
{
    let integer = integer_at(line, from)?;
    let token = Token::Number(integer.text);
    let end = integer.end;
    Some(Scalar { token, end })
}

/// Returns the string, integer or literal at `from`; `None` if there is none, or something in the string is escaped.
#[inline(always)]
pub(crate) fn scalar_at<'a>(line: &'a str, from: usize) -> Option<Scalar<'a>>
    requires { from < length line.now }
    ensures lexeme { IfSome result (λ s. IsLexeme line.now from s.end (token_of s.token)) }
    ensures scalar { IfSome result (λ s. IsScalar (token_of s.token)) }
{
    let bytes = line.as_bytes();
    match bytes[from] {
        b'"' => string_token(line, from),
        b't' => literal_at(bytes, from, b"true", Token::Bool(true)),
        b'f' => literal_at(bytes, from, b"false", Token::Bool(false)),
        b'n' => literal_at(bytes, from, b"null", Token::Null),
        _ => integer_token(line, from),
    }
}
