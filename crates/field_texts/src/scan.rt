// Reads the parts at the start of a field text. Nothing here allocates memory.
ghost use Rattle.std.specs.Prelude.{◌≡◌, ◌<◌};
ghost use Rattle.std.specs.List.{list_all};
ghost use Rattle.facts.specs.Outcomes.{Reads};
ghost use Rattle.field_texts.specs.Typed.{is_name_byte, is_timezone_byte, is_name};
ghost use Rattle.field_texts.specs.inner.Scan.{stripped, cut_at, keyword_in, keyword_at, is_numeral, value, capped_number, is_size, size_at, is_timezone, timezone_at, flat_at, dictionary_at, opening_at, name_at, has_nullable_suffix, after_nullable_suffix};
ghost use Rattle.field_texts.specs.inner.OpeningView.{flat_kind, opening_view};

use crate::keyword::{KEYWORDS, Keyword};
use arrow_schema::{DateUnit, DictSpec, IntegerType, NUMBER_END, TimeUnit};

/// A flat type.
#[derive(Clone, Copy)]
pub(crate) enum Flat<'a> {
    Null,
    Bool,
    Int(IntegerType),
    Date(DateUnit),
    Timestamp(TimeUnit, &'a str),
    Utf8,
    LargeUtf8,
    Binary,
    LargeBinary,
    FixedBinary(u32),
}

/// How a type begins: a whole flat type, or the text before the parts of a nested one. Numbers above 32 bits are capped at the greatest of 32 bits.
#[derive(Clone, Copy)]
pub(crate) enum Opening<'a> {
    Flat(Flat<'a>, Option<DictSpec>),
    List,
    LargeList,
    FixedList(u32),
    Struct,
}

pub(crate) fn strip<'a>(text: &'a str, beginning: &str) -> Option<&'a str>
    ensures { Reads (λ rest. rest.now) result (stripped beginning.now text.now) }
{
    text.strip_prefix(beginning)
}

// Splits the text at the first delimiter, which is ASCII.
fn cut(text: &str, delimiter: char) -> Option<(&str, &str)>
    requires { delimiter < 128 }
    ensures { Reads (λ p. (p.0.now, p.1.now)) result (cut_at delimiter text.now) }
{
    text.split_once(delimiter)
}

// Returns the first of these keywords that the text starts with.
#[tactic(auto, unfolding(crate::specs::inner::Scan::keyword_in))]
fn keyword_among<'a>(keywords: &[Keyword], text: &'a str) -> Option<(Keyword, &'a str)>
    ensures { Reads (λ p. (p.0, p.1.now)) result (keyword_in keywords.now text.now) }
{
    for keyword in keywords {
        if let Some(rest) = strip(text, keyword.text()) {
            return Some((*keyword, rest));
        }
    }
    None
}

// Returns the keyword that the text starts with.
#[tactic(auto, unfolding(crate::specs::inner::Scan::keyword_at, crate::specs::inner::Scan::every_keyword))]
fn keyword_of(text: &str) -> Option<(Keyword, &str)>
    ensures { Reads (λ p. (p.0, p.1.now)) result (keyword_at text.now) }
{
    keyword_among(&KEYWORDS, text)
}

fn is_name_byte(byte: u8) -> bool
    ensures { result ≡ is_name_byte byte }
{
    !matches!(
        byte,
        b' ' | b':' | b',' | b'<' | b'>' | b'(' | b')' | b'?' | b'"'
    )
}

fn is_timezone_byte(byte: u8) -> bool
    ensures { result ≡ is_timezone_byte byte }
{
    !matches!(byte, b' ' | b'(' | b')' | b'"')
}

fn is_name(text: &str) -> bool
    ensures { result ≡ is_name text.now }
{
    for byte in text.as_bytes() {
        if !is_name_byte(*byte) {
            return false;
        }
    }
    !text.is_empty()
}

fn is_timezone(text: &str) -> bool
    ensures { result ≡ is_timezone text.now }
{
    for byte in text.as_bytes() {
        if !is_timezone_byte(*byte) {
            return false;
        }
    }
    !text.is_empty()
}

// Returns whether these are decimal digits without leading zeros.
#[tactic(auto, unfolding(crate::specs::inner::Scan::is_numeral))]
fn is_numeral(digits: &str) -> bool
    ensures { result ≡ is_numeral digits.now }
{
    for digit in digits.as_bytes() {
        if !digit.is_ascii_digit() {
            return false;
        }
    }
    let all = digits.as_bytes();
    !all.is_empty() && (all.len() == 1 || all[0] != b'0')
}

// Returns the value of digits, capped at the greatest number of 32 bits.
#[tactic(auto, unfolding(crate::specs::inner::Scan::value))]
fn number_of(digits: &str) -> u32
    ensures { result ≡ capped_number (value digits.now) }
{
    let mut number = 0u32;
    for digit in digits.as_bytes() {
        number = number
            .saturating_mul(10)
            .saturating_add(u32::from(digit.saturating_sub(b'0')));
    }
    number
}

// Reads a number up to its delimiter. If `limited`, it must be below `NUMBER_END`.
#[tactic(auto, unfolding(crate::specs::inner::Scan::size_at))]
fn size_of(text: &str, delimiter: char, limited: bool) -> Option<(u32, &str)>
    requires { delimiter < 128 }
    ensures { Reads (λ p. (p.0, p.1.now)) result (size_at limited delimiter text.now) }
{
    let (digits, rest) = cut(text, delimiter)?;
    let number = number_of(digits);
    let fits = is_numeral(digits) && (!limited || number < NUMBER_END);
    fits.then_some((number, rest))
}

// Reads the timezone of a timestamp, which is empty if there is no parenthesis.
#[tactic(auto, unfolding(crate::specs::inner::Scan::timezone_at, crate::specs::inner::Scan::timezone_within))]
fn timezone_of(text: &str) -> Option<(&str, &str)>
    ensures { Reads (λ p. (p.0.now, p.1.now)) result (timezone_at text.now) }
{
    let Some(inside) = strip(text, "(") else {
        return Some(("", text));
    };
    let (timezone, rest) = cut(inside, ')')?;
    is_timezone(timezone).then_some((timezone, rest))
}

// Reads a flat type, after its keyword.
#[tactic(auto, unfolding(crate::specs::inner::Scan::flat_at))]
fn flat_of(keyword: Keyword, text: &str, limited: bool) -> Option<(Flat<'_>, &str)>
    ensures { Reads (λ p. (flat_kind p.0, p.1.now)) result (flat_at limited keyword text.now) }
{
    let flat = match keyword {
        Keyword::Null => Flat::Null,
        Keyword::Bool => Flat::Bool,
        Keyword::Int(integer) => Flat::Int(integer),
        Keyword::Date(unit) => Flat::Date(unit),
        Keyword::Timestamp(unit) => {
            let (timezone, rest) = timezone_of(text)?;
            return Some((Flat::Timestamp(unit, timezone), rest));
        }
        Keyword::Utf8 => Flat::Utf8,
        Keyword::LargeUtf8 => Flat::LargeUtf8,
        Keyword::Binary => Flat::Binary,
        Keyword::LargeBinary => Flat::LargeBinary,
        Keyword::FixedBinary => {
            let (width, rest) = size_of(text, ')', limited)?;
            return Some((Flat::FixedBinary(width), rest));
        }
        Keyword::List
        | Keyword::LargeList
        | Keyword::FixedList
        | Keyword::Struct
        | Keyword::Dictionary => return None,
    };
    Some((flat, text))
}

// Reads the index type and the value type of a dictionary, and its closing bracket.
#[tactic(auto, unfolding(crate::specs::inner::Scan::dictionary_at, crate::specs::inner::Scan::values_at))]
fn dictionary_of(text: &str, limited: bool) -> Option<(Opening<'_>, &str)>
    ensures { Reads (λ p. (opening_view p.0, p.1.now)) result (dictionary_at limited text.now) }
{
    let (Keyword::Int(index), rest) = keyword_of(text)? else {
        return None;
    };
    let (keyword, rest) = keyword_of(strip(rest, ",")?)?;
    let (values, rest) = flat_of(keyword, rest, limited)?;
    Some((
        Opening::Flat(values, Some(DictSpec { index })),
        strip(rest, ">")?,
    ))
}

/// Reads the opening of a type. If `limited`, its numbers must be below `NUMBER_END`.
#[tactic(auto, unfolding(crate::specs::inner::Scan::opening_at, crate::specs::inner::Scan::opening_after))]
pub(crate) fn opening_of(text: &str, limited: bool) -> Option<(Opening<'_>, &str)>
    ensures { Reads (λ p. (opening_view p.0, p.1.now)) result (opening_at limited text.now) }
{
    let (keyword, rest) = keyword_of(text)?;
    match keyword {
        Keyword::List => Some((Opening::List, rest)),
        Keyword::LargeList => Some((Opening::LargeList, rest)),
        Keyword::FixedList => {
            let (size, rest) = size_of(rest, ',', limited)?;
            Some((Opening::FixedList(size), rest))
        }
        Keyword::Struct => Some((Opening::Struct, rest)),
        Keyword::Dictionary => dictionary_of(rest, limited),
        _ => {
            let (flat, rest) = flat_of(keyword, rest, limited)?;
            Some((Opening::Flat(flat, None), rest))
        }
    }
}

/// Reads the name of a field and its colon.
#[tactic(auto, unfolding(crate::specs::inner::Scan::name_at))]
pub(crate) fn name_of(text: &str) -> Option<(&str, &str)>
    ensures { Reads (λ p. (p.0.now, p.1.now)) result (name_at text.now) }
{
    let (name, rest) = cut(text, ':')?;
    is_name(name).then_some((name, rest))
}

/// Returns whether the nullable suffix `?` comes next, and the text after it.
pub(crate) fn nullable_suffix_of(text: &str) -> (bool, &str)
    ensures nullable { result.0 ≡ has_nullable_suffix text.now }
    ensures rest { result.1.now ≡ after_nullable_suffix text.now }
{
    match strip(text, "?") {
        Some(rest) => (true, rest),
        None => (false, text),
    }
}
