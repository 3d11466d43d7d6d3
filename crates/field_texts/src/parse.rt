// Parses fields from their texts.
ghost use Rattle.std.specs.Prelude.{◌≡◌, map};
ghost use Rattle.std.specs.Result.{result_map_both};
ghost use Rattle.arrow_schema.specs.View.{column_of};
ghost use Rattle.field_texts.specs.inner.Build.{Builds, columns_at};
ghost use Rattle.field_texts.specs.Reported.{IsReported};
ghost use Rattle.field_texts.specs.inner.Tested.{Tests, TestsOne};
ghost use Rattle.field_texts.specs.declared.parse.ParseError.TheVariants.{OutOfMemory};

use crate::build::{BuildError, build_field};
use crate::grammar::is_field_text;
use arrow_schema::{Field, MAX_DEPTH, Schema};
use std::alloc::{AllocError, AllocFailed, Global};
use std::fmt;

/// Why field texts are refused.
#[derive(Clone, Copy, Debug, PartialEq, Eq)]
pub enum ParseError {
    /// P1: the text with this number, counted from 1, is not that of a field.
    BadText(usize),
    /// P2: a number above 2,147,483,647, or a schema that exceeds its limits.
    Limit,
    OutOfMemory,
}

/// Code, name and number, as `P1 BadText 2`.
impl fmt::Display for ParseError {
    ghost use Rattle.std.specs.Prelude.{Some};
    ghost use Rattle.field_texts.specs.ErrorText.{error_text};

    ghost output = { λ error. Some (error_text error) };

    fn fmt<W: fmt::Write>(&self, f: &mut fmt::Formatter<W>) -> fmt::Result {
        match self {
            ParseError::BadText(number) => write!(f, "P1 BadText {number}"),
            ParseError::Limit => f.write_str("P2 Limit"),
            ParseError::OutOfMemory => f.write_str("OutOfMemory"),
        }
    }
}

impl std::error::Error for ParseError {}

impl From<AllocError> for ParseError {
    ghost from_gives = { λ _ e. e ≡ OutOfMemory };

    fn from(_: AllocError) -> ParseError {
        ParseError::OutOfMemory
    }
}

impl<T: Drop> From<AllocFailed<T>> for ParseError {
    ghost from_gives = { λ _ e. e ≡ OutOfMemory };

    fn from(_: AllocFailed<T>) -> ParseError {
        ParseError::OutOfMemory
    }
}

fn test_text(alloc: Global, number: usize, text: &str) -> Result<(), ParseError>
    ensures { TestsOne number text.now result }
{
    if is_field_text(alloc, text, true)? {
        Ok(())
    } else if is_field_text(alloc, text, false)? {
        Err(ParseError::Limit)
    } else {
        Err(ParseError::BadText(number))
    }
}

fn test_texts(alloc: Global, texts: &[&str]) -> Result<(), ParseError>
    ensures { Tests (map (λ t. t.now) texts.now) result }
{
    for index in 0..texts.len() {
        test_text(alloc, index + 1, texts[index])?;
    }
    Ok(())
}

fn build_texts(alloc: Global, texts: &[&str]) -> Result<Vec<Field>, BuildError>
    ensures { Builds (λ v. map column_of v.items) result (columns_at MAX_DEPTH (map (λ t. t.now) texts.now)) }
{
    let mut fields = Vec::new(alloc);
    for text in texts {
        let (field, _) = build_field(alloc, MAX_DEPTH, text)?;
        fields.push(field)?;
    }
    Ok(fields)
}

/// Parses fields from their texts, within the limits of a schema (docs/formats/field_texts.md). No nesting overflows the stack.
///
/// ```
/// let fields = parse_fields(alloc, &["day:int32", "millidegrees:int32?"])?;
/// ```
///
/// # Errors
/// `BadText` if the first refused text, counted from 1, is not that of a field; `Limit` if that text has a number above 2,147,483,647, or if no text
/// is refused and the schema exceeds its limits; `OutOfMemory`.
pub fn parse_fields(alloc: Global, texts: &[&str]) -> Result<Vec<Field>, ParseError>
    ensures reported { IsReported (map (λ t. t.now) texts.now) (result_map_both (λ v. map column_of v.items) (λ e. e) result) }
{
    test_texts(alloc, texts)?;
    let fields = match build_texts(alloc, texts) {
        Ok(fields) => fields,
        Err(BuildError::Unread) => return Err(ParseError::Limit),
        Err(BuildError::Memory) => return Err(ParseError::OutOfMemory),
    };
    let schema = Schema {
        fields,
        pairs: Vec::new(alloc),
    };
    match schema.check() {
        Ok(()) => Ok(schema.fields),
        Err(_) => Err(ParseError::Limit),
    }
}
