// Builds fields from their texts, up to a depth.
ghost use Rattle.std.specs.Prelude.{◌≡◌, IfOk, map, option_map};
ghost use Rattle.arrow_schema.specs.View.{kind_of, column_of, index_of};
ghost use Rattle.field_texts.specs.inner.OpeningView.{flat_kind, opening_view};
ghost use Rattle.field_texts.specs.inner.Build.{Builds, column_at, close_of, list_kind, list_from, field_from, more_from, with_first, fields_from, parts_from, column_from};
ghost use Rattle.field_texts.specs.declared.build.BuildError.TheVariants.{Memory};

use crate::scan::{Flat, Opening, name_of, nullable_suffix_of, opening_of, strip};
use arrow_schema::{DataType, DictSpec, Field};
use std::alloc::{AllocError, AllocFailed, Global};

/// Why a field was not built: the text is not that of a field, or of one that is not too deep, or memory was refused.
#[derive(Drop)]
pub(crate) enum BuildError {
    Unread,
    Memory,
}

impl From<AllocError> for BuildError {
    ghost from_gives = { λ _ e. e ≡ Memory };

    fn from(_: AllocError) -> BuildError {
        BuildError::Memory
    }
}

impl<T: Drop> From<AllocFailed<T>> for BuildError {
    ghost from_gives = { λ _ e. e ≡ Memory };

    fn from(_: AllocFailed<T>) -> BuildError {
        BuildError::Memory
    }
}

fn flat_type(alloc: Global, flat: Flat) -> Result<DataType, AllocError>
    ensures { IfOk result (λ t. kind_of t ≡ flat_kind flat.entry) }
{
    match flat {
        Flat::Null => Ok(DataType::Null),
        Flat::Bool => Ok(DataType::Bool),
        Flat::Int(integer) => Ok(DataType::Int(integer)),
        Flat::Date(unit) => Ok(DataType::Date(unit)),
        Flat::Timestamp(unit, timezone) => {
            Ok(DataType::Timestamp(unit, String::from_str(alloc, timezone)?))
        }
        Flat::Utf8 => Ok(DataType::Utf8),
        Flat::LargeUtf8 => Ok(DataType::LargeUtf8),
        Flat::Binary => Ok(DataType::Binary),
        Flat::LargeBinary => Ok(DataType::LargeBinary),
        Flat::FixedBinary(width) => Ok(DataType::FixedSizeBinary(width)),
    }
}

// The kinds of lists, which are built from their items.
#[derive(Clone, Copy)]
pub(crate) enum Listing {
    List,
    LargeList,
    FixedList(u32),
}

impl Listing {
    // Returns the bracket after the item.
    fn close(self) -> &'static str
        ensures { result.now ≡ close_of self }
    {
        match self {
            Listing::List | Listing::LargeList => ">",
            Listing::FixedList(_) => ")",
        }
    }

    fn of(self, item: Box<Field>) -> DataType
        ensures { kind_of result ≡ list_kind self (column_of item.value) }
    {
        match self {
            Listing::List => DataType::List(item),
            Listing::LargeList => DataType::LargeList(item),
            Listing::FixedList(size) => DataType::FixedSizeList(size, item),
        }
    }
}

// Builds a list from the text of its item, which has no dictionary, and returns the text after the bracket.
#[tactic(auto, unfolding(crate::specs::inner::Build::item_from))]
#[cycle(build)]
fn build_list<'a>(
    alloc: Global,
    levels: u64,
    listing: Listing,
    text: &'a str,
) -> Result<(DataType, Option<DictSpec>, &'a str), BuildError>
    ensures { Builds (λ p. ((kind_of p.0, option_map index_of p.1), p.2.now)) result (list_from (column_at levels) listing text.now) }
{
    let (item, rest) = build_column(alloc, levels, "item", text)?;
    let Some(rest) = strip(rest, listing.close()) else {
        return Err(BuildError::Unread);
    };
    let item = Box::new(alloc, item)?;
    Ok((listing.of(item), None, rest))
}

#[tactic(auto, unfolding(crate::specs::inner::Build::field_from))]
#[cycle(build)]
pub(crate) fn build_field(
    alloc: Global,
    levels: u64,
    text: &str,
) -> Result<(Field, &str), BuildError>
    ensures { Builds (λ p. (column_of p.0, p.1.now)) result (field_from (column_at levels) text.now) }
{
    let Some((name, rest)) = name_of(text) else {
        return Err(BuildError::Unread);
    };
    build_column(alloc, levels, name, rest)
}

// Builds further fields in at most `turns` steps, and returns the text after the bracket.
#[tactic(auto, unfolding(crate::specs::inner::Build::more_from))]
#[cycle(build)]
fn build_more(
    alloc: Global,
    levels: u64,
    mut fields: Vec<Field>,
    text: &str,
    turns: usize,
) -> Result<(Vec<Field>, &str), BuildError>
    ensures { Builds (λ p. (map column_of p.0.items, p.1.now)) result (with_first (map column_of fields.items) (more_from (column_at levels) turns text.now)) }
{
    let mut rest = text;
    for _turn in 0..turns {
        if let Some(after) = strip(rest, ">") {
            return Ok((fields, after));
        }
        let Some(next) = strip(rest, ",") else {
            return Err(BuildError::Unread);
        };
        let (field, after) = build_field(alloc, levels, next)?;
        fields.push(field)?;
        rest = after;
    }
    Err(BuildError::Unread)
}

// Builds the fields of a struct, and returns the text after the bracket.
#[tactic(auto, unfolding(crate::specs::inner::Build::fields_from))]
#[cycle(build)]
fn build_fields(alloc: Global, levels: u64, text: &str) -> Result<(Vec<Field>, &str), BuildError>
    ensures { Builds (λ p. (map column_of p.0.items, p.1.now)) result (fields_from (column_at levels) text.now) }
{
    let mut fields = Vec::new(alloc);
    if let Some(rest) = strip(text, ">") {
        return Ok((fields, rest));
    }
    let (first, rest) = build_field(alloc, levels, text)?;
    fields.push(first)?;
    build_more(alloc, levels, fields, rest, text.len())
}

// Builds the parts of a type, after its opening.
#[tactic(auto, unfolding(crate::specs::inner::Build::parts_from))]
#[cycle(build)]
fn build_parts<'a>(
    alloc: Global,
    levels: u64,
    opening: Opening,
    text: &'a str,
) -> Result<(DataType, Option<DictSpec>, &'a str), BuildError>
    ensures { Builds (λ p. ((kind_of p.0, option_map index_of p.1), p.2.now)) result (parts_from (column_at levels) (opening_view opening.entry) text.now) }
{
    match opening {
        Opening::Flat(flat, dictionary) => Ok((flat_type(alloc, flat)?, dictionary, text)),
        Opening::List => build_list(alloc, levels, Listing::List, text),
        Opening::LargeList => build_list(alloc, levels, Listing::LargeList, text),
        Opening::FixedList(size) => build_list(alloc, levels, Listing::FixedList(size), text),
        Opening::Struct => {
            let (fields, rest) = build_fields(alloc, levels, text)?;
            Ok((DataType::Struct(fields), None, rest))
        }
    }
}

// Builds the column with this name, whose parts have at most `levels` levels, and returns the rest of the text.
#[tactic(auto, unfolding(crate::specs::inner::Build::column_from))]
#[cycle(build)]
fn build_above<'a>(
    alloc: Global,
    levels: u64,
    name: &str,
    text: &'a str,
) -> Result<(Field, &'a str), BuildError>
    ensures { Builds (λ p. (column_of p.0, p.1.now)) result (column_from (column_at levels) name.now text.now) }
{
    let Some((opening, rest)) = opening_of(text, true) else {
        return Err(BuildError::Unread);
    };
    let (data_type, dictionary, rest) = build_parts(alloc, levels, opening, rest)?;
    let (nullable, rest) = nullable_suffix_of(rest);
    let field = Field {
        name: String::from_str(alloc, name)?,
        nullable,
        data_type,
        dictionary,
        pairs: Vec::new(alloc),
    };
    Ok((field, rest))
}

/// Builds the column with this name, at most `levels` levels deep, from the text after its colon, and returns the rest of the text.
#[cycle(build)]
fn build_column<'a>(
    alloc: Global,
    levels: u64,
    name: &str,
    text: &'a str,
) -> Result<(Field, &'a str), BuildError>
    ensures { Builds (λ p. (column_of p.0, p.1.now)) result (column_at levels name.now text.now) }
{
    if levels == 0 {
        return Err(BuildError::Unread);
    }
    build_above(alloc, levels - 1, name, text)
}
