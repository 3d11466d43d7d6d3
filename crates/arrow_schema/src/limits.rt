// The limits of schemas.
ghost use Rattle.std.specs.Prelude.{◌≡◌, ◌↔◌, IsOk, map, length, nat_le};
ghost use Rattle.std.specs.List.{list_all};
ghost use Rattle.arrow_schema.specs.Column.{columns_of};
ghost use Rattle.arrow_schema.specs.View.{schema_of, kind_of, column_of, pair_of};
ghost use Rattle.arrow_schema.specs.Preorder.{preorder, preorder_below, preorder_all, depth, depth_below, depth_all, every_column};
ghost use Rattle.arrow_schema.specs.Limits.{IsWithinLimits, first_exceeded, number_of, is_nested, timezone_of, bytes_of_pairs, count_of_pairs, count_of_bytes, has_number_in_range, has_flat_dictionary};
ghost use Rattle.arrow_schema.specs.inner.SchemaTotals.{saturated, tallied, tallied_one};

use crate::types::{DataType, Field, Schema};
use thiserror::Error;

/// The maximum number of fields in a schema, including all children.
pub const MAX_FIELDS: u64 = 2048;
/// The maximum depth of a field: a column is at level 1.
pub const MAX_DEPTH: u64 = 32;
/// The maximum number of key/value pairs of a schema and all its fields together.
pub const MAX_PAIRS: u64 = 4096;
/// The maximum number of bytes of names, keys, values and timezones together.
pub const MAX_TEXT_BYTES: u64 = 4_194_304;
/// Widths and sizes are below this.
pub const NUMBER_END: u32 = 1 << 31;

/// The first limit that a schema exceeds, in the order of the variants.
#[derive(Clone, Copy, Debug, PartialEq, Eq, Error)]
pub enum SchemaError {
    /// A field is deeper than `MAX_DEPTH`.
    #[error("a field nested more than {most} deep", most = MAX_DEPTH)]
    Depth,
    /// There are more than `MAX_FIELDS` fields.
    #[error("more than {most} fields", most = MAX_FIELDS)]
    Fields,
    /// There are more than `MAX_PAIRS` pairs.
    #[error("more than {most} pairs of metadata", most = MAX_PAIRS)]
    Pairs,
    /// There are more than `MAX_TEXT_BYTES` bytes of text.
    #[error("more than {most} bytes of names, timezones, keys and values", most = MAX_TEXT_BYTES)]
    Bytes,
    /// A width or a size is `NUMBER_END` or more.
    #[error("a width or a size of {end} or more", end = NUMBER_END)]
    Number,
    /// A dictionary has lists or structs as its values.
    #[error("a dictionary of lists or structs")]
    Dictionary,
}

// The totals so far.
#[derive(Clone, Copy)]
pub(crate) struct SchemaTotals {
    pub(crate) fields: u64,
    pub(crate) pairs: u64,
    pub(crate) bytes: u64,
    pub(crate) numbers_fit: bool,
    pub(crate) dictionaries_fit: bool,
}

#[tactic(auto, using(facts::specs::laws::Levels::nat_le_down, facts::specs::laws::Levels::nat_le_none), unfolding(crate::specs::Preorder::depth))]
#[cycle(depth)]
fn is_within_depth(levels: u64, field: &Field) -> bool
    ensures { result ≡ nat_le (depth (column_of field.now)) levels }
{
    levels != 0 && is_type_within_depth(levels - 1, &field.data_type)
}

#[tactic(auto, unfolding(crate::specs::Preorder::depth_below))]
#[cycle(depth)]
fn is_type_within_depth(levels: u64, data_type: &DataType) -> bool
    ensures { result ≡ nat_le (depth_below (kind_of data_type.now)) levels }
{
    match data_type {
        DataType::List(item) => is_within_depth(levels, item),
        DataType::LargeList(item) => is_within_depth(levels, item),
        DataType::FixedSizeList(_, item) => is_within_depth(levels, item),
        DataType::Struct(fields) => are_within_depth(levels, fields),
        _ => true,
    }
}

#[tactic(auto, using(crate::proofs::Counting::depth_rules), unfolding(crate::specs::Preorder::depth_all))]
#[cycle(depth)]
fn are_within_depth(levels: u64, fields: &[Field]) -> bool
    ensures { result ≡ nat_le (depth_all (columns_of (map column_of fields.now))) levels }
{
    for field in fields {
        if !is_within_depth(levels, field) {
            return false;
        }
    }
    true
}

impl DataType {
    /// Returns the width of a fixed-size binary or the size of a fixed-size list, and 0 for other types.
    pub fn number(&self) -> u32
        ensures { result ≡ number_of (kind_of self.now) }
    {
        match self {
            DataType::FixedSizeBinary(width) => *width,
            DataType::FixedSizeList(size, _) => *size,
            _ => 0,
        }
    }

    /// Returns whether the type has children: it is a list or a struct.
    pub fn is_nested(&self) -> bool
        ensures { result ≡ is_nested (kind_of self.now) }
    {
        matches!(
            self,
            DataType::List(_)
                | DataType::LargeList(_)
                | DataType::FixedSizeList(_, _)
                | DataType::Struct(_)
        )
    }

    /// Returns the timezone of a timestamp, and the empty string for other types.
    pub fn timezone(&self) -> &str
        ensures { result.now ≡ timezone_of (kind_of self.now) }
    {
        match self {
            DataType::Timestamp(_, timezone) => timezone.as_str(),
            _ => "",
        }
    }
}

fn bytes_of_pairs(pairs: &[(String, String)]) -> u64
    ensures { result ≡ saturated (bytes_of_pairs (map pair_of pairs.now)) }
{
    let mut total = 0u64;
    for (key, value) in pairs {
        total = total
            .saturating_add(key.len() as u64)
            .saturating_add(value.len() as u64);
    }
    total
}

impl SchemaTotals {
    #[tactic(auto, unfolding(crate::specs::inner::SchemaTotals::tallied_one))]
    fn add(&mut self, field: &Field)
        ensures { self.new ≡ tallied_one self.old (column_of field.now) }
    {
        self.fields = self.fields.saturating_add(1);
        self.pairs = self.pairs.saturating_add(field.pairs.len() as u64);
        self.bytes = self
            .bytes
            .saturating_add(field.name.len() as u64)
            .saturating_add(field.data_type.timezone().len() as u64)
            .saturating_add(bytes_of_pairs(&field.pairs));
        self.numbers_fit = self.numbers_fit && field.data_type.number() < NUMBER_END;
        self.dictionaries_fit = self.dictionaries_fit
            && !(field.dictionary.is_some() && field.data_type.is_nested());
    }
}

#[tactic(auto, unfolding(crate::specs::Preorder::preorder, crate::specs::inner::SchemaTotals::tallied))]
#[cycle(totals)]
fn totals_field(totals: &mut SchemaTotals, field: &Field)
    ensures { totals.new ≡ tallied totals.old (preorder (column_of field.now)) }
{
    totals.add(field);
    totals_type(totals, &field.data_type);
}

#[tactic(auto, unfolding(crate::specs::Preorder::preorder_below, crate::specs::inner::SchemaTotals::tallied))]
#[cycle(totals)]
fn totals_type(totals: &mut SchemaTotals, data_type: &DataType)
    ensures { totals.new ≡ tallied totals.old (preorder_below (kind_of data_type.now)) }
{
    match data_type {
        DataType::List(item) => totals_field(totals, item),
        DataType::LargeList(item) => totals_field(totals, item),
        DataType::FixedSizeList(_, item) => totals_field(totals, item),
        DataType::Struct(fields) => totals_fields(totals, fields),
        _ => {}
    }
}

#[tactic(auto, using(crate::proofs::Counting::totals_rules), unfolding(crate::specs::Preorder::preorder_all, crate::specs::inner::SchemaTotals::tallied))]
#[cycle(totals)]
fn totals_fields(totals: &mut SchemaTotals, fields: &[Field])
    ensures { totals.new ≡ tallied totals.old (preorder_all (columns_of (map column_of fields.now))) }
{
    for field in fields {
        totals_field(totals, field);
    }
}

fn totals_of(schema: &Schema) -> SchemaTotals
    ensures fields { result.fields ≡ saturated (length (every_column (schema_of schema.now))) }
    ensures pairs { result.pairs ≡ saturated (count_of_pairs (schema_of schema.now)) }
    ensures bytes { result.bytes ≡ saturated (count_of_bytes (schema_of schema.now)) }
    ensures numbers { result.numbers_fit ≡ list_all has_number_in_range (every_column (schema_of schema.now)) }
    ensures dictionaries { result.dictionaries_fit ≡ list_all has_flat_dictionary (every_column (schema_of schema.now)) }
{
    let mut totals = SchemaTotals {
        fields: 0,
        pairs: schema.pairs.len() as u64,
        bytes: bytes_of_pairs(&schema.pairs),
        numbers_fit: true,
        dictionaries_fit: true,
    };
    totals_fields(&mut totals, &schema.fields);
    totals
}

fn first_exceeded(schema: &Schema) -> Result<(), SchemaError>
    ensures { result ≡ first_exceeded (schema_of schema.now) }
{
    if !are_within_depth(MAX_DEPTH, &schema.fields) {
        return Err(SchemaError::Depth);
    }
    let totals = totals_of(schema);
    if totals.fields > MAX_FIELDS {
        Err(SchemaError::Fields)
    } else if totals.pairs > MAX_PAIRS {
        Err(SchemaError::Pairs)
    } else if totals.bytes > MAX_TEXT_BYTES {
        Err(SchemaError::Bytes)
    } else if !totals.numbers_fit {
        Err(SchemaError::Number)
    } else if !totals.dictionaries_fit {
        Err(SchemaError::Dictionary)
    } else {
        Ok(())
    }
}

impl Schema {
    /// Tests whether the schema is within the limits.
    ///
    /// # Errors
    /// The first limit that it exceeds, in the order of [`SchemaError`].
    pub fn check(&self) -> Result<(), SchemaError>
        ensures reported { result ≡ first_exceeded (schema_of self.now) }
        ensures within { IsOk result ↔ IsWithinLimits (schema_of self.now) }
    {
        first_exceeded(self)
    }
}
