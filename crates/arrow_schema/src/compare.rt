// Compares the shapes of two schemas, and fields for equality.
ghost use Rattle.std.specs.Prelude.{◌≡◌, ◌↔◌, ◌==◌, ◌&&◌, IsTrue, map, option_map, length};
ghost use Rattle.arrow_schema.specs.Column.{columns_of, date_unit_of, time_unit_of};
ghost use Rattle.arrow_schema.specs.View.{schema_of, kind_of, column_of, pair_of, index_of, bits_of, date_kind, time_kind};
ghost use Rattle.arrow_schema.specs.Shape.{seen_dictionary, seen_pairs, HaveOneShape};
ghost use Rattle.std.specs.Bool.{beq};
ghost use Rattle.arrow_schema.specs.inner.Alike.{dictionary_eq, pairs_eq, alike_plain, alike_flat, alike, alike_kind, alike_all};

use crate::types::{DataType, DateUnit, DictSpec, Field, IntegerType, Schema, TimeUnit};

// What is compared: everything, or all but dictionaries and pairs.
#[derive(Clone, Copy)]
pub(crate) enum Detail {
    Shape,
    Whole,
}

fn same_integer(a: IntegerType, b: IntegerType) -> bool
    ensures { result ≡ (bits_of a.width == bits_of b.width && beq a.signed b.signed) }
{
    a.width.bits() == b.width.bits() && a.signed == b.signed
}

fn same_date(a: DateUnit, b: DateUnit) -> bool
    ensures { result ≡ (date_unit_of (date_kind a) == date_unit_of (date_kind b)) }
{
    a == b
}

fn same_time(a: TimeUnit, b: TimeUnit) -> bool
    ensures { result ≡ (time_unit_of (time_kind a) == time_unit_of (time_kind b)) }
{
    a == b
}

fn same_dictionary(detail: Detail, a: Option<DictSpec>, b: Option<DictSpec>) -> bool
    ensures { result ≡ dictionary_eq (seen_dictionary detail (option_map index_of a)) (seen_dictionary detail (option_map index_of b)) }
{
    match detail {
        Detail::Shape => true,
        Detail::Whole => match (a, b) {
            (Some(a), Some(b)) => same_integer(a.index, b.index),
            (None, None) => true,
            _ => false,
        },
    }
}

fn same_pairs(a: &[(String, String)], b: &[(String, String)]) -> bool
    ensures { result ≡ pairs_eq (map pair_of a.now) (map pair_of b.now) }
{
    a == b
}

fn same_field_pairs(detail: Detail, a: &[(String, String)], b: &[(String, String)]) -> bool
    ensures { result ≡ pairs_eq (seen_pairs detail (map pair_of a.now)) (seen_pairs detail (map pair_of b.now)) }
{
    match detail {
        Detail::Shape => true,
        Detail::Whole => same_pairs(a, b),
    }
}

// Compares types without parameters.
fn same_plain_type(a: &DataType, b: &DataType) -> bool
    ensures { result ≡ alike_plain (kind_of a.now) (kind_of b.now) }
{
    match a {
        DataType::Null => matches!(b, DataType::Null),
        DataType::Bool => matches!(b, DataType::Bool),
        DataType::Utf8 => matches!(b, DataType::Utf8),
        DataType::LargeUtf8 => matches!(b, DataType::LargeUtf8),
        DataType::Binary => matches!(b, DataType::Binary),
        DataType::LargeBinary => matches!(b, DataType::LargeBinary),
        _ => false,
    }
}

// Compares types without children.
fn same_flat_type(a: &DataType, b: &DataType) -> bool
    ensures { result ≡ alike_flat (kind_of a.now) (kind_of b.now) }
{
    match a {
        DataType::Int(x) => matches!(b, DataType::Int(y) if same_integer(*x, *y)),
        DataType::Date(x) => matches!(b, DataType::Date(y) if same_date(*x, *y)),
        DataType::Timestamp(x, timezone) => match b {
            DataType::Timestamp(y, other_timezone) => same_time(*x, *y)
                && timezone == other_timezone,
            _ => false,
        },
        DataType::FixedSizeBinary(x) => matches!(b, DataType::FixedSizeBinary(y) if x == y),
        _ => same_plain_type(a, b),
    }
}

#[tactic(auto, unfolding(crate::specs::inner::Alike::alike))]
#[cycle(same)]
fn same_field(detail: Detail, a: &Field, b: &Field) -> bool
    ensures { result ≡ alike detail (column_of a.now) (column_of b.now) }
{
    a.name == b.name
        && a.nullable == b.nullable
        && same_dictionary(detail, a.dictionary, b.dictionary)
        && same_field_pairs(detail, &a.pairs, &b.pairs)
        && same_type(detail, &a.data_type, &b.data_type)
}

#[tactic(auto, unfolding(crate::specs::inner::Alike::alike_kind))]
#[cycle(same)]
fn same_type(detail: Detail, a: &DataType, b: &DataType) -> bool
    ensures { result ≡ alike_kind detail (kind_of a.now) (kind_of b.now) }
{
    match a {
        DataType::List(x) => matches!(b, DataType::List(y) if same_field(detail, x, y)),
        DataType::LargeList(x) => matches!(b, DataType::LargeList(y) if same_field(detail, x, y)),
        DataType::FixedSizeList(size, x) => match b {
            DataType::FixedSizeList(other_size, y) => size == other_size
                && same_field(detail, x, y),
            _ => false,
        },
        DataType::Struct(xs) => matches!(b, DataType::Struct(ys) if same_fields(detail, xs, ys)),
        _ => same_flat_type(a, b),
    }
}

#[tactic(auto, using(crate::proofs::Compared::alike_of_other_length), unfolding(crate::specs::inner::Alike::alike_all))]
#[cycle(same)]
fn same_fields(detail: Detail, xs: &[Field], ys: &[Field]) -> bool
    ensures { result ≡ alike_all detail (columns_of (map column_of xs.now)) (columns_of (map column_of ys.now)) }
{
    if xs.len() != ys.len() {
        return false;
    }
    for (i, y) in ys.iter().enumerate() {
        if !same_field(detail, &xs[i], y) {
            return false;
        }
    }
    true
}

/// Returns whether two schemas have one shape: names, nullability and types are equal at every depth, with their units, timezones, widths and sizes.
/// Dictionaries and pairs may differ.
pub fn same_shape(a: &Schema, b: &Schema) -> bool
    ensures { IsTrue result ↔ HaveOneShape (schema_of a.now) (schema_of b.now) }
{
    same_fields(Detail::Shape, &a.fields, &b.fields)
}

impl DataType {
    /// Returns whether two types are equal, including everything in their children.
    pub fn equals(&self, other: &DataType) -> bool
        ensures { IsTrue result ↔ (kind_of self.now ≡ kind_of other.now) }
    {
        same_type(Detail::Whole, self, other)
    }
}

impl Field {
    /// Returns whether two fields are equal, including everything in their children.
    pub fn equals(&self, other: &Field) -> bool
        ensures { IsTrue result ↔ (column_of self.now ≡ column_of other.now) }
    {
        same_field(Detail::Whole, self, other)
    }
}

impl Schema {
    /// Returns whether two schemas are equal, dictionaries and pairs included.
    pub fn equals(&self, other: &Schema) -> bool
        ensures { IsTrue result ↔ (schema_of self.now ≡ schema_of other.now) }
    {
        same_fields(Detail::Whole, &self.fields, &other.fields)
            && same_pairs(&self.pairs, &other.pairs)
    }
}
