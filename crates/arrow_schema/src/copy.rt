// Copies of schemas and fields.
ghost use Rattle.std.specs.Prelude.{◌≡◌, IfOk, map};
ghost use Rattle.arrow_schema.specs.View.{schema_of, kind_of, column_of, pair_of};

use crate::types::{DataType, Field, Schema};
use std::alloc::{AllocError, Global};

fn copy_pairs(
    pairs: &[(String, String)],
    alloc: Global,
) -> Result<Vec<(String, String)>, AllocError>
    ensures { IfOk result (λ v. map pair_of v.items ≡ map pair_of pairs.now) }
{
    let mut copy = Vec::with_capacity(alloc, pairs.len())?;
    for (key, value) in pairs {
        copy.push((key.clone()?, value.clone()?))?;
    }
    Ok(copy)
}

#[cycle(copy)]
fn copy_type(data_type: &DataType, alloc: Global) -> Result<DataType, AllocError>
    ensures { IfOk result (λ t. kind_of t ≡ kind_of data_type.now) }
{
    match data_type {
        DataType::Null => Ok(DataType::Null),
        DataType::Bool => Ok(DataType::Bool),
        DataType::Int(integer) => Ok(DataType::Int(*integer)),
        DataType::Date(unit) => Ok(DataType::Date(*unit)),
        DataType::Timestamp(unit, timezone) => Ok(DataType::Timestamp(*unit, timezone.clone()?)),
        DataType::Utf8 => Ok(DataType::Utf8),
        DataType::LargeUtf8 => Ok(DataType::LargeUtf8),
        DataType::Binary => Ok(DataType::Binary),
        DataType::LargeBinary => Ok(DataType::LargeBinary),
        DataType::FixedSizeBinary(width) => Ok(DataType::FixedSizeBinary(*width)),
        DataType::List(item) => Ok(DataType::List(copy_boxed(item, alloc)?)),
        DataType::LargeList(item) => Ok(DataType::LargeList(copy_boxed(item, alloc)?)),
        DataType::FixedSizeList(size, item) => Ok(DataType::FixedSizeList(
            *size,
            copy_boxed(item, alloc)?,
        )),
        DataType::Struct(fields) => Ok(DataType::Struct(copy_fields(fields, alloc)?)),
    }
}

#[cycle(copy)]
fn copy_boxed(item: &Field, alloc: Global) -> Result<Box<Field>, AllocError>
    ensures { IfOk result (λ b. column_of b.value ≡ column_of item.now) }
{
    Ok(Box::new(alloc, copy_field(item, alloc)?)?)
}

#[cycle(copy)]
fn copy_field(field: &Field, alloc: Global) -> Result<Field, AllocError>
    ensures { IfOk result (λ f. column_of f ≡ column_of field.now) }
{
    Ok(Field {
        name: field.name.clone()?,
        nullable: field.nullable,
        data_type: copy_type(&field.data_type, alloc)?,
        dictionary: field.dictionary,
        pairs: copy_pairs(&field.pairs, alloc)?,
    })
}

#[cycle(copy)]
fn copy_fields(fields: &[Field], alloc: Global) -> Result<Vec<Field>, AllocError>
    ensures { IfOk result (λ v. map column_of v.items ≡ map column_of fields.now) }
{
    let mut copies = Vec::with_capacity(alloc, fields.len())?;
    for field in fields {
        copies.push(copy_field(field, alloc)?)?;
    }
    Ok(copies)
}

impl DataType {
    /// Returns a copy of the type.
    ///
    /// # Errors
    /// `AllocError` if memory was refused.
    pub fn copy(&self, alloc: Global) -> Result<DataType, AllocError>
        ensures { IfOk result (λ t. kind_of t ≡ kind_of self.now) }
    {
        copy_type(self, alloc)
    }
}

impl Field {
    /// Returns a copy of the field.
    ///
    /// # Errors
    /// `AllocError` if memory was refused.
    pub fn copy(&self, alloc: Global) -> Result<Field, AllocError>
        ensures { IfOk result (λ f. column_of f ≡ column_of self.now) }
    {
        copy_field(self, alloc)
    }
}

impl Schema {
    /// Returns a copy of the schema.
    ///
    /// # Errors
    /// `AllocError` if memory was refused.
    pub fn copy(&self, alloc: Global) -> Result<Schema, AllocError>
        ensures { IfOk result (λ s. schema_of s ≡ schema_of self.now) }
    {
        Ok(Schema {
            fields: copy_fields(&self.fields, alloc)?,
            pairs: copy_pairs(&self.pairs, alloc)?,
        })
    }
}
