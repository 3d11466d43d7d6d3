// The type of nulls, whose arrays have no buffers.
ghost use Rattle.std.specs.Prelude.{◌≡◌};
ghost use Rattle.arrow_schema.specs.Parts.{is_nulls};
ghost use Rattle.arrow_schema.specs.View.{kind_of};

use arrow_schema::DataType;

/// Whether a type is that of nulls.
pub(crate) fn is_of_nulls(data_type: &DataType) -> bool
    ensures { result ≡ is_nulls (kind_of data_type.now) }
{
    matches!(data_type, DataType::Null)
}
