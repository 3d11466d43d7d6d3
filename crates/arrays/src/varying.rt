// Whether cells of a type may weigh differently.
ghost use Rattle.std.specs.Prelude.{◌≡◌};
ghost use Rattle.arrow_schema.specs.View.{column_of, kind_of};
ghost use Rattle.columns.specs.View.{fields_of};
ghost use Rattle.arrays.specs.inner.Varying.{may_vary_in, may_vary, any_may_vary};

use arrow_schema::{DataType, Field};

#[tactic(auto, unfolding(crate::specs::inner::Varying::may_vary_in))]
#[cycle(may_vary)]
fn may_vary_in(field: &Field) -> bool
    ensures { result ≡ may_vary_in (column_of field.now) }
{
    may_vary(&field.data_type)
}

/// A struct weighs as its fields do, a fixed list as its items do, and a null one as if all of these were null: where none varies, each cell has one weight.
#[tactic(auto, unfolding(crate::specs::inner::Varying::may_vary))]
#[cycle(may_vary)]
pub(crate) fn may_vary(data_type: &DataType) -> bool
    ensures { result ≡ may_vary (kind_of data_type.now) }
{
    match data_type {
        DataType::Null => false,
        DataType::Bool => false,
        DataType::Int(_) => false,
        DataType::Date(_) => false,
        DataType::Timestamp(_, _) => false,
        DataType::Utf8 => true,
        DataType::LargeUtf8 => true,
        DataType::Binary => true,
        DataType::LargeBinary => true,
        DataType::FixedSizeBinary(_) => false,
        DataType::List(_) => true,
        DataType::LargeList(_) => true,
        DataType::FixedSizeList(_, item) => may_vary_in(item),
        DataType::Struct(fields) => any_may_vary(fields),
    }
}

#[cycle(may_vary)]
fn any_may_vary(fields: &[Field]) -> bool
    ensures { result ≡ any_may_vary (fields_of fields.now) }
{
    for field in fields {
        if may_vary_in(field) {
            return true;
        }
    }
    false
}
