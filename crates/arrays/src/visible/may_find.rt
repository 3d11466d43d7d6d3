// What a test may find by the type alone.
ghost use Rattle.std.specs.Prelude.{◌≡◌};
ghost use Rattle.arrow_schema.specs.View.{column_of, kind_of};
ghost use Rattle.columns.specs.View.{fields_of};
ghost use Rattle.arrays.specs.inner.MayFind.{may_find_own, may_find, may_find_below, any_may_find};

use crate::visible::slot_test::SlotTest;
use crate::visible::texts::text_width;
use arrow_schema::{DataType, Field};

/// In the slots of a field themselves.
pub(crate) fn may_find_own(test: SlotTest, field: &Field) -> bool
    ensures { result ≡ may_find_own test (column_of field.now) }
{
    match test {
        SlotTest::NoEntry => field.dictionary.is_some(),
        SlotTest::NotUtf8 => text_width(&field.data_type).is_some(),
        SlotTest::Forbidden => !field.nullable,
    }
}

// In them, or in what is below them.
#[tactic(auto, unfolding(crate::specs::inner::MayFind::may_find))]
#[cycle(may_find)]
fn may_find(test: SlotTest, field: &Field) -> bool
    ensures { result ≡ may_find test (column_of field.now) }
{
    if may_find_own(test, field) {
        return true;
    }
    match &field.dictionary {
        Some(_) => false,
        None => may_find_below(test, &field.data_type),
    }
}

/// In what is below the slots of a type.
#[tactic(auto, unfolding(crate::specs::inner::MayFind::may_find_below))]
#[cycle(may_find)]
pub(crate) fn may_find_below(test: SlotTest, data_type: &DataType) -> bool
    ensures { result ≡ may_find_below test (kind_of data_type.now) }
{
    match data_type {
        DataType::List(item) => may_find(test, item),
        DataType::LargeList(item) => may_find(test, item),
        DataType::FixedSizeList(_, item) => may_find(test, item),
        DataType::Struct(fields) => any_may_find(test, fields),
        _ => false,
    }
}

#[cycle(may_find)]
fn any_may_find(test: SlotTest, fields: &[Field]) -> bool
    ensures { result ≡ any_may_find test (fields_of fields.now) }
{
    for field in fields {
        if may_find(test, field) {
            return true;
        }
    }
    false
}
