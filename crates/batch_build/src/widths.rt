// The width of the offsets of a type.
ghost use Rattle.std.specs.Prelude.{◌≡◌};
ghost use Rattle.columns.specs.Offsets.{width_of};

use columns::OffsetWidth;

/// Returns the number of bytes of an offset.
pub fn offset_size(width: OffsetWidth) -> usize
    ensures { result ≡ width_of width }
{
    match width {
        OffsetWidth::Four => 4,
        OffsetWidth::Eight => 8,
    }
}
