// Laws of the definitions for the crates above: the functions do nothing, and their contracts are the laws.
ghost use Rattle.std.specs.Prelude.{◌≡◌, ℕ, true, List};
ghost use Rattle.arrow_schema.specs.Column.{Column};
ghost use Rattle.field_texts.specs.Typed.{IsTextOf};

/// A text is that of at most one column.
pub fn one_column_of_a_text()
    ensures { (text : List ℕ) (c d : Column) → IsTextOf true text c → IsTextOf true text d → c ≡ d }
{}
