// The cells of a table.

/// A value. Integers, dates and timestamps are `Int`; strings and binaries of either width are `Text` and `Bytes`; a null of any type is `Null`.
#[derive(Debug, Drop)]
pub enum Value {
    Null,
    Bool(bool),
    Int(i128),
    Text(String),
    Bytes(Vec<u8>),
    List(Vec<Value>),
    Struct(Vec<Value>),
}

impl Value {
    ghost use Rattle.std.specs.Prelude.{◌≡◌, ◌↔◌, IsTrue};
    ghost use Rattle.cells.specs.Cell.{null};
    ghost use Rattle.cells.specs.View.{cell};

    /// Returns whether the value is a null.
    pub fn is_null(&self) -> bool
        ensures { IsTrue result ↔ (cell self.now ≡ null) }
    {
        matches!(self, Value::Null)
    }
}
