use civil_days::DateForm;

/// The JSON value (RFC 8259) that a row is printed as.
#[derive(Clone, Copy)]
pub enum RowShape {
    /// An array of its values.
    Array,
    /// An object of its values with the names of their columns.
    Object,
}

/// How a row is printed: as which JSON value, and how dates and timestamps stand in it.
#[derive(Clone, Copy)]
pub struct RowForm {
    pub shape: RowShape,
    pub dates: DateForm,
}
