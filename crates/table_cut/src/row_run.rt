// Consecutive rows of a record batch.
ghost use Rattle.std.specs.Prelude.{◌+◌, ◌<◌, ◌^◌};

use columns::{Dictionary, PlacedArray};

/// `len` rows of a record batch, from row `from` on: its arrays, the bytes in which they are, and its dictionaries.
#[derive(Clone, Copy)]
pub struct RowRun<'a> {
    pub arrays: &'a [PlacedArray],
    pub bytes: &'a [u8],
    pub dictionaries: &'a [Dictionary],
    pub from: usize,
    pub len: usize,
    ghost ends: { from + len < 2 ^ 64 },
}

impl<'a> RowRun<'a> {
    ghost use Rattle.std.specs.Prelude.{◌≡◌, ◌≤◌, ◌+◌, ◌-◌, true, take, drop};
    ghost use Rattle.arrow_schema.specs.Column.{Columns};
    ghost use Rattle.table_cut.specs.Rows.{arrays_of_run, run_rows, is_run_sound};

    /// Returns the first `len` of these rows.
    pub fn front(self, len: usize) -> RowRun<'a>
        requires { len ≤ self.len }
        ensures arrays { arrays_of_run result ≡ arrays_of_run self.entry }
        ensures from { result.from ≡ self.entry.from }
        ensures len { result.len ≡ len }
        ensures rows { (columns : Columns) → run_rows columns result ≡ take len (run_rows columns self.entry) }
        ensures sound { (columns : Columns) → is_run_sound columns self.entry ≡ true → is_run_sound columns result ≡ true }
    {
        RowRun {
            arrays: self.arrays,
            bytes: self.bytes,
            dictionaries: self.dictionaries,
            from: self.from,
            len,
        }
    }

    /// Returns the rows after the first `len` of these.
    pub fn skip(self, len: usize) -> RowRun<'a>
        requires { len ≤ self.len }
        ensures arrays { arrays_of_run result ≡ arrays_of_run self.entry }
        ensures from { result.from ≡ self.entry.from + len }
        ensures len { result.len ≡ self.entry.len - len }
        ensures rows { (columns : Columns) → run_rows columns result ≡ drop len (run_rows columns self.entry) }
        ensures sound { (columns : Columns) → is_run_sound columns self.entry ≡ true → is_run_sound columns result ≡ true }
    {
        RowRun {
            arrays: self.arrays,
            bytes: self.bytes,
            dictionaries: self.dictionaries,
            from: self.from + len,
            len: self.len - len,
        }
    }
}
