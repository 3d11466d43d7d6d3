// Fields of ASCII, read in place.
ghost use Rattle.std.specs.Prelude.{◌≡◌, ◌+◌, ◌≤◌, ◌<◌, true, length, slice_index, IfOk, IfSome};
ghost use Rattle.std.specs.Str.{is_utf8};
ghost use Rattle.text_columns.specs.declared.builder.ColumnBuilder.{Flat};
ghost use Rattle.text_columns.specs.inner.Kept.{KeepsField};
ghost use Rattle.text_columns.specs.inner.Plain.{IsScanned, IsTextAt, ends_field};
ghost use Rattle.text_import.specs.FieldForm.{field_form};

use crate::builder::ColumnBuilder;
use crate::coding;
use crate::flat::FlatBuilder;
use crate::plain::ends_field;
use std::alloc::AllocError;
use text_import::FieldForm;

/// Where a field ends, and each bit that one of its bytes has: all bytes are ASCII if this is below 128.
#[derive(Clone, Copy)]
pub(crate) struct TextField {
    pub(crate) end: usize,
    pub(crate) bits: u8,
}

// Returns where the field at `from` ends, and the bits of its bytes. Those before `at` have the bits `scanned`.
fn scan_on(text: &[u8], from: usize, at: usize, scanned: u8) -> TextField
    requires scanned { IsScanned text.now from at scanned }
    requires low { from ≤ at }
    requires high { at ≤ length text.now }
    ensures { IsTextAt text.now from result }
{
    let mut bits = scanned;
    for i in at..text.len() {
        if ends_field(text[i]) {
            return TextField { end: i, bits };
        }
        bits |= text[i];
    }
    TextField {
        end: text.len(),
        bits,
    }
}

// Returns where the field at `from` ends, at the latest after sixteen bytes, and the bits of its bytes. The compiler unrolls a loop of so many rounds,
// without a count or a test for the end.
fn scan_sixteen(text: &[u8], from: usize) -> TextField
    requires { from + 16 ≤ length text.now }
    ensures scanned { IsScanned text.now from result.end result.bits }
    ensures low { from ≤ result.end }
    ensures high { result.end ≤ from + 16 }
    ensures stops { result.end < from + 16 → ends_field (slice_index text.now result.end) ≡ true }
{
    let mut bits = 0;
    for k in 0..16 {
        let byte = text[from + k];
        if ends_field(byte) {
            return TextField {
                end: from + k,
                bits,
            };
        }
        bits |= byte;
    }
    TextField {
        end: from + 16,
        bits,
    }
}

/// Returns where the field at `from` ends, and the bits of its bytes.
pub(crate) fn text_field(text: &[u8], from: usize) -> TextField
    requires { from ≤ length text.now }
    ensures { IsTextAt text.now from result }
{
    if text.len() - from < 16 {
        return scan_on(text, from, from, 0);
    }
    let field = scan_sixteen(text, from);
    if field.end < from + 16 {
        return field;
    }
    scan_on(text, from, field.end, field.bits)
}

impl FlatBuilder {
    // Returns whether the column has strings, or a dictionary of strings.
    fn has_texts(&self) -> bool {
        self.values.has_texts()
    }

    // Appends the cell of a field of UTF-8, and returns its weight; `None` if the field is no cell of the column.
    fn push_utf8(&mut self, form: &FieldForm<'_>, text: &[u8]) -> Result<Option<u64>, AllocError>
        requires { is_utf8 text.now ≡ true }
        ensures { IfOk result (λ taken. IfSome taken (λ weight. KeepsField (field_form form.now) text.now weight (Flat self.old) (Flat self.new))) }
    {
        if self.is_null(form.null_text, text) {
            return self.push_null();
        }
        let Some(weight) = coding::push_utf8(&mut self.values, &mut self.coding, text)? else {
            return Ok(None);
        };
        self.valid.push(true)?;
        Ok(Some(weight))
    }
}

impl ColumnBuilder {
    /// Returns whether the column has strings, or a dictionary of strings.
    pub(crate) fn has_texts(&self) -> bool {
        match self {
            ColumnBuilder::Flat(flat) => flat.has_texts(),
            _ => false,
        }
    }

    /// Appends the cell of a field of UTF-8, and returns its weight; `None` if the field is no cell of the column.
    pub(crate) fn push_utf8(
        &mut self,
        form: &FieldForm<'_>,
        text: &[u8],
    ) -> Result<Option<u64>, AllocError>
        requires { is_utf8 text.now ≡ true }
        ensures { IfOk result (λ taken. IfSome taken (λ weight. KeepsField (field_form form.now) text.now weight self.old self.new)) }
    {
        match self {
            ColumnBuilder::Flat(flat) => flat.push_utf8(form, text),
            _ => Ok(None),
        }
    }
}
