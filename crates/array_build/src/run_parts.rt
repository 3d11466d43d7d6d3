// The runs of a field of structs.
ghost use Rattle.std.specs.Prelude.{◌≡◌, true, [], ◌∷◌, IfOk, None, length};
ghost use Rattle.array_build.specs.inner.RunParts.{IsPart, IsPartIn, IsPartOf};
ghost use Rattle.dictionary_codes.specs.Masks.{runs_bits};
ghost use Rattle.columns.specs.declared.slot_runs.SlotRun.TheVariants.{Nulls};
ghost use Rattle.arrow_schema.specs.Column.{nulls};
ghost use Rattle.arrow_schema.specs.View.{column_of, kind_of};

use arrow_schema::{DataType, Field};
use columns::{ArrayView, SlotRun};
use dictionary_codes::count_slots;
use std::alloc::{AllocError, Global};

// Returns the slots that the field at an index has for some structs: a null struct has a null, and structs without an array for the field have no slot.
fn part_run<'a>(run: &SlotRun<'a>, place: usize) -> SlotRun<'a>
    ensures { IsPartOf place run.now result }
{
    match run {
        SlotRun::Slots { array, from, len } => match array.children().get(place) {
            Some(child) => SlotRun::Slots {
                array: ArrayView {
                    array: child,
                    bytes: array.bytes,
                    dictionaries: array.dictionaries,
                },
                from: *from,
                len: *len,
            },
            None => SlotRun::Nulls(0),
        },
        SlotRun::Nulls(count) => SlotRun::Nulls(*count),
    }
}

// Makes the runs of the slots that the field at an index has below structs, whatever its type.
fn runs_at<'a>(
    alloc: Global,
    runs: &[SlotRun<'a>],
    place: usize,
) -> Result<Vec<SlotRun<'a>>, AllocError>
    ensures { IfOk result (λ parts. IsPart place runs.now parts.items) }
{
    let mut parts = Vec::with_capacity(alloc, runs.len())?;
    for run in runs {
        parts.push_reserved(part_run(run, place));
    }
    Ok(parts)
}

fn has_nulls_alone(field: &Field) -> bool
    ensures kind { result ≡ true → kind_of field.now.data_type ≡ nulls }
    ensures plain { result ≡ true → field.now.dictionary ≡ None }
{
    matches!(field.data_type, DataType::Null) && field.dictionary.is_none()
}

// Makes one run with a null for each slot of the runs.
fn as_nulls<'a>(alloc: Global, runs: &[SlotRun<'_>]) -> Result<Vec<SlotRun<'a>>, AllocError>
    ensures { IfOk result (λ parts. parts.items ≡ Nulls (length (runs_bits runs.now)) ∷ []) }
{
    let count = count_slots(runs)?;
    let mut parts = Vec::new(alloc);
    parts.push(SlotRun::Nulls(count))?;
    Ok(parts)
}

/// Makes the runs of the slots that a field, which is at an index, has below structs. The slots of a null-typed field have no bytes, and are one run.
pub(crate) fn field_runs<'a>(
    alloc: Global,
    field: &Field,
    runs: &[SlotRun<'a>],
    place: usize,
) -> Result<Vec<SlotRun<'a>>, AllocError>
    ensures { IfOk result (λ parts. IsPartIn (column_of field.now) place runs.now parts.items) }
{
    if has_nulls_alone(field) {
        return as_nulls(alloc, runs);
    }
    runs_at(alloc, runs, place)
}
