// Tests of the dictionaries in effect (dictionary). The expected arrays are worked out by hand from the standard (Arrow columnar format, "Dictionary
// Messages").
use crate::made::{NotMade, assert_no_row};
use columns::{Dictionary, DictionaryPart, PlacedArray, PlacedLayout, Span, known_arrays};
use dictionary::Dictionaries;
use std::alloc::{AllocError, Global};

// The ids that are asked for after each batch. No batch has the last one.
const IDS: [u64; 3] = [3, 0, u64::MAX];

// The id of a batch, whether it is a delta, how many slots its array has, and the slots of the arrays that are in effect for each of `IDS` then.
type Step = (u64, bool, usize, [&'static [usize]; 3]);

const STEPS: &[Step] = &[
    (3, true, 1, [&[1], &[], &[]]),
    (0, false, 2, [&[1], &[2], &[]]),
    (3, true, 4, [&[1, 4], &[2], &[]]),
    (3, false, 5, [&[5], &[2], &[]]),
    (0, true, 6, [&[5], &[2, 6], &[]]),
    (3, true, 5, [&[5, 5], &[2, 6], &[]]),
    (0, false, 0, [&[5, 5], &[0], &[]]),
];

fn array_of(slots: usize) -> PlacedArray {
    PlacedArray {
        slots,
        validity: Span { start: 0, len: 0 },
        layout: PlacedLayout::Null,
    }
}

fn put(alloc: Global, dictionaries: &mut Dictionaries, step: &Step) -> Result<(), AllocError> {
    let (id, is_delta, slots, _) = *step;
    if is_delta {
        dictionaries.append(alloc, id, array_of(slots))
    } else {
        dictionaries.replace(alloc, id, array_of(slots))
    }
}

fn has_slots(lists: &[Dictionary], part: &DictionaryPart, want: &[usize]) -> bool {
    let found = known_arrays(lists, part).arrays;
    found.len() == want.len()
        && found
            .iter()
            .zip(want)
            .all(|(array, slots)| array.slots == *slots)
}

// Returns whether these are the parts after a step.
fn are_parts(lists: &[Dictionary], parts: &[DictionaryPart], step: &Step) -> bool {
    parts.len() == step.3.len()
        && parts
            .iter()
            .zip(&step.3)
            .all(|(part, want)| has_slots(lists, part, want))
}

fn is_known(dictionaries: &Dictionaries, step: &Step) -> bool {
    IDS.iter()
        .zip(&step.3)
        .all(|(id, want)| dictionaries.has(*id) != want.is_empty())
}

// Plays all steps. Returns the place of the first after which the wrong arrays are in effect, or whose parts have other arrays at the end.
fn wrong_step(alloc: Global, steps: &[Step]) -> Result<Option<usize>, NotMade> {
    let mut dictionaries = Dictionaries::new(alloc);
    let mut taken: Vec<Vec<DictionaryPart>> = Vec::new(alloc);
    for (place, step) in steps.iter().enumerate() {
        put(alloc, &mut dictionaries, step)?;
        let parts = dictionaries.parts(alloc, &IDS)?;
        if !is_known(&dictionaries, step) || !are_parts(dictionaries.lists(), &parts, step) {
            return Ok(Some(place));
        }
        taken.push(parts)?;
    }
    let lists = dictionaries.into_lists();
    Ok(
        steps
            .iter()
            .zip(&taken)
            .position(|(step, parts)| !are_parts(&lists, parts, step)),
    )
}

#[test]
fn last_batches_and_their_deltas_are_in_effect(rt: HostRuntime) {
    assert_no_row(&rt, wrong_step(rt.alloc(), STEPS));
}
