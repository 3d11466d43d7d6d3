// How much spans of slots weigh, without a value for a cell (docs/definitions/arrays.md).
ghost use Rattle.std.specs.Prelude.{◌≡◌, ℕ, ◌+◌, ◌*◌, ◌/◌, ◌<◌, ◌≤◌, true, false, length, map, nat_le, take};
ghost use Rattle.std.specs.List.{list_all};
ghost use Rattle.arrow_schema.specs.Column.{texts, large_texts, binaries, large_binaries, lists, large_lists, fixed_lists, structs, columns_of};
ghost use Rattle.arrow_schema.specs.View.{kind_of, column_of, index_of};
ghost use Rattle.cells.specs.Cell.{null};
ghost use Rattle.cells.specs.Weight.{kind_weight, capped_weight};
ghost use Rattle.columns.specs.Array.{slots_in, contents_in, items_in, children_in, indices_in, dictionary_in, array_list};
ghost use Rattle.columns.specs.CellAt.{is_valid, unless_null, indexed_cell};
ghost use Rattle.columns.specs.Located.{IsSoundPlace, located_cell};
ghost use Rattle.columns.specs.Offsets.{width_of};
ghost use Rattle.columns.specs.Sound.{is_sound, is_kind_sound, are_sound};
ghost use Rattle.columns.specs.Tests.{are_few, are_few_offsets, are_unordered, has_short_validity};
ghost use Rattle.columns.specs.View.{view_array, placed_arrays, IsNoArray};
ghost use Rattle.arrays.specs.inner.EntryWeights.{weights_in};
ghost use Rattle.arrays.specs.inner.Varying.{may_vary};
ghost use Rattle.arrays.specs.inner.Weights.{AreEntryWeights, IsKnownTotal, IsKnownWeight, sum_from, span_weight, plain_weight, valid_weight, masked_weight, parts_span_weight};

use crate::entry_weights::{EntryWeights, sized_entries};
use crate::masked::{masked_sizes_weight, sized_type};
use crate::runs::{are_alike, run_to};
use crate::varying::may_vary;
use arrow_schema::{BitWidth, DataType, DictSpec, Field};
use cells::{TOO_HEAVY, Value, add_weights, multiply_weight, weight};
use columns::{
    ArrayView, CodedSlots, Dictionary, EntryPlace, OffsetWidth, PlacedArray, array_or, entry_count,
    entry_place, indexed_entry,
};

// Of how many entries of a dictionary the weights are kept while its slots are visited.
const FIRST_ENTRIES: usize = 256;

// Of how many slots the weights, each as it is reported, are added in 64 bits without a test.
const MOST_SLOTS: usize = 1 << 32;

// n nulls of a field.
#[tactic(auto, using(cells::specs::laws::Weights::capped_product), unfolding(cells::specs::Weight::weight))]
fn nulls_weight(field: &Field, count: usize) -> u64
    ensures { result ≡ capped_weight (count * kind_weight (kind_of field.now.data_type) null) }
{
    multiply_weight(count as u64, weight(field, &Value::Null))
}

// Texts or binaries that are all valid: one each, and the bytes from the first on up to the end of the last.
fn contents_weight(width: OffsetWidth, view: ArrayView<'_>, from: usize, count: usize) -> u64
    requires long { are_few_offsets (width_of width) (view_array view) ≡ false }
    requires ordered { are_unordered (width_of width) (length (contents_in (view_array view))) (view_array view) ≡ false }
    requires some { 0 < count }
    requires within { from + count ≤ slots_in (view_array view) }
    ensures texts { width_of width ≡ 4 → result ≡ capped_weight (valid_weight texts (view_array view.entry) from count) }
    ensures large_texts { width_of width ≡ 8 → result ≡ capped_weight (valid_weight large_texts (view_array view.entry) from count) }
    ensures binaries { width_of width ≡ 4 → result ≡ capped_weight (valid_weight binaries (view_array view.entry) from count) }
    ensures large_binaries { width_of width ≡ 8 → result ≡ capped_weight (valid_weight large_binaries (view_array view.entry) from count) }
{
    add_weights(count as u64, view.spanned(width, from, count).len as u64)
}

/// The cells at n slots, from one on.
#[tactic(auto, unfolding(cells::specs::Weight::weight, columns::specs::CellAt::cell_at, columns::specs::Sound::is_sound))]
#[cycle(weights)]
fn span_weight(
    field: &Field,
    view: ArrayView<'_>,
    from: usize,
    count: usize,
    none: &PlacedArray,
) -> u64
    requires empty { IsNoArray none.now }
    requires sound { is_sound (column_of field.now) (view_array view) ≡ true }
    requires within { from + count ≤ slots_in (view_array view) }
    ensures { result ≡ capped_weight (span_weight (column_of field.now) (view_array view.entry) from count) }
{
    if !may_vary(&field.data_type) {
        return nulls_weight(field, count);
    }
    match &field.dictionary {
        None => plain_weight(field, view, from, count, none),
        Some(spec) => entries_weight(field, *spec, view, from, count, none),
    }
}

// Without a dictionary. Where some of the slots are null they are not visited run by run, unless what is below them has to be.
#[cycle(weights)]
fn plain_weight(
    field: &Field,
    view: ArrayView<'_>,
    from: usize,
    count: usize,
    none: &PlacedArray,
) -> u64
    requires empty { IsNoArray none.now }
    requires varied { may_vary (kind_of field.now.data_type) ≡ true }
    requires sound { is_kind_sound (kind_of field.now.data_type) (view_array view) ≡ true }
    requires within { from + count ≤ slots_in (view_array view) }
    ensures { result ≡ capped_weight (plain_weight (kind_of field.now.data_type) (view_array view.entry) from count) }
{
    if count == 0 {
        return 0;
    }
    // a number of the code is below 2^64, so that the sum is too
    let _slots = view.slots();
    if are_alike(view, from, from + count) {
        return run_weight(field, view, from, count, none);
    }
    if let Some(sized) = sized_type(&field.data_type) {
        return masked_sizes_weight(sized, view, view, from, count);
    }
    match &field.data_type {
        DataType::Struct(fields) => masked_fields_weight(fields, view, from, count, none),
        _ => runs_weight(field, view, from, count, none),
    }
}

// Run by run; nulls are counted, and weighed once.
#[cycle(weights)]
fn runs_weight(
    field: &Field,
    view: ArrayView<'_>,
    from: usize,
    count: usize,
    none: &PlacedArray,
) -> u64
    requires empty { IsNoArray none.now }
    requires varied { may_vary (kind_of field.now.data_type) ≡ true }
    requires sound { is_kind_sound (kind_of field.now.data_type) (view_array view) ≡ true }
    requires within { from + count ≤ slots_in (view_array view) }
    ensures { result ≡ capped_weight (plain_weight (kind_of field.now.data_type) (view_array view.entry) from count) }
{
    // a number of the code is below 2^64, so that the sum is too
    let _slots = view.slots();
    let end = from + count;
    let mut total = 0;
    let mut nulls = 0;
    let mut start = from;
    while start < end {
        if total == TOO_HEAVY {
            return TOO_HEAVY;
        }
        let next = run_to(view, start, end);
        if view.is_valid(start) {
            let run = valid_weight(&field.data_type, view, start, next - start, none);
            total = add_weights(total, run);
        } else {
            nulls += next - start;
        }
        start = next;
    }
    add_weights(total, nulls_weight(field, nulls))
}

// Structs of which some are null: each field is visited once for all of them. A null struct weighs as if its fields were null.
#[cycle(weights)]
fn masked_fields_weight(
    fields: &[Field],
    view: ArrayView<'_>,
    from: usize,
    count: usize,
    none: &PlacedArray,
) -> u64
    requires empty { IsNoArray none.now }
    requires sound { is_kind_sound (structs (columns_of (map column_of fields.now))) (view_array view) ≡ true }
    requires within { from + count ≤ slots_in (view_array view) }
    ensures { result ≡ capped_weight (plain_weight (structs (columns_of (map column_of fields.now))) (view_array view.entry) from count) }
{
    let children = view.children();
    let mut total = 0;
    for (i, field) in fields.iter().enumerate() {
        let child = ArrayView {
            array: array_or(children, i, none),
            bytes: view.bytes,
            dictionaries: view.dictionaries,
        };
        let part = masked_weight(field, child, view, from, count, none);
        total = add_weights(total, part);
    }
    add_weights(count as u64, total)
}

// The cells of a field at slots, which are null where those of another array are: by the runs of that one, unless offsets tell what they weigh.
#[cycle(weights)]
fn masked_weight(
    field: &Field,
    view: ArrayView<'_>,
    mask: ArrayView<'_>,
    from: usize,
    count: usize,
    none: &PlacedArray,
) -> u64
    requires empty { IsNoArray none.now }
    requires sound { is_sound (column_of field.now) (view_array view) ≡ true }
    requires within { from + count ≤ slots_in (view_array view) }
    requires long { has_short_validity (view_array mask) ≡ false }
    requires below { from + count ≤ slots_in (view_array mask) }
    ensures { result ≡ capped_weight (masked_weight (column_of field.now) (view_array mask.entry) (view_array view.entry) from count) }
{
    if !may_vary(&field.data_type) {
        return nulls_weight(field, count);
    }
    if let (None, Some(sized)) = (&field.dictionary, sized_type(&field.data_type)) {
        return masked_sizes_weight(sized, view, mask, from, count);
    }
    // a number of the code is below 2^64, so that the sum is too
    let _slots = view.slots();
    let end = from + count;
    let mut total = 0;
    let mut nulls = 0;
    let mut start = from;
    while start < end {
        if total == TOO_HEAVY {
            return TOO_HEAVY;
        }
        let next = run_to(mask, start, end);
        if mask.is_valid(start) {
            let run = span_weight(field, view, start, next - start, none);
            total = add_weights(total, run);
        } else {
            nulls += next - start;
        }
        start = next;
    }
    add_weights(total, nulls_weight(field, nulls))
}

// Slots that are all valid, or all not.
#[cycle(weights)]
fn run_weight(
    field: &Field,
    view: ArrayView<'_>,
    from: usize,
    count: usize,
    none: &PlacedArray,
) -> u64
    requires empty { IsNoArray none.now }
    requires varied { may_vary (kind_of field.now.data_type) ≡ true }
    requires sound { is_kind_sound (kind_of field.now.data_type) (view_array view) ≡ true }
    requires some { 0 < count }
    requires within { from + count ≤ slots_in (view_array view) }
    requires alike { (i : ℕ) → from ≤ i → i < from + count → is_valid (view_array view) i ≡ is_valid (view_array view) from }
    ensures { result ≡ capped_weight (plain_weight (kind_of field.now.data_type) (view_array view.entry) from count) }
{
    if view.is_valid(from) {
        valid_weight(&field.data_type, view, from, count, none)
    } else {
        nulls_weight(field, count)
    }
}

// Slots that are all valid: one each, and what they have below.
#[tactic(auto, using(columns::proofs::KindParts::kind_rules), unfolding(columns::specs::Sound::has_sound_children, crate::specs::inner::Varying::may_vary))]
#[cycle(weights)]
fn valid_weight(
    data_type: &DataType,
    view: ArrayView<'_>,
    from: usize,
    count: usize,
    none: &PlacedArray,
) -> u64
    requires empty { IsNoArray none.now }
    requires varied { may_vary (kind_of data_type.now) ≡ true }
    requires sound { is_kind_sound (kind_of data_type.now) (view_array view) ≡ true }
    requires some { 0 < count }
    requires within { from + count ≤ slots_in (view_array view) }
    ensures { result ≡ capped_weight (valid_weight (kind_of data_type.now) (view_array view.entry) from count) }
{
    match data_type {
        DataType::Utf8 => contents_weight(OffsetWidth::Four, view, from, count),
        DataType::LargeUtf8 => contents_weight(OffsetWidth::Eight, view, from, count),
        DataType::Binary => contents_weight(OffsetWidth::Four, view, from, count),
        DataType::LargeBinary => contents_weight(OffsetWidth::Eight, view, from, count),
        DataType::List(item) => items_weight(OffsetWidth::Four, item, view, from, count, none),
        DataType::LargeList(item) => {
            items_weight(OffsetWidth::Eight, item, view, from, count, none)
        }
        DataType::FixedSizeList(size, item) => {
            fixed_items_weight(*size as usize, item, view, from, count, none)
        }
        DataType::Struct(fields) => fields_weight(fields, view, from, count, none),
        _ => unreachable!(),
    }
}

// The items of lists that follow one another are one span.
#[cycle(weights)]
fn items_weight(
    width: OffsetWidth,
    item: &Field,
    view: ArrayView<'_>,
    from: usize,
    count: usize,
    none: &PlacedArray,
) -> u64
    requires empty { IsNoArray none.now }
    requires long { are_few_offsets (width_of width) (view_array view) ≡ false }
    requires ordered { are_unordered (width_of width) (slots_in (items_in (view_array view))) (view_array view) ≡ false }
    requires sound { is_sound (column_of item.now) (items_in (view_array view)) ≡ true }
    requires some { 0 < count }
    requires within { from + count ≤ slots_in (view_array view) }
    ensures lists { width_of width ≡ 4 → result ≡ capped_weight (valid_weight (lists (column_of item.now)) (view_array view.entry) from count) }
    ensures large_lists { width_of width ≡ 8
        → result ≡ capped_weight (valid_weight (large_lists (column_of item.now)) (view_array view.entry) from count) }
{
    let span = view.spanned(width, from, count);
    let items = span_weight(item, view.items_or(none), span.start, span.len, none);
    add_weights(count as u64, items)
}

#[cycle(weights)]
fn fixed_items_weight(
    size: usize,
    item: &Field,
    view: ArrayView<'_>,
    from: usize,
    count: usize,
    none: &PlacedArray,
) -> u64
    requires empty { IsNoArray none.now }
    requires long { nat_le (slots_in (view_array view) * size) (slots_in (items_in (view_array view))) ≡ true }
    requires sound { is_sound (column_of item.now) (items_in (view_array view)) ≡ true }
    requires within { from + count ≤ slots_in (view_array view) }
    ensures { result ≡ capped_weight (valid_weight (fixed_lists size (column_of item.now)) (view_array view.entry) from count) }
{
    // a number of the code is below 2^64, so that the products are too
    let _most = view.item_slots();
    let start = from * size;
    let len = count * size;
    let items = span_weight(item, view.items_or(none), start, len, none);
    add_weights(count as u64, items)
}

#[cycle(weights)]
fn fields_weight(
    fields: &[Field],
    view: ArrayView<'_>,
    from: usize,
    count: usize,
    none: &PlacedArray,
) -> u64
    requires empty { IsNoArray none.now }
    requires sound { are_sound (columns_of (map column_of fields.now)) (slots_in (view_array view)) (children_in (view_array view)) ≡ true }
    requires within { from + count ≤ slots_in (view_array view) }
    ensures { result ≡ capped_weight (valid_weight (structs (columns_of (map column_of fields.now))) (view_array view.entry) from count) }
{
    let parts = parts_weight(
        fields,
        view.children(),
        view.bytes,
        view.dictionaries,
        from,
        count,
        none,
    );
    add_weights(count as u64, parts)
}

/// The same slots of each of some columns.
#[cycle(weights)]
pub(crate) fn parts_weight(
    fields: &[Field],
    arrays: &[PlacedArray],
    bytes: &[u8],
    dictionaries: &[Dictionary],
    from: usize,
    count: usize,
    none: &PlacedArray,
) -> u64
    requires empty { IsNoArray none.now }
    requires sound { are_sound (columns_of (map column_of fields.now)) (from + count) (placed_arrays bytes.now dictionaries.now arrays.now) ≡ true }
    ensures { let columns = columns_of (map column_of fields.now) in
        result ≡ capped_weight (parts_span_weight columns (placed_arrays bytes.now dictionaries.now arrays.now) from count) }
{
    let mut total = 0;
    for (i, field) in fields.iter().enumerate() {
        let view = ArrayView {
            array: array_or(arrays, i, none),
            bytes,
            dictionaries,
        };
        let part = span_weight(field, view, from, count, none);
        total = add_weights(total, part);
    }
    total
}

// The entry at a place, or a null where there is none.
#[cycle(weights)]
fn place_weight(field: &Field, found: Option<EntryPlace<'_>>, none: &PlacedArray) -> u64
    requires empty { IsNoArray none.now }
    requires varied { may_vary (kind_of field.now.data_type) ≡ true }
    requires sound { IsSoundPlace (kind_of field.now.data_type) found }
    ensures { let kind = kind_of field.now.data_type in result ≡ capped_weight (kind_weight kind (located_cell kind found.entry)) }
{
    match found {
        Some(entry) => run_weight(field, entry.view, entry.place, 1, none),
        None => nulls_weight(field, 1),
    }
}

// How many first entries are weighed: no more than the dictionary has.
fn first_count(view: ArrayView<'_>) -> usize
    ensures { result ≤ FIRST_ENTRIES }
{
    entry_count(view.dictionary()).min(FIRST_ENTRIES as u128) as usize
}

// n first entries of a dictionary, each by itself.
#[cycle(weights)]
fn first_weights(
    field: &Field,
    view: ArrayView<'_>,
    few: usize,
    none: &PlacedArray,
) -> [u64; FIRST_ENTRIES]
    requires few { few ≤ FIRST_ENTRIES }
    requires empty { IsNoArray none.now }
    requires varied { may_vary (kind_of field.now.data_type) ≡ true }
    requires sound { list_all (is_kind_sound (kind_of field.now.data_type)) (array_list (dictionary_in (view_array view))) ≡ true }
    ensures { AreEntryWeights (kind_of field.now.data_type) (dictionary_in (view_array view.entry)) (take few result) }
{
    let known = view.dictionary();
    let mut weights = [0; FIRST_ENTRIES];
    for n in 0..few {
        weights[n] = place_weight(field, entry_place(known, view.bytes, n as u128), none);
    }
    weights
}

// Whether a dictionary has no entries but the first ones, and fewer than n slots: their weights are looked up faster than offsets.
fn are_first_alone(view: ArrayView<'_>, count: usize) -> bool {
    let entries = entry_count(view.dictionary());
    entries <= FIRST_ENTRIES as u128 && entries < count as u128
}

// With a dictionary: slot by slot, the entries that the indices name. Where these are texts or binaries in one array, their offsets tell what they weigh;
// and where there are more slots than first entries, these are weighed once.
#[cycle(weights)]
fn entries_weight(
    field: &Field,
    spec: DictSpec,
    view: ArrayView<'_>,
    from: usize,
    count: usize,
    none: &PlacedArray,
) -> u64
    requires empty { IsNoArray none.now }
    requires varied { may_vary (kind_of field.now.data_type) ≡ true }
    requires valid { has_short_validity (view_array view) ≡ false }
    requires long { are_few ((index_of spec).bits / 8) (view_array view) (indices_in (view_array view)) ≡ false }
    requires sound { list_all (is_kind_sound (kind_of field.now.data_type)) (array_list (dictionary_in (view_array view))) ≡ true }
    requires within { from + count ≤ slots_in (view_array view) }
    ensures { let kind = kind_of field.now.data_type in
        result ≡ capped_weight (sum_from (kind_weight kind) (unless_null (indexed_cell (index_of spec) kind) (view_array view.entry)) from count) }
{
    let slots = CodedSlots::new(spec, view);
    if !are_first_alone(view, count) {
        if let Some(entries) = sized_entries(&field.data_type, view) {
            let known = EntryWeights::Sized(entries);
            return slots_weight(field, slots, from, count, known, none);
        }
    }
    let few = first_count(view);
    if count <= few {
        return slots_weight(field, slots, from, count, EntryWeights::First(&[]), none);
    }
    let first = first_weights(field, view, few, none);
    let known = EntryWeights::First(&first[..few]);
    slots_weight(field, slots, from, count, known, none)
}

// What a slot weighs that is null or names one of the entries whose weights are known.
#[inline]
fn known_weight<const SIZE: usize, const SIGNED: bool>(
    slots: CodedSlots<'_>,
    i: usize,
    known: EntryWeights<'_>,
    entries: u64,
    of_null: u64,
) -> Option<u64>
    requires size { SIZE ≡ (index_of slots.spec).bits / 8 }
    requires signed { SIGNED ≡ (index_of slots.spec).signed }
    requires within { i < slots_in (view_array slots.view) }
    requires all { entries ≡ length (weights_in known) }
    ensures { IsKnownWeight slots.entry.spec slots.entry.view (weights_in known.entry) of_null i result }
{
    if !slots.is_valid(i) {
        return Some(of_null);
    }
    match slots.number_below::<SIZE, SIGNED>(i, entries) {
        Some(number) => Some(known.at(number as usize)),
        None => None,
    }
}

// What the slots of a span weigh, whose indices have n bytes, with a sign or without, if each is null or names one of the entries whose
// weights are known.
fn sized_total<const SIZE: usize, const SIGNED: bool>(
    slots: CodedSlots<'_>,
    from: usize,
    count: usize,
    known: EntryWeights<'_>,
    of_null: u64,
) -> Option<u64>
    requires size { SIZE ≡ (index_of slots.spec).bits / 8 }
    requires signed { SIGNED ≡ (index_of slots.spec).signed }
    requires within { from + count ≤ slots_in (view_array slots.view) }
    ensures { IsKnownTotal slots.entry.spec slots.entry.view (weights_in known.entry) of_null from count result }
{
    if count > MOST_SLOTS {
        return None;
    }
    // a number of the code is below 2^64, so that the sum is too
    let _slots = slots.view.slots();
    let entries = known.count();
    let mut total = 0u64;
    for i in from..from + count {
        let weight = known_weight::<SIZE, SIGNED>(slots, i, known, entries, of_null)?;
        total = total.wrapping_add(weight);
    }
    Some(total.min(TOO_HEAVY))
}

// The same, by a loop for each kind of index.
fn known_total(
    slots: CodedSlots<'_>,
    from: usize,
    count: usize,
    known: EntryWeights<'_>,
    of_null: u64,
) -> Option<u64>
    requires { from + count ≤ slots_in (view_array slots.view) }
    ensures { IsKnownTotal slots.entry.spec slots.entry.view (weights_in known.entry) of_null from count result }
{
    match (slots.spec.index.width, slots.spec.index.signed) {
        (BitWidth::Eight, true) => sized_total::<1, true>(slots, from, count, known, of_null),
        (BitWidth::Eight, false) => sized_total::<1, false>(slots, from, count, known, of_null),
        (BitWidth::Sixteen, true) => sized_total::<2, true>(slots, from, count, known, of_null),
        (BitWidth::Sixteen, false) => sized_total::<2, false>(slots, from, count, known, of_null),
        (BitWidth::ThirtyTwo, true) => sized_total::<4, true>(slots, from, count, known, of_null),
        (BitWidth::ThirtyTwo, false) => sized_total::<4, false>(slots, from, count, known, of_null),
        (BitWidth::SixtyFour, true) => sized_total::<8, true>(slots, from, count, known, of_null),
        (BitWidth::SixtyFour, false) => sized_total::<8, false>(slots, from, count, known, of_null),
    }
}

// The same, where the weights of some first entries are known.
#[cycle(weights)]
fn slots_weight(
    field: &Field,
    slots: CodedSlots<'_>,
    from: usize,
    count: usize,
    known: EntryWeights<'_>,
    none: &PlacedArray,
) -> u64
    requires empty { IsNoArray none.now }
    requires varied { may_vary (kind_of field.now.data_type) ≡ true }
    requires sound { list_all (is_kind_sound (kind_of field.now.data_type)) (array_list (dictionary_in (view_array slots.view))) ≡ true }
    requires within { from + count ≤ slots_in (view_array slots.view) }
    requires known { AreEntryWeights (kind_of field.now.data_type) (dictionary_in (view_array slots.view)) (weights_in known) }
    ensures { let kind = kind_of field.now.data_type in
        result ≡ capped_weight
        (sum_from (kind_weight kind) (unless_null (indexed_cell (index_of slots.entry.spec) kind) (view_array slots.entry.view)) from count) }
{
    let of_null = nulls_weight(field, 1);
    if let Some(total) = known_total(slots, from, count, known, of_null) {
        return total;
    }
    // a number of the code is below 2^64, so that the sum is too
    let _slots = slots.view.slots();
    let mut total = 0;
    for i in from..from + count {
        if total == TOO_HEAVY {
            return TOO_HEAVY;
        }
        let entry = slot_weight(field, slots, i, known, none);
        total = add_weights(total, entry);
    }
    total
}

#[inline]
#[cycle(weights)]
fn slot_weight(
    field: &Field,
    slots: CodedSlots<'_>,
    i: usize,
    known: EntryWeights<'_>,
    none: &PlacedArray,
) -> u64
    requires empty { IsNoArray none.now }
    requires varied { may_vary (kind_of field.now.data_type) ≡ true }
    requires sound { list_all (is_kind_sound (kind_of field.now.data_type)) (array_list (dictionary_in (view_array slots.view))) ≡ true }
    requires within { i < slots_in (view_array slots.view) }
    requires known { AreEntryWeights (kind_of field.now.data_type) (dictionary_in (view_array slots.view)) (weights_in known) }
    ensures { let kind = kind_of field.now.data_type in
        result ≡ capped_weight (kind_weight kind (unless_null (indexed_cell (index_of slots.entry.spec) kind) (view_array slots.entry.view) i)) }
{
    if !slots.is_valid(i) {
        return nulls_weight(field, 1);
    }
    match slots.number(i) {
        Some(number) if number < known.count() => known.at(number as usize),
        _ => place_weight(field, indexed_entry(slots.spec, slots.view, i), none),
    }
}
