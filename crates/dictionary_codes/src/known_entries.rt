// The entries of dictionaries that were seen, and which of them the slots of a column name.
ghost use Rattle.std.proofs.Props.{props};
ghost use Rattle.std.specs.Prelude.{◌≡◌, ◌<◌, ◌++◌, ◌∷◌, ◌^◌, ℕ, [], true, List, Option, IfOk, IfSome, OnErr, OnOk, length, map, get_or, slice_get, Some, None};
ghost use Rattle.dictionary_codes.specs.inner.Codes.{AreKnown, IsNumber, code_in, own_entries};
ghost use Rattle.dictionary_codes.specs.inner.Known.{AreAllKnown, dictionary_entries};
ghost use Rattle.dictionary_codes.specs.inner.Places.{places_in, places_of};
ghost use Rattle.dictionary_codes.specs.inner.Seen.{AreDistinct, ArePlaces, HavePlaces};
ghost use Rattle.cells.specs.Cell.{Cell, null};
ghost use Rattle.cells.specs.Dictionary.{is_entry, with_entry};
ghost use Rattle.cells.specs.Entry.{entry_cell};
ghost use Rattle.columns.specs.Borrowed.{borrowed_cell};

use crate::entry_numbers::number_of;
use crate::known_dictionary::KnownDictionary;
use crate::number_places::{NumberPlaces, WrittenPlaces};
use crate::stamped_numbers::StampedNumbers;
use arrow_schema::Field;
use cells::Entry;
use columns::{ArrayView, entry_count};
use indexmap::IndexSet;
use std::alloc::{AllocError, Global};
use values::ValueRef;

// For each slot so far, how many entries of new dictionaries get a place for their number. To make so many places at once costs less than to look up again one
// entry that was named before.
const ENTRIES_PER_SLOT: usize = 32;

// For each slot of this run, how many bytes of a buffer of its dictionary are compared with those of a known one.
const BYTES_PER_SLOT: usize = 256;

// If there are more dictionaries than this, or more than `MOST_NUMBERS` entries in all of them, what is known of them is forgotten.
const MOST_DICTIONARIES: usize = 64;

const MOST_NUMBERS: usize = 1_048_576;

// If more entries were seen than this, and than the known dictionaries have, all is forgotten.
const MOST_SEEN: usize = 262_144;

// The same limit if a dictionary was new: others will follow, and the known ones may not come again.
const MOST_SEEN_IF_NEW: usize = 16_384;

/// What is known of the entries of dictionaries. It is kept for the next columns and the next rows. Each entry that was seen has a number, so that its bytes
/// are looked up once for each dictionary. The entries that the slots of a column name also have places, in the order in which they are first named.
#[derive(Drop)]
pub struct KnownEntries<'a> {
    pub(crate) seen: IndexSet<Entry<'a>>,
    pub(crate) places: NumberPlaces,
    pub(crate) named: Vec<usize>,
    pub(crate) dictionaries: Vec<KnownDictionary<'a>>,
    // Whether a dictionary was new since the last end.
    pub(crate) are_new: bool,
    // How many more entries of new dictionaries can get places for their numbers: `ENTRIES_PER_SLOT` for each slot so far, without those that got them.
    pub(crate) credit: usize,
    // How many entries were named before the slots of this run.
    pub(crate) named_before: usize,
    pub ghost count: { length places.written.items ≡ length seen.keys },
    pub ghost distinct: { AreDistinct (map entry_cell seen.keys) },
    pub ghost placed: { HavePlaces (places_of places) named.items } by { Prim.hlevel props },
    pub ghost taken: { ArePlaces (places_of places) named.items } by { Prim.hlevel props },
    pub ghost known: { AreAllKnown (map entry_cell seen.keys) dictionaries.items } by { Prim.hlevel props },
}

// Returns places for the numbers of `entries` entries. None of these is known.
fn unknown(alloc: Global, entries: usize) -> Result<StampedNumbers, AllocError>
    ensures { IfOk result (λ known. (seen own : List Cell) → AreKnown seen own known) }
{
    StampedNumbers::none(alloc, entries)
}

// Returns the same places, with no number known any more.
fn doubted(numbers: StampedNumbers) -> StampedNumbers
    ensures { (seen own : List Cell) → AreKnown seen own result }
{
    let mut numbers = numbers;
    numbers.clear();
    numbers
}

// Returns whether a value is the entry that was seen under a number.
fn is_seen_as(seen: &IndexSet<Entry<'_>>, cell: ValueRef<'_>, number: usize) -> bool
    ensures { result ≡ true → is_entry (borrowed_cell cell.entry) (get_or (map entry_cell seen.now.keys) number null) ≡ true }
{
    match (cell.as_entry(), seen.get_index(number)) {
        (Some(own), Some(entry)) => own == *entry,
        _ => false,
    }
}

// Names an entry that has no place: gives its number the next place, and returns that.
#[inline]
fn name(
    places: &mut NumberPlaces,
    named: &mut Vec<usize>,
    number: usize,
) -> Result<usize, AllocError>
    requires within { number < length (places_of places.old) }
    requires placed { HavePlaces (places_of places.old) named.old.items }
    requires taken { ArePlaces (places_of places.old) named.old.items }
    requires free { get_or (places_of places.old) number None ≡ None }
    ensures count { length places.new.written.items ≡ length places.old.written.items }
    ensures placed { HavePlaces (places_of places.new) named.new.items }
    ensures taken { ArePlaces (places_of places.new) named.new.items }
    ensures named { OnOk result (named.new.items ≡ named.old.items ++ number ∷ []) }
    ensures place { IfOk result (λ place. get_or (places_of places.new) number None ≡ Some place) }
{
    let place = named.len();
    named.reserve(1)?;
    places.set(number, place)?;
    named.push_reserved(number);
    Ok(place)
}

// Takes back the places of all named entries.
fn forget_places(places: &mut NumberPlaces, named: &mut Vec<usize>)
    ensures count { length places.new.written.items ≡ length places.old.written.items }
    ensures named { named.new.items ≡ [] }
    ensures placed { HavePlaces (places_of places.new) named.new.items }
    ensures taken { ArePlaces (places_of places.new) named.new.items }
{
    places.clear();
    named.clear();
}

// Adds a value to the entries that were seen, and returns its number; `None` if it is not an entry. A new entry has no place.
fn see<'a>(
    seen: &mut IndexSet<Entry<'a>>,
    places: &mut NumberPlaces,
    cell: ValueRef<'a>,
) -> Result<Option<usize>, AllocError>
    requires { length places.old.written.items ≡ length seen.old.keys }
    ensures count { length places.new.written.items ≡ length seen.new.keys }
    ensures places { (n : ℕ) → get_or (places_of places.new) n None ≡ get_or (places_of places.old) n None }
    ensures distinct { AreDistinct (map entry_cell seen.old.keys) → AreDistinct (map entry_cell seen.new.keys) }
    ensures seen { OnOk result (map entry_cell seen.new.keys ≡ with_entry (map entry_cell seen.old.keys) (borrowed_cell cell.entry)) }
    ensures number { IfOk result (λ number. IsNumber (map entry_cell seen.new.keys) number (borrowed_cell cell.entry)) }
    ensures stay { (n : ℕ) → n < length (map entry_cell seen.old.keys)
        → get_or (map entry_cell seen.new.keys) n null ≡ get_or (map entry_cell seen.old.keys) n null }
{
    places.reserve()?;
    let number = number_of(seen, cell)?;
    if places.written.len() < seen.len() {
        places.push_reserved();
    }
    Ok(number)
}

// Returns how many places for numbers the dictionaries have together.
fn count_numbers(dictionaries: &[KnownDictionary<'_>]) -> usize {
    let mut count: usize = 0;
    for dictionary in dictionaries {
        count = count.saturating_add(dictionary.numbers.len());
    }
    count
}

// Returns the entry that was seen under a number.
fn seen_entry<'a>(seen: &IndexSet<Entry<'a>>, number: usize) -> Entry<'a>
    requires { number < length seen.now.keys }
    ensures { entry_cell result ≡ get_or (map entry_cell seen.now.keys) number null }
{
    seen[number]
}

impl<'a> KnownEntries<'a> {
    ghost use Rattle.dictionary_codes.specs.Named.{named_cells, seen_cells};
    ghost use Rattle.dictionary_codes.specs.declared.known_dictionary.KnownDictionary.{KnownDictionary};

    /// Returns a state in which nothing is known.
    pub fn none(alloc: Global) -> KnownEntries<'a>
        ensures { named_cells result ≡ [] }
    {
        KnownEntries {
            seen: IndexSet::new(alloc),
            places: NumberPlaces::none(alloc),
            named: Vec::new(alloc),
            dictionaries: Vec::new(alloc),
            are_new: false,
            credit: 0,
            named_before: 0,
        }
    }

    // Adds a value to the entries that were seen, and returns its number; `None` if it is not an entry.
    fn look_up(&mut self, cell: ValueRef<'a>) -> Result<Option<usize>, AllocError>
        ensures number { IfOk result (λ number. IsNumber (seen_cells self.new) number (borrowed_cell cell.entry)) }
        ensures seen { OnOk result (seen_cells self.new ≡ with_entry (seen_cells self.old) (borrowed_cell cell.entry)) }
        ensures named { OnOk result (named_cells self.new ≡ named_cells self.old) }
    {
        see(&mut self.seen, &mut self.places, cell)
    }

    /// Returns the number of a value, and adds it to the entries that were seen. It is looked up only if there is no guess or if the guess is wrong. A wrong
    /// one shows that the dictionary is new.
    pub(crate) fn number_by_guess(
        &mut self,
        cell: ValueRef<'a>,
        guess: Option<usize>,
    ) -> Result<Option<usize>, AllocError>
        ensures number { IfOk result (λ number. IsNumber (seen_cells self.new) number (borrowed_cell cell.entry)) }
        ensures seen { OnOk result (seen_cells self.new ≡ with_entry (seen_cells self.old) (borrowed_cell cell.entry)) }
        ensures named { OnOk result (named_cells self.new ≡ named_cells self.old) }
    {
        match guess {
            None => self.look_up(cell),
            Some(number) if is_seen_as(&self.seen, cell, number) => Ok(Some(number)),
            Some(_) => {
                self.are_new = true;
                self.look_up(cell)
            }
        }
    }

    /// Returns the place of the entry with this number among the named ones. It is named if it was not.
    #[inline]
    pub(crate) fn place_of(&mut self, number: usize) -> Result<usize, AllocError>
        requires { number < length (seen_cells self.old) }
        ensures seen { OnOk result (seen_cells self.new ≡ seen_cells self.old) }
        ensures named { OnOk result ((c : Cell) → is_entry c (get_or (seen_cells self.old) number null) ≡ true
            → named_cells self.new ≡ with_entry (named_cells self.old) c) }
        ensures place { IfOk result (λ place. (c : Cell) → is_entry c (get_or (seen_cells self.old) number null) ≡ true
            → Some place ≡ code_in (named_cells self.new) c) }
    {
        match self.places.all().at(number) {
            Some(place) => Ok(place),
            None => name(&mut self.places, &mut self.named, number),
        }
    }

    /// Returns the place of the entry with this number; `None` if it is not named. The places are passed, so that a loop that writes keeps them in registers.
    #[inline]
    pub(crate) fn named_place(&self, places: WrittenPlaces<'_>, number: usize) -> Option<usize>
        requires places { places_in places ≡ places_of self.now.places }
        requires within { number < length (seen_cells self.now) }
        ensures named { IfSome result (λ place. (c : Cell) → is_entry c (get_or (seen_cells self.now) number null) ≡ true
            → named_cells self.now ≡ with_entry (named_cells self.now) c) }
        ensures place { IfSome result (λ place. (c : Cell) → is_entry c (get_or (seen_cells self.now) number null) ≡ true
            → Some place ≡ code_in (named_cells self.now) c) }
    {
        places.at(number)
    }

    /// Returns how many entries are named.
    pub(crate) fn count(&self) -> usize
        ensures { result ≡ length (named_cells self.now) }
    {
        self.named.len()
    }

    /// Returns the named entries, in the order of their places.
    pub(crate) fn entries(&self, alloc: Global) -> Result<Vec<Entry<'a>>, AllocError>
        ensures { IfOk result (λ entries. map entry_cell entries.items ≡ named_cells self.now) }
    {
        let mut entries = Vec::with_capacity(alloc, self.named.len())?;
        for number in &self.named {
            entries.push_reserved(seen_entry(&self.seen, *number));
        }
        Ok(entries)
    }

    // Forgets which entries are named.
    fn clear(&mut self)
        ensures { self.new.named.items ≡ [] }
    {
        forget_places(&mut self.places, &mut self.named);
    }

    // Forgets all, but keeps the memory for it.
    fn forget(&mut self)
        requires { self.old.named.items ≡ [] }
        ensures { self.new.named.items ≡ [] }
    {
        self.dictionaries.clear();
        self.places.written.clear();
        self.seen.clear();
    }

    /// Ends a column: forgets which entries are named. If more entries were seen than the limit, all is forgotten; the limit is lower if a dictionary was new.
    pub fn end(&mut self)
        ensures { named_cells self.new ≡ [] }
    {
        self.clear();
        let most = if self.are_new {
            MOST_SEEN_IF_NEW
        } else {
            count_numbers(&self.dictionaries).max(MOST_SEEN)
        };
        if self.seen.len() > most {
            self.forget();
        }
        self.are_new = false;
    }

    // Returns the index of the known dictionary that is that of an array, of which `slots` slots are visited.
    fn find(&self, field: &Field, array: ArrayView<'_>, slots: usize) -> Option<usize>
        ensures within { IfSome result (λ i. i < length self.now.dictionaries.items) }
        ensures known { IfSome result (λ i. (d : KnownDictionary) → slice_get self.now.dictionaries.items i ≡ Some d
            → dictionary_entries d ≡ own_entries field.now array.entry) }
    {
        let most = slots.saturating_mul(BYTES_PER_SLOT);
        for (i, dictionary) in self.dictionaries.iter().enumerate() {
            if dictionary.is_of(field, array, most) {
                return Some(i);
            }
        }
        None
    }

    // Returns the index of the known dictionary that may be that of an array, by its places.
    fn find_place(&self, array: ArrayView<'_>) -> Option<usize>
        ensures { IfSome result (λ i. i < length self.now.dictionaries.items) }
    {
        for (i, dictionary) in self.dictionaries.iter().enumerate() {
            if dictionary.may_be_of(array) {
                return Some(i);
            }
        }
        None
    }

    // Adds the credit of `slots` slots, and returns whether it covers `entries` entries; if so, it is spent.
    fn pay(&mut self, entries: u128, slots: usize) -> bool
        ensures most { result ≡ true → entries < 2 ^ 64 }
        ensures seen { seen_cells self.new ≡ seen_cells self.old }
        ensures named { named_cells self.new ≡ named_cells self.old }
    {
        self.credit = self
            .credit
            .saturating_add(slots.saturating_mul(ENTRIES_PER_SLOT));
        if entries > self.credit as u128 {
            return false;
        }
        self.credit -= entries as usize;
        true
    }

    // Returns places for the numbers of the entries of a new dictionary, if the credit covers them; otherwise no places.
    fn begin_numbers(
        &mut self,
        alloc: Global,
        array: ArrayView<'_>,
        slots: usize,
    ) -> Result<StampedNumbers, AllocError>
        ensures known { IfOk result (λ numbers. (seen own : List Cell) → AreKnown seen own numbers) }
        ensures seen { seen_cells self.new ≡ seen_cells self.old }
        ensures named { named_cells self.new ≡ named_cells self.old }
    {
        self.are_new = true;
        let entries = entry_count(array.dictionary());
        if self.pay(entries, slots) {
            unknown(alloc, entries as usize)
        } else {
            unknown(alloc, 0)
        }
    }

    /// Takes what is known of the dictionary of an array, of which `slots` slots are visited. If a large dictionary is at the places of an earlier one, the
    /// numbers of that one's entries are guesses.
    pub(crate) fn take_numbers(
        &mut self,
        alloc: Global,
        field: &Field,
        array: ArrayView<'_>,
        slots: usize,
    ) -> Result<StampedNumbers, AllocError>
        ensures known { IfOk result (λ numbers. AreKnown (seen_cells self.old) (own_entries field.now array.entry) numbers) }
        ensures seen { seen_cells self.new ≡ seen_cells self.old }
        ensures named { named_cells self.new ≡ named_cells self.old }
    {
        self.named_before = self.named.len();
        if let Some(i) = self.find(field, array, slots) {
            let known = self.dictionaries.remove(i);
            return Ok(known.numbers);
        }
        if let Some(i) = self.find_place(array) {
            let known = self.dictionaries.remove(i);
            return Ok(doubted(known.numbers));
        }
        self.begin_numbers(alloc, array, slots)
    }

    // Makes room for one more dictionary, of `entries` entries, by forgetting the others.
    fn make_room(&mut self, entries: usize)
        ensures seen { seen_cells self.new ≡ seen_cells self.old }
        ensures named { named_cells self.new ≡ named_cells self.old }
    {
        let numbers = count_numbers(&self.dictionaries).saturating_add(entries);
        if self.dictionaries.len() >= MOST_DICTIONARIES || numbers > MOST_NUMBERS {
            self.dictionaries.clear();
        }
    }

    /// Keeps what is known of the dictionary of an array.
    pub(crate) fn keep_numbers(
        &mut self,
        field: &'a Field,
        array: ArrayView<'a>,
        numbers: StampedNumbers,
    ) -> Result<(), AllocError>
        requires { AreKnown (seen_cells self.old) (own_entries field.now array) numbers }
        ensures seen { OnOk result (seen_cells self.new ≡ seen_cells self.old) }
        ensures named { OnOk result (named_cells self.new ≡ named_cells self.old) }
    {
        if numbers.len() == 0 {
            return Ok(());
        }
        self.make_room(numbers.len());
        self.dictionaries.push(KnownDictionary {
            data_type: &field.data_type,
            bytes: array.bytes,
            arrays: array.dictionary(),
            numbers,
            named: self.named.len().saturating_sub(self.named_before),
        })?;
        Ok(())
    }
}
