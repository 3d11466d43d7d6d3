// The dictionaries of a stream.
ghost use Rattle.std.specs.Prelude.{◌≡◌, ◌++◌, ◌<◌, ℕ, true, false, List, [], ◌∷◌, OnOk, OnErr, IfOk, length};
ghost use Rattle.std.specs.List.{list_any, AllByRecursion};
ghost use Rattle.columns.specs.View.{array_in, no_dictionary};
ghost use Rattle.dictionary.specs.InEffect.{DictionaryBatch, has_id};
ghost use Rattle.dictionary.specs.Kept.{HasInEffect, IsInEffect, AreInEffect, KeepsParts, IsPart, StaysWithin, AreWithin};
ghost use Rattle.dictionary.specs.Kept.{arrays_for, known_arrays, lists_of, batch_of, are_kept_within};
ghost use Rattle.dictionary.specs.inner.Numbers.{with_number};
ghost use Rattle.dictionary.specs.inner.Lists.{with_array};

use crate::current::{CurrentList, number_of, set_number};
use columns::{Dictionary, DictionaryPart, PlacedArray};
use std::alloc::{AllocError, Global};
use std::marker::Model;

/// The arrays of all dictionaries of a stream, by the places of their buffers, and which of them are in effect for each id.
#[derive(Drop)]
pub struct Dictionaries {
    lists: Vec<Dictionary>,
    numbers: Vec<CurrentList>,
}

impl Model for Dictionaries {
    ghost use Rattle.dictionary.specs.Kept.{Kept, AreApart, lists_of};
    ghost use Rattle.columns.specs.contracts.array.PlacedArray as placed;
    ghost use Rattle.std.specs.Coded.{codes};

    ghost Value = { Kept };

    ghost coded = { Prim.hlevel (codes, placed.the_row.coded) };

    ghost view = { λ d. record { lists = lists_of d.lists.items; numbers = d.numbers.items } };

    ghost invariant = { λ d. AreApart (lists_of d.lists.items) d.numbers.items };
}

// Makes a list of one array.
fn list_of(alloc: Global, array: PlacedArray) -> Result<Dictionary, AllocError>
    ensures { IfOk result (λ list. list.arrays.items ≡ array ∷ []) }
{
    let mut list = Dictionary::new(alloc);
    list.push(array)?;
    Ok(list)
}

// Begins a new list with one array, and puts it into effect for an id.
fn begin(
    alloc: Global,
    lists: &mut Vec<Dictionary>,
    numbers: &mut Vec<CurrentList>,
    id: u64,
    array: PlacedArray,
) -> Result<(), AllocError>
    ensures longer { OnOk result (lists_of lists.new.items ≡ lists_of lists.old.items ++ (array ∷ []) ∷ []) }
    ensures numbers { OnOk result (numbers.new.items ≡ with_number id (length lists.old.items) numbers.old.items) }
    ensures same_lists { OnErr result (lists.new.items ≡ lists.old.items) }
    ensures same_numbers { OnErr result (numbers.new.items ≡ numbers.old.items) }
{
    let list = list_of(alloc, array)?;
    let number = lists.len();
    numbers.reserve(1)?;
    lists.push(list)?;
    set_number(numbers, id, number);
    Ok(())
}

fn append_at(
    lists: &mut Vec<Dictionary>,
    number: usize,
    array: PlacedArray,
) -> Result<(), AllocError>
    requires { number < length lists.old.items }
    ensures longer { OnOk result (lists_of lists.new.items ≡ with_array number array (lists_of lists.old.items)) }
    ensures unchanged { OnErr result (lists_of lists.new.items ≡ lists_of lists.old.items) }
{
    let list = &mut lists[number];
    list.push(array)
}

impl Dictionaries {
    /// Returns an empty collection: no id has a dictionary.
    pub fn new(alloc: Global) -> Dictionaries
        ensures effect { (bytes : List ℕ) → HasInEffect bytes result [] }
        ensures within { (size : ℕ) → are_kept_within size result ≡ true }
    {
        Dictionaries {
            lists: Vec::new(alloc),
            numbers: Vec::new(alloc),
        }
    }

    /// Returns all lists of arrays. A part of a dictionary refers to a list by its number.
    pub fn lists(&self) -> &[Dictionary]
        ensures { lists_of result.now ≡ self.now.lists }
    {
        &self.lists
    }

    /// Consumes the dictionaries and returns the lists.
    pub fn into_lists(self) -> Vec<Dictionary>
        ensures { lists_of result.items ≡ self.lists }
    {
        let Dictionaries { lists, .. } = self;
        lists
    }

    /// Returns whether an id has a dictionary.
    pub fn has(&self, id: u64) -> bool
        ensures { (bytes : List ℕ) (before : List DictionaryBatch) → HasInEffect bytes self.now before → result ≡ list_any (has_id id) before }
    {
        self.part(id).count > 0
    }

    /// Returns the part of an id's dictionary that is known now: all arrays that are in effect.
    pub fn part(&self, id: u64) -> DictionaryPart
        ensures known { known_arrays self.now.lists result ≡ arrays_for self.now id }
        ensures stands { IsPart self.now.lists result }
        ensures effect { IsInEffect self.now id result }
    {
        match number_of(&self.numbers, id) {
            None => DictionaryPart {
                number: 0,
                count: 0,
            },
            Some(number) => DictionaryPart {
                number,
                count: self.lists[number].arrays.len(),
            },
        }
    }

    /// Returns the parts of the dictionaries of these ids, in order, as the columns of a record batch take them.
    ///
    /// # Errors
    /// `AllocError` if memory was refused.
    pub fn parts(&self, alloc: Global, ids: &[u64]) -> Result<Vec<DictionaryPart>, AllocError>
        ensures stand { IfOk result (λ parts. AllByRecursion (IsPart self.now.lists) parts.items) }
        ensures effect { IfOk result (λ parts. AreInEffect self.now ids.now parts.items) }
        ensures within { IfOk result (λ parts. AreWithin self.now parts.items) }
    {
        let mut parts = Vec::with_capacity(alloc, ids.len())?;
        for id in ids {
            parts.push(self.part(*id))?;
        }
        Ok(parts)
    }

    /// Begins the dictionary of an id anew, with one array. Arrays that were read before keep their dictionaries.
    ///
    /// # Errors
    /// `AllocError` if memory was refused: the dictionaries are unchanged.
    pub fn replace(&mut self, alloc: Global, id: u64, array: PlacedArray) -> Result<(), AllocError>
        ensures effect { OnOk result ((bytes : List ℕ) (before : List DictionaryBatch) → HasInEffect bytes self.old before
            → HasInEffect bytes self.new (before ++ batch_of id false (array_in bytes no_dictionary array) ∷ [])) }
        ensures parts { OnOk result (KeepsParts self.old.lists self.new.lists) }
        ensures within { OnOk result (StaysWithin self.old array self.new) }
        ensures unchanged { OnErr result (self.new ≡ self.old) }
    {
        let (lists, numbers) = (&mut self.lists, &mut self.numbers);
        begin(alloc, lists, numbers, id, array)
    }

    /// Appends an array to the dictionary of an id. Arrays that were read before keep their dictionaries.
    ///
    /// # Errors
    /// `AllocError` if memory was refused: the dictionaries are unchanged.
    pub fn append(&mut self, alloc: Global, id: u64, array: PlacedArray) -> Result<(), AllocError>
        ensures effect { OnOk result ((bytes : List ℕ) (before : List DictionaryBatch) → HasInEffect bytes self.old before
            → HasInEffect bytes self.new (before ++ batch_of id true (array_in bytes no_dictionary array) ∷ [])) }
        ensures parts { OnOk result (KeepsParts self.old.lists self.new.lists) }
        ensures within { OnOk result (StaysWithin self.old array self.new) }
        ensures unchanged { OnErr result (self.new ≡ self.old) }
    {
        match number_of(&self.numbers, id) {
            Some(number) => append_at(&mut self.lists, number, array),
            None => begin(alloc, &mut self.lists, &mut self.numbers, id, array),
        }
    }
}
