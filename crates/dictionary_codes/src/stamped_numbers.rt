// A list of numbers that is cleared at once, however long it is.
ghost use Rattle.std.specs.Prelude.{◌≡◌, ◌<◌, ◌≤◌, ◌*◌, ℕ, IfOk, None, Some, get_or, length, map, set};
ghost use Rattle.dictionary_codes.specs.inner.PlaceFrom.{AreBelow, place_from};

use crate::number_places::place_from;
use std::alloc::{AllocError, Global};
use std::marker::Model;

/// No number is as large as this, so that a number and a stamp have 32 bits together.
pub(crate) const NUMBER_LIMIT: u32 = 1 << 22;

// Up to which `first` there is another stamp.
const LAST_BUT_ONE: u32 = u32::MAX - (2 * NUMBER_LIMIT - 1);

/// Places, some of which have a number. It is written in 4 bytes, as its sum with `first`, which is a stamp times `NUMBER_LIMIT`. To clear it, the stamp is
/// advanced: only the numbers that were written under the last one are there. Contracts see the list of these.
#[derive(Drop)]
pub(crate) struct StampedNumbers {
    numbers: Vec<u32>,
    first: u32,
}

impl Model for StampedNumbers {
    ghost use Rattle.std.specs.Prelude.{List, Option, ℕ, ◌≤◌, ◌+◌, ◌^◌, map};
    ghost use Rattle.dictionary_codes.specs.inner.PlaceFrom.{AreBelow, place_from};
    ghost use Rattle.dictionary_codes.specs.inner.Stamped.{HaveRoom};

    ghost Value = { List (Option ℕ) };

    ghost view = { λ s. map (place_from s.first) s.numbers.items };

    ghost invariant = { λ s. HaveRoom s.first s.numbers.items };
}

// Returns the number that was written at a place with `first`.
#[inline]
fn number_at(numbers: &[u32], first: u32, place: usize) -> Option<usize>
    ensures { result ≡ get_or (map (place_from first) numbers.now) place None }
{
    if place >= numbers.len() {
        return None;
    }
    place_from(first, numbers[place])
}

// Returns places without a number: no list has the stamp 0.
fn unwritten(alloc: Global, places: usize) -> Result<Vec<u32>, AllocError>
    ensures { IfOk result (λ numbers. AreBelow 1 numbers.items) }
{
    let mut numbers = Vec::new(alloc);
    numbers.resize(places, 0)?;
    Ok(numbers)
}

// Returns how a number is written under the first stamp, if it was written under any.
fn under_first(written: u32) -> u32
    ensures { result < 2 * NUMBER_LIMIT }
{
    if written < NUMBER_LIMIT {
        return written;
    }
    NUMBER_LIMIT + written % NUMBER_LIMIT
}

// Writes all numbers under the first stamp.
fn restart(numbers: &mut [u32])
    ensures below { AreBelow (2 * NUMBER_LIMIT) numbers.new }
    ensures count { length numbers.new ≡ length numbers.old }
{
    for i in 0..numbers.len() {
        numbers[i] = under_first(numbers[i]);
    }
}

impl StampedNumbers {
    /// Returns `places` places without a number.
    ///
    /// # Errors
    /// `AllocError` if memory was refused.
    pub(crate) fn none(alloc: Global, places: usize) -> Result<StampedNumbers, AllocError>
        ensures { IfOk result (λ numbers. (n : ℕ) → get_or numbers n None ≡ None) }
    {
        let numbers = unwritten(alloc, places)?;
        Ok(StampedNumbers {
            numbers,
            first: NUMBER_LIMIT,
        })
    }

    /// Returns how many places there are.
    #[inline]
    pub(crate) fn len(&self) -> usize
        ensures { result ≡ length self.now }
    {
        self.numbers.len()
    }

    /// Returns the number at a place, or `None` if it has none.
    #[inline]
    pub(crate) fn get(&self, place: usize) -> Option<usize>
        ensures { result ≡ get_or self.now place None }
    {
        number_at(&self.numbers, self.first, place)
    }

    /// Returns the number that was last written at a place, even if it was cleared since.
    pub(crate) fn last_at(&self, place: usize) -> Option<usize> {
        match self.numbers.get(place) {
            Some(written) if *written >= NUMBER_LIMIT => {
                Some((*written % NUMBER_LIMIT) as usize)
            }
            _ => None,
        }
    }

    /// Writes a number at a place, if there is such a place.
    pub(crate) fn set(&mut self, place: usize, number: u32)
        requires { number < NUMBER_LIMIT }
        ensures { self.new ≡ set self.old place (Some number) }
    {
        if place < self.numbers.len() {
            self.numbers[place] = self.first + number;
        }
    }

    /// Clears the numbers. If the stamps are used up, what was last written at each place is written again, under the first stamp.
    pub(crate) fn clear(&mut self)
        ensures { (n : ℕ) → get_or self.new n None ≡ None }
    {
        if self.first <= LAST_BUT_ONE {
            self.first += NUMBER_LIMIT;
        } else {
            restart(&mut self.numbers);
            self.first = 2 * NUMBER_LIMIT;
        }
    }
}
