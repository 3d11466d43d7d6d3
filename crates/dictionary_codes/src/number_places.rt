// The places of numbers in a list. All are taken back at once, however many they are.
ghost use Rattle.std.proofs.Props.{props};
ghost use Rattle.std.specs.Prelude.{◌≡◌, ◌≤◌, ◌<◌, ◌+◌, ◌^◌, IfOk};
ghost use Rattle.dictionary_codes.specs.inner.PlaceFrom.{AreBelow, place_from};

use std::alloc::{AllocError, Global};

// All are written anew if a number of 32 bits has room for fewer places than this. No table has as many entries, because of its weight.
const LEAST_ROOM: u32 = 1 << 31;

/// For each number its place, if it has one. A place is written in 4 bytes, as its sum with `first`. Less than `first` is no place: so all are taken back if
/// `first` is advanced past the last one.
#[derive(Drop)]
pub(crate) struct NumberPlaces {
    pub(crate) written: Vec<u32>,
    pub(crate) first: u32,
    // Past the last one that was written.
    pub(crate) end: u32,
    pub ghost some: { 1 ≤ first },
    pub ghost order: { first ≤ end },
    pub ghost below: { AreBelow end written.items } by { Prim.hlevel props },
}

/// The places of a [`NumberPlaces`], to be read only: a loop that writes keeps them in registers.
#[derive(Clone, Copy)]
pub(crate) struct WrittenPlaces<'a> {
    pub(crate) written: &'a [u32],
    pub(crate) first: u32,
}

/// Returns the place that is written as `written`, or `None` if that is less than `first`.
#[inline]
pub(crate) fn place_from(first: u32, written: u32) -> Option<usize>
    ensures { result ≡ place_from first written }
{
    if written < first {
        return None;
    }
    Some((written - first) as usize)
}

// Returns how a place is written, if the next number has 32 bits too. If it does not, memory has no room for so many entries.
fn written_as(first: u32, place: usize) -> Result<u32, AllocError>
    ensures sum { IfOk result (λ written. written ≡ first + place) }
    ensures small { IfOk result (λ written. written + 1 < 2 ^ 32) }
{
    if place < (u32::MAX - first) as usize {
        return Ok(first + place as u32);
    }
    Err(AllocError)
}

impl<'a> WrittenPlaces<'a> {
    ghost use Rattle.std.specs.Prelude.{None, get_or, length};
    ghost use Rattle.dictionary_codes.specs.inner.Places.{places_in};

    /// Returns the place of a number, or `None` if it has none.
    #[inline]
    pub(crate) fn at(self, number: usize) -> Option<usize>
        requires { number < length (places_in self) }
        ensures { result ≡ get_or (places_in self.entry) number None }
    {
        place_from(self.first, self.written[number])
    }
}

impl NumberPlaces {
    ghost use Rattle.std.specs.Prelude.{◌++◌, [], ◌∷◌, ℕ, OnErr, OnOk, None, Some, get_or, length, set, vec_capacity, vec_len};
    ghost use Rattle.dictionary_codes.specs.inner.Places.{places_in, places_of};

    /// Returns the places of no numbers.
    pub(crate) fn none(alloc: Global) -> NumberPlaces
        ensures { places_of result ≡ [] }
    {
        NumberPlaces {
            written: Vec::new(alloc),
            first: 1,
            end: 1,
        }
    }

    /// Returns the places, to be read only.
    #[inline]
    pub(crate) fn all(&self) -> WrittenPlaces<'_>
        ensures { places_in result ≡ places_of self.now }
    {
        WrittenPlaces {
            written: &self.written,
            first: self.first,
        }
    }

    /// Gives a number a place.
    ///
    /// # Errors
    /// `AllocError` if memory has no room for so many entries. The places are unchanged then.
    #[inline]
    pub(crate) fn set(&mut self, number: usize, place: usize) -> Result<(), AllocError>
        requires { number < length (places_of self.old) }
        ensures ok { OnOk result (places_of self.new ≡ set (places_of self.old) number (Some place)) }
        ensures err { OnErr result (places_of self.new ≡ places_of self.old) }
    {
        let written = written_as(self.first, place)?;
        self.written[number] = written;
        self.end = self.end.max(written + 1);
        Ok(())
    }

    /// Makes room for one more number.
    ///
    /// # Errors
    /// `AllocError` if memory was refused.
    pub(crate) fn reserve(&mut self) -> Result<(), AllocError>
        ensures places { places_of self.new ≡ places_of self.old }
        ensures count { length self.new.written.items ≡ length self.old.written.items }
        ensures room { OnOk result (vec_len self.new.written < vec_capacity self.new.written) }
    {
        self.written.reserve(1)
    }

    /// Appends a number that has no place. There must be room for it.
    pub(crate) fn push_reserved(&mut self)
        requires { vec_len self.old.written < vec_capacity self.old.written }
        ensures places { places_of self.new ≡ places_of self.old ++ None ∷ [] }
        ensures count { length self.new.written.items ≡ length self.old.written.items + 1 }
    {
        self.written.push_reserved(0);
    }

    /// Takes all places back. The numbers stay.
    pub(crate) fn clear(&mut self)
        ensures none { (n : ℕ) → get_or (places_of self.new) n None ≡ None }
        ensures count { length self.new.written.items ≡ length self.old.written.items }
    {
        if self.end > LEAST_ROOM {
            self.written.fill(0);
            self.first = 1;
            self.end = 1;
        } else {
            self.first = self.end;
        }
    }
}
