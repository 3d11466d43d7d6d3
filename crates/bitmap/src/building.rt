// Builds a mask from words and from bits of other masks, appended one after another.
ghost use Rattle.std.specs.Prelude.{◌≡◌, ℕ, ◌≤◌, ◌<◌, ◌+◌, ◌*◌, ◌^◌, ◌%◌, ◌-◌, Bool, List, [], ◌++◌, length, map, replicate, IfOk, OnOk, OnErr, slice_index, slice_index_or, set, take, bit_or, false};
ghost use Rattle.std.specs.List.{range_with_len};
ghost use Rattle.std.specs.Simd.Lanes.{mask_l};
ghost use Rattle.bitmap.specs.Bits.{bit, bytes_of, packed};
ghost use Rattle.bitmap.specs.inner.Building.{bits_within, IsBuilt};

use crate::bytes_for;
use std::alloc::{AllocError, Global};
use std::marker::Model;

/// A growing mask that packs bits as they are added. Contracts see the list of its bits.
#[derive(Drop)]
pub struct MaskBuilder {
    bytes: Vec<u8>,
    // The number of bits of the last byte that are still free.
    free: usize,
}

impl Model for MaskBuilder {
    ghost use Rattle.std.specs.Prelude.{Bool, List};
    ghost use Rattle.bitmap.specs.inner.Building.{bits_within, IsBuilt};

    ghost Value = { List Bool };

    ghost view = { λ b. bits_within b.bytes.items b.free };

    ghost invariant = { λ b. IsBuilt b.bytes.items b.free };
}

impl MaskBuilder {
    /// Returns a builder without bits, with room for `bits` bits.
    ///
    /// # Errors
    /// `AllocError` if memory was refused.
    pub fn with_capacity(alloc: Global, bits: usize) -> Result<Self, AllocError>
        ensures { IfOk result (λ b. b ≡ []) }
    {
        let bytes = Vec::with_capacity(alloc, bytes_for(bits))?;
        Ok(MaskBuilder { bytes, free: 0 })
    }

    /// Appends the `count` lowest bits of a word, lowest first.
    ///
    /// # Errors
    /// `AllocError` if memory was refused: no bit is added.
    pub fn push_word(&mut self, word: u64, count: usize) -> Result<(), AllocError>
        requires count { count ≤ 64 }
        requires word { word < 2 ^ count }
        ensures ok { (bits : List Bool) → length bits ≡ count → mask_l bits ≡ word → OnOk result (self.new ≡ self.old ++ bits) }
        ensures err { OnErr result (self.new ≡ self.old) }
    {
        add_bits(&mut self.bytes, self.free, word, count)?;
        self.free = (self.free + 64 - count) % 8;
        Ok(())
    }

    /// Appends the same bit `count` times.
    ///
    /// # Errors
    /// `AllocError` if memory was refused: no bit is added.
    pub fn push_alike(&mut self, count: usize, set: bool) -> Result<(), AllocError>
        ensures ok { OnOk result (self.new ≡ self.old ++ replicate count set) }
        ensures err { OnErr result (self.new ≡ self.old) }
    {
        let size = self.bytes.len();
        let free = self.free;
        match self.add_alike(count, set) {
            Ok(()) => Ok(()),
            Err(error) => {
                self.cut_back(size, free);
                Err(error)
            }
        }
    }

    // The same, but some bits may already be added when memory is refused.
    fn add_alike(&mut self, count: usize, set: bool) -> Result<(), AllocError>
        ensures ok { OnOk result (self.new ≡ self.old ++ replicate count set) }
        ensures err { OnErr result (take (length self.old) self.new ≡ self.old) }
    {
        let word = if set { u64::MAX } else { 0 };
        for _ in 0..count / 64 {
            self.push_word(word, 64)?;
        }
        let left = count % 64;
        self.push_word(word % (1 << left), left)
    }

    /// Appends the bits of a mask from bit `from` up to bit `to`. Whole bytes are added a byte at a time, or all at once.
    ///
    /// # Errors
    /// `AllocError` if memory was refused: no bit is added.
    pub fn push_bits(&mut self, mask: &[u8], from: usize, to: usize) -> Result<(), AllocError>
        requires within { to ≤ 8 * length mask.now }
        requires order { from ≤ to }
        ensures ok { OnOk result (self.new ≡ self.old ++ map (bit mask.now) (range_with_len from (to - from))) }
        ensures err { OnErr result (self.new ≡ self.old) }
    {
        let size = self.bytes.len();
        let free = self.free;
        match self.add_bits_of(mask, from, to) {
            Ok(()) => Ok(()),
            Err(error) => {
                self.cut_back(size, free);
                Err(error)
            }
        }
    }

    // The same, but some bits may already be added when memory is refused.
    fn add_bits_of(&mut self, mask: &[u8], from: usize, to: usize) -> Result<(), AllocError>
        requires within { to ≤ 8 * length mask.now }
        requires order { from ≤ to }
        ensures ok { OnOk result (self.new ≡ self.old ++ map (bit mask.now) (range_with_len from (to - from))) }
        ensures err { OnErr result (take (length self.old) self.new ≡ self.old) }
    {
        let first = from.div_ceil(8);
        let end = to / 8;
        if end < first {
            return self.push_in_byte(mask, from, to - from);
        }
        self.push_in_byte(mask, from, 8 * first - from)?;
        self.push_bytes(mask, first, end)?;
        self.push_in_byte(mask, 8 * end, to % 8)
    }

    // Truncates to `size` bytes, of which the last one has `free` free bits.
    fn cut_back(&mut self, size: usize, free: usize)
        requires few { free < 8 }
        requires within { free ≤ 8 * size }
        requires shorter { 8 * size - free ≤ length self.old }
        ensures { self.new ≡ take (8 * size - free) self.old }
    {
        cut(&mut self.bytes, size, free);
        self.free = free;
    }

    // Appends bits of a single byte of a mask.
    fn push_in_byte(&mut self, mask: &[u8], from: usize, count: usize) -> Result<(), AllocError>
        requires within { from + count ≤ 8 * length mask.now }
        requires of_one_byte { from % 8 + count ≤ 8 }
        ensures ok { OnOk result (self.new ≡ self.old ++ map (bit mask.now) (range_with_len from count)) }
        ensures err { OnErr result (take (length self.old) self.new ≡ self.old) }
    {
        if count == 0 {
            return Ok(());
        }
        let word = u64::from(mask[from / 8] >> (from % 8)) % (1 << count);
        self.push_word(word, count)
    }

    // Appends all bits of some bytes of a mask. The bytes are copied if the last byte has no free bits.
    fn push_bytes(&mut self, mask: &[u8], from: usize, to: usize) -> Result<(), AllocError>
        requires within { to ≤ length mask.now }
        requires order { from ≤ to }
        ensures ok { OnOk result (self.new ≡ self.old ++ map (bit mask.now) (range_with_len (8 * from) (8 * (to - from)))) }
        ensures err { OnErr result (take (length self.old) self.new ≡ self.old) }
    {
        if self.free == 0 {
            self.bytes.extend_from_slice(&mask[from..to])?;
            return Ok(());
        }
        for byte in from..to {
            self.push_word(u64::from(mask[byte]), 8)?;
        }
        Ok(())
    }

    /// Returns the bytes with these bits, lowest bit first, with zeros past the last.
    pub fn into_mask(self) -> Vec<u8>
        ensures exact { result.items ≡ packed self }
        ensures bits { (i : ℕ) → bit result.items i ≡ slice_index_or self i false }
        ensures length { length result.items ≡ bytes_of (length self) }
    {
        let MaskBuilder { bytes, free: _ } = self;
        bytes
    }
}

// Appends bits to bytes of which the last one has `free` free bits.
fn add_bits(bytes: &mut Vec<u8>, free: usize, word: u64, count: usize) -> Result<(), AllocError>
    requires built { IsBuilt bytes.old.items free }
    requires count { count ≤ 64 }
    ensures ok { (bits : List Bool) → length bits ≡ count → mask_l bits ≡ word
        → OnOk result (bytes.new.items ≡ packed (bits_within bytes.old.items free ++ bits)) }
    ensures err { OnErr result (bytes.new.items ≡ bytes.old.items) }
{
    if free == 0 {
        return append_bits(bytes, word, count);
    }
    let last = bytes.len() - 1;
    append_bits(bytes, word >> free, count.saturating_sub(free))?;
    fill(bytes.as_mut_slice(), last, free, word);
    Ok(())
}

// Appends bits in new bytes.
fn append_bits(bytes: &mut Vec<u8>, word: u64, count: usize) -> Result<(), AllocError>
    requires { count ≤ 64 }
    ensures ok { (bits : List Bool) → length bits ≡ count → mask_l bits ≡ word → OnOk result (bytes.new.items ≡ bytes.old.items ++ packed bits) }
    ensures longer { length bytes.old.items ≤ length bytes.new.items }
    ensures err { OnErr result (bytes.new.items ≡ bytes.old.items) }
{
    bytes.extend_from_slice(&word.to_le_bytes()[..bytes_for(count)])?;
    Ok(())
}

// Puts the lowest bits of a word into the free bits of a byte, which are its highest.
fn fill(bytes: &mut [u8], at: usize, free: usize, word: u64)
    requires at { at < length bytes.old }
    requires some { 0 < free }
    requires few { free < 8 }
    ensures { bytes.new ≡ set bytes.old at (bit_or (slice_index bytes.old at) (word % 256 * 2 ^ (8 - free) % 256)) }
{
    bytes[at] |= ((word % 256) as u8) << (8 - free);
}

// Keeps the first `size` bytes, and clears the `free` highest bits of the last one.
fn cut(bytes: &mut Vec<u8>, size: usize, free: usize)
    requires few { free < 8 }
    requires within { free ≤ 8 * size }
    requires shorter { size ≤ length bytes.old.items }
    ensures { (bits : List Bool) → bytes.old.items ≡ packed bits → 8 * size - free ≤ length bits
        → bytes.new.items ≡ packed (take (8 * size - free) bits) }
{
    bytes.truncate(size);
    if free > 0 {
        clear(bytes.as_mut_slice(), size - 1, free);
    }
}

// Clears the `free` highest bits of a byte.
fn clear(bytes: &mut [u8], at: usize, free: usize)
    requires at { at < length bytes.old }
    requires some { 0 < free }
    requires few { free < 8 }
    ensures { bytes.new ≡ set bytes.old at (slice_index bytes.old at % 2 ^ (8 - free)) }
{
    bytes[at] %= 1 << (8 - free);
}
