// Reads the segments of a table in order, and some of them ahead of their turn, so that four digests are computed at once.
ghost use Rattle.std.specs.Prelude.{◌≡◌, ◌<◌, ◌≤◌, ◌+◌, ℕ, Bool, true, List, length, Some, IfOk, IfErr, IfSome};
ghost use Rattle.std.specs.List.{list_all};
ghost use Rattle.sha2.specs.Sha256.{sha256};
ghost use Rattle.sector_dev.specs.Disk.{Image, now, shown_image};
ghost use Rattle.catalogue.specs.declared.entry.Segment.{Segment};
ghost use Rattle.catalogue.specs.Entries.{is_segment};
ghost use Rattle.commit.specs.Standing.{is_size};
ghost use Rattle.store_runs.specs.Held.{is_undamaged};
ghost use Rattle.store_runs.specs.Reading.{IsCopy, LacksBytes, OnlyReadsDevice, ended};
ghost use Rattle.store_changes.specs.Source.{AreReadable};
ghost use Rattle.store_changes.specs.Ahead.{segment_at, segments_ahead, segment_ahead, HasBytes, EachEarly, IsAhead, IsNext};

use crate::reading::{has_digest, read_bytes, read_untested};
use crate::source::SegmentSource;
use catalogue::Segment;
use sha256_lanes::four_digests;
use std::alloc::Global;
use tables::Refusal;

// The most bytes that are kept of segments whose digests are computed at once.
const MOST_AT_ONCE: usize = 4 << 20;

// The bytes of three segments, one after another, as far as they were read.
#[derive(Drop)]
struct Early {
    first: Option<Vec<u8>>,
    second: Option<Vec<u8>>,
    third: Option<Vec<u8>>,
}

/// The segments of a table that are read in order, and the bytes of those that were read ahead of their turn.
#[derive(Drop)]
pub struct ReadAhead<'a> {
    pub(crate) segments: &'a [Segment],
    early: Early,
}

impl Early {
    // Nothing was read.
    fn none() -> Early
        ensures { (tells : Bool) (image : Image) (segments : List Segment) (place : ℕ) → EachEarly (IsCopy tells image) segments place result }
    {
        Early {
            first: None,
            second: None,
            third: None,
        }
    }
}

impl<'a> ReadAhead<'a> {
    /// Nothing was read ahead yet.
    pub fn new(segments: &'a [Segment]) -> ReadAhead<'a>
        ensures { (tells : Bool) (image : Image) → IsAhead tells image segments.now 0 result }
    {
        ReadAhead {
            segments,
            early: Early::none(),
        }
    }

    // Takes the bytes of the segment at the place that is next, if they were read ahead.
    fn take_next(&mut self) -> Option<Vec<u8>>
        ensures same { segments_ahead self.new ≡ segments_ahead self.old }
        ensures copy { (tells : Bool) (image : Image) (place : ℕ) → EachEarly (IsCopy tells image) (segments_ahead self.old) place self.old.early
            → IfSome result (λ bytes. IsCopy tells image (segment_ahead self.old place) bytes.items) }
        ensures left { (tells : Bool) (image : Image) (place : ℕ) → EachEarly (IsCopy tells image) (segments_ahead self.old) place self.old.early
            → EachEarly (IsCopy tells image) (segments_ahead self.old) (place + 1) self.new.early }
    {
        let next = self.early.first.take();
        self.early.first = self.early.second.take();
        self.early.second = self.early.third.take();
        next
    }
}

// Reads the segment at this place early, if it has a digest and no more bytes than these. Otherwise, and where its bytes are not
// given, it is read in its turn: what is refused is told then. A failure of the device is told at once.
fn read_early<D: SegmentSource>(
    alloc: Global,
    device: &mut D,
    segments: &[Segment],
    place: usize,
    most: usize,
) -> Result<Option<Vec<u8>>, Refusal>
    requires size { is_size (D.size device.old) ≡ true }
    requires readable { AreReadable (D.can_read device.old) segments.now }
    requires sound { list_all is_segment segments.now ≡ true }
    ensures reads { OnlyReadsDevice D.size D.story D.failed D.tells (ended result) device.old device.new }
    ensures goes_on { D.goes_on device.old device.new }
    ensures bytes { IfOk result (λ found. IfSome found (λ bytes.
        HasBytes D.tells (shown_image (now (D.story device.old))) (segment_at segments.now place) bytes.items)) }
    ensures failed { IfErr result (λ e. e ≡ Refusal.Device) }
{
    if place >= segments.len() {
        return Ok(None);
    }
    let segment = segments[place];
    if segment.digest.is_none() || segment.place.bytes > most as u64 {
        return Ok(None);
    }
    match read_untested(alloc, device, segment, place) {
        Ok(bytes) => Ok(Some(bytes)),
        Err(Refusal::Device) => Err(Refusal::Device),
        Err(_) => Ok(None),
    }
}

// Returns how many more bytes may be kept beside these.
fn most_beside(most: usize, found: &Option<Vec<u8>>) -> usize {
    match found {
        Some(bytes) => most.saturating_sub(bytes.len()),
        None => most,
    }
}

// Reads the three segments from this place on early, if they have no more bytes than these together.
fn read_three<D: SegmentSource>(
    alloc: Global,
    device: &mut D,
    segments: &[Segment],
    place: usize,
    most: usize,
) -> Result<Early, Refusal>
    requires size { is_size (D.size device.old) ≡ true }
    requires readable { AreReadable (D.can_read device.old) segments.now }
    requires sound { list_all is_segment segments.now ≡ true }
    requires inside { place ≤ length segments.now }
    ensures reads { OnlyReadsDevice D.size D.story D.failed D.tells (ended result) device.old device.new }
    ensures goes_on { D.goes_on device.old device.new }
    ensures bytes { IfOk result (EachEarly (HasBytes D.tells (shown_image (now (D.story device.old)))) segments.now place) }
    ensures failed { IfErr result (λ e. e ≡ Refusal.Device) }
{
    let first = read_early(alloc, device, segments, place, most)?;
    let most = most_beside(most, &first);
    let second = read_early(alloc, device, segments, place + 1, most)?;
    let most = most_beside(most, &second);
    let third = read_early(alloc, device, segments, place + 2, most)?;
    Ok(Early {
        first,
        second,
        third,
    })
}

// Returns bytes that were read, or none.
fn bytes_in(found: &Option<Vec<u8>>) -> &[u8]
    ensures { IfSome found.now (λ bytes. result.now ≡ bytes.items) }
{
    match found {
        Some(bytes) => bytes.as_slice(),
        None => &[],
    }
}

// Returns the bytes that were read of the segment at this place, if this is their digest and that of the segment.
fn tested(
    segments: &[Segment],
    place: usize,
    found: Option<Vec<u8>>,
    digest: &[u8; 32],
) -> Option<Vec<u8>>
    ensures { (tells : Bool) (image : Image)
        → IfSome found (λ bytes. HasBytes tells image (segment_at segments.now place) bytes.items × (digest.now ≡ sha256 bytes.items))
        → IfSome result (λ bytes. IsCopy tells image (segment_at segments.now place) bytes.items) }
{
    if place < segments.len() && has_digest(segments[place], digest) {
        found
    } else {
        None
    }
}

// Tests the digests of bytes that were read of the segment at this place, and of those that were read early behind it, of which
// it returns the ones that have theirs.
fn test_at_once(segments: &[Segment], place: usize, bytes: &[u8], early: Early) -> (bool, Early)
    requires inside { place < length segments.now }
    ensures tested { result.0 ≡ is_undamaged (segment_at segments.now place).digest (Some bytes.now) }
    ensures early { (tells : Bool) (image : Image) → EachEarly (HasBytes tells image) segments.now (place + 1) early
        → EachEarly (IsCopy tells image) segments.now (place + 1) result.1 }
{
    let Early {
        first,
        second,
        third,
    } = early;
    let [own, one, two, three] = four_digests(
        bytes,
        bytes_in(&first),
        bytes_in(&second),
        bytes_in(&third),
    );
    let next = place + 1;
    let left = Early {
        first: tested(segments, next, first, &one),
        second: tested(segments, next + 1, second, &two),
        third: tested(segments, next + 2, third, &three),
    };
    (has_digest(segments[place], &own), left)
}

// Reads the segment at this place, and those behind it early. It is read alone if it has no digest, or is the last one.
fn read_at_once<D: SegmentSource>(
    alloc: Global,
    device: &mut D,
    segments: &[Segment],
    place: usize,
) -> Result<(Vec<u8>, Early), Refusal>
    requires size { is_size (D.size device.old) ≡ true }
    requires readable { AreReadable (D.can_read device.old) segments.now }
    requires sound { list_all is_segment segments.now ≡ true }
    requires inside { place < length segments.now }
    ensures reads { OnlyReadsDevice D.size D.story D.failed D.tells (ended result) device.old device.new }
    ensures goes_on { D.goes_on device.old device.new }
    ensures copy { IfOk result (λ read. IsCopy D.tells (shown_image (now (D.story device.old))) (segment_at segments.now place) read.0.items) }
    ensures early { IfOk result (λ read.
        EachEarly (IsCopy D.tells (shown_image (now (D.story device.new)))) segments.now (place + 1) read.1) }
    ensures told { IfErr result (LacksBytes D.tells (shown_image (now (D.story device.old))) (segment_at segments.now place) place) }
{
    let segment = segments[place];
    if segment.digest.is_none() || place + 1 == segments.len() {
        return match read_bytes(alloc, device, segment, place) {
            Ok(bytes) => Ok((bytes, Early::none())),
            Err(refusal) => Err(refusal),
        };
    }
    let bytes = read_untested(alloc, device, segment, place)?;
    let most = MOST_AT_ONCE.saturating_sub(bytes.len());
    let early = read_three(alloc, device, segments, place + 1, most)?;
    let (undamaged, left) = test_at_once(segments, place, &bytes, early);
    if undamaged {
        Ok((bytes, left))
    } else {
        Err(Refusal::SegmentDamaged(place))
    }
}

/// Returns the bytes of the segment at this place, with the digest of its entry if that has one. Those behind it may be read
/// too, of all of which no more than 4 MB are kept.
///
/// # Errors
/// `SegmentUnread` and `SegmentDamaged` with this place; `Device`, also if it fails while a segment behind it is read; `OutOfMemory`.
pub fn next_bytes<D: SegmentSource>(
    alloc: Global,
    device: &mut D,
    ahead: &mut ReadAhead<'_>,
    place: usize,
) -> Result<Vec<u8>, Refusal>
    requires size { is_size (D.size device.old) ≡ true }
    requires next { IsNext (D.can_read device.old) D.tells (shown_image (now (D.story device.old))) place ahead.old }
    ensures reads { OnlyReadsDevice D.size D.story D.failed D.tells (ended result) device.old device.new }
    ensures goes_on { D.goes_on device.old device.new }
    ensures copy { IfOk result (λ bytes.
        IsCopy D.tells (shown_image (now (D.story device.old))) (segment_ahead ahead.old place) bytes.items) }
    ensures told { IfErr result (LacksBytes D.tells (shown_image (now (D.story device.old))) (segment_ahead ahead.old place) place) }
    ensures ahead { IfOk result (λ bytes.
        IsAhead D.tells (shown_image (now (D.story device.new))) (segments_ahead ahead.old) (place + 1) ahead.new) }
{
    let segments = ahead.segments;
    match ahead.take_next() {
        Some(bytes) => Ok(bytes),
        None => match read_at_once(alloc, device, segments, place) {
            Ok((bytes, early)) => {
                ahead.early = early;
                Ok(bytes)
            }
            Err(refusal) => Err(refusal),
        },
    }
}
