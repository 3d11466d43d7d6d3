// Tests the digests by which the streams of an archive are named, of four at once.
ghost use Rattle.std.specs.Prelude.{◌≡◌, ◌++◌, ◌∷◌, [], ◌<◌, true, length, Some, slice_get, IfOk, OnOk, IfNone};
ghost use Rattle.indexmap.specs.IndexMap.{index_map_len};
ghost use Rattle.table_archive.specs.Found.{Entry, are_of_digests, stream_in, streams_in};
ghost use Rattle.table_archive.specs.inner.Named.{digest_with, digests_with, contents};

use crate::reading::ArchiveFault;
use indexmap::IndexMap;
use sha256_lanes::digests_of;
use std::alloc::{AllocError, Global};

// The streams that an archive has, and the digests by which they are named, in the same order.
#[derive(Drop)]
struct NamedStreams<'a> {
    names: Vec<[u8; 32]>,
    streams: Vec<&'a [u8]>,
}

impl<'a> NamedStreams<'a> {
    // Appends a stream and the digest by which it is named.
    fn push_named(&mut self, digest: &[u8; 32], stream: &'a [u8]) -> Result<(), AllocError>
        ensures { OnOk result ((self.new.names.items ≡ self.old.names.items ++ digest.now ∷ [])
            × (contents self.new.streams.items ≡ contents self.old.streams.items ++ stream.now ∷ [])) }
    {
        self.names.push(*digest)?;
        self.streams.push(stream)?;
        Ok(())
    }

    // The same of the stream under this digest, if the archive has it.
    fn push(&mut self, digest: &[u8; 32], found: Option<&'a [u8]>) -> Result<(), AllocError>
        ensures { OnOk result ((self.new.names.items ≡ self.old.names.items ++ digest_with digest.now found.entry)
            × (contents self.new.streams.items ≡ contents self.old.streams.items ++ stream_in found.entry)) }
    {
        match found {
            Some(stream) => self.push_named(digest, stream),
            None => Ok(()),
        }
    }

    // The same of the listed digest at this place.
    fn push_at(
        &mut self,
        streams: &IndexMap<[u8; 32], Option<&'a [u8]>>,
        place: usize,
    ) -> Result<(), AllocError>
        requires { place < index_map_len streams.now }
        ensures { OnOk result ((x : Entry) × (Some x ≡ slice_get streams.now.entries place)
            × (self.new.names.items ≡ self.old.names.items ++ digest_with x.0 x.1)
            × (contents self.new.streams.items ≡ contents self.old.streams.items ++ stream_in x.1)) }
    {
        match streams.get_index(place) {
            Some((digest, found)) => self.push(digest, *found),
            None => Ok(()),
        }
    }
}

// Returns the streams among the listed digests.
fn named_streams<'a>(
    alloc: Global,
    streams: &IndexMap<[u8; 32], Option<&'a [u8]>>,
) -> Result<NamedStreams<'a>, AllocError>
    ensures names { IfOk result (λ named. named.names.items ≡ digests_with streams.now.entries) }
    ensures streams { IfOk result (λ named. contents named.streams.items ≡ streams_in streams.now.entries) }
{
    let mut named = NamedStreams {
        names: Vec::new(alloc),
        streams: Vec::new(alloc),
    };
    for place in 0..streams.len() {
        named.push_at(streams, place)?;
    }
    Ok(named)
}

fn is_same(name: &[u8; 32], found: &[u8; 32]) -> bool
    ensures { result ≡ true → name.now ≡ found.now }
{
    name.as_slice() == found.as_slice()
}

// Returns the first of these digests that is not the one in its place.
fn first_other(names: &[[u8; 32]], found: &[[u8; 32]]) -> Option<[u8; 32]>
    requires { length names.now ≡ length found.now }
    ensures { IfNone result (names.now ≡ found.now) }
{
    for place in 0..names.len() {
        if !is_same(&names[place], &found[place]) {
            return Some(names[place]);
        }
    }
    None
}

/// Tests whether each stream has the digest that it stands under.
///
/// # Errors
/// `BadMember` with the first digest whose stream has another one; `OutOfMemory`.
pub(crate) fn check_digests(
    alloc: Global,
    streams: &IndexMap<[u8; 32], Option<&[u8]>>,
) -> Result<(), ArchiveFault>
    ensures { OnOk result (are_of_digests streams.now.entries ≡ true) }
{
    let named = named_streams(alloc, streams)?;
    let found = digests_of(alloc, &named.streams)?;
    match first_other(&named.names, &found) {
        Some(digest) => Err(ArchiveFault::BadMember(digest)),
        None => Ok(()),
    }
}
