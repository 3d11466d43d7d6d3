// The digests of a store's segments, and archives of it, by the SHA-256 of the whole archive. An archive with these bytes was made by hand from the page of
// the definition and a store of the same tables, and `tar` lists its members.
use crate::inputs::{Cell, INT};
use crate::made::{NotMade, assert_no_row};
use crate::playing::{Slot, Way, new_slot, play};
use crate::steps::{Step, Steps};
use Cell::Number;
use Step::{Create, Format, Give};
use hex::FromHex;
use sha2::{Digest, Sha256};
use std::alloc::Global;
use store::StoreOrDevice;

// Two tables with a column `a:int32?`: `t` has the rows 7 and 8 in one segment, and `u` has no rows. The epoch is 4.
const TABLES: Steps = &[
    (Format, "ok"),
    (Create("t", INT), "ok"),
    (Create("u", INT), "ok"),
    (Give("t", &[&[Number(7)], &[Number(8)]]), "ok"),
];

const SEGMENT: &str = "781f262941d3ee71fcb4ea29fe5cc11704133ebe336a5d717ffadb3be18cc080";

const OTHER: &str = "44c34489281c48be8b5c256fe77131aa0de1fa0a6eb9074740284ea57665390d";

// With the segment, and without it.
const WHOLE: &str = "066ff1e616c2d970c949dd78edd706073caeb9a99570b496aa93e7555e7bd6fa";

const LESS: &str = "6fb3a6bef3e1a41151ce90ea999b8f4e4a8cef2e555999bf18f613aca2307921";

// The same rows in both tables: two segments of one digest.
const TWINS: Steps = &[
    (Format, "ok"),
    (Create("t", INT), "ok"),
    (Create("u", INT), "ok"),
    (Give("u", &[&[Number(7)], &[Number(8)]]), "ok"),
    (Give("t", &[&[Number(7)], &[Number(8)]]), "ok"),
];

// How steps are taken, which digests the receiver has, and the digest of the archive.
type Row = (Way, &'static [&'static str], &'static str);

const ARCHIVES: &[Row] = &[
    (Way::EachCall, &[], WHOLE),
    (Way::VersionOne, &[], WHOLE),
    (Way::EachCall, &[OTHER], WHOLE),
    (Way::EachCall, &[OTHER, SEGMENT, SEGMENT], LESS),
    (Way::VersionOne, &[SEGMENT], LESS),
];

// How which steps are taken, and the digests.
type DigestRow = (Way, Steps, &'static [&'static str]);

const DIGESTS: &[DigestRow] = &[
    (Way::EachCall, &[(Format, "ok")], &[]),
    (Way::EachCall, TABLES, &[SEGMENT]),
    (Way::VersionOne, TABLES, &[SEGMENT]),
    (Way::EachCall, TWINS, &[SEGMENT]),
    (Way::VersionOne, TWINS, &[SEGMENT]),
];

fn digest_of(text: &str) -> Result<[u8; 32], NotMade> {
    <[u8; 32] as FromHex>::from_hex(text).map_err(|_| NotMade)
}

fn digests_of(alloc: Global, texts: &[&str]) -> Result<Vec<[u8; 32]>, NotMade> {
    let mut digests = Vec::new(alloc);
    for text in texts {
        digests.push(digest_of(text)?)?;
    }
    Ok(digests)
}

fn is_archived(alloc: Global, slot: &mut Slot, row: &Row) -> Result<bool, NotMade> {
    let (way, had, want) = *row;
    if play(alloc, slot, TABLES, way)?.is_some() {
        return Ok(false);
    }
    let Some(StoreOrDevice::Open(store)) = slot else {
        return Err(NotMade);
    };
    let mut archive = Vec::new(alloc);
    store
        .send(alloc, &digests_of(alloc, had)?, &mut archive)
        .map_err(|_| NotMade)?;
    Ok(Sha256::digest(&archive) == digest_of(want)?)
}

fn has_digests(alloc: Global, slot: &mut Slot, row: &DigestRow) -> Result<bool, NotMade> {
    let (way, steps, want) = *row;
    if play(alloc, slot, steps, way)?.is_some() {
        return Ok(false);
    }
    let Some(StoreOrDevice::Open(store)) = slot else {
        return Err(NotMade);
    };
    let digests = store.digests(alloc).map_err(|_| NotMade)?;
    Ok(digests.as_slice() == digests_of(alloc, want)?.as_slice())
}

fn wrong_digests(alloc: Global, rows: &[DigestRow]) -> Result<Option<usize>, NotMade> {
    for (place, row) in rows.iter().enumerate() {
        if !has_digests(alloc, &mut new_slot(alloc, 64)?, row)? {
            return Ok(Some(place));
        }
    }
    Ok(None)
}

fn wrong_archive(alloc: Global, rows: &[Row]) -> Result<Option<usize>, NotMade> {
    for (place, row) in rows.iter().enumerate() {
        if !is_archived(alloc, &mut new_slot(alloc, 64)?, row)? {
            return Ok(Some(place));
        }
    }
    Ok(None)
}

#[test]
fn digests_are_those_of_the_segments(rt: HostRuntime) {
    assert_no_row(&rt, wrong_digests(rt.alloc(), DIGESTS));
}

#[test]
fn archives_are_as_defined(rt: HostRuntime) {
    assert_no_row(&rt, wrong_archive(rt.alloc(), ARCHIVES));
}
