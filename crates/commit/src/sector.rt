// The commit sector and its text.
ghost use Rattle.std.specs.Prelude.{◌≡◌, ◌+◌, ◌≤◌, ◌<◌, ◌^◌, ◌%◌, ◌++◌, ℕ, List, length, Option, Some};
ghost use Rattle.segments.specs.Sectors.{filled};
ghost use Rattle.commit.specs.Sector.{version_number, kind_number, commit_text, u64_at, u32_at, version_in, kind_in, fields_of, commit_at, IsCommit};
ghost use Rattle.commit.specs.laws.Sectors.{IsFoundAt};

use byteorder::{ByteOrder, LittleEndian};
use sector_dev::SECTOR_BYTES;
use segments::{Extent, Run};

/// How the catalogue that a commit names is stored.
#[derive(Clone, Copy, Debug, PartialEq, Eq)]
pub enum CatalogueKind {
    /// In a single text.
    Whole,
    /// In a root that names the page of each table.
    Pages,
}

/// The version of the store's format.
#[derive(Clone, Copy, Debug, PartialEq, Eq)]
pub enum FormatVersion {
    /// Segments without digests.
    One,
    /// Each segment with the digest of its bytes.
    Two,
}

/// A state of the store: where its catalogue lies. The newest commit rules.
#[derive(Clone, Copy, Debug, PartialEq, Eq)]
pub struct Commit {
    /// Counted from 1.
    pub epoch: u64,
    pub catalogue: Extent,
    /// The number of sectors of the whole device.
    pub device_sectors: u64,
    pub version: FormatVersion,
    pub kind: CatalogueKind,
}

const LETTERS: [u8; 8] = *b"ARWSTOR1";

impl FormatVersion {
    /// Returns the number of the version in a commit sector.
    pub fn number(self) -> u32
        ensures { result ≡ version_number self }
    {
        match self {
            FormatVersion::One => 1,
            FormatVersion::Two => 2,
        }
    }
}

impl CatalogueKind {
    fn number(self) -> u32
        ensures { result ≡ kind_number self }
    {
        match self {
            CatalogueKind::Whole => 0,
            CatalogueKind::Pages => 1,
        }
    }
}

// Appends a field to the sector.
fn put(sector: &mut [u8; SECTOR_BYTES], at: usize, bytes: &[u8])
    requires { at + length bytes.now ≤ 512 }
    ensures { (front : List ℕ) → length front ≡ at → sector.old ≡ filled front → sector.new ≡ filled (front ++ bytes.now) }
{
    sector[at..at + bytes.len()].copy_from_slice(bytes);
}

// Returns the text of a commit.
pub(crate) fn commit_sector(commit: Commit) -> [u8; SECTOR_BYTES]
    ensures { result ≡ commit_text commit }
{
    let mut sector = [0u8; SECTOR_BYTES];
    put(&mut sector, 0, &LETTERS);
    put(&mut sector, 8, &commit.epoch.to_le_bytes());
    put(&mut sector, 16, &commit.catalogue.run.start.to_le_bytes());
    put(&mut sector, 24, &commit.catalogue.run.count.to_le_bytes());
    put(&mut sector, 32, &commit.catalogue.bytes.to_le_bytes());
    put(&mut sector, 40, &commit.device_sectors.to_le_bytes());
    put(&mut sector, 48, &commit.version.number().to_le_bytes());
    put(&mut sector, 52, &commit.kind.number().to_le_bytes());
    sector
}

fn u64_at(sector: &[u8; SECTOR_BYTES], at: usize) -> u64
    requires { at + 8 ≤ 512 }
    ensures { result ≡ u64_at at sector.now }
{
    LittleEndian::read_u64(&sector[at..])
}

fn u32_at(sector: &[u8; SECTOR_BYTES], at: usize) -> u32
    requires { at + 4 ≤ 512 }
    ensures { result ≡ u32_at at sector.now }
{
    LittleEndian::read_u32(&sector[at..])
}

// Returns the version with the number in the sector. Any other number is rejected later, when the sector is compared with the text of the commit.
fn version(sector: &[u8; SECTOR_BYTES]) -> FormatVersion
    ensures { result ≡ version_in sector.now }
{
    if u32_at(sector, 48) == 2 {
        FormatVersion::Two
    } else {
        FormatVersion::One
    }
}

// Returns the kind with the number in the sector. Any other number is rejected later, when the sector is compared with the text of the commit.
fn kind(sector: &[u8; SECTOR_BYTES]) -> CatalogueKind
    ensures { result ≡ kind_in sector.now }
{
    if u32_at(sector, 52) == 1 {
        CatalogueKind::Pages
    } else {
        CatalogueKind::Whole
    }
}

// Returns the commit of the sector's fields, if the sector is the text of one.
fn fields(sector: &[u8; SECTOR_BYTES]) -> Commit
    ensures { result ≡ fields_of sector.now }
{
    let start = u64_at(sector, 16);
    let count = u64_at(sector, 24);
    let bytes = u64_at(sector, 32);
    Commit {
        epoch: u64_at(sector, 8),
        catalogue: Extent {
            run: Run { start, count },
            bytes,
        },
        device_sectors: u64_at(sector, 40),
        version: version(sector),
        kind: kind(sector),
    }
}

// Returns the commit in the sector with this number, if there is one.
pub(crate) fn commit_in(n: u64, sector: &[u8; SECTOR_BYTES]) -> Option<Commit>
    ensures { result ≡ commit_at n (Some sector.now) }
{
    let commit = fields(sector);
    if commit.epoch > 0 && commit.epoch % 2 == n && *sector == commit_sector(commit) {
        Some(commit)
    } else {
        None
    }
}

/// Each commit has one text, and each text has one commit. A commit is found only in a sector whose 512 bytes are its text, so the version, the kind
/// and the zeros after them are tested, too; none is found in a sector that can't be read.
#[tactic(auto, using(crate::specs::laws::Sectors::found_again, crate::specs::laws::Sectors::found_is))]
pub fn one_text_each()
    ensures again { (c : Commit) → IsCommit c → commit_at (c.epoch % 2) (Some (commit_text c)) ≡ Some c }
    ensures found { (n : ℕ) (x : Option (List ℕ)) (c : Commit) → commit_at n x ≡ Some c → IsFoundAt n x c }
{}
