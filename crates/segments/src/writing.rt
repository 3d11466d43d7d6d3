// Writes runs of sectors.
ghost use Rattle.std.specs.Prelude.{◌≡◌, ◌+◌, ◌++◌, ◌*◌, ◌/◌, ◌≤◌, ◌<◌, ◌^◌, ◌∷◌, [], length, true, OnOk, OnErr, IfErr, Some};
ghost use Rattle.sector_dev.specs.Disk.{now, shown_image, Counts};
ghost use Rattle.sector_dev.specs.Rows.{GrowsBy, FailsAmong};
ghost use Rattle.segments.specs.Pieces.{bytes_of_parts, plain_pieces};
ghost use Rattle.segments.specs.Runs.{AreApart};
ghost use Rattle.segments.specs.Sectors.{sector_count, filled, Holds, bytes_at};
ghost use Rattle.segments.specs.Writing.{run_for, runs_of, OnlyWrites, LeavesOthers, AllFit, HoldsEach, run_writes, piece_writes};
ghost use Rattle.segments.specs.inner.Tails.{tail_bytes, whole_bytes, rest_bytes};

use crate::tail::Tail;
use crate::{Piece, PiecePart};
use sector_dev::{DevError, SECTOR_BYTES, SectorDevice};

// Returns the sector that starts with these bytes and is otherwise zero.
fn filled_sector(bytes: &[u8]) -> [u8; SECTOR_BYTES]
    requires { length bytes.now ≤ 512 }
    ensures { result ≡ filled bytes.now }
{
    let mut sector = [0u8; SECTOR_BYTES];
    sector[..bytes.len()].copy_from_slice(bytes);
    sector
}

// Writes the whole sectors of a tail and the bytes after it, and leaves the rest in the tail. The bytes of a part are copied only if they share a
// sector with those of another part.
fn write_part<D: SectorDevice>(
    device: &mut D,
    tail: &mut Tail,
    bytes: &[u8],
) -> Result<(), DevError>
    requires partial { length (tail_bytes tail.old) < 512 }
    requires within { tail.old.start + length (tail_bytes tail.old ++ bytes.now) / 512 ≤ D.size device.old }
    requires countable { 512 * D.size device.old < 2 ^ 64 }
    ensures size { D.size device.new ≡ D.size device.old }
    ensures count { Counts (D.failed device.old) (D.failed device.new) result }
    ensures error { IfErr result (λ e. e ≡ DevError.Failed) }
    ensures order { OnOk result
        (D.tells ≡ true → GrowsBy (run_writes tail.old.start (whole_bytes (tail_bytes tail.old ++ bytes.now))) (D.story device.old) (D.story device.new)) }
    ensures cut_short { OnErr result
        (D.tells ≡ true
        → FailsAmong (run_writes tail.old.start (whole_bytes (tail_bytes tail.old ++ bytes.now))) (D.story device.old) (D.story device.new)) }
    ensures start { OnOk result (tail.new.start ≡ tail.old.start + length (tail_bytes tail.old ++ bytes.now) / 512) }
    ensures rest { OnOk result (tail_bytes tail.new ≡ rest_bytes (tail_bytes tail.old ++ bytes.now)) }
{
    let taken = tail.fill(bytes);
    let Some(sector) = tail.full() else {
        return Ok(());
    };
    device.write(tail.start, sector)?;
    let (whole, rest) = bytes[taken..].as_chunks::<SECTOR_BYTES>();
    device.write_sectors(tail.start + 1, whole)?;
    tail.restart(1 + whole.len() as u64, rest);
    Ok(())
}

// Writes the rest, zero-filled.
fn write_tail<D: SectorDevice>(device: &mut D, tail: &Tail) -> Result<(), DevError>
    requires partial { length (tail_bytes tail.now) < 512 }
    requires within { tail.now.start + sector_count (length (tail_bytes tail.now)) ≤ D.size device.old }
    ensures size { D.size device.new ≡ D.size device.old }
    ensures count { Counts (D.failed device.old) (D.failed device.new) result }
    ensures error { IfErr result (λ e. e ≡ DevError.Failed) }
    ensures order { OnOk result (D.tells ≡ true → GrowsBy (run_writes tail.now.start (tail_bytes tail.now)) (D.story device.old) (D.story device.new)) }
    ensures cut_short { OnErr result (D.tells ≡ true
        → FailsAmong (run_writes tail.now.start (tail_bytes tail.now)) (D.story device.old) (D.story device.new)) }
{
    if tail.bytes().is_empty() {
        return Ok(());
    }
    device.write(tail.start, &filled_sector(tail.bytes()))
}

// Writes the bytes of parts in order, from this sector on.
fn write_parts<D: SectorDevice>(
    device: &mut D,
    start: u64,
    parts: &[PiecePart<'_>],
) -> Result<(), DevError>
    requires within { start + sector_count (length (bytes_of_parts parts.now)) ≤ D.size device.old }
    requires countable { 512 * D.size device.old < 2 ^ 64 }
    ensures size { D.size device.new ≡ D.size device.old }
    ensures count { Counts (D.failed device.old) (D.failed device.new) result }
    ensures error { IfErr result (λ e. e ≡ DevError.Failed) }
    ensures order { OnOk result (D.tells ≡ true → GrowsBy (run_writes start (bytes_of_parts parts.now)) (D.story device.old) (D.story device.new)) }
    ensures cut_short { OnErr result (D.tells ≡ true → FailsAmong (run_writes start (bytes_of_parts parts.now)) (D.story device.old) (D.story device.new)) }
{
    let mut tail = Tail::new(start);
    for part in parts {
        write_part(device, &mut tail, part.bytes())?;
    }
    write_tail(device, &tail)
}

/// Writes the bytes from this sector on, in ascending sectors, zero-filled to the end of the last one.
///
/// # Errors
/// `Failed` only: the device failed.
pub fn write_run<D: SectorDevice>(device: &mut D, start: u64, bytes: &[u8]) -> Result<(), DevError>
    requires within { start + sector_count (length bytes.now) ≤ D.size device.old }
    requires countable { 512 * D.size device.old < 2 ^ 64 }
    ensures size { D.size device.new ≡ D.size device.old }
    ensures count { Counts (D.failed device.old) (D.failed device.new) result }
    ensures error { IfErr result (λ e. e ≡ DevError.Failed) }
    ensures moments { D.tells ≡ true → OnlyWrites (run_for start bytes.now ∷ []) (D.story device.old) (D.story device.new) }
    ensures others { D.tells ≡ true → LeavesOthers (run_for start bytes.now ∷ []) (D.story device.old) (D.story device.new) }
    ensures holds { OnOk result (D.tells ≡ true → Holds (shown_image (now (D.story device.new))) start bytes.now) }
    ensures reads { OnOk result (D.tells ≡ true → bytes_at (shown_image (now (D.story device.new))) start (length bytes.now) ≡ Some bytes.now) }
    ensures order { OnOk result (D.tells ≡ true → GrowsBy (run_writes start bytes.now) (D.story device.old) (D.story device.new)) }
    ensures cut_short { OnErr result (D.tells ≡ true → FailsAmong (run_writes start bytes.now) (D.story device.old) (D.story device.new)) }
{
    write_parts(device, start, &[PiecePart::Borrowed(bytes)])
}

/// Writes each piece into its run, in order.
///
/// # Errors
/// `Failed` only: the device failed.
pub fn write_runs<D: SectorDevice>(device: &mut D, pieces: &[Piece<'_>]) -> Result<(), DevError>
    requires fit { AllFit (D.size device.old) (plain_pieces pieces.now) }
    requires apart { AreApart (runs_of (plain_pieces pieces.now)) }
    requires countable { 512 * D.size device.old < 2 ^ 64 }
    ensures size { D.size device.new ≡ D.size device.old }
    ensures count { Counts (D.failed device.old) (D.failed device.new) result }
    ensures error { IfErr result (λ e. e ≡ DevError.Failed) }
    ensures moments { D.tells ≡ true → OnlyWrites (runs_of (plain_pieces pieces.now)) (D.story device.old) (D.story device.new) }
    ensures others { D.tells ≡ true → LeavesOthers (runs_of (plain_pieces pieces.now)) (D.story device.old) (D.story device.new) }
    ensures holds { OnOk result (D.tells ≡ true → HoldsEach (shown_image (now (D.story device.new))) (plain_pieces pieces.now)) }
    ensures order { OnOk result (D.tells ≡ true → GrowsBy (piece_writes (plain_pieces pieces.now)) (D.story device.old) (D.story device.new)) }
    ensures cut_short { OnErr result (D.tells ≡ true → FailsAmong (piece_writes (plain_pieces pieces.now)) (D.story device.old) (D.story device.new)) }
{
    for piece in pieces {
        write_parts(device, piece.run.start, &piece.parts)?;
    }
    Ok(())
}
