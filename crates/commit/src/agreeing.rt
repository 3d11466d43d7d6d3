// Tests whether the commit sectors hold only what commits leave there.
ghost use Rattle.std.specs.Prelude.{◌≡◌, ◌<◌, ◌+◌, ◌==◌, true, Some, IfOk, IfErr};
ghost use Rattle.sector_dev.specs.Disk.{now, shown_image, Counts};
ghost use Rattle.sector_dev.specs.Time.{OnlyReads};
ghost use Rattle.commit.specs.Standing.{is_size};
ghost use Rattle.commit.specs.Agreeing.{content_at, is_next, agree, commits_agree};

use crate::Commit;
use crate::sector::commit_in;
use sector_dev::{DevError, SECTOR_BYTES, SectorDevice};

// The content of a commit sector.
#[derive(Clone, Copy)]
enum CommitSector {
    // Zeros, as before its first commit, or unreadable, as a crash may leave it.
    Empty,
    Holds(Commit),
    // Anything that no commit leaves there.
    Changed,
}

// Returns the content of these bytes in the sector with this number.
fn content_in(n: u64, sector: &[u8; SECTOR_BYTES]) -> CommitSector
    ensures { result ≡ content_at n (Some sector.now) }
{
    match commit_in(n, sector) {
        Some(commit) => CommitSector::Holds(commit),
        None => {
            if *sector == [0u8; SECTOR_BYTES] {
                CommitSector::Empty
            } else {
                CommitSector::Changed
            }
        }
    }
}

// Reads the content of the sector with this number.
fn read_content<D: SectorDevice>(device: &mut D, n: u64) -> Result<CommitSector, DevError>
    requires { n < D.size device.old }
    ensures size { D.size device.new ≡ D.size device.old }
    ensures count { Counts (D.failed device.old) (D.failed device.new) result }
    ensures error { IfErr result (λ e. e ≡ DevError.Failed) }
    ensures moments { D.tells ≡ true → OnlyReads (D.story device.old) (D.story device.new) }
    ensures found { IfOk result (λ content. D.tells ≡ true → content_at n (shown_image (now (D.story device.old)) n) ≡ content) }
{
    let mut sector = [0u8; SECTOR_BYTES];
    match device.read(n, &mut sector) {
        Ok(()) => Ok(content_in(n, &sector)),
        Err(DevError::Unreadable) => Ok(CommitSector::Empty),
        Err(DevError::Failed) => Err(DevError::Failed),
    }
}

// Returns whether the epoch of `b` follows that of `a`.
fn is_next(a: Commit, b: Commit) -> bool
    ensures { result ≡ is_next a b }
{
    a.epoch < b.epoch && b.epoch - a.epoch == 1
}

fn agree(zeroth: CommitSector, first: CommitSector) -> bool
    ensures { result ≡ agree zeroth first }
{
    match zeroth {
        CommitSector::Empty => match first {
            CommitSector::Empty => true,
            CommitSector::Holds(_) => true,
            CommitSector::Changed => false,
        },
        CommitSector::Holds(a) => match first {
            CommitSector::Empty => true,
            CommitSector::Holds(b) => is_next(a, b) || is_next(b, a),
            CommitSector::Changed => false,
        },
        CommitSector::Changed => false,
    }
}

/// Returns whether the two commit sectors hold only what commits leave there, whenever they were interrupted: each holds a commit or zeros, or can't
/// be read, and of two commits one has the epoch after that of the other. If not, something else has changed a sector, and the commit that rules may
/// not be the newest that was acknowledged. Reads both sectors and changes nothing.
///
/// # Errors
/// `Failed` only: the device failed.
pub fn commits_agree<D: SectorDevice>(device: &mut D) -> Result<bool, DevError>
    requires { is_size (D.size device.old) ≡ true }
    ensures size { D.size device.new ≡ D.size device.old }
    ensures count { Counts (D.failed device.old) (D.failed device.new) result }
    ensures error { IfErr result (λ e. e ≡ DevError.Failed) }
    ensures moments { D.tells ≡ true → OnlyReads (D.story device.old) (D.story device.new) }
    ensures found { IfOk result (λ said. D.tells ≡ true → commits_agree (shown_image (now (D.story device.old))) ≡ said) }
{
    let zeroth = read_content(device, 0)?;
    let first = read_content(device, 1)?;
    Ok(agree(zeroth, first))
}
