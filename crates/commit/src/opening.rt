// Reads the commit that rules a device.
ghost use Rattle.std.specs.Prelude.{◌≡◌, ◌<◌, ◌≤◌, true, IfOk, IfErr};
ghost use Rattle.sector_dev.specs.Disk.{now, shown_image, Counts};
ghost use Rattle.sector_dev.specs.Time.{OnlyReads};
ghost use Rattle.commit.specs.Sector.{commit_at};
ghost use Rattle.commit.specs.Ruling.{newer, ruling};

use crate::Commit;
use crate::sector::commit_in;
use sector_dev::{DevError, SECTOR_BYTES, SectorDevice};

// Reads the commit in the sector with this number. A sector that can't be read has none.
fn read_commit<D: SectorDevice>(device: &mut D, n: u64) -> Result<Option<Commit>, DevError>
    requires { n < D.size device.old }
    ensures size { D.size device.new ≡ D.size device.old }
    ensures count { Counts (D.failed device.old) (D.failed device.new) result }
    ensures error { IfErr result (λ e. e ≡ DevError.Failed) }
    ensures moments { D.tells ≡ true → OnlyReads (D.story device.old) (D.story device.new) }
    ensures found { IfOk result (λ commit. D.tells ≡ true → commit_at n (shown_image (now (D.story device.old)) n) ≡ commit) }
{
    let mut sector = [0u8; SECTOR_BYTES];
    match device.read(n, &mut sector) {
        Ok(()) => Ok(commit_in(n, &sector)),
        Err(DevError::Unreadable) => Ok(None),
        Err(DevError::Failed) => Err(DevError::Failed),
    }
}

// Returns the commit of the greater epoch.
fn newer(zeroth: Option<Commit>, first: Option<Commit>) -> Option<Commit>
    ensures { result ≡ newer zeroth first }
{
    match zeroth {
        None => first,
        Some(a) => match first {
            None => zeroth,
            Some(b) => if a.epoch < b.epoch { first } else { zeroth },
        },
    }
}

/// Returns the commit that rules, if there is one. Reads both commit sectors and changes nothing.
///
/// # Errors
/// `Failed` only: the device failed.
pub fn read_ruling<D: SectorDevice>(device: &mut D) -> Result<Option<Commit>, DevError>
    requires { 2 ≤ D.size device.old }
    ensures size { D.size device.new ≡ D.size device.old }
    ensures count { Counts (D.failed device.old) (D.failed device.new) result }
    ensures error { IfErr result (λ e. e ≡ DevError.Failed) }
    ensures moments { D.tells ≡ true → OnlyReads (D.story device.old) (D.story device.new) }
    ensures found { IfOk result (λ commit. D.tells ≡ true → ruling (shown_image (now (D.story device.old))) ≡ commit) }
{
    let zeroth = read_commit(device, 0)?;
    let first = read_commit(device, 1)?;
    Ok(newer(zeroth, first))
}
