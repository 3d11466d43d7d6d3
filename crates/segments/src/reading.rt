// Reads runs of sectors.
ghost use Rattle.std.specs.Prelude.{◌≡◌, ◌≢◌, ◌+◌, ◌*◌, ◌≤◌, ◌<◌, ◌^◌, true, Some, None, IfOk, IfErr, IsErrOf, vec_len};
ghost use Rattle.sector_dev.specs.Disk.{now, shown_image};
ghost use Rattle.sector_dev.specs.Time.{OnlyReads};
ghost use Rattle.segments.specs.Sectors.{sector_count, bytes_at};
ghost use Rattle.segments.specs.Reading.{CountsRead, EndsInRun};

use sector_dev::{DevError, SECTOR_BYTES, SectorDevice};
use std::alloc::{AllocError, Global};
use thiserror::Error;

/// Why a run was not read.
#[derive(Clone, Copy, Debug, Error)]
pub enum ReadError {
    /// E1: the device failed. Such failures are counted.
    #[error("the device failed")]
    Failed,
    /// E2: a crash left a sector of the run unreadable.
    #[error("an unreadable sector")]
    Unreadable,
    #[error("out of memory")]
    OutOfMemory,
}

/// Reads `byte_count` bytes from this sector on. Changes nothing.
///
/// # Errors
/// `OutOfMemory`, before the first read; otherwise the error of the first sector that fails, after which no sector is read.
pub fn read_run<D: SectorDevice>(
    alloc: Global,
    device: &mut D,
    start: u64,
    byte_count: usize,
) -> Result<Vec<u8>, ReadError>
    requires within { start + sector_count byte_count ≤ D.size device.old }
    requires countable { 512 * D.size device.old < 2 ^ 64 }
    ensures size { D.size device.new ≡ D.size device.old }
    ensures count { CountsRead (D.failed device.old) (D.failed device.new) result }
    ensures moments { D.tells ≡ true → OnlyReads (D.story device.old) (D.story device.new) }
    ensures length { IfOk result (λ bytes. vec_len bytes ≡ byte_count) }
    ensures found { IfOk result (λ bytes. D.tells ≡ true → bytes_at (shown_image (now (D.story device.old))) start byte_count ≡ Some bytes.items) }
    ensures unreadable { IsErrOf result ReadError.Unreadable → D.tells ≡ true
        → bytes_at (shown_image (now (D.story device.old))) start byte_count ≡ None }
    ensures first { IfErr result (λ e. e ≢ ReadError.OutOfMemory → D.tells ≡ true
        → EndsInRun e start byte_count (D.story device.old) (D.story device.new)) }
    ensures memory { IsErrOf result ReadError.OutOfMemory → D.tells ≡ true → D.story device.new ≡ D.story device.old }
{
    let count = byte_count.div_ceil(SECTOR_BYTES);
    let mut bytes = Vec::with_capacity(alloc, count * SECTOR_BYTES)?;
    let mut sector = [0u8; SECTOR_BYTES];
    for i in 0..count {
        device.read(start + i as u64, &mut sector)?;
        bytes.extend_from_slice(&sector).unwrap();
    }
    bytes.truncate(byte_count);
    Ok(bytes)
}

impl From<DevError> for ReadError {
    ghost use Rattle.std.specs.Prelude.{◌≡◌};
    ghost use Rattle.segments.specs.Reading.{read_error};

    ghost from_gives = { λ e r. r ≡ read_error e };

    fn from(error: DevError) -> Self {
        match error {
            DevError::Failed => ReadError::Failed,
            DevError::Unreadable => ReadError::Unreadable,
        }
    }
}

impl From<AllocError> for ReadError {
    ghost use Rattle.std.specs.Prelude.{◌≡◌};
    ghost use Rattle.segments.specs.declared.reading.ReadError.TheVariants.{OutOfMemory};

    ghost from_gives = { λ _ r. r ≡ OutOfMemory };

    fn from(_: AllocError) -> Self {
        ReadError::OutOfMemory
    }
}
