// Devices with which a run may begin. The contracts of the functions that do nothing are laws.
ghost use Rattle.std.specs.Prelude.{◌≡◌, true, Some, [], ◌∷◌, IfOk};
ghost use Rattle.sector_dev.specs.Disk.{now};
ghost use Rattle.sector_dev.specs.Time.{LeavesOnly};
ghost use Rattle.sector_dev.specs.History.{all_synced, zeros};
ghost use Rattle.sector_dev.specs.View.{size_of, history_of};
ghost use Rattle.commit.specs.Standing.{is_size};
ghost use Rattle.commit.specs.Formatting.{HoldsNoCommit};
ghost use Rattle.tables.specs.Tables.{Tables, no_tables};
ghost use Rattle.tables.specs.Commands.{PlainCommand};
ghost use Rattle.store_runs.specs.Machine.{Machine, shut_down, holds};
ghost use Rattle.store_runs.specs.Held.{held_by};
ghost use Rattle.store.specs.Fits.{DeviceFits, fresh, resumed, doubting, HoldsNoneOrEmpty, HoldsWithOrWithout};
ghost use Rattle.store.specs.Beginning.{IsLeftOf, BeginsAnew};
ghost use Rattle.store.specs.Places.{ShutFits};

use sector_dev::{CrashChoice, ModelDevice, SectorDevice};
use std::alloc::{AllocError, Global};

/// A run may begin with a device on which no stop leaves a commit, such as one of zeros: it has no tables. It may also begin with a device on which each
/// stop leaves a store with the same tables, as after a stop. If the device failed and the process ended without a stop, it may begin after a formatting,
/// and after a command that is in doubt.
pub fn devices_fit<D: SectorDevice>(device: &D)
    ensures new { is_size (D.size device.now) ≡ true → LeavesOnly HoldsNoCommit (now (D.story device.now))
        → DeviceFits D.size D.story no_tables fresh device.now }
    ensures zeros { is_size (D.size device.now) ≡ true → D.story device.now ≡ all_synced (λ _. Some zeros) ∷ []
        → DeviceFits D.size D.story no_tables fresh device.now }
    ensures formatting { is_size (D.size device.now) ≡ true → LeavesOnly (HoldsNoneOrEmpty (D.size device.now)) (now (D.story device.now))
        → DeviceFits D.size D.story no_tables fresh device.now }
    ensures doubting { (t : Tables) (c : PlainCommand) → is_size (D.size device.now) ≡ true
        → LeavesOnly (HoldsWithOrWithout (D.size device.now) t c) (now (D.story device.now)) → DeviceFits D.size D.story t (doubting c) device.now }
    ensures stopped { (t : Tables) → is_size (D.size device.now) ≡ true
        → LeavesOnly (λ image. held_by (D.size device.now) image ≡ holds t) (now (D.story device.now)) → DeviceFits D.size D.story t resumed device.now }
{
    let _ = device;
}

/// The device that a stop leaves continues as the shut place of the same machine. A new run may begin with it: with the tables of the settled commands, or
/// with the command in doubt as well, or, if nothing had started, without a store.
pub fn left_devices_fit<D: SectorDevice>(before: &D, device: &D)
    ensures goes_on { (base : Tables) (m : Machine) → DeviceFits D.size D.story base m before.now → IsLeftOf D.size D.story before.now device.now
        → ShutFits D.size D.story base (shut_down m) device.now }
    ensures begins_anew { (base : Tables) (m : Machine) → DeviceFits D.size D.story base m before.now → IsLeftOf D.size D.story before.now device.now
        → BeginsAnew D.size D.story base m device.now }
{
    let _ = before;
    let _ = device;
}

/// A run may begin with a new device in memory.
///
/// # Errors
/// `AllocError` if memory was refused.
pub fn new_devices_fit(alloc: Global, sectors: u64) -> Result<ModelDevice, AllocError>
    ensures { is_size sectors ≡ true → IfOk result (λ device. DeviceFits size_of history_of no_tables fresh device) }
{
    ModelDevice::new(alloc, sectors)
}

/// A device in memory after a crash is one that a stop may leave.
///
/// # Errors
/// `AllocError` if memory was refused.
pub fn crashed_devices_are_left(
    device: &ModelDevice,
    choice: CrashChoice,
) -> Result<ModelDevice, AllocError>
    ensures { IfOk result (λ left. IsLeftOf size_of history_of device.now left) }
{
    device.crash(choice)
}
