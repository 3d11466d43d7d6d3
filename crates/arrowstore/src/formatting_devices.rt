// Makes stores on block devices.
ghost use Rattle.std.specs.Prelude.{◌≡◌, ◌≢◌, true, IfOk, IfErr, IfSome, IsTrue, OnOk};
ghost use Rattle.std.specs.declared.fs.attrs.Metadata.{Metadata};
ghost use Rattle.sector_dev.specs.View.{sectors_of};
ghost use Rattle.commit.specs.Standing.{is_size};
ghost use Rattle.store.specs.Fits.{device_of, IsNewStore};
ghost use Rattle.cli_requests.specs.Asked.{is_for_device};
ghost use Rattle.arrowstore.specs.OnFiles.{IsBlockDevice, IsOpenedFile, FormatsDevice, RefusesFormat};

use crate::serving::{format_file, format_on, reserve_standard_descriptors};
use cli_reports::{Refusal, Side, write_whole};
use cli_requests::StoreRequest;
use commit::FormatVersion;
use sector_dev::{
    DevError, FileDevice, FileError, LockFile, SECTOR_BYTES, SectorDevice, SystemFile,
};
use std::alloc::Global;
use std::fs::{self, Metadata, OpenFile, OpenOptions};
use std::io::{ErrorKind, Read, Seek, Write};
use std::os::unix::fs::MetadataExt;
use std::rt::Files;
use store::Store;

// How many sectors at the front of a device are cleared: file systems, partition tables and stores show there that they have it.
const FRONT: u64 = 2048;

// By the bits of its mode that are its type (POSIX.1, `sys/stat.h`): std has a clause on the mode, and none on `is_block_device`.
fn is_block_device(found: &Metadata) -> bool
    ensures { IsTrue result → IsBlockDevice found.now }
{
    found.mode() & 0o170000 == 0o060000
}

// Nothing at the path is no block device either. If the system does not say what is there, opening it fails and tells why.
fn has_other_file<H: Files>(rt: &H, path: &str) -> bool {
    match fs::metadata(rt, path) {
        Ok(found) => !is_block_device(&found),
        Err(e) => e.kind() == ErrorKind::NotFound,
    }
}

/// Returns whether a request is for a block device, and none is at its path.
pub(crate) fn lacks_device<H: Files>(rt: &H, request: &StoreRequest<'_>) -> bool
    ensures { IsTrue result → is_for_device request.now ≡ true }
{
    match request.path_of_device() {
        Some(path) => has_other_file(rt, path),
        None => false,
    }
}

// Opens the block device at a path, and locks it exclusively. The open file itself is asked whether it is one.
fn open_block_device<
    F: Read + Write + Seek + OpenFile + LockFile + Drop,
    H: Files<File = F> + AllocGlobal,
>(rt: &H, path: &str) -> Result<FileDevice<SystemFile<F>>, FileError>
    ensures opened { IfOk result (λ device. IsOpenedFile device) }
    ensures size { IfOk result (λ device. is_size (sectors_of device) ≡ true) }
    ensures kind { OnOk result ((found : Metadata) × IsBlockDevice found) }
{
    let file = OpenOptions::new().read(true).write(true).open(rt, path)?;
    file.lock_to_write()?;
    let found = file.metadata()?;
    if is_block_device(&found) {
        FileDevice::from_file(rt.alloc(), file)
    } else {
        Err(FileError::Io)
    }
}

// Opens the block device at a path, if it has this number of sectors where one is given.
fn block_device_of<
    F: Read + Write + Seek + OpenFile + LockFile + Drop,
    H: Files<File = F> + AllocGlobal,
>(rt: &H, path: &str, sectors: Option<u64>) -> Result<FileDevice<SystemFile<F>>, FileError>
    ensures opened { IfOk result (λ device. IsOpenedFile device) }
    ensures size { IfOk result (λ device. is_size (sectors_of device) ≡ true) }
    ensures kind { OnOk result ((found : Metadata) × IsBlockDevice found) }
    ensures given { IfOk result (λ device. IfSome sectors (λ number. sectors_of device ≡ number)) }
{
    let device = open_block_device(rt, path)?;
    match sectors {
        Some(number) => {
            if device.sectors() == number {
                Ok(device)
            } else {
                Err(FileError::Io)
            }
        }
        None => Ok(device),
    }
}

// Writes zeros over the front of a device.
fn clear_front<D: SectorDevice>(device: &mut D) -> Result<(), DevError>
    ensures { D.size device.new ≡ D.size device.old }
{
    for n in 0..device.sectors().min(FRONT) {
        device.write(n, &[0; SECTOR_BYTES])?;
    }
    device.sync()
}

// Makes an empty store on a device, over whatever is at its front.
fn format_over<D: SectorDevice + Drop>(
    alloc: Global,
    device: D,
    version: FormatVersion,
) -> Result<Store<D>, Refusal>
    requires { is_size (D.size device) ≡ true }
    ensures made { IfOk result (IsNewStore (D.size device) version) }
    ensures size { IfOk result (λ store. D.size (device_of store) ≡ D.size device) }
    ensures refused { IfErr result (RefusesFormat ⟦<D as SectorDevice>⟧ (D.size device) version) }
{
    let mut device = device;
    if clear_front(&mut device).is_err() {
        return Err(Refusal::Io(Side::File));
    }
    match format_on(alloc, device, version) {
        Ok(store) => Ok(store),
        Err((refusal, _device)) => Err(refusal),
    }
}

// Makes an empty store on the open block device at a path: over what is on it, or if nothing is at its front. Then the device is closed, and opened anew.
fn format_open_device<
    F: Read + Write + Seek + OpenFile + LockFile + Drop,
    H: Files<File = F> + AllocGlobal,
>(
    rt: &H,
    path: &str,
    device: FileDevice<SystemFile<F>>,
    over: bool,
    version: FormatVersion,
) -> Result<Store<FileDevice<SystemFile<F>>>, Refusal>
    requires { is_size (sectors_of device) ≡ true }
    ensures made { IfOk result (IsNewStore (sectors_of device) version) }
    ensures size { IfOk result (λ store. ⟦<FileDevice<SystemFile<F>> as SectorDevice>⟧.size (device_of store) ≡ sectors_of device) }
    ensures refused { IfErr result (RefusesFormat ⟦<FileDevice<SystemFile<F>> as SectorDevice>⟧ (sectors_of device) version) }
{
    if over {
        return format_over(rt.alloc(), device, version);
    }
    let sectors = device.sectors();
    drop(device);
    format_file(rt, path, sectors, version)
}

/// Makes an empty store on the block device at a path, on all of its sectors, and writes `ok`. Only with `over` may something be at the front of the
/// device.
pub(crate) fn serve_format_device<
    F: Read + Write + Seek + OpenFile + LockFile + Drop,
    H: Files<File = F> + AllocGlobal,
    W: Write,
>(
    rt: &H,
    path: &str,
    sectors: Option<u64>,
    over: bool,
    version: FormatVersion,
    output: &mut W,
) -> Result<(), Refusal>
    ensures formats { FormatsDevice ⟦<FileDevice<SystemFile<F>> as SectorDevice>⟧ IsOpenedFile W.contents sectors version output.old output.new result }
    ensures silent { IfErr result (λ refusal. refusal ≢ Refusal.Io Side.Output → output.new ≡ output.old) }
{
    let _places = reserve_standard_descriptors(rt)?;
    let device = block_device_of(rt, path, sectors)?;
    let _store = format_open_device(rt, path, device, over, version)?;
    write_whole(output, b"ok\n")
}
