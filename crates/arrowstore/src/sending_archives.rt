// Sends an archive of the store in a file.
ghost use Rattle.std.specs.Prelude.{◌≡◌, false, option_map, IfOk, IfErr};
ghost use Rattle.cli_commands.specs.Archives.{IsOfSending};
ghost use Rattle.arrowstore.specs.OnFiles.{HasDigestsOf, HasListed, IsOpenedFile, RefusesDigestsOf, RefusesListed, SendsArchive, is_input, names_input};

use crate::copying_files::open_to_read;
use crate::named_input::read_named;
use crate::serving::reserve_standard_descriptors;
use cli_commands::{read_digests, send_archive};
use cli_reports::Refusal;
use sector_dev::{FileDevice, LockFile, SectorDevice, SystemFile};
use std::alloc::Global;
use std::fs::OpenFile;
use std::io::{Read, Seek, Write};
use std::rt::Files;

// Returns the digests that the list of this name states.
fn listed_digests<F: Read + OpenFile + Drop, H: Files<File = F> + AllocGlobal, R: Read>(
    rt: &H,
    name: &str,
    input: &mut R,
) -> Result<Vec<[u8; 32]>, Refusal>
    ensures read { IfOk result (λ digests. HasListed F.remaining (R.remaining input.old) name.now digests.items) }
    ensures told { IfErr result (RefusesListed F.remaining (R.remaining input.old) (R.remaining input.new) name.now) }
    ensures unread { is_input name.now ≡ false → input.new ≡ input.old }
{
    let text = read_named(rt, name, input)?;
    let digests = read_digests(rt.alloc(), &text)?;
    Ok(digests)
}

// Returns the digests that the list of this name states, or none without a list.
fn digests_of<F: Read + OpenFile + Drop, H: Files<File = F> + AllocGlobal, R: Read>(
    rt: &H,
    list: Option<&str>,
    input: &mut R,
) -> Result<Vec<[u8; 32]>, Refusal>
    ensures read { IfOk result (λ digests. HasDigestsOf F.remaining (R.remaining input.old) (option_map (λ l. l.now) list.entry) digests.items) }
    ensures told { IfErr result (RefusesDigestsOf F.remaining (R.remaining input.old) (R.remaining input.new) (option_map (λ l. l.now) list.entry)) }
    ensures unread { names_input (option_map (λ l. l.now) list.entry) ≡ false → input.new ≡ input.old }
{
    match list {
        Some(name) => listed_digests(rt, name, input),
        None => Ok(Vec::new(rt.alloc())),
    }
}

/// Writes an archive of all tables, without the segments whose digests the list of this name states. The list is read before the store is opened.
pub(crate) fn serve_send<
    F: Read + Write + Seek + OpenFile + LockFile + Drop,
    H: Files<File = F> + AllocGlobal,
    R: Read,
    W: Write,
>(rt: &H, path: &str, list: Option<&str>, input: &mut R, output: &mut W) -> Result<(), Refusal>
    ensures sends { SendsArchive ⟦<FileDevice<SystemFile<F>> as SectorDevice>⟧ IsOpenedFile F.remaining R.remaining W.contents
        (option_map (λ l. l.now) list.entry) input.old input.new output.old output.new result }
    // A refusal writes nothing, unless the store or a write failed.
    ensures silent { IfErr result (λ refusal. ¬ IsOfSending refusal → output.new ≡ output.old) }
{
    let had = digests_of(rt, list, input)?;
    let _places = reserve_standard_descriptors(rt)?;
    let mut store = open_to_read(rt, path)?;
    send_archive(rt.alloc(), &mut store, &had, output)
}
