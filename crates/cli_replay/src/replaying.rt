// Replays a whole script.
ghost use Rattle.std.specs.Prelude.{◌≡◌, ◌≢◌, ◌++◌, ℕ, List, codes, map, string_bytes, Ok, IfOk, IfErr, OnOk};
ghost use Rattle.std.specs.List.{AllByRecursion};
ghost use Rattle.cli_replay.specs.Listed.{IsPlayable};
ghost use Rattle.cli_replay.specs.Playing.{stop_text};
ghost use Rattle.cli_replay.specs.Replay.{IsEmptyStore, IsOfPlaying, IsReplay, IsReplayOfFile, RefusesReplay, RefusesScript};
ghost use Rattle.cli_scripts.specs.Items.{IsScript};
ghost use Rattle.cli_scripts.specs.Plain.{plain_items, plain_words};
ghost use Rattle.cli_scripts.specs.Words.{HaveWords, lines_of};
ghost use Rattle.sector_dev.specs.Faults.{no_faults};
ghost use Rattle.sector_dev.specs.View.{faults_of};

use crate::calls::{calls_of, numbers_of};
use crate::device::{empty_store, found_on, left_by_crash, open, with_faults};
use crate::files::read_whole_file;
use crate::playing::{lines_of_replies, play};
use cli_reports::{Refusal, Side, write_whole};
use cli_scripts::{ScriptError, ScriptItem, parse_script, script_words};
use commit::FormatVersion;
use sector_dev::{CrashChoice, ModelDevice, SectorDevice};
use std::alloc::{AllocError, Global};
use std::fs::OpenFile;
use std::io::{Empty, Read, Write};
use std::rt::Files;
use store::{Call, acknowledged_commands_are_settled, left_devices_fit};

/// What goes wrong while a script is played, and what the crash after it leaves. Writes and syncs are counted from 1, starting after the
/// formatting.
#[derive(Clone, Copy)]
pub struct Faults {
    /// The write or sync that fails once; 0 means none.
    pub fail: u64,
    /// The write or sync in which the device stops; 0 means none.
    pub stop: u64,
    pub choice: CrashChoice,
}

// Joins the lines of the replies, whether the device stopped, and what was found on it.
fn joined_text(lines: String, stopped: bool, found: &str) -> Result<String, AllocError>
    ensures { IfOk result (λ text. string_bytes text ≡ string_bytes lines ++ stop_text stopped ++ codes "after:\n" ++ found.now) }
{
    let mut text = lines;
    if stopped {
        text.push_str("stopped\n")?;
    }
    text.push_str("after:\n")?;
    text.push_str(found)?;
    Ok(text)
}

/// Plays calls on a device with an empty store on which no call is set to fail, and returns what they answered and what a crash left. The numbers are
/// those of the first lines of their items.
pub(crate) fn play_calls(
    alloc: Global,
    device: ModelDevice,
    numbers: &[u64],
    calls: Vec<Call>,
    faults: Faults,
) -> Result<String, Refusal>
    requires { faults_of device ≡ no_faults }
    ensures replays { IfOk result (λ text. (sectors : ℕ) (version : FormatVersion)
        → IsEmptyStore ⟦<ModelDevice as SectorDevice>⟧ sectors version device
        → IsReplay ⟦<ModelDevice as SectorDevice>⟧ ⟦<Empty as Read>⟧.remaining sectors version faults.fail faults.stop faults.choice
        numbers.now calls.items (string_bytes text)) }
    ensures told { IfErr result (λ refusal. (sectors : ℕ) (version : FormatVersion)
        → IsEmptyStore ⟦<ModelDevice as SectorDevice>⟧ sectors version device
        → IsOfPlaying refusal) }
{
    let device = with_faults(device, faults.fail, faults.stop);
    let place = open(alloc, device)?;
    let (place, replies) = play(alloc, place, calls)?;
    let text = lines_of_replies(alloc, numbers, &replies)?;
    let left = left_by_crash(place.device(), faults.choice)?;
    acknowledged_commands_are_settled();
    left_devices_fit(place.device(), &left);
    let found = found_on(alloc, left)?;
    Ok(joined_text(text, place.device().has_stopped(), &found)?)
}

// Parses the items of a script that has these words, with errors as the program reports them.
fn items_of<'a>(
    alloc: Global,
    words: &'a [Option<Vec<String>>],
) -> Result<Vec<ScriptItem<'a>>, Refusal>
    ensures items { IfOk result (λ items. (script : List ℕ) → HaveWords (lines_of script) (map plain_words words.now)
        → IsScript script (Ok (plain_items items.items))) }
    ensures playable { IfOk result (λ items. AllByRecursion IsPlayable (plain_items items.items)) }
    ensures told { IfErr result (λ refusal. (script : List ℕ) → HaveWords (lines_of script) (map plain_words words.now)
        → RefusesScript script refusal) }
{
    match parse_script(alloc, words) {
        Ok(items) => Ok(items),
        Err(ScriptError::BadLine(number)) => Err(Refusal::BadScript(number)),
        Err(ScriptError::OutOfMemory) => Err(Refusal::OutOfMemory),
    }
}

/// Plays the script at a path on a device in memory of `sectors` sectors, with an empty store of this version, and prints what its items answer,
/// whether the device stopped, and which tables a crash leaves.
///
/// # Errors
/// `Opening` if no store has this number of sectors; `Io` of a file if that can't be read; `BadScript` with the number of the first invalid line;
/// `TooManyBytes` if a file is too long; `OutOfMemory`. Nothing is printed, unless a write fails.
pub fn replay<F: Read + OpenFile + Drop, H: Files<File = F> + AllocGlobal, W: Write>(
    rt: &H,
    script: &str,
    sectors: u64,
    version: FormatVersion,
    faults: Faults,
    output: &mut W,
) -> Result<(), Refusal>
    ensures replays { OnOk result (IsReplayOfFile ⟦<ModelDevice as SectorDevice>⟧ F.remaining ⟦<Empty as Read>⟧.remaining sectors version
        faults.fail faults.stop faults.choice (W.contents output.old) (W.contents output.new)) }
    ensures told { IfErr result (RefusesReplay F.remaining sectors) }
    // A refusal prints nothing, unless a write failed.
    ensures silent { IfErr result (λ refusal. refusal ≢ Refusal.Io Side.Output → output.new ≡ output.old) }
{
    let alloc = rt.alloc();
    let device = empty_store(alloc, sectors, version)?;
    let script = read_whole_file(rt, script)?;
    let words = script_words(alloc, &script)?;
    let items = items_of(alloc, &words)?;
    let calls = calls_of(rt, &items)?;
    let numbers = numbers_of(alloc, &items)?;
    let text = play_calls(alloc, device, &numbers, calls, faults)?;
    write_whole(output, text.as_bytes())
}
