// Replays a script on a device in memory.
ghost use Rattle.std.specs.Prelude.{◌≡◌, ◌≢◌, IfErr};
ghost use Rattle.arrowstore.specs.OnFiles.{Replays};

use cli_replay::{Faults, replay};
use cli_reports::{Refusal, Side};
use cli_requests::ReplayWords;
use sector_dev::{ModelDevice, SectorDevice};
use std::fs::OpenFile;
use std::io::{Empty, Read, Write};
use std::rt::Files;

/// Replays the script that the words name and prints the outcome. Writes to nothing but the output.
pub(crate) fn serve_replay<F: Read + OpenFile + Drop, H: Files<File = F> + AllocGlobal, W: Write>(
    rt: &H,
    words: &ReplayWords<'_>,
    output: &mut W,
) -> Result<(), Refusal>
    ensures replays { Replays ⟦<ModelDevice as SectorDevice>⟧ F.remaining ⟦<Empty as Read>⟧.remaining W.contents words.now
        output.old output.new result }
    ensures silent { IfErr result (λ refusal. refusal ≢ Refusal.Io Side.Output → output.new ≡ output.old) }
{
    let faults = Faults {
        fail: words.fail,
        stop: words.stop,
        choice: words.choice,
    };
    replay(
        rt,
        words.script,
        words.sectors,
        words.version,
        faults,
        output,
    )
}
