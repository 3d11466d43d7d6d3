// A law about all lines that were played. The function does nothing: its contract is the law.
ghost use Rattle.std.specs.Prelude.{◌≡◌, true, Bool, List};
ghost use Rattle.tables.specs.Tables.{Tables};
ghost use Rattle.store.specs.declared.call.Call.{Call};
ghost use Rattle.store.specs.declared.call.StoreOrDevice.{StoreOrDevice};
ghost use Rattle.store_runs.specs.Calls.{PlainReply};
ghost use Rattle.store_runs.specs.Machine.{Machine};
ghost use Rattle.store.specs.Places.{PlaceFits};
ghost use Rattle.cli_replay.specs.Playing.{Plays, ArePlayedAsRun};

use sector_dev::SectorDevice;
use std::io::Read;

/// Lines that were played on a place that represents a machine are a run of calls, so the laws of runs hold of them, above all what a stop in the
/// meantime leaves.
pub fn played_lines_are_a_run<D: SectorDevice, R: Read>()
    ensures { D.tells ≡ true → (is_over : D → Bool) (base : Tables) (m : Machine) (calls : List (Call R)) (replies : List PlainReply)
        (old new : StoreOrDevice D ⟦<D as SectorDevice>⟧) → Plays ⟦<D as SectorDevice>⟧ is_over R.remaining old calls replies new
        → PlaceFits D.size D.story base m old → ArePlayedAsRun ⟦<D as SectorDevice>⟧ R.remaining base m calls replies old new }
{}
