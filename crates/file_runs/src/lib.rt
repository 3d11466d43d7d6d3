//! Runs of calls on a store in a file: what is proved of a device that tells its story holds for what a stop leaves in the file below it, by the laws of
//! that file alone (`SectorFile`). The function does nothing: its contract is the law.
#![tactic(auto)]

ghost use Rattle.std.specs.Prelude.{◌≡◌, ℕ, List, true};
ghost use Rattle.sector_dev.specs.Disk.{Story, Image, now, moment, LeftSince};
ghost use Rattle.sector_dev.specs.Time.{LeavesOnly};
ghost use Rattle.sector_dev.specs.View.{file_of, story_over};
ghost use Rattle.store_runs.specs.Calls.{PlainCall, PlainReply};
ghost use Rattle.store_runs.specs.Machine.{Setting, Machine, Allows};
ghost use Rattle.store_runs.specs.Runs.{Run};
ghost use Rattle.store_runs.specs.Since.{story_at, IsLeftFrom};

use sector_dev::{FileDevice, SectorFile};
use store_runs::each_stop_is_allowed;

/// What a stop may have left of the file of a device since some call of a run began was left before one of the calls from that one on, at a moment of one
/// of them, or after the last. The machine of that moment allows it. `began` is the device when that call began, and `ended` as it is after the run.
pub fn each_stop_of_a_file_is_allowed<F: SectorFile + Drop>(
    began: &FileDevice<F>,
    ended: &FileDevice<F>,
)
    ensures { F.tells ≡ true → (s : Setting) (calls : List PlainCall) (replies : List PlainReply) (m : Machine) (old : Story) (failed : ℕ)
        (m' : Machine) (failed' : ℕ) (run : Run s calls replies m old failed m' (story_over ended.now) failed') (i : ℕ) (image : Image)
        → LeavesOnly (Allows s m) (now old)
        → story_over began.now ≡ story_at s calls replies m old failed m' (story_over ended.now) failed' run i
        → LeftSince (F.story (file_of ended.now)) (moment (F.story (file_of began.now))) image
        → IsLeftFrom s calls replies m old failed m' (story_over ended.now) failed' run i image }
{
    each_stop_is_allowed();
    ended.left_no_more_since(began);
}
