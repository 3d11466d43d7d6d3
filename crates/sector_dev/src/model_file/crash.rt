// A crash of a file in memory.
ghost use Rattle.std.specs.Prelude.{◌≡◌, ◌∷◌, [], true, IfOk};
ghost use Rattle.sector_dev.specs.Disk.{now, shown_image, MayLeave};
ghost use Rattle.sector_dev.specs.Chosen.{IsChosen};
ghost use Rattle.sector_dev.specs.History.{all_synced};
ghost use Rattle.sector_dev.specs.View.{sectors_of_file, history_of_file, is_sound, next_fault};

use super::ModelFile;
use crate::CrashChoice;
use crate::model::crash::{left_in_all, stored_as_synced};
use std::alloc::AllocError;

impl ModelFile {
    /// Returns what a crash would leave now, as a file that is opened anew: it has these contents, all synced, and no call of it is to fail. An unreadable
    /// sector can't be read until it is written.
    ///
    /// # Errors
    /// `AllocError` if memory was refused.
    pub fn crash(&self, choice: CrashChoice) -> Result<ModelFile, AllocError>
        ensures size { IfOk result (λ f. sectors_of_file f ≡ sectors_of_file self.now) }
        ensures synced { IfOk result (λ f. history_of_file f ≡ all_synced (shown_image (now (history_of_file f))) ∷ []) }
        ensures allowed { IfOk result (λ f. MayLeave (now (history_of_file self.now)) (shown_image (now (history_of_file f)))) }
        ensures chosen { IfOk result (λ f. IsChosen choice (now (history_of_file self.now)) (sectors_of_file self.now) (shown_image (now (history_of_file f)))) }
        ensures sound { IfOk result (λ f. is_sound f ≡ true) }
        ensures faults { IfOk result (λ f. next_fault f ≡ 0) }
    {
        let alloc = *self.stored.allocator();
        let start = left_in_all(alloc, choice, &self.stored)?;
        let stored = stored_as_synced(alloc, &start)?;
        Ok(ModelFile {
            sectors: self.sectors,
            start,
            log: Vec::new(alloc),
            stored,
            sound: true,
            changed: Vec::new(alloc),
            fail: 0,
        })
    }
}
