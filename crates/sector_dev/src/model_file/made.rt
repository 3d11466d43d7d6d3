// Makes a file in memory, and lets it fail.
ghost use Rattle.std.specs.Prelude.{◌≡◌, ◌∷◌, [], Some, true, IfOk};
ghost use Rattle.sector_dev.specs.History.{all_synced, zeros};
ghost use Rattle.sector_dev.specs.View.{sectors_of_file, history_of_file, is_sound, next_fault};

use super::ModelFile;
use std::alloc::{AllocError, Global};

impl ModelFile {
    /// Creates a file of this number of sectors of zeros, all synced.
    ///
    /// ```
    /// let mut file = ModelFile::new(alloc, 64)?;
    /// file.fail_at(3); // the third write or sync from now
    /// ```
    ///
    /// # Errors
    /// `AllocError` if memory was refused.
    pub fn new(alloc: Global, sectors: u64) -> Result<ModelFile, AllocError>
        ensures size { IfOk result (λ f. sectors_of_file f ≡ sectors) }
        ensures zeros { IfOk result (λ f. history_of_file f ≡ all_synced (λ _. Some zeros) ∷ []) }
        ensures sound { IfOk result (λ f. is_sound f ≡ true) }
        ensures faults { IfOk result (λ f. next_fault f ≡ 0) }
    {
        Ok(ModelFile {
            sectors,
            start: Vec::new(alloc),
            log: Vec::new(alloc),
            stored: Vec::new(alloc),
            sound: true,
            changed: Vec::new(alloc),
            fail: 0,
        })
    }

    /// Makes the k-th write or sync from now fail; 0 for none.
    pub fn fail_at(&mut self, k: u64)
        ensures size { sectors_of_file self.new ≡ sectors_of_file self.old }
        ensures history { history_of_file self.new ≡ history_of_file self.old }
        ensures sound { is_sound self.new ≡ is_sound self.old }
        ensures fault { next_fault self.new ≡ k }
    {
        self.fail = k;
    }
}
