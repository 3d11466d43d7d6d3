// The calls of a file in doubt.
ghost use Rattle.std.specs.Prelude.{◌≡◌, ◌≤◌, ◌<◌, ◌+◌, if◌then◌else◌, [], false, true, is_some, length, List, ℕ, Some, None, OnOk, OnErr};
ghost use Rattle.std.specs.Option.{option_or};
ghost use Rattle.std.proofs.Common.{sym};
ghost use Rattle.std.proofs.lemmas.Bool.{true≢false};
ghost use Rattle.sector_dev.specs.laws.Crash.{blank_shows};
ghost use Rattle.sector_dev.specs.Disk.{now, Flushes, IsSafe};
ghost use Rattle.sector_dev.specs.Rows.{content_from, row_from, grown};
ghost use Rattle.sector_dev.specs.Behind.{ReadsAs};
ghost use Rattle.sector_dev.specs.Confirming.{inner_of, is_in_doubt, noted};

use super::ConfirmedFile;
use super::ruling::write_noted;
use crate::{FileFault, SECTOR_BYTES, SectorFile};

impl<F: SectorFile + Drop> SectorFile for ConfirmedFile<F> {
    ghost size = { λ f. F.size f.file };

    ghost tells = { false };

    ghost story = { λ f. [] };

    ghost sound = { λ f. true };

    ghost changed = { λ f n. false };

    ghost shows = { λ f told. blank_shows };

    ghost begun = { λ f told. absurd (true≢false (sym told)) };

    ghost contents = { λ f told. tt };

    fn sectors(&self) -> u64 {
        self.file.sectors()
    }

    fn read_at(&mut self, start: u64, to: &mut [[u8; SECTOR_BYTES]]) -> Result<(), FileFault>
        requires { start + length to.old ≤ F.size (inner_of self.old) }
        ensures size { F.size (inner_of self.new) ≡ F.size (inner_of self.old) }
        ensures length { length to.new ≡ length to.old }
        ensures story { F.tells ≡ true → F.story (inner_of self.new) ≡ F.story (inner_of self.old) }
        ensures content { OnOk result (F.tells ≡ true → F.sound (inner_of self.old) ≡ true → ReadsAs (now (F.story (inner_of self.old))) start to.new) }
        // What a sector in doubt has shown is noted.
        ensures noted { OnOk result (is_in_doubt self.old ≡ true → (n : ℕ) → n < 2
            → noted self.new n ≡ option_or (content_from start to.new n) (noted self.old n)) }
        ensures doubt { is_in_doubt self.new ≡ is_in_doubt self.old }
    {
        let done = self.file.read_at(start, to);
        if let Some(ruling) = &mut self.ruling
            && done.is_ok()
        {
            ruling.note_read(start, to);
        }
        done
    }

    fn write_at(&mut self, start: u64, contents: &[[u8; SECTOR_BYTES]]) -> Result<(), FileFault>
        requires { start + length contents.now ≤ F.size (inner_of self.old) }
        ensures size { F.size (inner_of self.new) ≡ F.size (inner_of self.old) }
        ensures written { OnOk result (F.tells ≡ true
            → F.story (inner_of self.new) ≡ grown (row_from start contents.now) (F.story (inner_of self.old))) }
        // What is written is not in doubt.
        ensures noted { (n : ℕ) → noted self.new n ≡ (if is_some (content_from start contents.now n) then None else noted self.old n) }
        ensures doubt { is_in_doubt self.new ≡ is_in_doubt self.old }
    {
        if let Some(ruling) = &mut self.ruling {
            ruling.note_written(start, contents);
        }
        self.file.write_at(start, contents)
    }

    fn sync_data(&mut self) -> Result<(), FileFault>
        ensures size { F.size (inner_of self.new) ≡ F.size (inner_of self.old) }
        // After the first sync that succeeds, each crash leaves what was read of a sector in doubt, whatever the disk had before.
        ensures confirmed { OnOk result (F.tells ≡ true → (n : ℕ) (c : List ℕ) → noted self.old n ≡ Some c
            → IsSafe (now (F.story (inner_of self.new))) n (Some c)) }
        // What was written since the last sync is safe, too.
        ensures changed { OnOk result (F.tells ≡ true → (n : ℕ) → noted self.old n ≡ None → F.changed (inner_of self.old) n ≡ true
            → IsSafe (now (F.story (inner_of self.new))) n ((now (F.story (inner_of self.old))).at n).shown) }
        // Of a file that is not in doubt, all that reads return is safe.
        ensures flushed { OnOk result (is_in_doubt self.old ≡ false → F.tells ≡ true → F.sound (inner_of self.old) ≡ true
            → Flushes (F.story (inner_of self.old)) (F.story (inner_of self.new))) }
        ensures settled { OnOk result (is_in_doubt self.new ≡ false) }
        ensures doubt { OnErr result ((n : ℕ) → noted self.new n ≡ noted self.old n) }
    {
        write_noted(&mut self.file, &self.ruling)?;
        self.file.sync_data()?;
        self.ruling = None;
        Ok(())
    }
}
