// The first sectors of a file, which say what all others hold: a store keeps its commits in them.
ghost use Rattle.std.specs.Prelude.{◌≡◌, ◌≢◌, ◌⊎◌, ◌<◌, ◌≤◌, if◌then◌else◌, is_some, ℕ, List, Option, true, Some, None, OnOk};
ghost use Rattle.std.specs.Option.{option_or};
ghost use Rattle.sector_dev.specs.Confirming.{noted_in, seen_in, HasWritten};
ghost use Rattle.sector_dev.specs.Rows.{content_from};

use crate::contents::sector_in;
use crate::{FileFault, SECTOR_BYTES, SectorFile};
use std::slice;

// What reads have shown of these sectors.
#[derive(Drop)]
pub(super) struct RulingSectors {
    first: Option<[u8; SECTOR_BYTES]>,
    second: Option<[u8; SECTOR_BYTES]>,
}

// Writes a sector again, if reads have shown it.
fn write_again<F: SectorFile>(
    file: &mut F,
    n: u64,
    shown: &Option<[u8; SECTOR_BYTES]>,
) -> Result<(), FileFault>
    requires { n < F.size file.old }
    ensures size { F.size file.new ≡ F.size file.old }
    ensures again { OnOk result (F.tells ≡ true → (c : List ℕ) → shown.now ≡ Some c → HasWritten ⟦<F as SectorFile>⟧ file.new n (Some c)) }
    ensures others { OnOk result (F.tells ≡ true → (k : ℕ) (c : Option (List ℕ)) → (k ≢ n) ⊎ (shown.now ≡ None)
        → HasWritten ⟦<F as SectorFile>⟧ file.old k c → HasWritten ⟦<F as SectorFile>⟧ file.new k c) }
{
    match shown {
        Some(content) => file.write_at(n, slice::from_ref(content)),
        None => Ok(()),
    }
}

impl RulingSectors {
    pub(super) fn unread() -> RulingSectors {
        RulingSectors {
            first: None,
            second: None,
        }
    }

    // Notes these sectors where they are among those that were read.
    pub(super) fn note_read(&mut self, start: u64, contents: &[[u8; SECTOR_BYTES]])
        ensures { (n : ℕ) → n < 2 → seen_in self.new n ≡ option_or (content_from start contents.now n) (seen_in self.old n) }
    {
        self.first = sector_in(start, contents, 0).copied().or(self.first);
        self.second = sector_in(start, contents, 1).copied().or(self.second);
    }

    // Drops what was noted of these sectors where they are among those that are written.
    pub(super) fn note_written(&mut self, start: u64, contents: &[[u8; SECTOR_BYTES]])
        ensures { (n : ℕ) → seen_in self.new n ≡ (if is_some (content_from start contents.now n) then None else seen_in self.old n) }
    {
        if sector_in(start, contents, 0).is_some() {
            self.first = None;
        }
        if sector_in(start, contents, 1).is_some() {
            self.second = None;
        }
    }

    // Writes these sectors again, as reads have shown them.
    fn write_again<F: SectorFile>(&self, file: &mut F) -> Result<(), FileFault>
        requires { 2 ≤ F.size file.old }
        ensures size { F.size file.new ≡ F.size file.old }
        ensures again { OnOk result (F.tells ≡ true → (n : ℕ) (c : List ℕ) → seen_in self.now n ≡ Some c → HasWritten ⟦<F as SectorFile>⟧ file.new n (Some c)) }
        ensures others { OnOk result (F.tells ≡ true → (n : ℕ) (c : Option (List ℕ)) → seen_in self.now n ≡ None
            → HasWritten ⟦<F as SectorFile>⟧ file.old n c → HasWritten ⟦<F as SectorFile>⟧ file.new n c) }
    {
        write_again(file, 0, &self.first)?;
        write_again(file, 1, &self.second)
    }
}

// Writes the first sectors again, as reads have shown them, if they are in doubt.
pub(super) fn write_noted<F: SectorFile>(
    file: &mut F,
    ruling: &Option<RulingSectors>,
) -> Result<(), FileFault>
    requires { 2 ≤ F.size file.old }
    ensures size { F.size file.new ≡ F.size file.old }
    ensures again { OnOk result (F.tells ≡ true → (n : ℕ) (c : List ℕ) → noted_in ruling.now n ≡ Some c → HasWritten ⟦<F as SectorFile>⟧ file.new n (Some c)) }
    ensures others { OnOk result (F.tells ≡ true → (n : ℕ) (c : Option (List ℕ)) → noted_in ruling.now n ≡ None
        → HasWritten ⟦<F as SectorFile>⟧ file.old n c → HasWritten ⟦<F as SectorFile>⟧ file.new n c) }
    ensures sure { ruling.now ≡ None → file.new ≡ file.old }
{
    match ruling {
        Some(ruling) => ruling.write_again(file),
        None => Ok(()),
    }
}
