// The catalogue as commits see it.
ghost use Rattle.std.specs.Prelude.{◌≡◌, ◌≢◌, true, Ok, IfOk, IfErr};
ghost use Rattle.sector_dev.specs.Time.{OnlyReads};
ghost use Rattle.commit.specs.Standing.{Reading, IsLocal, is_size};
ghost use Rattle.commit.specs.Opening.{CountsOpen, spelled_shown, TellsCause};

use crate::{Commit, OpenError};
use sector_dev::SectorDevice;
use segments::Run;
use std::alloc::{AllocError, Global};

/// A catalogue: how it is read from the text that a commit names, and which runs it names itself. Commits need nothing else of it.
pub trait ReadCatalogue: Drop {
    ghost use Rattle.commit.specs.declared.sector.Commit.{Commit};

    /// The plain value of a catalogue in definitions.
    ghost Plain: { Type 0 };

    /// The plain value of this catalogue.
    ghost plain_of: { Self → Plain };

    /// How a catalogue is read, and the runs that it names.
    ghost reading: { Reading Plain };

    /// What is true of each catalogue that is read for a commit, on any device: that it has the form of the
    /// commit's version.
    ghost fits_commit: { Commit → Plain → Type 0 };

    /// Reads the catalogue of this text, parts of which may be read from the device. Changes nothing.
    ///
    /// # Errors
    /// `Damaged` with its cause, `Device` or `OutOfMemory`.
    fn read<D: SectorDevice>(
        alloc: Global,
        device: &mut D,
        commit: Commit,
        text: &[u8],
    ) -> Result<Self, OpenError>
        requires { is_size (D.size device.old) ≡ true }
        ensures size { D.size device.new ≡ D.size device.old }
        ensures count { CountsOpen (D.failed device.old) (D.failed device.new) result }
        ensures moments { D.tells ≡ true → OnlyReads (D.story device.old) (D.story device.new) }
        ensures found { IfOk result
            (λ catalogue. D.tells ≡ true → spelled_shown reading (D.size device.old) (D.story device.old) commit text.now ≡ Ok (plain_of catalogue)) }
        ensures damaged { IfErr result (λ e. D.tells ≡ true
            → TellsCause e (spelled_shown reading (D.size device.old) (D.story device.old) commit text.now)) }
        ensures a_store { IfErr result (λ e. e ≢ OpenError.NotAStore) }
        // This also holds for a device that does not tell its story.
        ensures form { IfOk result (λ catalogue. fits_commit commit (plain_of catalogue)) };

    /// Returns the runs that the catalogue names.
    ///
    /// # Errors
    /// `AllocError` if memory was refused.
    fn runs(&self, alloc: Global) -> Result<Vec<Run>, AllocError>
        ensures { IfOk result (λ runs. runs.items ≡ reading.runs (plain_of self.now)) };

    /// Reading depends only on the sectors of those runs.
    ghost local: { IsLocal reading };
}
