// What the segments of tables are read from.
ghost use Rattle.std.specs.Prelude.{◌≡◌, ℕ, Bool, true, Some, None, IfOk, IsErrOf, vec_len};
ghost use Rattle.sector_dev.specs.Disk.{Story, now, shown_image};
ghost use Rattle.sector_dev.specs.Time.{OnlyReads};
ghost use Rattle.segments.specs.Reading.{CountsRead};
ghost use Rattle.segments.specs.Sectors.{sector_count, bytes_at};
ghost use Rattle.segments.specs.declared.extent.Extent.{Extent};
ghost use Rattle.commit.specs.Standing.{is_size};

use crate::kept_message::KeptMessage;
use sector_dev::SectorDevice;
use segments::{Extent, ReadError, read_run};
use std::alloc::Global;

/// What segments are read from: a device, or a device with streams behind its last sector that are not written yet.
pub trait SegmentSource {
    /// The number of sectors of the device.
    ghost size: { Self → ℕ };

    /// The number of failed calls of the device.
    ghost failed: { Self → ℕ };

    /// Whether the story of the device is known.
    ghost tells: { Bool };

    /// The disk at each moment, the newest first, as reads show it.
    ghost story: { Self → Story };

    /// The bytes in this place can be read.
    ghost can_read: { Self → Extent → Type 0 };

    /// The second is what reads leave of the first.
    ghost goes_on: { Self → Self → Type 0 };

    /// Reads the bytes in a place. Changes nothing.
    ///
    /// # Errors
    /// Those of [`read_run`].
    fn read_extent(&mut self, alloc: Global, place: Extent) -> Result<Vec<u8>, ReadError>
        requires size { is_size (size self.old) ≡ true }
        requires readable { can_read self.old place }
        requires counted { place.run.count ≡ sector_count place.bytes }
        ensures size { size self.new ≡ size self.old }
        ensures goes_on { goes_on self.old self.new }
        ensures count { CountsRead (failed self.old) (failed self.new) result }
        ensures moments { tells ≡ true → OnlyReads (story self.old) (story self.new) }
        ensures length { IfOk result (λ bytes. vec_len bytes ≡ place.bytes) }
        ensures found { IfOk result (λ bytes. tells ≡ true
            → bytes_at (shown_image (now (story self.old))) place.run.start place.bytes ≡ Some bytes.items) }
        ensures unreadable { IsErrOf result ReadError.Unreadable → tells ≡ true
            → bytes_at (shown_image (now (story self.old))) place.run.start place.bytes ≡ None };

    /// Returns the message of a schema that is kept beside what is read, if there is one.
    fn kept_message(&self) -> Option<&KeptMessage>;

    /// No read leaves it as it is.
    ghost stays: { (source : Self) → goes_on source source };

    /// Reads after reads are reads.
    ghost onward: { (a b c : Self) → goes_on a b → goes_on b c → goes_on a c };

    /// What can be read can be read again.
    ghost still: { (a b : Self) (place : Extent) → goes_on a b → can_read a place → can_read b place };
}

impl<D: SectorDevice> SegmentSource for D {
    ghost use Rattle.std.specs.Prelude.{refl};
    ghost use Rattle.std.proofs.Common.{◌∙◌};
    ghost use Rattle.commit.specs.Standing.{is_on_device};
    ghost use Rattle.store_changes.specs.laws.Sources.{still_on_device};

    ghost size = { D.size };

    ghost failed = { D.failed };

    ghost tells = { D.tells };

    ghost story = { D.story };

    ghost can_read = { λ device place. is_on_device (D.size device) place.run ≡ true };

    ghost goes_on = { λ old new. D.size new ≡ D.size old };

    fn read_extent(&mut self, alloc: Global, place: Extent) -> Result<Vec<u8>, ReadError> {
        read_run(alloc, self, place.run.start, place.bytes as usize)
    }

    fn kept_message(&self) -> Option<&KeptMessage> {
        None
    }

    ghost stays = { λ device. refl };

    ghost onward = { λ a b c first second. second ∙ first };

    ghost still = { λ a b place same on. still_on_device (D.size a) (D.size b) place.run same on };
}
