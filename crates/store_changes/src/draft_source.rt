// A device with the streams of a draft, which are not written yet.
use crate::drafting::{Draft, place_of};
use crate::kept_message::KeptMessage;
use crate::source::SegmentSource;
use sector_dev::SectorDevice;
use segments::{Extent, ReadError, read_run};
use std::alloc::Global;

/// A device and a draft of commands on its store. Runs behind the last sector of the device are read from the streams of the draft.
#[derive(Drop)]
pub struct DraftSource<'a, D: SectorDevice> {
    pub device: &'a mut D,
    pub draft: &'a Draft,
}

impl<'a, D: SectorDevice> SegmentSource for DraftSource<'a, D> {
    ghost use Rattle.std.specs.Prelude.{◌≡◌, map, refl};
    ghost use Rattle.std.proofs.Common.{◌∙◌};
    ghost use Rattle.store_changes.specs.Draft.{streams_of};
    ghost use Rattle.store_changes.specs.Source.{disk_laid, AreInDraft, ReadsBelow};
    ghost use Rattle.store_changes.specs.laws.Sources.{below_stays, below_onward, still_in_draft};

    ghost size = { λ source. D.size source.device.now };

    ghost failed = { λ source. D.failed source.device.now };

    ghost tells = { D.tells };

    ghost story = { λ source. map (disk_laid source.draft.now.from (streams_of source.draft.now)) (D.story source.device.now) };

    ghost can_read = { λ source place. AreInDraft (D.size source.device.now) source.draft.now place };

    ghost goes_on = { λ old new. (new.draft.now ≡ old.draft.now)
        × ReadsBelow D.size D.story D.tells old.device.ghost_name new.device.ghost_name old.device.now new.device.now };

    fn read_extent(&mut self, alloc: Global, place: Extent) -> Result<Vec<u8>, ReadError> {
        if place.run.start < self.draft.from {
            return read_run(alloc, self.device, place.run.start, place.bytes as usize);
        }
        let stream = place_of(&self.draft.starts, place.run.start);
        Ok(Vec::from_slice(alloc, &self.draft.streams[stream])?)
    }

    fn kept_message(&self) -> Option<&KeptMessage> {
        match &self.draft.message {
            Some(message) => Some(message),
            None => None,
        }
    }

    ghost stays = { λ source. (refl, below_stays D.size D.story D.tells source.device.ghost_name source.device.now) };

    ghost onward = { λ a b c first second. (
      second.0 ∙ first.0,
      below_onward D.size D.story D.tells a.device.ghost_name b.device.ghost_name c.device.ghost_name
          a.device.now b.device.now c.device.now first.1 second.1,
    ) };

    ghost still = { λ a b place goes lies. still_in_draft (D.size a.device.now) (D.size b.device.now) a.draft.now b.draft.now place goes.1.same goes.0 lies };
}
