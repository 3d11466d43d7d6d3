// What a crash leaves of a file, a crash of the device over it may leave.
ghost use Rattle.std.specs.Prelude.{◌≡◌, ◌++◌, true};
ghost use Rattle.sector_dev.specs.Disk.{Story, Image, now, moment, MayLeave, LeftSince};
ghost use Rattle.sector_dev.specs.View.{file_of, story_over};

use super::FileDevice;
use crate::SectorFile;

impl<F: SectorFile + Drop> FileDevice<F> {
    /// What a crash may leave of the file now, the story of the device allows now.
    pub fn leaves_no_more(&self)
        ensures { F.tells ≡ true → (image : Image) → MayLeave (now (F.story (file_of self.now))) image → MayLeave (now (story_over self.now)) image }
    {}

    /// What a crash may have left of the file since a call began, the story of the device allows since that call began. `before` is the device as the
    /// call began, and `self` as it is at any later time.
    pub fn left_no_more_since(&self, before: &FileDevice<F>)
        ensures { F.tells ≡ true → (fresh : Story) → story_over self.now ≡ fresh ++ story_over before.now → (image : Image)
            → LeftSince (F.story (file_of self.now)) (moment (F.story (file_of before.now))) image
            → LeftSince (story_over self.now) (moment (story_over before.now)) image }
    {}
}
