// Other devices that satisfy the laws: one without a story, two with all of it, and one with the story of another device.
ghost use Rattle.std.specs.Prelude.{◌≡◌, ◌+◌, ◌-◌, ◌^◌, min, Err, false, true, [], ◌∷◌};
ghost use Rattle.std.proofs.Common.{sym};
ghost use Rattle.std.proofs.lemmas.Bool.{true≢false};
ghost use Rattle.sector_dev.specs.Disk.{blank};
ghost use Rattle.sector_dev.specs.laws.Crash.{blank_shows, blank_whole};
ghost use Rattle.test_device.specs.Life.{story_of, story_shows, story_begun, story_whole, SpeaksOfContents, speaks_prop};

use crate::calls::{fill_sector, filling, read_sector, write_row};
use crate::life::Life;
use sector_dev::{DevError, ModelDevice, SectorDevice};
use std::alloc::Global;

// A device without a story, which loses what is written.
#[derive(Drop)]
struct Silent;

impl SectorDevice for Silent {
    ghost size = { λ _. 16 };

    ghost failed = { λ _. 0 };

    ghost tells = { false };

    ghost story = { λ _. [] };

    ghost shows = { λ _ told. blank_shows };

    ghost begun = { λ _ told. absurd (true≢false (sym told)) };

    ghost contents = { λ _ told. tt };

    fn sectors(&self) -> u64 {
        16
    }

    fn failures(&self) -> u64 {
        0
    }

    fn read(&mut self, _n: u64, _to: &mut [u8; 512]) -> Result<(), DevError> {
        Err(DevError::Unreadable)
    }

    fn write(&mut self, _n: u64, _from: &[u8; 512]) -> Result<(), DevError> {
        Ok(())
    }

    fn sync(&mut self) -> Result<(), DevError> {
        Ok(())
    }
}

// A device whose calls all fail before they begin, so that its disk never changes. It counts them up to the greatest number.
#[derive(Drop)]
struct Broken {
    failed: u64,
}

impl Broken {
    fn refuse(&mut self) -> Result<(), DevError>
        ensures { (result ≡ Err DevError.Failed) × (self.new.failed ≡ min (self.old.failed + 1) (2 ^ 64 - 1)) }
    {
        self.failed = self.failed.saturating_add(1);
        Err(DevError::Failed)
    }
}

impl SectorDevice for Broken {
    ghost size = { λ _. 16 };

    ghost failed = { λ b. b.failed };

    ghost tells = { true };

    ghost story = { λ _. blank ∷ [] };

    ghost shows = { λ _ told. blank_shows };

    ghost begun = { λ _ told none. cc none };

    ghost contents = { λ _ told. (blank_whole, tt) };

    fn sectors(&self) -> u64 {
        16
    }

    fn failures(&self) -> u64 {
        self.failed
    }

    fn read(&mut self, _n: u64, _to: &mut [u8; 512]) -> Result<(), DevError> {
        self.refuse()
    }

    fn write(&mut self, _n: u64, _from: &[u8; 512]) -> Result<(), DevError> {
        self.refuse()
    }

    fn sync(&mut self) -> Result<(), DevError> {
        self.refuse()
    }
}

// A device that allows only one write and one read. A sector that was not written can't be read.
#[derive(Drop)]
struct Brief {
    life: Life,
    failed: u64,
    ghost content: { SpeaksOfContents life } by { speaks_prop life },
}

impl Brief {
    fn refuse(&mut self) -> Result<(), DevError>
        ensures error { result ≡ Err DevError.Failed }
        ensures count { self.new.failed ≡ min (self.old.failed + 1) (2 ^ 64 - 1) }
        ensures life { self.new.life ≡ self.old.life }
    {
        self.failed = self.failed.saturating_add(1);
        Err(DevError::Failed)
    }
}

impl SectorDevice for Brief {
    ghost size = { λ _. 16 };

    ghost failed = { λ b. b.failed };

    ghost tells = { true };

    ghost story = { λ b. story_of b.life };

    ghost shows = { λ b told. story_shows b.life };

    ghost begun = { λ b told. story_begun b.life };

    ghost contents = { λ b told. story_whole b.life b.content };

    fn sectors(&self) -> u64 {
        16
    }

    fn failures(&self) -> u64 {
        self.failed
    }

    fn read(&mut self, n: u64, to: &mut [u8; 512]) -> Result<(), DevError> {
        match self.life {
            Life::Written(at, content) if at == n => {
                *to = content;
                self.life = Life::Read(at, content);
                Ok(())
            }
            _ => self.refuse(),
        }
    }

    fn write(&mut self, n: u64, from: &[u8; 512]) -> Result<(), DevError> {
        match self.life {
            Life::Fresh => {
                self.life = Life::Written(n, *from);
                Ok(())
            }
            _ => self.refuse(),
        }
    }

    fn sync(&mut self) -> Result<(), DevError> {
        self.refuse()
    }
}

// A device that counts the calls of another one.
#[derive(Drop)]
struct Counting<D: SectorDevice + Drop> {
    device: D,
    calls: u64,
}

impl<D: SectorDevice + Drop> SectorDevice for Counting<D> {
    ghost size = { λ c. D.size c.device };

    ghost failed = { λ c. D.failed c.device };

    ghost tells = { D.tells };

    ghost story = { λ c. D.story c.device };

    ghost shows = { λ c told. D.shows c.device told };

    ghost begun = { λ c told. D.begun c.device told };

    ghost contents = { λ c told. D.contents c.device told };

    fn sectors(&self) -> u64 {
        self.device.sectors()
    }

    fn failures(&self) -> u64 {
        self.device.failures()
    }

    fn read(&mut self, n: u64, to: &mut [u8; 512]) -> Result<(), DevError> {
        self.calls = self.calls.wrapping_add(1);
        self.device.read(n, to)
    }

    fn write(&mut self, n: u64, from: &[u8; 512]) -> Result<(), DevError> {
        self.calls = self.calls.wrapping_add(1);
        self.device.write(n, from)
    }

    fn sync(&mut self) -> Result<(), DevError> {
        self.calls = self.calls.wrapping_add(1);
        self.device.sync()
    }
}

// Returns whether a sector is written and synced with the first result, and read with the second.
fn answers<D: SectorDevice>(
    device: &mut D,
    written: Result<(), DevError>,
    read: Result<(), DevError>,
) -> bool {
    fill_sector(device, 3, 1) == written
        && device.sync() == written
        && read_sector(device, 3, &mut [0; 512]) == read
}

const FAILED: Result<(), DevError> = Err(DevError::Failed);

// Returns whether a fresh device that allows one write and one read gives the right results.
fn is_brief() -> bool {
    let mut brief = Brief {
        life: Life::Fresh,
        failed: 0,
    };
    fill_sector(&mut brief, 5, 7).is_ok()
        && filling(&mut brief, 5) == Some(Ok(7))
        && answers(&mut brief, FAILED, FAILED)
        && brief.failures() == 3
}

// Returns whether the count of a device near the greatest number stays at it.
fn is_broken() -> bool {
    let mut broken = Broken {
        failed: u64::MAX - 1,
    };
    answers(&mut broken, FAILED, FAILED) && broken.failures() == u64::MAX
}

fn is_silent() -> bool {
    answers(&mut Silent, Ok(()), Err(DevError::Unreadable))
}

// Returns whether each call is counted and made, even those of a row.
fn is_counted(counting: &mut Counting<ModelDevice>) -> bool {
    answers(counting, Ok(()), Ok(()))
        && counting.calls == 3
        && write_row(counting, 4, &[[2; 512], [3; 512]]).is_ok()
        && counting.calls == 5
        && filling(counting, 5) == Some(Ok(3))
}

fn is_model_counted(alloc: Global) -> bool {
    match ModelDevice::new(alloc, 16) {
        Ok(device) => is_counted(&mut Counting { device, calls: 0 }),
        Err(_) => false,
    }
}

fn are_called(alloc: Global) -> bool {
    is_silent() && is_broken() && is_brief() && is_model_counted(alloc)
}

#[test]
fn each_kind_of_device_is_called(rt: HostRuntime) {
    assert!(&rt; are_called(rt.alloc()));
}
