// Tests the commit sectors of an open store.
ghost use Rattle.std.specs.Prelude.{◌≡◌, true, IfOk, IfErr};
ghost use Rattle.sector_dev.specs.Disk.{now, shown_image};
ghost use Rattle.commit.specs.Standing.{is_size};
ghost use Rattle.commit.specs.Agreeing.{commits_agree};
ghost use Rattle.store_runs.specs.Reading.{OnlyReadsDevice, ended};

use crate::Store;
use crate::reading::halts;
use sector_dev::SectorDevice;
use tables::Refusal;

// Returns whether the commit sectors of a device agree.
fn agreement_on<D: SectorDevice>(device: &mut D) -> Result<bool, Refusal>
    requires { is_size (D.size device.old) ≡ true }
    ensures reads { OnlyReadsDevice D.size D.story D.failed D.tells (ended result) device.old device.new }
    ensures found { IfOk result (λ said. D.tells ≡ true → commits_agree (shown_image (now (D.story device.old))) ≡ said) }
    ensures fails { IfErr result (λ e. e ≡ Refusal.Device) }
{
    match commit::commits_agree(device) {
        Ok(said) => Ok(said),
        Err(_) => Err(Refusal::Device),
    }
}

impl<D: SectorDevice> Store<D> {
    ghost use Rattle.store.specs.Fits.{device_of, is_halted};
    ghost use Rattle.store.specs.Agreeing.{SaysAgreement, RefusesAgreement};
    ghost use Rattle.store.specs.Reading.{OnlyReadsStore};

    /// Returns whether the two commit sectors hold what commits leave there, also after a crash ([`commit::commits_agree`]). If not, something else has
    /// changed one of them, and the last acknowledged commands may be lost. Only reads. Call it before the next change, which overwrites one of the two.
    ///
    /// # Errors
    /// `Halted` after a failure of the device; `Device`, after which the store is halted.
    pub fn commits_agree(&mut self) -> Result<bool, Refusal>
        ensures found { IfOk result (SaysAgreement (is_halted self.old) D.tells (shown_image (now (D.story (device_of self.old))))) }
        ensures told { IfErr result (RefusesAgreement (is_halted self.old)) }
        ensures reads { OnlyReadsStore D.size D.story D.failed D.tells (ended result) self.old self.new }
    {
        if self.halted {
            return Err(Refusal::Halted);
        }
        let said = agreement_on(&mut self.device);
        self.halted = halts(&said);
        said
    }
}
