// Borrows the device of a store.
ghost use Rattle.std.specs.Prelude.{◌≡◌};
ghost use Rattle.store.specs.Fits.{device_of};
ghost use Rattle.store.specs.Places.{device_in};

use crate::{Store, StoreOrDevice};
use sector_dev::SectorDevice;

impl<D: SectorDevice> Store<D> {
    /// Borrows the device of the store.
    pub fn device(&self) -> &D
        ensures { result.now ≡ device_of self.now }
    {
        &self.device
    }
}

impl<D: SectorDevice> StoreOrDevice<D> {
    /// Borrows the device.
    pub fn device(&self) -> &D
        ensures { result.now ≡ device_in self.now }
    {
        match self {
            StoreOrDevice::Open(store) => store.device(),
            StoreOrDevice::Shut(device) => device,
        }
    }
}
