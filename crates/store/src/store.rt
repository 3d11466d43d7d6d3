// An open store.
ghost use Rattle.std.specs.Prelude.{◌≡◌, ◌∷◌, [], true, None};
ghost use Rattle.commit.specs.Standing.{is_size, is_on_device, runs_fault};
ghost use Rattle.commit.specs.Placing.{Uses};
ghost use Rattle.catalogue.specs.Entries.{runs_of, has_form};
ghost use Rattle.catalogue.specs.View.{catalogue_of};
ghost use Rattle.export_book.specs.Book.{runs_kept};
ghost use Rattle.export_book.specs.View.{book_of};
ghost use Rattle.pages.specs.Stored.{form_of};
ghost use Rattle.store.specs.Exported.{AreExportable, exportable_prop};

use crate::OpeningRefusal;
use crate::opening_refusal::opening_refusal;
use commit::{FormatVersion, Opened, recover};
use export_book::ExportBook;
use pages::StoredCatalogue;
use sector_dev::SectorDevice;
use std::alloc::Global;

/// Named tables on a device. After a failure of the device the store is halted: it must be closed and opened again.
#[derive(Drop)]
pub struct Store<D: SectorDevice> {
    pub(crate) device: D,
    pub(crate) opened: Opened<StoredCatalogue>,
    pub(crate) halted: bool,
    pub(crate) book: ExportBook,
    ghost in_limits: { is_size (D.size device) ≡ true },
    ghost same: { opened.map.size ≡ D.size device },
    ghost own: { opened.commit.device_sectors ≡ D.size device },
    ghost fit: { runs_fault (D.size device) opened.commit.catalogue.run (runs_of (catalogue_of opened.catalogue.list)) ≡ None },
    ghost placed: { is_on_device (D.size device) opened.commit.catalogue.run ≡ true },
    // Each segment has a digest exactly if the version has digests, on any device.
    ghost form: { has_form (form_of opened.commit.version) (catalogue_of opened.catalogue.list) ≡ true },
    ghost uses: { Uses opened.map.entries (opened.commit.catalogue.run ∷ runs_of (catalogue_of opened.catalogue.list)) (runs_kept (book_of book).exports) },
    ghost exported: { AreExportable (D.size device) (book_of book).exports } by { exportable_prop (D.size device) (book_of book).exports },
}

impl<D: SectorDevice> Store<D> {
    ghost use Rattle.std.specs.Prelude.{◌≢◌, false, IfOk, IfErr, OnOk};
    ghost use Rattle.sector_dev.specs.Disk.{now};
    ghost use Rattle.sector_dev.specs.Time.{Grows};
    ghost use Rattle.commit.specs.Opening.{IsOpening, standing_shown};
    ghost use Rattle.commit.specs.declared.cause.Cause.TheVariants.{DeviceSize};
    ghost use Rattle.tables.specs.Tables.{Tables};
    ghost use Rattle.store_runs.specs.Calls.{open_call, shut_by, counted};
    ghost use Rattle.store_runs.specs.Machine.{Machine};
    ghost use Rattle.export_book.specs.Book.{no_exports};
    ghost use Rattle.store.specs.Fits as fits;
    ghost use Rattle.store.specs.Fits.{DeviceFits, FindsStore, Opens, Shuts, commit_of, device_of, is_halted};
    ghost use Rattle.pages.specs.Stored.{stored_reading};
    ghost use Rattle.store.specs.Opening.{TellsOpening};

    /// Opens the store on a device, as its commit sectors and its catalogue say, after a sync. On an error the device is returned.
    ///
    /// ```
    /// let store = match Store::open(alloc, device) {
    ///     Ok(store) => store,
    ///     Err((refusal, _device)) => bail!("{refusal}"),
    /// };
    /// ```
    ///
    /// # Errors
    /// `NotAStore` if no commit rules; `Damaged` with the first cause, which may be that no store can have the size of the device; `Device` if the device
    /// failed; `OutOfMemory`. After any error but `Device` nothing has changed.
    pub fn open(alloc: Global, device: D) -> Result<Store<D>, (OpeningRefusal, D)>
        // On a device whose images the machine allows, the store has the tables of the settled commands, with or without the command in doubt.
        ensures opened { IfOk result (λ store. D.tells ≡ true → (base : Tables) (m : Machine) → DeviceFits D.size D.story base m device
            → Opens D.size D.story D.failed base m open_call device store) }
        ensures refused { IfErr result (λ e. D.tells ≡ true → (base : Tables) (m : Machine) → DeviceFits D.size D.story base m device
            → Shuts D.size D.story D.failed base m open_call device e.0 e.1) }
        // On any device, what is found or reported is true, and no moment has a write.
        ensures found { IfOk result (λ store. D.tells ≡ true → FindsStore D.size D.story device store) }
        ensures told { IfErr result (λ e. D.tells ≡ true → TellsOpening e.0 (standing_shown stored_reading (D.size device) (D.story device))) }
        ensures not_already { IfErr result (λ e. e.0 ≢ OpeningRefusal.AlreadyAStore) }
        ensures quiet { IfErr result (λ e. e.0 ≢ OpeningRefusal.Device → D.tells ≡ true → now (D.story e.1) ≡ now (D.story device)) }
        ensures moments { IfErr result (λ e. D.tells ≡ true → Grows (IsOpening (now (D.story device))) (D.story device) (D.story e.1)) }
        // These also hold for a device that does not tell its story.
        ensures in_limits { OnOk result (is_size (D.size device) ≡ true) }
        ensures on { IfOk result (λ store. is_halted store ≡ false) }
        ensures none_open { IfOk result (λ store. fits.book_of store ≡ no_exports) }
        ensures limits { IfErr result (λ e. is_size (D.size device) ≡ false
            → (e.0 ≡ OpeningRefusal.Damaged DeviceSize) × (D.story e.1 ≡ D.story device)) }
        ensures size { IfOk result (λ store. D.size (device_of store) ≡ D.size device) }
        ensures size_back { IfErr result (λ e. D.size e.1 ≡ D.size device) }
        ensures count { IfOk result (λ store. D.failed (device_of store) ≡ D.failed device) }
        ensures count_back { IfErr result (λ e. D.failed e.1 ≡ counted (shut_by e.0) (D.failed device)) }
    {
        let mut device = device;
        match recover(alloc, &mut device) {
            Ok(opened) => Ok(Store {
                device,
                opened,
                halted: false,
                book: ExportBook::new(alloc),
            }),
            Err(error) => Err((opening_refusal(error), device)),
        }
    }

    /// Returns the version of the store's format.
    pub fn version(&self) -> FormatVersion
        ensures { result ≡ (commit_of self.now).version }
    {
        self.opened.commit.version
    }

    /// Closes the store, even a halted one, and returns its device. Makes no call of the device. Open exports end. A file is unlocked when its device
    /// is dropped.
    pub fn close(self) -> D
        ensures { result ≡ device_of self }
    {
        let Store {
            device,
            opened: _opened,
            halted: _halted,
            book: _book,
        } = self;
        device
    }
}
