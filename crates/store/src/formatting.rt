// Makes an empty store of a device.
ghost use Rattle.std.specs.Prelude.{◌≡◌, [], Some};
ghost use Rattle.commit.specs.Formatting.{empty_text};
ghost use Rattle.catalogue.specs.declared.entry.SegmentForm.{SegmentForm};
ghost use Rattle.catalogue.specs.Reading.{catalogue_at};
ghost use Rattle.store.specs.Opening.{formatting_of};

use crate::{OpeningRefusal, Store};
use catalogue::{Catalogue, one_text_each};
use commit::{FormatError, FormatVersion, Opened};
use export_book::ExportBook;
use pages::StoredCatalogue;
use sector_dev::SectorDevice;
use std::alloc::Global;

// Returns the refusal that is reported if a device is not formatted.
fn formatting_refusal(error: FormatError) -> OpeningRefusal
    ensures { result ≡ formatting_of error }
{
    match error {
        FormatError::AlreadyAStore => OpeningRefusal::AlreadyAStore,
        FormatError::Damaged(cause) => OpeningRefusal::Damaged(cause),
        FormatError::Device => OpeningRefusal::Device,
        FormatError::OutOfMemory => OpeningRefusal::OutOfMemory,
    }
}

// A law: the text that a formatting writes is that of no tables, in either form.
fn empty_text_has_no_tables()
    ensures { (form : SegmentForm) → catalogue_at form empty_text ≡ Some [] }
{
    one_text_each();
}

impl<D: SectorDevice> Store<D> {
    ghost use Rattle.std.specs.Prelude.{◌≡◌, ◌≢◌, true, false, None, IfOk, IfErr, OnOk};
    ghost use Rattle.sector_dev.specs.Disk.{now, shown_image};
    ghost use Rattle.sector_dev.specs.Time.{Grows, OnlyReads};
    ghost use Rattle.commit.specs.Ruling.{ruling};
    ghost use Rattle.commit.specs.Standing.{is_size};
    ghost use Rattle.commit.specs.declared.sector.FormatVersion.TheVariants.{Two};
    ghost use Rattle.commit.specs.Formatting.{IsFormatting};
    ghost use Rattle.commit.specs.declared.cause.Cause.TheVariants.{DeviceSize};
    ghost use Rattle.tables.specs.Tables.{Tables};
    ghost use Rattle.store_runs.specs.Calls.{format_call, shut_by, counted};
    ghost use Rattle.store_runs.specs.Machine.{Machine};
    ghost use Rattle.store.specs.Fits.{DeviceFits, FormatsStore, IsNewStore, Opens, Shuts, device_of};
    ghost use Rattle.store.specs.Opening.{TellsFormatting, IsOfFormatting};

    /// Makes an empty store of version 2 ([`Store::format_version`]).
    ///
    /// ```
    /// let store = match Store::format(alloc, ModelDevice::new(alloc, 64)?) {
    ///     Ok(store) => store,
    ///     Err((refusal, _device)) => bail!("{refusal}"),
    /// };
    /// ```
    ///
    /// # Errors
    /// Those of [`Store::format_version`].
    pub fn format(alloc: Global, device: D) -> Result<Store<D>, (OpeningRefusal, D)>
        // On a device whose images the machine allows, none of them had a store, and the new store has no tables.
        ensures opened { IfOk result (λ store. D.tells ≡ true → (base : Tables) (m : Machine) → DeviceFits D.size D.story base m device
            → Opens D.size D.story D.failed base m format_call device store) }
        ensures refused { IfErr result (λ e. D.tells ≡ true → (base : Tables) (m : Machine) → DeviceFits D.size D.story base m device
            → Shuts D.size D.story D.failed base m format_call device e.0 e.1) }
        // On any device, what is reported is true, and each moment has the old content, no store, or the empty store.
        ensures formatted { IfOk result (λ store. D.tells ≡ true → FormatsStore D.size D.story Two device store) }
        ensures told { IfErr result (λ e. D.tells ≡ true → TellsFormatting e.0 (D.size device) (ruling (shown_image (now (D.story device))))) }
        ensures untouched { IfErr result (λ e. D.tells ≡ true → ruling (shown_image (now (D.story device))) ≢ None
            → OnlyReads (D.story device) (D.story e.1)) }
        ensures quiet { IfErr result (λ e. e.0 ≢ OpeningRefusal.Device → D.tells ≡ true → now (D.story e.1) ≡ now (D.story device)) }
        ensures moments { IfErr result (λ e. D.tells ≡ true
            → Grows (IsFormatting (D.size device) Two (now (D.story device))) (D.story device) (D.story e.1)) }
        // These also hold for a device that does not tell its story.
        ensures empty { IfOk result (λ store. IsNewStore (D.size device) Two store) }
        ensures in_limits { OnOk result (is_size (D.size device) ≡ true) }
        ensures reason { IfErr result (λ e. IsOfFormatting (D.size device) e.0) }
        ensures limits { IfErr result (λ e. is_size (D.size device) ≡ false
            → (e.0 ≡ OpeningRefusal.Damaged DeviceSize) × (D.story e.1 ≡ D.story device)) }
        ensures size { IfOk result (λ store. D.size (device_of store) ≡ D.size device) }
        ensures size_back { IfErr result (λ e. D.size e.1 ≡ D.size device) }
        ensures count { IfOk result (λ store. D.failed (device_of store) ≡ D.failed device) }
        ensures count_back { IfErr result (λ e. D.failed e.1 ≡ counted (shut_by e.0) (D.failed device)) }
    {
        Store::format_version(alloc, device, FormatVersion::Two)
    }

    /// Makes an empty store in this version of the format on a device without a store, and opens it. Each change keeps the version. On an error the device
    /// is returned.
    ///
    /// # Errors
    /// `AlreadyAStore` if a commit rules, and then nothing is written; `Damaged(DeviceSize)` if no store can have the size of the device; `Device` if the
    /// device failed; `OutOfMemory`. After any error but `Device` nothing has changed.
    pub fn format_version(
        alloc: Global,
        device: D,
        version: FormatVersion,
    ) -> Result<Store<D>, (OpeningRefusal, D)>
        // On a device whose images the machine allows, none of them had a store, and the new store has no tables.
        ensures opened { IfOk result (λ store. D.tells ≡ true → (base : Tables) (m : Machine) → DeviceFits D.size D.story base m device
            → Opens D.size D.story D.failed base m format_call device store) }
        ensures refused { IfErr result (λ e. D.tells ≡ true → (base : Tables) (m : Machine) → DeviceFits D.size D.story base m device
            → Shuts D.size D.story D.failed base m format_call device e.0 e.1) }
        // On any device, what is reported is true, and each moment has the old content, no store, or the empty store.
        ensures formatted { IfOk result (λ store. D.tells ≡ true → FormatsStore D.size D.story version device store) }
        ensures told { IfErr result (λ e. D.tells ≡ true → TellsFormatting e.0 (D.size device) (ruling (shown_image (now (D.story device))))) }
        ensures untouched { IfErr result (λ e. D.tells ≡ true → ruling (shown_image (now (D.story device))) ≢ None
            → OnlyReads (D.story device) (D.story e.1)) }
        ensures quiet { IfErr result (λ e. e.0 ≢ OpeningRefusal.Device → D.tells ≡ true → now (D.story e.1) ≡ now (D.story device)) }
        ensures moments { IfErr result (λ e. D.tells ≡ true
            → Grows (IsFormatting (D.size device) version (now (D.story device))) (D.story device) (D.story e.1)) }
        // These also hold for a device that does not tell its story.
        ensures empty { IfOk result (λ store. IsNewStore (D.size device) version store) }
        ensures in_limits { OnOk result (is_size (D.size device) ≡ true) }
        ensures reason { IfErr result (λ e. IsOfFormatting (D.size device) e.0) }
        ensures limits { IfErr result (λ e. is_size (D.size device) ≡ false
            → (e.0 ≡ OpeningRefusal.Damaged DeviceSize) × (D.story e.1 ≡ D.story device)) }
        ensures size { IfOk result (λ store. D.size (device_of store) ≡ D.size device) }
        ensures size_back { IfErr result (λ e. D.size e.1 ≡ D.size device) }
        ensures count { IfOk result (λ store. D.failed (device_of store) ≡ D.failed device) }
        ensures count_back { IfErr result (λ e. D.failed e.1 ≡ counted (shut_by e.0) (D.failed device)) }
    {
        let mut device = device;
        empty_text_has_no_tables();
        match commit::format(alloc, &mut device, version) {
            Ok((commit, map)) => {
                let catalogue = StoredCatalogue {
                    list: Catalogue::empty(alloc),
                };
                Ok(Store {
                    device,
                    opened: Opened {
                        commit,
                        catalogue,
                        map,
                    },
                    halted: false,
                    book: ExportBook::new(alloc),
                })
            }
            Err(error) => Err((formatting_refusal(error), device)),
        }
    }
}
