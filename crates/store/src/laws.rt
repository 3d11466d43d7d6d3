// Laws of open stores. The functions do nothing: their contracts are the laws.
ghost use Rattle.std.specs.Prelude.{◌≡◌, ◌↔◌, ℕ, Bool, true, List, Some, slice_get};
ghost use Rattle.sha2.specs.Sha256.{sha256};
ghost use Rattle.sector_dev.specs.Disk.{Image};
ghost use Rattle.segments.specs.declared.run.Run as runs;
ghost use Rattle.segments.specs.Usages.{IsUsedIn};
ghost use Rattle.catalogue.specs.declared.entry.Segment as segments;
ghost use Rattle.catalogue.specs.Entries.{PlainEntry, has_form};
ghost use Rattle.catalogue.specs.Edits.{entry_of};
ghost use Rattle.commit.specs.declared.sector.FormatVersion.TheVariants.{Two};
ghost use Rattle.commit.specs.Placing.{Uses};
ghost use Rattle.commit.specs.Standing.{used_runs};
ghost use Rattle.export_book.specs.Book.{runs_kept};
ghost use Rattle.pages.specs.Stored.{form_of, stored_reading};
ghost use Rattle.store_runs.specs.Carrying.{IsInUse};
ghost use Rattle.store_runs.specs.Reading.{IsCopy};
ghost use Rattle.store.specs.Fits.{commit_of, listed_in, book_of};

use crate::Store;
use sector_dev::SectorDevice;

/// The runs in use by the map of a store are the run of its catalogue's text, those that its catalogue names, and those that open exports keep (`in_use`).
/// The runs of the catalogue are taken, and a run is pinned as often as open exports keep it (`usages`). So it is of each store, on any device, also one with
/// a segment that can't be read: the clauses of a command, a step and an upgrade speak of these runs.
pub fn used_runs_are_named<D: SectorDevice>(store: &Store<D>)
    ensures usages { Uses store.now.opened.map.entries (used_runs stored_reading (commit_of store.now) (listed_in store.now))
        (runs_kept (book_of store.now).exports) }
    ensures in_use { (run : runs.Run) → IsUsedIn store.now.opened.map.entries run
        ↔ IsInUse (commit_of store.now) (listed_in store.now) (runs_kept (book_of store.now).exports) run }
{
    let _ = store;
}

/// On any device each segment of a store of version 2 has a digest, and none of a store of version 1 has one (`form`).
/// So the bytes that a read of the device gives of a segment of a store of version 2 have the digest that the catalogue
/// lists for it (`read`).
pub fn segments_have_digests<D: SectorDevice>(store: &Store<D>)
    ensures form { has_form (form_of (commit_of store.now).version) (listed_in store.now) ≡ true }
    ensures read { (commit_of store.now).version ≡ Two → (tells : Bool) (image : Image) (name : List ℕ) (e : PlainEntry)
        (place : ℕ) (g : segments.Segment) (bytes : List ℕ) → entry_of (listed_in store.now) name ≡ Some e
        → slice_get e.segments place ≡ Some g → IsCopy tells image g bytes → g.digest ≡ Some (sha256 bytes) }
{
    let _ = store;
}
