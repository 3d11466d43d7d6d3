// Laws of the definitions for the crates above: the functions do nothing, and their contracts are the laws.
ghost use Rattle.std.specs.Prelude.{◌≡◌, ◌≤◌, ℕ, true, List, length, map, Ok};
ghost use Rattle.std.specs.List.{AllByRecursion};
ghost use Rattle.sector_dev.specs.Disk.{Image};
ghost use Rattle.segments.specs.declared.run.Run.{Run};
ghost use Rattle.segments.specs.Pieces.{PlainPiece};
ghost use Rattle.segments.specs.Runs.{OutOf};
ghost use Rattle.segments.specs.Writing.{runs_of, HoldsEach};
ghost use Rattle.catalogue.specs.declared.entry.SegmentForm.{SegmentForm};
ghost use Rattle.catalogue.specs.Entries.{PlainCatalogue, IsCatalogue, has_form};
ghost use Rattle.commit.specs.Standing.{is_size};
ghost use Rattle.commit.specs.declared.sector.Commit.{Commit};
ghost use Rattle.pages.specs.Stored.{form_of, stored_reading, by_kind, HoldsPages};
ghost use Rattle.pages.specs.Paging.{kind_of, page_sizes, text_size, ArePageRuns, settled, page_texts, settled_text};
ghost use Rattle.pages.specs.laws.Written.{IsFree};
ghost use Rattle.pages.specs.laws.Made.{GoesTo};

use catalogue::{one_page_each, one_root_each, one_text_each, texts_have_these_sizes};

/// What is read of a store is a catalogue of the form of its version, and each page that it names holds the schema and segments of its table.
pub fn pages_hold_what_was_read()
    ensures kept { (size : ℕ) (image : Image) (k : Commit) (text : List ℕ) (c : PlainCatalogue) → is_size size ≡ true
        → stored_reading.at size image k text ≡ Ok c → IsCatalogue c }
    ensures held { (size : ℕ) (image : Image) (k : Commit) (text : List ℕ) (c : PlainCatalogue) → stored_reading.at size image k text ≡ Ok c
        → HoldsPages (form_of k.version) size image c }
    ensures formed { (size : ℕ) (image : Image) (k : Commit) (text : List ℕ) (c : PlainCatalogue) → stored_reading.at size image k text ≡ Ok c
        → has_form (form_of k.version) c ≡ true }
{
    one_text_each();
    one_page_each();
    one_root_each();
}

/// What is written of a catalogue has the given sizes, and is read back as that catalogue from each image that holds the pieces, among them its text
/// and its new pages in these runs, and is otherwise unchanged, so that the other pages are still there. A text is read in the form of the segments.
pub fn kept_catalogues_are_read()
    ensures pages { (c : PlainCatalogue) → map (λ (text : List ℕ). length text) (page_texts c) ≡ page_sizes c }
    ensures text { (c : PlainCatalogue) (runs : List Run) → ArePageRuns c runs → length (settled_text c runs) ≡ text_size c }
    ensures read { (form : SegmentForm) (size : ℕ) (before image : Image) (pieces : List PlainPiece) → HoldsEach image pieces
        → ((n : ℕ) → 2 ≤ n → OutOf (runs_of pieces) n → image n ≡ before n)
        → (c : PlainCatalogue) (runs : List Run) → IsCatalogue c → has_form form c ≡ true → ArePageRuns c runs → GoesTo size pieces c runs
        → HoldsPages form size before c → AllByRecursion (IsFree pieces) c
        → by_kind (kind_of c) form size image (settled_text c runs) ≡ Ok (settled c runs) }
{
    one_text_each();
    one_page_each();
    one_root_each();
    texts_have_these_sizes();
}
