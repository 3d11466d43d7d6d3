// Laws of decisions and changes. The functions do nothing: their contracts are the laws.
ghost use Rattle.std.specs.Prelude.{slice_get, Option, ◌≡◌, ◌⊎◌, ◌≤◌, ◌+◌, ◌*◌, ℕ, Bool, true, Some, List, ◌∷◌, length, Result};
ghost use Rattle.std.specs.List.{AllByRecursion};
ghost use Rattle.sector_dev.specs.Disk.{Disk, Image, synced_image};
ghost use Rattle.segments.specs.declared.entries.UsageEntry.{UsageEntry};
ghost use Rattle.segments.specs.Usages.{IsUsedIn};
ghost use Rattle.arrow_schema.specs.Column.{PlainSchema};
ghost use Rattle.cells.specs.Cell.{Cell, PlainTable};
ghost use Rattle.catalogue.specs.Entries.{PlainEntry, PlainCatalogue, IsCatalogue, segment_count};
ghost use Rattle.catalogue.specs.declared.entry.Segment.{Segment};
ghost use Rattle.catalogue.specs.Edits.{with_exchanged};
ghost use Rattle.store_changes.specs.Exchanging.{HoldsSame, AreOnDevice, ShrinkInTurn};
ghost use Rattle.commit.specs.declared.sector.Commit.{Commit};
ghost use Rattle.commit.specs.Standing.{used_runs, rules, standing, Stands, InSome};
ghost use Rattle.tables.specs.Tables.{Tables};
ghost use Rattle.tables.specs.Refusals.{origin_of};
ghost use Rattle.store_runs.specs.Steps.{IsNoList, RefusesLine};
ghost use Rattle.tables.specs.declared.refusal.Refusal.{Refusal};
ghost use Rattle.tables.specs.Commands.{PlainCommand, all_of, commands_of, BringsTables, EachBringsTables};
ghost use Rattle.store_runs.specs.Machine.{holds};
ghost use Rattle.store_runs.specs.Held.{bytes_of, segment_rows, table_held, tables_held, held_by};
ghost use Rattle.store_changes.specs.Digests.{HaveDigest, MeanRows};
ghost use Rattle.store_runs.specs.Reading.{IsUnread, IsDamaged, IsRead, HasRows};
ghost use Rattle.pages.specs.Stored.{stored_reading};
ghost use Rattle.store_runs.specs.Changes.{PlainChange};
ghost use Rattle.store_runs.specs.Deciding.{IsDecided, IsAnswered};
ghost use Rattle.store_changes.specs.OnDisk.{HasDone, IsOldOrDone};
ghost use Rattle.store_changes.specs.Verdicts.{AreListed, IsRefusedAt, IsVerdict, IsUndecided, HoldsVerdict};
ghost use Rattle.store_changes.specs.LawsBelow.{LawsBelow, TableLaws};

use ipc_encode::pieces_are_tables;
use ipc_stream::meaning_is_a_table;
use pages::pages_hold_what_was_read;
use query::{rows_refuse_no_query, selection_is_a_table};
use values::{accepted_rows_are_a_table, tables_are_joined_and_cut};

/// Segments that are replaced by others with the same rows leave the tables as they are. A sequence of catalogues, each with a segment fewer or with a lower
/// sum of the starts than the one before, is no longer than the square of the number of segments times the number of sectors, plus the number of segments.
pub fn compactions_end()
    ensures tables { (image : Image) (c : PlainCatalogue) (name : List ℕ) (place count : ℕ) (others : List Segment) → HoldsSame image c name place count others
        → tables_held image (with_exchanged c name place count others) ≡ tables_held image c }
    ensures few { (size : ℕ) (c : PlainCatalogue) (cs : List PlainCatalogue) → AreOnDevice size (c ∷ cs) → ShrinkInTurn c cs
        → length cs ≤ segment_count c * (segment_count c * size + 1) }
{}

/// Rows of a segment come only from bytes with the digest of its entry, if it has one: those of an image (`held`, and `table` for a table), and those that
/// were read from any device, for a table (`read`) or a piece of an export (`piece`). The first segment of a table that fails either can't be read or has
/// other bytes, and not both (`apart`).
pub fn rows_have_their_digest()
    ensures held { (schema : PlainSchema) (g : Segment) (image : Image) (rows : List (List Cell)) (d : List ℕ) → g.digest ≡ Some d
        → segment_rows schema g image ≡ Some rows → HaveDigest (bytes_of g image) d }
    ensures table { (image : Image) (e : PlainEntry) (table : PlainTable) (place : ℕ) (g : Segment) (d : List ℕ) → table_held image e ≡ Some table
        → slice_get e.segments place ≡ Some g → g.digest ≡ Some d → HaveDigest (bytes_of g image) d }
    ensures read { (tells : Bool) (image : Image) (e : PlainEntry) (table : PlainTable) (place : ℕ) (g : Segment) (d : List ℕ)
        → IsRead tells image e table → slice_get e.segments place ≡ Some g → g.digest ≡ Some d → (rows : List (List Cell)) × MeanRows e.schema g d rows }
    ensures piece { (tells : Bool) (image : Image) (schema : PlainSchema) (g : Segment) (piece : Option (List ℕ)) (d : List ℕ)
        → HasRows tells image schema g piece → g.digest ≡ Some d → (rows : List (List Cell)) × MeanRows schema g d rows }
    ensures apart { (image : Image) (e : PlainEntry) (i j : ℕ) → IsUnread image e i → IsDamaged image e j → ⊥ }
{}

/// The laws of tables, as one fact.
pub fn table_laws()
    ensures { TableLaws }
{
    accepted_rows_are_a_table();
    tables_are_joined_and_cut();
}

/// All laws below the store.
pub fn laws_below()
    ensures { LawsBelow }
{
    table_laws();
    pieces_are_tables();
    selection_is_a_table();
    rows_refuse_no_query();
    meaning_is_a_table();
    pages_hold_what_was_read();
}

/// The decision on a command, by a catalogue and by what reads show, is the verdict on the tables that the catalogue lists: a change with the same effect on
/// them as the command, or the same refusal. `decided` also holds for a store with a segment that can't be read. If each can be read (`listed`), the only
/// other answers are that memory was refused or that the device failed (`answered`). A list that ends at a command is refused for that line, or for one of
/// these two reasons (`at_line`). `catalogues`: what a commit names is a catalogue.
pub fn decisions_are_verdicts()
    ensures decided { (image : Image) (c : PlainCatalogue) (t : Tables) (command : PlainCommand) (d : Result PlainChange Refusal)
        → IsNoList command → AreListed image c t → BringsTables command → IsDecided true image c command d → IsVerdict t command d }
    ensures each { (image : Image) (c : PlainCatalogue) (t : Tables) (command : PlainCommand) (d : Result PlainChange Refusal)
        → IsCatalogue c → tables_held image c ≡ Some t → BringsTables command → IsDecided true image c command d → IsVerdict t command d }
    ensures at_line { (image : Image) (c : PlainCatalogue) (t : Tables) (commands : List PlainCommand) (place : ℕ) (r : Refusal)
        → IsCatalogue c → tables_held image c ≡ Some t → EachBringsTables (commands_of commands) → AllByRecursion IsNoList commands
        → IsRefusedAt true image c commands place r
        → (r ≡ Refusal.OutOfMemory) ⊎ (r ≡ Refusal.Device) ⊎ RefusesLine (origin_of r) t (all_of (commands_of commands)) place r }
    ensures listed { (image : Image) (c : PlainCatalogue) (t : Tables) → IsCatalogue c → tables_held image c ≡ Some t → AreListed image c t }
    ensures answered { (image : Image) (c : PlainCatalogue) (t : Tables) (command : PlainCommand) (d : Result PlainChange Refusal)
        → IsNoList command → IsCatalogue c → tables_held image c ≡ Some t → BringsTables command → IsAnswered true image c command d
        → IsUndecided command d ⊎ IsVerdict t command d }
    ensures catalogues { (size : ℕ) (image : Image) (k : Commit) (c : PlainCatalogue) → standing stored_reading size image ≡ rules k c → IsCatalogue c }
{
    laws_below();
}

/// For a store that lies on its disk, with these tables: an image on which a command is done has the tables of the verdict, if the runs of the catalogue
/// still have their contents (`done`). So a stop leaves those tables or the old ones (`left`).
pub fn what_is_done_is_the_verdict()
    ensures done { (size : ℕ) (entries : List UsageEntry) (k : Commit) (c : PlainCatalogue) (before : Disk) (t : Tables) (command : PlainCommand)
        (image : Image) → Stands stored_reading size before k c → tables_held (synced_image before) c ≡ Some t → BringsTables command
        → ((n : ℕ) → InSome (used_runs stored_reading k c) n → image n ≡ (before.at n).synced)
        → HasDone size (IsUsedIn entries) k c before command image → HoldsVerdict size image t command }
    ensures left { (size : ℕ) (entries : List UsageEntry) (k : Commit) (c : PlainCatalogue) (before : Disk) (t : Tables) (command : PlainCommand)
        (image : Image) → Stands stored_reading size before k c → tables_held (synced_image before) c ≡ Some t → BringsTables command
        → IsOldOrDone size (IsUsedIn entries) k c before command image → (held_by size image ≡ holds t) ⊎ HoldsVerdict size image t command }
{
    laws_below();
}
