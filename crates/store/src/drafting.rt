// Decides on several commands, one after another, before anything is written. Each is decided on the catalogue that those before it leave.
ghost use Rattle.std.specs.Prelude.{◌≡◌, ◌≢◌, Bool, true, false, None, List, Err, IfOk, IfErr, IfSome, MatchOption, string_bytes};
ghost use Rattle.sector_dev.specs.Disk.{Image};
ghost use Rattle.cells.specs.Cell.{Cell};
ghost use Rattle.catalogue.specs.Entries.{runs_of};
ghost use Rattle.catalogue.specs.Edits.{entry_of};
ghost use Rattle.catalogue.specs.View.{catalogue_of};
ghost use Rattle.commit.specs.Standing.{is_size, all_on_device};
ghost use Rattle.query.specs.View.{query_in};
ghost use Rattle.tables.specs.Commands.{append_rows, save_as};
ghost use Rattle.tables.specs.View.{command_of};
ghost use Rattle.store_runs.specs.Calls.{refused};
ghost use Rattle.store_runs.specs.Changes.{CanChange};
ghost use Rattle.store_runs.specs.Deciding.{reads_device, IsAnswered};
ghost use Rattle.store_runs.specs.Reading.{OnlyReadsDevice, ended};
ghost use Rattle.store_changes.specs.Appending.{append_of};
ghost use Rattle.store_changes.specs.Change.{change_of};
ghost use Rattle.store_changes.specs.Draft.{laid, streams_of, IsDraft};
ghost use Rattle.store_changes.specs.Tests.{decision_of};
ghost use Rattle.store_changes.specs.Verdicts.{EndsAtLine};
ghost use Rattle.store_changes.specs.Weights.{TellsWeight};
ghost use Rattle.store_changes.specs.declared.drafting.Draft.{Draft};
ghost use Rattle.store.specs.Applying.{AreTooHeavy};
ghost use Rattle.store.specs.Drafted.{KnowsWeight};
ghost use Rattle.store.specs.inner.Drafting.{Shows, StepsTo, KnowsWeightAfter};

use crate::saving::save_from_entry;
use query::Query;
use sector_dev::SectorDevice;
use std::alloc::Global;
use store_changes::{
    Change, Draft, DraftSource, Known, NewRows, append_to_entry, decide_create, decide_drop,
    decide_import, decide_rename, has_new, table_laws, weigh_entry,
};
use tables::{Command, Limit, Refusal};

/// The table to which the last command of a list appended rows, and what it weighs with them.
#[derive(Drop)]
pub(crate) struct NamedWeight {
    pub(crate) name: String,
    pub(crate) weight: u64,
}

// Returns the weight of the table with this name, if it is the one that was weighed.
fn weight_of(weighed: &Option<NamedWeight>, name: &str) -> Option<u64>
    ensures { (tells : Bool) (image : Image) (draft : Draft) → KnowsWeight tells image draft weighed.now
        → IfSome result (TellsWeight tells (laid draft.from (streams_of draft) image) (catalogue_of draft.made) name.now) }
{
    match weighed {
        Some(known) => {
            if known.name.as_str() == name {
                Some(known.weight)
            } else {
                None
            }
        }
        None => None,
    }
}

// Returns a weight with the name of its table, if it is known.
fn named_weight(name: String, weight: Option<u64>) -> Option<NamedWeight>
    ensures { MatchOption weight (result ≡ None) (λ w. IfSome result (λ known. (string_bytes known.name ≡ string_bytes name) × (known.weight ≡ w))) }
{
    match weight {
        Some(weight) => Some(NamedWeight { name, weight }),
        None => None,
    }
}

// Returns the change that appends rows to a table, which is not weighed again if the command before weighed it.
fn append_line<D: SectorDevice>(
    alloc: Global,
    device: &mut D,
    draft: &Draft,
    name: String,
    new: NewRows,
    weighed: &mut Option<NamedWeight>,
) -> Result<Change, Refusal>
    requires size { is_size (D.size device.old) ≡ true }
    requires draft { IsDraft draft.now }
    requires begins { draft.now.from ≡ D.size device.old }
    requires placed { all_on_device (D.size device.old) (runs_of (catalogue_of draft.now.old)) ≡ true }
    requires weighed { (image : Image) × Shows D.tells (D.story device.old) image × KnowsWeight D.tells image draft.now weighed.old }
    ensures reads { OnlyReadsDevice D.size D.story D.failed D.tells (ended result) device.old device.new }
    ensures ok { IfOk result (λ change. CanChange (catalogue_of draft.now.made) (change_of change)) }
    ensures answers { (image : Image) → Shows D.tells (D.story device.old) image
        → IsAnswered D.tells (laid draft.now.from (streams_of draft.now) image) (catalogue_of draft.now.made)
        (append_of (string_bytes name) new) (decision_of result) }
    ensures weighed { IfOk result (λ change. (image : Image) → Shows D.tells (D.story device.old) image
        → KnowsWeightAfter D.tells image draft.now weighed.new (change_of change)) }
    ensures not_halted { IfErr result (λ e. e ≢ Refusal.Halted) }
{
    match draft.made.get(&name) {
        Some(entry) => {
            let own = match name.clone() {
                Ok(own) => own,
                Err(_) => {
                    drop(new);
                    return Err(Refusal::OutOfMemory);
                }
            };
            let mut known = Known {
                is_read: has_new(draft.from, entry),
                weight: weight_of(weighed, &name),
            };
            let mut source = DraftSource { device, draft };
            let change = append_to_entry(alloc, &mut source, entry, name, new, &mut known);
            *weighed = named_weight(own, known.weight);
            change
        }
        None => {
            // Dropped by a call, since the drop of each variant would be inlined here.
            drop(new);
            Err(Refusal::NoTable)
        }
    }
}

// Returns the change that saves a query on a table as another table.
fn save_line<D: SectorDevice>(
    alloc: Global,
    device: &mut D,
    draft: &Draft,
    from: String,
    to: String,
    query: Query,
) -> Result<Change, Refusal>
    requires size { is_size (D.size device.old) ≡ true }
    requires draft { IsDraft draft.now }
    requires begins { draft.now.from ≡ D.size device.old }
    requires placed { all_on_device (D.size device.old) (runs_of (catalogue_of draft.now.old)) ≡ true }
    ensures reads { OnlyReadsDevice D.size D.story D.failed D.tells (ended result) device.old device.new }
    ensures ok { IfOk result (λ change. CanChange (catalogue_of draft.now.made) (change_of change)) }
    ensures answers { (image : Image) → Shows D.tells (D.story device.old) image
        → IsAnswered D.tells (laid draft.now.from (streams_of draft.now) image) (catalogue_of draft.now.made)
        (save_as (string_bytes from) (string_bytes to) (query_in query)) (decision_of result) }
    ensures not_halted { IfErr result (λ e. e ≢ Refusal.Halted) }
{
    match draft.made.get(&from) {
        Some(entry) => {
            let mut source = DraftSource { device, draft };
            save_from_entry(alloc, &mut source, &draft.made, entry, to, &query)
        }
        None => Err(Refusal::NoTable),
    }
}

// Returns the change that a command makes. Only an append and a saved query read the device.
fn decide_line<D: SectorDevice>(
    alloc: Global,
    device: &mut D,
    draft: &Draft,
    command: Command,
    weighed: &mut Option<NamedWeight>,
) -> Result<Change, Refusal>
    requires size { is_size (D.size device.old) ≡ true }
    requires draft { IsDraft draft.now }
    requires begins { draft.now.from ≡ D.size device.old }
    requires placed { all_on_device (D.size device.old) (runs_of (catalogue_of draft.now.old)) ≡ true }
    requires weighed { (image : Image) × Shows D.tells (D.story device.old) image × KnowsWeight D.tells image draft.now weighed.old }
    ensures reads { OnlyReadsDevice D.size D.story D.failed D.tells (ended result) device.old device.new }
    ensures still { reads_device (command_of command) ≡ false → device.new ≡ device.old }
    ensures ok { IfOk result (λ change. CanChange (catalogue_of draft.now.made) (change_of change)) }
    ensures answers { (image : Image) → Shows D.tells (D.story device.old) image
        → IsAnswered D.tells (laid draft.now.from (streams_of draft.now) image) (catalogue_of draft.now.made)
        (command_of command) (decision_of result) }
    ensures weighed { IfOk result (λ change. (image : Image) → Shows D.tells (D.story device.old) image
        → KnowsWeightAfter D.tells image draft.now weighed.new (change_of change)) }
    ensures not_halted { IfErr result (λ e. e ≢ Refusal.Halted) }
{
    match command {
        Command::Create(new) => {
            *weighed = None;
            decide_create(&draft.made, new)
        }
        Command::ImportStream { name, bytes } => {
            *weighed = None;
            decide_import(alloc, &draft.made, name, bytes)
        }
        Command::AppendStream { name, bytes } => {
            append_line(alloc, device, draft, name, NewRows::Stream(bytes), weighed)
        }
        Command::AppendRows { name, rows } => {
            append_line(alloc, device, draft, name, NewRows::Given(rows), weighed)
        }
        Command::AppendTable { name, new } => {
            append_line(alloc, device, draft, name, NewRows::OfTable(new), weighed)
        }
        Command::SaveAs { from, to, query } => {
            *weighed = None;
            save_line(alloc, device, draft, from, to, query)
        }
        Command::Rename { from, to } => {
            *weighed = None;
            decide_rename(&draft.made, from, to)
        }
        Command::Drop { name } => {
            *weighed = None;
            decide_drop(&draft.made, name)
        }
    }
}

/// Returns why rows that are too heavy for any table are not appended to a table.
pub(crate) fn heavy_line<D: SectorDevice>(
    alloc: Global,
    device: &mut D,
    draft: &Draft,
    name: &str,
) -> Refusal
    requires size { is_size (D.size device.old) ≡ true }
    requires draft { IsDraft draft.now }
    requires begins { draft.now.from ≡ D.size device.old }
    requires placed { all_on_device (D.size device.old) (runs_of (catalogue_of draft.now.old)) ≡ true }
    ensures reads { OnlyReadsDevice D.size D.story D.failed D.tells (refused result) device.old device.new }
    ensures answers { (image : Image) → Shows D.tells (D.story device.old) image
        → (rows : List (List Cell)) → AreTooHeavy (entry_of (catalogue_of draft.now.made) name.now) rows
        → IsAnswered D.tells (laid draft.now.from (streams_of draft.now) image) (catalogue_of draft.now.made) (append_rows name.now rows) (Err result) }
    ensures not_halted { result ≢ Refusal.Halted }
{
    match draft.made.get(name) {
        Some(entry) => {
            let mut source = DraftSource { device, draft };
            match weigh_entry(alloc, &mut source, entry) {
                Ok(_) => Refusal::TooMany(Limit::Weight),
                Err(refusal) => refusal,
            }
        }
        None => Refusal::NoTable,
    }
}

/// Returns the draft after one command more, and what is known then of the weight of a table.
pub(crate) fn add_line<D: SectorDevice>(
    alloc: Global,
    device: &mut D,
    draft: Draft,
    command: Command,
    weighed: &mut Option<NamedWeight>,
) -> Result<Draft, Refusal>
    requires size { is_size (D.size device.old) ≡ true }
    requires draft { IsDraft draft }
    requires begins { draft.from ≡ D.size device.old }
    requires placed { all_on_device (D.size device.old) (runs_of (catalogue_of draft.old)) ≡ true }
    requires weighed { (image : Image) × Shows D.tells (D.story device.old) image × KnowsWeight D.tells image draft weighed.old }
    ensures reads { OnlyReadsDevice D.size D.story D.failed D.tells (ended result) device.old device.new }
    ensures still { reads_device (command_of command) ≡ false → device.new ≡ device.old }
    ensures draft { IfOk result IsDraft }
    ensures same { IfOk result (λ next. (next.from ≡ draft.from) × (catalogue_of next.old ≡ catalogue_of draft.old)) }
    ensures steps { IfOk result (λ next. (image : Image) → Shows D.tells (D.story device.old) image
        → StepsTo D.tells image draft (command_of command) next) }
    ensures weighed { IfOk result (λ next. (image : Image) → Shows D.tells (D.story device.old) image → KnowsWeight D.tells image next weighed.new) }
    ensures ends { IfErr result (λ e. (image : Image) → Shows D.tells (D.story device.old) image
        → EndsAtLine D.tells draft.next (laid draft.from (streams_of draft) image) (catalogue_of draft.made) (command_of command) e) }
    ensures not_halted { IfErr result (λ e. e ≢ Refusal.Halted) }
{
    table_laws();
    match decide_line(alloc, device, &draft, command, weighed) {
        Ok(change) => draft.add(alloc, &change),
        Err(refusal) => {
            drop(draft);
            Err(refusal)
        }
    }
}
