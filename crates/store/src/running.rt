// Answers the calls of a place in order.
ghost use Rattle.std.specs.Prelude.{◌≡◌, true, List, length, IfOk, IfErr};
ghost use Rattle.tables.specs.Tables.{Tables};
ghost use Rattle.tables.specs.View.{command_of, list_of};
ghost use Rattle.tables.specs.Commands.{import_stream, append_stream};
ghost use Rattle.store_runs.specs.Calls.{PlainCall, apply_call, format_call, open_call, tables_call, schema_call, read_call, export_call, open_export_call, export_next_call, close_export_call, compact_call, upgrade_call, counted};
ghost use Rattle.store_runs.specs.Machine.{Machine};
ghost use Rattle.store.specs.Compacting.{reply_of};
ghost use Rattle.store.specs.Upgrading.{upgrade_reply};
ghost use Rattle.store.specs.Answering.{AnswersOpening, AnswersFormatting, Answers, AnswersEach, AnswersAs, AnswersCall, AnswersCalls};
ghost use Rattle.store.specs.Fits.{DeviceFits, StoreFits, device_of};
ghost use Rattle.store.specs.Places.{IsStreamOf, AreCallsOf, asks_store, reply_in, replies_of, device_in, PlaceFits, PlaceGoes, PlaceLives};

use crate::{Call, Compaction, ListRefusal, Reply, Store, StoreOrDevice, Upgraded};
use sector_dev::SectorDevice;
use std::alloc::Global;
use std::io::Read;
use tables::{Command, Refusal};

// Opens the store on a device.
fn open_place<D: SectorDevice>(alloc: Global, device: D) -> (StoreOrDevice<D>, Reply)
    ensures goes { D.tells ≡ true → (base : Tables) (m : Machine) → DeviceFits D.size D.story base m device
        → PlaceGoes D.size D.story D.failed base m open_call (reply_in result.1) device result.0 }
    ensures answers { AnswersOpening D.size D.story D.tells device (reply_in result.1) result.0 }
    ensures same { D.size (device_in result.0) ≡ D.size device }
    ensures count { D.failed (device_in result.0) ≡ counted (reply_in result.1) (D.failed device) }
{
    match Store::open(alloc, device) {
        Ok(store) => (StoreOrDevice::Open(store), Reply::Done),
        Err((refusal, device)) => (StoreOrDevice::Shut(device), Reply::NotOpened(refusal)),
    }
}

// Makes an empty store on a device.
fn format_place<D: SectorDevice>(alloc: Global, device: D) -> (StoreOrDevice<D>, Reply)
    ensures goes { D.tells ≡ true → (base : Tables) (m : Machine) → DeviceFits D.size D.story base m device
        → PlaceGoes D.size D.story D.failed base m format_call (reply_in result.1) device result.0 }
    ensures answers { AnswersFormatting D.size D.story D.tells device (reply_in result.1) result.0 }
    ensures same { D.size (device_in result.0) ≡ D.size device }
    ensures count { D.failed (device_in result.0) ≡ counted (reply_in result.1) (D.failed device) }
{
    match Store::format(alloc, device) {
        Ok(store) => (StoreOrDevice::Open(store), Reply::Done),
        Err((refusal, device)) => (StoreOrDevice::Shut(device), Reply::NotOpened(refusal)),
    }
}

// Refuses a call that needs an open store.
fn refuse<D: SectorDevice, R: Read + Drop>(device: D, call: Call<R>) -> (StoreOrDevice<D>, Reply)
    requires { asks_store call ≡ true }
    ensures { AnswersCall D.size D.story D.failed D.tells R.remaining (StoreOrDevice.Shut device) call (reply_in result.1) result.0 }
{
    // Dropped by a call, since the inlined drop of each variant would be most of the function.
    drop(call);
    (StoreOrDevice::Shut(device), Reply::Refused(Refusal::Halted))
}

// Answers a call of a device without an open store.
fn answer_shut<D: SectorDevice, R: Read + Drop>(
    alloc: Global,
    device: D,
    call: Call<R>,
) -> (StoreOrDevice<D>, Reply)
    ensures { AnswersCall D.size D.story D.failed D.tells R.remaining (StoreOrDevice.Shut device) call (reply_in result.1) result.0 }
{
    match call {
        Call::Format => format_place(alloc, device),
        Call::Open => open_place(alloc, device),
        call => refuse(device, call),
    }
}

// Applies a command.
fn apply_in<D: SectorDevice>(
    alloc: Global,
    store: Store<D>,
    command: Command,
) -> (StoreOrDevice<D>, Reply)
    ensures goes { D.tells ≡ true → (base : Tables) (m : Machine) → StoreFits D.size D.story base m store
        → PlaceGoes D.size D.story D.failed base m (apply_call (command_of command)) (reply_in result.1) (device_of store) result.0 }
    ensures answers { Answers D.size D.story D.failed D.tells (StoreOrDevice.Open store) (apply_call (command_of command)) (reply_in result.1) result.0 }
{
    let mut store = store;
    match store.apply(alloc, command) {
        Ok(()) => (StoreOrDevice::Open(store), Reply::Done),
        Err(refusal) => (StoreOrDevice::Open(store), Reply::Refused(refusal)),
    }
}

// Applies several commands as one.
fn apply_all_in<D: SectorDevice>(
    alloc: Global,
    store: Store<D>,
    commands: Vec<Command>,
) -> (StoreOrDevice<D>, Reply)
    ensures goes { D.tells ≡ true → (base : Tables) (m : Machine) → StoreFits D.size D.story base m store
        → PlaceGoes D.size D.story D.failed base m (apply_call (list_of commands.items)) (reply_in result.1) (device_of store) result.0 }
    ensures answers { Answers D.size D.story D.failed D.tells (StoreOrDevice.Open store) (apply_call (list_of commands.items)) (reply_in result.1) result.0 }
{
    let mut store = store;
    match store.apply_all(alloc, commands) {
        Ok(()) => (StoreOrDevice::Open(store), Reply::Done),
        Err(ListRefusal::At { place, refusal }) => {
            (
                StoreOrDevice::Open(store),
                Reply::RefusedAt { place, refusal },
            )
        }
        Err(ListRefusal::Whole(refusal)) => (StoreOrDevice::Open(store), Reply::Refused(refusal)),
    }
}

// Imports a table from a reader.
fn import_in<D: SectorDevice, R: Read + Drop>(
    alloc: Global,
    store: Store<D>,
    name: &str,
    reader: R,
) -> (StoreOrDevice<D>, Reply)
    ensures { AnswersAs D.size D.story D.failed D.tells (IsStreamOf (R.remaining reader) (import_stream name.now)) (StoreOrDevice.Open store)
        (reply_in result.1) result.0 }
{
    let mut store = store;
    let mut reader = reader;
    match store.import_from(alloc, name, &mut reader) {
        Ok(()) => (StoreOrDevice::Open(store), Reply::Done),
        Err(refusal) => (StoreOrDevice::Open(store), Reply::Refused(refusal)),
    }
}

// Appends rows from a reader.
fn append_in<D: SectorDevice, R: Read + Drop>(
    alloc: Global,
    store: Store<D>,
    name: &str,
    reader: R,
) -> (StoreOrDevice<D>, Reply)
    ensures { AnswersAs D.size D.story D.failed D.tells (IsStreamOf (R.remaining reader) (append_stream name.now)) (StoreOrDevice.Open store)
        (reply_in result.1) result.0 }
{
    let mut store = store;
    let mut reader = reader;
    match store.append_from(alloc, name, &mut reader) {
        Ok(()) => (StoreOrDevice::Open(store), Reply::Done),
        Err(refusal) => (StoreOrDevice::Open(store), Reply::Refused(refusal)),
    }
}

// Returns the schema of a table.
fn schema_in<D: SectorDevice>(
    alloc: Global,
    store: Store<D>,
    name: &str,
) -> (StoreOrDevice<D>, Reply)
    ensures goes { D.tells ≡ true → (base : Tables) (m : Machine) → StoreFits D.size D.story base m store
        → PlaceGoes D.size D.story D.failed base m (schema_call name.now) (reply_in result.1) (device_of store) result.0 }
    ensures answers { Answers D.size D.story D.failed D.tells (StoreOrDevice.Open store) (schema_call name.now) (reply_in result.1) result.0 }
{
    let mut store = store;
    match store.schema(alloc, name) {
        Ok(schema) => (StoreOrDevice::Open(store), Reply::Schema(schema)),
        Err(refusal) => (StoreOrDevice::Open(store), Reply::Refused(refusal)),
    }
}

// Lists the tables.
fn list_in<D: SectorDevice>(alloc: Global, store: Store<D>) -> (StoreOrDevice<D>, Reply)
    ensures goes { D.tells ≡ true → (base : Tables) (m : Machine) → StoreFits D.size D.story base m store
        → PlaceGoes D.size D.story D.failed base m tables_call (reply_in result.1) (device_of store) result.0 }
    ensures answers { Answers D.size D.story D.failed D.tells (StoreOrDevice.Open store) tables_call (reply_in result.1) result.0 }
{
    match store.tables(alloc) {
        Ok(tables) => (StoreOrDevice::Open(store), Reply::Tables(tables)),
        Err(refusal) => (StoreOrDevice::Open(store), Reply::Refused(refusal)),
    }
}

// Reads a table.
fn read_in<D: SectorDevice>(alloc: Global, store: Store<D>, name: &str) -> (StoreOrDevice<D>, Reply)
    ensures goes { D.tells ≡ true → (base : Tables) (m : Machine) → StoreFits D.size D.story base m store
        → PlaceGoes D.size D.story D.failed base m (read_call name.now) (reply_in result.1) (device_of store) result.0 }
    ensures answers { Answers D.size D.story D.failed D.tells (StoreOrDevice.Open store) (read_call name.now) (reply_in result.1) result.0 }
{
    let mut store = store;
    match store.read(alloc, name) {
        Ok(table) => (StoreOrDevice::Open(store), Reply::Table(table)),
        Err(refusal) => (StoreOrDevice::Open(store), Reply::Refused(refusal)),
    }
}

// Exports a table.
fn export_in<D: SectorDevice>(
    alloc: Global,
    store: Store<D>,
    name: &str,
) -> (StoreOrDevice<D>, Reply)
    ensures goes { D.tells ≡ true → (base : Tables) (m : Machine) → StoreFits D.size D.story base m store
        → PlaceGoes D.size D.story D.failed base m (export_call name.now) (reply_in result.1) (device_of store) result.0 }
    ensures answers { Answers D.size D.story D.failed D.tells (StoreOrDevice.Open store) (export_call name.now) (reply_in result.1) result.0 }
{
    let mut store = store;
    match store.export_bytes(alloc, name) {
        Ok(bytes) => (StoreOrDevice::Open(store), Reply::Bytes(bytes)),
        Err(refusal) => (StoreOrDevice::Open(store), Reply::Refused(refusal)),
    }
}

// Opens an export.
fn open_export_in<D: SectorDevice>(
    alloc: Global,
    store: Store<D>,
    name: &str,
) -> (StoreOrDevice<D>, Reply)
    ensures goes { D.tells ≡ true → (base : Tables) (m : Machine) → StoreFits D.size D.story base m store
        → PlaceGoes D.size D.story D.failed base m (open_export_call name.now) (reply_in result.1) (device_of store) result.0 }
    ensures answers { Answers D.size D.story D.failed D.tells (StoreOrDevice.Open store) (open_export_call name.now) (reply_in result.1) result.0 }
{
    let mut store = store;
    match store.open_export(alloc, name) {
        Ok(id) => (StoreOrDevice::Open(store), Reply::Export(id)),
        Err(refusal) => (StoreOrDevice::Open(store), Reply::Refused(refusal)),
    }
}

// Gives the next piece of an export.
fn export_next_in<D: SectorDevice>(
    alloc: Global,
    store: Store<D>,
    id: u64,
) -> (StoreOrDevice<D>, Reply)
    ensures goes { D.tells ≡ true → (base : Tables) (m : Machine) → StoreFits D.size D.story base m store
        → PlaceGoes D.size D.story D.failed base m (export_next_call id) (reply_in result.1) (device_of store) result.0 }
    ensures answers { Answers D.size D.story D.failed D.tells (StoreOrDevice.Open store) (export_next_call id) (reply_in result.1) result.0 }
{
    let mut store = store;
    match store.export_next(alloc, id) {
        Ok(piece) => (StoreOrDevice::Open(store), Reply::Piece(piece)),
        Err(refusal) => (StoreOrDevice::Open(store), Reply::Refused(refusal)),
    }
}

// Closes an export.
fn close_export_in<D: SectorDevice>(store: Store<D>, id: u64) -> (StoreOrDevice<D>, Reply)
    ensures goes { D.tells ≡ true → (base : Tables) (m : Machine) → StoreFits D.size D.story base m store
        → PlaceGoes D.size D.story D.failed base m (close_export_call id) (reply_in result.1) (device_of store) result.0 }
    ensures answers { Answers D.size D.story D.failed D.tells (StoreOrDevice.Open store) (close_export_call id) (reply_in result.1) result.0 }
{
    let mut store = store;
    match store.close_export(id) {
        Ok(()) => (StoreOrDevice::Open(store), Reply::Done),
        Err(refusal) => (StoreOrDevice::Open(store), Reply::Refused(refusal)),
    }
}

fn step_reply(done: Compaction) -> Reply
    ensures { reply_in result ≡ reply_of done }
{
    match done {
        Compaction::Merged => Reply::Merged,
        Compaction::Moved => Reply::Moved,
        Compaction::Nothing => Reply::Nothing,
    }
}

// Takes one step of a compaction.
fn compact_in<D: SectorDevice>(alloc: Global, store: Store<D>) -> (StoreOrDevice<D>, Reply)
    ensures goes { D.tells ≡ true → (base : Tables) (m : Machine) → StoreFits D.size D.story base m store
        → PlaceGoes D.size D.story D.failed base m compact_call (reply_in result.1) (device_of store) result.0 }
    ensures answers { Answers D.size D.story D.failed D.tells (StoreOrDevice.Open store) compact_call (reply_in result.1) result.0 }
{
    let mut store = store;
    match store.compact_step(alloc) {
        Ok(done) => (StoreOrDevice::Open(store), step_reply(done)),
        Err(refusal) => (StoreOrDevice::Open(store), Reply::Refused(refusal)),
    }
}

fn upgrade_reply(upgraded: Upgraded) -> Reply
    ensures { reply_in result ≡ upgrade_reply upgraded }
{
    match upgraded {
        Upgraded::Done => Reply::Done,
        Upgraded::Already => Reply::Already,
    }
}

// Upgrades the store.
fn upgrade_in<D: SectorDevice>(alloc: Global, store: Store<D>) -> (StoreOrDevice<D>, Reply)
    ensures goes { D.tells ≡ true → (base : Tables) (m : Machine) → StoreFits D.size D.story base m store
        → PlaceGoes D.size D.story D.failed base m upgrade_call (reply_in result.1) (device_of store) result.0 }
    ensures answers { Answers D.size D.story D.failed D.tells (StoreOrDevice.Open store) upgrade_call (reply_in result.1) result.0 }
{
    let mut store = store;
    match store.upgrade(alloc) {
        Ok(upgraded) => (StoreOrDevice::Open(store), upgrade_reply(upgraded)),
        Err(refusal) => (StoreOrDevice::Open(store), Reply::Refused(refusal)),
    }
}

// Answers a call of an open store.
fn answer_open<D: SectorDevice, R: Read + Drop>(
    alloc: Global,
    store: Store<D>,
    call: Call<R>,
) -> (StoreOrDevice<D>, Reply)
    ensures { AnswersCall D.size D.story D.failed D.tells R.remaining (StoreOrDevice.Open store) call (reply_in result.1) result.0 }
{
    match call {
        Call::Apply(command) => apply_in(alloc, store, command),
        Call::ApplyAll(commands) => apply_all_in(alloc, store, commands),
        Call::ImportFrom { name, reader } => import_in(alloc, store, &name, reader),
        Call::AppendFrom { name, reader } => append_in(alloc, store, &name, reader),
        Call::Format => format_place(alloc, store.close()),
        Call::Open => open_place(alloc, store.close()),
        Call::Close => (StoreOrDevice::Shut(store.close()), Reply::Done),
        Call::Tables => list_in(alloc, store),
        Call::Schema(name) => schema_in(alloc, store, &name),
        Call::Read(name) => read_in(alloc, store, &name),
        Call::Export(name) => export_in(alloc, store, &name),
        Call::OpenExport(name) => open_export_in(alloc, store, &name),
        Call::ExportNext(id) => export_next_in(alloc, store, id),
        Call::CloseExport(id) => close_export_in(store, id),
        Call::Compact => compact_in(alloc, store),
        Call::Upgrade => upgrade_in(alloc, store),
    }
}

/// Answers one call, as [`run`] answers each of its calls.
pub fn answer<D: SectorDevice, R: Read + Drop>(
    alloc: Global,
    place: StoreOrDevice<D>,
    call: Call<R>,
) -> (StoreOrDevice<D>, Reply)
    ensures { AnswersCall D.size D.story D.failed D.tells R.remaining place call (reply_in result.1) result.0 }
{
    match place {
        StoreOrDevice::Open(store) => answer_open(alloc, store, call),
        StoreOrDevice::Shut(device) => answer_shut(alloc, device, call),
    }
}

// Answers all calls in order.
fn answer_all<D: SectorDevice, R: Read + Drop>(
    alloc: Global,
    place: StoreOrDevice<D>,
    calls: Vec<Call<R>>,
) -> Result<(StoreOrDevice<D>, Vec<Reply>), (StoreOrDevice<D>, Vec<Call<R>>)>
    ensures ok { IfOk result (λ r. AnswersCalls D.size D.story D.failed D.tells R.remaining place calls.items (replies_of r.1.items) r.0) }
    ensures each { IfOk result (λ r. length r.1.items ≡ length calls.items) }
    ensures err { IfErr result (λ e. (e.0 ≡ place) × (e.1 ≡ calls)) }
{
    let Ok(mut replies) = Vec::with_capacity(alloc, calls.len()) else {
        return Err((place, calls));
    };
    let mut place = place;
    for call in calls {
        let (next, reply) = answer(alloc, place, call);
        place = next;
        replies.push(reply).unwrap();
    }
    Ok((place, replies))
}

/// Answers calls in order: commands, formattings, openings, closings, reads, exports in pieces, steps of a compaction and upgrades. Returns the place and
/// the replies.
///
/// The promise is [`PlaceLives`] of `specs/Places.antt`, for a place that represents a machine with some tables. Each reply follows from the tables of
/// the settled commands (`replied`, `specs/Steps.antt`): these are, in order, all that were acknowledged before its call. The only others are those in
/// which the device failed, and one that was in doubt when the run began, once an opening has kept them. Each image that a stop may leave at any moment
/// has the tables of the settled commands, and the command in flight or in doubt as a whole or not at all (`stops`). If there was no store at first, it
/// may also have none, until the first formatting or opening is done. A call is refused as halted only if no store is open or its device failed. A command
/// whose bytes come from a reader has all bytes that its reader had left, if these are known (`AreCallsOf`).
///
/// An export that is opened in the run, and reaches its end while it is open, gives pieces that are a stream of the table as it was when the export was
/// opened, whatever commands, steps of a compaction and upgrades come in between (`snapshots`). Until it is closed, no sector that it keeps is written. A
/// step of a compaction or an upgrade settles nothing: the tables are the same before it, after it and at each stop in it. On any device and any store,
/// even one that represents no machine, each call is answered as its method says (`AnswersEach`, `specs/Answering.antt`).
///
/// # Errors
/// The unused place and calls, if memory was refused for the replies; then no call was made. If a call is refused, or memory is refused while it is
/// answered, its reply says so, and the calls after it are made.
pub fn run<D: SectorDevice, R: Read + Drop>(
    alloc: Global,
    place: StoreOrDevice<D>,
    calls: Vec<Call<R>>,
) -> Result<(StoreOrDevice<D>, Vec<Reply>), (StoreOrDevice<D>, Vec<Call<R>>)>
    ensures lives { IfOk result (λ r. (plain : List PlainCall) × AreCallsOf R.remaining calls.items plain
        × AnswersEach D.size D.story D.failed D.tells place plain (replies_of r.1.items) r.0
        × (D.tells ≡ true → (base : Tables) (m : Machine) → PlaceFits D.size D.story base m place
        → PlaceLives D.size D.story D.failed base m plain (replies_of r.1.items) (device_in place) r.0)) }
    ensures each { IfOk result (λ r. length r.1.items ≡ length calls.items) }
    ensures err { IfErr result (λ e. (e.0 ≡ place) × (e.1 ≡ calls)) }
{
    match answer_all(alloc, place, calls) {
        Ok(answered) => Ok(answered),
        Err(refused) => Err(refused),
    }
}
