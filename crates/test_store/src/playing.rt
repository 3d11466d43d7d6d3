// Takes steps on a device in memory: one by one, or all of them by `run`.
use crate::made::NotMade;
use crate::pieces::PieceReader;
use crate::steps::{Call, Step, Steps, call_of, says};
use sector_dev::ModelDevice;
use std::alloc::Global;
use store::{
    Compaction, FormatVersion, ListRefusal, OpeningRefusal, Reply, Store, StoreOrDevice, Upgraded,
    run,
};
use tables::{Command, Refusal};

/// Where steps are taken; empty only between two steps.
pub type Slot = Option<StoreOrDevice<ModelDevice>>;

/// How steps are taken.
#[derive(Clone, Copy)]
pub enum Way {
    /// By the calls of a store.
    EachCall,
    /// By the calls of a store, which is made in version 1.
    VersionOne,
    /// By `run`, as one list.
    OneRun,
}

pub const WAYS: &[Way] = &[Way::EachCall, Way::OneRun];

/// The ways that make stores in version 2 and in version 1.
pub const VERSIONS: &[Way] = &[Way::EachCall, Way::VersionOne];

type Opening = Result<Store<ModelDevice>, (OpeningRefusal, ModelDevice)>;

fn opened(opening: Opening) -> (StoreOrDevice<ModelDevice>, Reply) {
    match opening {
        Ok(store) => (StoreOrDevice::Open(store), Reply::Done),
        Err((refusal, device)) => (StoreOrDevice::Shut(device), Reply::NotOpened(refusal)),
    }
}

fn formatted(
    alloc: Global,
    device: ModelDevice,
    version: FormatVersion,
) -> (StoreOrDevice<ModelDevice>, Reply) {
    opened(match version {
        FormatVersion::One => Store::format_version(alloc, device, version),
        FormatVersion::Two => Store::format(alloc, device),
    })
}

fn on_device(
    alloc: Global,
    device: ModelDevice,
    call: Call,
    version: FormatVersion,
) -> (StoreOrDevice<ModelDevice>, Reply) {
    match call {
        Call::Format => formatted(alloc, device, version),
        Call::Open => opened(Store::open(alloc, device)),
        // a device takes no other call
        _ => (StoreOrDevice::Shut(device), Reply::Refused(Refusal::Halted)),
    }
}

fn applied(alloc: Global, store: &mut Store<ModelDevice>, command: Command) -> Reply {
    match store.apply(alloc, command) {
        Ok(()) => Reply::Done,
        Err(refusal) => Reply::Refused(refusal),
    }
}

/// Returns how several commands as one are answered.
pub fn list_reply(ended: Result<(), ListRefusal>) -> Reply {
    match ended {
        Ok(()) => Reply::Done,
        Err(ListRefusal::At { place, refusal }) => Reply::RefusedAt { place, refusal },
        Err(ListRefusal::Whole(refusal)) => Reply::Refused(refusal),
    }
}

fn imported(
    alloc: Global,
    store: &mut Store<ModelDevice>,
    name: &str,
    reader: PieceReader,
) -> Reply {
    let mut reader = reader;
    match store.import_from(alloc, name, &mut reader) {
        Ok(()) => Reply::Done,
        Err(refusal) => Reply::Refused(refusal),
    }
}

fn appended(
    alloc: Global,
    store: &mut Store<ModelDevice>,
    name: &str,
    reader: PieceReader,
) -> Reply {
    let mut reader = reader;
    match store.append_from(alloc, name, &mut reader) {
        Ok(()) => Reply::Done,
        Err(refusal) => Reply::Refused(refusal),
    }
}

fn listed(alloc: Global, store: &Store<ModelDevice>) -> Reply {
    match store.tables(alloc) {
        Ok(tables) => Reply::Tables(tables),
        Err(refusal) => Reply::Refused(refusal),
    }
}

fn schema_at(alloc: Global, store: &Store<ModelDevice>, name: &str) -> Reply {
    match store.schema(alloc, name) {
        Ok(schema) => Reply::Schema(schema),
        Err(refusal) => Reply::Refused(refusal),
    }
}

fn read_at(alloc: Global, store: &mut Store<ModelDevice>, name: &str) -> Reply {
    match store.read(alloc, name) {
        Ok(table) => Reply::Table(table),
        Err(refusal) => Reply::Refused(refusal),
    }
}

// An export that is refused writes nothing, unless the writer failed; otherwise the reply is what was written.
fn exported(alloc: Global, store: &mut Store<ModelDevice>, name: &str) -> Reply {
    let mut bytes = Vec::new(alloc);
    match store.export(alloc, name, &mut bytes) {
        Err(refusal) if bytes.is_empty() || matches!(refusal, Refusal::Write) => {
            Reply::Refused(refusal)
        }
        _ => Reply::Bytes(bytes),
    }
}

fn export_opened(alloc: Global, store: &mut Store<ModelDevice>, name: &str) -> Reply {
    match store.open_export(alloc, name) {
        Ok(id) => Reply::Export(id),
        Err(refusal) => Reply::Refused(refusal),
    }
}

fn piece_given(alloc: Global, store: &mut Store<ModelDevice>, id: u64) -> Reply {
    match store.export_next(alloc, id) {
        Ok(piece) => Reply::Piece(piece),
        Err(refusal) => Reply::Refused(refusal),
    }
}

fn export_closed(store: &mut Store<ModelDevice>, id: u64) -> Reply {
    match store.close_export(id) {
        Ok(()) => Reply::Done,
        Err(refusal) => Reply::Refused(refusal),
    }
}

fn upgraded(alloc: Global, store: &mut Store<ModelDevice>) -> Reply {
    match store.upgrade(alloc) {
        Ok(Upgraded::Done) => Reply::Done,
        Ok(Upgraded::Already) => Reply::Already,
        Err(refusal) => Reply::Refused(refusal),
    }
}

fn compacted(alloc: Global, store: &mut Store<ModelDevice>) -> Reply {
    match store.compact_step(alloc) {
        Ok(Compaction::Merged) => Reply::Merged,
        Ok(Compaction::Moved) => Reply::Moved,
        Ok(Compaction::Nothing) => Reply::Nothing,
        Err(refusal) => Reply::Refused(refusal),
    }
}

// Answers a call of an open store that stays open.
fn reply_of(alloc: Global, store: &mut Store<ModelDevice>, call: Call) -> Reply {
    match call {
        Call::Apply(command) => applied(alloc, store, command),
        Call::ApplyAll(commands) => list_reply(store.apply_all(alloc, commands)),
        Call::ImportFrom { name, reader } => imported(alloc, store, &name, reader),
        Call::AppendFrom { name, reader } => appended(alloc, store, &name, reader),
        Call::Tables => listed(alloc, store),
        Call::Schema(name) => schema_at(alloc, store, &name),
        Call::Read(name) => read_at(alloc, store, &name),
        Call::Export(name) => exported(alloc, store, &name),
        Call::OpenExport(name) => export_opened(alloc, store, &name),
        Call::ExportNext(id) => piece_given(alloc, store, id),
        Call::CloseExport(id) => export_closed(store, id),
        Call::Compact => compacted(alloc, store),
        Call::Upgrade => upgraded(alloc, store),
        Call::Format | Call::Open | Call::Close => Reply::Done,
    }
}

fn on_open(
    alloc: Global,
    store: Store<ModelDevice>,
    call: Call,
) -> (StoreOrDevice<ModelDevice>, Reply) {
    let mut store = store;
    let reply = reply_of(alloc, &mut store, call);
    (StoreOrDevice::Open(store), reply)
}

fn on_store(
    alloc: Global,
    store: Store<ModelDevice>,
    call: Call,
    version: FormatVersion,
) -> (StoreOrDevice<ModelDevice>, Reply) {
    match call {
        Call::Format => formatted(alloc, store.close(), version),
        Call::Open => opened(Store::open(alloc, store.close())),
        Call::Close => (StoreOrDevice::Shut(store.close()), Reply::Done),
        call => on_open(alloc, store, call),
    }
}

// Takes one call of a store. A store that it makes has this version.
fn answer_in(alloc: Global, slot: &mut Slot, call: Call, version: FormatVersion) -> Option<Reply> {
    let (place, reply) = match slot.take()? {
        StoreOrDevice::Open(store) => on_store(alloc, store, call, version),
        StoreOrDevice::Shut(device) => on_device(alloc, device, call, version),
    };
    *slot = Some(place);
    Some(reply)
}

/// Takes one call of a store.
pub fn answer(alloc: Global, slot: &mut Slot, call: Call) -> Option<Reply> {
    answer_in(alloc, slot, call, FormatVersion::Two)
}

/// Returns the reply to a step.
pub fn reply_to(alloc: Global, slot: &mut Slot, step: Step) -> Result<Reply, NotMade> {
    answer(alloc, slot, call_of(alloc, step)?).ok_or(NotMade)
}

fn replies_of_each(
    alloc: Global,
    slot: &mut Slot,
    steps: Steps,
    version: FormatVersion,
) -> Result<Vec<Reply>, NotMade> {
    let mut replies = Vec::new(alloc);
    for (step, _) in steps {
        let reply = answer_in(alloc, slot, call_of(alloc, *step)?, version);
        replies.push(reply.ok_or(NotMade)?)?;
    }
    Ok(replies)
}

fn calls_of(alloc: Global, steps: Steps) -> Result<Vec<Call>, NotMade> {
    let mut calls = Vec::new(alloc);
    for (step, _) in steps {
        calls.push(call_of(alloc, *step)?)?;
    }
    Ok(calls)
}

// Asks again for what was refused because memory was.
fn run_twice(
    alloc: Global,
    place: StoreOrDevice<ModelDevice>,
    calls: Vec<Call>,
) -> Result<(StoreOrDevice<ModelDevice>, Vec<Reply>), NotMade> {
    match run(alloc, place, calls) {
        Ok(answered) => Ok(answered),
        Err((place, calls)) => run(alloc, place, calls).map_err(|_| NotMade),
    }
}

/// Returns the replies to calls that `run` takes as one list.
pub fn replies_of_run(
    alloc: Global,
    slot: &mut Slot,
    calls: Vec<Call>,
) -> Result<Vec<Reply>, NotMade> {
    let Some(place) = slot.take() else {
        return Err(NotMade);
    };
    let (place, replies) = run_twice(alloc, place, calls)?;
    *slot = Some(place);
    Ok(replies)
}

/// Returns the replies to steps.
pub fn replies_of(
    alloc: Global,
    slot: &mut Slot,
    steps: Steps,
    way: Way,
) -> Result<Vec<Reply>, NotMade> {
    match way {
        Way::EachCall => replies_of_each(alloc, slot, steps, FormatVersion::Two),
        Way::VersionOne => replies_of_each(alloc, slot, steps, FormatVersion::One),
        Way::OneRun => replies_of_run(alloc, slot, calls_of(alloc, steps)?),
    }
}

/// Returns the place of the first reply with another text than its step says.
pub fn wrong_reply(
    alloc: Global,
    replies: &[Reply],
    steps: Steps,
) -> Result<Option<usize>, NotMade> {
    if replies.len() != steps.len() {
        return Ok(Some(replies.len()));
    }
    for (place, (_, want)) in steps.iter().enumerate() {
        let reply = replies.get(place).ok_or(NotMade)?;
        if !says(alloc, reply, want)? {
            return Ok(Some(place));
        }
    }
    Ok(None)
}

/// Takes the steps and returns the place of the first one whose reply is wrong.
pub fn play(
    alloc: Global,
    slot: &mut Slot,
    steps: Steps,
    way: Way,
) -> Result<Option<usize>, NotMade> {
    wrong_reply(alloc, &replies_of(alloc, slot, steps, way)?, steps)
}

/// Makes a device of this number of sectors.
pub fn new_slot(alloc: Global, sectors: u64) -> Result<Slot, NotMade> {
    Ok(Some(StoreOrDevice::Shut(ModelDevice::new(alloc, sectors)?)))
}

/// Returns whether each step, taken by itself, is answered as expected.
pub fn is_played(alloc: Global, slot: &mut Slot, steps: Steps) -> Result<bool, NotMade> {
    Ok(play(alloc, slot, steps, Way::EachCall)?.is_none())
}

/// Returns the device, after closing the store on it.
pub fn shut(slot: &mut Slot) -> Result<ModelDevice, NotMade> {
    match slot.take() {
        Some(StoreOrDevice::Open(store)) => Ok(store.close()),
        Some(StoreOrDevice::Shut(device)) => Ok(device),
        None => Err(NotMade),
    }
}
