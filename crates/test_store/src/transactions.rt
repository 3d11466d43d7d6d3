// Commands that are added one by one, and what is told of the tables so far.
use crate::made::NotMade;
use crate::playing::{Slot, list_reply};
use crate::steps::{Steps, command_of, says};
use sector_dev::SectorDevice;
use std::alloc::Global;
use store::{ListRefusal, Reply, Store, StoreOrDevice};
use tables::Command;

// Applies several commands as one, which are added one by one.
fn add_all<D: SectorDevice>(
    alloc: Global,
    store: &mut Store<D>,
    commands: Vec<Command>,
) -> Result<(), ListRefusal> {
    let mut transaction = match store.begin(alloc) {
        Ok(transaction) => transaction,
        Err(refusal) => return Err(ListRefusal::Whole(refusal)),
    };
    let mut place = 0;
    for command in commands {
        match store.add(alloc, transaction, command) {
            Ok(next) => transaction = next,
            Err(refusal) => return Err(ListRefusal::At { place, refusal }),
        }
        place += 1;
    }
    match store.commit(alloc, transaction) {
        Ok(()) => Ok(()),
        Err(refusal) => Err(ListRefusal::Whole(refusal)),
    }
}

// Returns whether the schema of a table is told so after each command that is added.
fn tells_schemas<D: SectorDevice>(
    alloc: Global,
    store: &mut Store<D>,
    name: &str,
    steps: Steps,
) -> Result<bool, NotMade> {
    let mut transaction = match store.begin(alloc) {
        Ok(transaction) => transaction,
        Err(_) => return Err(NotMade),
    };
    for (step, want) in steps {
        match store.add(alloc, transaction, command_of(alloc, *step)?) {
            Ok(next) => transaction = next,
            Err(_) => return Err(NotMade),
        }
        let reply = match store.schema_in(alloc, &transaction, name) {
            Ok(schema) => Reply::Schema(schema),
            Err(refusal) => Reply::Refused(refusal),
        };
        if !says(alloc, &reply, want)? {
            return Ok(false);
        }
    }
    Ok(true)
}

/// Returns the reply to several commands as one, which are added one by one.
pub fn reply_one_by_one(
    alloc: Global,
    slot: &mut Slot,
    commands: Vec<Command>,
) -> Result<Reply, NotMade> {
    match slot.take() {
        Some(StoreOrDevice::Open(store)) => {
            let mut store = store;
            let reply = list_reply(add_all(alloc, &mut store, commands));
            *slot = Some(StoreOrDevice::Open(store));
            Ok(reply)
        }
        _ => Err(NotMade),
    }
}

/// Returns whether each schema of a table is told as expected, while the commands are added one by one. They are not carried out.
pub fn tells_each_schema(
    alloc: Global,
    slot: &mut Slot,
    name: &str,
    steps: Steps,
) -> Result<bool, NotMade> {
    match slot.take() {
        Some(StoreOrDevice::Open(store)) => {
            let mut store = store;
            let told = tells_schemas(alloc, &mut store, name, steps);
            *slot = Some(StoreOrDevice::Open(store));
            told
        }
        _ => Err(NotMade),
    }
}
