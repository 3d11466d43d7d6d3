// A store on a device in memory that names one segment: each call fails or stops, and what a crash leaves is opened again.
ghost use Rattle.std.specs.Prelude.{◌≡◌, ℕ, List, ◌∷◌, [], IfOk, IfSome, length};
ghost use Rattle.sector_dev.specs.View.{size_of};
ghost use Rattle.segments.specs.Pieces.{plain_pieces};
ghost use Rattle.commit.specs.Placing.{AreSome, plain_contents};
ghost use Rattle.commit.specs.Publishing.{IsPlan};
ghost use Rattle.test_device.specs.Few.{IsOn};

use crate::calls::are_same;
use crate::few::Few;
use commit::{FormatVersion, OpenError, Opened, Plan, format, place, plan_next, publish, recover};
use sector_dev::{CrashChoice, ModelDevice, SectorDevice};
use segments::{PiecePart, Run, read_run};
use std::alloc::{AllocError, Global};

// Formats the device and returns its store.
pub(crate) fn formatted(alloc: Global, device: &mut ModelDevice) -> Option<Opened<Few>>
    ensures size { size_of device.new ≡ size_of device.old }
    ensures on { IfSome result (λ store. IsOn (size_of device.new) store) }
{
    match format(alloc, device, FormatVersion::One) {
        Ok((commit, map)) => Some(Opened {
            commit,
            catalogue: Few::Nothing,
            map,
        }),
        Err(_) => None,
    }
}

// Returns these bytes as the only contents.
fn content_of<'a>(alloc: Global, bytes: Vec<u8>) -> Result<Vec<Vec<PiecePart<'a>>>, AllocError>
    ensures { IfOk result (λ contents. plain_contents contents.items ≡ bytes.items ∷ []) }
{
    let mut parts = Vec::new(alloc);
    parts.push(PiecePart::Made(bytes))?;
    let mut contents = Vec::new(alloc);
    contents.push(parts)?;
    Ok(contents)
}

// Returns the contents of a segment that is filled with this byte.
fn segment_of<'a>(alloc: Global, byte: u8) -> Result<Vec<Vec<PiecePart<'a>>>, AllocError>
    ensures { IfOk result (λ contents. AreSome (plain_contents contents.items)) }
{
    let bytes = Vec::from_slice(alloc, &[byte; 600])?;
    content_of(alloc, bytes)
}

// Returns the text of a catalogue that names this run.
fn text_of<'a>(alloc: Global, run: Run) -> Result<Vec<Vec<PiecePart<'a>>>, AllocError>
    ensures { IfOk result (λ texts. (text : List ℕ) × (plain_contents texts.items ≡ text ∷ []) × (length text ≡ 6)) }
{
    let start = u8::try_from(run.start).unwrap_or(0);
    let count = u8::try_from(run.count).unwrap_or(0);
    let text = Vec::from_slice(alloc, &[1, 0, 0, 0, start, count])?;
    content_of(alloc, text)
}

// Plans a store whose only segment is filled with this byte.
fn plan_one<'a>(alloc: Global, store: &mut Opened<Few>, byte: u8) -> Option<Plan<'a, Few>>
    requires { IsOn store.old.map.size store.old }
    ensures plan { IfSome result (λ plan. IsPlan store.old.map.size store.old.commit plan.commit (plain_pieces plan.pieces.items)) }
    ensures sectors { IfSome result (λ plan. plan.commit.device_sectors ≡ store.old.map.size) }
    ensures commit { store.new.commit ≡ store.old.commit }
    ensures size { store.new.map.size ≡ store.old.map.size }
{
    if store.commit.epoch == u64::MAX {
        return None;
    }
    let Ok(contents) = segment_of(alloc, byte) else {
        return None;
    };
    let Ok(places) = place(alloc, &mut store.map, contents, &[], 6) else {
        return None;
    };
    let run = places.runs.first().copied().unwrap_or(places.text);
    let Ok(texts) = text_of(alloc, run) else {
        return None;
    };
    let old = store.commit;
    Some(plan_next(old, old.version, old.kind, Few::One(run), places, texts, 6))
}

// Publishes a plan, and returns whether this was acknowledged. If so, the runs that it no longer names are free.
fn is_published(device: &mut ModelDevice, store: &mut Opened<Few>, plan: &Plan<'_, Few>) -> bool
    requires on { IsOn (size_of device.old) store.old }
    requires plan { IsPlan store.old.map.size store.old.commit plan.now.commit (plain_pieces plan.now.pieces.items) }
    requires sectors { plan.now.commit.device_sectors ≡ store.old.map.size }
    ensures size { size_of device.new ≡ size_of device.old }
    ensures on { IsOn (size_of device.new) store.new }
{
    if publish(device, store, plan).is_err() {
        return false;
    }
    store.map.give(store.commit.catalogue.run);
    if let Few::One(run) = store.catalogue {
        store.map.give(run);
    }
    store.commit = plan.commit;
    store.catalogue = plan.catalogue;
    true
}

// Publishes a segment filled with this byte, replacing the one before, and returns whether this was acknowledged.
fn replace(alloc: Global, device: &mut ModelDevice, store: &mut Opened<Few>, byte: u8) -> bool
    requires { IsOn (size_of device.old) store.old }
    ensures size { size_of device.new ≡ size_of device.old }
    ensures on { IsOn (size_of device.new) store.new }
{
    match plan_one(alloc, store, byte) {
        Some(plan) => is_published(device, store, &plan),
        None => false,
    }
}

// Publishes three segments, and returns which of these calls is the first that is not acknowledged, or 4.
fn publish_three(alloc: Global, device: &mut ModelDevice, store: &mut Opened<Few>) -> u64
    requires { IsOn (size_of device.old) store.old }
    ensures { size_of device.new ≡ size_of device.old }
{
    if !replace(alloc, device, store, 1) {
        return 1;
    }
    if !replace(alloc, device, store, 2) {
        return 2;
    }
    if replace(alloc, device, store, 3) {
        4
    } else {
        3
    }
}

// Formats the device and publishes three segments. Returns how many of these calls were acknowledged.
pub(crate) fn run_script(alloc: Global, device: &mut ModelDevice) -> u64
    ensures { size_of device.new ≡ size_of device.old }
{
    match formatted(alloc, device) {
        Some(mut store) => publish_three(alloc, device, &mut store),
        None => 0,
    }
}

// The first sectors of the text and the segment, by epoch.
const LAYOUT: [(u64, u64); 6] = [(0, 0), (2, 0), (5, 3), (2, 6), (5, 3), (2, 6)];

// Returns whether the 600 bytes from this sector on are equal to `byte`.
fn is_filled(alloc: Global, device: &mut ModelDevice, start: u64, byte: u8) -> bool
    ensures { size_of device.new ≡ size_of device.old }
{
    if device.sectors() != 16 || start > 14 {
        return false;
    }
    match read_run(alloc, device, start, 600) {
        Ok(bytes) => are_same(&bytes, &[byte; 600]),
        Err(_) => false,
    }
}

// Returns whether a store has the runs of its epoch, and its segment the right bytes.
fn is_whole(alloc: Global, device: &mut ModelDevice, store: &Opened<Few>) -> bool
    ensures { size_of device.new ≡ size_of device.old }
{
    let epoch = store.commit.epoch;
    let (text, segment) = LAYOUT.get(epoch as usize).copied().unwrap_or((0, 0));
    let there = store.commit.catalogue.run
        == Run {
            start: text,
            count: 1,
        };
    match store.catalogue {
        Few::Nothing => there && epoch == 1,
        Few::One(run) => there
            && run
                == Run {
                    start: segment,
                    count: 2,
                }
            && is_filled(
                alloc,
                device,
                segment,
                u8::try_from(epoch.wrapping_sub(1)).unwrap_or(0),
            ),
        Few::Two(_, _) => false,
    }
}

// Opens a store and returns its epoch, or 0 if there is none. Returns `None` if it is not whole, or fails to open for another reason.
fn epoch_of(alloc: Global, device: &mut ModelDevice) -> Option<u64>
    ensures { size_of device.new ≡ size_of device.old }
{
    match recover::<Few, ModelDevice>(alloc, device) {
        Ok(store) if is_whole(alloc, device, &store) => Some(store.commit.epoch),
        Err(OpenError::NotAStore) => Some(0),
        _ => None,
    }
}

// Opens the store after n acknowledged calls, and returns its epoch if it is n or n + 1.
fn epoch_left(alloc: Global, device: &mut ModelDevice, acknowledged: u64) -> Option<u64>
    ensures { size_of device.new ≡ size_of device.old }
{
    let epoch = epoch_of(alloc, device)?;
    let well = epoch == acknowledged || epoch == acknowledged.wrapping_add(1);
    if well { Some(epoch) } else { None }
}

// Publishes another segment to a store of this epoch, and opens the store again.
fn publishes_next(
    alloc: Global,
    device: &mut ModelDevice,
    store: &mut Opened<Few>,
    epoch: u64,
) -> bool
    requires { IsOn (size_of device.old) store.old }
{
    let byte = u8::try_from(epoch).unwrap_or(0);
    let next = epoch.wrapping_add(1);
    replace(alloc, device, store, byte) && epoch_left(alloc, device, next) == Some(next)
}

// Publishes another segment to the store of this epoch. If there is no store, formats one.
fn publishes_more(alloc: Global, device: &mut ModelDevice, epoch: u64) -> bool {
    match recover::<Few, ModelDevice>(alloc, device) {
        Ok(mut store) => publishes_next(alloc, device, &mut store, epoch),
        Err(_) => epoch == 0 && formatted(alloc, device).is_some(),
    }
}

// Opens what is left and continues with it.
fn goes_on_from(alloc: Global, left: &mut ModelDevice, acknowledged: u64) -> bool {
    match epoch_left(alloc, left, acknowledged) {
        Some(epoch) => publishes_more(alloc, left, epoch),
        None => false,
    }
}

// Continues with what a crash leaves. Returns `false` if memory is refused.
fn goes_on(alloc: Global, device: &ModelDevice, choice: CrashChoice, acknowledged: u64) -> bool {
    match device.crash(choice) {
        Ok(mut left) => goes_on_from(alloc, &mut left, acknowledged),
        Err(_) => false,
    }
}

// Tries each choice, and each pattern of the at most three sectors that are not synced.
fn all_go_on(alloc: Global, device: &ModelDevice, acknowledged: u64) -> bool {
    let mut well = goes_on(alloc, device, CrashChoice::Old, acknowledged)
        && goes_on(alloc, device, CrashChoice::New, acknowledged);
    for bits in 0..8 {
        well = well
            && goes_on(alloc, device, CrashChoice::Bits(bits), acknowledged)
            && goes_on(alloc, device, CrashChoice::Lost(bits), acknowledged);
    }
    well
}

// The call of the script that fails.
#[derive(Clone, Copy)]
enum Fault {
    Fail(u64),
    Stop(u64),
    FailRead(u64),
}

fn set_fault(device: &mut ModelDevice, fault: Fault)
    ensures { size_of device.new ≡ size_of device.old }
{
    match fault {
        Fault::Fail(k) => device.fail_at(k),
        Fault::Stop(k) => device.stop_at(k),
        Fault::FailRead(k) => device.fail_read_at(k),
    }
}

// Returns how many calls of the script are acknowledged. Each one makes six writes and syncs, and formatting reads twice.
fn acknowledged_with(fault: Fault) -> u64 {
    match fault {
        Fault::FailRead(k) => if k <= 2 { 0 } else { 4 },
        Fault::Fail(k) | Fault::Stop(k) => k.saturating_sub(1) / 6,
    }
}

// Returns whether a crash that keeps the synced content leaves a store of this epoch.
fn is_safe(alloc: Global, device: &ModelDevice, epoch: u64) -> bool {
    match device.crash(CrashChoice::Old) {
        Ok(mut left) => epoch_left(alloc, &mut left, epoch) == Some(epoch),
        Err(_) => false,
    }
}

// Returns whether the store that opening shows after a failed call survives a crash.
fn stays(alloc: Global, device: &mut ModelDevice, acknowledged: u64) -> bool {
    match epoch_left(alloc, device, acknowledged) {
        Some(shown) => is_safe(alloc, device, shown),
        None => false,
    }
}

// Runs the script with this fault, and then continues with what a crash leaves. After a failed write or sync, the device itself is opened, too.
fn survives_on(alloc: Global, device: &mut ModelDevice, fault: Fault) -> bool {
    set_fault(device, fault);
    let acknowledged = run_script(alloc, device);
    acknowledged == acknowledged_with(fault)
        && all_go_on(alloc, device, acknowledged)
        && (!matches!(fault, Fault::Fail(_)) || stays(alloc, device, acknowledged))
}

fn survives(alloc: Global, fault: Fault) -> bool {
    match ModelDevice::new(alloc, 16) {
        Ok(mut device) => survives_on(alloc, &mut device, fault),
        Err(_) => false,
    }
}

// Returns the first call whose failure has a wrong result. The last one syncs the third segment. Reads after the second do not fail.
fn wrong_call(alloc: Global) -> Option<u64> {
    for k in 1..=24 {
        let well = survives(alloc, Fault::Fail(k))
            && survives(alloc, Fault::Stop(k))
            && survives(alloc, Fault::FailRead(k));
        if !well {
            return Some(k);
        }
    }
    None
}

#[test]
fn each_call_fails_or_stops(rt: HostRuntime) {
    assert!(&rt; wrong_call(rt.alloc()).is_none());
}

// Opens a store, again if memory is refused once, and returns its epoch, or 0 if none is opened.
fn epoch_at_second_try(alloc: Global, device: &mut ModelDevice) -> u64 {
    for _ in 0..2 {
        if let Ok(store) = recover::<Few, ModelDevice>(alloc, device) {
            return store.commit.epoch;
        }
    }
    0
}

fn is_opened(alloc: Global, device: &mut ModelDevice) -> bool {
    let acknowledged = run_script(alloc, device);
    let epoch = epoch_at_second_try(alloc, device);
    let well = epoch == acknowledged || epoch == acknowledged.wrapping_add(1);
    well && device.failures() <= 1
}

// Passes if there is no memory for the device itself.
fn is_made_and_opened(alloc: Global) -> bool {
    match ModelDevice::new(alloc, 16) {
        Ok(mut device) => is_opened(alloc, &mut device),
        Err(_) => true,
    }
}

// tests/refused_memory_in_crates refuses at most one allocation: that of the device itself, or another.
#[test]
fn a_store_is_made_and_opened_also_without_memory(rt: HostRuntime) {
    assert!(&rt; is_made_and_opened(rt.alloc()));
}
