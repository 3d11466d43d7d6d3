// Compacts an open store.
ghost use Rattle.std.specs.Prelude.{◌≡◌, ◌≢◌, List, length, Ok, Err, IfOk, IfErr, OnOk};
ghost use Rattle.std.specs.Io.KnownBytes.{Appends};
ghost use Rattle.store_runs.specs.declared.compacting.Compaction as steps;
ghost use Rattle.cli_commands.specs.Compacting.{Compacted, Compacts, steps_text};

use cli_reports::{Refusal, Side};
use sector_dev::SectorDevice;
use std::alloc::Global;
use std::io::Write;
use store::{Compaction, Store};

// Takes steps until there is nothing left to do, or as many as the limit allows, and returns how many did something. Without a limit the law
// `store::compactions_end` bounds their number.
fn take_steps<D: SectorDevice>(
    alloc: Global,
    store: &mut Store<D>,
    limit: Option<u64>,
) -> Result<u64, tables::Refusal>
    ensures done { IfOk result (λ count. (taken : List steps.Compaction) × (length taken ≡ count) × Compacted limit taken (Ok tt) store.old store.new) }
    ensures refused { IfErr result (λ r. (taken : List steps.Compaction) × Compacted limit taken (Err r) store.old store.new) }
{
    let most = limit.unwrap_or(u64::MAX);
    for count in 0..most {
        match store.compact_step(alloc) {
            Ok(done) => match done {
                Compaction::Nothing => return Ok(count),
                _ => {}
            },
            Err(refusal) => return Err(refusal),
        }
    }
    Ok(most)
}

// Takes no memory, so that the work is reported even when memory is out.
fn write_steps<W: Write>(output: &mut W, count: u64) -> Result<(), Refusal>
    ensures written { OnOk result (Appends (W.contents output.old) (W.contents output.new) (steps_text count)) }
    ensures io { IfErr result (λ e. e ≡ Refusal.Io Side.Output) }
{
    write!(output, "steps {count}\n").map_err(|_| Refusal::Io(Side::Output))?;
    output.flush().map_err(|_| Refusal::Io(Side::Output))
}

/// Joins neighbouring segments that can be one and moves the last ones forward, step by step until there is nothing left to do, or as many steps have been
/// taken as the limit allows, and writes `steps` and the number of steps that did something.
///
/// The tables are the same at every moment.
///
/// # Errors
/// `Store` if the store refuses a step: the steps before it are done, and nothing is written. `Io` if the output fails: the compaction is done.
pub fn compact_tables<D: SectorDevice, W: Write>(
    alloc: Global,
    store: &mut Store<D>,
    limit: Option<u64>,
    output: &mut W,
) -> Result<(), Refusal>
    // Each step did something and shrank the catalogue, up to one with nothing to do, one that the store refused, or the limit. No
    // table changes.
    ensures compacts { Compacts W.contents limit store.old store.new output.old output.new result }
    ensures silent { IfErr result (λ refusal. refusal ≢ Refusal.Io Side.Output → output.new ≡ output.old) }
{
    let count = take_steps(alloc, store, limit)?;
    write_steps(output, count)
}
