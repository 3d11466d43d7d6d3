// Times counting and joining bits against reading the same bytes. A join makes new memory, so it is compared with a copy.
use anyhow::{Context, Result};
use std::simd::prelude::*;
use std::time::{CpuClock, Duration};

const MEGABYTE: usize = 1_000_000;

/// Measures masks of this many megabytes. The first has four bits set in each byte, and the second two of these.
pub fn measure(rt: &HostRuntime, megabytes: &str) -> Result<()> {
    let megabytes = megabytes.parse::<u16>().context("a number of megabytes")?;
    let size = usize::from(megabytes) * MEGABYTE;
    let first = Vec::from_elem(rt.alloc(), 0x0fu8, size)?;
    let second = Vec::from_elem(rt.alloc(), 0x3cu8, size)?;
    measure_steps(rt, first.as_slice(), second.as_slice())
}

fn measure_steps(rt: &HostRuntime, first: &[u8], second: &[u8]) -> Result<()> {
    let read = time_of_reading(rt, first)?;
    measure_count(rt, first, read)?;
    let copy = copied(rt, first, read)?;
    measure_join(rt, copy.as_slice(), second, read)
}

fn time_of_reading(rt: &HostRuntime, bytes: &[u8]) -> Result<Duration> {
    let start = rt.thread_cpu_time()?;
    let sum = sum_of_words(bytes);
    let time = rt.thread_cpu_time()?.saturating_sub(start);
    let size = bytes.len();
    println!(rt; "{size} bytes: the words add up to {sum}")?;
    report(rt, "read", time, time)?;
    Ok(time)
}

fn measure_count(rt: &HostRuntime, bytes: &[u8], read: Duration) -> Result<()> {
    let start = rt.thread_cpu_time()?;
    let set = set_bits(bytes);
    let time = rt.thread_cpu_time()?.saturating_sub(start);
    println!(rt; "{set} bits set")?;
    report(rt, "count", time, read)
}

fn copied(rt: &HostRuntime, bytes: &[u8], read: Duration) -> Result<Vec<u8>> {
    let start = rt.thread_cpu_time()?;
    let copy = Vec::from_slice(rt.alloc(), bytes)?;
    let time = rt.thread_cpu_time()?.saturating_sub(start);
    report(rt, "copy", time, read)?;
    Ok(copy)
}

fn measure_join(rt: &HostRuntime, first: &[u8], second: &[u8], read: Duration) -> Result<()> {
    let bits = first.len().min(second.len()).saturating_mul(8);
    let start = rt.thread_cpu_time()?;
    let mask = bitmap::and(rt.alloc(), first, second, bits)?;
    let time = rt.thread_cpu_time()?.saturating_sub(start);
    let both = set_bits(mask.as_slice());
    println!(rt; "{both} of them in both masks")?;
    report(rt, "join", time, read)
}

// Prints one line: the step, its time, and its time as a percentage of reading.
fn report(rt: &HostRuntime, step: &str, time: Duration, read: Duration) -> Result<()> {
    let microseconds = time.as_micros();
    let share = microseconds.saturating_mul(100) / read.as_micros().max(1);
    eprintln!(rt; "{step}: {microseconds} us, {share} % of reading")?;
    Ok(())
}

// Returns the sum of the bytes as numbers of 64 bits, which wraps; bytes after the last block of 64 are left out.
fn sum_of_words(bytes: &[u8]) -> u64 {
    let (blocks, _) = bytes.as_chunks::<64>();
    let mut total = u64x8::splat(0);
    for block in blocks {
        total += u64x8::from_le_bytes(u8x64::from_array(*block));
    }
    total.reduce_sum()
}

fn set_bits(bytes: &[u8]) -> usize {
    match bytes.len().checked_mul(8) {
        Some(bits) => bitmap::count_set(bytes, 0, bits),
        None => 0,
    }
}
