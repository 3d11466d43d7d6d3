// Reads a whole input, which may be too long.
ghost use Rattle.std.specs.Prelude.{◌≡◌, ℕ, List, ◌+◌, ◌++◌, ◌≤◌, ◌<◌, length, take, IfSome, IfOk, IfErr, OnErr, OnOk, string_bytes, vec_len};
ghost use Rattle.std.specs.Io.KnownBytes.{Consumes, IsAtEnd, Keeps};
ghost use Rattle.tables.specs.declared.limits.TheConstants.{MAX_IMPORT_BYTES};
ghost use Rattle.store.specs.Input.{HasGivenAtMost, RefusesInput};

use std::alloc::{AllocError, Global};
use std::io::{ErrorKind, Read};
use tables::{Limit, MAX_IMPORT_BYTES, Refusal};

// The number of bytes that one read asks for: the capacity of a pipe on Linux.
const CHUNK: usize = 64 * 1024;

/// Reads all bytes up to the end. The input may have at most `largest` bytes, which is below `usize::MAX`; at most one more is read.
///
/// # Errors
/// `TooMany(Bytes)` if the input is longer; `Read` if a read fails; `OutOfMemory`.
pub fn read_at_most<R: Read>(
    alloc: Global,
    reader: &mut R,
    largest: usize,
) -> Result<Vec<u8>, Refusal>
    requires { largest < usize.MAX }
    ensures all { IfOk result (λ bytes. IfSome (R.remaining reader.old) (λ input. bytes.items ≡ input)) }
    ensures end { OnOk result (IsAtEnd (R.remaining reader.new)) }
    ensures within { IfOk result (λ bytes. vec_len bytes ≤ largest) }
    ensures few { OnOk result (HasGivenAtMost (R.remaining reader.old) (R.remaining reader.new) largest) }
    // Of an input that is refused, at most `largest` + 1 bytes were read.
    ensures told { IfErr result (RefusesInput (R.remaining reader.old) (R.remaining reader.new) largest) }
{
    let mut chunk = zeros(alloc, CHUNK)?;
    let mut bytes = Vec::new(alloc);
    loop {
        let room = largest - bytes.len();
        if append_some(reader, chunk.as_mut_slice(), room, &mut bytes)? == 0 {
            return Ok(bytes);
        }
    }
}

// Reads all that a reader has left, and copies a name, for a command.
pub(crate) fn named_input<R: Read>(
    alloc: Global,
    name: &str,
    reader: &mut R,
) -> Result<(String, Vec<u8>), Refusal>
    ensures name { IfOk result (λ read. string_bytes read.0 ≡ name.now) }
    ensures all { IfOk result (λ read. IfSome (R.remaining reader.old) (λ input. read.1.items ≡ input)) }
    ensures end { OnOk result (IsAtEnd (R.remaining reader.new)) }
    ensures within { IfOk result (λ read. vec_len read.1 ≤ MAX_IMPORT_BYTES) }
    ensures few { OnOk result (HasGivenAtMost (R.remaining reader.old) (R.remaining reader.new) MAX_IMPORT_BYTES) }
    ensures told { IfErr result (RefusesInput (R.remaining reader.old) (R.remaining reader.new) MAX_IMPORT_BYTES) }
{
    match read_at_most(alloc, reader, MAX_IMPORT_BYTES) {
        Ok(bytes) => match String::from_str(alloc, name) {
            Ok(name) => Ok((name, bytes)),
            Err(_) => Err(Refusal::OutOfMemory),
        },
        Err(refusal) => Err(refusal),
    }
}

fn zeros(alloc: Global, count: usize) -> Result<Vec<u8>, AllocError>
    ensures { IfOk result (λ zeros. vec_len zeros ≡ count) }
{
    vec![in alloc; 0u8; count]
}

// Reads once into the chunk and appends what was read to `bytes`, which may get `room` more bytes. Returns the number of bytes.
fn append_some<R: Read>(
    reader: &mut R,
    chunk: &mut [u8],
    room: usize,
    bytes: &mut Vec<u8>,
) -> Result<usize, Refusal>
    requires chunk { 0 < length chunk.old }
    requires room { room < usize.MAX }
    ensures appended { IfOk result (λ n. (read : List ℕ) × Consumes (R.remaining reader.old) (R.remaining reader.new) read
        × (bytes.new.items ≡ bytes.old.items ++ read) × (length read ≡ n)) }
    ensures within { IfOk result (λ n. n ≤ room) }
    ensures end { IfOk result (λ n. n ≡ 0 → IsAtEnd (R.remaining reader.new)) }
    ensures told { IfErr result (RefusesInput (R.remaining reader.old) (R.remaining reader.new) room) }
{
    let most = chunk.len().min(room + 1);
    let count = read_some(reader, &mut chunk[..most])?;
    if count > room {
        return Err(Refusal::TooMany(Limit::Bytes));
    }
    bytes.extend_from_slice(&chunk[..count])?;
    Ok(count)
}

// Reads once, and again after an interrupt by a signal. Returns 0 only at the end of the input, if `buf` is not empty.
fn read_some<R: Read>(reader: &mut R, buf: &mut [u8]) -> Result<usize, Refusal>
    ensures bound { IfOk result (λ n. n ≤ length buf.new) }
    ensures some { IfOk result (λ n. Consumes (R.remaining reader.old) (R.remaining reader.new) (take n buf.new)) }
    ensures end { IfOk result (λ n. n ≡ 0 → 0 < length buf.old → IsAtEnd (R.remaining reader.new)) }
    ensures io { IfErr result (λ e. e ≡ Refusal.Read) }
    ensures kept { OnErr result (Keeps (R.remaining reader.old) (R.remaining reader.new)) }
{
    for _ in 0..u64::MAX {
        match reader.read(buf) {
            Ok(count) => return Ok(count),
            Err(error) => {
                if error.kind() != ErrorKind::Interrupted {
                    return Err(Refusal::Read);
                }
            }
        }
    }
    Err(Refusal::Read)
}
