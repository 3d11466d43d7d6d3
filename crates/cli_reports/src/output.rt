// Writes a whole output.
ghost use Rattle.std.specs.Prelude.{◌≡◌, IfErr, OnOk, OnErr};
ghost use Rattle.std.specs.Io.KnownBytes.{Appends};
ghost use Rattle.cli_reports.specs.Output.{AppendsFront};

use crate::{Refusal, Side};
use std::io::{ErrorKind, Write};

// Writes all of the bytes. `write_all` promises nothing of what it wrote before it failed.
fn write_bytes<W: Write>(writer: &mut W, bytes: &[u8]) -> Result<(), Refusal>
    ensures written { OnOk result (Appends (W.contents writer.old) (W.contents writer.new) bytes.now) }
    ensures front { OnErr result (AppendsFront (W.contents writer.old) (W.contents writer.new) bytes.now) }
    ensures io { IfErr result (λ e. e ≡ Refusal.Io Side.Output) }
{
    let mut written = 0;
    for _ in 0..u64::MAX {
        if written == bytes.len() {
            return Ok(());
        }
        match writer.write(&bytes[written..]) {
            Ok(0) => return Err(Refusal::Io(Side::Output)),
            Ok(taken) => written += taken,
            Err(error) => {
                if error.kind() != ErrorKind::Interrupted {
                    return Err(Refusal::Io(Side::Output));
                }
            }
        }
    }
    Err(Refusal::Io(Side::Output))
}

/// Writes all of the bytes and nothing else, and flushes.
///
/// # Errors
/// `Io` of the output if that fails; then some first bytes may be written, and nothing else.
pub fn write_whole<W: Write>(writer: &mut W, bytes: &[u8]) -> Result<(), Refusal>
    ensures written { OnOk result (Appends (W.contents writer.old) (W.contents writer.new) bytes.now) }
    ensures front { OnErr result (AppendsFront (W.contents writer.old) (W.contents writer.new) bytes.now) }
    ensures io { IfErr result (λ e. e ≡ Refusal.Io Side.Output) }
{
    write_bytes(writer, bytes)?;
    writer.flush().map_err(|_| Refusal::Io(Side::Output))
}
