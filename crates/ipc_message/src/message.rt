// Reads the start of a stream: one message, or the end of stream.

ghost use Rattle.std.specs.Prelude.{◌≡◌, ◌-◌, Some};
ghost use Rattle.flatbuf.specs.declared.limits.TheConstants.{MAX_LEVELS};
ghost use Rattle.flatbuf.specs.Seen.{tables_in, bytes_of, place_of, levels_of};
ghost use Rattle.ipc_message.specs.Framing.{message_table, header_type, type_of};

use crate::header_type::header_type;
use crate::read_header::{header_by_type, header_table};
use crate::walk_error::WalkError;
use crate::{Fault, Header, HeaderType, ImportError};
use flatbuf::{Budget, Buf, FlatError, MAX_BUFFER_BYTES, MAX_LEVELS, Table};
use std::alloc::Global;

/// The metadata version that is read and written (Message.fbs, `MetadataVersion`).
pub const V5: u16 = 4;

/// A message whose Message table was read but whose header was not. Its body has the length that the metadata states.
#[derive(Clone, Copy)]
pub struct Message<'a> {
    kind: HeaderType,
    table: Table<'a>,
    budget: Budget,
    body: &'a [u8],
    ghost root: { place_of table ≡ message_table (bytes_of table) },
    ghost levels: { levels_of table ≡ MAX_LEVELS - 1 },
    ghost entered: { tables_in budget ≡ 1 },
    ghost type_is: { header_type (type_of (bytes_of table)) ≡ Some kind },
}

/// What a stream starts with.
#[derive(Clone, Copy)]
pub enum NextMessage<'a> {
    Message(Message<'a>),
    /// The end of stream: a continuation marker and a size of 0.
    EndOfStream,
}

/// The Message table and what is read of it before the header.
#[derive(Clone, Copy)]
struct MessageHead<'a> {
    table: Table<'a>,
    budget: Budget,
    version: u16,
    header_type: u8,
    body_length: u64,
}

impl<'a> Message<'a> {
    ghost use Rattle.std.specs.Prelude.{◌≤◌, length, IfOk};
    ghost use Rattle.ipc_message.specs.Framing.{message, message_with, message_faults, first_some, fault_of};
    ghost use Rattle.ipc_message.specs.Header.{supported_codes, header};
    ghost use Rattle.ipc_message.specs.Messages.{envelope_of};
    ghost use Rattle.ipc_message.specs.Outcome.{Gives};
    ghost use Rattle.ipc_message.specs.View.{raw_header_of};
    ghost use Rattle.ipc_message.specs.inner.Walked.{Decodes};

    /// Reads the message with this metadata and these bytes after it. Otherwise returns the first of these faults: F4 if the Message table or one of
    /// its first four slots lies outside the bytes, F6 if the version is not V5, F7 if the header is none of the three kinds, F8 if the length of the
    /// body is negative, F1 if fewer bytes follow than the body has.
    #[tactic(auto, unfolding(crate::specs::Framing::message_faults))]
    pub(crate) fn read(metadata: &'a [u8], following: &'a [u8]) -> Result<Message<'a>, Fault>
        requires small { length metadata.now ≤ MAX_BUFFER_BYTES }
        ensures faults { first_some (message_faults metadata.now (length following.now)) ≡ fault_of result }
        ensures value { IfOk result (λ m. message (envelope_of m) ≡ message_with metadata.now following.now) }
        ensures metadata { IfOk result (λ m. (envelope_of m).metadata ≡ metadata.now) }
        ensures body { IfOk result (λ m. length (envelope_of m).body ≤ length following.now) }
    {
        let head = MessageHead::read(metadata)?;
        if head.version != V5 {
            return Err(Fault::MetadataVersion);
        }
        let kind = header_type(head.header_type).ok_or(Fault::HeaderKind)?;
        if head.body_length >= 1 << 63 {
            return Err(Fault::BodyLength);
        }
        if (following.len() as u64) < head.body_length {
            return Err(Fault::Truncated);
        }
        Ok(Message {
            kind,
            table: head.table,
            budget: head.budget,
            body: &following[..head.body_length as usize],
        })
    }

    /// Returns the kind of its header.
    pub fn header_type(&self) -> HeaderType
        ensures { header_type (type_of (envelope_of self.now).metadata) ≡ Some result }
    {
        self.kind
    }

    /// Returns its body, uninterpreted.
    pub fn body(&self) -> &'a [u8]
        ensures { result.now ≡ (envelope_of self.now).body }
    {
        self.body
    }

    /// Decodes its header. Strings are borrowed from the metadata.
    ///
    /// # Errors
    /// `Fault` with the fault of the first bad thing in it: F4 if something lies outside the bytes, a vtable is malformed, or the header or the data
    /// of a dictionary batch is absent; F5 if more tables would be entered than a message may have, or one deeper. `OutOfMemory` if memory was
    /// refused.
    pub fn header(&self, alloc: Global) -> Result<Header<'a>, ImportError>
        ensures exact { Gives raw_header_of result (header supported_codes (envelope_of self.now).metadata) }
    {
        match self.walk(alloc) {
            Ok(found) => Ok(found),
            Err(WalkError::Memory) => Err(ImportError::OutOfMemory),
            Err(WalkError::Flat(f)) => Err(ImportError::Fault(f.into())),
        }
    }

    /// Walks over the header and decodes it.
    fn walk(&self, alloc: Global) -> Result<Header<'a>, WalkError>
        ensures { Decodes result (header supported_codes (bytes_of self.now.table)) }
    {
        let mut budget = self.budget;
        let table = header_table(&self.table, &mut budget)?;
        header_by_type(alloc, self.kind, &table, &mut budget)
    }
}

impl<'a> MessageHead<'a> {
    ghost use Rattle.std.specs.Prelude.{◌≤◌, length, IfOk};
    ghost use Rattle.flatbuf.specs.Walk.{run, reported};
    ghost use Rattle.ipc_message.specs.Framing.{message_things, version_of, body_length};

    /// Reads the Message table and its slots 0 to 3. The target of the header's reference is not tested.
    #[tactic(auto, using(flatbuf::specs::laws::Walk::run_append), unfolding(crate::specs::Framing::message_things, crate::specs::Framing::version_of, crate::specs::Framing::type_of, crate::specs::Framing::body_length))]
    fn read(metadata: &'a [u8]) -> Result<MessageHead<'a>, FlatError>
        requires small { length metadata.now ≤ MAX_BUFFER_BYTES }
        ensures walked { run metadata.now (message_things metadata.now) 0 ≡ reported 1 result }
        ensures same { IfOk result (λ h. bytes_of h.table ≡ metadata.now) }
        ensures root { IfOk result (λ h. place_of h.table ≡ message_table metadata.now) }
        ensures levels { IfOk result (λ h. levels_of h.table ≡ MAX_LEVELS - 1) }
        ensures entered { IfOk result (λ h. tables_in h.budget ≡ 1) }
        ensures version { IfOk result (λ h. h.version ≡ version_of metadata.now) }
        ensures header_type { IfOk result (λ h. h.header_type ≡ type_of metadata.now) }
        ensures body_length { IfOk result (λ h. h.body_length ≡ body_length metadata.now) }
    {
        let mut budget = Budget::new();
        let table = Buf::new(metadata).root(&mut budget)?;
        let version = table.scalar_u16(0, 0)?;
        let header_type = table.scalar_u8(1, 0)?;
        let _distance = table.scalar_u32(2, 0)?;
        let body_length = table.scalar_u64(3, 0)?;
        Ok(MessageHead {
            table,
            budget,
            version,
            header_type,
            body_length,
        })
    }
}
