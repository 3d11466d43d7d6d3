// The kinds of messages.

ghost use Rattle.std.specs.Prelude.{◌≡◌};
ghost use Rattle.ipc_message.specs.Framing.{header_type};

/// The header type of a schema.
pub const SCHEMA: u8 = 1;

/// The header type of a dictionary batch.
pub const DICTIONARY_BATCH: u8 = 2;

/// The header type of a record batch.
pub const RECORD_BATCH: u8 = 3;

/// The kind of a message's header (Message.fbs, the union `MessageHeader`).
#[derive(Clone, Copy)]
pub enum HeaderType {
    Schema,
    DictionaryBatch,
    RecordBatch,
}

/// Returns the header type with this number, if it is one that is read.
pub(crate) fn header_type(number: u8) -> Option<HeaderType>
    ensures { result ≡ header_type number }
{
    match number {
        SCHEMA => Some(HeaderType::Schema),
        DICTIONARY_BATCH => Some(HeaderType::DictionaryBatch),
        RECORD_BATCH => Some(HeaderType::RecordBatch),
        _ => None,
    }
}
