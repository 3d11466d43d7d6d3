// The numbers of messages.
ghost use Rattle.std.specs.Prelude.{◌≡◌, ◌∷◌, []};
ghost use Rattle.ipc_message.specs.declared.header_type.TheConstants.{DICTIONARY_BATCH, RECORD_BATCH, SCHEMA};
ghost use Rattle.ipc_message.specs.declared.message.TheConstants.{V5};

/// The numbers of a message (Message.fbs, the union MessageHeader; Schema.fbs, the enum MetadataVersion).
pub fn numbers_of_messages()
    ensures schema { SCHEMA ≡ 1 }
    ensures dictionary_batch { DICTIONARY_BATCH ≡ 2 }
    ensures record_batch { RECORD_BATCH ≡ 3 }
    ensures version_5 { V5 ≡ 4 }
{}
