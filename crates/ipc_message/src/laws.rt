// Laws of the definitions. The functions do nothing: their contracts are the laws.
ghost use Rattle.std.specs.Prelude.{◌≡◌, ◌≢◌, ℕ, Bool, true, List, [], ◌++◌, drop, Ok};
ghost use Rattle.arrow_schema.specs.Column.{PlainSchema};
ghost use Rattle.arrow_schema.specs.Limits.{IsWithinLimits};
ghost use Rattle.ipc_message.specs.declared.header_type.TheConstants.{SCHEMA};
ghost use Rattle.ipc_message.specs.Checks.{schema_checks, checked_schema};
ghost use Rattle.ipc_message.specs.Codes.{codes_of, codes_in, SupportAlike, codes_named, earlier_codes, names_no_later_code};
ghost use Rattle.ipc_message.specs.Framing.{Envelope, Framed, IsMessage, next_message, message, end_of_stream, continuation_marker, no_size, taken, type_of};
ghost use Rattle.ipc_message.specs.Header.{supported_codes, header, header_of};
ghost use Rattle.ipc_message.specs.Raw.{RawSchema, schema_header};

/// The bytes start with a message if and only if they are that message, framed, followed by other bytes; and with the end of stream if and only if
/// they are the continuation marker and a size of 0, followed by other bytes.
pub fn next_message_is_framed()
    ensures framed { (bytes : List ℕ) (m : Envelope) → next_message bytes ≡ Ok (message m)
        → IsMessage m × Framed bytes m (drop (taken (message m)) bytes) }
    ensures read { (bytes others : List ℕ) (m : Envelope) → IsMessage m → Framed bytes m others → next_message bytes ≡ Ok (message m) }
    ensures marked { (bytes : List ℕ) → next_message bytes ≡ Ok end_of_stream
        → bytes ≡ continuation_marker ++ (no_size ++ drop (taken end_of_stream) bytes) }
    ensures ended { (others : List ℕ) → next_message (continuation_marker ++ (no_size ++ others)) ≡ Ok end_of_stream }
{}

/// A schema that passes its checks is within the limits.
pub fn checked_schema_is_within_limits()
    ensures { (supported : ℕ → Bool) (raw : RawSchema) (s : PlainSchema) → checked_schema supported raw ≡ Ok s → IsWithinLimits s }
{}

/// Support for a type code affects only the messages that name it. The set of supported codes does not change which codes a message names; and if two
/// sets agree on these, the header decodes to the same value or fails alike, and the checks of the schema find the same. Only a schema names type
/// codes.
pub fn only_named_codes_matter()
    ensures named { (supported : ℕ → Bool) (metadata : List ℕ) → codes_of (header_of supported metadata) ≡ codes_in metadata }
    ensures schemas { (metadata : List ℕ) → type_of metadata ≢ SCHEMA → codes_in metadata ≡ [] }
    ensures header { (supported other : ℕ → Bool) (metadata : List ℕ) → SupportAlike supported other (codes_in metadata)
        → header supported metadata ≡ header other metadata }
    ensures checks { (supported other : ℕ → Bool) (s : RawSchema) → SupportAlike supported other (codes_of (schema_header s))
        → schema_checks supported s ≡ schema_checks other s }
{}

/// The codes that a stream names are supported exactly as before in two cases: it names no later code, or its schema passed the checks and support has
/// only been added since.
pub fn named_codes_stay_supported()
    ensures older { (bytes : List ℕ) → names_no_later_code bytes ≡ true → SupportAlike supported_codes earlier_codes (codes_named bytes) }
    ensures checked { (fewer more : ℕ → Bool) (raw : RawSchema) (s : PlainSchema) → ((code : ℕ) → fewer code ≡ true → more code ≡ true)
        → checked_schema fewer raw ≡ Ok s → SupportAlike more fewer (codes_of (schema_header raw)) }
{}
