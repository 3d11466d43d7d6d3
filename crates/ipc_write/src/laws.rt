// Laws that what is written is read back. The functions do nothing: their contracts are the laws.
ghost use Rattle.std.specs.Prelude.{◌≡◌, ℕ, Bool, false, List, ◌+◌, ◌*◌, ◌≤◌, ◌<◌, ◌^◌, ◌++◌, length, map, take, drop, sum_by, Ok};
ghost use Rattle.std.specs.List.{AllByRecursion};
ghost use Rattle.arrow_schema.specs.Column.{Column, columns_of, PlainSchema};
ghost use Rattle.arrow_schema.specs.Limits.{IsWithinLimits};
ghost use Rattle.arrow_schema.specs.Preorder.{depth, depth_all};
ghost use Rattle.flatbuf.specs.declared.limits.TheConstants.{MAX_BUFFER_TABLES, MAX_BUFFER_BYTES};
ghost use Rattle.flatbuf.specs.Held.{Has, FitsStructs};
ghost use Rattle.flatbuf.specs.Lookup.{target};
ghost use Rattle.flatbuf.specs.Tree.{Tree};
ghost use Rattle.flatbuf.specs.Walk.{run};
ghost use Rattle.ipc_message.specs.Checks.{checked_schema};
ghost use Rattle.ipc_message.specs.Convert.{plain_schema_of};
ghost use Rattle.ipc_message.specs.Header.{field_at, field_things, header, supported_codes};
ghost use Rattle.ipc_message.specs.Raw.{RawNode, RawBuffer, RawBatch, RawDictionaryBatch, schema_header, dictionary_header, batch_header};
ghost use Rattle.ipc_message.specs.Framing.{next_message, message, taken, type_of};
ghost use Rattle.ipc_message.specs.declared.header_type.TheConstants.{SCHEMA, DICTIONARY_BATCH, RECORD_BATCH};
ghost use Rattle.ipc_write.specs.Trees.{field_tree, schema_tree, dictionary_tree, batch_tree, message_tree, node_pair, buffer_pair};
ghost use Rattle.ipc_write.specs.Written.{framed, schema_message, dictionary_message, batch_message, dictionary_batch_of, batch_of, schema_envelope, dictionary_envelope, batch_envelope, IsWritableBatch, body, placed};
ghost use Rattle.ipc_write.specs.Decoded.{raw_of, raw_schema};
ghost use Rattle.ipc_write.specs.Walked.{HoldsTimes, tables_of, tables_of_all, IsHeaderType};

/// A reader reads back a field that was written, and its walk enters the field's tables and finds nothing bad.
pub fn field_is_read_again()
    ensures read { (supported : ℕ → Bool) (left : ℕ) (bytes : List ℕ) (at id : ℕ) (c : Column) → HoldsTimes supported → depth c + 2 ≤ left
        → Has bytes at (field_tree id c)
        → field_at supported left bytes at ≡ raw_of id c }
    ensures walked { (supported : ℕ → Bool) (left : ℕ) (bytes : List ℕ) (at id n : ℕ) (c : Column) → HoldsTimes supported → depth c + 2 ≤ left
        → n + tables_of c ≤ MAX_BUFFER_TABLES → Has bytes at (field_tree id c)
        → run bytes (field_things supported left bytes at) n ≡ Ok (n + tables_of c) }
{}

/// A framed message is found at the start of whatever bytes follow it.
pub fn message_is_read_again()
    ensures { (metadata body rest : List ℕ) (type : ℕ) (header : Tree) → IsHeaderType type → 4 ≤ length metadata
        → length metadata ≤ MAX_BUFFER_BYTES
        → length body < 2 ^ 63
        → Has metadata (target metadata 0) (message_tree type header (length body))
        → next_message (framed metadata body ++ rest) ≡ Ok (message (record { metadata = metadata; body = body })) }
{
    ipc_message::next_message_is_framed();
}

/// The header of a written schema message is read back as the schema.
pub fn schema_is_read_again()
    ensures { (supported : ℕ → Bool) (metadata : List ℕ) (body_len : ℕ) (s : PlainSchema) → HoldsTimes supported
        → depth_all (columns_of s.columns) ≤ 36
        → 2 + tables_of_all (columns_of s.columns) + length s.pairs ≤ MAX_BUFFER_TABLES
        → Has metadata (target metadata 0) (message_tree SCHEMA (schema_tree s) body_len)
        → header supported metadata ≡ Ok (schema_header (raw_schema s)) }
{}

/// The header of a written dictionary batch is read back as the dictionary batch.
pub fn dictionary_is_read_again()
    ensures { (supported : ℕ → Bool) (metadata : List ℕ) (body_len : ℕ) (d : RawDictionaryBatch) → d.batch.compressed ≡ false
        → FitsStructs (map node_pair d.batch.nodes) → FitsStructs (map buffer_pair d.batch.buffers)
        → Has metadata (target metadata 0) (message_tree DICTIONARY_BATCH (dictionary_tree d) body_len)
        → header supported metadata ≡ Ok (dictionary_header d) }
{}

/// The header of a written record batch is read back as the record batch.
pub fn batch_is_read_again()
    ensures { (supported : ℕ → Bool) (metadata : List ℕ) (body_len : ℕ) (b : RawBatch) → b.compressed ≡ false
        → FitsStructs (map node_pair b.nodes)
        → FitsStructs (map buffer_pair b.buffers)
        → Has metadata (target metadata 0) (message_tree RECORD_BATCH (batch_tree b) body_len) → header supported metadata ≡ Ok (batch_header b) }
{}

/// The metadata of a schema within the limits, and of a writable batch, is no longer than a reader accepts.
pub fn metadata_is_within_its_limit()
    ensures schema { (s : PlainSchema) → IsWithinLimits s → length (schema_envelope s).metadata ≤ MAX_BUFFER_BYTES }
    ensures dictionary { (id : ℕ) (is_delta : Bool) (rows : ℕ) (nodes : List RawNode) (buffers : List (List ℕ)) → IsWritableBatch rows nodes buffers
        → length (dictionary_envelope id is_delta rows nodes buffers).metadata ≤ MAX_BUFFER_BYTES }
    ensures batch { (rows : ℕ) (nodes : List RawNode) (buffers : List (List ℕ)) → IsWritableBatch rows nodes buffers
        → length (batch_envelope rows nodes buffers).metadata ≤ MAX_BUFFER_BYTES }
{
    flatbuf::written_is_read();
}

/// The message of a schema within the limits is read back. `next_message`: it is found at the start of whatever follows it; `kind`: its header is a
/// schema; `header`: the contents of the header; `decoded`: they are the schema that was written; `checked`: no check refuses it; `after`: the bytes
/// after it are those that follow it.
pub fn schema_message_is_read_again()
    ensures next_message { (s : PlainSchema) (rest : List ℕ) → IsWithinLimits s
        → next_message (schema_message s ++ rest) ≡ Ok (message (schema_envelope s)) }
    ensures kind { (s : PlainSchema) → IsWithinLimits s → type_of (schema_envelope s).metadata ≡ SCHEMA }
    ensures header { (supported : ℕ → Bool) (s : PlainSchema) → HoldsTimes supported → IsWithinLimits s
        → header supported (schema_envelope s).metadata ≡ Ok (schema_header (raw_schema s)) }
    ensures decoded { (s : PlainSchema) → IsWithinLimits s → plain_schema_of (raw_schema s) ≡ s }
    ensures checked { (s : PlainSchema) → IsWithinLimits s → checked_schema supported_codes (raw_schema s) ≡ Ok s }
    ensures after { (s : PlainSchema) (rest : List ℕ) → drop (taken (message (schema_envelope s))) (schema_message s ++ rest) ≡ rest }
{
    flatbuf::written_is_read();
    ipc_message::next_message_is_framed();
    metadata_is_within_its_limit();
}

/// The message of a dictionary batch is read back, by the clauses of [`schema_message_is_read_again`].
pub fn dictionary_message_is_read_again()
    ensures next_message { (id : ℕ) (is_delta : Bool) (rows : ℕ) (nodes : List RawNode) (buffers : List (List ℕ)) (rest : List ℕ)
        → id < 2 ^ 64 → IsWritableBatch rows nodes buffers
        → next_message (dictionary_message id is_delta rows nodes buffers ++ rest) ≡ Ok (message (dictionary_envelope id is_delta rows nodes buffers)) }
    ensures kind { (id : ℕ) (is_delta : Bool) (rows : ℕ) (nodes : List RawNode) (buffers : List (List ℕ)) → id < 2 ^ 64
        → IsWritableBatch rows nodes buffers
        → type_of (dictionary_envelope id is_delta rows nodes buffers).metadata ≡ DICTIONARY_BATCH }
    ensures header { (supported : ℕ → Bool) (id : ℕ) (is_delta : Bool) (rows : ℕ) (nodes : List RawNode) (buffers : List (List ℕ))
        → id < 2 ^ 64 → IsWritableBatch rows nodes buffers
        → header supported (dictionary_envelope id is_delta rows nodes buffers).metadata
        ≡ Ok (dictionary_header (dictionary_batch_of id is_delta rows nodes buffers)) }
    ensures after { (id : ℕ) (is_delta : Bool) (rows : ℕ) (nodes : List RawNode) (buffers : List (List ℕ)) (rest : List ℕ)
        → drop (taken (message (dictionary_envelope id is_delta rows nodes buffers))) (dictionary_message id is_delta rows nodes buffers ++ rest) ≡ rest }
{
    flatbuf::written_is_read();
    ipc_message::next_message_is_framed();
    metadata_is_within_its_limit();
}

/// The message of a record batch is read back, by the clauses of [`schema_message_is_read_again`].
pub fn batch_message_is_read_again()
    ensures next_message { (rows : ℕ) (nodes : List RawNode) (buffers : List (List ℕ)) (rest : List ℕ) → IsWritableBatch rows nodes buffers
        → next_message (batch_message rows nodes buffers ++ rest) ≡ Ok (message (batch_envelope rows nodes buffers)) }
    ensures kind { (rows : ℕ) (nodes : List RawNode) (buffers : List (List ℕ)) → IsWritableBatch rows nodes buffers
        → type_of (batch_envelope rows nodes buffers).metadata ≡ RECORD_BATCH }
    ensures header { (supported : ℕ → Bool) (rows : ℕ) (nodes : List RawNode) (buffers : List (List ℕ)) → IsWritableBatch rows nodes buffers
        → header supported (batch_envelope rows nodes buffers).metadata ≡ Ok (batch_header (batch_of rows nodes buffers)) }
    ensures after { (rows : ℕ) (nodes : List RawNode) (buffers : List (List ℕ)) (rest : List ℕ)
        → drop (taken (message (batch_envelope rows nodes buffers))) (batch_message rows nodes buffers ++ rest) ≡ rest }
{
    flatbuf::written_is_read();
    ipc_message::next_message_is_framed();
    metadata_is_within_its_limit();
}

/// Each buffer lies where it was placed in the body and ends within it, and the body is at most 8 bytes per buffer longer than its buffers.
pub fn buffers_stand_in_their_body()
    ensures found { (buffers : List (List ℕ)) → map (λ (b : RawBuffer). take b.length (drop b.offset (body buffers))) (placed 0 buffers) ≡ buffers }
    ensures inside { (buffers : List (List ℕ)) → AllByRecursion (λ (b : RawBuffer). b.offset + b.length ≤ length (body buffers)) (placed 0 buffers) }
    ensures size { (buffers : List (List ℕ)) → length (body buffers) ≤ sum_by length buffers + 8 * length buffers }
{}
