// Laws about the definitions. The functions do nothing: their contracts are the laws.
ghost use Rattle.std.specs.Prelude.{◌≡◌, ◌++◌, ℕ, Bool, true, false, List, Ok, Err, None, Some, IsErr, length};
ghost use Rattle.facts.specs.Bytes.{AreBytes};
ghost use Rattle.cells.specs.Cell.{PlainTable};
ghost use Rattle.values.specs.Table.{IsTable};
ghost use Rattle.ipc_message.specs.Codes.{SupportAlike, codes_named, earlier_codes, names_no_later_code};
ghost use Rattle.ipc_message.specs.Header.{supported_codes};
ghost use Rattle.ipc_stream.specs.Fed.{settled_fault};
ghost use Rattle.ipc_stream.specs.FramedFault.{FaultStands};
ghost use Rattle.ipc_stream.specs.FramedTable.{StreamEncodes};
ghost use Rattle.ipc_stream.specs.Meaning.{meaning};
ghost use Rattle.ipc_stream.specs.Place.{bytes_taken, place_of};

use arrays::{
    read_dictionaries_are_readable, read_dictionaries_have_bytes, read_rows_are_rows,
    schemas_give_dictionary_columns,
};
use ipc_message::{
    Fault, checked_schema_is_within_limits, named_codes_stay_supported, next_message_is_framed,
    only_named_codes_matter,
};

/// A stream means a table exactly if it encodes it: the messages are framed, the first is the table's schema, each other one is a dictionary batch or
/// a record batch that is read after those before it, their rows in order are the table's, and then come no bytes or the end of stream. A stream
/// encodes at most one table. A stream has a fault exactly if some messages are read, and the bytes after them are refused with that fault.
pub fn meaning_is_framed()
    ensures table { (supported : ℕ → Bool) (bytes : List ℕ) (t : PlainTable) → meaning supported bytes ≡ Ok t → StreamEncodes supported bytes t }
    ensures once { (supported : ℕ → Bool) (bytes : List ℕ) (t u : PlainTable) → StreamEncodes supported bytes t
        → StreamEncodes supported bytes u → t ≡ u }
    ensures means { (supported : ℕ → Bool) (bytes : List ℕ) (t : PlainTable) → StreamEncodes supported bytes t → meaning supported bytes ≡ Ok t }
    ensures fault { (supported : ℕ → Bool) (bytes : List ℕ) (fault : Fault) → meaning supported bytes ≡ Err fault
        → FaultStands supported bytes fault }
    ensures reported { (supported : ℕ → Bool) (bytes : List ℕ) (fault : Fault) → FaultStands supported bytes fault
        → meaning supported bytes ≡ Err fault }
{
    next_message_is_framed();
}

/// The place of a fault is the number of messages before it and the byte where they end. A stream that means a table has no such place.
pub fn faults_stand_at_their_place()
    ensures placed { (supported : ℕ → Bool) (bytes : List ℕ) (fault : Fault) → (stands : FaultStands supported bytes fault)
        → place_of supported bytes ≡ Some (length stands.messages, bytes_taken stands.messages) }
    ensures nowhere { (supported : ℕ → Bool) (bytes : List ℕ) (t : PlainTable) → meaning supported bytes ≡ Ok t
        → place_of supported bytes ≡ None }
{
    next_message_is_framed();
}

/// The meaning of a stream of bytes, if not a fault, is a table.
pub fn meaning_is_a_table()
    ensures { (supported : ℕ → Bool) (bytes : List ℕ) (t : PlainTable) → AreBytes bytes → meaning supported bytes ≡ Ok t → IsTable t }
{
    next_message_is_framed();
    checked_schema_is_within_limits();
    schemas_give_dictionary_columns();
    read_dictionaries_are_readable();
    read_dictionaries_have_bytes();
    read_rows_are_rows();
}

/// A settled fault, which a decoder reports, stays: it is the first fault of the bytes so far, and of these with any bytes appended. Any other fault
/// may go: with some bytes appended there is another fault or none.
pub fn settled_faults_stay()
    ensures stays { (bytes more : List ℕ) (fault : Fault) → settled_fault supported_codes bytes ≡ Some fault
        → settled_fault supported_codes (bytes ++ more) ≡ Some fault }
    ensures meant { (bytes : List ℕ) (fault : Fault) → settled_fault supported_codes bytes ≡ Some fault → meaning supported_codes bytes ≡ Err fault }
    ensures goes { (bytes : List ℕ) (fault : Fault) → meaning supported_codes bytes ≡ Err fault → settled_fault supported_codes bytes ≡ None
        → (more : List ℕ) × AreBytes more × (meaning supported_codes (bytes ++ more) ≡ Err fault → ⊥) }
{}

/// Whether a type code is supported matters only to streams whose schema names it. So a stream that names no later code has the meaning that it had
/// before these codes were supported, table or fault. A stream that names one had a fault then. And a table that a stream means stays its meaning if
/// more codes are supported.
pub fn older_streams_keep_their_meaning()
    ensures named { (supported other : ℕ → Bool) (bytes : List ℕ) → SupportAlike supported other (codes_named bytes)
        → meaning supported bytes ≡ meaning other bytes }
    ensures older { (bytes : List ℕ) → names_no_later_code bytes ≡ true → meaning supported_codes bytes ≡ meaning earlier_codes bytes }
    ensures later { (bytes : List ℕ) → names_no_later_code bytes ≡ false → IsErr (meaning earlier_codes bytes) }
    ensures tables { (fewer more : ℕ → Bool) (bytes : List ℕ) (t : PlainTable) → ((code : ℕ) → fewer code ≡ true → more code ≡ true)
        → meaning fewer bytes ≡ Ok t → meaning more bytes ≡ Ok t }
{
    only_named_codes_matter();
    named_codes_stay_supported();
}
