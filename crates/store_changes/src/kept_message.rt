// The message of a schema, which is made once for tables with equal schemas that follow one another.
ghost use Rattle.std.specs.Prelude.{◌≡◌, IfOk, IfSome};
ghost use Rattle.arrow_schema.specs.Limits.{IsWithinLimits};
ghost use Rattle.arrow_schema.specs.View.{schema_of};
ghost use Rattle.ipc_write.specs.Written.{schema_message};

use arrow_schema::Schema;
use ipc_write::encode_schema;
use std::alloc::{AllocError, Global};

/// A schema and its message.
#[derive(Drop)]
pub struct KeptMessage {
    schema: Schema,
    message: Vec<u8>,
    ghost kept: { message.items ≡ schema_message (schema_of schema) },
}

impl KeptMessage {
    // Copies the message, if this schema is equal to that of the message.
    fn copy_for(&self, alloc: Global, schema: &Schema) -> Result<Option<Vec<u8>>, AllocError>
        ensures { IfOk result (λ copy. IfSome copy (λ m. m.items ≡ schema_message (schema_of schema.now))) }
    {
        if self.schema.equals(schema) {
            Ok(Some(Vec::from_slice(alloc, &self.message)?))
        } else {
            Ok(None)
        }
    }
}

/// Returns the message of a schema. It is copied if that of an equal schema is kept.
///
/// # Errors
/// `AllocError` if memory was refused.
pub(crate) fn message_of(
    alloc: Global,
    kept: Option<&KeptMessage>,
    schema: &Schema,
) -> Result<Vec<u8>, AllocError>
    requires { IsWithinLimits (schema_of schema.now) }
    ensures { IfOk result (λ message. message.items ≡ schema_message (schema_of schema.now)) }
{
    if let Some(own) = kept {
        if let Some(copy) = own.copy_for(alloc, schema)? {
            return Ok(copy);
        }
    }
    encode_schema(alloc, schema)
}

/// Returns the same, and keeps it for the next schema.
///
/// # Errors
/// `AllocError` if memory was refused.
pub(crate) fn keep_message(
    alloc: Global,
    kept: &mut Option<KeptMessage>,
    schema: &Schema,
) -> Result<Vec<u8>, AllocError>
    requires { IsWithinLimits (schema_of schema.now) }
    ensures { IfOk result (λ message. message.items ≡ schema_message (schema_of schema.now)) }
{
    if let Some(own) = kept {
        if let Some(copy) = own.copy_for(alloc, schema)? {
            return Ok(copy);
        }
    }
    let message = encode_schema(alloc, schema)?;
    *kept = Some(KeptMessage {
        schema: schema.copy(alloc)?,
        message: Vec::from_slice(alloc, &message)?,
    });
    Ok(message)
}
