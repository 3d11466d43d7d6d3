// The fields of a schema with all their descendants, in preorder.
ghost use Rattle.std.specs.Prelude.{◌≡◌, ◌++◌, map, OnOk, IfOk};
ghost use Rattle.ipc_message.specs.Raw.{raw_fields_of};
ghost use Rattle.ipc_message.specs.Fields.{preorder_all};
ghost use Rattle.ipc_message.specs.View.{raw_field_of};
ghost use Rattle.ipc_message.specs.inner.Listed.{listed};

use crate::raw_header::RawField;

/// A reference to a field at any depth of a schema.
#[derive(Clone, Copy)]
pub(crate) struct FieldRef<'b, 'a> {
    pub(crate) field: &'b RawField<'a>,
}

use std::alloc::{AllocError, Global};

#[tactic(auto, unfolding(crate::specs::Fields::preorder_all))]
fn list_fields<'a, 'b>(
    list: &mut Vec<FieldRef<'b, 'a>>,
    fields: &'b [RawField<'a>],
) -> Result<(), AllocError>
    ensures { OnOk result (listed list.new.items ≡ listed list.old.items ++ preorder_all (raw_fields_of (map raw_field_of fields.now))) }
{
    for field in fields {
        list.push(FieldRef { field })?;
        list_fields(list, &field.children)?;
    }
    Ok(())
}

/// Lists all fields, each before its children.
pub(crate) fn every_field<'a, 'b>(
    alloc: Global,
    fields: &'b [RawField<'a>],
) -> Result<Vec<FieldRef<'b, 'a>>, AllocError>
    ensures { IfOk result (λ list. listed list.items ≡ preorder_all (raw_fields_of (map raw_field_of fields.now))) }
{
    let mut list = Vec::new(alloc);
    list_fields(&mut list, fields)?;
    Ok(list)
}
