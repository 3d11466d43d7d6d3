// The Field tables of a schema. Dictionary ids count from 0 over the fields with a dictionary, each field before its children.
ghost use Rattle.std.specs.Prelude.{◌≡◌, ◌+◌, ◌^◌, ◌<◌, map, IfOk, OnOk};
ghost use Rattle.arrow_schema.specs.View.{kind_of, column_of};
ghost use Rattle.arrow_schema.specs.Column.{columns_of};
ghost use Rattle.flatbuf.specs.View.{node_of, nodes_of};
ghost use Rattle.flatbuf.specs.Tree.{and_node, no_node};
ghost use Rattle.ipc_write.specs.Trees.{ids_of, ids_below, ids_of_all, field_tree, child_nodes, field_nodes};

use crate::trees::{dictionary_slot, field_table};
use arrow_schema::{DataType, Field};
use flatbuf::Node;
use std::alloc::{AllocError, Global};

/// Builds a Field with all its children.
#[cycle(fields)]
fn field_node(alloc: Global, field: &Field, next_id: &mut u64) -> Result<Node, AllocError>
    requires { next_id.old + ids_of (column_of field.now) < 2 ^ 64 }
    ensures node { IfOk result (λ n. node_of n ≡ field_tree next_id.old (column_of field.now)) }
    ensures next { OnOk result (next_id.new ≡ next_id.old + ids_of (column_of field.now)) }
{
    let dictionary = dictionary_slot(alloc, field.dictionary, next_id)?;
    let children = child_nodes(alloc, &field.data_type, next_id)?;
    field_table(alloc, field, dictionary, children)
}

/// Builds the children of a field of this type.
#[tactic(auto, using(arrow_schema::specs::declared::types::Field::the_lemmas), unfolding(crate::specs::Trees::child_nodes))]
#[cycle(fields)]
fn child_nodes(
    alloc: Global,
    data_type: &DataType,
    next_id: &mut u64,
) -> Result<Vec<Node>, AllocError>
    requires { next_id.old + ids_below (kind_of data_type.now) < 2 ^ 64 }
    ensures nodes { IfOk result (λ v. nodes_of (map node_of v.items) ≡ child_nodes next_id.old (kind_of data_type.now)) }
    ensures next { OnOk result (next_id.new ≡ next_id.old + ids_below (kind_of data_type.now)) }
{
    match data_type {
        DataType::List(item) => item_node(alloc, item, next_id),
        DataType::LargeList(item) => item_node(alloc, item, next_id),
        DataType::FixedSizeList(_, item) => item_node(alloc, item, next_id),
        DataType::Struct(fields) => field_nodes(alloc, fields, next_id),
        _ => Ok(Vec::new(alloc)),
    }
}

/// Builds the only child of a list.
#[cycle(fields)]
fn item_node(alloc: Global, item: &Field, next_id: &mut u64) -> Result<Vec<Node>, AllocError>
    requires { next_id.old + ids_of (column_of item.now) < 2 ^ 64 }
    ensures nodes { IfOk result (λ v. nodes_of (map node_of v.items) ≡ and_node (field_tree next_id.old (column_of item.now)) no_node) }
    ensures next { OnOk result (next_id.new ≡ next_id.old + ids_of (column_of item.now)) }
{
    let node = field_node(alloc, item, next_id)?;
    Ok(vec![in alloc; node]?)
}

/// Builds fields in order.
#[cycle(fields)]
pub(crate) fn field_nodes(
    alloc: Global,
    fields: &[Field],
    next_id: &mut u64,
) -> Result<Vec<Node>, AllocError>
    requires { next_id.old + ids_of_all (columns_of (map column_of fields.now)) < 2 ^ 64 }
    ensures nodes { IfOk result (λ v. nodes_of (map node_of v.items) ≡ field_nodes next_id.old (columns_of (map column_of fields.now))) }
    ensures next { OnOk result (next_id.new ≡ next_id.old + ids_of_all (columns_of (map column_of fields.now))) }
{
    let mut nodes = Vec::new(alloc);
    for field in fields {
        nodes.push(field_node(alloc, field, next_id)?)?;
    }
    Ok(nodes)
}
