// Writes the bytes of a tree, each of them once: the position of a node is computed before its bytes are written.
ghost use Rattle.std.specs.Prelude.{ℕ, List, ◌≡◌, ◌<◌, ◌≤◌, ◌^◌, ◌+◌, ◌*◌, ◌++◌, ◌∷◌, [], length, map, replicate, OnOk, IfOk};
ghost use Rattle.byteorder.specs.Endian.{little_bytes};
ghost use Rattle.flatbuf.specs.Tree.{Slots, no_slot, table, text, references, structs};
ghost use Rattle.flatbuf.specs.Laid.{gap, inline_end, distances, inline, links, starts, slot_starts, laid, laid_all, laid_slots, struct_bytes, vtable, vtable_len, start};
ghost use Rattle.flatbuf.specs.Ends.{end_at, ends_at, below_ends_at};
ghost use Rattle.flatbuf.specs.Held.{Fits, FitsAll, FitsSlots};
ghost use Rattle.flatbuf.specs.inner.Steps.{to_put, then_nodes, then_slots};
ghost use Rattle.flatbuf.specs.View.{node_of, all_nodes, slot_before, all_slots};

use crate::nodes::{Node, Slot};
use crate::sizes::{aligned, end_of, inline_end, start_of, table_start, width};
use std::alloc::AllocError;

/// Writes zeros from a position up to the next multiple.
pub(crate) fn pad(out: &mut Vec<u8>, from: usize, multiple: u8) -> Result<(), AllocError>
    requires positive { 0 < multiple }
    requires near { from < 2 ^ 62 }
    requires small { length out.old.items < 2 ^ 62 }
    ensures { OnOk result (out.new.items ≡ out.old.items ++ replicate (gap multiple from) 0) }
{
    let missing = aligned(multiple, from) - from;
    out.resize(out.len() + missing, 0)
}

/// Writes a string.
#[tactic(auto, unfolding(crate::specs::Laid::laid))]
fn put_text(out: &mut Vec<u8>, bytes: &[u8]) -> Result<(), AllocError>
    requires small { end_at (length out.old.items) (text bytes.now) < 2 ^ 31 }
    ensures { OnOk result (out.new.items ≡ out.old.items ++ laid (length out.old.items) (text bytes.now)) }
{
    pad(out, out.len(), 4)?;
    out.extend_from_slice(&(bytes.len() as u32).to_le_bytes())?;
    out.extend_from_slice(bytes)?;
    out.push(0)?;
    Ok(())
}

/// Writes a struct of two numbers.
fn put_pair(out: &mut Vec<u8>, pair: &(u64, u64)) -> Result<(), AllocError>
    ensures { OnOk result (out.new.items ≡ out.old.items ++ (little_bytes 8 pair.now.0 ++ little_bytes 8 pair.now.1)) }
{
    out.extend_from_slice(&pair.0.to_le_bytes())?;
    out.extend_from_slice(&pair.1.to_le_bytes())?;
    Ok(())
}

/// Writes structs of two numbers, one after another.
#[tactic(auto, unfolding(crate::specs::Laid::struct_bytes))]
fn put_pairs(out: &mut Vec<u8>, pairs: &[(u64, u64)]) -> Result<(), AllocError>
    ensures { OnOk result (out.new.items ≡ out.old.items ++ struct_bytes pairs.now) }
{
    for pair in pairs {
        put_pair(out, pair)?;
    }
    Ok(())
}

/// Writes a vector of structs.
#[tactic(auto, unfolding(crate::specs::Laid::laid))]
fn put_structs(out: &mut Vec<u8>, pairs: &[(u64, u64)]) -> Result<(), AllocError>
    requires small { end_at (length out.old.items) (structs pairs.now) < 2 ^ 31 }
    ensures { OnOk result (out.new.items ≡ out.old.items ++ laid (length out.old.items) (structs pairs.now)) }
{
    pad(out, out.len() + 4, 8)?;
    out.extend_from_slice(&(pairs.len() as u32).to_le_bytes())?;
    put_pairs(out, pairs)
}

/// Writes references to nodes that will be written one after another from `below` on.
#[tactic(auto, unfolding(crate::specs::Laid::links, crate::specs::Laid::starts))]
fn put_links(out: &mut Vec<u8>, below: usize, nodes: &[Node]) -> Result<(), AllocError>
    requires small { ends_at below (all_nodes nodes.now) < 2 ^ 31 }
    requires room { length out.old.items + 4 * length nodes.now ≤ below }
    ensures { OnOk result (out.new.items ≡ out.old.items ++ links (length out.old.items) (starts below (all_nodes nodes.now))) }
{
    let mut cursor = below;
    for node in nodes {
        let distance = start_of(cursor, node) - out.len();
        out.extend_from_slice(&(distance as u32).to_le_bytes())?;
        cursor = end_of(cursor, node);
    }
    Ok(())
}

/// Writes the distances of the slots, for the vtable.
#[tactic(auto, using(crate::proofs::ReadBack::inline_le_end))]
fn put_distances(out: &mut Vec<u8>, slots: &[Slot]) -> Result<(), AllocError>
    requires thin { inline_end 4 (all_slots slots.now) < 2 ^ 16 }
    ensures { OnOk result (out.new.items ≡ out.old.items ++ distances 4 (all_slots slots.now)) }
{
    let mut offset = 4;
    for slot in slots {
        match width(slot) {
            None => out.extend_from_slice(&0u16.to_le_bytes())?,
            Some(width) => {
                let field = aligned(width, offset);
                out.extend_from_slice(&(field as u16).to_le_bytes())?;
                offset = field + width as usize;
            }
        }
    }
    Ok(())
}

/// Writes the vtable of a table. It ends where the table begins.
#[tactic(auto, using(crate::proofs::Cases::count_slots))]
fn put_vtable(out: &mut Vec<u8>, slots: &[Slot]) -> Result<(), AllocError>
    requires near { length out.old.items < 2 ^ 31 }
    requires thin { inline_end 4 (all_slots slots.now) < 2 ^ 16 }
    requires short { vtable_len (all_slots slots.now) < 2 ^ 16 }
    ensures { OnOk result (out.new.items ≡ out.old.items ++ vtable (length out.old.items) (all_slots slots.now)) }
{
    let size = 4 + 2 * slots.len();
    pad(out, out.len() + size, 8)?;
    out.extend_from_slice(&(size as u16).to_le_bytes())?;
    out.extend_from_slice(&(inline_end(slots) as u16).to_le_bytes())?;
    put_distances(out, slots)?;
    Ok(())
}

/// The ends so far of a table's inline part and of what its slots refer to.
#[derive(Clone, Copy)]
struct Reached {
    offset: usize,
    cursor: usize,
}

/// Writes a field of the inline part at the next multiple of its size, and returns where it ends.
fn put_field(out: &mut Vec<u8>, offset: usize, field: &[u8]) -> Result<usize, AllocError>
    requires positive { 0 < length field.now }
    requires wide { length field.now ≤ 8 }
    requires near { offset < 2 ^ 31 }
    requires small { length out.old.items < 2 ^ 62 }
    ensures bytes { OnOk result (out.new.items ≡ out.old.items ++ (replicate (gap (length field.now) offset) 0 ++ field.now)) }
    ensures end { IfOk result (λ end. end ≡ offset + gap (length field.now) offset + length field.now) }
{
    pad(out, offset, field.len() as u8)?;
    out.extend_from_slice(field)?;
    Ok(aligned(field.len() as u8, offset) + field.len())
}

/// Writes a byte of the inline part, and returns where it ends.
fn put_byte(out: &mut Vec<u8>, offset: usize, byte: u8) -> Result<usize, AllocError>
    requires near { offset < 2 ^ 31 }
    requires small { length out.old.items < 2 ^ 62 }
    ensures bytes { OnOk result (out.new.items ≡ out.old.items ++ (replicate (gap 1 offset) 0 ++ little_bytes 1 byte)) }
    ensures end { IfOk result (λ end. end ≡ offset + gap 1 offset + 1) }
{
    put_field(out, offset, &[byte])
}

/// Writes the inline content of a slot.
#[tactic(auto, using(crate::proofs::Ends::start_le, crate::proofs::Ends::end_le), unfolding(crate::specs::Laid::inline, crate::specs::Laid::slot_starts))]
fn put_slot(
    out: &mut Vec<u8>,
    at: usize,
    reached: Reached,
    slot: &Slot,
) -> Result<Reached, AllocError>
    requires near { reached.offset < 2 ^ 16 }
    requires small { length out.old.items < 2 ^ 31 }
    requires low { below_ends_at reached.cursor (slot_before slot.now no_slot) < 2 ^ 31 }
    requires room { (rest : Slots) × (at + inline_end reached.offset (slot_before slot.now rest) ≤ reached.cursor) }
    ensures bytes { IfOk result (λ r. (rest : Slots) → out.new.items ++ to_put at r rest
        ≡ out.old.items ++ to_put at reached (slot_before slot.now rest)) }
    ensures inline { IfOk result (λ r. (rest : Slots) → inline_end r.offset rest ≡ inline_end reached.offset (slot_before slot.now rest)) }
    ensures below { IfOk result (λ r. (rest : Slots) → below_ends_at r.cursor rest ≡ below_ends_at reached.cursor (slot_before slot.now rest)) }
    ensures up { IfOk result (λ r. reached.cursor ≤ r.cursor) }
{
    let offset = reached.offset;
    let cursor = reached.cursor;
    match slot {
        Slot::Absent => Ok(reached),
        Slot::Byte(n) => {
            let offset = put_byte(out, offset, *n)?;
            Ok(Reached { offset, cursor })
        }
        Slot::Short(n) => {
            let offset = put_field(out, offset, &n.to_le_bytes())?;
            Ok(Reached { offset, cursor })
        }
        Slot::Word(n) => {
            let offset = put_field(out, offset, &n.to_le_bytes())?;
            Ok(Reached { offset, cursor })
        }
        Slot::Long(n) => {
            let offset = put_field(out, offset, &n.to_le_bytes())?;
            Ok(Reached { offset, cursor })
        }
        Slot::Refers(node) => {
            let distance = start_of(cursor, node) - (at + aligned(4, offset));
            let offset = put_field(out, offset, &(distance as u32).to_le_bytes())?;
            Ok(Reached {
                offset,
                cursor: end_of(cursor, node),
            })
        }
    }
}

/// Writes the inline part of a table whose slots refer to what is written from `below` on.
#[tactic(auto, using(crate::proofs::ReadBack::inline_le_end, crate::proofs::Cases::slot_fits), unfolding(crate::specs::Laid::inline))]
fn put_inline(out: &mut Vec<u8>, at: usize, below: usize, slots: &[Slot]) -> Result<(), AllocError>
    requires here { length out.old.items ≡ at + 4 }
    requires room { below ≡ at + inline_end 4 (all_slots slots.now) }
    requires thin { inline_end 4 (all_slots slots.now) < 2 ^ 16 }
    requires small { below_ends_at below (all_slots slots.now) < 2 ^ 31 }
    ensures { OnOk result (out.new.items ≡ out.old.items ++ inline at 4 (slot_starts below (all_slots slots.now)) (all_slots slots.now)) }
{
    let mut reached = Reached {
        offset: 4,
        cursor: below,
    };
    for slot in slots {
        reached = put_slot(out, at, reached, slot)?;
    }
    pad(out, reached.offset, 4)
}

/// Writes a vector of references, without what it refers to.
fn put_vector(out: &mut Vec<u8>, nodes: &[Node]) -> Result<(), AllocError>
    requires small { end_at (length out.old.items) (references (all_nodes nodes.now)) < 2 ^ 31 }
    ensures { OnOk result (then_nodes out.new.items (all_nodes nodes.now) ≡ out.old.items ++ laid (length out.old.items) (references (all_nodes nodes.now))) }
{
    pad(out, out.len(), 4)?;
    out.extend_from_slice(&(nodes.len() as u32).to_le_bytes())?;
    let below = out.len() + 4 * nodes.len();
    put_links(out, below, nodes)?;
    Ok(())
}

/// Writes a table, without what it refers to.
fn put_head(out: &mut Vec<u8>, slots: &[Slot]) -> Result<(), AllocError>
    requires fits { Fits (table (all_slots slots.now)) }
    requires small { end_at (length out.old.items) (table (all_slots slots.now)) < 2 ^ 31 }
    ensures { OnOk result (then_slots out.new.items (all_slots slots.now) ≡ out.old.items ++ laid (length out.old.items) (table (all_slots slots.now))) }
{
    let at = table_start(out.len(), slots);
    put_vtable(out, slots)?;
    out.extend_from_slice(&((4 + 2 * slots.len()) as u32).to_le_bytes())?;
    put_inline(out, at, at + inline_end(slots), slots)?;
    Ok(())
}

/// Writes a node and all that it refers to.
#[cycle(put)]
pub(crate) fn put(out: &mut Vec<u8>, node: &Node) -> Result<(), AllocError>
    requires fits { Fits (node_of node.now) }
    requires small { end_at (length out.old.items) (node_of node.now) < 2 ^ 31 }
    ensures { OnOk result (out.new.items ≡ out.old.items ++ laid (length out.old.items) (node_of node.now)) }
{
    match node {
        Node::Table(slots) => put_table(out, slots),
        Node::Text(bytes) => put_text(out, bytes),
        Node::References(nodes) => put_references(out, nodes),
        Node::Structs(pairs) => put_structs(out, pairs),
    }
}

/// Writes a table and all that it refers to.
#[tactic(auto, unfolding(crate::specs::Laid::laid_slots))]
#[cycle(put)]
fn put_table(out: &mut Vec<u8>, slots: &[Slot]) -> Result<(), AllocError>
    requires fits { Fits (table (all_slots slots.now)) }
    requires small { end_at (length out.old.items) (table (all_slots slots.now)) < 2 ^ 31 }
    ensures { OnOk result (out.new.items ≡ out.old.items ++ laid (length out.old.items) (table (all_slots slots.now))) }
{
    put_head(out, slots)?;
    for slot in slots {
        put_below(out, slot)?;
    }
    Ok(())
}

/// Writes what a slot refers to.
#[tactic(auto, unfolding(crate::specs::Laid::laid_slots))]
#[cycle(put)]
fn put_below(out: &mut Vec<u8>, slot: &Slot) -> Result<(), AllocError>
    requires fits { FitsSlots (slot_before slot.now no_slot) }
    requires small { below_ends_at (length out.old.items) (slot_before slot.now no_slot) < 2 ^ 31 }
    ensures { OnOk result ((rest : Slots) → then_slots out.new.items rest ≡ then_slots out.old.items (slot_before slot.now rest)) }
{
    match slot {
        Slot::Absent | Slot::Byte(_) | Slot::Short(_) | Slot::Word(_) | Slot::Long(_) => Ok(()),
        Slot::Refers(node) => {
            put(out, node)?;
            Ok(())
        }
    }
}

/// Writes a vector of references and all that it refers to.
#[tactic(auto, unfolding(crate::specs::Laid::laid_all))]
#[cycle(put)]
fn put_references(out: &mut Vec<u8>, nodes: &[Node]) -> Result<(), AllocError>
    requires fits { FitsAll (all_nodes nodes.now) }
    requires small { end_at (length out.old.items) (references (all_nodes nodes.now)) < 2 ^ 31 }
    ensures { OnOk result (out.new.items ≡ out.old.items ++ laid (length out.old.items) (references (all_nodes nodes.now))) }
{
    put_vector(out, nodes)?;
    for node in nodes {
        put(out, node)?;
    }
    Ok(())
}
