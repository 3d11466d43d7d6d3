// Computes where the parts of a tree begin and end, before any byte of it is written.
ghost use Rattle.std.specs.Prelude.{ℕ, ◌≡◌, ◌<◌, ◌≤◌, ◌^◌, ◌+◌, ◌*◌, IfSome, length};
ghost use Rattle.flatbuf.specs.Tree.{Slots, no_slot, table, text, references, structs};
ghost use Rattle.flatbuf.specs.Laid.{gap, inline_end, distances, table_start, start};
ghost use Rattle.flatbuf.specs.Ends.{end_at, below_ends_at};
ghost use Rattle.flatbuf.specs.inner.Steps.{after_slot, then_distances};
ghost use Rattle.flatbuf.specs.View.{node_of, all_nodes, slot_before, all_slots};

use crate::nodes::{Node, Slot};

/// Returns the first multiple at or after a position.
pub(crate) fn aligned(multiple: u8, at: usize) -> usize
    requires positive { 0 < multiple }
    requires small { at < 2 ^ 62 }
    ensures { result ≡ at + gap multiple at }
{
    let multiple = multiple as usize;
    at + (multiple - at % multiple) % multiple
}

/// Returns the size of a slot's inline content, if the slot is present.
pub(crate) fn width(slot: &Slot) -> Option<u8>
    ensures inline { (offset : ℕ) (rest : Slots) → inline_end offset (slot_before slot.now rest) ≡ inline_end (after_slot offset result) rest }
    ensures vtable { (offset : ℕ) (rest : Slots) → distances offset (slot_before slot.now rest) ≡ then_distances offset result rest }
    ensures low { IfSome result (λ w. 0 < w) }
    ensures high { IfSome result (λ w. w ≤ 8) }
{
    match slot {
        Slot::Absent => None,
        Slot::Byte(_) => Some(1),
        Slot::Short(_) => Some(2),
        Slot::Word(_) => Some(4),
        Slot::Long(_) => Some(8),
        Slot::Refers(_) => Some(4),
    }
}

/// Returns the size of a table's inline part.
#[tactic(auto, using(crate::proofs::ReadBack::inline_le_end))]
pub(crate) fn inline_end(slots: &[Slot]) -> usize
    requires small { inline_end 4 (all_slots slots.now) < 2 ^ 31 }
    ensures { result ≡ inline_end 4 (all_slots slots.now) }
{
    let mut offset = 4;
    for slot in slots {
        offset = match width(slot) {
            None => offset,
            Some(width) => aligned(width, offset) + width as usize,
        };
    }
    aligned(4, offset)
}

/// Returns where a table begins that is written at a cursor.
#[tactic(auto, using(crate::proofs::Cases::count_slots))]
pub(crate) fn table_start(cursor: usize, slots: &[Slot]) -> usize
    requires small { table_start cursor (all_slots slots.now) < 2 ^ 31 }
    ensures { result ≡ table_start cursor (all_slots slots.now) }
{
    aligned(8, cursor + 4 + 2 * slots.len())
}

/// Returns where a node begins that is written at a cursor.
pub(crate) fn start_of(cursor: usize, node: &Node) -> usize
    requires small { start cursor (node_of node.now) < 2 ^ 31 }
    ensures { result ≡ start cursor (node_of node.now) }
{
    match node {
        Node::Table(slots) => table_start(cursor, slots),
        Node::Text(_) => aligned(4, cursor),
        Node::References(_) => aligned(4, cursor),
        Node::Structs(_) => aligned(8, cursor + 4) - 4,
    }
}

/// Returns where a string ends that is written at a cursor.
fn text_end(cursor: usize, bytes: &[u8]) -> usize
    requires small { end_at cursor (text bytes.now) < 2 ^ 31 }
    ensures { result ≡ end_at cursor (text bytes.now) }
{
    aligned(4, cursor) + 5 + bytes.len()
}

/// Returns where a vector of structs ends that is written at a cursor.
fn structs_end(cursor: usize, pairs: &[(u64, u64)]) -> usize
    requires small { end_at cursor (structs pairs.now) < 2 ^ 31 }
    ensures { result ≡ end_at cursor (structs pairs.now) }
{
    aligned(8, cursor + 4) + 16 * pairs.len()
}

/// Returns where a node that is written at a cursor ends, with all that it refers to.
#[cycle(ends)]
pub(crate) fn end_of(cursor: usize, node: &Node) -> usize
    requires small { end_at cursor (node_of node.now) < 2 ^ 31 }
    ensures { result ≡ end_at cursor (node_of node.now) }
{
    match node {
        Node::Table(slots) => table_end(cursor, slots),
        Node::Text(bytes) => text_end(cursor, bytes),
        Node::References(nodes) => references_end(cursor, nodes),
        Node::Structs(pairs) => structs_end(cursor, pairs),
    }
}

/// Returns where a table ends, with all that it refers to.
#[tactic(auto, using(crate::proofs::Ends::below_le, crate::proofs::Cases::slot_fits, crate::proofs::ReadBack::inline_le_end))]
#[cycle(ends)]
fn table_end(cursor: usize, slots: &[Slot]) -> usize
    requires small { end_at cursor (table (all_slots slots.now)) < 2 ^ 31 }
    ensures { result ≡ end_at cursor (table (all_slots slots.now)) }
{
    let mut end = table_start(cursor, slots) + inline_end(slots);
    for slot in slots {
        end = slot_end(end, slot);
    }
    end
}

/// Returns where a vector of references ends, with all that it refers to.
#[tactic(auto, using(crate::proofs::Ends::ends_le, crate::proofs::Cases::node_fits, crate::proofs::Cases::count_nodes))]
#[cycle(ends)]
fn references_end(cursor: usize, nodes: &[Node]) -> usize
    requires small { end_at cursor (references (all_nodes nodes.now)) < 2 ^ 31 }
    ensures { result ≡ end_at cursor (references (all_nodes nodes.now)) }
{
    let mut end = aligned(4, cursor) + 4 + 4 * nodes.len();
    for node in nodes {
        end = end_of(end, node);
    }
    end
}

/// Returns where everything that a slot refers to ends, if it is written at a cursor.
#[cycle(ends)]
pub(crate) fn slot_end(cursor: usize, slot: &Slot) -> usize
    requires small { below_ends_at cursor (slot_before slot.now no_slot) < 2 ^ 31 }
    ensures { (rest : Slots) → below_ends_at result rest ≡ below_ends_at cursor (slot_before slot.now rest) }
{
    match slot {
        Slot::Absent | Slot::Byte(_) | Slot::Short(_) | Slot::Word(_) | Slot::Long(_) => cursor,
        Slot::Refers(node) => end_of(cursor, node),
    }
}
