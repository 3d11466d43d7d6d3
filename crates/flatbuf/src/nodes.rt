// Trees of tables, strings and vectors to be written (FlatBuffers internals).

/// A table with its slots from 0 on, a string, a vector of references, or a vector of structs of two 64-bit numbers each.
#[derive(Drop)]
#[cycle(tree)]
pub enum Node {
    Table(Vec<Slot>),
    Text(Vec<u8>),
    References(Vec<Node>),
    Structs(Vec<(u64, u64)>),
}

/// The content of a slot of a table: nothing, a number of 8, 16, 32 or 64 bits, or a reference.
#[derive(Drop)]
#[cycle(tree)]
pub enum Slot {
    Absent,
    Byte(u8),
    Short(u16),
    Word(u32),
    Long(u64),
    Refers(Node),
}
