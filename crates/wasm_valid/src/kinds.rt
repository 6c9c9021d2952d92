// Items that can be invalid.

/// The kinds of items, in the order in which they are tested.
#[derive(Clone, Copy, Debug, PartialEq, Eq)]
pub enum ItemKind {
    Import,
    /// The number of memories.
    Memories,
    /// The type index of a function that the module defines.
    Func,
    Table,
    Memory,
    Global,
    Export,
    Start,
    /// An element segment.
    Elem,
    /// A data segment.
    Segment,
    /// The body of a function that the module defines.
    Body,
}

/// An invalid item. `index` is the index in the index space for `Func`, `Table`, `Memory`, `Global`
/// and `Body`, the number of memories for `Memories`, 0 for `Start`, and the position in the
/// section for the other kinds.
#[derive(Clone, Copy, Debug, PartialEq, Eq)]
pub struct Invalid {
    pub kind: ItemKind,
    pub index: u32,
}
