// The index spaces, and the indices that an instruction names.

ghost use Rattle.std.specs.Prelude.{◌≡◌, [], ◌∷◌};
ghost use Rattle.wasm_tree.specs.Operands.{block_operands, listed, named, operands_of};

use crate::instr::Instr;
use crate::types::BlockType;

/// The index spaces of a module (WebAssembly Core 2.0, section 2.5.1).
#[derive(Clone, Copy, Debug, PartialEq, Eq)]
pub enum Space {
    Types,
    Functions,
    Tables,
    Memories,
    Globals,
    ElementSegments,
    DataSegments,
}

/// An index that an instruction names, with its index space. `called` is true only for the function
/// of a `call`; it distinguishes a `call` from a `ref.func`.
#[derive(Clone, Copy, Debug, PartialEq, Eq)]
pub struct Operand {
    pub space: Space,
    pub index: u32,
    pub called: bool,
}

/// The indices that an instruction names, at most two.
#[derive(Clone, Copy, Debug, PartialEq, Eq)]
pub struct Operands {
    pub first: Option<Operand>,
    pub second: Option<Operand>,
}

fn named(space: Space, index: u32) -> Operand
    ensures { result ≡ named space index }
{
    Operand {
        space,
        index,
        called: false,
    }
}

fn none() -> Operands
    ensures { listed result ≡ [] }
{
    Operands {
        first: None,
        second: None,
    }
}

fn one(space: Space, index: u32) -> Operands
    ensures { listed result ≡ named space index ∷ [] }
{
    Operands {
        first: Some(named(space, index)),
        second: None,
    }
}

fn two(first: Operand, second: Operand) -> Operands
    ensures { listed result ≡ first ∷ second ∷ [] }
{
    Operands {
        first: Some(first),
        second: Some(second),
    }
}

fn of_block(ty: BlockType) -> Operands
    ensures { listed result ≡ block_operands ty }
{
    match ty {
        BlockType::Empty | BlockType::Value(_) => none(),
        BlockType::Index(index) => one(Space::Types, index),
    }
}

impl Instr {
    /// Returns the indices that the instruction itself names, in the order of its fields
    /// (WebAssembly Core 2.0, section 2.4). Labels and locals are in no index space of the
    /// module, so they do not count; nor does what instructions inside a block name.
    #[inline(always)]
    pub fn operands(&self) -> Operands
        ensures { listed result ≡ operands_of self.now }
    {
        match self {
            Instr::Block(ty, _) | Instr::Loop(ty, _) | Instr::If(ty, _, _) => of_block(*ty),
            Instr::Call(func) => Operands {
                first: Some(Operand {
                    space: Space::Functions,
                    index: *func,
                    called: true,
                }),
                second: None,
            },
            Instr::CallIndirect { ty, table } => two(
                named(Space::Types, *ty),
                named(Space::Tables, *table),
            ),
            Instr::GlobalGet(global) | Instr::GlobalSet(global) => one(Space::Globals, *global),
            Instr::TableGet(table)
            | Instr::TableSet(table)
            | Instr::TableGrow(table)
            | Instr::TableSize(table)
            | Instr::TableFill(table) => one(Space::Tables, *table),
            Instr::Load(_, arg) | Instr::Store(_, arg) => one(Space::Memories, arg.memory),
            Instr::MemorySize(memory) | Instr::MemoryGrow(memory) | Instr::MemoryFill(memory) => {
                one(Space::Memories, *memory)
            }
            Instr::RefFunc(func) => one(Space::Functions, *func),
            Instr::MemoryInit { segment, memory } => {
                two(
                    named(Space::DataSegments, *segment),
                    named(Space::Memories, *memory),
                )
            }
            Instr::DataDrop(segment) => one(Space::DataSegments, *segment),
            Instr::MemoryCopy { to, from } => two(
                named(Space::Memories, *to),
                named(Space::Memories, *from),
            ),
            Instr::TableInit { segment, table } => {
                two(
                    named(Space::ElementSegments, *segment),
                    named(Space::Tables, *table),
                )
            }
            Instr::ElemDrop(segment) => one(Space::ElementSegments, *segment),
            Instr::TableCopy { to, from } => two(
                named(Space::Tables, *to),
                named(Space::Tables, *from),
            ),
            Instr::Unreachable
            | Instr::Nop
            | Instr::Br(_)
            | Instr::BrIf(_)
            | Instr::BrTable(_, _)
            | Instr::Return
            | Instr::Drop
            | Instr::Select
            | Instr::SelectTyped(_)
            | Instr::LocalGet(_)
            | Instr::LocalSet(_)
            | Instr::LocalTee(_)
            | Instr::I32Const(_)
            | Instr::I64Const(_)
            | Instr::Un(_)
            | Instr::Bin(_)
            | Instr::RefNull(_)
            | Instr::RefIsNull => none(),
        }
    }
}
