// What a body can name.

ghost use Rattle.std.specs.Prelude.{◌≡◌, nat_lt, slice_get, option_and_then, option_map};
ghost use Rattle.wasm_valid_bodies.specs.Typing.{signature_of};
ghost use Rattle.wasm_valid_bodies.specs.ScopeContexts.{signature};

use crate::locals::Locals;
use std::slice;
use wasm_tree::{BlockType, FuncType, GlobalType, RefType, ValType};

/// What a body can name, except its labels (WebAssembly Core 2.0, section 3.1.1).
#[derive(Drop)]
pub struct Scope<'a> {
    pub types: &'a [FuncType],
    /// The type index of each function, imported ones first.
    pub funcs: &'a [u32],
    /// The reference type of each table.
    pub tables: &'a [RefType],
    /// The number of memories.
    pub memories: usize,
    pub globals: &'a [GlobalType],
    /// The reference type of each element segment.
    pub elems: &'a [RefType],
    /// The number of data segments.
    pub datas: usize,
    /// For each function, whether `ref.func` may name it in a body.
    pub named: &'a [bool],
    pub locals: Locals<'a>,
    /// The results of the function.
    pub results: &'a [ValType],
}

/// The types of the operands that a block takes and leaves.
#[derive(Clone, Copy)]
pub struct Shape<'a> {
    pub params: &'a [ValType],
    pub results: &'a [ValType],
}

/// Returns the shape of a block type, if the type that it names exists (WebAssembly Core 2.0,
/// section 3.2.2).
pub fn shape_of<'a>(types: &'a [FuncType], block: &'a BlockType) -> Option<Shape<'a>>
    ensures { option_map signature result ≡ signature_of types.now block.now }
{
    match block {
        BlockType::Empty => Some(Shape {
            params: &[],
            results: &[],
        }),
        BlockType::Value(ty) => Some(Shape {
            params: &[],
            results: slice::from_ref(ty),
        }),
        BlockType::Index(index) => {
            let ty = types.get(*index as usize)?;
            Some(Shape {
                params: ty.params.as_slice(),
                results: ty.results.as_slice(),
            })
        }
    }
}

impl<'a> Scope<'a> {
    /// Returns the type of a function, if both exist.
    pub fn type_of_func(&self, func: u32) -> Option<&'a FuncType>
        ensures { option_map (λ t. t.now) result ≡ option_and_then (λ i. slice_get self.now.types.now i) (slice_get self.now.funcs.now func) }
    {
        let ty = *self.funcs.get(func as usize)?;
        self.types.get(ty as usize)
    }

    /// Returns whether the memory exists.
    pub fn has_memory(&self, memory: u32) -> bool
        ensures { result ≡ nat_lt memory self.now.memories }
    {
        (memory as usize) < self.memories
    }

    /// Returns whether the data segment exists.
    pub fn has_data(&self, segment: u32) -> bool
        ensures { result ≡ nat_lt segment self.now.datas }
    {
        (segment as usize) < self.datas
    }
}
