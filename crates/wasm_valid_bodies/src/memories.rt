// Memories and data segments (WebAssembly Core 2.0, section 3.3.7); see `plain`.

ghost use Rattle.std.specs.Prelude.{◌≡◌, ◌≤◌, ◌^◌, nat_le, [], IfOk};
ghost use Rattle.wasm_tree.specs.declared.instr.Instr.TheVariants.{Load, Store, MemorySize, MemoryGrow, MemoryFill, MemoryCopy, MemoryInit};
ghost use Rattle.wasm_valid_bodies.specs.Typing.{effect_of, fits_memory};
ghost use Rattle.wasm_valid_bodies.specs.OperandStack.{AnswersEffect};
ghost use Rattle.wasm_valid_bodies.specs.ScopeContexts.{context_of};

use crate::operand_stack::OperandStack;
use crate::scope::Scope;
use crate::types::{load_type, load_width, store_type, store_width};
use std::alloc::AllocError;
use wasm_tree::{LoadOp, MemArg, StoreOp, ValType};

// Returns whether 2 to the power of the alignment is at most the width.
fn is_aligned(align: u32, width: u32) -> bool
    requires { width ≤ 8 }
    ensures { result ≡ nat_le (2 ^ align) width }
{
    match align {
        0 => 1 <= width,
        1 => 2 <= width,
        2 => 4 <= width,
        3 => 8 <= width,
        _ => false,
    }
}

// Returns whether the memory exists and the alignment is allowed for the width.
fn fits_memory(scope: &Scope<'_>, width: u32, arg: &MemArg) -> bool
    requires { width ≤ 8 }
    ensures { result ≡ fits_memory (context_of scope.now []) width arg.now }
{
    scope.has_memory(arg.memory) && is_aligned(arg.align, width)
}

/// The loads.
pub fn load(
    scope: &Scope<'_>,
    stack: &mut OperandStack,
    op: LoadOp,
    arg: &MemArg,
) -> Result<bool, AllocError>
    ensures { IfOk result (λ ok. AnswersEffect (effect_of (context_of scope.now []) (Load op arg.now)) stack.old stack.new ok) }
{
    let fits = fits_memory(scope, load_width(op), arg);
    if fits {
        stack.unary(ValType::I32, load_type(op))
    } else {
        Ok(false)
    }
}

/// The stores.
pub fn store(
    scope: &Scope<'_>,
    stack: &mut OperandStack,
    op: StoreOp,
    arg: &MemArg,
) -> Result<bool, AllocError>
    ensures { IfOk result (λ ok. AnswersEffect (effect_of (context_of scope.now []) (Store op arg.now)) stack.old stack.new ok) }
{
    let fits = fits_memory(scope, store_width(op), arg);
    stack.gives_where(fits, &[ValType::I32, store_type(op)], &[])
}

/// `memory.size`.
pub fn memory_size(
    scope: &Scope<'_>,
    stack: &mut OperandStack,
    memory: u32,
) -> Result<bool, AllocError>
    ensures { IfOk result (λ ok. AnswersEffect (effect_of (context_of scope.now []) (MemorySize memory)) stack.old stack.new ok) }
{
    stack.gives_where(scope.has_memory(memory), &[], &[ValType::I32])
}

/// `memory.grow`.
pub fn memory_grow(
    scope: &Scope<'_>,
    stack: &mut OperandStack,
    memory: u32,
) -> Result<bool, AllocError>
    ensures { IfOk result (λ ok. AnswersEffect (effect_of (context_of scope.now []) (MemoryGrow memory)) stack.old stack.new ok) }
{
    stack.gives_where(scope.has_memory(memory), &[ValType::I32], &[ValType::I32])
}

/// `memory.fill`.
pub fn memory_fill(
    scope: &Scope<'_>,
    stack: &mut OperandStack,
    memory: u32,
) -> Result<bool, AllocError>
    ensures { IfOk result (λ ok. AnswersEffect (effect_of (context_of scope.now []) (MemoryFill memory)) stack.old stack.new ok) }
{
    let found = scope.has_memory(memory);
    stack.gives_where(found, &[ValType::I32, ValType::I32, ValType::I32], &[])
}

/// `memory.copy`.
pub fn memory_copy(
    scope: &Scope<'_>,
    stack: &mut OperandStack,
    to: u32,
    from: u32,
) -> Result<bool, AllocError>
    ensures { IfOk result (λ ok. AnswersEffect (effect_of (context_of scope.now []) (MemoryCopy to from)) stack.old stack.new ok) }
{
    let found = scope.has_memory(to) && scope.has_memory(from);
    stack.gives_where(found, &[ValType::I32, ValType::I32, ValType::I32], &[])
}

/// `memory.init`.
pub fn memory_init(
    scope: &Scope<'_>,
    stack: &mut OperandStack,
    segment: u32,
    memory: u32,
) -> Result<bool, AllocError>
    ensures { IfOk result (λ ok. AnswersEffect (effect_of (context_of scope.now []) (MemoryInit segment memory)) stack.old stack.new ok) }
{
    let found = scope.has_data(segment) && scope.has_memory(memory);
    stack.gives_where(found, &[ValType::I32, ValType::I32, ValType::I32], &[])
}
