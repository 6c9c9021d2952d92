// Locals, globals, references to functions and the typed `select` (WebAssembly Core 2.0, sections
// 3.3.2, 3.3.4 and 3.3.5); see `plain`.

ghost use Rattle.std.specs.Prelude.{[], IfOk};
ghost use Rattle.wasm_tree.specs.declared.instr.Instr.TheVariants.{SelectTyped, LocalGet, LocalSet, LocalTee, GlobalGet, GlobalSet, RefFunc};
ghost use Rattle.wasm_valid_bodies.specs.Typing.{effect_of};
ghost use Rattle.wasm_valid_bodies.specs.OperandStack.{AnswersEffect};
ghost use Rattle.wasm_valid_bodies.specs.ScopeContexts.{context_of};

use crate::operand_stack::OperandStack;
use crate::scope::Scope;
use std::alloc::AllocError;
use wasm_bytes::Items;
use wasm_tree::{RefType, ValType};

/// `select` with types.
pub fn select_typed(
    scope: &Scope<'_>,
    stack: &mut OperandStack,
    types: &Items<ValType>,
) -> Result<bool, AllocError>
    ensures { IfOk result (λ ok. AnswersEffect (effect_of (context_of scope.now []) (SelectTyped types.now)) stack.old stack.new ok) }
{
    match types.as_slice() {
        [ty] => stack.gives(&[*ty, *ty, ValType::I32], &[*ty]),
        _ => Ok(false),
    }
}

/// `local.get`.
pub fn local_get(
    scope: &Scope<'_>,
    stack: &mut OperandStack,
    local: u32,
) -> Result<bool, AllocError>
    ensures { IfOk result (λ ok. AnswersEffect (effect_of (context_of scope.now []) (LocalGet local)) stack.old stack.new ok) }
{
    match scope.locals.type_at(local) {
        Some(ty) => stack.puts(ty),
        None => Ok(false),
    }
}

/// `local.set`.
pub fn local_set(
    scope: &Scope<'_>,
    stack: &mut OperandStack,
    local: u32,
) -> Result<bool, AllocError>
    ensures { IfOk result (λ ok. AnswersEffect (effect_of (context_of scope.now []) (LocalSet local)) stack.old stack.new ok) }
{
    match scope.locals.type_at(local) {
        Some(ty) => Ok(stack.consumes(ty)),
        None => Ok(false),
    }
}

/// `local.tee`.
pub fn local_tee(
    scope: &Scope<'_>,
    stack: &mut OperandStack,
    local: u32,
) -> Result<bool, AllocError>
    ensures { IfOk result (λ ok. AnswersEffect (effect_of (context_of scope.now []) (LocalTee local)) stack.old stack.new ok) }
{
    match scope.locals.type_at(local) {
        Some(ty) => stack.unary(ty, ty),
        None => Ok(false),
    }
}

/// `global.get`.
pub fn global_get(
    scope: &Scope<'_>,
    stack: &mut OperandStack,
    global: u32,
) -> Result<bool, AllocError>
    ensures { IfOk result (λ ok. AnswersEffect (effect_of (context_of scope.now []) (GlobalGet global)) stack.old stack.new ok) }
{
    match scope.globals.get(global as usize) {
        Some(global) => stack.puts(global.ty),
        None => Ok(false),
    }
}

/// `global.set`, which needs a mutable global.
pub fn global_set(
    scope: &Scope<'_>,
    stack: &mut OperandStack,
    global: u32,
) -> Result<bool, AllocError>
    ensures { IfOk result (λ ok. AnswersEffect (effect_of (context_of scope.now []) (GlobalSet global)) stack.old stack.new ok) }
{
    match scope.globals.get(global as usize) {
        Some(global) => stack.gives_where(global.mutable, &[global.ty], &[]),
        None => Ok(false),
    }
}

/// `ref.func`, which needs a function that the module names outside its bodies.
pub fn ref_func(scope: &Scope<'_>, stack: &mut OperandStack, func: u32) -> Result<bool, AllocError>
    ensures { IfOk result (λ ok. AnswersEffect (effect_of (context_of scope.now []) (RefFunc func)) stack.old stack.new ok) }
{
    match scope.named.get(func as usize) {
        Some(named) => stack.gives_where(*named, &[], &[ValType::Ref(RefType::Func)]),
        None => Ok(false),
    }
}
