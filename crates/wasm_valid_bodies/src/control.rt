// Branches and calls (WebAssembly Core 2.0, section 3.3.8); see `plain`.

ghost use Rattle.std.specs.Prelude.{[], IfOk};
ghost use Rattle.wasm_tree.specs.declared.instr.Instr.TheVariants.{Br, BrIf, Call, CallIndirect};
ghost use Rattle.wasm_valid_bodies.specs.Typing.{effect_of};
ghost use Rattle.wasm_valid_bodies.specs.OperandStack.{AnswersEffect};
ghost use Rattle.wasm_valid_bodies.specs.Labels.{label_list};
ghost use Rattle.wasm_valid_bodies.specs.ScopeContexts.{context_of};

use crate::labels::Labels;
use crate::operand_stack::OperandStack;
use crate::scope::Scope;
use std::alloc::AllocError;
use wasm_tree::{RefType, ValType};

/// `br`.
pub fn branch(scope: &Scope<'_>, labels: &Labels<'_>, stack: &mut OperandStack, label: u32) -> bool
    ensures { AnswersEffect (effect_of (context_of scope.now (label_list labels.now)) (Br label)) stack.old stack.new result }
{
    match labels.types_at(label) {
        Some(types) => stack.leaves(types),
        None => false,
    }
}

/// `br_if`.
pub fn branch_if(
    scope: &Scope<'_>,
    labels: &Labels<'_>,
    stack: &mut OperandStack,
    label: u32,
) -> Result<bool, AllocError>
    ensures { IfOk result (λ ok. AnswersEffect (effect_of (context_of scope.now (label_list labels.now)) (BrIf label)) stack.old stack.new ok) }
{
    match labels.types_at(label) {
        Some(types) => stack.gives_over(types, ValType::I32, types),
        None => Ok(false),
    }
}

/// `call`.
pub fn call(scope: &Scope<'_>, stack: &mut OperandStack, func: u32) -> Result<bool, AllocError>
    ensures { IfOk result (λ ok. AnswersEffect (effect_of (context_of scope.now []) (Call func)) stack.old stack.new ok) }
{
    match scope.type_of_func(func) {
        Some(ty) => stack.gives(ty.params.as_slice(), ty.results.as_slice()),
        None => Ok(false),
    }
}

/// `call_indirect`.
pub fn call_indirect(
    scope: &Scope<'_>,
    stack: &mut OperandStack,
    ty: u32,
    table: u32,
) -> Result<bool, AllocError>
    ensures { IfOk result (λ ok. AnswersEffect (effect_of (context_of scope.now []) (CallIndirect ty table)) stack.old stack.new ok) }
{
    let Some(RefType::Func) = scope.tables.get(table as usize) else {
        return Ok(false);
    };
    match scope.types.get(ty as usize) {
        Some(ty) => stack.gives_over(ty.params.as_slice(), ValType::I32, ty.results.as_slice()),
        None => Ok(false),
    }
}
