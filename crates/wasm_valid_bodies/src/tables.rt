// Tables and element segments (WebAssembly Core 2.0, section 3.3.6); see `plain`.

ghost use Rattle.std.specs.Prelude.{◌≡◌, [], option_copied, IfOk};
ghost use Rattle.wasm_tree.specs.declared.instr.Instr.TheVariants.{TableGet, TableSet, TableSize, TableGrow, TableFill, TableCopy, TableInit, ElemDrop};
ghost use Rattle.wasm_valid_bodies.specs.Typing.{both, effect_of};
ghost use Rattle.wasm_valid_bodies.specs.OperandStack.{AnswersEffect};
ghost use Rattle.wasm_valid_bodies.specs.ScopeContexts.{context_of};

use crate::operand_stack::OperandStack;
use crate::scope::Scope;
use std::alloc::AllocError;
use wasm_tree::{RefType, ValType};

// Returns whether both types exist and are equal.
fn both(left: Option<&RefType>, right: Option<&RefType>) -> bool
    ensures { result ≡ both (option_copied left.entry) (option_copied right.entry) }
{
    match (left, right) {
        (Some(RefType::Func), Some(RefType::Func)) => true,
        (Some(RefType::Extern), Some(RefType::Extern)) => true,
        _ => false,
    }
}

/// `table.get`.
pub fn table_get(
    scope: &Scope<'_>,
    stack: &mut OperandStack,
    table: u32,
) -> Result<bool, AllocError>
    ensures { IfOk result (λ ok. AnswersEffect (effect_of (context_of scope.now []) (TableGet table)) stack.old stack.new ok) }
{
    match scope.tables.get(table as usize) {
        Some(ty) => stack.gives(&[ValType::I32], &[ValType::Ref(*ty)]),
        None => Ok(false),
    }
}

/// `table.set`.
pub fn table_set(
    scope: &Scope<'_>,
    stack: &mut OperandStack,
    table: u32,
) -> Result<bool, AllocError>
    ensures { IfOk result (λ ok. AnswersEffect (effect_of (context_of scope.now []) (TableSet table)) stack.old stack.new ok) }
{
    match scope.tables.get(table as usize) {
        Some(ty) => stack.gives(&[ValType::I32, ValType::Ref(*ty)], &[]),
        None => Ok(false),
    }
}

/// `table.size`.
pub fn table_size(
    scope: &Scope<'_>,
    stack: &mut OperandStack,
    table: u32,
) -> Result<bool, AllocError>
    ensures { IfOk result (λ ok. AnswersEffect (effect_of (context_of scope.now []) (TableSize table)) stack.old stack.new ok) }
{
    match scope.tables.get(table as usize) {
        Some(_) => stack.gives(&[], &[ValType::I32]),
        None => Ok(false),
    }
}

/// `table.grow`.
pub fn table_grow(
    scope: &Scope<'_>,
    stack: &mut OperandStack,
    table: u32,
) -> Result<bool, AllocError>
    ensures { IfOk result (λ ok. AnswersEffect (effect_of (context_of scope.now []) (TableGrow table)) stack.old stack.new ok) }
{
    match scope.tables.get(table as usize) {
        Some(ty) => stack.gives(&[ValType::Ref(*ty), ValType::I32], &[ValType::I32]),
        None => Ok(false),
    }
}

/// `table.fill`.
pub fn table_fill(
    scope: &Scope<'_>,
    stack: &mut OperandStack,
    table: u32,
) -> Result<bool, AllocError>
    ensures { IfOk result (λ ok. AnswersEffect (effect_of (context_of scope.now []) (TableFill table)) stack.old stack.new ok) }
{
    match scope.tables.get(table as usize) {
        Some(ty) => stack.gives(&[ValType::I32, ValType::Ref(*ty), ValType::I32], &[]),
        None => Ok(false),
    }
}

/// `table.copy`.
pub fn table_copy(
    scope: &Scope<'_>,
    stack: &mut OperandStack,
    to: u32,
    from: u32,
) -> Result<bool, AllocError>
    ensures { IfOk result (λ ok. AnswersEffect (effect_of (context_of scope.now []) (TableCopy to from)) stack.old stack.new ok) }
{
    let same = both(
        scope.tables.get(to as usize),
        scope.tables.get(from as usize),
    );
    stack.gives_where(same, &[ValType::I32, ValType::I32, ValType::I32], &[])
}

/// `table.init`.
pub fn table_init(
    scope: &Scope<'_>,
    stack: &mut OperandStack,
    segment: u32,
    table: u32,
) -> Result<bool, AllocError>
    ensures { IfOk result (λ ok. AnswersEffect (effect_of (context_of scope.now []) (TableInit segment table)) stack.old stack.new ok) }
{
    let same = both(
        scope.elems.get(segment as usize),
        scope.tables.get(table as usize),
    );
    stack.gives_where(same, &[ValType::I32, ValType::I32, ValType::I32], &[])
}

/// `elem.drop`.
pub fn elem_drop(
    scope: &Scope<'_>,
    stack: &mut OperandStack,
    segment: u32,
) -> Result<bool, AllocError>
    ensures { IfOk result (λ ok. AnswersEffect (effect_of (context_of scope.now []) (ElemDrop segment)) stack.old stack.new ok) }
{
    match scope.elems.get(segment as usize) {
        Some(_) => stack.gives(&[], &[]),
        None => Ok(false),
    }
}
