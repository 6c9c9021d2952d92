// Instructions without a body (WebAssembly Core 2.0, section 3.3).

ghost use Rattle.std.specs.Prelude.{IfOk};
ghost use Rattle.wasm_valid_bodies.specs.Typing.{effect_of};
ghost use Rattle.wasm_valid_bodies.specs.OperandStack.{AnswersEffect};
ghost use Rattle.wasm_valid_bodies.specs.Labels.{label_list};
ghost use Rattle.wasm_valid_bodies.specs.ScopeContexts.{context_of};

use crate::control::{branch, branch_if, call, call_indirect};
use crate::labels::Labels;
use crate::memories::{
    load, memory_copy, memory_fill, memory_grow, memory_init, memory_size, store,
};
use crate::operand_stack::OperandStack;
use crate::scope::Scope;
use crate::tables::{
    elem_drop, table_copy, table_fill, table_get, table_grow, table_init, table_set, table_size,
};
use crate::types::{bin_operand, bin_result, un_operand, un_result};
use crate::variables::{
    global_get, global_set, local_get, local_set, local_tee, ref_func, select_typed,
};
use std::alloc::{AllocError, Global};
use wasm_tree::{Instr, ValType};

/// Returns whether an instruction without a body can follow. If it can, the operands become those
/// after it. The functions that it calls for single instructions do the same.
pub fn plain(
    alloc: Global,
    scope: &Scope<'_>,
    labels: &Labels<'_>,
    stack: &mut OperandStack,
    instr: &Instr,
) -> Result<bool, AllocError>
    ensures { IfOk result (λ ok. AnswersEffect (effect_of (context_of scope.now (label_list labels.now)) instr.now) stack.old stack.new ok) }
{
    match instr {
        Instr::Unreachable => Ok(stack.leaves(&[])),
        Instr::Nop => stack.gives(&[], &[]),
        Instr::Br(label) => Ok(branch(scope, labels, stack, *label)),
        Instr::BrIf(label) => branch_if(scope, labels, stack, *label),
        Instr::BrTable(others, last) => stack.branches(alloc, labels, *last, others.as_slice()),
        Instr::Return => Ok(stack.leaves(scope.results)),
        Instr::Call(func) => call(scope, stack, *func),
        Instr::CallIndirect { ty, table } => call_indirect(scope, stack, *ty, *table),
        Instr::Drop => Ok(stack.drops()),
        Instr::Select => stack.selects(),
        Instr::SelectTyped(types) => select_typed(scope, stack, types),
        Instr::LocalGet(local) => local_get(scope, stack, *local),
        Instr::LocalSet(local) => local_set(scope, stack, *local),
        Instr::LocalTee(local) => local_tee(scope, stack, *local),
        Instr::GlobalGet(global) => global_get(scope, stack, *global),
        Instr::GlobalSet(global) => global_set(scope, stack, *global),
        Instr::TableGet(table) => table_get(scope, stack, *table),
        Instr::TableSet(table) => table_set(scope, stack, *table),
        Instr::Load(op, arg) => load(scope, stack, *op, arg),
        Instr::Store(op, arg) => store(scope, stack, *op, arg),
        Instr::MemorySize(memory) => memory_size(scope, stack, *memory),
        Instr::MemoryGrow(memory) => memory_grow(scope, stack, *memory),
        Instr::I32Const(_) => stack.puts(ValType::I32),
        Instr::I64Const(_) => stack.puts(ValType::I64),
        Instr::Un(op) => stack.unary(un_operand(*op), un_result(*op)),
        Instr::Bin(op) => stack.binary(bin_operand(*op), bin_result(*op)),
        Instr::RefNull(ty) => stack.puts(ValType::Ref(*ty)),
        Instr::RefIsNull => stack.tests_null(),
        Instr::RefFunc(func) => ref_func(scope, stack, *func),
        Instr::MemoryInit { segment, memory } => memory_init(scope, stack, *segment, *memory),
        Instr::DataDrop(segment) => stack.gives_where(scope.has_data(*segment), &[], &[]),
        Instr::MemoryCopy { to, from } => memory_copy(scope, stack, *to, *from),
        Instr::MemoryFill(memory) => memory_fill(scope, stack, *memory),
        Instr::TableInit { segment, table } => table_init(scope, stack, *segment, *table),
        Instr::ElemDrop(segment) => elem_drop(scope, stack, *segment),
        Instr::TableCopy { to, from } => table_copy(scope, stack, *to, *from),
        Instr::TableGrow(table) => table_grow(scope, stack, *table),
        Instr::TableSize(table) => table_size(scope, stack, *table),
        Instr::TableFill(table) => table_fill(scope, stack, *table),
        Instr::Block(_, _) => Ok(false),
        Instr::Loop(_, _) => Ok(false),
        Instr::If(_, _, _) => Ok(false),
    }
}
