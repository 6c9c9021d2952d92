// Copies of code.

ghost use Rattle.std.specs.Prelude.{◌≡◌, IfOk};

use crate::instr::Instr;
use std::alloc::Global;
use wasm_bytes::{Items, NoMemory};

// Returns an equal instruction.
#[cycle(copy)]
fn copy_instr(alloc: Global, instr: &Instr) -> Result<Instr, NoMemory>
    ensures { IfOk result (λ new. new ≡ instr.now) }
{
    match instr {
        Instr::Unreachable => Ok(Instr::Unreachable),
        Instr::Nop => Ok(Instr::Nop),
        Instr::Block(ty, body) => Ok(Instr::Block(*ty, copy_body(alloc, body.as_slice())?)),
        Instr::Loop(ty, body) => Ok(Instr::Loop(*ty, copy_body(alloc, body.as_slice())?)),
        Instr::If(ty, body, other) => {
            let body = copy_body(alloc, body.as_slice())?;
            let other = copy_body(alloc, other.as_slice())?;
            Ok(Instr::If(*ty, body, other))
        }
        Instr::Br(label) => Ok(Instr::Br(*label)),
        Instr::BrIf(label) => Ok(Instr::BrIf(*label)),
        Instr::BrTable(labels, last) => Ok(Instr::BrTable(
            Items::from_slice(alloc, labels.as_slice())?,
            *last,
        )),
        Instr::Return => Ok(Instr::Return),
        Instr::Call(func) => Ok(Instr::Call(*func)),
        Instr::CallIndirect { ty, table } => Ok(Instr::CallIndirect {
            ty: *ty,
            table: *table,
        }),
        Instr::Drop => Ok(Instr::Drop),
        Instr::Select => Ok(Instr::Select),
        Instr::SelectTyped(types) => Ok(Instr::SelectTyped(Items::from_slice(
            alloc,
            types.as_slice(),
        )?)),
        Instr::LocalGet(local) => Ok(Instr::LocalGet(*local)),
        Instr::LocalSet(local) => Ok(Instr::LocalSet(*local)),
        Instr::LocalTee(local) => Ok(Instr::LocalTee(*local)),
        Instr::GlobalGet(global) => Ok(Instr::GlobalGet(*global)),
        Instr::GlobalSet(global) => Ok(Instr::GlobalSet(*global)),
        Instr::TableGet(table) => Ok(Instr::TableGet(*table)),
        Instr::TableSet(table) => Ok(Instr::TableSet(*table)),
        Instr::Load(op, arg) => Ok(Instr::Load(*op, *arg)),
        Instr::Store(op, arg) => Ok(Instr::Store(*op, *arg)),
        Instr::MemorySize(memory) => Ok(Instr::MemorySize(*memory)),
        Instr::MemoryGrow(memory) => Ok(Instr::MemoryGrow(*memory)),
        Instr::I32Const(value) => Ok(Instr::I32Const(*value)),
        Instr::I64Const(value) => Ok(Instr::I64Const(*value)),
        Instr::Un(op) => Ok(Instr::Un(*op)),
        Instr::Bin(op) => Ok(Instr::Bin(*op)),
        Instr::RefNull(ty) => Ok(Instr::RefNull(*ty)),
        Instr::RefIsNull => Ok(Instr::RefIsNull),
        Instr::RefFunc(func) => Ok(Instr::RefFunc(*func)),
        Instr::MemoryInit { segment, memory } => Ok(Instr::MemoryInit {
            segment: *segment,
            memory: *memory,
        }),
        Instr::DataDrop(segment) => Ok(Instr::DataDrop(*segment)),
        Instr::MemoryCopy { to, from } => Ok(Instr::MemoryCopy {
            to: *to,
            from: *from,
        }),
        Instr::MemoryFill(memory) => Ok(Instr::MemoryFill(*memory)),
        Instr::TableInit { segment, table } => Ok(Instr::TableInit {
            segment: *segment,
            table: *table,
        }),
        Instr::ElemDrop(segment) => Ok(Instr::ElemDrop(*segment)),
        Instr::TableCopy { to, from } => Ok(Instr::TableCopy {
            to: *to,
            from: *from,
        }),
        Instr::TableGrow(table) => Ok(Instr::TableGrow(*table)),
        Instr::TableSize(table) => Ok(Instr::TableSize(*table)),
        Instr::TableFill(table) => Ok(Instr::TableFill(*table)),
    }
}

/// Returns equal code, or `NoMemory`. The recursion is as deep as the blocks are nested.
#[cycle(copy)]
pub fn copy_body(alloc: Global, body: &[Instr]) -> Result<Items<Instr>, NoMemory>
    ensures { IfOk result (λ new. new ≡ body.now) }
{
    let mut all = Items::new(alloc);
    for instr in body {
        all.keep(copy_instr(alloc, instr)?)?;
    }
    Ok(all)
}
