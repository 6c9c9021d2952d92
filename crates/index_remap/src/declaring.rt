// Declares the functions that `ref.func` names in bodies.

ghost use Rattle.std.specs.Prelude.{◌≡◌, ◌<◌, ◌^◌, length, map, replicate, false, IfOk, OnOk, OnErr};
ghost use Rattle.std.specs.List.{filter, range_with_len};
ghost use Rattle.base_kept.specs.Marks.{marked_all, named_from};
ghost use Rattle.wasm_tree.specs.declared.module.ConstExpr.TheVariants as const;
ghost use Rattle.wasm_tree.specs.Spaces.{funcs_of};
ghost use Rattle.wasm_valid.specs.Named.{marked_at};
ghost use Rattle.index_remap.specs.References.{refs, refs_all, body_refs, offset_func, offset_refs, outside_refs, marked_only, declared, declared_refs};

use std::alloc::{AllocError, Global};
use wasm_bytes::{Items, NoMemory};
use wasm_tree::{ConstExpr, ElemMode, ElemSeg, Func, Instr, Module, RefType};
use wasm_valid::{mark, mark_const, named_funcs};

#[cycle(refs)]
fn mark_instr(marks: &mut Vec<bool>, instr: &Instr)
    ensures { marks.new.items ≡ marked_all marks.old.items (refs instr.now) }
{
    match instr {
        Instr::Block(_, body) => mark_body(marks, body.as_slice()),
        Instr::Loop(_, body) => mark_body(marks, body.as_slice()),
        Instr::If(_, body, other) => {
            mark_body(marks, body.as_slice());
            mark_body(marks, other.as_slice());
        }
        Instr::RefFunc(func) => mark(marks, *func),
        Instr::Unreachable
        | Instr::Nop
        | Instr::Br(_)
        | Instr::BrIf(_)
        | Instr::BrTable(_, _)
        | Instr::Return
        | Instr::Call(_)
        | Instr::CallIndirect { .. }
        | Instr::Drop
        | Instr::Select
        | Instr::SelectTyped(_)
        | Instr::LocalGet(_)
        | Instr::LocalSet(_)
        | Instr::LocalTee(_)
        | Instr::GlobalGet(_)
        | Instr::GlobalSet(_)
        | Instr::TableGet(_)
        | Instr::TableSet(_)
        | Instr::Load(_, _)
        | Instr::Store(_, _)
        | Instr::MemorySize(_)
        | Instr::MemoryGrow(_)
        | Instr::I32Const(_)
        | Instr::I64Const(_)
        | Instr::Un(_)
        | Instr::Bin(_)
        | Instr::RefNull(_)
        | Instr::RefIsNull
        | Instr::MemoryInit { .. }
        | Instr::DataDrop(_)
        | Instr::MemoryCopy { .. }
        | Instr::MemoryFill(_)
        | Instr::TableInit { .. }
        | Instr::ElemDrop(_)
        | Instr::TableCopy { .. }
        | Instr::TableGrow(_)
        | Instr::TableSize(_)
        | Instr::TableFill(_) => (),
    }
}

// Marks each function that `ref.func` names in the body.
#[cycle(refs)]
fn mark_body(marks: &mut Vec<bool>, body: &[Instr])
    ensures { marks.new.items ≡ marked_all marks.old.items (refs_all body.now) }
{
    for instr in body {
        mark_instr(marks, instr);
    }
}

fn no_marks(alloc: Global, count: usize) -> Result<Vec<bool>, AllocError>
    ensures { IfOk result (λ marks. marks.items ≡ replicate count false) }
{
    vec![in alloc; false; count]
}

// Returns, for each of the first `count` functions, whether `ref.func` names it in a body.
fn named_inside(alloc: Global, funcs: &[Func], count: usize) -> Result<Vec<bool>, AllocError>
    ensures { IfOk result (λ marks. marks.items ≡ named_from (body_refs funcs.now) 0 count) }
{
    let mut marks = no_marks(alloc, count)?;
    for func in funcs {
        mark_body(&mut marks, func.body.as_slice());
    }
    Ok(marks)
}

fn mark_offset(marks: &mut Vec<bool>, mode: &ElemMode)
    ensures { marks.new.items ≡ marked_at marks.old.items (offset_func mode.now) }
{
    if let ElemMode::Active { offset, .. } = mode {
        mark_const(marks, offset);
    }
}

// Marks each function that the offset of a segment names.
fn mark_offsets(marks: &mut Vec<bool>, elems: &[ElemSeg])
    ensures { marks.new.items ≡ marked_all marks.old.items (offset_refs elems.now) }
{
    for segment in elems {
        mark_offset(marks, &segment.mode);
    }
}

// Returns, for each function, whether an item or the offset of an element segment, an initialiser
// of a global or an export names it.
fn named_outside(alloc: Global, module: &Module, count: usize) -> Result<Vec<bool>, AllocError>
    requires { count ≡ length (funcs_of «module».now) }
    ensures { IfOk result (λ marks. marks.items ≡ named_from (outside_refs «module».now) 0 count) }
{
    let mut marks = named_funcs(alloc, module, count)?;
    mark_offsets(&mut marks, module.elems.as_slice());
    Ok(marks)
}

fn is_only_inside(inside: &[bool], outside: &[bool], func: usize) -> bool
    requires inside { func < length inside.now }
    requires outside { func < length outside.now }
    ensures { result ≡ marked_only inside.now outside.now func }
{
    inside[func] && !outside[func]
}

// Returns an item for each function that is marked in `inside` and not in `outside`.
fn items_of(alloc: Global, inside: &[bool], outside: &[bool]) -> Result<Items<ConstExpr>, NoMemory>
    requires same { length outside.now ≡ length inside.now }
    requires few { length inside.now < 2 ^ 32 }
    ensures { IfOk result (λ items. items ≡ map const.Func (filter (marked_only inside.now outside.now) (range_with_len 0 (length inside.now)))) }
{
    let mut items = Items::new(alloc);
    for func in 0..inside.len() {
        if is_only_inside(inside, outside, func) {
            items.keep(ConstExpr::Func(func as u32))?;
        }
    }
    Ok(items)
}

// Returns an item for each function that has to be declared.
fn undeclared(alloc: Global, module: &Module) -> Result<Items<ConstExpr>, NoMemory>
    requires { length (funcs_of «module».now) < 2 ^ 32 }
    ensures { IfOk result (λ items. items ≡ map const.Func (declared_refs «module».now)) }
{
    let count = module.func_space();
    let inside = named_inside(alloc, module.funcs.as_slice(), count)?;
    let outside = named_outside(alloc, module, count)?;
    items_of(alloc, inside.as_slice(), outside.as_slice())
}

/// Appends one declarative element segment with the functions that `ref.func` names in a body and
/// that nothing else declares: no item and no offset of an element segment, no initialiser of a
/// global and no export names them. They are in ascending order (WebAssembly Core 2.0, section
/// 3.4.10; in a valid module no offset names a function). If there are no such functions, the
/// module stays as it was.
///
/// The module must have fewer than 2^32 functions, with the imported ones. The only error is
/// `NoMemory`, and then the module is as it was.
pub fn declare_refs(alloc: Global, module: &mut Module) -> Result<(), NoMemory>
    requires { length (funcs_of «module».old) < 2 ^ 32 }
    ensures ok { OnOk result («module».new ≡ declared «module».old) }
    ensures err { OnErr result («module».new ≡ «module».old) }
{
    let items = undeclared(alloc, module)?;
    if items.len() == 0 {
        return Ok(());
    }
    module.elems.keep(ElemSeg {
        mode: ElemMode::Declarative,
        ty: RefType::Func,
        items,
    })
}
