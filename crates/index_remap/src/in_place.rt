// Replaces the indices of trees in place.

ghost use Rattle.std.specs.Prelude.{◌≡◌, IsTrue, map as each};
ghost use Rattle.std.specs.List.{list_all};
ghost use Rattle.index_remap.specs.Renumbered.{renumbered, renumbered_all, renumbered_tree, new_func, fits, fits_all, fits_func, fits_tree};

use crate::each::Renumber;
use crate::remap::{Remap, entry, renumber_memarg, renumber_start, renumber_type};
use wasm_bytes::Items;
use wasm_tree::{Func, Instr, Module};

#[cycle(rewrite)]
fn rewrite_instr(instr: &mut Instr, map: &Remap)
    requires fits { IsTrue (fits map.now instr.old) }
    ensures { instr.new ≡ renumbered map.now instr.old }
{
    match instr {
        Instr::Block(ty, body) => {
            *ty = renumber_type(*ty, map);
            rewrite_all(body, map);
        }
        Instr::Loop(ty, body) => {
            *ty = renumber_type(*ty, map);
            rewrite_all(body, map);
        }
        Instr::If(ty, body, other) => {
            *ty = renumber_type(*ty, map);
            rewrite_all(body, map);
            rewrite_all(other, map);
        }
        Instr::Call(func) => *func = entry(&map.funcs, *func),
        Instr::CallIndirect { ty, table } => {
            *ty = entry(&map.types, *ty);
            *table = entry(&map.tables, *table);
        }
        Instr::GlobalGet(global) => *global = entry(&map.globals, *global),
        Instr::GlobalSet(global) => *global = entry(&map.globals, *global),
        Instr::TableGet(table) => *table = entry(&map.tables, *table),
        Instr::TableSet(table) => *table = entry(&map.tables, *table),
        Instr::Load(_, arg) => *arg = renumber_memarg(*arg, map),
        Instr::Store(_, arg) => *arg = renumber_memarg(*arg, map),
        Instr::MemorySize(memory) => *memory = entry(&map.mems, *memory),
        Instr::MemoryGrow(memory) => *memory = entry(&map.mems, *memory),
        Instr::RefFunc(func) => *func = entry(&map.funcs, *func),
        Instr::MemoryInit { segment, memory } => {
            *segment = entry(&map.datas, *segment);
            *memory = entry(&map.mems, *memory);
        }
        Instr::DataDrop(segment) => *segment = entry(&map.datas, *segment),
        Instr::MemoryCopy { to, from } => {
            *to = entry(&map.mems, *to);
            *from = entry(&map.mems, *from);
        }
        Instr::MemoryFill(memory) => *memory = entry(&map.mems, *memory),
        Instr::TableInit {
            segment,
            table: filled,
        } => {
            *segment = entry(&map.elems, *segment);
            *filled = entry(&map.tables, *filled);
        }
        Instr::ElemDrop(segment) => *segment = entry(&map.elems, *segment),
        Instr::TableCopy { to, from } => {
            *to = entry(&map.tables, *to);
            *from = entry(&map.tables, *from);
        }
        Instr::TableGrow(table) => *table = entry(&map.tables, *table),
        Instr::TableSize(table) => *table = entry(&map.tables, *table),
        Instr::TableFill(table) => *table = entry(&map.tables, *table),
        Instr::Unreachable
        | Instr::Nop
        | Instr::Br(_)
        | Instr::BrIf(_)
        | Instr::BrTable(_, _)
        | Instr::Return
        | Instr::Drop
        | Instr::Select
        | Instr::SelectTyped(_)
        | Instr::LocalGet(_)
        | Instr::LocalSet(_)
        | Instr::LocalTee(_)
        | Instr::I32Const(_)
        | Instr::I64Const(_)
        | Instr::Un(_)
        | Instr::Bin(_)
        | Instr::RefNull(_)
        | Instr::RefIsNull => (),
    }
}

#[cycle(rewrite)]
pub(crate) fn rewrite_all(body: &mut Items<Instr>, map: &Remap)
    requires fits { IsTrue (fits_all map.now body.old) }
    ensures { body.new ≡ renumbered_all map.now body.old }
{
    for at in 0..body.len() {
        if let Some(instr) = body.get_mut(at) {
            rewrite_instr(instr, map);
        }
    }
}

/// Replaces the indices of each item in place.
pub(crate) fn rewrite_each<T: Renumber>(items: &mut Items<T>, entries: &Remap)
    requires fits { IsTrue (list_all (T.has_entries entries.now) items.old) }
    ensures { items.new ≡ each (T.renewed entries.now) items.old }
{
    for at in 0..items.len() {
        if let Some(item) = items.get_mut(at) {
            item.rewrite(entries);
        }
    }
}

/// Replaces each index that the functions name by its entry in `map`, in place (WebAssembly Core
/// 2.0, section 2.5.3). `map` needs an entry for each of these indices. The call takes no memory;
/// its recursion is as deep as the blocks of the bodies are nested.
pub fn renumber_funcs_in_place(funcs: &mut Items<Func>, map: &Remap)
    requires fits { IsTrue (list_all (fits_func map.now) funcs.old) }
    ensures { funcs.new ≡ each (new_func map.now) funcs.old }
{
    rewrite_each(funcs, map);
}

/// Replaces each index that the module names by its entry in `map` for its index space, in place
/// (WebAssembly Core 2.0, section 2.5.1); [`renumber`](crate::renumber) returns the same module as
/// a copy. Every list keeps its order and its length. `map` needs an entry for every index that the
/// module names. The call takes no memory; its recursion is as deep as the blocks of the bodies are
/// nested.
pub fn renumber_in_place(module: &mut Module, map: &Remap)
    requires entries { IsTrue (fits_tree map.now «module».old) }
    ensures tree { «module».new ≡ renumbered_tree map.now «module».old }
{
    rewrite_each(&mut module.imports, map);
    renumber_funcs_in_place(&mut module.funcs, map);
    rewrite_each(&mut module.globals, map);
    rewrite_each(&mut module.exports, map);
    module.start = renumber_start(module.start, map);
    rewrite_each(&mut module.elems, map);
    rewrite_each(&mut module.datas, map);
}
