// The index spaces of a module, each computed once.

ghost use Rattle.std.specs.Prelude.{◌≡◌, [], length, map, IfOk};
ghost use Rattle.wasm_tree.specs.Spaces.{funcs_of, tables_of, memories_of, globals_of, imported_funcs, imported_tables, imported_globals};
ghost use Rattle.wasm_valid.specs.Named.{named_of};
ghost use Rattle.wasm_valid.specs.Names.{repeats_after};
ghost use Rattle.wasm_valid.specs.SpaceTypes.{table_types, elem_types};

use crate::named::named_funcs;
use crate::repeated::repeated_names;
use std::alloc::{AllocError, Global};
use wasm_tree::{GlobalType, Import, Module, RefType, TableType};

/// A module with what its items are validated against.
#[derive(Drop)]
pub struct Spaces<'a> {
    pub module: &'a Module,
    /// The type index of each function.
    pub funcs: Vec<u32>,
    /// The reference type of each table.
    pub tables: Vec<RefType>,
    /// The number of memories.
    pub memories: usize,
    pub globals: Vec<GlobalType>,
    /// The number of imported globals.
    pub global_imports: usize,
    /// The reference type of each element segment.
    pub elems: Vec<RefType>,
    /// For each function, whether `ref.func` may name it in a body.
    pub named: Vec<bool>,
    /// For each export, whether an earlier one has its name.
    pub repeated: Vec<bool>,
    ghost funcs_are: { funcs.items ≡ funcs_of module.now },
    ghost tables_are: { tables.items ≡ table_types module.now },
    ghost memories_are: { memories ≡ length (memories_of module.now) },
    ghost globals_are: { globals.items ≡ globals_of module.now },
    ghost global_imports_are: { global_imports ≡ length (imported_globals module.now.imports) },
    ghost elems_are: { elems.items ≡ elem_types module.now.elems },
    ghost named_are: { named.items ≡ named_of module.now },
    ghost repeated_are: { repeated.items ≡ repeats_after [] (map (λ e. e.name) module.now.exports) },
}

impl<'a> Spaces<'a> {
    /// Computes the index spaces and marks of a module.
    pub fn new(alloc: Global, module: &'a Module) -> Result<Spaces<'a>, AllocError>
        ensures { IfOk result (λ spaces. spaces.module.now ≡ «module».now) }
    {
        let funcs = func_types(alloc, module)?;
        let tables = table_types(alloc, module)?;
        let globals = global_types(alloc, module)?;
        let elems = elem_types(alloc, module)?;
        let named = named_funcs(alloc, module, funcs.len())?;
        let repeated = repeated_names(alloc, module.exports.as_slice())?;
        Ok(Spaces {
            module,
            funcs,
            tables,
            memories: module.memory_space(),
            globals,
            global_imports: module.imported_globals(),
            elems,
            named,
            repeated,
        })
    }
}

fn imported_funcs(alloc: Global, imports: &[Import]) -> Result<Vec<u32>, AllocError>
    ensures { IfOk result (λ all. all.items ≡ imported_funcs imports.now) }
{
    imports
        .iter()
        .filter_map(|import| import.desc.func())
        .collect(alloc)
}

fn imported_tables(alloc: Global, imports: &[Import]) -> Result<Vec<TableType>, AllocError>
    ensures { IfOk result (λ all. all.items ≡ imported_tables imports.now) }
{
    imports
        .iter()
        .filter_map(|import| import.desc.table())
        .collect(alloc)
}

fn imported_globals(alloc: Global, imports: &[Import]) -> Result<Vec<GlobalType>, AllocError>
    ensures { IfOk result (λ all. all.items ≡ imported_globals imports.now) }
{
    imports
        .iter()
        .filter_map(|import| import.desc.global())
        .collect(alloc)
}

fn func_types(alloc: Global, module: &Module) -> Result<Vec<u32>, AllocError>
    ensures { IfOk result (λ all. all.items ≡ funcs_of «module».now) }
{
    let mut all = imported_funcs(alloc, module.imports.as_slice())?;
    for func in module.funcs.as_slice() {
        all.push(func.ty)?;
    }
    Ok(all)
}

fn all_tables(alloc: Global, module: &Module) -> Result<Vec<TableType>, AllocError>
    ensures { IfOk result (λ all. all.items ≡ tables_of «module».now) }
{
    let mut all = imported_tables(alloc, module.imports.as_slice())?;
    all.extend_from_slice(module.tables.as_slice())?;
    Ok(all)
}

fn table_types(alloc: Global, module: &Module) -> Result<Vec<RefType>, AllocError>
    ensures { IfOk result (λ all. all.items ≡ table_types «module».now) }
{
    let tables = all_tables(alloc, module)?;
    tables.iter().map(|table| table.ty).collect(alloc)
}

fn global_types(alloc: Global, module: &Module) -> Result<Vec<GlobalType>, AllocError>
    ensures { IfOk result (λ all. all.items ≡ globals_of «module».now) }
{
    let mut all = imported_globals(alloc, module.imports.as_slice())?;
    for global in module.globals.as_slice() {
        all.push(global.ty)?;
    }
    Ok(all)
}

fn elem_types(alloc: Global, module: &Module) -> Result<Vec<RefType>, AllocError>
    ensures { IfOk result (λ all. all.items ≡ elem_types «module».now.elems) }
{
    module
        .elems
        .as_slice()
        .iter()
        .map(|segment| segment.ty)
        .collect(alloc)
}
