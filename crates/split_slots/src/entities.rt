// What a module has in its index spaces.

ghost use Rattle.std.specs.Prelude.{◌≡◌, ◌++◌, [], map, IfOk, OnOk};
ghost use Rattle.std.specs.List.{cons_option};
ghost use Rattle.wasm_tree.specs.declared.module.ImportDesc.TheVariants as im;
ghost use Rattle.split_spec.specs.FromPrimary as spec;
ghost use Rattle.split_slots.specs.EntityDescriptions.{defined_in, desc_in, imported_in};

use std::alloc::Global;
use wasm_bytes::{Items, NoMemory};
use wasm_tree::{Func, GlobalDef, Import, ImportDesc, Limits, Module, Space, TableType};

fn add_import(all: &mut Items<ImportDesc>, import: &Import, space: Space) -> Result<(), NoMemory>
    ensures { OnOk result (all.new ≡ all.old ++ cons_option (desc_in space import.now.desc) []) }
{
    if import.desc.is_in(space) {
        return all.keep(import.desc);
    }
    Ok(())
}

fn add_imported(
    all: &mut Items<ImportDesc>,
    imports: &[Import],
    space: Space,
) -> Result<(), NoMemory>
    ensures { OnOk result (all.new ≡ all.old ++ imported_in space imports.now) }
{
    for import in imports {
        add_import(all, import, space)?;
    }
    Ok(())
}

fn add_funcs(all: &mut Items<ImportDesc>, funcs: &[Func]) -> Result<(), NoMemory>
    ensures { OnOk result (all.new ≡ all.old ++ map (λ f. im.Func f.ty) funcs.now) }
{
    for func in funcs {
        all.keep(ImportDesc::Func(func.ty))?;
    }
    Ok(())
}

fn add_tables(all: &mut Items<ImportDesc>, tables: &[TableType]) -> Result<(), NoMemory>
    ensures { OnOk result (all.new ≡ all.old ++ map (λ t. im.Table t) tables.now) }
{
    for table in tables {
        all.keep(ImportDesc::Table(*table))?;
    }
    Ok(())
}

fn add_memories(all: &mut Items<ImportDesc>, mems: &[Limits]) -> Result<(), NoMemory>
    ensures { OnOk result (all.new ≡ all.old ++ map (λ l. im.Memory l) mems.now) }
{
    for limits in mems {
        all.keep(ImportDesc::Memory(*limits))?;
    }
    Ok(())
}

fn add_globals(all: &mut Items<ImportDesc>, globals: &[GlobalDef]) -> Result<(), NoMemory>
    ensures { OnOk result (all.new ≡ all.old ++ map (λ g. im.Global g.ty) globals.now) }
{
    for global in globals {
        all.keep(ImportDesc::Global(global.ty))?;
    }
    Ok(())
}

// Adds what the module defines in an index space.
fn add_defined(all: &mut Items<ImportDesc>, module: &Module, space: Space) -> Result<(), NoMemory>
    ensures { OnOk result (all.new ≡ all.old ++ defined_in «module».now space) }
{
    match space {
        Space::Functions => add_funcs(all, module.funcs.as_slice()),
        Space::Tables => add_tables(all, module.tables.as_slice()),
        Space::Memories => add_memories(all, module.mems.as_slice()),
        Space::Globals => add_globals(all, module.globals.as_slice()),
        Space::Types | Space::ElementSegments | Space::DataSegments => Ok(()),
    }
}

/// Returns the functions, tables, memories or globals of the module, each as an import would
/// describe it, and nothing for types and segments.
pub(crate) fn entities(
    alloc: Global,
    module: &Module,
    space: Space,
) -> Result<Items<ImportDesc>, NoMemory>
    ensures { IfOk result (λ all. all ≡ spec.entities «module».now space) }
{
    let mut all = Items::new(alloc);
    add_imported(&mut all, module.imports.as_slice(), space)?;
    add_defined(&mut all, module, space)?;
    Ok(all)
}
