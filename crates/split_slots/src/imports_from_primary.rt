// What the secondary module imports from the primary one.

ghost use Rattle.std.specs.Prelude.{◌≡◌, ◌++◌, ◌≤◌, ◌<◌, ◌^◌, [], length, IfOk, OnOk};
ghost use Rattle.std.specs.List.{cons_option, filter_map};
ghost use Rattle.base_lists.specs.Places.{places};
ghost use Rattle.wasm_tree.specs.declared.module.ImportDesc.TheVariants.{Table as IsTable};
ghost use Rattle.split_spec.specs.FromPrimary as spec;
ghost use Rattle.split_spec.specs.SplitSlots as slots;
ghost use Rattle.split_slots.specs.ImportList.{import_of, imports_by};

use crate::entities::entities;
use crate::exports::{name_from_primary, slots_name};
use crate::named_entities::Marks;
use crate::slot_table_items::slot_table_type;
use split_spec::SplitNames;
use std::alloc::Global;
use wasm_bytes::{Items, NoMemory};
use wasm_tree::{Import, ImportDesc, Module, Space};

// Returns the import of the entity at an index.
fn shared_import(
    alloc: Global,
    names: &SplitNames,
    space: Space,
    index: u32,
    desc: ImportDesc,
) -> Result<Import, NoMemory>
    ensures { IfOk result (λ import. import ≡ record { «module» = names.now.import_namespace; field = spec.name_from_primary names.now.export_prefix space index; desc = desc }) }
{
    Ok(Import {
        module: names.import_namespace.copy(alloc)?,
        field: name_from_primary(alloc, &names.export_prefix, space, index)?,
        desc,
    })
}

// Adds an import of the entity at index `at`, if there is one.
fn add_one(
    alloc: Global,
    imports: &mut Items<Import>,
    names: &SplitNames,
    space: Space,
    entities: &[ImportDesc],
    at: usize,
) -> Result<(), NoMemory>
    requires few { at < 2 ^ 32 }
    ensures { OnOk result (imports.new ≡ imports.old ++ cons_option (import_of names.now space entities.now at) []) }
{
    match entities.get(at) {
        Some(desc) => imports.keep(shared_import(alloc, names, space, at as u32, *desc)?),
        None => Ok(()),
    }
}

// Adds an import of each marked entity.
fn add_marked(
    alloc: Global,
    imports: &mut Items<Import>,
    names: &SplitNames,
    space: Space,
    entities: &[ImportDesc],
    marks: &[bool],
) -> Result<(), NoMemory>
    requires few { length marks.now ≤ 2 ^ 32 }
    ensures { OnOk result (imports.new ≡ imports.old ++ filter_map (import_of names.now space entities.now) (places (λ named. named) marks.now 0)) }
{
    for at in 0..marks.len() {
        if marks[at] {
            add_one(alloc, imports, names, space, entities, at)?;
        }
    }
    Ok(())
}

// Adds an import of each marked entity of the space.
fn add_shared(
    alloc: Global,
    imports: &mut Items<Import>,
    names: &SplitNames,
    module: &Module,
    space: Space,
    marks: &[bool],
) -> Result<(), NoMemory>
    requires few { length marks.now ≤ 2 ^ 32 }
    ensures { OnOk result (imports.new ≡ imports.old ++ spec.imports_from_primary names.now.import_namespace names.now.export_prefix «module».now space (places (λ named. named) marks.now 0)) }
{
    let all = entities(alloc, module, space)?;
    add_marked(alloc, imports, names, space, all.as_slice(), marks)
}

// Returns the import of the slot table, which has `count` slots.
fn slots_import(alloc: Global, names: &SplitNames, count: u32) -> Result<Import, NoMemory>
    ensures { IfOk result (λ import. import ≡ record { «module» = names.now.import_namespace; field = spec.slots_name names.now.export_prefix; desc = IsTable (slots.slot_table_type count) }) }
{
    Ok(Import {
        module: names.import_namespace.copy(alloc)?,
        field: slots_name(alloc, &names.export_prefix)?,
        desc: ImportDesc::Table(slot_table_type(count)),
    })
}

/// Returns what the secondary module imports from the primary one: the marked functions, the marked
/// tables, the slot table with `count` slots, the marked memories and the marked globals
/// (WebAssembly Core 2.0, section 2.5.11). Each import has the name of the primary module's export.
/// The only error is `NoMemory`.
pub(crate) fn secondary_imports(
    alloc: Global,
    names: &SplitNames,
    module: &Module,
    marks: &Marks,
    count: u32,
) -> Result<Items<Import>, NoMemory>
    requires funcs { length marks.now.funcs.items ≤ 2 ^ 32 }
    requires tables { length marks.now.tables.items ≤ 2 ^ 32 }
    requires mems { length marks.now.mems.items ≤ 2 ^ 32 }
    requires globals { length marks.now.globals.items ≤ 2 ^ 32 }
    ensures { IfOk result (λ all. all ≡ imports_by names.now «module».now marks.now count) }
{
    let mut all = Items::new(alloc);
    add_shared(
        alloc,
        &mut all,
        names,
        module,
        Space::Functions,
        &marks.funcs,
    )?;
    add_shared(alloc, &mut all, names, module, Space::Tables, &marks.tables)?;
    all.keep(slots_import(alloc, names, count)?)?;
    add_shared(alloc, &mut all, names, module, Space::Memories, &marks.mems)?;
    add_shared(
        alloc,
        &mut all,
        names,
        module,
        Space::Globals,
        &marks.globals,
    )?;
    Ok(all)
}
