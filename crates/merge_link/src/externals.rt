// The external types that imports ask for and that their ends have (WebAssembly Core 2.0, sections
// 2.5.11 and 3.2.7).

ghost use Rattle.std.specs.Prelude.{None, length, option_map, ◌≡◌, ◌≤◌};
ghost use Rattle.merge_spec.specs.Faults as faults;
ghost use Rattle.merge_spec.specs.Parts.{named_modules};
ghost use Rattle.wasm_tree.specs.Spaces.{index_of_export, space_of_export};
ghost use Rattle.wasm_meaning.specs.Linking as linking;
ghost use Rattle.wasm_tree.specs.SameTypes as types;
ghost use Rattle.wasm_meaning.specs.World as world;
ghost use Rattle.merge_link.specs.Sites.{ImportExists, the_site};
ghost use Rattle.merge_link.specs.Tables.{HasPlaces};
ghost use Rattle.merge_link.specs.PartTables.{ArePartTables, IsStop, the_end, the_entity};
ghost use Rattle.merge_link.specs.Externals.{own_func, own_global, own_memory, own_table, the_external};

use crate::part_tables::{Ending, Entity, PartTables};
use crate::sites::{Site, import_at};
use crate::tables::Table;
use wasm_tree::{
    ExportDesc, FuncType, GlobalType, Import, ImportDesc, Limits, Module, TableType, ValType,
};

/// An external type.
#[derive(Clone, Copy, Drop)]
pub enum External<'a> {
    Func(&'a FuncType),
    Table(TableType),
    Memory(Limits),
    Global(GlobalType),
}

fn same_types(a: &[ValType], b: &[ValType]) -> bool
    ensures { result ≡ types.same_types a.now b.now }
{
    a == b
}

fn same_func_type(a: &FuncType, b: &FuncType) -> bool
    ensures { result ≡ types.same_func_type a.now b.now }
{
    same_types(a.params.as_slice(), b.params.as_slice())
        && same_types(a.results.as_slice(), b.results.as_slice())
}

// Returns whether kind and type are the same, apart from the limits of tables and memories.
fn same_but_limits(demand: &External, found: &External) -> bool
    ensures { result ≡ faults.same_but_limits (the_external demand.now) (the_external found.now) }
{
    match (demand, found) {
        (External::Func(a), External::Func(b)) => same_func_type(a, b),
        (External::Table(a), External::Table(b)) => a.ty == b.ty,
        (External::Memory(_), External::Memory(_)) => true,
        (External::Global(a), External::Global(b)) => a.ty == b.ty && a.mutable == b.mutable,
        _ => false,
    }
}

// Returns whether a maximum meets the demand: if one is asked for, there is one, and it is no
// greater.
fn meets_most(most: Option<u32>, demand: Option<u32>) -> bool
    ensures { result ≡ world.meets_most most demand }
{
    match (most, demand) {
        (_, None) => true,
        (None, Some(_)) => false,
        (Some(most), Some(demand)) => most <= demand,
    }
}

fn meets(limits: Limits, demand: Limits) -> bool
    ensures { result ≡ world.meets limits.min limits.max demand }
{
    demand.min <= limits.min && meets_most(limits.max, demand.max)
}

fn meets_limits(demand: &External, found: &External) -> bool
    ensures { result ≡ faults.meets_limits (the_external demand.now) (the_external found.now) }
{
    match (demand, found) {
        (External::Table(demand), External::Table(table)) => meets(table.limits, demand.limits),
        (External::Memory(demand), External::Memory(memory)) => meets(*memory, *demand),
        _ => true,
    }
}

// Returns whether what is found at the end suits the demand. Limits are compared only if it is
// defined.
fn suits(demand: &External, end: Ending, found: &External) -> bool
    ensures { result ≡ faults.suits (the_external demand.now) (the_end end) (the_external found.now) }
{
    match end {
        Ending::Defined(_) => same_but_limits(demand, found) && meets_limits(demand, found),
        Ending::Outside(_) => same_but_limits(demand, found),
    }
}

// Returns what an import of the module asks for.
fn asked<'a>(module: &'a Module, import: &Import) -> Option<External<'a>>
    ensures { option_map the_external result ≡ faults.asked «module».now import.now.desc }
{
    match import.desc {
        ImportDesc::Func(ty) => match module.types.get(ty as usize) {
            None => None,
            Some(ty) => Some(External::Func(ty)),
        },
        ImportDesc::Table(ty) => Some(External::Table(ty)),
        ImportDesc::Memory(limits) => Some(External::Memory(limits)),
        ImportDesc::Global(ty) => Some(External::Global(ty)),
    }
}

// Returns the type of a function that the module defines, by its place among the defined ones.
fn defined_func<'a>(module: &'a Module, place: usize) -> Option<External<'a>>
    ensures { option_map the_external result ≡ own_func «module».now place }
{
    match module.funcs.get(place) {
        None => None,
        Some(func) => match module.types.get(func.ty as usize) {
            None => None,
            Some(ty) => Some(External::Func(ty)),
        },
    }
}

fn defined_table<'a>(module: &'a Module, place: usize) -> Option<External<'a>>
    ensures { option_map the_external result ≡ own_table «module».now place }
{
    match module.tables.get(place) {
        None => None,
        Some(table) => Some(External::Table(*table)),
    }
}

fn defined_memory<'a>(module: &'a Module, place: usize) -> Option<External<'a>>
    ensures { option_map the_external result ≡ own_memory «module».now place }
{
    match module.mems.get(place) {
        None => None,
        Some(limits) => Some(External::Memory(*limits)),
    }
}

fn defined_global<'a>(module: &'a Module, place: usize) -> Option<External<'a>>
    ensures { option_map the_external result ≡ own_global «module».now place }
{
    match module.globals.get(place) {
        None => None,
        Some(global) => Some(External::Global(global.ty)),
    }
}

// Returns the external type of an entry that the module defines.
fn defined<'a>(module: &'a Module, table: &Table, what: ExportDesc) -> Option<External<'a>>
    requires places { HasPlaces «module».now table.now }
    requires own { length (linking.imports_of (space_of_export what) «module».now) ≤ index_of_export what }
    ensures { option_map the_external result ≡ faults.external_of «module».now what }
{
    let place = what.index() as usize - table.imported(what.space());
    match what {
        ExportDesc::Func(_) => defined_func(module, place),
        ExportDesc::Table(_) => defined_table(module, place),
        ExportDesc::Memory(_) => defined_memory(module, place),
        ExportDesc::Global(_) => defined_global(module, place),
    }
}

impl<'a> PartTables<'a> {
    // Returns what the import at a place asks for.
    fn asked_at(&self, site: Site) -> Option<External<'a>>
        requires { ImportExists self.now.parts.now site }
        ensures { option_map the_external result ≡ faults.asked_at (named_modules self.now.parts.now) (the_site site) }
    {
        let import = import_at(self.parts, site);
        asked(self.parts[site.part as usize].module.module(), import)
    }

    // Returns the external type of an entity that its part defines.
    fn defined_at(&self, entity: Entity) -> Option<External<'a>>
        requires joining { ArePartTables self.now }
        requires own { linking.imported_as (named_modules self.now.parts.now) (the_entity entity) ≡ None }
        ensures { option_map the_external result ≡ faults.found (named_modules self.now.parts.now) (linking.Defined (the_entity entity)) }
    {
        match self.tables.get(entity.part as usize) {
            None => None,
            Some(table) => {
                let module = self.parts[entity.part as usize].module.module();
                defined(module, table, entity.what)
            }
        }
    }

    // Returns the external type that is found at an end.
    fn found(&self, end: Ending) -> Option<External<'a>>
        requires joining { ArePartTables self.now }
        requires stop { IsStop (named_modules self.now.parts.now) (the_end end) }
        ensures { option_map the_external result ≡ faults.found (named_modules self.now.parts.now) (the_end end) }
    {
        match end {
            Ending::Defined(entity) => self.defined_at(entity),
            Ending::Outside(site) => self.asked_at(site),
        }
    }

    /// Returns whether an import's end is what it asks for.
    pub fn is_suited(&self, site: Site, end: Ending) -> bool
        requires joining { ArePartTables self.now }
        requires there { ImportExists self.now.parts.now site }
        requires stop { IsStop (named_modules self.now.parts.now) (the_end end) }
        ensures { result ≡ faults.is_suited (named_modules self.now.parts.now) (the_site site) (the_end end) }
    {
        match self.asked_at(site) {
            None => false,
            Some(demand) => match self.found(end) {
                None => false,
                Some(found) => suits(&demand, end, &found),
            },
        }
    }
}
