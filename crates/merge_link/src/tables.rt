// The look-up table of each part: the places of its imports in its index spaces, what its exports
// denote, and the numbers of its first import and of its first defined global among those of all
// parts.

ghost use Rattle.std.specs.Prelude.{IfOk, List, Some, length, slice_get, ℕ, ◌<◌, ◌^◌, ◌≡◌};
ghost use Rattle.std.specs.Option.{option_copied};
ghost use Rattle.std.specs.Ordering.{nat_cmp};
ghost use Rattle.std.specs.BTreeMap.{get_by};
ghost use Rattle.std.specs.Cmp.Lexicographic.{slice_cmp};
ghost use Rattle.merge_spec.specs.Faults.{defined_globals};
ghost use Rattle.merge_spec.specs.Parts.{named_modules};
ghost use Rattle.wasm_meaning.specs.Linking as linking;
ghost use Rattle.merge_link.specs.Tables.{AreIndices, AreNames, AreTables, IsTableOf, imports_before, places_of};

use merge_spec::Part;
use std::alloc::Global;
use std::collections::BTreeMap;
use wasm_bytes::NoMemory;
use wasm_tree::{Export, ExportDesc, Import, Module, Space};

/// The look-up table of a part.
#[derive(Drop)]
pub struct Table<'a> {
    exports: BTreeMap<&'a str, ExportDesc>,
    funcs: Vec<u32>,
    tables: Vec<u32>,
    memories: Vec<u32>,
    globals: Vec<u32>,
    indices: Vec<u32>,
    first_import: u32,
    first_global: u32,
}

// Returns what each name denotes. The loop runs backwards, so that the first export with a name
// counts.
fn exported<'a>(
    alloc: Global,
    exports: &'a [Export],
) -> Result<BTreeMap<&'a str, ExportDesc>, NoMemory>
    ensures { IfOk result (λ map. (name : List ℕ) → get_by (λ k. slice_cmp nat_cmp name k.now) map ≡ linking.export_named exports.now name) }
{
    let mut map = BTreeMap::new(alloc);
    for at in (0..exports.len()).rev() {
        let export = &exports[at];
        map.insert(export.name.as_str(), export.desc)?;
    }
    Ok(map)
}

// Returns the places of the imports that belong to an index space.
fn places(alloc: Global, imports: &[Import], space: Space) -> Result<Vec<u32>, NoMemory>
    requires { length imports.now < 2 ^ 32 }
    ensures { IfOk result (λ places. places.items ≡ linking.places (linking.has_kind space) imports.now 0) }
{
    let mut places = Vec::new(alloc);
    for (at, import) in imports.iter().enumerate() {
        if import.desc.is_in(space) {
            places.push(at as u32)?;
        }
    }
    Ok(places)
}

// Returns for each import how many globals are imported before it.
fn global_indices(alloc: Global, imports: &[Import]) -> Result<Vec<u32>, NoMemory>
    requires { length imports.now < 2 ^ 32 }
    ensures { IfOk result (λ indices. AreIndices imports.now indices.items) }
{
    let mut indices = Vec::new(alloc);
    let mut count: u32 = 0;
    for import in imports {
        indices.push(count)?;
        if import.desc.is_in(Space::Globals) {
            count += 1;
        }
    }
    Ok(indices)
}

fn table_of<'a>(
    alloc: Global,
    module: &'a Module,
    first_import: u32,
    first_global: u32,
) -> Result<Table<'a>, NoMemory>
    requires { length «module».now.imports < 2 ^ 32 }
    ensures { IfOk result (IsTableOf first_import first_global «module».now) }
{
    let imports = module.imports.as_slice();
    Ok(Table {
        exports: exported(alloc, module.exports.as_slice())?,
        funcs: places(alloc, imports, Space::Functions)?,
        tables: places(alloc, imports, Space::Tables)?,
        memories: places(alloc, imports, Space::Memories)?,
        globals: places(alloc, imports, Space::Globals)?,
        indices: global_indices(alloc, imports)?,
        first_import,
        first_global,
    })
}

/// Returns the look-up table of each part.
pub fn all_tables<'a>(alloc: Global, parts: &'a [Part]) -> Result<Vec<Table<'a>>, NoMemory>
    requires imports { length (linking.sites (named_modules parts.now)) < 2 ^ 32 }
    requires globals { length (defined_globals (named_modules parts.now)) < 2 ^ 32 }
    ensures { IfOk result (λ tables. AreTables (named_modules parts.now) tables.items) }
{
    let mut tables = Vec::new(alloc);
    let mut first_import: u32 = 0;
    let mut first_global: u32 = 0;
    for part in parts {
        let module = part.module.module();
        let table = table_of(alloc, module, first_import, first_global)?;
        tables.push(table)?;
        first_import += module.imports.len() as u32;
        first_global += module.globals.len() as u32;
    }
    Ok(tables)
}

/// Returns the part of each name, or the first if several have it.
pub fn all_names<'a>(alloc: Global, parts: &'a [Part]) -> Result<BTreeMap<&'a str, u32>, NoMemory>
    requires { length parts.now < 2 ^ 32 }
    ensures { IfOk result (λ names. AreNames (named_modules parts.now) names) }
{
    let mut map = BTreeMap::new(alloc);
    for at in (0..parts.len()).rev() {
        map.insert(parts[at].name.as_str(), at as u32)?;
    }
    Ok(map)
}

impl<'a> Table<'a> {
    /// Returns what the export of this name denotes, if there is one.
    pub fn export(&self, name: &str) -> Option<ExportDesc>
        ensures { result ≡ get_by (λ k. slice_cmp nat_cmp name.now k.now) self.now.exports }
    {
        self.exports.get(name).copied()
    }

    /// Returns the place in the import section of an entry of an index space, if it is imported.
    pub fn import_place(&self, space: Space, index: u32) -> Option<u32>
        ensures { result ≡ slice_get (places_of self.now space) index }
    {
        let places = match space {
            Space::Functions => &self.funcs,
            Space::Tables => &self.tables,
            Space::Memories => &self.memories,
            Space::Globals => &self.globals,
            Space::Types | Space::ElementSegments | Space::DataSegments => return None,
        };
        places.get(index as usize).copied()
    }

    /// Returns how many entries of an index space are imported.
    pub fn imported(&self, space: Space) -> usize
        ensures { result ≡ length (places_of self.now space) }
    {
        match space {
            Space::Functions => self.funcs.len(),
            Space::Tables => self.tables.len(),
            Space::Memories => self.memories.len(),
            Space::Globals => self.globals.len(),
            Space::Types | Space::ElementSegments | Space::DataSegments => 0,
        }
    }

    /// Returns how many globals are imported before the import at a place: its global index, if it
    /// is a global.
    pub fn global_index(&self, place: u32) -> u32
        requires { place < length self.now.indices.items }
        ensures { slice_get self.now.indices.items place ≡ Some result }
    {
        self.indices[place as usize]
    }

    /// Returns the number of the part's first import among those of all parts.
    pub fn first_import(&self) -> u32
        ensures { result ≡ self.now.first_import }
    {
        self.first_import
    }

    /// Returns the number of the part's first defined global among those of all parts.
    pub fn first_global(&self) -> u32
        ensures { result ≡ self.now.first_global }
    {
        self.first_global
    }
}
