// The index spaces of a module: first the imports, in order, and then the definitions (WebAssembly
// Core 2.0, section 2.5.1).

ghost use Rattle.std.specs.Prelude.{◌≡◌, ◌<◌, ◌≤◌, ◌^◌, ◌↔◌, ◌⊎◌, ℕ, Some, length, IsNone, option_copied, slice_get};
ghost use Rattle.wasm_tree.specs.Operands.{same_space};
ghost use Rattle.wasm_tree.specs.Spaces.{
  space_of_import,
  space_of_export,
  index_of_export,
  func_of,
  table_of,
  memory_of,
  global_of,
  imported_funcs,
  imported_tables,
  imported_memories,
  imported_globals,
  funcs_of,
  tables_of,
  memories_of,
  globals_of,
  type_of_func,
};

use crate::module::{ExportDesc, ImportDesc, Module};
use crate::space::Space;
use crate::types::{FuncType, GlobalType, Limits, TableType};

impl ImportDesc {
    /// Returns the index space to which the import adds.
    pub fn space(&self) -> Space
        ensures { result ≡ space_of_import self.now }
    {
        match self {
            ImportDesc::Func(_) => Space::Functions,
            ImportDesc::Table(_) => Space::Tables,
            ImportDesc::Memory(_) => Space::Memories,
            ImportDesc::Global(_) => Space::Globals,
        }
    }

    /// Returns whether the import adds to `space`.
    pub fn is_in(&self, space: Space) -> bool
        ensures { result ≡ same_space space (space_of_import self.now) }
    {
        match self {
            ImportDesc::Func(_) => space == Space::Functions,
            ImportDesc::Table(_) => space == Space::Tables,
            ImportDesc::Memory(_) => space == Space::Memories,
            ImportDesc::Global(_) => space == Space::Globals,
        }
    }

    /// Returns the type index of an imported function, and `None` for another kind of import.
    pub fn func(&self) -> Option<u32>
        ensures { result ≡ func_of self.now }
    {
        match self {
            ImportDesc::Func(ty) => Some(*ty),
            _ => None,
        }
    }

    /// Returns the type of an imported table, and `None` for another kind of import.
    pub fn table(&self) -> Option<TableType>
        ensures { result ≡ table_of self.now }
    {
        match self {
            ImportDesc::Table(ty) => Some(*ty),
            _ => None,
        }
    }

    /// Returns the limits of an imported memory, and `None` for another kind of import.
    pub fn memory(&self) -> Option<Limits>
        ensures { result ≡ memory_of self.now }
    {
        match self {
            ImportDesc::Memory(limits) => Some(*limits),
            _ => None,
        }
    }

    /// Returns the type of an imported global, and `None` for another kind of import.
    pub fn global(&self) -> Option<GlobalType>
        ensures { result ≡ global_of self.now }
    {
        match self {
            ImportDesc::Global(ty) => Some(*ty),
            _ => None,
        }
    }
}

impl ExportDesc {
    /// Returns the index space of what is exported.
    pub fn space(&self) -> Space
        ensures { result ≡ space_of_export self.now }
    {
        match self {
            ExportDesc::Func(_) => Space::Functions,
            ExportDesc::Table(_) => Space::Tables,
            ExportDesc::Memory(_) => Space::Memories,
            ExportDesc::Global(_) => Space::Globals,
        }
    }

    /// Returns the index of what is exported, in its index space.
    pub fn index(&self) -> u32
        ensures { result ≡ index_of_export self.now }
    {
        match self {
            ExportDesc::Func(index)
            | ExportDesc::Table(index)
            | ExportDesc::Memory(index)
            | ExportDesc::Global(index) => *index,
        }
    }
}

impl Module {
    /// Returns how many functions the module imports.
    #[tactic(auto, using(base_lists::proofs::Filtered::filter_map_most))]
    pub fn imported_funcs(&self) -> usize
        ensures value { result ≡ length (imported_funcs self.now.imports) }
        // so that the number of defined functions can be added
        ensures few { result < 2 ^ 63 }
    {
        let imports = self.imports.as_slice().iter();
        imports.filter_map(|import| import.desc.func()).count()
    }

    /// Returns how many tables the module imports.
    #[tactic(auto, using(base_lists::proofs::Filtered::filter_map_most))]
    pub fn imported_tables(&self) -> usize
        ensures value { result ≡ length (imported_tables self.now.imports) }
        ensures few { result < 2 ^ 63 }
    {
        let imports = self.imports.as_slice().iter();
        imports.filter_map(|import| import.desc.table()).count()
    }

    /// Returns how many memories the module imports.
    #[tactic(auto, using(base_lists::proofs::Filtered::filter_map_most))]
    pub fn imported_memories(&self) -> usize
        ensures value { result ≡ length (imported_memories self.now.imports) }
        ensures few { result < 2 ^ 63 }
    {
        let imports = self.imports.as_slice().iter();
        imports.filter_map(|import| import.desc.memory()).count()
    }

    /// Returns how many globals the module imports.
    #[tactic(auto, using(base_lists::proofs::Filtered::filter_map_most))]
    pub fn imported_globals(&self) -> usize
        ensures value { result ≡ length (imported_globals self.now.imports) }
        ensures few { result < 2 ^ 63 }
    {
        let imports = self.imports.as_slice().iter();
        imports.filter_map(|import| import.desc.global()).count()
    }

    /// Returns how many functions there are, imported and defined (WebAssembly Core 2.0, section
    /// 2.5.1).
    pub fn func_space(&self) -> usize
        ensures { result ≡ length (funcs_of self.now) }
    {
        self.imported_funcs() + self.funcs.as_slice().len()
    }

    /// Returns how many tables there are, imported and defined.
    pub fn table_space(&self) -> usize
        ensures { result ≡ length (tables_of self.now) }
    {
        self.imported_tables() + self.tables.as_slice().len()
    }

    /// Returns how many memories there are, imported and defined.
    pub fn memory_space(&self) -> usize
        ensures { result ≡ length (memories_of self.now) }
    {
        self.imported_memories() + self.mems.as_slice().len()
    }

    /// Returns how many globals there are, imported and defined.
    pub fn global_space(&self) -> usize
        ensures { result ≡ length (globals_of self.now) }
    {
        self.imported_globals() + self.globals.as_slice().len()
    }

    /// Returns the type index of function `func`, and `None` exactly if there is no such function.
    pub fn type_index(&self, func: u32) -> Option<u32>
        ensures value { result ≡ slice_get (funcs_of self.now) func }
    {
        let mut left = func as usize;
        for import in self.imports.as_slice() {
            if let ImportDesc::Func(ty) = &import.desc {
                if left == 0 {
                    return Some(*ty);
                }
                left -= 1;
            }
        }
        match self.funcs.get(left) {
            Some(func) => Some(func.ty),
            None => None,
        }
    }

    /// Returns the type of function `func`. The result is `None` exactly if there is no such
    /// function, or if its type index is out of range.
    pub fn type_of_func(&self, func: u32) -> Option<&FuncType>
        ensures value { option_copied result ≡ type_of_func self.now func }
        ensures none { IsNone result ↔ ((length (funcs_of self.now) ≤ func) ⊎ (ty : ℕ) × (slice_get (funcs_of self.now) func ≡ Some ty) × (length self.now.types ≤ ty)) }
    {
        match self.type_index(func) {
            Some(ty) => self.types.get(ty as usize),
            None => None,
        }
    }

    /// Returns the type of table `table`, and `None` exactly if there is no such table.
    pub fn table_type(&self, table: u32) -> Option<&TableType>
        ensures value { option_copied result ≡ slice_get (tables_of self.now) table }
        ensures none { IsNone result ↔ (length (tables_of self.now) ≤ table) }
    {
        let mut left = table as usize;
        for import in self.imports.as_slice() {
            if let ImportDesc::Table(ty) = &import.desc {
                if left == 0 {
                    return Some(ty);
                }
                left -= 1;
            }
        }
        self.tables.get(left)
    }

    /// Returns the limits of memory `memory`, and `None` exactly if there is no such memory.
    pub fn memory_limits(&self, memory: u32) -> Option<&Limits>
        ensures value { option_copied result ≡ slice_get (memories_of self.now) memory }
        ensures none { IsNone result ↔ (length (memories_of self.now) ≤ memory) }
    {
        let mut left = memory as usize;
        for import in self.imports.as_slice() {
            if let ImportDesc::Memory(limits) = &import.desc {
                if left == 0 {
                    return Some(limits);
                }
                left -= 1;
            }
        }
        self.mems.get(left)
    }

    /// Returns the type of global `global`, and `None` exactly if there is no such global.
    pub fn global_type(&self, global: u32) -> Option<&GlobalType>
        ensures value { option_copied result ≡ slice_get (globals_of self.now) global }
        ensures none { IsNone result ↔ (length (globals_of self.now) ≤ global) }
    {
        let mut left = global as usize;
        for import in self.imports.as_slice() {
            if let ImportDesc::Global(ty) = &import.desc {
                if left == 0 {
                    return Some(ty);
                }
                left -= 1;
            }
        }
        match self.globals.get(left) {
            Some(global) => Some(&global.ty),
            None => None,
        }
    }
}
