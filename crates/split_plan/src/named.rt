// A table of the names that stand for defined functions.

ghost use Rattle.std.specs.Prelude.{◌≡◌, ◌&&◌, ℕ, List, length, Some, IfOk, OnOk, cond, nat_le, nat_lt, option_map};
ghost use Rattle.std.specs.Str.{bytes_eq};
ghost use Rattle.wasm_tree.specs.Spaces.{imported_funcs, funcs_of, index_of_export, space_of_export};
ghost use Rattle.wasm_tree.specs.Operands.{same_space};
ghost use Rattle.wasm_tree.specs.declared.space.Space.TheVariants.{Functions};
ghost use Rattle.split_plan.specs.NamedFunctions.{exported_among};
ghost use Rattle.split_plan.specs.NameTable.{entry_of, held_of, func_in, once_more};
ghost use Rattle.split_plan.specs.declared.named.Named.TheVariants.{Exported as IsExported};

use std::alloc::Global;
use std::collections::HashMap;
use wasm_bytes::NoMemory;
use wasm_names::FuncName;
use wasm_tree::{Export, Module, Space};

/// What the table has for a name.
#[derive(Clone, Copy, Drop)]
pub enum Named {
    /// The one defined function with this name in the name list.
    InNameList(u32),
    /// Several entries of the name list give this name to defined functions.
    Shared,
    /// No defined function has this name in the name list, and this one is exported under it.
    Exported(u32),
}

impl Named {
    /// Returns the function, or `None` if the name is shared.
    pub fn func(self) -> Option<u32>
        ensures { result ≡ func_in (Some self) }
    {
        match self {
            Named::InNameList(func) | Named::Exported(func) => Some(func),
            Named::Shared => None,
        }
    }
}

/// The indices of the defined functions of a module: from `first` on, before `end`.
#[derive(Clone, Copy, Drop)]
struct Defined {
    first: usize,
    end: usize,
}

impl Defined {
    fn has(self, func: u32) -> bool
        ensures { result ≡ nat_le self.first func && nat_lt func self.end }
    {
        self.first <= func as usize && (func as usize) < self.end
    }

    fn has_export(self, export: &Export) -> bool
        ensures { result ≡ same_space (space_of_export export.now.desc) Functions && (nat_le self.first (index_of_export export.now.desc) && nat_lt (index_of_export export.now.desc) self.end) }
    {
        export.desc.space() == Space::Functions && self.has(export.desc.index())
    }
}

// Enters the exported defined functions, from the last export to the first, so that of several
// exports with one name the first stays.
fn exported<'a>(
    alloc: Global,
    module: &'a Module,
    defined: Defined,
) -> Result<HashMap<&'a str, Named>, NoMemory>
    requires first { defined.first ≡ length (imported_funcs «module».now.imports) }
    requires end { defined.end ≡ length (funcs_of «module».now) }
    ensures { IfOk result (λ table. (word : List ℕ) → held_of table word ≡ option_map IsExported (exported_among «module».now «module».now.exports word)) }
{
    let exports = module.exports.as_slice();
    let mut table = HashMap::new(alloc);
    for at in (0..exports.len()).rev() {
        let export = &exports[at];
        if defined.has_export(export) {
            table.insert(export.name.as_str(), Named::Exported(export.desc.index()))?;
        }
    }
    Ok(table)
}

// Returns the new entry of a name, after the name list gives it to one more defined function.
fn once_more(entry: Option<Named>, func: u32) -> Named
    ensures { Some result ≡ once_more func entry }
{
    match entry {
        None | Some(Named::Exported(_)) => Named::InNameList(func),
        Some(Named::InNameList(_)) | Some(Named::Shared) => Named::Shared,
    }
}

// Enters that the name list gives the name to one more defined function.
fn enter<'a>(table: &mut HashMap<&'a str, Named>, name: &'a str, func: u32) -> Result<(), NoMemory>
    ensures { OnOk result ((word : List ℕ) → held_of table.new word ≡ cond (bytes_eq name.now word) (once_more func (held_of table.old word)) (held_of table.old word)) }
{
    let new = once_more(table.get(name).copied(), func);
    table.insert(name, new)?;
    Ok(())
}

/// Returns a table of what each name stands for.
pub fn named_functions<'a>(
    alloc: Global,
    module: &'a Module,
    names: &'a [FuncName],
) -> Result<HashMap<&'a str, Named>, NoMemory>
    ensures { IfOk result (λ table. (word : List ℕ) → held_of table word ≡ entry_of «module».now names.now word) }
{
    let defined = Defined {
        first: module.imported_funcs(),
        end: module.func_space(),
    };
    let mut table = exported(alloc, module, defined)?;
    for at in (0..names.len()).rev() {
        let named = &names[at];
        if defined.has(named.index) {
            enter(&mut table, named.name.as_str(), named.index)?;
        }
    }
    Ok(table)
}
