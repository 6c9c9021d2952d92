// The types of a module, and the type index of each function.

ghost use Rattle.std.specs.Prelude.{◌≡◌, ◌++◌, [], map, IfOk, OnOk};
ghost use Rattle.std.specs.List.{cons_option};
ghost use Rattle.wasm_tree.specs.Spaces.{func_of, funcs_of, imported_funcs};

use std::alloc::Global;
use wasm_bytes::{Items, NoMemory};
use wasm_tree::{Func, FuncType, Import, Module};

fn add_import(all: &mut Items<u32>, import: &Import) -> Result<(), NoMemory>
    ensures { OnOk result (all.new ≡ all.old ++ cons_option (func_of import.now.desc) []) }
{
    match import.desc.func() {
        Some(ty) => all.keep(ty),
        None => Ok(()),
    }
}

fn add_imported(all: &mut Items<u32>, imports: &[Import]) -> Result<(), NoMemory>
    ensures { OnOk result (all.new ≡ all.old ++ imported_funcs imports.now) }
{
    for import in imports {
        add_import(all, import)?;
    }
    Ok(())
}

fn add_defined(all: &mut Items<u32>, funcs: &[Func]) -> Result<(), NoMemory>
    ensures { OnOk result (all.new ≡ all.old ++ map (λ f. f.ty) funcs.now) }
{
    for func in funcs {
        all.keep(func.ty)?;
    }
    Ok(())
}

/// Returns the type index of each function in the function index space.
pub(crate) fn func_types(alloc: Global, module: &Module) -> Result<Items<u32>, NoMemory>
    ensures { IfOk result (λ all. all ≡ funcs_of «module».now) }
{
    let mut all = Items::new(alloc);
    add_imported(&mut all, module.imports.as_slice())?;
    add_defined(&mut all, module.funcs.as_slice())?;
    Ok(all)
}

pub(crate) fn copy_types(alloc: Global, types: &[FuncType]) -> Result<Items<FuncType>, NoMemory>
    ensures { IfOk result (λ all. all ≡ types.now) }
{
    let mut all = Items::new(alloc);
    for ty in types {
        all.keep(ty.copy(alloc)?)?;
    }
    Ok(all)
}
