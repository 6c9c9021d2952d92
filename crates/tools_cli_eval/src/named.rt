ghost use Rattle.std.specs.Prelude.{◌≡◌, ◌≤◌, ◌⊎◌, List, None, Some, IfErr, IfOk, IsOk, length, take};
ghost use Rattle.wasm_tree.specs.declared.module.Export.{Export as Exported};
ghost use Rattle.wasm_valid.specs.Validity.{IsValid};
ghost use Rattle.wasm_meaning.specs.State.{Text};
ghost use Rattle.eval_snapshot_spec.specs.Evaluated.{first_missing, funcs_named};
ghost use Rattle.tools_cli_eval.specs.Named.{AreFuncsOf, HasExports, func_under};
ghost use Rattle.tools_cli_spec.specs.declared.evaluation.EvalFault.TheVariants.{NoMemory as OutOfMemory, NoSuchExport as Missing};

use std::alloc::Global;
use std::collections::BTreeMap;
use tools_cli_spec::EvalFault;
use wasm_bytes::{Items, Name, NoMemory};
use wasm_meaning::found_exports_are_there;
use wasm_tree::{Export, ExportDesc, Module};
use wasm_valid::valid_where_items_hold;

// The export of each name. The loop goes from the last export to the first, so that the first with
// a name counts.
fn exports_named<'a>(
    alloc: Global,
    exports: &'a [Export],
) -> Result<BTreeMap<&'a str, ExportDesc>, NoMemory>
    ensures { IfOk result (HasExports exports.now) }
{
    let mut table = BTreeMap::new(alloc);
    for at in (0..exports.len()).rev() {
        let export = &exports[at];
        table.insert(export.name.as_str(), export.desc)?;
    }
    Ok(table)
}

// The function that is exported under a name, if one is.
fn func_named(table: &BTreeMap<&str, ExportDesc>, name: &str) -> Option<u32>
    ensures { (exports : List Exported) → HasExports exports table.now → result ≡ func_under exports name.now }
{
    match table.get(name) {
        Some(ExportDesc::Func(func)) => Some(*func),
        _ => None,
    }
}

/// Returns the functions that are exported under these names, in order. The fault names the first
/// under which none is; memory may run out instead.
pub(crate) fn funcs_named(
    alloc: Global,
    module: &Module,
    names: &[Name],
) -> Result<Items<u32>, EvalFault>
    requires { IsValid «module».now }
    ensures funcs { IfOk result (λ funcs. funcs ≡ funcs_named «module».now names.now) }
    ensures there { IfOk result (AreFuncsOf «module».now) }
    ensures named { IsOk result → first_missing «module».now names.now ≡ None }
    ensures fault { IfErr result (λ f. (f ≡ OutOfMemory) ⊎ ((name : Text) × (first_missing «module».now names.now ≡ Some name) × (f ≡ Missing name))) }
{
    valid_where_items_hold();
    found_exports_are_there();
    let table = exports_named(alloc, module.exports.as_slice())?;
    let mut funcs = Items::new(alloc);
    for name in names {
        let Some(func) = func_named(&table, name.as_str()) else {
            return Err(EvalFault::NoSuchExport {
                name: name.copy(alloc)?,
            });
        };
        funcs.keep(func)?;
    }
    Ok(funcs)
}

/// Returns the first `count` names.
pub(crate) fn first_names(
    alloc: Global,
    names: &[Name],
    count: usize,
) -> Result<Items<Name>, NoMemory>
    requires { count ≤ length names.now }
    ensures { IfOk result (λ first. first ≡ take count names.now) }
{
    let mut first = Items::new(alloc);
    for at in 0..count {
        first.keep(names[at].copy(alloc)?)?;
    }
    Ok(first)
}
