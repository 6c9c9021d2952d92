// Gives each module of a split its own indices.

ghost use Rattle.std.specs.Prelude.{◌≡◌, ◌⊎◌, ◌<◌, ◌^◌, length, option_map, None, Some, IfOk, IfErr, IsOk, IsTrue};
ghost use Rattle.wasm_tree.specs.Spaces.{funcs_of};
ghost use Rattle.module_limits.specs.Counts.{over_limit};
ghost use Rattle.index_remap.specs.References.{declared};
ghost use Rattle.index_remap.specs.Renumbered.{fits_tree, renumbered_tree};
ghost use Rattle.split_spec.specs.declared.faults.SplitFault.TheVariants.{NoMemory as OutOfMemory, TooMany};

use index_remap::{Remap, declare_refs, renumber_in_place};
use module_limits::over_limit;
use split_spec::SplitFault;
use std::alloc::Global;
use wasm_bytes::NoMemory;
use wasm_tree::Module;

// Renumbers the module in place and declares its references.
fn renumbered(alloc: Global, module: Module, map: &Remap) -> Result<Module, NoMemory>
    requires fits { IsTrue (fits_tree map.now «module») }
    requires few { length (funcs_of (renumbered_tree map.now «module»)) < 2 ^ 32 }
    ensures { IfOk result (λ tree. tree ≡ declared (renumbered_tree map.now «module»)) }
{
    let mut tree = module;
    renumber_in_place(&mut tree, map);
    declare_refs(alloc, &mut tree)?;
    Ok(tree)
}

/// Renumbers the module, declares its references and tests its counts. The error is `TooMany` with
/// the first count above its limit, or `NoMemory`.
pub(crate) fn finished(alloc: Global, module: Module, map: &Remap) -> Result<Module, SplitFault>
    requires fits { IsTrue (fits_tree map.now «module») }
    requires few { length (funcs_of (renumbered_tree map.now «module»)) < 2 ^ 32 }
    ensures value { IfOk result (λ tree. tree ≡ declared (renumbered_tree map.now «module»)) }
    ensures none { IsOk result → over_limit (declared (renumbered_tree map.now «module»)) ≡ None }
    ensures fault { IfErr result (λ e. (e ≡ OutOfMemory) ⊎ (option_map TooMany (over_limit (declared (renumbered_tree map.now «module»))) ≡ Some e)) }
{
    let tree = renumbered(alloc, module, map)?;
    match over_limit(&tree) {
        Some(which) => Err(SplitFault::TooMany { which }),
        None => Ok(tree),
    }
}
