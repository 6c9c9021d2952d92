// Renumbers a copy of a module.

ghost use Rattle.std.specs.Prelude.{◌≡◌, IfOk, IsTrue};
ghost use Rattle.index_remap.specs.Renumbered.{renumbered_tree, fits_tree};

use crate::in_place::renumber_in_place;
use crate::remap::Remap;
use std::alloc::Global;
use wasm_bytes::NoMemory;
use wasm_tree::Module;

/// Returns the module with each index replaced by its entry in `map` for its index space
/// (WebAssembly Core 2.0, section 2.5.1). Every list keeps its order and its length. `map` needs an
/// entry for every index that the module names. If memory runs out, the call returns `NoMemory`.
pub fn renumber(alloc: Global, module: &Module, map: &Remap) -> Result<Module, NoMemory>
    requires entries { IsTrue (fits_tree map.now «module».now) }
    ensures tree { IfOk result (λ new. new ≡ renumbered_tree map.now «module».now) }
{
    let mut new = module.copy(alloc)?;
    renumber_in_place(&mut new, map);
    Ok(new)
}
