ghost use Rattle.std.specs.Prelude.{◌≡◌};
ghost use Rattle.wasm_meaning.specs.World as world;

use wasm_tree::{Module, Space};

/// Returns how many entries of an index space the module itself defines.
pub(crate) fn defined_count(space: Space, module: &Module) -> usize
    ensures { result ≡ world.defined_count space «module».now }
{
    match space {
        Space::Types => module.types.len(),
        Space::Functions => module.funcs.len(),
        Space::Tables => module.tables.len(),
        Space::Memories => module.mems.len(),
        Space::Globals => module.globals.len(),
        Space::ElementSegments => module.elems.len(),
        Space::DataSegments => module.datas.len(),
    }
}
