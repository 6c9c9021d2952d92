ghost use Rattle.std.specs.Prelude.{◌≡◌, ◌<◌, length, Some, IsTrue};
ghost use Rattle.wasm_tree.specs.declared.module.Module as tree;
ghost use Rattle.wasm_meaning.specs.Linking.{module_at};
ghost use Rattle.index_remap.specs.Renumbered.{fits_tree};
ghost use Rattle.merge_spec.specs.Parts.{named_modules};
ghost use Rattle.merge_spec.specs.Merged.{map_of};
ghost use Rattle.merge_join.specs.LinkedParts.{HaveTheirMaps};

use index_remap::Remap;
use merge_proof::maps_have_entries;
use merge_spec::{Links, Part};

/// Linked parts, with the map of each part's indices.
#[derive(Drop)]
pub(crate) struct MappedParts<'a> {
    pub parts: &'a [Part],
    pub links: &'a Links,
    pub maps: &'a [Remap],
}

impl MappedParts<'_> {
    /// Returns the map of the indices of the part at a place. It has an entry for each index that
    /// the part's module names.
    pub(crate) fn map(&self, part: usize) -> &Remap
        requires joined { HaveTheirMaps self.now }
        requires there { part < length self.now.parts.now }
        ensures is { (m : tree.Module) → module_at (named_modules self.now.parts.now) part ≡ Some m → result.now ≡ map_of (named_modules self.now.parts.now) part m }
        ensures fits { (m : tree.Module) → module_at (named_modules self.now.parts.now) part ≡ Some m → IsTrue (fits_tree result.now m) }
    {
        maps_have_entries();
        &self.maps[part]
    }
}
