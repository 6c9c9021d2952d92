// Laws: what joining gives is a valid module, and what this needs of the imports, maps and starts
// of linked parts.

ghost use Rattle.std.specs.Prelude.{◌≡◌, ℕ, true, false, IsTrue, List, Some, None};
ghost use Rattle.wasm_tree.specs.declared.types.ValType.{ValType};
ghost use Rattle.wasm_tree.specs.declared.module.ConstExpr.{ConstExpr};
ghost use Rattle.wasm_tree.specs.declared.module.Module.{Module};
ghost use Rattle.wasm_tree.specs.Bounds.{IsBounded};
ghost use Rattle.wasm_valid.specs.Constants.{const_type};
ghost use Rattle.wasm_valid.specs.Validity.{IsSingle, IsValid};
ghost use Rattle.wasm_meaning.specs.Linking.{Part, Read, module_at, read_of};
ghost use Rattle.index_remap.specs.Renumbered.{fits_const, fits_tree};
ghost use Rattle.merge_names.specs.declared.mode.Mode.{Mode};
ghost use Rattle.merge_spec.specs.Faults.{link_fault};
ghost use Rattle.merge_spec.specs.Merged.{map_of};
ghost use Rattle.merge_spec.specs.Joined.{joined_module};
ghost use Rattle.merge_proof.specs.ImportEnds.{
  DefinedEntitiesHavePlaces,
  LinkedImportsEnd,
  MergedModulesDefineAll,
  NewIndicesArePlaces,
  SitesAreImports,
  StayingImportsEndThere,
  StayingImportsHavePlaces,
  TypesHavePlaces,
};
ghost use Rattle.merge_proof.specs.MapEntries.{HasEntry};
ghost use Rattle.merge_proof.specs.Joinable.{CanBeJoined, EachPart};
ghost use Rattle.merge_proof.specs.StartTypes.{StartsTakeNothing};

use index_remap_proof::{
    declared_trees_are_valid, renumbered_trees_are_valid, renumbering_keeps_typing,
};
use merge_names::{conflicts_are_first, given_names_differ};
use module_limits::counts_are_within_where_none_is_over;
use wasm_meaning::ends_and_reads_are_paths;
use wasm_valid::valid_where_items_hold;

/// If valid parts can be joined, the merged module is valid (`valid`, WebAssembly Core 2.0, section
/// 3.4.10), and a u32 can count its lists, its index spaces and the locals of each function
/// (`bounded`). If linking also takes several memories for a fault and finds none, the merged
/// module has at most one memory (`single`).
pub fn merged_modules_are_valid()
    ensures valid { (parts : List Part) (mode : Mode) → CanBeJoined parts mode → IsValid (joined_module parts mode) }
    ensures bounded { (parts : List Part) (mode : Mode) → CanBeJoined parts mode → IsBounded (joined_module parts mode) }
    ensures single { (parts : List Part) (mode : Mode) → CanBeJoined parts mode → link_fault parts false ≡ None → IsSingle (joined_module parts mode) }
{
    valid_where_items_hold();
    renumbering_keeps_typing();
    renumbered_trees_are_valid();
    declared_trees_are_valid();
    ends_and_reads_are_paths();
    given_names_differ();
    conflicts_are_first();
    counts_are_within_where_none_is_over();
}

/// The map of a part has an entry for each index that its valid module names (`entries`) and for
/// each that a constant expression with a type names (`constants`). If valid parts are linked, such
/// an expression reads something through joined globals (`there`), in a part whose map has an entry
/// for it (`reads`).
pub fn maps_have_entries()
    ensures entries { (parts : List Part) (p : ℕ) (m : Module) → IsValid m → IsTrue (fits_tree (map_of parts p m) m) }
    ensures constants { (parts : List Part) (p : ℕ) (m : Module) (e : ConstExpr) (ty : ValType) → const_type m e ≡ Some ty → IsTrue (fits_const (map_of parts p m) e) }
    ensures reads { (parts : List Part) (p : ℕ) (m : Module) (e : ConstExpr) (ty : ValType) (r : Read) → EachPart IsValid parts → link_fault parts true ≡ None → module_at parts p ≡ Some m →
        const_type m e ≡ Some ty → read_of parts p e ≡ Some r → HasEntry parts r }
    ensures there { (parts : List Part) (p : ℕ) (m : Module) (e : ConstExpr) (ty : ValType) → EachPart IsValid parts → link_fault parts true ≡ None → module_at parts p ≡ Some m → const_type m e ≡
        Some ty → (r : Read) × (read_of parts p e ≡ Some r) }
{
    valid_where_items_hold();
    renumbering_keeps_typing();
    ends_and_reads_are_paths();
}

/// If parts are linked, each import ends with what it asks for, defined by a part or not (`ends`),
/// and a staying import is its own end (`stays`). The sites are the imports that exist (`sites`).
/// In the merged module each staying import, each index, each definition and each type of a part
/// has its place (`places`, `indices`, `defined`, `types`), and the module defines as many
/// functions, tables, memories and globals as all parts, and the function that calls several
/// starts, if there is one (`counts`).
pub fn linked_imports_have_ends()
    ensures ends { LinkedImportsEnd }
    ensures stays { StayingImportsEndThere }
    ensures sites { SitesAreImports }
    ensures places { StayingImportsHavePlaces }
    ensures indices { NewIndicesArePlaces }
    ensures defined { DefinedEntitiesHavePlaces }
    ensures types { TypesHavePlaces }
    ensures counts { MergedModulesDefineAll }
{
    ends_and_reads_are_paths();
}

/// In the merged module, the start functions of valid parts take and return nothing, if the parts
/// are linked.
pub fn starts_take_nothing()
    ensures starts { StartsTakeNothing }
{
    valid_where_items_hold();
    ends_and_reads_are_paths();
}
