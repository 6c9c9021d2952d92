// Laws: what closed marks leave of a valid module is valid, and the map of the sweep fits it.

ghost use Rattle.std.specs.Prelude.{◌≡◌, ◌<◌, ◌^◌, ℕ, List, length, None, Some, slice_get, IsTrue};
ghost use Rattle.wasm_tree.specs.declared.module.ConstExpr.{ConstExpr};
ghost use Rattle.wasm_tree.specs.declared.module.ElemMode.{ElemMode};
ghost use Rattle.wasm_tree.specs.declared.module.Module.{Module};
ghost use Rattle.wasm_tree.specs.Bounds.{IsBounded};
ghost use Rattle.wasm_tree.specs.Spaces.{funcs_of};
ghost use Rattle.wasm_valid.specs.Validity.{IsSingle, IsValid};
ghost use Rattle.index_remap.specs.Renumbered.{fits_tree};
ghost use Rattle.module_limits.specs.Counts.{over_limit};
ghost use Rattle.dce_spec.specs.Marks.{Marks};
ghost use Rattle.dce_spec.specs.Swept.{kept_items, kept_tree, renumbered_kept, sweep_map, swept};
ghost use Rattle.dce_spec.specs.Closed.{AreClosed};

use index_remap_proof::{
    declared_trees_are_valid, renumbered_trees_are_valid, renumbering_keeps_typing,
};
use module_limits::counts_are_within_where_none_is_over;
use wasm_valid::valid_where_items_hold;

/// What closed marks leave of a valid module is valid (`valid`, WebAssembly Core 2.0, section 3.4).
/// It has at most one memory if the module has (`single`), and it is bounded if the module is and
/// no count of what is left is above its limit (`bounded`).
pub fn swept_modules_are_valid()
    ensures valid { (k : Marks) (m : Module) → IsValid m → AreClosed k m → IsValid (swept k m) }
    ensures single { (k : Marks) (m : Module) → IsValid m → AreClosed k m → IsSingle m → IsSingle (swept k m) }
    ensures bounded { (k : Marks) (m : Module) → IsValid m → AreClosed k m → IsBounded m → over_limit (swept k m) ≡ None → IsBounded (swept k m) }
{
    valid_where_items_hold();
    renumbering_keeps_typing();
    renumbered_trees_are_valid();
    declared_trees_are_valid();
    counts_are_within_where_none_is_over();
}

/// The map of a sweep has an entry for each index that is named in what is kept (`entries`). With
/// its new indices, what is kept of a bounded module has functions that a u32 can count (`funcs`).
/// Each item that is kept of an element segment was one of it (`items`).
pub fn what_is_kept_fits()
    ensures entries { (k : Marks) (m : Module) → IsValid m → AreClosed k m → IsTrue (fits_tree (sweep_map k m) (kept_tree k m)) }
    ensures funcs { (k : Marks) (m : Module) → IsValid m → AreClosed k m → IsBounded m → length (funcs_of (renumbered_kept k m)) < 2 ^ 32 }
    ensures items { (k : Marks) (mode : ElemMode) (items : List ConstExpr) (p : ℕ) (e : ConstExpr) → slice_get (kept_items k mode items) p ≡ Some e → (q : ℕ) × (slice_get items q ≡ Some e) }
{
    valid_where_items_hold();
    renumbering_keeps_typing();
}
