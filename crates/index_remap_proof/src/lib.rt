//! Laws of what stays valid when indices are replaced by their entries in a map: bodies and
//! constant expressions, items of a tree, whole trees, and trees whose references are declared; and
//! that a well-typed body names only functions that may be named.
//!
//! Files:
//!
//! - `specs/Along`: When two contexts agree along a map of indices: at each index of a set and at
//!   its entry.
//! - `specs/ButForReferences`: Trees that are valid, except that `ref.func` may name in a body
//!   functions that the tree does not declare.
//! - `specs/Indices`: Sets of indices, and code and parts of a tree that name only indices of a
//!   set.
//! - `specs/Trees`: When two trees agree along a map of indices, and when an item of one comes
//!   from an item of the other.
#![tactic(auto)]

ghost use Rattle.std.specs.Prelude.{◌≡◌, ◌<◌, ◌+◌, ◌^◌, ℕ, List, IsTrue, Some, length, slice_get, true};
ghost use Rattle.base_lists.specs.Members.{is_among};
ghost use Rattle.wasm_tree.specs.declared.types.ValType.{ValType};
ghost use Rattle.wasm_tree.specs.declared.instr.Instr.{Instr};
ghost use Rattle.wasm_tree.specs.declared.module.ConstExpr.{ConstExpr};
ghost use Rattle.wasm_tree.specs.declared.module.Module.{Module};
ghost use Rattle.wasm_tree.specs.Bounds.{IsBounded};
ghost use Rattle.wasm_valid_bodies.specs.Typing.{Context, WellTyped};
ghost use Rattle.wasm_valid.specs.declared.kinds.ItemKind.{ItemKind};
ghost use Rattle.wasm_valid.specs.Validity.{HoldsAt, IsSingle, IsValid};
ghost use Rattle.index_remap.specs.declared.remap.Remap.{Remap};
ghost use Rattle.index_remap.specs.Renumbered.{renumbered_all, renumbered_tree, new_const, fits_all, fits_tree};
ghost use Rattle.wasm_tree.specs.Layers.{ListLayers};
ghost use Rattle.index_remap.specs.References.{declared, refs_all};
ghost use Rattle.index_remap.specs.Agreement.{LayerAgrees, SameFrame};
ghost use Rattle.index_remap_proof.specs.Indices.{ConstNamesOnly, Indices, LayerNamesOnly, TreeNamesOnly, with_entry};
ghost use Rattle.index_remap_proof.specs.Along.{AgreesAlong, CoversContext};
ghost use Rattle.index_remap_proof.specs.Trees.{ConstComesFrom, Covers, EachItemComesFrom, ImportsAgree, ItemComesFrom, ReadsImport, RefsAgree, TreesAgree};
ghost use Rattle.index_remap_proof.specs.ButForReferences.{HoldsButForReferences, IsValidButForReferences};

use index_remap::steps_agree;
use wasm_tree::operands_pass_layer_by_layer;
use wasm_valid::valid_where_items_hold;

/// States that a well-typed body stays well typed, over the same locals, results and labels, when
/// each index is replaced by its entry (WebAssembly Core 2.0, section 3.3), if the indices that the
/// body names agree with their entries (`by_index`), or if the indices of a set agree with theirs
/// and the body names only these (`bodies`). This is the clause `typed` of `steps_agree` when no
/// call is replaced. A constant expression keeps its type in the same way, if the entry of a global
/// that it reads is imported (`constants`). Well-typed bodies and valid trees name only indices of
/// their spaces, so a map that covers these spaces has an entry for each (`entries`,
/// `tree_entries`). The set may be that of the indices with an entry: a body or a tree of which
/// every index has an entry names only these (`named`, `tree_named`).
pub fn renumbering_keeps_typing()
    ensures bodies { (m : Remap) (kept : Indices) (c d : Context) (is : List Instr) (ps rs : List ValType) → AgreesAlong m kept c d → ListLayers (LayerNamesOnly kept) is → WellTyped c is ps rs →
        WellTyped d (renumbered_all m is) ps rs }
    ensures by_index { (m : Remap) (c d : Context) (is : List Instr) (ps rs : List ValType) → SameFrame c d → ListLayers (LayerAgrees m c d) is → WellTyped c is ps rs →
        WellTyped d (renumbered_all m is) ps rs }
    ensures constants { (m : Remap) (kept : Indices) (t u : Module) (e : ConstExpr) → TreesAgree m kept t u → ConstNamesOnly kept e → ReadsImport m u e → ConstComesFrom t u e (new_const m e) }
    ensures entries { (m : Remap) (c : Context) (is : List Instr) (ps rs : List ValType) → CoversContext m c → WellTyped c is ps rs → IsTrue (fits_all m is) }
    ensures tree_entries { (m : Remap) (t : Module) → IsValid t → Covers m t → IsTrue (fits_tree m t) }
    ensures named { (m : Remap) (is : List Instr) → IsTrue (fits_all m is) → ListLayers (LayerNamesOnly (with_entry m)) is }
    ensures tree_named { (m : Remap) (t : Module) → IsTrue (fits_tree m t) → TreeNamesOnly (with_entry m) t }
{
    operands_pass_layer_by_layer();
    steps_agree();
    valid_where_items_hold();
}

/// States that an item that comes from a valid item is valid, if the indices of a set agree with
/// their entries and the valid item names only these (`items`). If references still have to be
/// declared, it is valid except for references (`undeclared`). So a tree is valid if each of its
/// items comes from one of a valid tree (`trees`), or valid except for references if these still
/// have to be declared (`undeclared_trees`). The valid tree may have more items anywhere, because
/// nothing is required of other indices. A valid tree whose every index is replaced by its entry is
/// valid, if it names only indices of the set, these agree with their entries, and the imported
/// globals of the set stay imported (`renumbered`).
pub fn renumbered_trees_are_valid()
    ensures items { (m : Remap) (kept : Indices) (t u : Module) (k : ItemKind) (i j : ℕ) → TreesAgree m kept t u → RefsAgree m kept t u → ItemComesFrom m kept t u k i j → HoldsAt t k i →
        HoldsAt u k j }
    ensures undeclared { (m : Remap) (kept : Indices) (t u : Module) (k : ItemKind) (i j : ℕ) → TreesAgree m kept t u → ItemComesFrom m kept t u k i j → HoldsAt t k i → HoldsButForReferences u k j }
    ensures trees { (m : Remap) (kept : Indices) (t u : Module) → IsValid t → TreesAgree m kept t u → RefsAgree m kept t u → EachItemComesFrom m kept t u → IsValid u }
    ensures undeclared_trees { (m : Remap) (kept : Indices) (t u : Module) → IsValid t → TreesAgree m kept t u → EachItemComesFrom m kept t u → IsValidButForReferences u }
    ensures renumbered { (m : Remap) (kept : Indices) (t : Module) → IsValid t → TreeNamesOnly kept t → TreesAgree m kept t (renumbered_tree m t) → ImportsAgree m kept t (renumbered_tree m t) →
        IsValid (renumbered_tree m t) }
{
    renumbering_keeps_typing();
    valid_where_items_hold();
}

/// States that a tree that is valid except for references is valid after they are declared
/// (`valid`, WebAssembly Core 2.0, section 3.4.10). A tree with at most one memory still has at
/// most one (`single`), and a bounded tree stays bounded if it has fewer than 2 ^ 32 - 1 element
/// segments (`bounded`). A valid tree has nothing to declare (`stays`) and is valid except for
/// references (`weaker`).
pub fn declared_trees_are_valid()
    ensures valid { (t : Module) → IsValidButForReferences t → IsValid (declared t) }
    ensures single { (t : Module) → IsSingle t → IsSingle (declared t) }
    ensures bounded { (t : Module) → IsBounded t → length t.elems + 1 < 2 ^ 32 → IsBounded (declared t) }
    ensures stays { (t : Module) → IsValid t → declared t ≡ t }
    ensures weaker { (t : Module) → IsValid t → IsValidButForReferences t }
{
    valid_where_items_hold();
}

/// States that `ref.func` in a well-typed body names only functions that the context lets it name
/// (WebAssembly Core 2.0, section 3.3.2.3: x is among C.refs).
pub fn well_typed_bodies_name_declared_functions()
    ensures { (c : Context) (is : List Instr) (ps rs : List ValType) → WellTyped c is ps rs → (x : ℕ) → is_among (refs_all is) x ≡ true → slice_get c.named x ≡ Some true }
{}
