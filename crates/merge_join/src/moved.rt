// What a part defines, rewritten in place.

ghost use Rattle.std.specs.Prelude.{◌≡◌, IsTrue, Bool, List, map as each};
ghost use Rattle.std.specs.List.{list_all};
ghost use Rattle.wasm_tree.specs.declared.module.ConstExpr.{ConstExpr as Constant};
ghost use Rattle.index_remap.specs.declared.remap.Remap.{Remap as Maps};
ghost use Rattle.index_remap.specs.Renumbered.{fits_const, fits_global, fits_elem_mode, fits_elem, fits_data_mode, fits_data};
ghost use Rattle.merge_join.specs.Moved as moved;

use crate::numbers::number_at;
use index_remap::{Remap, renumber_const};
use wasm_bytes::Items;
use wasm_tree::{ConstExpr, DataMode, DataSeg, ElemMode, ElemSeg, GlobalDef};

/// An item of a part that contains constant expressions: a global, a segment, or a constant
/// expression itself.
pub(crate) trait Moved: Drop {
    /// What the item is in the merged module.
    ghost renewed: { Maps → List Constant → Self → Self };

    /// Whether the map has an entry for each index that the item names.
    ghost has_entries: { Maps → Self → Bool };

    /// Rewrites the item in place to what it is in the merged module. `values` replace the globals
    /// that the part imports, in order.
    fn rewrite(&mut self, map: &Remap, values: &[ConstExpr])
        requires fits { IsTrue (has_entries map.now self.old) }
        ensures { self.new ≡ renewed map.now values.now self.old };
}

/// Rewrites each item in place.
pub(crate) fn rewrite_each<T: Moved>(items: &mut Items<T>, entries: &Remap, values: &[ConstExpr])
    requires fits { IsTrue (list_all (T.has_entries entries.now) items.old) }
    ensures { items.new ≡ each (T.renewed entries.now values.now) items.old }
{
    for at in 0..items.len() {
        if let Some(item) = items.get_mut(at) {
            item.rewrite(entries, values);
        }
    }
}

// Returns what a constant expression of a part is in the merged module.
fn moved_const(expr: ConstExpr, map: &Remap, values: &[ConstExpr]) -> ConstExpr
    requires { IsTrue (fits_const map.now expr) }
    ensures { result ≡ moved.moved_const map.now values.now expr }
{
    match expr {
        ConstExpr::Global(global) => values.get(global as usize).copied().unwrap_or(expr),
        ConstExpr::I32(_) | ConstExpr::I64(_) | ConstExpr::Null(_) | ConstExpr::Func(_) => {
            renumber_const(expr, map)
        }
    }
}

fn moved_elem_mode(mode: ElemMode, map: &Remap, values: &[ConstExpr]) -> ElemMode
    requires { IsTrue (fits_elem_mode map.now mode) }
    ensures { result ≡ moved.moved_elem_mode map.now values.now mode }
{
    match mode {
        ElemMode::Active { table, offset } => ElemMode::Active {
            table: number_at(&map.tables, table as usize),
            offset: moved_const(offset, map, values),
        },
        ElemMode::Passive => ElemMode::Passive,
        ElemMode::Declarative => ElemMode::Declarative,
    }
}

fn moved_data_mode(mode: DataMode, map: &Remap, values: &[ConstExpr]) -> DataMode
    requires { IsTrue (fits_data_mode map.now mode) }
    ensures { result ≡ moved.moved_data_mode map.now values.now mode }
{
    match mode {
        DataMode::Active { memory, offset } => DataMode::Active {
            memory: number_at(&map.mems, memory as usize),
            offset: moved_const(offset, map, values),
        },
        DataMode::Passive => DataMode::Passive,
    }
}

impl Moved for ConstExpr {
    ghost renewed = { moved.moved_const };

    ghost has_entries = { fits_const };

    fn rewrite(&mut self, map: &Remap, values: &[ConstExpr]) {
        *self = moved_const(*self, map, values);
    }
}

impl Moved for GlobalDef {
    ghost renewed = { moved.moved_global };

    ghost has_entries = { fits_global };

    fn rewrite(&mut self, map: &Remap, values: &[ConstExpr]) {
        self.init = moved_const(self.init, map, values);
    }
}

impl Moved for ElemSeg {
    ghost renewed = { moved.moved_elem };

    ghost has_entries = { fits_elem };

    fn rewrite(&mut self, map: &Remap, values: &[ConstExpr]) {
        self.mode = moved_elem_mode(self.mode, map, values);
        rewrite_each(&mut self.items, map, values);
    }
}

impl Moved for DataSeg {
    ghost renewed = { moved.moved_data };

    ghost has_entries = { fits_data };

    fn rewrite(&mut self, map: &Remap, values: &[ConstExpr]) {
        self.mode = moved_data_mode(self.mode, map, values);
    }
}
