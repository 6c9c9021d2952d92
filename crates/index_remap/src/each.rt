// Parts of a module that have indices, which are replaced in place.

ghost use Rattle.std.specs.Prelude.{◌≡◌, IsTrue, Bool};
ghost use Rattle.index_remap.specs.declared.remap.Remap.{Remap as Maps};
ghost use Rattle.index_remap.specs.Renumbered.{new_const, new_import, new_func, new_global, new_export, new_elem, new_data, fits_const, fits_import, fits_func, fits_global, fits_export, fits_elem};
ghost use Rattle.index_remap.specs.Renumbered.{fits_data};

use crate::in_place::{rewrite_all, rewrite_each};
use crate::remap::{
    Remap, entry, renumber_const, renumber_data_mode, renumber_elem_mode, renumber_export_desc,
    renumber_import_desc,
};
use wasm_tree::{ConstExpr, DataSeg, ElemSeg, Export, Func, GlobalDef, Import};

/// A part of a module that names things by index.
pub(crate) trait Renumber: Drop {
    /// The part with other indices.
    ghost renewed: { Maps → Self → Self };

    /// The maps have an entry for each index that the part names.
    ghost has_entries: { Maps → Self → Bool };

    /// Replaces the indices of the part in place.
    fn rewrite(&mut self, map: &Remap)
        requires fits { IsTrue (has_entries map.now self.old) }
        ensures { self.new ≡ renewed map.now self.old };
}

impl Renumber for ConstExpr {
    ghost renewed = { new_const };

    ghost has_entries = { fits_const };

    fn rewrite(&mut self, map: &Remap) {
        *self = renumber_const(*self, map);
    }
}

impl Renumber for Import {
    ghost renewed = { new_import };

    ghost has_entries = { fits_import };

    fn rewrite(&mut self, map: &Remap) {
        self.desc = renumber_import_desc(self.desc, map);
    }
}

impl Renumber for Func {
    ghost renewed = { new_func };

    ghost has_entries = { fits_func };

    fn rewrite(&mut self, map: &Remap) {
        self.ty = entry(&map.types, self.ty);
        rewrite_all(&mut self.body, map);
    }
}

impl Renumber for GlobalDef {
    ghost renewed = { new_global };

    ghost has_entries = { fits_global };

    fn rewrite(&mut self, map: &Remap) {
        self.init = renumber_const(self.init, map);
    }
}

impl Renumber for Export {
    ghost renewed = { new_export };

    ghost has_entries = { fits_export };

    fn rewrite(&mut self, map: &Remap) {
        self.desc = renumber_export_desc(self.desc, map);
    }
}

impl Renumber for ElemSeg {
    ghost renewed = { new_elem };

    ghost has_entries = { fits_elem };

    fn rewrite(&mut self, map: &Remap) {
        self.mode = renumber_elem_mode(self.mode, map);
        rewrite_each(&mut self.items, map);
    }
}

impl Renumber for DataSeg {
    ghost renewed = { new_data };

    ghost has_entries = { fits_data };

    fn rewrite(&mut self, map: &Remap) {
        self.mode = renumber_data_mode(self.mode, map);
    }
}
