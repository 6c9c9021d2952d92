// What the binary format requires of a module, except sizes.

ghost use Rattle.std.specs.Prelude.{◌≡◌, ℕ, Some, slice_get, IsUtf8, IsTrue};
ghost use Rattle.wasm_tree.specs.MemoryZero.{memory_zero_funcs};
ghost use Rattle.wasm_valid.specs.Validity.{IsSingle};
ghost use Rattle.wasm_tree.specs.declared.module.Import.{Import as Imported};
ghost use Rattle.wasm_tree.specs.declared.module.Export.{Export as Exported};

use crate::laws::valid_code_names_memory_zero;
use crate::validation::Valid;
use wasm_tree::{Export, Import};

fn imports_are_text(imports: &[Import])
    ensures { (i : ℕ) (x : Imported) → slice_get imports.now i ≡ Some x → IsUtf8 x.«module» × IsUtf8 x.field }
{
    for import in imports {
        let _module = import.module.as_str();
        let _field = import.field.as_str();
    }
}

fn exports_are_text(exports: &[Export])
    ensures { (i : ℕ) (x : Exported) → slice_get exports.now i ≡ Some x → IsUtf8 x.name }
{
    for export in exports {
        let _name = export.name.as_str();
    }
}

impl Valid {
    /// Promises that a valid module has what the binary format requires, except sizes: the names of
    /// its imports and exports are UTF-8, and if it has at most one memory, each memory index in
    /// its bodies is 0 (WebAssembly Core 2.0, sections 5.2.4 and 5.4.6). The call walks the names
    /// and changes nothing; no command needs it.
    pub fn can_be_written(&self)
        ensures imports { (i : ℕ) (x : Imported) → slice_get self.now.imports i ≡ Some x → IsUtf8 x.«module» × IsUtf8 x.field }
        ensures exports { (i : ℕ) (x : Exported) → slice_get self.now.exports i ≡ Some x → IsUtf8 x.name }
        ensures memories { IsSingle self.now → IsTrue (memory_zero_funcs self.now.funcs) }
    {
        let module = self.module();
        imports_are_text(module.imports.as_slice());
        exports_are_text(module.exports.as_slice());
        valid_code_names_memory_zero();
    }
}
