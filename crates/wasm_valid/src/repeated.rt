// Export names that occurred before (WebAssembly Core 2.0, section 3.4.10).

ghost use Rattle.std.specs.Prelude.{◌≡◌, [], map, IfOk};
ghost use Rattle.wasm_valid.specs.Names.{repeats_after};

use std::alloc::{AllocError, Global};
use std::collections::BTreeMap;
use wasm_tree::Export;

/// Returns for each export whether an earlier one has its name.
pub fn repeated_names(alloc: Global, exports: &[Export]) -> Result<Vec<bool>, AllocError>
    ensures { IfOk result (λ all. all.items ≡ repeats_after [] (map (λ e. e.name) exports.now)) }
{
    let mut names: BTreeMap<&str, ()> = BTreeMap::new(alloc);
    let mut all = Vec::new(alloc);
    for export in exports {
        let name = export.name.as_str();
        all.push(names.contains_key(name))?;
        names.insert(name, ())?;
    }
    Ok(all)
}
