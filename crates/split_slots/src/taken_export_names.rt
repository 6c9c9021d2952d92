// Which name of an added export the module already has.

ghost use Rattle.std.specs.Prelude.{◌≡◌, ℕ, List, Some, cond, find, is_some, map, IfOk, OnOk};
ghost use Rattle.std.specs.HashMap.{get_by};
ghost use Rattle.std.specs.List.{list_any};
ghost use Rattle.std.specs.Str.{bytes_eq};

use std::alloc::{AllocError, Global};
use std::collections::HashMap;
use wasm_bytes::{Name, NoMemory};
use wasm_tree::Export;

fn note<'a>(taken: &mut HashMap<&'a str, ()>, name: &'a str) -> Result<(), AllocError>
    ensures { OnOk result ((q : List ℕ) → get_by (λ k. bytes_eq q k.now) taken.new ≡ cond (bytes_eq name.now q) (Some tt) (get_by (λ k. bytes_eq q k.now) taken.old)) }
{
    taken.insert(name, ())?;
    Ok(())
}

// Returns the set of the names of the exports.
fn export_names<'a>(
    alloc: Global,
    exports: &'a [Export],
) -> Result<HashMap<&'a str, ()>, AllocError>
    ensures { IfOk result (λ taken. (q : List ℕ) → is_some (get_by (λ k. bytes_eq q k.now) taken) ≡ list_any (λ e. bytes_eq e.name q) exports.now) }
{
    let mut taken = HashMap::new(alloc);
    for export in exports {
        note(&mut taken, export.name.as_str())?;
    }
    Ok(taken)
}

/// Returns the first name of an added export that an export of the module has, or `None`
/// (WebAssembly Core 2.0, section 2.5.10). It takes linear time. The only error is `NoMemory`.
pub(crate) fn prefix_taken(
    alloc: Global,
    exports: &[Export],
    added: &[Export],
) -> Result<Option<Name>, NoMemory>
    ensures { IfOk result (λ taken. taken ≡ find (λ name. list_any (λ e. bytes_eq e.name name) exports.now) (map (λ e. e.name) added.now)) }
{
    let taken = export_names(alloc, exports)?;
    for export in added {
        if taken.contains_key(export.name.as_str()) {
            return Ok(Some(export.name.copy(alloc)?));
        }
    }
    Ok(None)
}
