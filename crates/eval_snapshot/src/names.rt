// Which exports stay, by name.

ghost use Rattle.std.specs.Prelude.{◌≡◌, IfOk};
ghost use Rattle.std.specs.BTreeMap.{get_by};
ghost use Rattle.std.specs.Ordering.{nat_cmp};
ghost use Rattle.std.specs.Cmp.Lexicographic.{slice_cmp};
ghost use Rattle.eval_snapshot.specs.Names.{HasNames, HasEvaluated};

use std::alloc::Global;
use std::collections::BTreeMap;
use wasm_bytes::{Name, NoMemory};

/// Returns what is in the map under a name.
pub(crate) fn found(names: &BTreeMap<&str, bool>, name: &str) -> Option<bool>
    ensures { result ≡ get_by (λ k. slice_cmp nat_cmp name.now k.now) names.now }
{
    names.get(name).copied()
}

// Returns a map of these names, for look-up.
fn looked_up<'a>(alloc: Global, names: &'a [Name]) -> Result<BTreeMap<&'a str, bool>, NoMemory>
    ensures { IfOk result (HasNames names.now) }
{
    let mut all = BTreeMap::new(alloc);
    for name in names {
        all.insert(name.as_str(), true)?;
    }
    Ok(all)
}

/// Returns, for the name of each evaluated constructor, whether its export is kept.
pub(crate) fn evaluated_names<'a>(
    alloc: Global,
    evaluated: &'a [Name],
    kept: &[Name],
) -> Result<BTreeMap<&'a str, bool>, NoMemory>
    ensures { IfOk result (HasEvaluated evaluated.now kept.now) }
{
    let kept = looked_up(alloc, kept)?;
    let mut all = BTreeMap::new(alloc);
    for name in evaluated {
        let stays = found(&kept, name.as_str()).is_some();
        all.insert(name.as_str(), stays)?;
    }
    Ok(all)
}
