ghost use Rattle.std.specs.Prelude.{◌≡◌, ◌<◌, ◌++◌, List, map, length, Some, IfOk, OnOk};
ghost use Rattle.wasm_tree.specs.declared.module.Module as tree;
ghost use Rattle.wasm_tree.specs.declared.instr.Instr.TheVariants.{Call};
ghost use Rattle.wasm_meaning.specs.Linking.{module_at, Part};
ghost use Rattle.merge_spec.specs.Parts.{named_modules};
ghost use Rattle.merge_spec.specs.Merged as merged;
ghost use Rattle.merge_spec.specs.Merged.{merged_types, start_of, start_calls};
ghost use Rattle.merge_join.specs.LinkedParts.{HaveTheirMaps};

use crate::linked::module_of;
use crate::mapped_parts::MappedParts;
use crate::types::Types;
use std::alloc::Global;
use wasm_bytes::{Items, NoMemory};
use wasm_tree::{Func, FuncType, Instr};

// Appends the new index of the start function of one part, if it has one.
fn add_start(
    starts: &mut Items<u32>,
    joining: &MappedParts<'_>,
    part: usize,
) -> Result<(), NoMemory>
    requires joined { HaveTheirMaps joining.now }
    requires there { part < length joining.now.parts.now }
    ensures { OnOk result ((m : tree.Module) → module_at (named_modules joining.now.parts.now) part ≡ Some m → starts.new ≡ starts.old ++ start_of (named_modules joining.now.parts.now) part m.start) }
{
    match module_of(joining.parts, part).start {
        Some(start) => starts.keep(joining.map(part).funcs.as_slice()[start as usize]),
        None => Ok(()),
    }
}

/// Returns the new indices of the start functions, for those parts that have one, in order.
pub(crate) fn all_starts(alloc: Global, joining: &MappedParts<'_>) -> Result<Items<u32>, NoMemory>
    requires joined { HaveTheirMaps joining.now }
    ensures { IfOk result (λ starts. starts ≡ merged.starts (named_modules joining.now.parts.now)) }
{
    let mut starts = Items::new(alloc);
    for part in 0..joining.parts.len() {
        add_start(&mut starts, joining, part)?;
    }
    Ok(starts)
}

fn calls(alloc: Global, starts: &[u32]) -> Result<Items<Instr>, NoMemory>
    ensures { IfOk result (λ body. body ≡ map Call starts.now) }
{
    let mut body = Items::new(alloc);
    for start in starts {
        body.keep(Instr::Call(*start))?;
    }
    Ok(body)
}

/// Appends a function of type [] to [] that calls each start, if there are several.
pub(crate) fn add_calling(
    alloc: Global,
    funcs: &mut Items<Func>,
    starts: &[u32],
    types: &Types,
) -> Result<(), NoMemory>
    ensures { OnOk result ((ps : List Part) → types.now.list ≡ merged_types ps → funcs.new ≡ funcs.old ++ start_calls ps starts.now) }
{
    if starts.len() < 2 {
        return Ok(());
    }
    let nullary = FuncType {
        params: Items::new(alloc),
        results: Items::new(alloc),
    };
    funcs.keep(Func {
        ty: types.type_place(alloc, &nullary)?,
        locals: Items::new(alloc),
        body: calls(alloc, starts)?,
    })
}

/// Returns the start of the merged module: none, the only start, or the function at `count`, which
/// calls several starts.
pub(crate) fn start_among(starts: &[u32], count: u32) -> Option<u32>
    ensures { result ≡ merged.start_among count starts.now }
{
    match starts {
        [] => None,
        [start] => Some(*start),
        _ => Some(count),
    }
}
