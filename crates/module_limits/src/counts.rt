// The counts of a module, compared with their limits.

ghost use Rattle.std.specs.Prelude.{◌≡◌, nat_lt};
ghost use Rattle.wasm_tree.specs.Limits.{limit};
ghost use Rattle.module_limits.specs.Counts as counts;

use wasm_tree::{Module, Which};

// Returns whether the count is over its limit.
fn is_above(count: usize, which: Which) -> bool
    ensures { result ≡ nat_lt (limit which) count }
{
    count > which.limit() as usize
}

/// Returns the first count that is over its limit, in the order types, imports, functions, tables,
/// memories, globals, exports, element segments and data segments, or `None` if there is none.
#[tactic(auto, unfolding(crate::specs::Counts::over_limit))]
pub fn over_limit(module: &Module) -> Option<Which>
    ensures { result ≡ counts.over_limit «module».now }
{
    if is_above(module.types.len(), Which::Types) {
        return Some(Which::Types);
    }
    if is_above(module.imports.len(), Which::Imports) {
        return Some(Which::Imports);
    }
    if is_above(module.funcs.len(), Which::Functions) {
        return Some(Which::Functions);
    }
    if is_above(module.tables.len(), Which::Tables) {
        return Some(Which::Tables);
    }
    if is_above(module.mems.len(), Which::Memories) {
        return Some(Which::Memories);
    }
    if is_above(module.globals.len(), Which::Globals) {
        return Some(Which::Globals);
    }
    if is_above(module.exports.len(), Which::Exports) {
        return Some(Which::Exports);
    }
    if is_above(module.elems.len(), Which::ElementSegments) {
        return Some(Which::ElementSegments);
    }
    if is_above(module.datas.len(), Which::DataSegments) {
        return Some(Which::DataSegments);
    }
    None
}
