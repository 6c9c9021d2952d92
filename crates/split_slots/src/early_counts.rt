// The counts that are tested before anything is built.

ghost use Rattle.std.specs.Prelude.{◌≡◌, ◌+◌, ◌<◌, ◌^◌, length, nat_lt};
ghost use Rattle.wasm_tree.specs.Limits.{limit};
ghost use Rattle.wasm_tree.specs.declared.which.Which.TheVariants.{Functions as MostFunctions};
ghost use Rattle.split_slots.specs.SurveysAndDrafts.{first_counts};

use wasm_tree::{Module, Which};

// Returns whether `count` is above the limit.
fn is_above(count: usize, which: Which) -> bool
    ensures { result ≡ nat_lt (limit which) count }
{
    count > which.limit() as usize
}

// Returns whether more functions than the limit stay if `moved` of `funcs` go.
fn leaves_too_many(funcs: usize, moved: usize) -> bool
    requires few { moved < 2 ^ 32 }
    ensures { result ≡ nat_lt (limit MostFunctions + moved) funcs }
{
    funcs > Which::Functions.limit() as usize + moved
}

/// Returns the first of the counts of types, imports and functions of the primary module that is
/// above its limit. Trampolines are not counted; the counts of the finished module are tested
/// again.
pub(crate) fn first_counts(module: &Module, moved: usize) -> Option<Which>
    requires imports { length «module».now.imports < 2 ^ 32 }
    requires few { moved < 2 ^ 32 }
    ensures { result ≡ first_counts «module».now moved }
{
    if is_above(module.types.len(), Which::Types) {
        return Some(Which::Types);
    }
    if is_above(module.imports.len() + moved, Which::Imports) {
        return Some(Which::Imports);
    }
    if leaves_too_many(module.funcs.len(), moved) {
        return Some(Which::Functions);
    }
    None
}
