// Tests for a taken namespace and for too many parameters.

ghost use Rattle.std.specs.Prelude.{◌≡◌, ◌≤◌, ◌^◌, [], length, map, nat_lt, option_and_then, slice_get, sum};
ghost use Rattle.std.specs.Option.{option_map_or};
ghost use Rattle.std.specs.Str.{bytes_eq};
ghost use Rattle.base_lists.specs.Places.{first_place};
ghost use Rattle.wasm_tree.specs.Limits.{limit};
ghost use Rattle.wasm_tree.specs.declared.which.Which.TheVariants.{Trampolines};

use wasm_bytes::Name;
use wasm_tree::{FuncType, Import, Which};

fn has_namespace(import: &Import, namespace: &str) -> bool
    ensures { result ≡ bytes_eq import.now.«module» namespace.now }
{
    import.module.as_str() == namespace
}

/// Returns the place of the first import from `namespace`.
pub(crate) fn namespace_taken(imports: &[Import], namespace: &Name) -> Option<u32>
    requires { length imports.now ≤ 2 ^ 32 }
    ensures { result ≡ first_place (λ i. bytes_eq i.«module» namespace.now) imports.now 0 }
{
    let name = namespace.as_str();
    for at in 0..imports.len() {
        if has_namespace(&imports[at], name) {
            return Some(at as u32);
        }
    }
    None
}

/// Returns how many parameters a function has, and 0 if the function or its type does not exist.
pub(crate) fn param_count(types: &[FuncType], func_types: &[u32], func: u32) -> usize
    ensures { result ≡ length (option_map_or (λ t. t.params) (option_and_then (slice_get types.now) (slice_get func_types.now func)) []) }
{
    let Some(ty) = func_types.get(func as usize) else {
        return 0;
    };
    match types.get(*ty as usize) {
        Some(ty) => ty.params.len(),
        None => 0,
    }
}

/// Returns whether the moved functions together have more parameters than the limit on trampolines.
pub(crate) fn too_many_params(types: &[FuncType], func_types: &[u32], moved: &[u32]) -> bool
    ensures { result ≡ nat_lt (limit Trampolines) (sum (map (λ func. length (option_map_or (λ t. t.params) (option_and_then (slice_get types.now) (slice_get func_types.now func)) [])) moved.now)) }
{
    let mut left = Which::Trampolines.limit() as usize;
    for func in moved {
        let params = param_count(types, func_types, *func);
        if left < params {
            return true;
        }
        left -= params;
    }
    false
}
