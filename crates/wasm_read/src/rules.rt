ghost use Rattle.std.specs.Prelude.{◌≡◌, ◌≤◌, length, IsTrue};
ghost use Rattle.wasm_tree.specs.DataUse.{any_uses_data};
ghost use Rattle.wasm_read_spec.specs.Contents.{agrees};
ghost use Rattle.wasm_read_spec.specs.Files.{typed};

use wasm_bytes::Items;
use wasm_read_spec::Parts;
use wasm_tree::Func;

/// Returns whether the sections obey the rules on the whole file (WebAssembly Core 2.0, section
/// 5.5.16). `uses_data` is whether a body names a data segment.
#[tactic(auto, unfolding(wasm_read_spec::specs::Contents::agrees))]
pub fn agree(parts: &Parts, uses_data: bool) -> bool
    requires { uses_data ≡ any_uses_data parts.now.codes }
    ensures value { result ≡ agrees parts.now }
    ensures lengths { IsTrue result → length parts.now.func_types ≡ length parts.now.codes }
{
    if parts.func_types.len() != parts.codes.len() {
        return false;
    }
    match parts.data_count {
        None => !uses_data,
        Some(count) => count as usize == parts.datas.len(),
    }
}

/// Sets the type index of each function.
pub fn set_types(funcs: &mut Items<Func>, types: &[u32])
    requires { length types.now ≡ length funcs.old }
    ensures { funcs.new ≡ typed types.now funcs.old }
{
    for i in 0..types.len() {
        if let Some(func) = funcs.get_mut(i) {
            func.ty = types[i];
        }
    }
}
