ghost use Rattle.std.specs.Prelude.{◌≡◌};
ghost use Rattle.wasm_tree.specs.DataUse as spec;

use wasm_tree::{Func, Instr, operands_pass_layer_by_layer};

// Returns whether the instruction, or one inside it, names a data segment.
#[cycle(uses)]
fn uses_data_in(instr: &Instr) -> bool
    ensures { result ≡ spec.uses_data_in instr.now }
{
    operands_pass_layer_by_layer();
    match instr {
        Instr::Block(_, body) => uses_data(body.as_slice()),
        Instr::Loop(_, body) => uses_data(body.as_slice()),
        Instr::If(_, body, other) => uses_data(body.as_slice()) || uses_data(other.as_slice()),
        Instr::MemoryInit { .. } | Instr::DataDrop(_) => true,
        _ => false,
    }
}

#[cycle(uses)]
fn uses_data(body: &[Instr]) -> bool
    ensures { result ≡ spec.uses_data body.now }
{
    for instr in body {
        if uses_data_in(instr) {
            return true;
        }
    }
    false
}

/// Returns whether a body has `memory.init` or `data.drop`.
pub(crate) fn any_uses_data(funcs: &[Func]) -> bool
    ensures { result ≡ spec.any_uses_data funcs.now }
{
    for func in funcs {
        if uses_data(func.body.as_slice()) {
            return true;
        }
    }
    false
}
