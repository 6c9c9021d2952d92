// Code that names segments.

ghost use Rattle.std.specs.Prelude.{◌≡◌};
ghost use Rattle.split_plan.specs.SegmentReferences.{uses_segment, uses_segment_in};

use wasm_tree::{Instr, operands_pass_layer_by_layer};

// Returns whether the instruction names a segment, or one inside it does.
#[cycle(uses)]
fn uses_in(instr: &Instr) -> bool
    ensures { result ≡ uses_segment_in instr.now }
{
    match instr {
        Instr::Block(_, body) => {
            operands_pass_layer_by_layer();
            uses_segments(body.as_slice())
        }
        Instr::Loop(_, body) => {
            operands_pass_layer_by_layer();
            uses_segments(body.as_slice())
        }
        Instr::If(_, body, other) => {
            operands_pass_layer_by_layer();
            uses_segments(body.as_slice()) || uses_segments(other.as_slice())
        }
        Instr::MemoryInit { .. }
        | Instr::DataDrop(_)
        | Instr::TableInit { .. }
        | Instr::ElemDrop(_) => true,
        _ => false,
    }
}

/// Returns whether an instruction, or one inside it, names a segment: `memory.init`, `data.drop`,
/// `table.init` and `elem.drop` do.
#[cycle(uses)]
pub fn uses_segments(body: &[Instr]) -> bool
    ensures { result ≡ uses_segment body.now }
{
    for instr in body {
        if uses_in(instr) {
            return true;
        }
    }
    false
}
