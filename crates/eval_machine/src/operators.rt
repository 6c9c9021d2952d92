// Which numeric operations take i64 operands.

ghost use Rattle.std.specs.Prelude.{◌≡◌};
ghost use Rattle.wasm_num.specs.Operations.{un_from, bin_from};
ghost use Rattle.eval_machine.specs.DenotedValues.{width_of};

use wasm_num::{BinOp, UnOp};
use wasm_tree::ValType;
use wasm_valid_bodies::{bin_operand, un_operand};

pub(crate) fn is_unary_wide(op: UnOp) -> bool
    ensures { width_of result ≡ un_from op }
{
    matches!(un_operand(op), ValType::I64)
}

pub(crate) fn is_binary_wide(op: BinOp) -> bool
    ensures { width_of result ≡ bin_from op }
{
    matches!(bin_operand(op), ValType::I64)
}
