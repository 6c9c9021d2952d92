// The types of the operations, loads and stores.

ghost use Rattle.std.specs.Prelude.{◌≡◌};
ghost use Rattle.wasm_valid_bodies.specs.Ops.{un_operand, un_result, bin_operand, bin_result, load_type, store_type};
ghost use Rattle.wasm_tree_spec.specs.Prelude.{read_width, store_width};

use wasm_num::{BinOp, UnOp};
use wasm_tree::{LoadOp, StoreOp, ValType};

/// The type of the operand of an operation on one integer (WebAssembly Core 2.0, section 3.3.1).
#[tactic(auto, unfolding(wasm_num::specs::Operations::un_from))]
pub fn un_operand(op: UnOp) -> ValType
    ensures { result ≡ un_operand op }
{
    match op {
        UnOp::I32Eqz
        | UnOp::I32Clz
        | UnOp::I32Ctz
        | UnOp::I32Popcnt
        | UnOp::I32Extend8S
        | UnOp::I32Extend16S
        | UnOp::I64ExtendI32S
        | UnOp::I64ExtendI32U => ValType::I32,
        UnOp::I64Eqz
        | UnOp::I64Clz
        | UnOp::I64Ctz
        | UnOp::I64Popcnt
        | UnOp::I64Extend8S
        | UnOp::I64Extend16S
        | UnOp::I64Extend32S
        | UnOp::I32WrapI64 => ValType::I64,
    }
}

#[tactic(auto, unfolding(wasm_num::specs::Operations::un_to))]
pub fn un_result(op: UnOp) -> ValType
    ensures { result ≡ un_result op }
{
    match op {
        UnOp::I32Eqz
        | UnOp::I64Eqz
        | UnOp::I32Clz
        | UnOp::I32Ctz
        | UnOp::I32Popcnt
        | UnOp::I32Extend8S
        | UnOp::I32Extend16S
        | UnOp::I32WrapI64 => ValType::I32,
        UnOp::I64Clz
        | UnOp::I64Ctz
        | UnOp::I64Popcnt
        | UnOp::I64Extend8S
        | UnOp::I64Extend16S
        | UnOp::I64Extend32S
        | UnOp::I64ExtendI32S
        | UnOp::I64ExtendI32U => ValType::I64,
    }
}

/// The type of both operands of an operation on two integers (WebAssembly Core 2.0, section 3.3.1).
#[tactic(auto, unfolding(wasm_num::specs::Operations::bin_from))]
pub fn bin_operand(op: BinOp) -> ValType
    ensures { result ≡ bin_operand op }
{
    match op {
        BinOp::I32Eq
        | BinOp::I32Ne
        | BinOp::I32LtS
        | BinOp::I32LtU
        | BinOp::I32GtS
        | BinOp::I32GtU
        | BinOp::I32LeS
        | BinOp::I32LeU
        | BinOp::I32GeS
        | BinOp::I32GeU
        | BinOp::I32Add
        | BinOp::I32Sub
        | BinOp::I32Mul
        | BinOp::I32DivS
        | BinOp::I32DivU
        | BinOp::I32RemS
        | BinOp::I32RemU
        | BinOp::I32And
        | BinOp::I32Or
        | BinOp::I32Xor
        | BinOp::I32Shl
        | BinOp::I32ShrS
        | BinOp::I32ShrU
        | BinOp::I32Rotl
        | BinOp::I32Rotr => ValType::I32,
        BinOp::I64Eq
        | BinOp::I64Ne
        | BinOp::I64LtS
        | BinOp::I64LtU
        | BinOp::I64GtS
        | BinOp::I64GtU
        | BinOp::I64LeS
        | BinOp::I64LeU
        | BinOp::I64GeS
        | BinOp::I64GeU
        | BinOp::I64Add
        | BinOp::I64Sub
        | BinOp::I64Mul
        | BinOp::I64DivS
        | BinOp::I64DivU
        | BinOp::I64RemS
        | BinOp::I64RemU
        | BinOp::I64And
        | BinOp::I64Or
        | BinOp::I64Xor
        | BinOp::I64Shl
        | BinOp::I64ShrS
        | BinOp::I64ShrU
        | BinOp::I64Rotl
        | BinOp::I64Rotr => ValType::I64,
    }
}

#[tactic(auto, unfolding(wasm_num::specs::Operations::bin_to))]
pub fn bin_result(op: BinOp) -> ValType
    ensures { result ≡ bin_result op }
{
    match op {
        BinOp::I32Eq
        | BinOp::I32Ne
        | BinOp::I32LtS
        | BinOp::I32LtU
        | BinOp::I32GtS
        | BinOp::I32GtU
        | BinOp::I32LeS
        | BinOp::I32LeU
        | BinOp::I32GeS
        | BinOp::I32GeU
        | BinOp::I32Add
        | BinOp::I32Sub
        | BinOp::I32Mul
        | BinOp::I32DivS
        | BinOp::I32DivU
        | BinOp::I32RemS
        | BinOp::I32RemU
        | BinOp::I32And
        | BinOp::I32Or
        | BinOp::I32Xor
        | BinOp::I32Shl
        | BinOp::I32ShrS
        | BinOp::I32ShrU
        | BinOp::I32Rotl
        | BinOp::I32Rotr
        | BinOp::I64Eq
        | BinOp::I64Ne
        | BinOp::I64LtS
        | BinOp::I64LtU
        | BinOp::I64GtS
        | BinOp::I64GtU
        | BinOp::I64LeS
        | BinOp::I64LeU
        | BinOp::I64GeS
        | BinOp::I64GeU => ValType::I32,
        BinOp::I64Add
        | BinOp::I64Sub
        | BinOp::I64Mul
        | BinOp::I64DivS
        | BinOp::I64DivU
        | BinOp::I64RemS
        | BinOp::I64RemU
        | BinOp::I64And
        | BinOp::I64Or
        | BinOp::I64Xor
        | BinOp::I64Shl
        | BinOp::I64ShrS
        | BinOp::I64ShrU
        | BinOp::I64Rotl
        | BinOp::I64Rotr => ValType::I64,
    }
}

pub fn load_type(op: LoadOp) -> ValType
    ensures { result ≡ load_type op }
{
    match op {
        LoadOp::I32Load
        | LoadOp::I32Load8S
        | LoadOp::I32Load8U
        | LoadOp::I32Load16S
        | LoadOp::I32Load16U => ValType::I32,
        LoadOp::I64Load
        | LoadOp::I64Load8S
        | LoadOp::I64Load8U
        | LoadOp::I64Load16S
        | LoadOp::I64Load16U
        | LoadOp::I64Load32S
        | LoadOp::I64Load32U => ValType::I64,
    }
}

pub fn load_width(op: LoadOp) -> u32
    ensures { result ≡ read_width op }
{
    match op {
        LoadOp::I32Load | LoadOp::I64Load32S | LoadOp::I64Load32U => 4,
        LoadOp::I64Load => 8,
        LoadOp::I32Load8S | LoadOp::I32Load8U | LoadOp::I64Load8S | LoadOp::I64Load8U => 1,
        LoadOp::I32Load16S | LoadOp::I32Load16U | LoadOp::I64Load16S | LoadOp::I64Load16U => 2,
    }
}

pub fn store_type(op: StoreOp) -> ValType
    ensures { result ≡ store_type op }
{
    match op {
        StoreOp::I32Store | StoreOp::I32Store8 | StoreOp::I32Store16 => ValType::I32,
        StoreOp::I64Store | StoreOp::I64Store8 | StoreOp::I64Store16 | StoreOp::I64Store32 =>
            ValType::I64,
    }
}

pub fn store_width(op: StoreOp) -> u32
    ensures { result ≡ store_width op }
{
    match op {
        StoreOp::I32Store | StoreOp::I64Store32 => 4,
        StoreOp::I64Store => 8,
        StoreOp::I32Store8 | StoreOp::I64Store8 => 1,
        StoreOp::I32Store16 | StoreOp::I64Store16 => 2,
    }
}
