ghost use Rattle.std.specs.Prelude.{◌≡◌};
ghost use Rattle.wasm_write_spec.specs.PlainCode.{un_code, bin_code, load_code, store_code};

use wasm_num::{BinOp, UnOp};
use wasm_tree::{LoadOp, StoreOp};

/// Returns the opcode of a unary operation (WebAssembly Core 2.0, section 5.4.7).
#[tactic(auto, unfolding(wasm_write_spec::specs::PlainCode::un_code))]
pub(crate) fn un_code(op: UnOp) -> u8
    ensures { result ≡ un_code op }
{
    match op {
        UnOp::I32Eqz => 0x45,
        UnOp::I64Eqz => 0x50,
        UnOp::I32Clz => 0x67,
        UnOp::I32Ctz => 0x68,
        UnOp::I32Popcnt => 0x69,
        UnOp::I64Clz => 0x79,
        UnOp::I64Ctz => 0x7A,
        UnOp::I64Popcnt => 0x7B,
        UnOp::I32Extend8S => 0xC0,
        UnOp::I32Extend16S => 0xC1,
        UnOp::I64Extend8S => 0xC2,
        UnOp::I64Extend16S => 0xC3,
        UnOp::I64Extend32S => 0xC4,
        UnOp::I32WrapI64 => 0xA7,
        UnOp::I64ExtendI32S => 0xAC,
        UnOp::I64ExtendI32U => 0xAD,
    }
}

/// Returns the opcode of a binary operation (WebAssembly Core 2.0, section 5.4.7).
#[tactic(auto, unfolding(wasm_write_spec::specs::PlainCode::bin_code))]
pub(crate) fn bin_code(op: BinOp) -> u8
    ensures { result ≡ bin_code op }
{
    match op {
        BinOp::I32Eq => 0x46,
        BinOp::I32Ne => 0x47,
        BinOp::I32LtS => 0x48,
        BinOp::I32LtU => 0x49,
        BinOp::I32GtS => 0x4A,
        BinOp::I32GtU => 0x4B,
        BinOp::I32LeS => 0x4C,
        BinOp::I32LeU => 0x4D,
        BinOp::I32GeS => 0x4E,
        BinOp::I32GeU => 0x4F,
        BinOp::I32Add => 0x6A,
        BinOp::I32Sub => 0x6B,
        BinOp::I32Mul => 0x6C,
        BinOp::I32DivS => 0x6D,
        BinOp::I32DivU => 0x6E,
        BinOp::I32RemS => 0x6F,
        BinOp::I32RemU => 0x70,
        BinOp::I32And => 0x71,
        BinOp::I32Or => 0x72,
        BinOp::I32Xor => 0x73,
        BinOp::I32Shl => 0x74,
        BinOp::I32ShrS => 0x75,
        BinOp::I32ShrU => 0x76,
        BinOp::I32Rotl => 0x77,
        BinOp::I32Rotr => 0x78,
        BinOp::I64Eq => 0x51,
        BinOp::I64Ne => 0x52,
        BinOp::I64LtS => 0x53,
        BinOp::I64LtU => 0x54,
        BinOp::I64GtS => 0x55,
        BinOp::I64GtU => 0x56,
        BinOp::I64LeS => 0x57,
        BinOp::I64LeU => 0x58,
        BinOp::I64GeS => 0x59,
        BinOp::I64GeU => 0x5A,
        BinOp::I64Add => 0x7C,
        BinOp::I64Sub => 0x7D,
        BinOp::I64Mul => 0x7E,
        BinOp::I64DivS => 0x7F,
        BinOp::I64DivU => 0x80,
        BinOp::I64RemS => 0x81,
        BinOp::I64RemU => 0x82,
        BinOp::I64And => 0x83,
        BinOp::I64Or => 0x84,
        BinOp::I64Xor => 0x85,
        BinOp::I64Shl => 0x86,
        BinOp::I64ShrS => 0x87,
        BinOp::I64ShrU => 0x88,
        BinOp::I64Rotl => 0x89,
        BinOp::I64Rotr => 0x8A,
    }
}

/// Returns the opcode of a load (WebAssembly Core 2.0, section 5.4.6).
#[tactic(auto, unfolding(wasm_write_spec::specs::PlainCode::load_code))]
pub(crate) fn load_code(op: LoadOp) -> u8
    ensures { result ≡ load_code op }
{
    match op {
        LoadOp::I32Load => 0x28,
        LoadOp::I64Load => 0x29,
        LoadOp::I32Load8S => 0x2C,
        LoadOp::I32Load8U => 0x2D,
        LoadOp::I32Load16S => 0x2E,
        LoadOp::I32Load16U => 0x2F,
        LoadOp::I64Load8S => 0x30,
        LoadOp::I64Load8U => 0x31,
        LoadOp::I64Load16S => 0x32,
        LoadOp::I64Load16U => 0x33,
        LoadOp::I64Load32S => 0x34,
        LoadOp::I64Load32U => 0x35,
    }
}

/// Returns the opcode of a store (WebAssembly Core 2.0, section 5.4.6).
#[tactic(auto, unfolding(wasm_write_spec::specs::PlainCode::store_code))]
pub(crate) fn store_code(op: StoreOp) -> u8
    ensures { result ≡ store_code op }
{
    match op {
        StoreOp::I32Store => 0x36,
        StoreOp::I64Store => 0x37,
        StoreOp::I32Store8 => 0x3A,
        StoreOp::I32Store16 => 0x3B,
        StoreOp::I64Store8 => 0x3C,
        StoreOp::I64Store16 => 0x3D,
        StoreOp::I64Store32 => 0x3E,
    }
}
