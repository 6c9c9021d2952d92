ghost use Rattle.std.specs.Prelude.{◌≡◌};
ghost use Rattle.wasm_read_spec.specs.Operations.{un_of, bin_of, load_of, store_of};

use wasm_num::{BinOp, UnOp};
use wasm_tree::{LoadOp, StoreOp};

/// Returns the unary operation with this opcode (WebAssembly Core 2.0, section 5.4.7).
#[tactic(auto, unfolding(wasm_read_spec::specs::Operations::un_of))]
pub fn un_of(opcode: u8) -> Option<UnOp>
    ensures { result ≡ un_of opcode }
{
    match opcode {
        0x45 => Some(UnOp::I32Eqz),
        0x50 => Some(UnOp::I64Eqz),
        0x67 => Some(UnOp::I32Clz),
        0x68 => Some(UnOp::I32Ctz),
        0x69 => Some(UnOp::I32Popcnt),
        0x79 => Some(UnOp::I64Clz),
        0x7A => Some(UnOp::I64Ctz),
        0x7B => Some(UnOp::I64Popcnt),
        0xC0 => Some(UnOp::I32Extend8S),
        0xC1 => Some(UnOp::I32Extend16S),
        0xC2 => Some(UnOp::I64Extend8S),
        0xC3 => Some(UnOp::I64Extend16S),
        0xC4 => Some(UnOp::I64Extend32S),
        0xA7 => Some(UnOp::I32WrapI64),
        0xAC => Some(UnOp::I64ExtendI32S),
        0xAD => Some(UnOp::I64ExtendI32U),
        _ => None,
    }
}

/// Returns the binary operation with this opcode (WebAssembly Core 2.0, section 5.4.7).
#[tactic(auto, unfolding(wasm_read_spec::specs::Operations::bin_of))]
pub fn bin_of(opcode: u8) -> Option<BinOp>
    ensures { result ≡ bin_of opcode }
{
    match opcode {
        0x46 => Some(BinOp::I32Eq),
        0x47 => Some(BinOp::I32Ne),
        0x48 => Some(BinOp::I32LtS),
        0x49 => Some(BinOp::I32LtU),
        0x4A => Some(BinOp::I32GtS),
        0x4B => Some(BinOp::I32GtU),
        0x4C => Some(BinOp::I32LeS),
        0x4D => Some(BinOp::I32LeU),
        0x4E => Some(BinOp::I32GeS),
        0x4F => Some(BinOp::I32GeU),
        0x6A => Some(BinOp::I32Add),
        0x6B => Some(BinOp::I32Sub),
        0x6C => Some(BinOp::I32Mul),
        0x6D => Some(BinOp::I32DivS),
        0x6E => Some(BinOp::I32DivU),
        0x6F => Some(BinOp::I32RemS),
        0x70 => Some(BinOp::I32RemU),
        0x71 => Some(BinOp::I32And),
        0x72 => Some(BinOp::I32Or),
        0x73 => Some(BinOp::I32Xor),
        0x74 => Some(BinOp::I32Shl),
        0x75 => Some(BinOp::I32ShrS),
        0x76 => Some(BinOp::I32ShrU),
        0x77 => Some(BinOp::I32Rotl),
        0x78 => Some(BinOp::I32Rotr),
        0x51 => Some(BinOp::I64Eq),
        0x52 => Some(BinOp::I64Ne),
        0x53 => Some(BinOp::I64LtS),
        0x54 => Some(BinOp::I64LtU),
        0x55 => Some(BinOp::I64GtS),
        0x56 => Some(BinOp::I64GtU),
        0x57 => Some(BinOp::I64LeS),
        0x58 => Some(BinOp::I64LeU),
        0x59 => Some(BinOp::I64GeS),
        0x5A => Some(BinOp::I64GeU),
        0x7C => Some(BinOp::I64Add),
        0x7D => Some(BinOp::I64Sub),
        0x7E => Some(BinOp::I64Mul),
        0x7F => Some(BinOp::I64DivS),
        0x80 => Some(BinOp::I64DivU),
        0x81 => Some(BinOp::I64RemS),
        0x82 => Some(BinOp::I64RemU),
        0x83 => Some(BinOp::I64And),
        0x84 => Some(BinOp::I64Or),
        0x85 => Some(BinOp::I64Xor),
        0x86 => Some(BinOp::I64Shl),
        0x87 => Some(BinOp::I64ShrS),
        0x88 => Some(BinOp::I64ShrU),
        0x89 => Some(BinOp::I64Rotl),
        0x8A => Some(BinOp::I64Rotr),
        _ => None,
    }
}

/// Returns the load with this opcode (WebAssembly Core 2.0, section 5.4.6).
#[tactic(auto, unfolding(wasm_read_spec::specs::Operations::load_of))]
pub fn load_of(opcode: u8) -> Option<LoadOp>
    ensures { result ≡ load_of opcode }
{
    match opcode {
        0x28 => Some(LoadOp::I32Load),
        0x29 => Some(LoadOp::I64Load),
        0x2C => Some(LoadOp::I32Load8S),
        0x2D => Some(LoadOp::I32Load8U),
        0x2E => Some(LoadOp::I32Load16S),
        0x2F => Some(LoadOp::I32Load16U),
        0x30 => Some(LoadOp::I64Load8S),
        0x31 => Some(LoadOp::I64Load8U),
        0x32 => Some(LoadOp::I64Load16S),
        0x33 => Some(LoadOp::I64Load16U),
        0x34 => Some(LoadOp::I64Load32S),
        0x35 => Some(LoadOp::I64Load32U),
        _ => None,
    }
}

/// Returns the store with this opcode (WebAssembly Core 2.0, section 5.4.6).
#[tactic(auto, unfolding(wasm_read_spec::specs::Operations::store_of))]
pub fn store_of(opcode: u8) -> Option<StoreOp>
    ensures { result ≡ store_of opcode }
{
    match opcode {
        0x36 => Some(StoreOp::I32Store),
        0x37 => Some(StoreOp::I64Store),
        0x3A => Some(StoreOp::I32Store8),
        0x3B => Some(StoreOp::I32Store16),
        0x3C => Some(StoreOp::I64Store8),
        0x3D => Some(StoreOp::I64Store16),
        0x3E => Some(StoreOp::I64Store32),
        _ => None,
    }
}
