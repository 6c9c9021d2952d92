//! The operations, applied by their names.

ghost use Rattle.std.specs.Prelude.{◌≡◌};
ghost use Rattle.wasm_num.specs.Operations.{W32, W64, type_of, value_of, number, un_from, un_to, un_value, bin_from, bin_to, bin_value, or_trap};

use crate::{BinOp, Num, Trap, UnOp, narrow, wide};

/// Applies an operation to one i32.
#[tactic(auto, unfolding(crate::specs::Operations::un_from, crate::specs::Operations::un_to, crate::specs::Operations::un_value, crate::specs::Operations::truth))]
fn apply1_32(op: UnOp, x: u32) -> Num
    requires { un_from op ≡ W32 }
    ensures { result ≡ number (un_to op) (un_value op x) }
{
    match op {
        UnOp::I32Eqz => Num::I32(u32::from(x == 0)),
        UnOp::I32Clz => Num::I32(narrow::leading(x)),
        UnOp::I32Ctz => Num::I32(narrow::trailing(x)),
        UnOp::I32Popcnt => Num::I32(narrow::ones(x)),
        UnOp::I32Extend8S => Num::I32(narrow::extended_8(x)),
        UnOp::I32Extend16S => Num::I32(narrow::extended_16(x)),
        UnOp::I64ExtendI32S => Num::I64(wide::extended_32(u64::from(x))),
        UnOp::I64ExtendI32U => Num::I64(u64::from(x)),
        UnOp::I64Eqz
        | UnOp::I64Clz
        | UnOp::I64Ctz
        | UnOp::I64Popcnt
        | UnOp::I64Extend8S
        | UnOp::I64Extend16S
        | UnOp::I64Extend32S
        | UnOp::I32WrapI64 => unreachable!(),
    }
}

/// Applies an operation to one i64.
#[tactic(auto, unfolding(crate::specs::Operations::un_from, crate::specs::Operations::un_to, crate::specs::Operations::un_value, crate::specs::Operations::truth))]
fn apply1_64(op: UnOp, x: u64) -> Num
    requires { un_from op ≡ W64 }
    ensures { result ≡ number (un_to op) (un_value op x) }
{
    match op {
        UnOp::I64Eqz => Num::I32(u32::from(x == 0)),
        UnOp::I64Clz => Num::I64(wide::leading(x)),
        UnOp::I64Ctz => Num::I64(wide::trailing(x)),
        UnOp::I64Popcnt => Num::I64(wide::ones(x)),
        UnOp::I64Extend8S => Num::I64(wide::extended_8(x)),
        UnOp::I64Extend16S => Num::I64(wide::extended_16(x)),
        UnOp::I64Extend32S => Num::I64(wide::extended_32(x)),
        UnOp::I32WrapI64 => Num::I32((x % (1 << 32)) as u32),
        UnOp::I32Eqz
        | UnOp::I32Clz
        | UnOp::I32Ctz
        | UnOp::I32Popcnt
        | UnOp::I32Extend8S
        | UnOp::I32Extend16S
        | UnOp::I64ExtendI32S
        | UnOp::I64ExtendI32U => unreachable!(),
    }
}

/// Turns `None` into a trap.
fn or_trap_32(value: Option<u32>) -> Result<Num, Trap>
    ensures { result ≡ or_trap W32 value }
{
    match value {
        Some(n) => Ok(Num::I32(n)),
        None => Err(Trap),
    }
}

/// Applies an operation to two i32s.
#[tactic(auto, unfolding(crate::specs::Operations::bin_from, crate::specs::Operations::bin_to, crate::specs::Operations::bin_value, crate::specs::Operations::truth))]
fn apply2_32(op: BinOp, x: u32, y: u32) -> Result<Num, Trap>
    requires { bin_from op ≡ W32 }
    ensures { result ≡ or_trap (bin_to op) (bin_value op x y) }
{
    match op {
        BinOp::I32Eq => Ok(Num::I32(u32::from(x == y))),
        BinOp::I32Ne => Ok(Num::I32(u32::from(x != y))),
        BinOp::I32LtS => Ok(Num::I32(u32::from(narrow::signed(x) < narrow::signed(y)))),
        BinOp::I32LtU => Ok(Num::I32(u32::from(x < y))),
        BinOp::I32GtS => Ok(Num::I32(u32::from(narrow::signed(x) > narrow::signed(y)))),
        BinOp::I32GtU => Ok(Num::I32(u32::from(x > y))),
        BinOp::I32LeS => Ok(Num::I32(u32::from(narrow::signed(x) <= narrow::signed(y)))),
        BinOp::I32LeU => Ok(Num::I32(u32::from(x <= y))),
        BinOp::I32GeS => Ok(Num::I32(u32::from(narrow::signed(x) >= narrow::signed(y)))),
        BinOp::I32GeU => Ok(Num::I32(u32::from(x >= y))),
        BinOp::I32Add => Ok(Num::I32(narrow::add(x, y))),
        BinOp::I32Sub => Ok(Num::I32(narrow::subtract(x, y))),
        BinOp::I32Mul => Ok(Num::I32(narrow::multiply(x, y))),
        BinOp::I32DivS => or_trap_32(narrow::divide_signed(x, y)),
        BinOp::I32DivU => or_trap_32(narrow::divide_unsigned(x, y)),
        BinOp::I32RemS => or_trap_32(narrow::remainder_signed(x, y)),
        BinOp::I32RemU => or_trap_32(narrow::remainder_unsigned(x, y)),
        BinOp::I32And => Ok(Num::I32(x & y)),
        BinOp::I32Or => Ok(Num::I32(x | y)),
        BinOp::I32Xor => Ok(Num::I32(x ^ y)),
        BinOp::I32Shl => Ok(Num::I32(narrow::shift_left(x, y))),
        BinOp::I32ShrS => Ok(Num::I32(narrow::shift_right_signed(x, y))),
        BinOp::I32ShrU => Ok(Num::I32(narrow::shift_right_unsigned(x, y))),
        BinOp::I32Rotl => Ok(Num::I32(narrow::rotate_left(x, y))),
        BinOp::I32Rotr => Ok(Num::I32(narrow::rotate_right(x, y))),
        BinOp::I64Eq
        | BinOp::I64Ne
        | BinOp::I64LtS
        | BinOp::I64LtU
        | BinOp::I64GtS
        | BinOp::I64GtU
        | BinOp::I64LeS
        | BinOp::I64LeU
        | BinOp::I64GeS
        | BinOp::I64GeU
        | BinOp::I64Add
        | BinOp::I64Sub
        | BinOp::I64Mul
        | BinOp::I64DivS
        | BinOp::I64DivU
        | BinOp::I64RemS
        | BinOp::I64RemU
        | BinOp::I64And
        | BinOp::I64Or
        | BinOp::I64Xor
        | BinOp::I64Shl
        | BinOp::I64ShrS
        | BinOp::I64ShrU
        | BinOp::I64Rotl
        | BinOp::I64Rotr => unreachable!(),
    }
}

/// Turns `None` into a trap.
fn or_trap_64(value: Option<u64>) -> Result<Num, Trap>
    ensures { result ≡ or_trap W64 value }
{
    match value {
        Some(n) => Ok(Num::I64(n)),
        None => Err(Trap),
    }
}

/// Applies an operation to two i64s.
#[tactic(auto, unfolding(crate::specs::Operations::bin_from, crate::specs::Operations::bin_to, crate::specs::Operations::bin_value, crate::specs::Operations::truth))]
fn apply2_64(op: BinOp, x: u64, y: u64) -> Result<Num, Trap>
    requires { bin_from op ≡ W64 }
    ensures { result ≡ or_trap (bin_to op) (bin_value op x y) }
{
    match op {
        BinOp::I64Eq => Ok(Num::I32(u32::from(x == y))),
        BinOp::I64Ne => Ok(Num::I32(u32::from(x != y))),
        BinOp::I64LtS => Ok(Num::I32(u32::from(wide::signed(x) < wide::signed(y)))),
        BinOp::I64LtU => Ok(Num::I32(u32::from(x < y))),
        BinOp::I64GtS => Ok(Num::I32(u32::from(wide::signed(x) > wide::signed(y)))),
        BinOp::I64GtU => Ok(Num::I32(u32::from(x > y))),
        BinOp::I64LeS => Ok(Num::I32(u32::from(wide::signed(x) <= wide::signed(y)))),
        BinOp::I64LeU => Ok(Num::I32(u32::from(x <= y))),
        BinOp::I64GeS => Ok(Num::I32(u32::from(wide::signed(x) >= wide::signed(y)))),
        BinOp::I64GeU => Ok(Num::I32(u32::from(x >= y))),
        BinOp::I64Add => Ok(Num::I64(wide::add(x, y))),
        BinOp::I64Sub => Ok(Num::I64(wide::subtract(x, y))),
        BinOp::I64Mul => Ok(Num::I64(wide::multiply(x, y))),
        BinOp::I64DivS => or_trap_64(wide::divide_signed(x, y)),
        BinOp::I64DivU => or_trap_64(wide::divide_unsigned(x, y)),
        BinOp::I64RemS => or_trap_64(wide::remainder_signed(x, y)),
        BinOp::I64RemU => or_trap_64(wide::remainder_unsigned(x, y)),
        BinOp::I64And => Ok(Num::I64(x & y)),
        BinOp::I64Or => Ok(Num::I64(x | y)),
        BinOp::I64Xor => Ok(Num::I64(x ^ y)),
        BinOp::I64Shl => Ok(Num::I64(wide::shift_left(x, y))),
        BinOp::I64ShrS => Ok(Num::I64(wide::shift_right_signed(x, y))),
        BinOp::I64ShrU => Ok(Num::I64(wide::shift_right_unsigned(x, y))),
        BinOp::I64Rotl => Ok(Num::I64(wide::rotate_left(x, y))),
        BinOp::I64Rotr => Ok(Num::I64(wide::rotate_right(x, y))),
        BinOp::I32Eq
        | BinOp::I32Ne
        | BinOp::I32LtS
        | BinOp::I32LtU
        | BinOp::I32GtS
        | BinOp::I32GtU
        | BinOp::I32LeS
        | BinOp::I32LeU
        | BinOp::I32GeS
        | BinOp::I32GeU
        | BinOp::I32Add
        | BinOp::I32Sub
        | BinOp::I32Mul
        | BinOp::I32DivS
        | BinOp::I32DivU
        | BinOp::I32RemS
        | BinOp::I32RemU
        | BinOp::I32And
        | BinOp::I32Or
        | BinOp::I32Xor
        | BinOp::I32Shl
        | BinOp::I32ShrS
        | BinOp::I32ShrU
        | BinOp::I32Rotl
        | BinOp::I32Rotr => unreachable!(),
    }
}

/// Returns the result of an operation on one number: a test, a count of bits, an extension or a
/// conversion (WebAssembly Core 2.0, sections 4.3.2 and 4.3.4). The call allocates nothing.
pub fn apply1(op: UnOp, x: Num) -> Num
    requires operand { type_of x ≡ un_from op }
    ensures value { result ≡ number (un_to op) (un_value op (value_of x)) }
{
    match x {
        Num::I32(x) => apply1_32(op, x),
        Num::I64(x) => apply1_64(op, x),
    }
}

/// Returns the result of an operation on two numbers (WebAssembly Core 2.0, section 4.3.2). The
/// error is `Trap` exactly for a quotient or a remainder by 0, and for a signed quotient that the
/// type cannot hold, which is that of the least number by -1. The call allocates nothing.
pub fn apply2(op: BinOp, x: Num, y: Num) -> Result<Num, Trap>
    requires first { type_of x ≡ bin_from op }
    requires second { type_of y ≡ bin_from op }
    ensures value { result ≡ or_trap (bin_to op) (bin_value op (value_of x) (value_of y)) }
{
    match (x, y) {
        (Num::I32(x), Num::I32(y)) => apply2_32(op, x, y),
        (Num::I64(x), Num::I64(y)) => apply2_64(op, x, y),
        (Num::I32(_), Num::I64(_)) | (Num::I64(_), Num::I32(_)) => unreachable!(),
    }
}
