//! The operations on i32, each by its formula (WebAssembly Core 2.0, section 4.3.2).

ghost use Rattle.std.specs.Prelude.{◌≡◌, ◌^◌, ◌<◌};
ghost use Rattle.wasm_num.specs.Operations as op;

/// Returns the number read with its sign.
#[tactic(auto, unfolding(crate::specs::Operations::signed))]
pub fn signed(x: u32) -> i32
    ensures value { result ≡ op.signed 32 x }
{
    x.cast_signed()
}

/// Returns the number whose signed reading is `z`.
#[tactic(auto, unfolding(crate::specs::Operations::wrapped))]
pub fn wrapped(z: i32) -> u32
    ensures value { result ≡ op.wrapped 32 z }
{
    z.cast_unsigned()
}

#[tactic(auto, using(crate::proofs::Counts::leading_is))]
pub fn leading(x: u32) -> u32
    ensures value { result ≡ op.leading 32 x }
{
    x.leading_zeros()
}

#[tactic(auto, using(crate::proofs::Counts::trailing_is))]
pub fn trailing(x: u32) -> u32
    ensures value { result ≡ op.trailing 32 x }
{
    x.trailing_zeros()
}

#[tactic(auto, using(crate::proofs::Counts::ones_is))]
pub fn ones(x: u32) -> u32
    ensures value { result ≡ op.ones 32 x }
{
    x.count_ones()
}

#[tactic(auto, unfolding(crate::specs::Operations::add))]
pub fn add(x: u32, y: u32) -> u32
    ensures value { result ≡ op.add 32 x y }
{
    x.wrapping_add(y)
}

#[tactic(auto, unfolding(crate::specs::Operations::subtract, crate::specs::Operations::wrapped))]
pub fn subtract(x: u32, y: u32) -> u32
    ensures value { result ≡ op.subtract 32 x y }
{
    x.wrapping_sub(y)
}

#[tactic(auto, unfolding(crate::specs::Operations::multiply))]
pub fn multiply(x: u32, y: u32) -> u32
    ensures value { result ≡ op.multiply 32 x y }
{
    x.wrapping_mul(y)
}

#[tactic(auto, unfolding(crate::specs::Operations::divide_signed))]
pub fn divide_signed(x: u32, y: u32) -> Option<u32>
    ensures value { result ≡ op.divide_signed 32 x y }
{
    if y == 0 || (x == 1 << 31 && y == u32::MAX) {
        return None;
    }
    Some(wrapped(signed(x) / signed(y)))
}

#[tactic(auto, unfolding(crate::specs::Operations::divide_unsigned))]
pub fn divide_unsigned(x: u32, y: u32) -> Option<u32>
    ensures value { result ≡ op.divide_unsigned x y }
{
    if y == 0 { None } else { Some(x / y) }
}

#[tactic(auto, unfolding(crate::specs::Operations::remainder_signed))]
pub fn remainder_signed(x: u32, y: u32) -> Option<u32>
    ensures value { result ≡ op.remainder_signed 32 x y }
{
    if y == 0 {
        return None;
    }
    Some(wrapped(signed(x).wrapping_rem(signed(y))))
}

#[tactic(auto, unfolding(crate::specs::Operations::remainder_unsigned))]
pub fn remainder_unsigned(x: u32, y: u32) -> Option<u32>
    ensures value { result ≡ op.remainder_unsigned x y }
{
    if y == 0 { None } else { Some(x % y) }
}

#[tactic(auto, unfolding(crate::specs::Operations::shift_left))]
pub fn shift_left(x: u32, y: u32) -> u32
    ensures value { result ≡ op.shift_left 32 x y }
{
    x << (y % 32)
}

#[tactic(auto, unfolding(crate::specs::Operations::shift_right_signed, crate::specs::Operations::halved))]
pub fn shift_right_signed(x: u32, y: u32) -> u32
    ensures value { result ≡ op.shift_right_signed 32 x y }
{
    wrapped(signed(x) >> (y % 32))
}

#[tactic(auto, unfolding(crate::specs::Operations::shift_right_unsigned))]
pub fn shift_right_unsigned(x: u32, y: u32) -> u32
    ensures value { result ≡ op.shift_right_unsigned 32 x y }
{
    x >> (y % 32)
}

#[tactic(auto, using(crate::proofs::Rotations::rotated_left), unfolding(crate::specs::Operations::rotate_left))]
pub fn rotate_left(x: u32, y: u32) -> u32
    ensures value { result ≡ op.rotate_left 32 x y }
{
    let count = y % 32;
    if count == 0 {
        x
    } else {
        (x << count) | (x >> (32 - count))
    }
}

#[tactic(auto, using(crate::proofs::Rotations::rotated_right), unfolding(crate::specs::Operations::rotate_right))]
pub fn rotate_right(x: u32, y: u32) -> u32
    ensures value { result ≡ op.rotate_right 32 x y }
{
    let count = y % 32;
    if count == 0 {
        x
    } else {
        (x << (32 - count)) | (x >> count)
    }
}

/// Returns the lowest 8 bits, extended with their sign.
#[tactic(auto, unfolding(crate::specs::Operations::extended, crate::specs::Operations::signed, crate::specs::Operations::wrapped))]
pub fn extended_8(x: u32) -> u32
    ensures value { result ≡ op.extended 8 32 x }
{
    let low = x % 256;
    if low < 128 { low } else { u32::MAX - 255 + low }
}

/// Returns the lowest 16 bits, extended with their sign.
#[tactic(auto, unfolding(crate::specs::Operations::extended, crate::specs::Operations::signed, crate::specs::Operations::wrapped))]
pub fn extended_16(x: u32) -> u32
    ensures value { result ≡ op.extended 16 32 x }
{
    let low = x % 65536;
    if low < 32768 {
        low
    } else {
        u32::MAX - 65535 + low
    }
}
