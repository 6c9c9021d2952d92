//! The operations on i64, each by its formula (WebAssembly Core 2.0, section 4.3.2).

ghost use Rattle.std.specs.Prelude.{◌≡◌, ◌^◌, ◌<◌};
ghost use Rattle.wasm_num.specs.Operations as op;

/// Returns the number read with its sign.
#[tactic(auto, unfolding(crate::specs::Operations::signed))]
pub fn signed(x: u64) -> i64
    ensures value { result ≡ op.signed 64 x }
{
    x.cast_signed()
}

/// Returns the number whose signed reading is `z`.
#[tactic(auto, unfolding(crate::specs::Operations::wrapped))]
pub fn wrapped(z: i64) -> u64
    ensures value { result ≡ op.wrapped 64 z }
{
    z.cast_unsigned()
}

#[tactic(auto, using(crate::proofs::Counts::leading_is))]
pub fn leading(x: u64) -> u64
    ensures value { result ≡ op.leading 64 x }
{
    u64::from(x.leading_zeros())
}

#[tactic(auto, using(crate::proofs::Counts::trailing_is))]
pub fn trailing(x: u64) -> u64
    ensures value { result ≡ op.trailing 64 x }
{
    u64::from(x.trailing_zeros())
}

#[tactic(auto, using(crate::proofs::Counts::ones_is))]
pub fn ones(x: u64) -> u64
    ensures value { result ≡ op.ones 64 x }
{
    u64::from(x.count_ones())
}

#[tactic(auto, unfolding(crate::specs::Operations::add))]
pub fn add(x: u64, y: u64) -> u64
    ensures value { result ≡ op.add 64 x y }
{
    x.wrapping_add(y)
}

#[tactic(auto, unfolding(crate::specs::Operations::subtract, crate::specs::Operations::wrapped))]
pub fn subtract(x: u64, y: u64) -> u64
    ensures value { result ≡ op.subtract 64 x y }
{
    x.wrapping_sub(y)
}

#[tactic(auto, unfolding(crate::specs::Operations::multiply))]
pub fn multiply(x: u64, y: u64) -> u64
    ensures value { result ≡ op.multiply 64 x y }
{
    x.wrapping_mul(y)
}

#[tactic(auto, unfolding(crate::specs::Operations::divide_signed))]
pub fn divide_signed(x: u64, y: u64) -> Option<u64>
    ensures value { result ≡ op.divide_signed 64 x y }
{
    if y == 0 || (x == 1 << 63 && y == u64::MAX) {
        return None;
    }
    Some(wrapped(signed(x) / signed(y)))
}

#[tactic(auto, unfolding(crate::specs::Operations::divide_unsigned))]
pub fn divide_unsigned(x: u64, y: u64) -> Option<u64>
    ensures value { result ≡ op.divide_unsigned x y }
{
    if y == 0 { None } else { Some(x / y) }
}

#[tactic(auto, unfolding(crate::specs::Operations::remainder_signed))]
pub fn remainder_signed(x: u64, y: u64) -> Option<u64>
    ensures value { result ≡ op.remainder_signed 64 x y }
{
    if y == 0 {
        return None;
    }
    Some(wrapped(signed(x).wrapping_rem(signed(y))))
}

#[tactic(auto, unfolding(crate::specs::Operations::remainder_unsigned))]
pub fn remainder_unsigned(x: u64, y: u64) -> Option<u64>
    ensures value { result ≡ op.remainder_unsigned x y }
{
    if y == 0 { None } else { Some(x % y) }
}

#[tactic(auto, unfolding(crate::specs::Operations::shift_left))]
pub fn shift_left(x: u64, y: u64) -> u64
    ensures value { result ≡ op.shift_left 64 x y }
{
    x << ((y % 64) as u32)
}

#[tactic(auto, unfolding(crate::specs::Operations::shift_right_signed, crate::specs::Operations::halved))]
pub fn shift_right_signed(x: u64, y: u64) -> u64
    ensures value { result ≡ op.shift_right_signed 64 x y }
{
    wrapped(signed(x) >> ((y % 64) as u32))
}

#[tactic(auto, unfolding(crate::specs::Operations::shift_right_unsigned))]
pub fn shift_right_unsigned(x: u64, y: u64) -> u64
    ensures value { result ≡ op.shift_right_unsigned 64 x y }
{
    x >> ((y % 64) as u32)
}

#[tactic(auto, using(crate::proofs::Rotations::rotated_left), unfolding(crate::specs::Operations::rotate_left))]
pub fn rotate_left(x: u64, y: u64) -> u64
    ensures value { result ≡ op.rotate_left 64 x y }
{
    let count = (y % 64) as u32;
    if count == 0 {
        x
    } else {
        (x << count) | (x >> (64 - count))
    }
}

#[tactic(auto, using(crate::proofs::Rotations::rotated_right), unfolding(crate::specs::Operations::rotate_right))]
pub fn rotate_right(x: u64, y: u64) -> u64
    ensures value { result ≡ op.rotate_right 64 x y }
{
    let count = (y % 64) as u32;
    if count == 0 {
        x
    } else {
        (x << (64 - count)) | (x >> count)
    }
}

/// Returns the lowest 8 bits, extended with their sign.
#[tactic(auto, unfolding(crate::specs::Operations::extended, crate::specs::Operations::signed, crate::specs::Operations::wrapped))]
pub fn extended_8(x: u64) -> u64
    ensures value { result ≡ op.extended 8 64 x }
{
    let low = x % 256;
    if low < 128 { low } else { u64::MAX - 255 + low }
}

/// Returns the lowest 16 bits, extended with their sign.
#[tactic(auto, unfolding(crate::specs::Operations::extended, crate::specs::Operations::signed, crate::specs::Operations::wrapped))]
pub fn extended_16(x: u64) -> u64
    ensures value { result ≡ op.extended 16 64 x }
{
    let low = x % 65536;
    if low < 32768 {
        low
    } else {
        u64::MAX - 65535 + low
    }
}

/// Returns the lowest 32 bits, extended with their sign.
#[tactic(auto, unfolding(crate::specs::Operations::extended, crate::specs::Operations::signed, crate::specs::Operations::wrapped))]
pub fn extended_32(x: u64) -> u64
    ensures value { result ≡ op.extended 32 64 x }
{
    let low = x % (1 << 32);
    if low < 1 << 31 {
        low
    } else {
        u64::MAX - ((1 << 32) - 1) + low
    }
}
