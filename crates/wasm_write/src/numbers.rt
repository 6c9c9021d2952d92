ghost use Rattle.std.specs.Prelude.{◌≡◌, ℕ, List, ◌+◌, ◌++◌, ◌<◌, OnOk, pos, negsuc};
ghost use Rattle.wasm_bytes.specs.Numbers.{IsWithin};
ghost use Rattle.wasm_write_proof.specs.Ranges.{IsU32};
ghost use Rattle.wasm_bytes.specs.Writing.{low, unsigned_text, signed_text, u32_text, s32_text, s33_text, s64_text};
ghost use Rattle.wasm_write.specs.Sizes.{with_sign, is_negative};

use crate::target::Target;

/// Writes the shortest encoding of an unsigned number, cut to `most` bytes (WebAssembly Core 2.0,
/// section 5.2.2).
#[tactic(auto, unfolding(wasm_bytes::specs::Writing::unsigned_text))]
fn spell_unsigned<T: Target>(target: &mut T, most: u32, value: u64) -> Result<(), T::Refusal>
    ensures { OnOk result (target.new ≡ T.preceded target.old (unsigned_text most value)) }
{
    if most == 0 {
        Ok(())
    } else if value < 128 {
        target.byte(value as u8)
    } else {
        spell_unsigned(target, most - 1, value / 128)?;
        target.byte((value % 128 + 128) as u8)
    }
}

/// Writes an unsigned number that can be above the greatest u32, as a length can.
pub(crate) fn spell_number<T: Target>(target: &mut T, value: u64) -> Result<(), T::Refusal>
    ensures { OnOk result (target.new ≡ T.preceded target.old (u32_text value)) }
{
    spell_unsigned(target, 5, value)
}

pub(crate) fn spell_u32<T: Target>(target: &mut T, value: u32) -> Result<(), T::Refusal>
    ensures text { OnOk result (target.new ≡ T.preceded target.old (u32_text value)) }
    ensures range { IsU32 value }
{
    spell_unsigned(target, 5, u64::from(value))
}

/// Returns the low seven bits of a signed number.
fn low_bits(negative: bool, magnitude: u64) -> u8
    ensures value { result ≡ low (with_sign negative magnitude) }
    ensures small { result < 128 }
{
    let bits = (magnitude % 128) as u8;
    if negative { 127 - bits } else { bits }
}

/// Writes the shortest encoding of a signed number, cut to `most` bytes.
#[tactic(auto, unfolding(wasm_bytes::specs::Writing::signed_text))]
fn spell_signed<T: Target>(
    target: &mut T,
    most: u32,
    negative: bool,
    magnitude: u64,
) -> Result<(), T::Refusal>
    ensures { OnOk result (target.new ≡ T.preceded target.old (signed_text most (with_sign negative magnitude))) }
{
    if most == 0 {
        Ok(())
    } else if magnitude < 64 {
        target.byte(low_bits(negative, magnitude))
    } else {
        spell_signed(target, most - 1, negative, magnitude / 128)?;
        target.byte(low_bits(negative, magnitude) + 128)
    }
}

fn is_negative(value: i64) -> bool
    ensures { result ≡ is_negative value }
{
    value < 0
}

/// Returns how far a number is from 0 or, if it is negative, below -1.
fn magnitude_of(value: i64) -> u64
    ensures { value ≡ with_sign (is_negative value) result }
{
    if value < 0 {
        (-(value + 1)) as u64
    } else {
        value as u64
    }
}

pub(crate) fn spell_s33<T: Target>(target: &mut T, value: i64) -> Result<(), T::Refusal>
    ensures { OnOk result (target.new ≡ T.preceded target.old (s33_text value)) }
{
    spell_signed(target, 5, is_negative(value), magnitude_of(value))
}

pub(crate) fn spell_s32<T: Target>(target: &mut T, value: i32) -> Result<(), T::Refusal>
    ensures text { OnOk result (target.new ≡ T.preceded target.old (s32_text value)) }
    ensures range { IsWithin 32 value }
{
    spell_s33(target, i64::from(value))
}

pub(crate) fn spell_s64<T: Target>(target: &mut T, value: i64) -> Result<(), T::Refusal>
    ensures text { OnOk result (target.new ≡ T.preceded target.old (s64_text value)) }
    ensures range { IsWithin 64 value }
{
    spell_signed(target, 10, is_negative(value), magnitude_of(value))
}
