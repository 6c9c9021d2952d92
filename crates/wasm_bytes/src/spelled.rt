ghost use Rattle.std.specs.Prelude.{◌≡◌, ℕ, List, ◌++◌, ◌∷◌, ◌^◌, ◌*◌, ◌-◌, ◌<◌, ◌≤◌, ◌<ℤ◌, pos, negsuc, IsTrue, OnOk, OnErr};
ghost use Rattle.wasm_bytes.specs.Numbers.{IsWithin};
ghost use Rattle.wasm_bytes.specs.Writing.{low, high, is_small, unsigned_text, signed_text};

use std::alloc::AllocError;

/// Appends the shortest encoding of the unsigned number; on error, only a part.
#[tactic(auto, using(crate::proofs::Shortest::text_small, crate::proofs::Shortest::text_large))]
pub(crate) fn push_unsigned(bytes: &mut Vec<u8>, value: u32) -> Result<(), AllocError>
    ensures ok { OnOk result ((most : ℕ) → 0 < most → value < 2 ^ (7 * most) → bytes.new.items ≡ bytes.old.items ++ unsigned_text most value) }
    ensures err { OnErr result ((more : List ℕ) × (bytes.new.items ≡ bytes.old.items ++ more)) }
{
    if value < 128 {
        bytes.push(value as u8)?;
        return Ok(());
    }
    bytes.push((value % 128 + 128) as u8)?;
    push_unsigned(bytes, value / 128)
}

/// Returns whether one byte encodes the number.
fn is_small(value: i64) -> bool
    ensures { result ≡ is_small value }
{
    if value >= 0 {
        value < 64
    } else {
        -(value + 1) < 64
    }
}

/// Returns how far the number is below -1.
fn below(value: i64) -> u64
    requires { value <ℤ pos 0 }
    ensures value { value ≡ negsuc result }
    ensures small { result < 2 ^ 63 }
{
    (-(value + 1)) as u64
}

fn negated(below: u64) -> i64
    requires { below < 2 ^ 63 }
    ensures { result ≡ negsuc below }
{
    -(below as i64) - 1
}

fn low(value: i64) -> u8
    ensures value { result ≡ low value }
    ensures small { result < 128 }
{
    if value >= 0 {
        (value % 128) as u8
    } else {
        let below = below(value);
        (127 - below % 128) as u8
    }
}

fn high(value: i64) -> i64
    ensures { result ≡ high value }
{
    if value >= 0 {
        value / 128
    } else {
        let below = below(value);
        negated(below / 128)
    }
}

/// Appends the shortest encoding of the signed number; on error, only a part.
pub(crate) fn push_signed(bytes: &mut Vec<u8>, value: i64) -> Result<(), AllocError>
    ensures ok { OnOk result ((most : ℕ) → 0 < most → IsWithin (7 * most) value → bytes.new.items ≡ bytes.old.items ++ signed_text most value) }
    ensures err { OnErr result ((more : List ℕ) × (bytes.new.items ≡ bytes.old.items ++ more)) }
{
    if is_small(value) {
        bytes.push(low(value))?;
        return Ok(());
    }
    bytes.push(low(value) + 128)?;
    push_signed(bytes, high(value))
}
