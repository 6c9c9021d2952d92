ghost use Rattle.std.specs.Prelude.{◌≡◌, ◌^◌, ◌<◌, ◌≤◌, ◌-◌, length, IfOk, IfSome, IsTrue, ◌↔◌};
ghost use Rattle.wasm_bytes.specs.Numbers.{last_signed, join_signed, IsWithin};
ghost use Rattle.wasm_bytes.specs.Reading.{unsigned_at, signed_at, seen, IsBytes};

use crate::cursor::Wrong;

/// Returns whether a last byte below 128 has no bit set from bit number `bits` on.
#[tactic(auto, using(crate::proofs::Sizes::small_fits))]
fn ends(last: u64, bits: u32) -> bool
    requires { last < 128 }
    ensures { IsTrue result ↔ (last < 2 ^ bits) }
{
    if bits >= 7 { true } else { last < 1 << bits }
}

/// Returns the unsigned number of `bits` bits that the bytes begin with, and the bytes after it
/// (WebAssembly Core 2.0, section 5.2.2).
#[tactic(auto, using(crate::proofs::Sizes::joined, crate::proofs::Sizes::joined_fits), unfolding(crate::specs::Reading::unsigned_at))]
pub(crate) fn unsigned(bytes: &[u8], bits: u32) -> Result<(u64, &[u8]), Wrong>
    requires { bits ≤ 64 }
    ensures reads { seen result ≡ unsigned_at bits bytes.now }
    ensures fits { IfOk result (λ r. r.0 < 2 ^ bits) }
    ensures bytes { IsBytes bytes.now }
    ensures shorter { IfOk result (λ r. length r.1.now < length bytes.now) }
{
    let Some((first, rest)) = bytes.split_first() else {
        return Err(Wrong::Short);
    };
    let first = u64::from(*first);
    if first < 128 {
        if !ends(first, bits) {
            return Err(Wrong::Spelling);
        }
        return Ok((first, rest));
    }
    if bits <= 7 {
        return Err(Wrong::Spelling);
    }
    let (high, rest) = unsigned(rest, bits - 7)?;
    Ok((first - 128 + 128 * high, rest))
}

/// Returns the value of a last byte when `bits` bits are left, if its unused bits copy the sign.
fn signed_end(last: u8, bits: u32) -> Option<i64>
    requires last { last < 128 }
    requires bits { 0 < bits }
    ensures value { result ≡ last_signed bits last }
    ensures fits { IfSome result (λ v. IsWithin bits v) }
{
    let value = i64::from(last);
    if last < 64 {
        if ends(u64::from(last), bits - 1) {
            Some(value)
        } else {
            None
        }
    } else if ends(u64::from(127 - last), bits - 1) {
        Some(value - 128)
    } else {
        None
    }
}

/// Returns the value of a byte of at least 128 that is followed by bytes of value `high`.
fn signed_joined(first: u8, high: i64, bits: u32) -> i64
    requires first { 128 ≤ first }
    requires bits { 7 < bits }
    requires most { bits ≤ 64 }
    requires high { IsWithin (bits - 7) high }
    ensures value { result ≡ join_signed first high }
    ensures fits { IsWithin bits result }
{
    i64::from(first - 128) + 128 * high
}

/// Returns the signed number of `bits` bits that the bytes begin with, and the bytes after it.
#[tactic(auto, unfolding(crate::specs::Reading::signed_at))]
pub(crate) fn signed(bytes: &[u8], bits: u32) -> Result<(i64, &[u8]), Wrong>
    requires some { 0 < bits }
    requires most { bits ≤ 64 }
    ensures reads { seen result ≡ signed_at bits bytes.now }
    ensures fits { IfOk result (λ r. IsWithin bits r.0) }
    ensures bytes { IsBytes bytes.now }
    ensures shorter { IfOk result (λ r. length r.1.now < length bytes.now) }
{
    let Some((first, rest)) = bytes.split_first() else {
        return Err(Wrong::Short);
    };
    let first = *first;
    if first < 128 {
        return match signed_end(first, bits) {
            Some(value) => Ok((value, rest)),
            None => Err(Wrong::Spelling),
        };
    }
    if bits <= 7 {
        return Err(Wrong::Spelling);
    }
    let (high, rest) = signed(rest, bits - 7)?;
    Ok((signed_joined(first, high, bits), rest))
}
