ghost use Rattle.std.specs.Prelude.{◌≡◌, ◌≢◌, ◌+◌, ◌^◌, ◌<◌, ◌≤◌, ℕ, length, take, None, Some, slice_index, IfSome, IfNone, IsTrue};
ghost use Rattle.block_pool.specs.Pages.{IsWidth, IsNextNonzero, IsZeroTo, little, little_bytes};

// Returns the number that 1, 2, 4 or 8 bytes encode in little-endian order.
#[inline(always)]
pub(crate) fn number(bytes: &[u8]) -> u64
    requires { IsWidth (length bytes.now) }
    ensures value { result ≡ little bytes.now }
    ensures small { result < 256 ^ length bytes.now }
{
    match bytes {
        [a, b, c, d, e, f, g, h] => u64::from_le_bytes([*a, *b, *c, *d, *e, *f, *g, *h]),
        [a, b, c, d] => u64::from(u32::from_le_bytes([*a, *b, *c, *d])),
        [a, b] => u64::from(u16::from_le_bytes([*a, *b])),
        [a] => u64::from(*a),
        _ => unreachable!(),
    }
}

// Returns whether there are eight bytes from `at` on and all are zero.
fn is_zero_word(bytes: &[u8], at: usize) -> bool
    requires { at ≤ length bytes.now }
    ensures inside { IsTrue result → at + 8 ≤ length bytes.now }
    ensures zero { IsTrue result → IsZeroTo bytes.now at (at + 8) }
{
    if bytes.len() - at < 8 {
        return false;
    }
    number(&bytes[at..at + 8]) == 0
}

// Finds the first nonzero byte; as long as bytes are zero, it reads eight at a time.
pub(crate) fn first_nonzero(bytes: &[u8]) -> Option<usize>
    ensures some { IfSome result (λ at. IsNextNonzero bytes.now 0 at) }
    ensures none { IfNone result (IsZeroTo bytes.now 0 (length bytes.now)) }
{
    let mut at = 0;
    while is_zero_word(bytes, at) {
        at += 8;
    }
    while at < bytes.len() {
        if bytes[at] != 0 {
            return Some(at);
        }
        at += 1;
    }
    None
}
