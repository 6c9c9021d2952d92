ghost use Rattle.std.specs.Prelude.{◌≡◌, ◌<◌, ◌≤◌, ◌++◌, ◌^◌, ℕ, List, [], ℤ};
ghost use Rattle.wasm_bytes.specs.Numbers.{Unsigned, Signed, IsWithin};
ghost use Rattle.wasm_bytes.specs.FrameViews.{FramesAreRead};
ghost use Rattle.wasm_bytes.specs.Writing.{u32_text, s32_text, s33_text, s64_text, IsShortest};

/// No encoding of a number is a proper prefix of another, and no bytes encode two numbers.
pub fn integer_encodings_are_prefix_free()
    ensures unsigned { (bits : ℕ) (text : List ℕ) (more : List ℕ) (v : ℕ) (w : ℕ) → Unsigned bits text v → Unsigned bits (text ++ more) w → (more ≡ []) × (v ≡ w) }
    ensures signed { (bits : ℕ) (text : List ℕ) (more : List ℕ) (v : ℤ) (w : ℤ) → Signed bits text v → Signed bits (text ++ more) w → (more ≡ []) × (v ≡ w) }
{}

/// The bytes that `Out` writes encode the number, and no encoding of it is shorter.
pub fn shortest_encodings()
    ensures unsigned { (n : ℕ) → n < 2 ^ 32 → IsShortest (Unsigned 32) (u32_text n) n }
    ensures s32 { (z : ℤ) → IsWithin 32 z → IsShortest (Signed 32) (s32_text z) z }
    ensures s33 { (z : ℤ) → IsWithin 33 z → IsShortest (Signed 33) (s33_text z) z }
    ensures s64 { (z : ℤ) → IsWithin 64 z → IsShortest (Signed 64) (s64_text z) z }
{}

/// A number that bytes encode is in the range of its type.
pub fn encoded_numbers_are_in_range()
    ensures unsigned { (bits : ℕ) (text : List ℕ) (n : ℕ) → Unsigned bits text n → n < 2 ^ bits }
    ensures signed { (bits : ℕ) (text : List ℕ) (z : ℤ) → Signed bits text z → IsWithin bits z }
{}

/// What is read behind the header is how the file is framed: the sections that are read are those
/// of the file (`sound`, `complete`), and a number is read exactly if it is that of the first bad
/// frame (`bad`).
pub fn frames_are_read()
    ensures { FramesAreRead }
{}
