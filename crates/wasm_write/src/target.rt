ghost use Rattle.std.specs.Prelude.{◌≡◌, ℕ, List, [], ◌∷◌, ◌++◌, ◌-◌, ◌≤◌, length, OnOk};

/// What a canonical encoding is written to: a file, or a count of its bytes. The code that writes
/// is the same for both.
///
/// The encoding is written from its end to its start. So a content is written before its size,
/// which precedes it in the file, and no byte has to be moved to make room for the size.
pub(crate) trait Target {
    /// Why no more can be written.
    type Refusal;

    // the target after this text is written too, in front of what was written
    ghost preceded: { Self → List ℕ → Self };

    // how many bytes were written
    ghost written_so_far: { Self → ℕ };

    /// Writes a byte.
    fn byte(&mut self, value: u8) -> Result<(), Self::Refusal>
        ensures { OnOk result (self.new ≡ preceded self.old (value ∷ [])) };

    /// Writes bytes.
    fn bytes(&mut self, more: &[u8]) -> Result<(), Self::Refusal>
        ensures { OnOk result (self.new ≡ preceded self.old more.now) };

    /// Returns how many bytes were written.
    fn written_so_far(&self) -> u64
        ensures { result ≡ written_so_far self.now };

    ghost nothing: { (t : Self) → preceded t [] ≡ t };

    ghost joined: { (t : Self) (a b : List ℕ) → preceded (preceded t b) a ≡ preceded t (a ++ b) };

    ghost farther: { (t : Self) (a : List ℕ) → written_so_far t ≤ written_so_far (preceded t a) };

    // the number of bytes written grows by the length of what is written; when a count has reached
    // its maximum, what is written next makes no difference
    ghost told: { (t : Self) (a : List ℕ) (f : ℕ → List ℕ) → preceded (preceded t a) (f (written_so_far (preceded t a) - written_so_far t)) ≡ preceded (preceded t a) (f (length a)) };
}
