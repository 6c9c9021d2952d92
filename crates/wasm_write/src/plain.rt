ghost use Rattle.std.specs.Prelude.{◌≡◌, ◌≤◌, ℕ, List, ◌++◌, OnOk};
ghost use Rattle.base_lists.specs.Every.{Every};
ghost use Rattle.wasm_bytes.specs.Writing.{u32_text, sized_text};
ghost use Rattle.wasm_write_spec.specs.PlainValues.{each_text, vector_text};

use crate::numbers::spell_number;
use crate::target::Target;

/// A value with a canonical encoding. The function that writes it has each number and name as a
/// value of the program, whose type shows that it is in range.
pub(crate) trait Plain {
    ghost text: { Self → List ℕ };

    // each number in it is in the range of its type, and each name in it is UTF-8
    ghost is_in_range: { Self → Type 0 };

    /// Writes its canonical encoding.
    fn spell<T: Target>(&self, target: &mut T) -> Result<(), T::Refusal>
        ensures text { OnOk result (target.new ≡ T.preceded target.old (Self.text self.now)) }
        ensures range { OnOk result (Self.is_in_range self.now) };
}

/// Writes a length and as many bytes.
pub(crate) fn spell_sized<T: Target>(target: &mut T, content: &[u8]) -> Result<(), T::Refusal>
    ensures { OnOk result (target.new ≡ T.preceded target.old (sized_text content.now)) }
{
    target.bytes(content)?;
    spell_number(target, content.len() as u64)
}

/// Writes items, one after another.
fn spell_each<T: Target, P: Plain>(target: &mut T, items: &[P]) -> Result<(), T::Refusal>
    ensures text { OnOk result (target.new ≡ T.preceded target.old (each_text P.text items.now)) }
    ensures range { OnOk result (Every P.is_in_range items.now) }
{
    for item in items.iter().rev() {
        item.spell(target)?;
    }
    Ok(())
}

/// Writes how many items there are, and the items.
pub(crate) fn spell_vector<T: Target, P: Plain>(
    target: &mut T,
    items: &[P],
) -> Result<(), T::Refusal>
    ensures text { OnOk result (target.new ≡ T.preceded target.old (vector_text P.text items.now)) }
    ensures range { OnOk result (Every P.is_in_range items.now) }
{
    spell_each(target, items)?;
    spell_number(target, items.len() as u64)
}

/// Writes the size of what was written after the first `from` bytes.
pub(crate) fn spell_size<T: Target>(target: &mut T, from: u64) -> Result<(), T::Refusal>
    requires { from ≤ T.written_so_far target.old }
    ensures { OnOk result ((before : T) (content : List ℕ) → from ≡ T.written_so_far before → target.old ≡ T.preceded before content → target.new ≡ T.preceded before (sized_text content)) }
{
    let size = target.written_so_far() - from;
    spell_number(target, size)
}
