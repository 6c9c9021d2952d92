// Function types as texts, which are the keys of look-ups.

ghost use Rattle.std.specs.Prelude.{◌≡◌, ◌++◌, ◌∷◌, [], map, string_bytes, IfOk, OnOk};
ghost use Rattle.merge_join.specs.Texts.{letter_of, text_of_type};

use std::alloc::Global;
use wasm_bytes::NoMemory;
use wasm_tree::{FuncType, RefType, ValType};

fn letter(ty: ValType) -> &'static str
    ensures { result.now ≡ letter_of ty ∷ [] }
{
    match ty {
        ValType::I32 => "i",
        ValType::I64 => "l",
        ValType::Ref(RefType::Func) => "f",
        ValType::Ref(RefType::Extern) => "e",
    }
}

// Appends a letter for each type.
fn push_letters(text: &mut String, types: &[ValType]) -> Result<(), NoMemory>
    ensures { OnOk result (string_bytes text.new ≡ string_bytes text.old ++ map letter_of types.now) }
{
    for ty in types {
        text.push_str(letter(*ty))?;
    }
    Ok(())
}

/// Returns the text of a function type. Different types have different texts.
#[tactic(auto, unfolding(crate::specs::Texts::text_of_type))]
pub(crate) fn type_text(alloc: Global, ty: &FuncType) -> Result<String, NoMemory>
    ensures { IfOk result (λ text. string_bytes text ≡ text_of_type ty.now) }
{
    let mut text = String::new(alloc);
    push_letters(&mut text, ty.params.as_slice())?;
    text.push('>')?;
    push_letters(&mut text, ty.results.as_slice())?;
    Ok(text)
}
