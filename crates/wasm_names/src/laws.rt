ghost use Rattle.std.specs.Prelude.{◌≡◌, ◌↔◌, ℕ, List};
ghost use Rattle.wasm_bytes.specs.Reading.{IsBytes};
ghost use Rattle.wasm_names.specs.declared.func_name.FuncName.{FuncName as Named};
ghost use Rattle.wasm_names.specs.NameList.{AreFunctionNames};
ghost use Rattle.wasm_names.specs.Reading.{name_list};

use wasm_read_spec::{framing_is_decided, reading_is_exact};

/// Proves that a file has exactly one name list, `name_list`: that of its first custom section
/// named `name`, or the empty list if there is no such section, if it is malformed, or if the file
/// cannot be divided into sections.
pub fn name_lists_are_those_of_the_first_name_section()
    ensures { (bytes : List ℕ) (ns : List Named) → IsBytes bytes → AreFunctionNames bytes ns ↔ (ns ≡ name_list bytes) }
{
    framing_is_decided();
    reading_is_exact();
}
