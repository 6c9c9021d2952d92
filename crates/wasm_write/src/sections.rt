ghost use Rattle.std.specs.Prelude.{◌≡◌, ℕ, List, [], ◌∷◌, ◌++◌, ◌||◌, ◌≤◌, if◌then◌else◌, OnOk};
ghost use Rattle.wasm_bytes.specs.Writing.{u32_text, sized_text};
ghost use Rattle.base_lists.specs.Every.{Every};
ghost use Rattle.wasm_write_proof.specs.Ranges.{IsU32, MaxInRange, TypeInRange, CodeInRange, InRange};
ghost use Rattle.wasm_tree.specs.DataUse.{uses_data, any_uses_data};
ghost use Rattle.wasm_write_spec.specs.PlainValues.{each_text, vector_text, func_type_text, import_text, table_text, limits_text, global_text, export_text, elem_text, data_text};
ghost use Rattle.wasm_write_spec.specs.PlainCode.{group_text, code_text, entry_text};
ghost use Rattle.wasm_write_spec.specs.Plain.{section_text, list_section, start_section, count_section, plain};
ghost use Rattle.wasm_write.specs.Parts.{text_up_to_globals, text_before_code, UpToGlobalsInRange, BeforeCodeInRange};

use crate::code::spell_instrs;
use crate::numbers::{spell_number, spell_u32};
use crate::plain::{Plain, spell_size, spell_vector};
use crate::target::Target;
use wasm_tree::{Func, LocalGroup, Module};

/// The magic number and the version (WebAssembly Core 2.0, section 5.5.16).
const HEADER: [u8; 8] = [0x00, 0x61, 0x73, 0x6D, 0x01, 0x00, 0x00, 0x00];

impl Plain for LocalGroup {
    ghost text = { group_text };

    ghost is_in_range = { λ g. IsU32 g.count };

    #[tactic(auto, unfolding(wasm_write_spec::specs::PlainCode::group_text))]
    fn spell<T: Target>(&self, target: &mut T) -> Result<(), T::Refusal> {
        self.ty.spell(target)?;
        spell_u32(target, self.count)
    }
}

/// Writes the content of a code entry (WebAssembly Core 2.0, section 5.5.13). `uses` becomes true
/// if the body names a data segment.
fn spell_code<T: Target>(target: &mut T, func: &Func, uses: &mut bool) -> Result<(), T::Refusal>
    ensures text { OnOk result (target.new ≡ T.preceded target.old (code_text func.now)) }
    ensures uses { OnOk result (uses.new ≡ (uses_data func.now.body || uses.old)) }
    ensures range { OnOk result (CodeInRange func.now) }
{
    target.byte(0x0B)?;
    spell_instrs(target, func.body.as_slice(), uses)?;
    spell_vector(target, func.locals.as_slice())
}

/// Writes a code entry. `uses` becomes true if the body names a data segment.
#[tactic(auto, unfolding(wasm_write_spec::specs::PlainCode::entry_text))]
fn spell_entry<T: Target>(target: &mut T, func: &Func, uses: &mut bool) -> Result<(), T::Refusal>
    ensures text { OnOk result (target.new ≡ T.preceded target.old (entry_text func.now)) }
    ensures uses { OnOk result (uses.new ≡ (uses_data func.now.body || uses.old)) }
    ensures range { OnOk result (CodeInRange func.now) }
{
    let from = target.written_so_far();
    spell_code(target, func, uses)?;
    spell_size(target, from)
}

/// Writes code entries, one after another. `uses` becomes true if a body names a data segment.
fn spell_entries<T: Target>(
    target: &mut T,
    funcs: &[Func],
    uses: &mut bool,
) -> Result<(), T::Refusal>
    ensures text { OnOk result (target.new ≡ T.preceded target.old (each_text entry_text funcs.now)) }
    ensures uses { OnOk result (uses.new ≡ (any_uses_data funcs.now || uses.old)) }
    ensures range { OnOk result (Every CodeInRange funcs.now) }
{
    for func in funcs.iter().rev() {
        spell_entry(target, func, uses)?;
    }
    Ok(())
}

/// Writes the type indices of functions, one after another.
fn spell_func_types<T: Target>(target: &mut T, funcs: &[Func]) -> Result<(), T::Refusal>
    ensures text { OnOk result (target.new ≡ T.preceded target.old (each_text (λ f. u32_text f.ty) funcs.now)) }
    ensures range { OnOk result (Every TypeInRange funcs.now) }
{
    for func in funcs.iter().rev() {
        spell_u32(target, func.ty)?;
    }
    Ok(())
}

/// Writes the size of the content of a section, which was written after the first `from` bytes, and
/// the id of the section.
fn spell_section<T: Target>(target: &mut T, id: u8, from: u64) -> Result<(), T::Refusal>
    requires { from ≤ T.written_so_far target.old }
    ensures { OnOk result ((before : T) (content : List ℕ) → from ≡ T.written_so_far before → target.old ≡ T.preceded before content → target.new ≡ T.preceded before (section_text id content)) }
{
    spell_size(target, from)?;
    target.byte(id)
}

/// Writes a section of items, if there are any.
fn spell_list<T: Target, P: Plain>(target: &mut T, id: u8, items: &[P]) -> Result<(), T::Refusal>
    ensures text { OnOk result (target.new ≡ T.preceded target.old (list_section id P.text items.now)) }
    ensures range { OnOk result (Every P.is_in_range items.now) }
{
    if items.len() == 0 {
        return Ok(());
    }
    let from = target.written_so_far();
    spell_vector(target, items)?;
    spell_section(target, id, from)
}

/// Writes the function section, if there are functions.
fn spell_func_section<T: Target>(target: &mut T, funcs: &[Func]) -> Result<(), T::Refusal>
    ensures text { OnOk result (target.new ≡ T.preceded target.old (list_section 3 (λ f. u32_text f.ty) funcs.now)) }
    ensures range { OnOk result (Every TypeInRange funcs.now) }
{
    if funcs.len() == 0 {
        return Ok(());
    }
    let from = target.written_so_far();
    spell_func_types(target, funcs)?;
    spell_number(target, funcs.len() as u64)?;
    spell_section(target, 3, from)
}

/// Writes the code section, if there are functions. `uses` becomes true if a body names a data
/// segment.
fn spell_code_section<T: Target>(
    target: &mut T,
    funcs: &[Func],
    uses: &mut bool,
) -> Result<(), T::Refusal>
    ensures text { OnOk result (target.new ≡ T.preceded target.old (list_section 10 entry_text funcs.now)) }
    ensures uses { OnOk result (uses.new ≡ (any_uses_data funcs.now || uses.old)) }
    ensures range { OnOk result (Every CodeInRange funcs.now) }
{
    if funcs.len() == 0 {
        return Ok(());
    }
    let from = target.written_so_far();
    spell_entries(target, funcs, uses)?;
    spell_number(target, funcs.len() as u64)?;
    spell_section(target, 10, from)
}

/// Writes a section that is one number.
fn spell_one<T: Target>(target: &mut T, id: u8, value: u64) -> Result<(), T::Refusal>
    ensures { OnOk result (target.new ≡ T.preceded target.old (section_text id (u32_text value))) }
{
    let from = target.written_so_far();
    spell_number(target, value)?;
    spell_section(target, id, from)
}

/// Writes the start section, if there is a start.
fn spell_start<T: Target>(target: &mut T, start: Option<u32>) -> Result<(), T::Refusal>
    ensures text { OnOk result (target.new ≡ T.preceded target.old (start_section start)) }
    ensures range { OnOk result (MaxInRange start) }
{
    match start {
        None => Ok(()),
        Some(func) => spell_one(target, 8, u64::from(func)),
    }
}

/// Writes the data count section, if bodies name data segments.
fn spell_count<T: Target>(target: &mut T, count: usize, uses: bool) -> Result<(), T::Refusal>
    ensures { OnOk result (target.new ≡ T.preceded target.old (if uses then section_text 12 (u32_text count) else [])) }
{
    if uses {
        spell_one(target, 12, count as u64)
    } else {
        Ok(())
    }
}

/// Writes the data count section and the code section.
fn spell_count_and_code<T: Target>(target: &mut T, module: &Module) -> Result<(), T::Refusal>
    ensures text { OnOk result (target.new ≡ T.preceded target.old (count_section «module».now ++ list_section 10 entry_text «module».now.funcs)) }
    ensures range { OnOk result (Every CodeInRange «module».now.funcs) }
{
    let mut uses = false;
    spell_code_section(target, module.funcs.as_slice(), &mut uses)?;
    spell_count(target, module.datas.len(), uses)
}

/// Writes the header and the sections up to that of globals.
#[tactic(auto, unfolding(crate::specs::Parts::text_up_to_globals))]
fn spell_up_to_globals<T: Target>(target: &mut T, module: &Module) -> Result<(), T::Refusal>
    ensures text { OnOk result (target.new ≡ T.preceded target.old (text_up_to_globals «module».now)) }
    ensures range { OnOk result (UpToGlobalsInRange «module».now) }
{
    spell_list(target, 6, module.globals.as_slice())?;
    spell_list(target, 5, module.mems.as_slice())?;
    spell_list(target, 4, module.tables.as_slice())?;
    spell_func_section(target, module.funcs.as_slice())?;
    spell_list(target, 2, module.imports.as_slice())?;
    spell_list(target, 1, module.types.as_slice())?;
    target.bytes(&HEADER)
}

/// Writes everything before the data count section.
#[tactic(auto, unfolding(crate::specs::Parts::text_before_code))]
fn spell_before_code<T: Target>(target: &mut T, module: &Module) -> Result<(), T::Refusal>
    ensures text { OnOk result (target.new ≡ T.preceded target.old (text_before_code «module».now)) }
    ensures range { OnOk result (BeforeCodeInRange «module».now) }
{
    spell_list(target, 9, module.elems.as_slice())?;
    spell_start(target, module.start)?;
    spell_list(target, 7, module.exports.as_slice())?;
    spell_up_to_globals(target, module)
}

/// Writes a module.
#[tactic(auto, using(crate::proofs::Parts::plain_parts))]
pub(crate) fn spell_module<T: Target>(target: &mut T, module: &Module) -> Result<(), T::Refusal>
    ensures text { OnOk result (target.new ≡ T.preceded target.old (plain «module».now)) }
    ensures range { OnOk result (InRange «module».now) }
{
    spell_list(target, 11, module.datas.as_slice())?;
    spell_count_and_code(target, module)?;
    spell_before_code(target, module)
}
