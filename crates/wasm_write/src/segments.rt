ghost use Rattle.std.specs.Prelude.{◌≡◌, ℕ, List, [], ◌∷◌, ◌+◌, ◌++◌, OnOk};
ghost use Rattle.base_lists.specs.Every.{Every};
ghost use Rattle.wasm_write_proof.specs.Ranges.{IsU32, ConstInRange, ElemModeInRange, ElemInRange, DataModeInRange};
ghost use Rattle.wasm_bytes.specs.Writing.{u32_text, sized_text};
ghost use Rattle.wasm_write_spec.specs.PlainValues.{joined, each_text, vector_text, const_text, is_func, func_of, is_funcref, all_funcs, by_index, index_items, const_items, active_by_index};
ghost use Rattle.wasm_write_spec.specs.PlainValues.{active_by_const, mode_by_index, mode_by_const, elem_text, data_mode_text, data_text};

use crate::code::spell_index;
use crate::numbers::{spell_number, spell_u32};
use crate::plain::{Plain, spell_sized, spell_vector};
use crate::target::Target;
use crate::types::ref_code;
use wasm_tree::{ConstExpr, DataMode, DataSeg, ElemMode, ElemSeg, RefType};

/// Returns whether the item is `ref.func`.
#[tactic(auto, unfolding(wasm_write_spec::specs::PlainValues::is_func))]
fn is_func(item: ConstExpr) -> bool
    ensures { result ≡ is_func item }
{
    match item {
        ConstExpr::Func(_) => true,
        ConstExpr::I32(_) => false,
        ConstExpr::I64(_) => false,
        ConstExpr::Null(_) => false,
        ConstExpr::Global(_) => false,
    }
}

/// Returns the function of an item that is `ref.func`, and 0 for other items.
#[tactic(auto, unfolding(wasm_write_spec::specs::PlainValues::func_of))]
fn func_of(item: ConstExpr) -> u32
    ensures func { result ≡ func_of item }
    ensures range { ConstInRange item }
{
    match item {
        ConstExpr::Func(func) => func,
        ConstExpr::I32(_) => 0,
        ConstExpr::I64(_) => 0,
        ConstExpr::Null(_) => 0,
        ConstExpr::Global(_) => 0,
    }
}

#[tactic(auto, unfolding(wasm_write_spec::specs::PlainValues::is_funcref))]
fn is_funcref(ty: RefType) -> bool
    ensures { result ≡ is_funcref ty }
{
    match ty {
        RefType::Func => true,
        RefType::Extern => false,
    }
}

/// Returns whether each item is `ref.func`.
fn all_funcs(items: &[ConstExpr]) -> bool
    ensures { result ≡ all_funcs items.now }
{
    for item in items {
        if !is_func(*item) {
            return false;
        }
    }
    true
}

/// Returns whether the items are written as function indices.
fn by_index(segment: &ElemSeg) -> bool
    ensures { result ≡ by_index segment.now }
{
    is_funcref(segment.ty) && all_funcs(segment.items.as_slice())
}

/// Writes the functions of items that are all `ref.func`.
fn spell_funcs<T: Target>(target: &mut T, items: &[ConstExpr]) -> Result<(), T::Refusal>
    ensures text { OnOk result (target.new ≡ T.preceded target.old (each_text (λ c. u32_text (func_of c)) items.now)) }
    ensures range { OnOk result (Every ConstInRange items.now) }
{
    for item in items.iter().rev() {
        spell_u32(target, func_of(*item))?;
    }
    Ok(())
}

#[tactic(auto, unfolding(wasm_write_spec::specs::PlainValues::index_items))]
fn spell_index_items<T: Target>(target: &mut T, items: &[ConstExpr]) -> Result<(), T::Refusal>
    ensures text { OnOk result (target.new ≡ T.preceded target.old (index_items items.now)) }
    ensures range { OnOk result (Every ConstInRange items.now) }
{
    spell_funcs(target, items)?;
    spell_number(target, items.len() as u64)
}

#[tactic(auto, unfolding(wasm_write_spec::specs::PlainValues::const_items))]
fn spell_const_items<T: Target>(target: &mut T, items: &[ConstExpr]) -> Result<(), T::Refusal>
    ensures text { OnOk result (target.new ≡ T.preceded target.old (const_items items.now)) }
    ensures range { OnOk result (Every ConstInRange items.now) }
{
    spell_vector(target, items)
}

/// Writes a flag and the kind of the items.
fn spell_kind<T: Target>(target: &mut T, flag: u8, kind: u8) -> Result<(), T::Refusal>
    ensures { OnOk result (target.new ≡ T.preceded target.old (flag ∷ kind ∷ [])) }
{
    target.byte(kind)?;
    target.byte(flag)
}

/// Writes a flag, the index of a table or a memory, and an offset.
fn spell_place<T: Target>(
    target: &mut T,
    flag: u8,
    index: u32,
    offset: &ConstExpr,
) -> Result<(), T::Refusal>
    ensures text { OnOk result (target.new ≡ T.preceded target.old ((flag ∷ u32_text index) ++ const_text offset.now)) }
    ensures index { IsU32 index }
    ensures offset { OnOk result (ConstInRange offset.now) }
{
    offset.spell(target)?;
    spell_index(target, flag, index)
}

/// Writes a segment whose items are all `ref.func`, as function indices.
fn spell_by_index<T: Target>(
    target: &mut T,
    mode: ElemMode,
    items: &[ConstExpr],
) -> Result<(), T::Refusal>
    ensures text { OnOk result (target.new ≡ T.preceded target.old (mode_by_index mode items.now)) }
    ensures mode { OnOk result (ElemModeInRange mode) }
    ensures range { OnOk result (Every ConstInRange items.now) }
{
    spell_index_items(target, items)?;
    match mode {
        ElemMode::Active { table, offset } => {
            if table == 0 {
                offset.spell(target)?;
                target.byte(0x00)
            } else {
                target.byte(0x00)?;
                spell_place(target, 0x02, table, &offset)
            }
        }
        ElemMode::Passive => spell_kind(target, 0x01, 0x00),
        ElemMode::Declarative => spell_kind(target, 0x03, 0x00),
    }
}

/// Writes a segment with its items as constant expressions.
fn spell_by_const<T: Target>(
    target: &mut T,
    mode: ElemMode,
    ty: RefType,
    items: &[ConstExpr],
) -> Result<(), T::Refusal>
    ensures text { OnOk result (target.new ≡ T.preceded target.old (mode_by_const mode ty items.now)) }
    ensures mode { OnOk result (ElemModeInRange mode) }
    ensures range { OnOk result (Every ConstInRange items.now) }
{
    spell_const_items(target, items)?;
    match mode {
        ElemMode::Active { table, offset } => {
            if table == 0 && is_funcref(ty) {
                offset.spell(target)?;
                target.byte(0x04)
            } else {
                target.byte(ref_code(ty))?;
                spell_place(target, 0x06, table, &offset)
            }
        }
        ElemMode::Passive => spell_kind(target, 0x05, ref_code(ty)),
        ElemMode::Declarative => spell_kind(target, 0x07, ref_code(ty)),
    }
}

impl Plain for ElemSeg {
    ghost text = { elem_text };

    ghost is_in_range = { ElemInRange };

    #[tactic(auto, unfolding(wasm_write_spec::specs::PlainValues::elem_text))]
    fn spell<T: Target>(&self, target: &mut T) -> Result<(), T::Refusal> {
        if by_index(self) {
            spell_by_index(target, self.mode, self.items.as_slice())
        } else {
            spell_by_const(target, self.mode, self.ty, self.items.as_slice())
        }
    }
}

impl Plain for DataMode {
    ghost text = { data_mode_text };

    ghost is_in_range = { DataModeInRange };

    fn spell<T: Target>(&self, target: &mut T) -> Result<(), T::Refusal> {
        match self {
            DataMode::Active { memory, offset } => {
                if *memory == 0 {
                    offset.spell(target)?;
                    target.byte(0x00)
                } else {
                    spell_place(target, 0x02, *memory, offset)
                }
            }
            DataMode::Passive => target.byte(0x01),
        }
    }
}

impl Plain for DataSeg {
    ghost text = { data_text };

    ghost is_in_range = { λ s. DataModeInRange s.mode };

    #[tactic(auto, unfolding(wasm_write_spec::specs::PlainValues::data_text))]
    fn spell<T: Target>(&self, target: &mut T) -> Result<(), T::Refusal> {
        spell_sized(target, self.bytes.as_slice())?;
        self.mode.spell(target)
    }
}
