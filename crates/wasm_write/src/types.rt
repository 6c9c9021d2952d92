ghost use Rattle.std.specs.Prelude.{◌≡◌, ℕ, List, [], ◌∷◌, ◌+◌, ◌++◌, OnOk, IsTrue, IsUtf8, pos};
ghost use Rattle.std.specs.List.{list_all};
ghost use Rattle.wasm_tree.specs.Operands.{block_operands};
ghost use Rattle.wasm_write_proof.specs.Ranges.{small_operand, IsU32, LimitsInRange, ConstInRange, ImportDescInRange, ImportInRange, ExportDescInRange, ExportInRange};
ghost use Rattle.wasm_bytes.specs.Writing.{u32_text, sized_text};
ghost use Rattle.wasm_write_spec.specs.PlainValues.{ref_code, val_code, ref_text, val_text, func_type_text, limits_text, table_text, global_type_text, block_type_text, const_text, import_desc_text};
ghost use Rattle.wasm_write_spec.specs.PlainValues.{import_text, global_text, export_desc_text, export_text};

use crate::code::{spell_i32_const, spell_i64_const, spell_index, spell_ref_null};
use crate::numbers::{spell_s33, spell_u32};
use crate::plain::{Plain, spell_sized, spell_vector};
use crate::target::Target;
use wasm_bytes::Name;
use wasm_tree::{
    BlockType, ConstExpr, Export, ExportDesc, FuncType, GlobalDef, GlobalType, Import, ImportDesc,
    Limits, RefType, TableType, ValType,
};

/// Returns the code of a reference type (WebAssembly Core 2.0, section 5.3.3).
#[tactic(auto, unfolding(wasm_write_spec::specs::PlainValues::ref_code))]
pub(crate) fn ref_code(ty: RefType) -> u8
    ensures { result ≡ ref_code ty }
{
    match ty {
        RefType::Func => 0x70,
        RefType::Extern => 0x6F,
    }
}

/// Returns the code of a value type (WebAssembly Core 2.0, section 5.3.4).
#[tactic(auto, unfolding(wasm_write_spec::specs::PlainValues::val_code))]
fn val_code(ty: ValType) -> u8
    ensures { result ≡ val_code ty }
{
    match ty {
        ValType::I32 => 0x7F,
        ValType::I64 => 0x7E,
        ValType::Ref(ty) => ref_code(ty),
    }
}

impl Plain for u32 {
    ghost text = { u32_text };

    ghost is_in_range = { IsU32 };

    fn spell<T: Target>(&self, target: &mut T) -> Result<(), T::Refusal> {
        spell_u32(target, *self)
    }
}

impl Plain for Name {
    ghost text = { sized_text };

    ghost is_in_range = { λ n. IsUtf8 n };

    fn spell<T: Target>(&self, target: &mut T) -> Result<(), T::Refusal> {
        spell_sized(target, self.as_str().as_bytes())
    }
}

impl Plain for ValType {
    ghost text = { val_text };

    ghost is_in_range = { λ t. Unit };

    fn spell<T: Target>(&self, target: &mut T) -> Result<(), T::Refusal> {
        target.byte(val_code(*self))
    }
}

impl Plain for FuncType {
    ghost text = { func_type_text };

    ghost is_in_range = { λ t. Unit };

    #[tactic(auto, unfolding(wasm_write_spec::specs::PlainValues::func_type_text))]
    fn spell<T: Target>(&self, target: &mut T) -> Result<(), T::Refusal> {
        spell_vector(target, self.results.as_slice())?;
        spell_vector(target, self.params.as_slice())?;
        target.byte(0x60)
    }
}

impl Plain for Limits {
    ghost text = { limits_text };

    ghost is_in_range = { LimitsInRange };

    #[tactic(auto, unfolding(wasm_write_spec::specs::PlainValues::limits_text))]
    fn spell<T: Target>(&self, target: &mut T) -> Result<(), T::Refusal> {
        match self.max {
            None => spell_index(target, 0x00, self.min),
            Some(max) => {
                spell_u32(target, max)?;
                spell_index(target, 0x01, self.min)
            }
        }
    }
}

impl Plain for TableType {
    ghost text = { table_text };

    ghost is_in_range = { λ t. LimitsInRange t.limits };

    #[tactic(auto, unfolding(wasm_write_spec::specs::PlainValues::table_text))]
    fn spell<T: Target>(&self, target: &mut T) -> Result<(), T::Refusal> {
        self.limits.spell(target)?;
        target.byte(ref_code(self.ty))
    }
}

impl Plain for GlobalType {
    ghost text = { global_type_text };

    ghost is_in_range = { λ g. Unit };

    #[tactic(auto, unfolding(wasm_write_spec::specs::PlainValues::global_type_text))]
    fn spell<T: Target>(&self, target: &mut T) -> Result<(), T::Refusal> {
        target.byte(if self.mutable { 0x01 } else { 0x00 })?;
        target.byte(val_code(self.ty))
    }
}

impl Plain for BlockType {
    ghost text = { block_type_text };

    ghost is_in_range = { λ t. IsTrue (list_all small_operand (block_operands t)) };

    #[tactic(auto, unfolding(wasm_write_spec::specs::PlainValues::block_type_text))]
    fn spell<T: Target>(&self, target: &mut T) -> Result<(), T::Refusal> {
        match self {
            BlockType::Empty => target.byte(0x40),
            BlockType::Value(ty) => ty.spell(target),
            BlockType::Index(index) => spell_s33(target, i64::from(*index)),
        }
    }
}

impl Plain for ConstExpr {
    ghost text = { const_text };

    ghost is_in_range = { ConstInRange };

    #[tactic(auto, unfolding(wasm_write_spec::specs::PlainValues::const_text))]
    fn spell<T: Target>(&self, target: &mut T) -> Result<(), T::Refusal> {
        target.byte(0x0B)?;
        match self {
            ConstExpr::I32(value) => spell_i32_const(target, *value),
            ConstExpr::I64(value) => spell_i64_const(target, *value),
            ConstExpr::Null(ty) => spell_ref_null(target, *ty),
            ConstExpr::Func(func) => spell_index(target, 0xD2, *func),
            ConstExpr::Global(global) => spell_index(target, 0x23, *global),
        }
    }
}

impl Plain for ImportDesc {
    ghost text = { import_desc_text };

    ghost is_in_range = { ImportDescInRange };

    #[tactic(auto, unfolding(wasm_write_spec::specs::PlainValues::import_desc_text))]
    fn spell<T: Target>(&self, target: &mut T) -> Result<(), T::Refusal> {
        match self {
            ImportDesc::Func(ty) => spell_index(target, 0x00, *ty),
            ImportDesc::Table(table) => {
                table.spell(target)?;
                target.byte(0x01)
            }
            ImportDesc::Memory(limits) => {
                limits.spell(target)?;
                target.byte(0x02)
            }
            ImportDesc::Global(global) => {
                global.spell(target)?;
                target.byte(0x03)
            }
        }
    }
}

impl Plain for Import {
    ghost text = { import_text };

    ghost is_in_range = { ImportInRange };

    #[tactic(auto, unfolding(wasm_write_spec::specs::PlainValues::import_text))]
    fn spell<T: Target>(&self, target: &mut T) -> Result<(), T::Refusal> {
        self.desc.spell(target)?;
        self.field.spell(target)?;
        self.module.spell(target)
    }
}

impl Plain for GlobalDef {
    ghost text = { global_text };

    ghost is_in_range = { λ g. ConstInRange g.init };

    #[tactic(auto, unfolding(wasm_write_spec::specs::PlainValues::global_text))]
    fn spell<T: Target>(&self, target: &mut T) -> Result<(), T::Refusal> {
        self.init.spell(target)?;
        self.ty.spell(target)
    }
}

impl Plain for ExportDesc {
    ghost text = { export_desc_text };

    ghost is_in_range = { ExportDescInRange };

    #[tactic(auto, unfolding(wasm_write_spec::specs::PlainValues::export_desc_text))]
    fn spell<T: Target>(&self, target: &mut T) -> Result<(), T::Refusal> {
        match self {
            ExportDesc::Func(func) => spell_index(target, 0x00, *func),
            ExportDesc::Table(table) => spell_index(target, 0x01, *table),
            ExportDesc::Memory(memory) => spell_index(target, 0x02, *memory),
            ExportDesc::Global(global) => spell_index(target, 0x03, *global),
        }
    }
}

impl Plain for Export {
    ghost text = { export_text };

    ghost is_in_range = { ExportInRange };

    #[tactic(auto, unfolding(wasm_write_spec::specs::PlainValues::export_text))]
    fn spell<T: Target>(&self, target: &mut T) -> Result<(), T::Refusal> {
        self.desc.spell(target)?;
        self.name.spell(target)
    }
}
