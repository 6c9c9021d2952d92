// The values of an evaluation.

ghost use Rattle.std.specs.Prelude.{◌≡◌, Some};
ghost use Rattle.wasm_tree.specs.SameTypes.{same_type};
ghost use Rattle.wasm_meaning.specs.Values.{is_number, type_of, zero_of};
ghost use Rattle.wasm_num.specs.Operations.{W32, W64, wrapped};
ghost use Rattle.wasm_meaning.specs.State.{Num};
ghost use Rattle.eval_spec.specs.StateContents.{constant};
ghost use Rattle.eval_machine.specs.DenotedValues.{val_of};

use wasm_tree::{ConstExpr, RefType, ValType};

/// A value of an evaluation (WebAssembly Core 2.0, section 4.2.1). No value that comes from an
/// import is read, so an external reference is always null.
#[derive(Clone, Copy, Debug, PartialEq, Eq)]
pub enum Value {
    I32(u32),
    I64(u64),
    /// A reference to the function with this index, or null.
    Func(Option<u32>),
    /// The null external reference.
    Extern,
}

impl Value {
    /// Returns the type of the value.
    pub fn ty(&self) -> ValType
        ensures { result ≡ type_of (val_of self.now) }
    {
        match self {
            Value::I32(_) => ValType::I32,
            Value::I64(_) => ValType::I64,
            Value::Func(_) => ValType::Ref(RefType::Func),
            Value::Extern => ValType::Ref(RefType::Extern),
        }
    }

    /// Returns whether the value has the type `ty`.
    pub fn has_type(&self, ty: ValType) -> bool
        ensures { result ≡ same_type ty (type_of (val_of self.now)) }
    {
        match (self, ty) {
            (Value::I32(_), ValType::I32) => true,
            (Value::I64(_), ValType::I64) => true,
            (Value::Func(_), ValType::Ref(RefType::Func)) => true,
            (Value::Extern, ValType::Ref(RefType::Extern)) => true,
            _ => false,
        }
    }

    /// Returns whether the value is a number.
    pub fn is_number(&self) -> bool
        ensures { result ≡ is_number (type_of (val_of self.now)) }
    {
        match self {
            Value::I32(_) | Value::I64(_) => true,
            Value::Func(_) | Value::Extern => false,
        }
    }

    /// Returns the default value of a type (section 4.2.1).
    pub fn zero(ty: ValType) -> Value
        ensures { val_of result ≡ zero_of ty }
    {
        match ty {
            ValType::I32 => Value::I32(0),
            ValType::I64 => Value::I64(0),
            ValType::Ref(RefType::Func) => Value::Func(None),
            ValType::Ref(RefType::Extern) => Value::Extern,
        }
    }

    /// Returns the value of an i32 constant.
    #[tactic(auto, unfolding(wasm_num::specs::Operations::wrapped))]
    pub fn narrow(value: i32) -> Value
        ensures { val_of result ≡ Num W32 (wrapped 32 value) }
    {
        Value::I32(value.cast_unsigned())
    }

    /// Returns the value of an i64 constant.
    #[tactic(auto, unfolding(wasm_num::specs::Operations::wrapped))]
    pub fn wide(value: i64) -> Value
        ensures { val_of result ≡ Num W64 (wrapped 64 value) }
    {
        Value::I64(value.cast_unsigned())
    }

    /// Returns the constant expression of the value (section 3.3.10).
    #[tactic(auto, unfolding(wasm_num::specs::Operations::signed))]
    pub fn constant(&self) -> ConstExpr
        ensures { constant (val_of self.now) ≡ Some result }
    {
        match self {
            Value::I32(n) => ConstExpr::I32(n.cast_signed()),
            Value::I64(n) => ConstExpr::I64(n.cast_signed()),
            Value::Func(Some(func)) => ConstExpr::Func(*func),
            Value::Func(None) => ConstExpr::Null(RefType::Func),
            Value::Extern => ConstExpr::Null(RefType::Extern),
        }
    }
}
