// The operands of a level, and the instructions on them.

ghost use Rattle.std.specs.Prelude.{◌≡◌, List, [], ◌∷◌, ◌++◌, map, reverse, length, IfOk, IfSome, IsNone, OnOk, None, Some, MatchOption};
ghost use Rattle.wasm_num.specs.Operations.{W32, type_of as width_of_number, value_of};
ghost use Rattle.wasm_meaning.specs.Outcomes.{Gives, IllTyped};
ghost use Rattle.wasm_meaning.specs.State.{Val};
ghost use Rattle.wasm_meaning.specs.Values.{pop_num as popped_num, unary, binary, ref_is_null, select_any, select_of, select_typed};
ghost use Rattle.eval_machine.specs.DenotedValues.{Comes, TakesLevel, TakesTop, TakesTyped, are_typed, dropped, narrow_of, number_of, val_of, width_of};

use crate::operators::{is_binary_wide, is_unary_wide};
use crate::value::Value;
use eval_spec::Stop;
use std::alloc::Global;
use std::marker::Model;
use wasm_bytes::{Items, NoMemory};
use wasm_num::{BinOp, Num, UnOp, apply1, apply2};
use wasm_tree::ValType;

/// The operands of a body, block, loop or if. Contracts see them as a list whose first element is
/// on top.
#[derive(Drop)]
pub struct Operands {
    items: Items<Value>,
}

impl Model for Operands {
    ghost Value = { List Val };

    ghost view = { λ s. reverse (map val_of s.items) };
}

impl Operands {
    /// Returns no operands. They take no memory.
    pub fn new(alloc: Global) -> Operands
        ensures { result ≡ [] }
    {
        Operands {
            items: Items::new(alloc),
        }
    }

    /// Pushes a value.
    pub fn push(&mut self, value: Value) -> Result<(), NoMemory>
        ensures { OnOk result (self.new ≡ val_of value ∷ self.old) }
    {
        self.items.keep(value)
    }

    /// Pops the value on top, if there is one.
    pub fn pop(&mut self) -> Option<Value>
        ensures { MatchOption result ((self.old ≡ []) × (self.new ≡ [])) (λ value. self.old ≡ val_of value ∷ self.new) }
    {
        self.items.pop()
    }

    fn push_num(&mut self, n: Num) -> Result<(), NoMemory>
        ensures { OnOk result (self.new ≡ number_of n ∷ self.old) }
    {
        match n {
            Num::I32(n) => self.push(Value::I32(n)),
            Num::I64(n) => self.push(Value::I64(n)),
        }
    }

    fn pop_num(&mut self, wide: bool) -> Option<Num>
        ensures some { IfSome result (λ n. popped_num (width_of wide) self.old ≡ Gives (value_of n, self.new)) }
        ensures width { IfSome result (λ n. width_of_number n ≡ width_of wide) }
        ensures none { IsNone result → popped_num (width_of wide) self.old ≡ IllTyped }
    {
        match (self.pop(), wide) {
            (Some(Value::I32(n)), false) => Some(Num::I32(n)),
            (Some(Value::I64(n)), true) => Some(Num::I64(n)),
            _ => None,
        }
    }

    /// Pops an i32, if one is on top.
    pub fn pop_narrow(&mut self) -> Option<u32>
        ensures some { IfSome result (λ n. popped_num W32 self.old ≡ Gives (n, self.new)) }
        ensures none { IsNone result → popped_num W32 self.old ≡ IllTyped }
    {
        match self.pop() {
            Some(Value::I32(n)) => Some(n),
            _ => None,
        }
    }

    /// Executes an operation on one number (WebAssembly Core 2.0, section 4.4.1).
    #[tactic(auto, using(crate::proofs::NumberOperations::unary_gives, crate::proofs::NumberOperations::unary_short))]
    pub fn unary(&mut self, op: UnOp) -> Result<Option<Stop>, NoMemory>
        ensures { IfOk result (λ stop. Comes (unary op self.old) stop self.new) }
    {
        let Some(x) = self.pop_num(is_unary_wide(op)) else {
            return Ok(Some(Stop::Trap));
        };
        self.push_num(apply1(op, x))?;
        Ok(None)
    }

    /// Executes an operation on two numbers (section 4.4.1).
    #[tactic(auto, using(crate::proofs::NumberOperations::binary_gives, crate::proofs::NumberOperations::binary_traps, crate::proofs::NumberOperations::binary_short, crate::proofs::NumberOperations::binary_one))]
    pub fn binary(&mut self, op: BinOp) -> Result<Option<Stop>, NoMemory>
        ensures { IfOk result (λ stop. Comes (binary op self.old) stop self.new) }
    {
        let wide = is_binary_wide(op);
        let Some(y) = self.pop_num(wide) else {
            return Ok(Some(Stop::Trap));
        };
        let Some(x) = self.pop_num(wide) else {
            return Ok(Some(Stop::Trap));
        };
        match apply2(op, x, y) {
            Ok(n) => {
                self.push_num(n)?;
                Ok(None)
            }
            Err(_) => Ok(Some(Stop::Trap)),
        }
    }

    /// Executes `ref.is_null` (section 4.4.2).
    pub fn is_null(&mut self) -> Result<Option<Stop>, NoMemory>
        ensures { IfOk result (λ stop. Comes (ref_is_null self.old) stop self.new) }
    {
        match self.pop() {
            Some(Value::Func(None)) | Some(Value::Extern) => self.push(Value::I32(1))?,
            Some(Value::Func(Some(_))) => self.push(Value::I32(0))?,
            _ => return Ok(Some(Stop::Trap)),
        }
        Ok(None)
    }

    /// Executes `drop` (section 4.4.4).
    pub fn drop_one(&mut self) -> Option<Stop>
        ensures { Comes (dropped self.old) result self.new }
    {
        match self.pop() {
            Some(_) => None,
            None => Some(Stop::Trap),
        }
    }

    // Executes a `select` between two values of type `ty`; `which` chooses.
    fn choose(&mut self, ty: ValType, which: u32, upper: Value) -> Result<Option<Stop>, NoMemory>
        ensures { IfOk result (λ stop. Comes (select_of ty (narrow_of which ∷ val_of upper ∷ self.old)) stop self.new) }
    {
        let Some(lower) = self.pop() else {
            return Ok(Some(Stop::Trap));
        };
        if !upper.has_type(ty) {
            return Ok(Some(Stop::Trap));
        }
        if !lower.has_type(ty) {
            return Ok(Some(Stop::Trap));
        }
        if which == 0 {
            self.push(upper)?;
        } else {
            self.push(lower)?;
        }
        Ok(None)
    }

    /// Executes `select` without types (section 4.4.4).
    #[tactic(auto, using(crate::proofs::SelectAndSet::any_is, crate::proofs::SelectAndSet::any_no_number))]
    pub fn select(&mut self) -> Result<Option<Stop>, NoMemory>
        ensures { IfOk result (λ stop. Comes (select_any self.old) stop self.new) }
    {
        let Some(top) = self.pop() else {
            return Ok(Some(Stop::Trap));
        };
        let Some(upper) = self.pop() else {
            return Ok(Some(Stop::Trap));
        };
        if !upper.is_number() {
            return Ok(Some(Stop::Trap));
        }
        match top {
            Value::I32(which) => Ok(self.choose(upper.ty(), which, upper)?),
            _ => Ok(Some(Stop::Trap)),
        }
    }

    /// Executes `select` with types, of which there must be exactly one (section 4.4.4).
    pub fn select_typed(&mut self, types: &[ValType]) -> Result<Option<Stop>, NoMemory>
        ensures { IfOk result (λ stop. Comes (select_typed types.now self.old) stop self.new) }
    {
        let [ty] = types else {
            return Ok(Some(Stop::Trap));
        };
        let Some(Value::I32(which)) = self.pop() else {
            return Ok(Some(Stop::Trap));
        };
        let Some(upper) = self.pop() else {
            return Ok(Some(Stop::Trap));
        };
        Ok(self.choose(*ty, which, upper)?)
    }

    /// Takes the `count` operands on top, if there are as many; otherwise returns `None` and
    /// changes nothing.
    pub fn take_top(&mut self, count: usize) -> Result<Option<Operands>, NoMemory>
        ensures { IfOk result (λ taken. TakesTop count self.old taken self.new) }
    {
        let len = self.items.len();
        if len < count {
            return Ok(None);
        }
        let items = self.items.split_off(len - count)?;
        Ok(Some(Operands { items }))
    }

    /// Pushes all of `values`, in their order.
    pub fn put_back(&mut self, mut values: Operands) -> Result<(), NoMemory>
        ensures { OnOk result (self.new ≡ values ++ self.old) }
    {
        self.items.append(&mut values.items)
    }

    /// Takes the arguments of these types, the last of which is on top, and returns them in the
    /// order of the types. Returns `None` if the operands on top do not have these types.
    pub fn take_typed(&mut self, types: &[ValType]) -> Result<Option<Items<Value>>, NoMemory>
        ensures { IfOk result (λ taken. TakesTyped types.now self.old taken self.new) }
    {
        let len = self.items.len();
        if len < types.len() {
            return Ok(None);
        }
        let values = self.items.split_off(len - types.len())?;
        if !have_types(values.as_slice(), types) {
            return Ok(None);
        }
        Ok(Some(values))
    }

    /// Does the same as `take_typed`, but returns the arguments as operands of a level.
    pub fn take_level(&mut self, types: &[ValType]) -> Result<Option<Operands>, NoMemory>
        ensures { IfOk result (λ taken. TakesLevel types.now self.old taken self.new) }
    {
        match self.take_typed(types)? {
            Some(items) => Ok(Some(Operands { items })),
            None => Ok(None),
        }
    }
}

fn have_types(values: &[Value], types: &[ValType]) -> bool
    requires { length values.now ≡ length types.now }
    ensures { result ≡ are_typed types.now (map val_of values.now) }
{
    for i in 0..types.len() {
        if !values[i].has_type(types[i]) {
            return false;
        }
    }
    true
}
