// Changes of the operands that the checker keeps.

ghost use Rattle.std.specs.Prelude.{◌≡◌, false, min, ◌↔◌, ◌≤◌, ◌++◌, ◌∷◌, [], ◌||◌, nat_le, length, drop, reverse, is_some, IfOk, OnOk, IsTrue, Some, None, option_map};
ghost use Rattle.wasm_tree.specs.SameTypes.{same_ref, same_type, same_types};
ghost use Rattle.wasm_valid_bodies.specs.Typing.{operands, only, Gives, Leaves, Drops, Selects, TestsNull};
ghost use Rattle.wasm_valid_bodies.specs.Tracking.{pop_one, pop_type, pop_all, chosen, letter};
ghost use Rattle.wasm_valid_bodies.specs.OperandStack.{lowest, stack_of, beneath, when, AnswersEffect, IsInside};

use crate::operand_stack::{OperandStack, Outer};
use std::alloc::{AllocError, Global};
use wasm_tree::{RefType, ValType};

fn is_same_ref(a: RefType, b: RefType) -> bool
    ensures { result ≡ same_ref a b }
{
    match (a, b) {
        (RefType::Func, RefType::Func) | (RefType::Extern, RefType::Extern) => true,
        _ => false,
    }
}

// Returns a code for each number type, and one code for all reference types.
fn kind(ty: ValType) -> u8
    ensures { result ≡ min (letter ty) 2 }
{
    match ty {
        ValType::I32 => 0,
        ValType::I64 => 1,
        ValType::Ref(_) => 2,
    }
}

// Compares the kinds first, because that takes one step for all of them.
#[tactic(auto, using(crate::proofs::TypeKinds::other_kinds, crate::proofs::TypeKinds::same_kinds))]
fn is_same(a: ValType, b: ValType) -> bool
    ensures { result ≡ same_type a b }
{
    if kind(a) != kind(b) {
        return false;
    }
    match (a, b) {
        (ValType::Ref(a), ValType::Ref(b)) => is_same_ref(a, b),
        _ => true,
    }
}

// Returns whether two lists of types of equal length are equal.
fn are_same(left: &[ValType], right: &[ValType]) -> bool
    requires { length left.now ≡ length right.now }
    ensures { result ≡ same_types left.now right.now }
{
    for i in 0..left.len() {
        if !is_same(left[i], right[i]) {
            return false;
        }
    }
    true
}

impl OperandStack {
    /// Returns a stack without operands and blocks. Only pushing operands allocates.
    pub fn new(alloc: Global) -> OperandStack
        ensures operands { stack_of result ≡ [] }
        ensures any_below { result.any_below ≡ false }
        ensures beneath { beneath result ≡ [] }
    {
        OperandStack {
            types: Vec::new(alloc),
            base: 0,
            bottom: false,
            any_below: false,
        }
    }

    /// Enters a block inside the others, with operands of these types.
    pub fn enter(&mut self, params: &[ValType]) -> Result<Outer, AllocError>
        ensures { IfOk result (λ outer. IsInside params.now self.old outer self.new) }
    {
        let outer = Outer {
            base: self.base,
            bottom: self.bottom,
            any_below: self.any_below,
        };
        self.base = self.types.len();
        self.bottom = false;
        self.any_below = false;
        self.push_all(params)?;
        Ok(outer)
    }

    /// Leaves the innermost block, and restores the operands from before it.
    pub fn leave(&mut self, outer: Outer)
        requires { outer.base ≤ length (beneath self.old) }
        ensures items { self.new.types.items ≡ beneath self.old }
        ensures base { self.new.base ≡ outer.base }
        ensures bottom { self.new.bottom ≡ outer.bottom }
        ensures any_below { self.new.any_below ≡ outer.any_below }
    {
        self.types.truncate(self.base);
        self.base = outer.base;
        self.bottom = outer.bottom;
        self.any_below = outer.any_below;
    }

    /// Removes all operands of all open blocks, and what can be below them.
    pub fn clear(&mut self)
        ensures operands { stack_of self.new ≡ [] }
        ensures any_below { self.new.any_below ≡ false }
        ensures beneath { beneath self.new ≡ [] }
    {
        self.base = 0;
        self.bottom = false;
        self.any_below = false;
        self.types.clear();
    }

    // Returns whether `count` operands of any types can be popped below the known ones.
    fn has_below(&self, count: usize) -> bool
        ensures { result ≡ (self.now.any_below || nat_le count (length (lowest self.now.bottom))) }
    {
        self.any_below || count == 0 || (self.bottom && count == 1)
    }

    // Returns whether operands of these types can be popped.
    pub fn can_pop(&self, ts: &[ValType]) -> bool
        ensures { result ≡ is_some (pop_all (stack_of self.now) self.now.any_below (reverse ts.now)) }
    {
        let known = self.types.len() - self.base;
        if ts.len() <= known {
            return are_same(&self.types[self.types.len() - ts.len()..], ts);
        }
        let missing = ts.len() - known;
        self.has_below(missing) && are_same(&self.types[self.base..], &ts[missing..])
    }

    // Pops the topmost `count` operands.
    fn take_off(&mut self, count: usize)
        ensures value { stack_of self.new ≡ drop count (stack_of self.old) }
        ensures any_below { self.new.any_below ≡ self.old.any_below }
        ensures beneath { beneath self.new ≡ beneath self.old }
    {
        if count <= self.types.len() - self.base {
            self.types.truncate(self.types.len() - count);
        } else {
            self.types.truncate(self.base);
            self.bottom = false;
        }
    }

    pub fn pop_all(&mut self, ts: &[ValType]) -> bool
        ensures value { pop_all (stack_of self.old) self.old.any_below (reverse ts.now) ≡ when result (stack_of self.new) }
        ensures any_below { self.new.any_below ≡ self.old.any_below }
        ensures beneath { beneath self.new ≡ beneath self.old }
    {
        if !self.can_pop(ts) {
            return false;
        }
        self.take_off(ts.len());
        true
    }

    /// Pops operands of these types, and returns whether there were exactly these.
    pub fn ends(&mut self, ts: &[ValType]) -> bool
        ensures value { IsTrue result ↔ (pop_all (stack_of self.old) self.old.any_below (reverse ts.now) ≡ Some []) }
        ensures beneath { beneath self.new ≡ beneath self.old }
    {
        if !self.pop_all(ts) {
            return false;
        }
        self.types.len() == self.base && !self.bottom
    }

    // Pops an operand. `Some(None)` is a bottom, and `None` says that there is no operand.
    pub fn pop_one(&mut self) -> Option<Option<ValType>>
        ensures value { pop_one (stack_of self.old) self.old.any_below ≡ option_map (λ x. (x, stack_of self.new)) result }
        ensures bottom { result ≡ Some None → stack_of self.new ≡ [] }
        ensures any_below { self.new.any_below ≡ self.old.any_below }
        ensures beneath { beneath self.new ≡ beneath self.old }
    {
        if self.base < self.types.len() {
            return Some(self.types.pop());
        }
        if self.bottom || self.any_below {
            self.bottom = false;
            return Some(None);
        }
        None
    }

    pub fn pop_type(&mut self, t: ValType) -> bool
        ensures value { pop_type (stack_of self.old) self.old.any_below t ≡ when result (stack_of self.new) }
        ensures any_below { self.new.any_below ≡ self.old.any_below }
        ensures beneath { beneath self.new ≡ beneath self.old }
    {
        match self.pop_one() {
            None => false,
            Some(None) => true,
            Some(Some(u)) => is_same(u, t),
        }
    }

    pub fn push(&mut self, t: ValType) -> Result<(), AllocError>
        ensures value { OnOk result (stack_of self.new ≡ Some t ∷ stack_of self.old) }
        ensures any_below { self.new.any_below ≡ self.old.any_below }
        ensures beneath { OnOk result (beneath self.new ≡ beneath self.old) }
    {
        self.types.push(t)?;
        Ok(())
    }

    // Pushes a bottom when there is no operand.
    fn push_bottom(&mut self)
        requires { stack_of self.old ≡ [] }
        ensures value { stack_of self.new ≡ None ∷ stack_of self.old }
        ensures any_below { self.new.any_below ≡ self.old.any_below }
        ensures beneath { beneath self.new ≡ beneath self.old }
    {
        self.bottom = true;
    }

    pub fn push_all(&mut self, ts: &[ValType]) -> Result<(), AllocError>
        ensures value { OnOk result (stack_of self.new ≡ operands ts.now ++ stack_of self.old) }
        ensures any_below { self.new.any_below ≡ self.old.any_below }
        ensures beneath { OnOk result (beneath self.new ≡ beneath self.old) }
    {
        self.types.extend_from_slice(ts)?;
        Ok(())
    }

    /// Pushes an operand of this type.
    pub fn puts(&mut self, ty: ValType) -> Result<bool, AllocError>
        ensures { IfOk result (λ ok. AnswersEffect (Some (Gives [] (ty ∷ []))) self.old self.new ok) }
    {
        self.push(ty)?;
        Ok(true)
    }

    /// Pops an operand of this type.
    pub fn consumes(&mut self, ty: ValType) -> bool
        ensures { AnswersEffect (Some (Gives (ty ∷ []) [])) self.old self.new result }
    {
        if !self.pop_type(ty) {
            return false;
        }
        true
    }

    /// Pops an operand of type `from`, and pushes one of type `to`.
    pub fn unary(&mut self, from: ValType, to: ValType) -> Result<bool, AllocError>
        ensures { IfOk result (λ ok. AnswersEffect (Some (Gives (from ∷ []) (to ∷ []))) self.old self.new ok) }
    {
        if !self.pop_type(from) {
            return Ok(false);
        }
        self.push(to)?;
        Ok(true)
    }

    /// Pops two operands of type `from`, and pushes one of type `to`.
    pub fn binary(&mut self, from: ValType, to: ValType) -> Result<bool, AllocError>
        ensures { IfOk result (λ ok. AnswersEffect (Some (Gives (from ∷ from ∷ []) (to ∷ []))) self.old self.new ok) }
    {
        if !self.pop_type(from) {
            return Ok(false);
        }
        if !self.pop_type(from) {
            return Ok(false);
        }
        self.push(to)?;
        Ok(true)
    }

    /// Pops operands of types `params`, and pushes operands of types `results`.
    pub fn gives(&mut self, params: &[ValType], results: &[ValType]) -> Result<bool, AllocError>
        ensures { IfOk result (λ ok. AnswersEffect (Some (Gives params.now results.now)) self.old self.new ok) }
    {
        if !self.pop_all(params) {
            return Ok(false);
        }
        self.push_all(results)?;
        Ok(true)
    }

    /// Pops an operand of type `top` and then operands of types `under`, and pushes operands of
    /// types `results`.
    pub fn gives_over(
        &mut self,
        under: &[ValType],
        top: ValType,
        results: &[ValType],
    ) -> Result<bool, AllocError>
        ensures { IfOk result (λ ok. AnswersEffect (Some (Gives (under.now ++ top ∷ []) results.now)) self.old self.new ok) }
    {
        if !self.pop_type(top) {
            return Ok(false);
        }
        if !self.pop_all(under) {
            return Ok(false);
        }
        self.push_all(results)?;
        Ok(true)
    }

    /// Does as `gives` if `holds`, and returns false otherwise.
    pub fn gives_where(
        &mut self,
        holds: bool,
        params: &[ValType],
        results: &[ValType],
    ) -> Result<bool, AllocError>
        ensures { IfOk result (λ ok. AnswersEffect (only holds (Some (Gives params.now results.now))) self.old self.new ok) }
    {
        if holds {
            self.gives(params, results)
        } else {
            Ok(false)
        }
    }

    // Pops all operands of the innermost block. The code that follows is unreachable and can pop
    // operands of any types.
    pub fn forgets(&mut self)
        ensures value { stack_of self.new ≡ [] }
        ensures any_below { IsTrue self.new.any_below }
        ensures beneath { beneath self.new ≡ beneath self.old }
    {
        self.types.truncate(self.base);
        self.bottom = false;
        self.any_below = true;
    }

    /// Pops operands of these types and then all others of the innermost block. The code that
    /// follows is unreachable and can pop operands of any types.
    pub fn leaves(&mut self, ts: &[ValType]) -> bool
        ensures { AnswersEffect (Some (Leaves ts.now)) self.old self.new result }
    {
        if !self.can_pop(ts) {
            return false;
        }
        self.forgets();
        true
    }

    pub fn drops(&mut self) -> bool
        ensures { AnswersEffect (Some Drops) self.old self.new result }
    {
        match self.pop_one() {
            Some(_) => true,
            None => false,
        }
    }

    pub fn tests_null(&mut self) -> Result<bool, AllocError>
        ensures { IfOk result (λ ok. AnswersEffect (Some TestsNull) self.old self.new ok) }
    {
        match self.pop_one() {
            None => Ok(false),
            Some(Some(ValType::I32)) => Ok(false),
            Some(Some(ValType::I64)) => Ok(false),
            Some(Some(ValType::Ref(_))) => {
                self.push(ValType::I32)?;
                Ok(true)
            }
            Some(None) => {
                self.push(ValType::I32)?;
                Ok(true)
            }
        }
    }

    pub fn selects(&mut self) -> Result<bool, AllocError>
        ensures { IfOk result (λ ok. AnswersEffect (Some Selects) self.old self.new ok) }
    {
        if !self.pop_type(ValType::I32) {
            return Ok(false);
        }
        let Some(b) = self.pop_one() else {
            return Ok(false);
        };
        let Some(a) = self.pop_one() else {
            return Ok(false);
        };
        match choose(b, a) {
            None => Ok(false),
            Some(None) => {
                self.push_bottom();
                Ok(true)
            }
            Some(Some(u)) => {
                self.push(u)?;
                Ok(true)
            }
        }
    }
}

// Returns the operand that an untyped `select` leaves of these two, if it is allowed for them.
fn choose(b: Option<ValType>, a: Option<ValType>) -> Option<Option<ValType>>
    ensures value { result ≡ chosen b a }
    ensures bottom { result ≡ Some None → a ≡ None }
{
    let both = match (b, a) {
        (None, _) => a,
        (_, None) => b,
        (Some(t), Some(u)) => {
            if is_same(t, u) {
                b
            } else {
                return None;
            }
        }
    };
    match both {
        Some(ValType::Ref(_)) => None,
        _ => Some(both),
    }
}
