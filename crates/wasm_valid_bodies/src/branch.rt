// A branch to one of several labels (WebAssembly Core 2.0, section 3.3.8.8); see `plain`.

ghost use Rattle.std.specs.Prelude.{◌≡◌, ◌∷◌, slice_get, slice_set, Some, true, IfOk, IsTrue, option_map};
ghost use Rattle.wasm_valid_bodies.specs.Typing.{Branches, labels_at};
ghost use Rattle.wasm_valid_bodies.specs.Tracking.{allows_types, allows_all};
ghost use Rattle.wasm_valid_bodies.specs.OperandStack.{stack_of, AnswersEffect};
ghost use Rattle.wasm_valid_bodies.specs.Labels.{label_list};

use crate::labels::Labels;
use crate::operand_stack::OperandStack;
use std::alloc::{AllocError, Global};
use wasm_tree::ValType;

fn is_marked(seen: &[bool], place: u32) -> bool
    ensures { IsTrue result → slice_get seen.now place ≡ Some true }
{
    match seen.get(place as usize) {
        Some(marked) => *marked,
        None => false,
    }
}

fn mark(seen: &mut Vec<bool>, place: u32)
    ensures { seen.new.items ≡ slice_set seen.old.items place true }
{
    if let Some(marked) = seen.get_mut(place as usize) {
        *marked = true;
    }
}

impl OperandStack {
    // Returns whether the operands match a label of `n` types.
    fn allows(&self, labels: &Labels<'_>, n: usize, label: u32) -> bool
        ensures { result ≡ allows_types (stack_of self.now) self.now.any_below n (slice_get (label_list labels.now) label) }
    {
        match labels.types_at(label) {
            None => false,
            Some(types) => types.len() == n && self.can_pop(types),
        }
    }

    // Returns whether the operands match each of these labels of `n` types. A label that occurred
    // before is not compared again.
    fn allows_each(
        &self,
        alloc: Global,
        labels: &Labels<'_>,
        n: usize,
        others: &[u32],
    ) -> Result<bool, AllocError>
        ensures { IfOk result (λ ok. ok ≡ allows_all (label_list labels.now) (stack_of self.now) self.now.any_below n others.now) }
    {
        let mut seen = vec![in alloc; false; labels.len()]?;
        for label in others {
            if is_marked(&seen, *label) {
                continue;
            }
            if !self.allows(labels, n, *label) {
                return Ok(false);
            }
            mark(&mut seen, *label);
        }
        Ok(true)
    }

    /// `br_table`.
    pub fn branches(
        &mut self,
        alloc: Global,
        labels: &Labels<'_>,
        last: u32,
        others: &[u32],
    ) -> Result<bool, AllocError>
        ensures { IfOk result (λ ok. AnswersEffect (option_map Branches (labels_at (label_list labels.now) (last ∷ others.now))) self.old self.new ok) }
    {
        let Some(types) = labels.types_at(last) else {
            return Ok(false);
        };
        if !self.pop_type(ValType::I32) {
            return Ok(false);
        }
        let n = types.len();
        if !self.allows(labels, n, last) {
            return Ok(false);
        }
        if !self.allows_each(alloc, labels, n, others)? {
            return Ok(false);
        }
        self.forgets();
        Ok(true)
    }
}
