ghost use Rattle.std.specs.Prelude.{◌≡◌, ◌-◌, ◌/◌, ◌<◌, ◌≤◌, List, [], ◌++◌, length, map, IfSome, IsSome, IsNone, OnOk, None, Some, slice_get};
ghost use Rattle.wasm_meaning.specs.Outcomes.{copies};
ghost use Rattle.wasm_meaning.specs.State.{Val};
ghost use Rattle.wasm_meaning.specs.Values.{declared, zeros};
ghost use Rattle.eval_machine.specs.DenotedValues.{Comes, val_of, local_written};

use crate::value::Value;
use eval_spec::Stop;
use std::alloc::Global;
use std::marker::Model;
use wasm_bytes::{Items, NoMemory};
use wasm_tree::{LocalGroup, ValType};

/// The locals of a frame; the arguments come first.
#[derive(Drop)]
pub struct Locals {
    items: Items<Value>,
}

impl Model for Locals {
    ghost Value = { List Val };

    ghost view = { λ s. map val_of s.items };
}

impl Locals {
    /// Returns no locals. They take no memory.
    pub fn new(alloc: Global) -> Locals
        ensures { result ≡ [] }
    {
        Locals {
            items: Items::new(alloc),
        }
    }

    /// Returns the arguments as locals.
    pub fn of(items: Items<Value>) -> Locals
        ensures { result ≡ map val_of items }
    {
        Locals { items }
    }

    /// Appends `count` locals of type `ty` with the default value of the type.
    pub fn declare(&mut self, count: u32, ty: ValType) -> Result<(), NoMemory>
        ensures { OnOk result (self.new ≡ self.old ++ zeros (copies count ty)) }
    {
        for _ in 0..count {
            self.items.keep(Value::zero(ty))?;
        }
        Ok(())
    }

    /// Appends the locals that these groups declare.
    pub fn declare_all(&mut self, groups: &[LocalGroup]) -> Result<(), NoMemory>
        ensures { OnOk result (self.new ≡ self.old ++ zeros (declared groups.now)) }
    {
        for i in 0..groups.len() {
            self.declare(groups[i].count, groups[i].ty)?;
        }
        Ok(())
    }

    /// Returns the value of a local, if the local exists.
    pub fn get(&self, local: u32) -> Option<Value>
        ensures some { IfSome result (λ value. slice_get self.now local ≡ Some (val_of value)) }
        ensures none { IsNone result → slice_get self.now local ≡ None }
    {
        match self.items.get(local as usize) {
            Some(value) => Some(*value),
            None => None,
        }
    }

    /// Sets a local (WebAssembly Core 2.0, section 4.4.5). Returns the stop `Trap` if it does not
    /// exist or the value does not have its type.
    pub fn set(&mut self, local: u32, value: Value) -> Option<Stop>
        ensures { Comes (local_written self.old local (val_of value)) result self.new }
    {
        match self.items.get_mut(local as usize) {
            Some(old) => {
                if !value.has_type(old.ty()) {
                    return Some(Stop::Trap);
                }
                *old = value;
                None
            }
            None => Some(Stop::Trap),
        }
    }
}

/// Returns the turns that are left after a frame with these locals is opened; `None` if too few.
pub(crate) fn turns_after(groups: &[LocalGroup], turns: u32) -> Option<u32>
    ensures some { IfSome result (λ left. left ≡ turns - length (declared groups.now) / 64) }
    ensures enough { IsSome result → length (declared groups.now) / 64 ≤ turns }
    ensures none { IsNone result → turns < length (declared groups.now) / 64 }
{
    let most = 64 * u64::from(turns) + 63;
    let mut count: u64 = 0;
    for i in 0..groups.len() {
        count += u64::from(groups[i].count);
        if count > most {
            return None;
        }
    }
    Some(turns - (count / 64) as u32)
}
