ghost use Rattle.std.specs.Prelude.{◌≡◌, IsSome, List, length, slice_get, slice_set};
ghost use Rattle.eval_machine.specs.DenotedValues.{Meets, constant_of, global_written, read_of};

use crate::value::Value;
use eval_spec::Stop;
use std::marker::Model;
use wasm_bytes::Items;
use wasm_tree::{ConstExpr, GlobalType};

/// What is known of a global.
#[derive(Clone, Copy, Debug, PartialEq, Eq)]
pub enum Standing {
    /// The global is imported, and its value is unknown.
    Imported,
    /// The initialiser reads an imported global, and the global has not been set: its value is
    /// unknown.
    Unset,
    /// The value is known.
    Known,
}

/// A global. If nothing is known of it, `value` is a zero or null that is not read.
#[derive(Clone, Copy, Debug, PartialEq, Eq)]
pub struct GlobalSlot {
    pub ty: GlobalType,
    pub value: Value,
    pub standing: Standing,
}

/// The globals of a module, by index.
#[derive(Drop)]
pub struct Globals {
    items: Items<GlobalSlot>,
}

impl Model for Globals {
    ghost use Rattle.std.specs.Prelude.{List};
    ghost use Rattle.eval_machine.specs.declared.globals.GlobalSlot.{GlobalSlot};

    ghost Value = { List GlobalSlot };

    ghost view = { λ s. s.items };
}

impl Globals {
    pub(crate) fn of(items: Items<GlobalSlot>) -> Globals
        ensures { result ≡ items }
    {
        Globals { items }
    }

    pub(crate) fn len(&self) -> usize
        ensures { result ≡ length self.now }
    {
        self.items.len()
    }

    pub(crate) fn slot(&self, global: u32) -> Option<GlobalSlot>
        ensures { result ≡ slice_get self.now global }
    {
        match self.items.get(global as usize) {
            Some(slot) => Some(*slot),
            None => None,
        }
    }

    /// Puts a global back to what it was, if it is there.
    pub(crate) fn put(&mut self, global: u32, slot: GlobalSlot)
        ensures { self.new ≡ slice_set self.old global slot }
    {
        match self.items.get_mut(global as usize) {
            Some(now) => *now = slot,
            None => {}
        }
    }

    /// Executes `global.get` (WebAssembly Core 2.0, section 4.4.5). Returns the value, the stop
    /// `Unknown` if it is not known, or `Trap` if there is no such global.
    pub fn get(&self, global: u32) -> Result<Value, Stop>
        ensures { result ≡ read_of (slice_get self.now global) }
    {
        match self.items.get(global as usize) {
            Some(slot) => {
                match slot.standing {
                    Standing::Known => Ok(slot.value),
                    Standing::Imported | Standing::Unset => Err(Stop::Unknown),
                }
            }
            None => Err(Stop::Trap),
        }
    }

    /// Returns the value of a global as a constant expression (section 3.3.10); `None` exactly if
    /// it is unknown or there is no such global.
    pub fn constant(&self, global: u32) -> Option<ConstExpr>
        ensures { result ≡ constant_of (slice_get self.now global) }
    {
        match self.get(global) {
            Ok(value) => Some(value.constant()),
            Err(_) => None,
        }
    }

    /// Executes `global.set` (section 4.4.5) with the value that was on top, if there was one. The
    /// global is known from then on. The stop is `Unknown` for an imported global, and `Trap` if
    /// there is no such global or no value, or if the global is immutable or has another type.
    /// After a stop the globals are unchanged.
    pub fn set(&mut self, global: u32, value: Option<Value>) -> Option<Stop>
        ensures set { Meets (global_written self.old global value (slice_get self.old global)) result self.new }
        ensures same { IsSome result → self.new ≡ self.old }
    {
        let Some(slot) = self.items.get(global as usize) else {
            return Some(Stop::Trap);
        };
        let GlobalSlot {
            ty,
            value: _,
            standing,
        } = *slot;
        if let Standing::Imported = standing {
            return Some(Stop::Unknown);
        }
        let Some(value) = value else {
            return Some(Stop::Trap);
        };
        if !(ty.mutable && value.has_type(ty.ty)) {
            return Some(Stop::Trap);
        }
        match self.items.get_mut(global as usize) {
            Some(slot) => {
                *slot = GlobalSlot {
                    ty,
                    value,
                    standing: Standing::Known,
                };
                None
            }
            None => Some(Stop::Trap),
        }
    }
}
