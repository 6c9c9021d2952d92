// What undoes the changes of a constructor that is stopped: what globals and data segments were
// before they were changed. Those that are not changed are not copied.

ghost use Rattle.std.specs.Prelude.{◌≡◌, [], Bool, ℕ, IfOk, IsTrue, List, OnOk, Some, false, replicate, slice_get, slice_set, true};
ghost use Rattle.eval_machine.specs.Undo.{AreGlobalsBefore, AreSegmentsBefore, FlagsAreRight, IsNoted, global_before};
ghost use Rattle.eval_machine.specs.declared.globals.GlobalSlot.{GlobalSlot};

use crate::globals::{GlobalSlot, Globals};
use std::alloc::Global;
use wasm_bytes::{Items, NoMemory};

/// A global, by its index, as it was before it was set.
#[derive(Clone, Copy, Debug, PartialEq, Eq)]
pub struct EarlierGlobal {
    pub global: u32,
    pub before: GlobalSlot,
}

/// What undoes the changes of globals and data segments since the last mark (before the first mark,
/// since the instantiation).
#[derive(Drop)]
pub struct UndoLog {
    /// The globals that a `global.set` has named since the mark, each as it was before the first
    /// such instruction.
    pub globals: Items<EarlierGlobal>,
    /// For each global, whether it is in `globals`.
    pub noted: Items<bool>,
    /// The data segments that were dropped.
    pub dropped: Items<u32>,
}

/// Returns `count` flags that are not set.
pub(crate) fn blank_flags(alloc: Global, count: usize) -> Result<Items<bool>, NoMemory>
    ensures { IfOk result (λ flags. flags ≡ replicate count false) }
{
    let mut flags = Items::new(alloc);
    for _ in 0..count {
        flags.keep(false)?;
    }
    Ok(flags)
}

/// Sets or clears a flag, if it is there.
pub(crate) fn write_flag(flags: &mut Items<bool>, at: usize, to: bool)
    ensures { flags.new ≡ slice_set flags.old at to }
{
    match flags.get_mut(at) {
        Some(flag) => *flag = to,
        None => {}
    }
}

impl UndoLog {
    /// Returns the log of a machine with `count` globals, of which none is noted. The error is
    /// `NoMemory`.
    pub(crate) fn none(alloc: Global, count: usize) -> Result<UndoLog, NoMemory>
        ensures { IfOk result (λ undo. FlagsAreRight undo.globals undo.noted) }
    {
        Ok(UndoLog {
            globals: Items::new(alloc),
            noted: blank_flags(alloc, count)?,
            dropped: Items::new(alloc),
        })
    }

    // Returns whether the flag of a global is set.
    fn is_flagged(&self, global: u32) -> bool
        ensures { IsTrue result → slice_get self.now.noted global ≡ Some true }
    {
        match self.noted.get(global as usize) {
            Some(flag) => *flag,
            None => false,
        }
    }

    /// Notes what a global is before it is set, unless it is noted already or not there. The error
    /// is `NoMemory`; then nothing is noted.
    pub(crate) fn note_global(&mut self, globals: &Globals, global: u32) -> Result<(), NoMemory>
        requires flags { FlagsAreRight self.old.globals self.old.noted }
        ensures flags { FlagsAreRight self.new.globals self.new.noted }
        ensures there { OnOk result (IsNoted self.new.globals globals.now global) }
        ensures globals { (n : ℕ) → global_before self.new.globals globals.now n ≡ global_before self.old.globals globals.now n }
        ensures dropped { self.new.dropped ≡ self.old.dropped }
    {
        if self.is_flagged(global) {
            return Ok(());
        }
        let Some(before) = globals.slot(global) else {
            return Ok(());
        };
        self.globals.keep(EarlierGlobal { global, before })?;
        write_flag(&mut self.noted, global as usize, true);
        Ok(())
    }

    /// Puts the noted globals back to what they were at the mark, and forgets them.
    pub(crate) fn put_globals_back(&mut self, globals: &mut Globals)
        requires flags { FlagsAreRight self.old.globals self.old.noted }
        ensures back { (gs : List GlobalSlot) → AreGlobalsBefore self.old.globals globals.old gs → globals.new ≡ gs }
        ensures flags { FlagsAreRight self.new.globals self.new.noted }
        ensures dropped { self.new.dropped ≡ self.old.dropped }
    {
        while let Some(earlier) = self.globals.pop() {
            write_flag(&mut self.noted, earlier.global as usize, false);
            globals.put(earlier.global, earlier.before);
        }
    }

    /// Clears the flags of the segments that were dropped since the mark, and forgets them.
    pub(crate) fn put_segments_back(&mut self, flags: &mut Items<bool>)
        ensures back { (bs : List Bool) → AreSegmentsBefore self.old.dropped flags.old bs → flags.new ≡ bs }
        ensures rest { self.new ≡ record self.old { dropped = self.new.dropped } }
    {
        while let Some(segment) = self.dropped.pop() {
            write_flag(flags, segment as usize, false);
        }
    }

    /// Empties the log: the changes can no longer be undone.
    pub(crate) fn forget(&mut self, alloc: Global)
        requires flags { FlagsAreRight self.old.globals self.old.noted }
        ensures flags { FlagsAreRight self.new.globals self.new.noted }
        ensures globals { self.new.globals ≡ [] }
        ensures dropped { self.new.dropped ≡ [] }
    {
        while let Some(earlier) = self.globals.pop() {
            write_flag(&mut self.noted, earlier.global as usize, false);
        }
        self.dropped = Items::new(alloc);
    }
}
