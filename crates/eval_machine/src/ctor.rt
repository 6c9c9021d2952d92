// The mark before a constructor, and how it is given up, or the machine taken back to it.

ghost use Rattle.std.specs.Prelude.{◌≡◌, Bool, List};
ghost use Rattle.eval_machine.specs.Undo.{AreGlobalsBefore, AreSegmentsBefore, FlagsAreRight};
ghost use Rattle.eval_machine.specs.Marks.{AreMarked, IsMarked, KeepsMarked, NothingToUndo, RollsMarked};
ghost use Rattle.eval_machine.specs.Kept.{IsUnmarked};
ghost use Rattle.eval_machine.specs.declared.globals.GlobalSlot.{GlobalSlot};

use crate::kept::Kept;
use std::alloc::Global;

impl Kept {
    /// Sets a mark, to which `rollback` takes memory, globals and data segments back.
    pub(crate) fn mark(&mut self, alloc: Global)
        requires unmarked { IsUnmarked self.old.memory }
        requires flags { FlagsAreRight self.old.undo.globals self.old.undo.noted }
        ensures rest { self.new ≡ record self.old { memory = self.new.memory; undo = self.new.undo } }
        ensures marked { AreMarked self.old.memory self.new.memory }
        ensures none { NothingToUndo self.new.undo }
    {
        match &mut self.memory {
            Some(paged) => paged.mark(),
            None => {}
        }
        self.undo.forget(alloc);
    }

    /// Gives up the mark and keeps what was changed since. The undo log stays until the next mark.
    pub(crate) fn commit(&mut self)
        requires { IsMarked self.old.memory }
        ensures rest { self.new ≡ record self.old { memory = self.new.memory } }
        ensures keeps { KeepsMarked self.old.memory self.new.memory }
    {
        match &mut self.memory {
            Some(paged) => paged.commit(),
            None => {}
        }
    }

    /// Takes the memory, the globals and the data segments back to the mark.
    pub(crate) fn rollback(&mut self)
        requires marked { IsMarked self.old.memory }
        requires flags { FlagsAreRight self.old.undo.globals self.old.undo.noted }
        ensures rest { self.new ≡ record self.old { memory = self.new.memory; globals = self.new.globals; dropped = self.new.dropped; undo = self.new.undo } }
        ensures rolls { RollsMarked self.old.memory self.new.memory }
        ensures globals { (gs : List GlobalSlot) → AreGlobalsBefore self.old.undo.globals self.old.globals gs → self.new.globals ≡ gs }
        ensures dropped { (flags : List Bool) → AreSegmentsBefore self.old.undo.dropped self.old.dropped flags → self.new.dropped ≡ flags }
        ensures flags { FlagsAreRight self.new.undo.globals self.new.undo.noted }
    {
        match &mut self.memory {
            Some(paged) => paged.rollback(),
            None => {}
        }
        self.undo.put_globals_back(&mut self.globals);
        self.undo.put_segments_back(&mut self.dropped);
    }
}
