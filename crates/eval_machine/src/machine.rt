ghost use Rattle.std.specs.Prelude.{◌≡◌, ◌<◌, ◌≤◌, ◌↔◌, ℕ, [], IfOk, IfSome, IsNone, Some, length, slice_get};
ghost use Rattle.block_pool.specs.Pages.{IsNextNonzero, IsZeroFrom, Pages, size};
ghost use Rattle.wasm_tree.specs.declared.module.Module.{Module};
ghost use Rattle.eval_spec.specs.StateContents.{value_of_global, memory_bytes, is_dropped};
ghost use Rattle.eval_machine.specs.Kept.{MachineFits, Rests, state_in};
ghost use Rattle.wasm_tree.specs.Spaces.{funcs_of};
ghost use Rattle.eval_spec.specs.State.{Finished};
ghost use Rattle.eval_spec.specs.Quiet.{call_end};
ghost use Rattle.eval_machine.specs.Calls.{IfDone, IfNotDone, IfNotReady, IfReady, IfStopped, SameButForTurns, IsReady, StopsBoot, StopsCall};
ghost use Rattle.eval_machine.specs.MachineContents.{HasByte};

use crate::boot::instantiate;
use crate::locals::Locals;
use crate::operands::Operands;
use crate::registers::Registers;
use block_pool::Paged;
use eval_proof::{
    calls_keep_values_of_globals, evaluated_globals_are_typed, evaluated_references_are_there,
    imported_functions_are_typed,
};
use eval_spec::Stop;
use std::alloc::Global;
use std::marker::Model;
use wasm_bytes::NoMemory;
use wasm_tree::ConstExpr;
use wasm_valid::{Valid, valid_where_items_hold};

/// What the evaluation of a module keeps from call to call: the instance after its start and after
/// the constructors that were run. The module itself is not in it; each call is given the same
/// module again. With a module that it fits, the machine represents a state (`state_in`), and what
/// is read of the machine is read of that state.
#[derive(Drop)]
pub struct Machine {
    alloc: Global,
    registers: Registers,
}

impl Model for Machine {
    ghost use Rattle.eval_machine.specs.declared.kept.Kept.{Kept};

    ghost Value = { Kept };

    ghost view = { λ m. m.registers.kept };
}

/// How the instantiation of a module with its start ended.
#[derive(Drop)]
pub enum Booted {
    /// A machine that fits the module, in the state after both.
    Ready(Machine),
    /// The instantiation or the start was stopped.
    Stopped(Stop),
}

/// How the call of a constructor ended.
#[derive(Clone, Copy, Debug, PartialEq, Eq)]
pub enum Ran {
    /// It returned.
    Done,
    /// It was stopped.
    Stopped(Stop),
}

impl Machine {
    /// Instantiates a valid module and runs its start (WebAssembly Core 2.0, sections 4.5.4 and
    /// 4.5.5), with `MOST_TURNS` turns for the start and all later calls together; instantiation
    /// takes none. Of what is imported, only the types of functions are known. Active element
    /// segments are copied first, then active data segments; then the start runs.
    ///
    /// Returns `Booted::Stopped` at the first thing that stops an evaluation (see `Stop`); a module
    /// with several memories is stopped at once, with `Stop::Memory`. The only error is `NoMemory`.
    /// For each block of the memory that may be written, two blocks are reserved now, so that no
    /// later write has to allocate one.
    pub fn boot(alloc: Global, input: &Valid) -> Result<Booted, NoMemory>
        ensures ready { IfOk result (IfReady (IsReady input.now)) }
        ensures stopped { IfOk result (IfNotReady (StopsBoot input.now)) }
    {
        valid_where_items_hold();
        evaluated_globals_are_typed();
        evaluated_references_are_there();
        let kept = match instantiate(alloc, input)? {
            Ok(kept) => kept,
            Err(stop) => return Ok(Booted::Stopped(stop)),
        };
        let mut registers = Registers {
            kept,
            operands: Operands::new(alloc),
            locals: Locals::new(alloc),
        };
        let input = input.module();
        let Some(start) = input.start else {
            return Ok(Booted::Ready(Machine { alloc, registers }));
        };
        match registers.call(alloc, input, start)? {
            Some(stop) => Ok(Booted::Stopped(stop)),
            None => Ok(Booted::Ready(Machine { alloc, registers })),
        }
    }

    /// Calls a constructor, a function without parameters and results (WebAssembly Core 2.0,
    /// section 4.5.5), in the present state and with the turns that are left. Any other function is
    /// stopped with `Stop::Signature`. The machine must fit the module (`rests`), as `boot` and
    /// this call leave it, and `func` must be a function of the module. The error is `NoMemory`.
    ///
    /// After a stop or an error, globals, memory, dropped segments and written blocks are as
    /// before; turns that were spent stay spent.
    pub fn run_ctor(&mut self, input: &Valid, func: u32) -> Result<Ran, NoMemory>
        requires rests { Rests input.now self.old }
        requires there { func < length (funcs_of input.now) }
        ensures done { IfOk result (IfDone (call_end input.now (state_in input.now self.old) func ≡ Finished (state_in input.now self.new))) }
        ensures stopped { IfOk result (IfStopped (λ stop. StopsCall input.now func self.old stop self.new)) }
        ensures left { IfNotDone (SameButForTurns input.now self.old self.new) result }
        ensures turns { self.new.turns ≤ self.old.turns }
        ensures rests { Rests input.now self.new }
    {
        valid_where_items_hold();
        imported_functions_are_typed();
        calls_keep_values_of_globals();
        let alloc = self.alloc;
        self.registers.kept.mark(alloc);
        match self.registers.call(alloc, input.module(), func) {
            Ok(None) => {
                self.registers.kept.commit();
                Ok(Ran::Done)
            }
            Ok(Some(stop)) => {
                self.registers.kept.rollback();
                Ok(Ran::Stopped(stop))
            }
            Err(_) => {
                self.registers.kept.rollback();
                Err(NoMemory)
            }
        }
    }

    /// Returns the value of a global; `None` exactly if it is unknown or there is no such global.
    pub fn global_value(&self, global: u32) -> Option<ConstExpr>
        ensures { (m : Module) → MachineFits m self.now → result ≡ value_of_global m (state_in m self.now) global }
    {
        self.registers.kept.globals.constant(global)
    }

    /// Returns the number of bytes of the memory that the module defines; 0 if it defines none.
    pub fn memory_size(&self) -> u64
        ensures inside { (at : ℕ) → at < result → HasByte at self.now.memory }
        ensures size { (m : Module) → MachineFits m self.now → result ≡ length (memory_bytes m (state_in m self.now)) }
    {
        match &self.registers.kept.memory {
            Some(paged) => paged.size(),
            None => 0,
        }
    }

    /// Returns the byte at `at` in the memory that the module defines, which must have such a byte.
    pub fn byte(&self, at: u64) -> u8
        requires { HasByte at self.now.memory }
        ensures { (m : Module) → MachineFits m self.now → Some result ≡ slice_get (memory_bytes m (state_in m self.now)) at }
    {
        match &self.registers.kept.memory {
            Some(paged) => paged.load(at, 1) as u8,
            None => 0,
        }
    }

    /// Returns the place of the first nonzero byte at `from` or later in the memory that the module
    /// defines; `None` exactly if there is no such byte or no such memory.
    pub fn next_nonzero(&self, from: u64) -> Option<u64>
        ensures some { (m : Module) → MachineFits m self.now → IfSome result (λ at. IsNextNonzero (memory_bytes m (state_in m self.now)) from at) }
        ensures none { (m : Module) → MachineFits m self.now → IsNone result ↔ IsZeroFrom (memory_bytes m (state_in m self.now)) from }
    {
        match &self.registers.kept.memory {
            Some(paged) => paged.next_nonzero(from),
            None => None,
        }
    }

    /// Returns the pages of the memory that the module defines; `None` exactly if it defines none.
    /// Between calls no mark is set in them.
    pub fn memory(&self) -> Option<&Paged>
        ensures none { (m : Module) → MachineFits m self.now → IsNone result ↔ (m.mems ≡ []) }
        ensures bytes { (m : Module) → MachineFits m self.now → IfSome result (λ p. p.now.now.bytes ≡ memory_bytes m (state_in m self.now)) }
        ensures unmarked { (m : Module) → Rests m self.now → IfSome result (λ p. IsNone p.now.mark) }
        ensures written { (m : Module) → MachineFits m self.now → IfSome result (λ p. p.now.now.written ≡ (state_in m self.now).written) }
    {
        self.registers.kept.memory.as_ref()
    }

    /// Returns whether a data segment is dropped; `false` if there is no such segment.
    pub fn dropped(&self, segment: u32) -> bool
        ensures { (m : Module) → MachineFits m self.now → result ≡ is_dropped (state_in m self.now) segment }
    {
        match self.registers.kept.dropped.get(segment as usize) {
            Some(dropped) => *dropped,
            None => false,
        }
    }
}
