//! The machine that evaluates a module: it instantiates it, runs its start, and calls functions
//! without parameters and results (WebAssembly Core 2.0, sections 4.4 and 4.5). Of imports it knows
//! only the types of functions. Unless memory runs out, it stops exactly when the quiet run of
//! eval_spec stops, and otherwise ends in the same state.
//!
//! Files:
//!
//! - `access`: Instructions on memories and data segments.
//! - `begin`: What each instruction does by itself.
//! - `boot`: Instantiates a valid module without running its start, and returns what the machine
//!   keeps then, or the stop.
//! - `call`: Calls that the embedder makes, of the start and of constructors.
//! - `ctor`: The mark before a constructor, and how it is given up, or the machine taken back to
//!   it.
//! - `globals`: The globals of a module, by index.
//! - `initial`: The globals, memory and data segments of a module before any segment is copied.
//! - `kept`: What a machine keeps from call to call: what an evaluation changes, with what undoes
//!   it, and beside it, for fast look-up, the filled slots and the import counts of the module.
//! - `locals`: The locals of a frame; the arguments come first.
//! - `machine`: What the evaluation of a module keeps from call to call: the instance after its
//!   start and after the constructors that were run.
//! - `memory`: Writes to the memory that a module defines.
//! - `operands`: The operands of a level, and the instructions on them.
//! - `operators`: Which numeric operations take i64 operands.
//! - `plain`: Instructions that use only operands and locals.
//! - `registers`: What a call under way reads and writes, and how its code is left.
//! - `run`: The interpreter.
//! - `slots`: The slots to which active element segments were copied, by table and place.
//! - `state`: Instructions on globals, functions and tables.
//! - `undo`: What undoes the changes of a constructor that is stopped: what globals and data
//!   segments were before they were changed.
//! - `value`: The values of an evaluation.
//! - `specs/Accesses`: The numbers that loads give, and the bytes of data segments.
//! - `specs/Calls`: What the instantiation with the start, and the call of a constructor, leave in
//!   a machine.
//! - `specs/DenotedValues`: What a value of the machine denotes, and how a result of the machine
//!   is compared with the rules.
//! - `specs/Flows`: What the quiet steps of the code of a level lead to, for any levels and frames
//!   around it.
//! - `specs/InstantiationParts`: What the parts of an instantiation do.
//! - `specs/Instructions`: The step of an instruction whose own turn is spent, and how the machine
//!   represents its result.
//! - `specs/Kept`: The state of an evaluation that a machine and its module represent together,
//!   and when a machine fits a module.
//! - `specs/MachineContents`: What can be read of a machine.
//! - `specs/Marks`: The mark in a memory, if there is one, before and after the call of a
//!   constructor, and that nothing is noted at a mark.
//! - `specs/Slots`: What is in a slot of a table.
//! - `specs/UnchangedParts`: What no instruction changes in a machine, and no call while it is
//!   under way.
//! - `specs/Undo`: What a machine notes of globals and data segments before it changes them, and
//!   what these were at the mark.
//! - `specs/Written`: The tests before a write to a memory, and what the write leaves.
#![tactic(auto)]

mod access;
mod begin;
mod boot;
mod call;
mod ctor;
mod globals;
mod initial;
mod kept;
mod locals;
mod machine;
mod memory;
mod operands;
mod operators;
mod plain;
mod registers;
mod run;
mod slots;
mod state;
mod undo;
mod value;

pub use globals::{GlobalSlot, Globals, Standing};
pub use kept::{ImportCounts, Kept};
pub use locals::Locals;
pub use machine::{Booted, Machine, Ran};
pub use operands::Operands;
pub use registers::{Advance, Flow, MachineAct, Opening, Registers};
pub use slots::{Slot, Slots};
pub use undo::{EarlierGlobal, UndoLog};
pub use value::Value;
