// What a call under way reads and writes, and how its code is left.

use crate::kept::Kept;
use crate::locals::Locals;
use crate::operands::Operands;
use eval_spec::Stop;
use wasm_tree::{Instr, ValType};

/// What the machine keeps, with the operands of the innermost level and the locals of the topmost
/// frame.
#[derive(Drop)]
pub struct Registers {
    pub kept: Kept,
    pub operands: Operands,
    pub locals: Locals,
}

/// How the code of a level was left.
#[derive(Clone, Copy, Debug, PartialEq, Eq)]
pub enum Flow {
    /// It ran to its end.
    Fell,
    /// A branch to the label with this number, counted from the level itself.
    Branch(u32),
    /// A return from the function.
    Return,
    /// A stop of the evaluation.
    Stopped(Stop),
}

/// Where the code continues after an instruction.
#[derive(Clone, Copy, Debug, PartialEq, Eq)]
pub enum Advance {
    On,
    /// At the same instruction, which is a loop.
    Again,
    Out(Flow),
}

/// A block, loop or if to open.
#[derive(Drop)]
pub struct Opening<'a> {
    pub params: &'a [ValType],
    /// The number of values that it gives at its end, and the number that a branch to it takes.
    pub gives: usize,
    pub takes: usize,
    pub body: &'a [Instr],
    /// Whether a branch to it begins it again, as in a loop.
    pub again: bool,
}

/// What remains to be done after an instruction was executed by itself.
#[derive(Drop)]
pub enum MachineAct<'a> {
    /// It stays in its level, and the next instruction follows.
    Continues,
    Leaves(Flow),
    Opens(Opening<'a>),
    Calls(u32),
}
