// The operands that the checker keeps.

ghost use Rattle.std.specs.Prelude.{◌≤◌, length};

use wasm_tree::ValType;

/// The operands of all open blocks. The stack of the innermost block is its known operands, below
/// them at most one bottom (an operand of any type) and, if `any_below`, any operands below that. A
/// bottom is never above a known operand, because only a `select` of two bottoms leaves one.
#[derive(Drop)]
pub struct OperandStack {
    /// The types of the known operands of all open blocks, the topmost last.
    pub types: Vec<ValType>,
    /// How many of them belong to the blocks around the innermost one.
    pub base: usize,
    /// Whether a bottom is below the known operands of the innermost block.
    pub bottom: bool,
    pub any_below: bool,
    ghost within: { base ≤ length types.items },
}

/// What is saved about the outer block while a block is checked.
#[derive(Clone, Copy)]
pub struct Outer {
    pub base: usize,
    pub bottom: bool,
    pub any_below: bool,
}
