// The checker of bodies.

ghost use Rattle.std.specs.Prelude.{◌≡◌, ◌↔◌, ◌∷◌, [], IfOk, IsTrue};
ghost use Rattle.std.specs.Bool.{OnTrue};
ghost use Rattle.wasm_valid_bodies.specs.Typing.{Fits, WellTyped};
ghost use Rattle.wasm_valid_bodies.specs.Tracking.{TracksStep};
ghost use Rattle.wasm_valid_bodies.specs.OperandStack.{stack_of, beneath, IsBack};
ghost use Rattle.wasm_valid_bodies.specs.Labels.{label_list};
ghost use Rattle.wasm_valid_bodies.specs.ScopeContexts.{context_of};

use crate::labels::Labels;
use crate::operand_stack::OperandStack;
use crate::plain::plain;
use crate::scope::{Scope, Shape, shape_of};
use std::alloc::{AllocError, Global};
use wasm_tree::{Instr, ValType};

// Returns whether the instruction can follow. If it can, the operands become those after it.
#[cycle(body)]
fn step<'a>(
    alloc: Global,
    scope: &Scope<'a>,
    labels: &mut Labels<'a>,
    stack: &mut OperandStack,
    instr: &'a Instr,
) -> Result<bool, AllocError>
    ensures typed { IfOk result (λ ok. TracksStep (Fits (context_of scope.now (label_list labels.old)) instr.now)
        (stack_of stack.old) stack.old.any_below (stack_of stack.new) stack.new.any_below ok) }
    ensures labels { IfOk result (λ ok. OnTrue ok (label_list labels.new ≡ label_list labels.old)) }
    ensures beneath { IfOk result (λ ok. OnTrue ok (beneath stack.new ≡ beneath stack.old)) }
{
    match instr {
        Instr::Block(block, body) => {
            let body = body.as_slice();
            let Some(shape) = shape_of(scope.types, block) else {
                return Ok(false);
            };
            if !is_well_typed(alloc, scope, labels, stack, shape.results, shape, body)? {
                return Ok(false);
            }
            stack.gives(shape.params, shape.results)
        }
        Instr::Loop(block, body) => {
            let body = body.as_slice();
            let Some(shape) = shape_of(scope.types, block) else {
                return Ok(false);
            };
            if !is_well_typed(alloc, scope, labels, stack, shape.params, shape, body)? {
                return Ok(false);
            }
            stack.gives(shape.params, shape.results)
        }
        Instr::If(block, body, other) => {
            let body = body.as_slice();
            let other = other.as_slice();
            let Some(shape) = shape_of(scope.types, block) else {
                return Ok(false);
            };
            if !is_well_typed(alloc, scope, labels, stack, shape.results, shape, body)? {
                return Ok(false);
            }
            if !is_well_typed(alloc, scope, labels, stack, shape.results, shape, other)? {
                return Ok(false);
            }
            stack.gives_over(shape.params, ValType::I32, shape.results)
        }
        _ => plain(alloc, scope, labels, stack, instr),
    }
}

// Returns whether a body with one more label takes the parameters of the shape and leaves its
// results. If so, the operands and labels are those from before the call.
#[cycle(body)]
fn is_well_typed<'a>(
    alloc: Global,
    scope: &Scope<'a>,
    labels: &mut Labels<'a>,
    stack: &mut OperandStack,
    label: &'a [ValType],
    shape: Shape<'a>,
    body: &'a [Instr],
) -> Result<bool, AllocError>
    ensures typed { IfOk result (λ ok. IsTrue ok ↔ WellTyped (context_of scope.now (label.now ∷ label_list labels.old)) body.now shape.entry.params.now shape.entry.results.now) }
    ensures labels { IfOk result (λ ok. OnTrue ok (label_list labels.new ≡ label_list labels.old)) }
    ensures back { IfOk result (λ ok. OnTrue ok (IsBack stack.old stack.new)) }
{
    labels.open(label)?;
    let outer = stack.enter(shape.params)?;
    for instr in body {
        if !step(alloc, scope, labels, stack, instr)? {
            return Ok(false);
        }
    }
    labels.close();
    let ends = stack.ends(shape.results);
    stack.leave(outer);
    Ok(ends)
}

/// The stacks of the checker. They are made once and reused from body to body.
#[derive(Drop)]
pub struct Stacks<'a> {
    labels: Labels<'a>,
    stack: OperandStack,
}

impl<'a> Stacks<'a> {
    /// Returns stacks without labels and operands. Only checking a body allocates.
    pub fn new(alloc: Global) -> Stacks<'a>
        ensures labels { label_list result.labels ≡ [] }
        ensures operands { stack_of result.stack ≡ [] }
    {
        Stacks {
            labels: Labels::new(alloc),
            stack: OperandStack::new(alloc),
        }
    }
}

/// Returns whether the body of a function leaves exactly the results of the function (WebAssembly
/// Core 2.0, sections 3.3.9 and 3.4.1). What the stacks contain before does not matter. The
/// recursion is as deep as the blocks are nested. The only error is that memory runs out.
pub fn is_well_typed_body<'a>(
    alloc: Global,
    scope: &Scope<'a>,
    stacks: &mut Stacks<'a>,
    body: &'a [Instr],
) -> Result<bool, AllocError>
    ensures { IfOk result (λ ok. IsTrue ok ↔ WellTyped (context_of scope.now (scope.now.results.now ∷ [])) body.now [] scope.now.results.now) }
{
    let labels = &mut stacks.labels;
    let stack = &mut stacks.stack;
    labels.clear();
    stack.clear();
    let shape = Shape {
        params: &[],
        results: scope.results,
    };
    is_well_typed(alloc, scope, labels, stack, scope.results, shape, body)
}
