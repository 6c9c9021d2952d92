ghost use Rattle.std.specs.Prelude.{◌≡◌, ◌≤◌, ◌<◌, ◌||◌, ℕ, length, OnOk, IfOk};
ghost use Rattle.wasm_tree.specs.DataUse.{uses_data_in, uses_data};
ghost use Rattle.wasm_read_spec.specs.Reading.{Gives, GivesAll};
ghost use Rattle.wasm_read_spec.specs.BodyReading.{sequence_at, block_at, body_at};

use crate::pile::{Kind, Pile};
use crate::tokens::read_token;
use crate::types::read_block_type;
use std::alloc::Global;
use wasm_bytes::{Cursor, Items};
use wasm_read_spec::{Fault, Opener, Sequence, sequences_are_read_token_by_token};
use wasm_tree::{BlockType, Instr, MOST_NESTING, Which, operands_pass_layer_by_layer};

/// Reads a sequence up to the `end` or `else` that ends it; at most `deeper` blocks can be open at
/// once in it. Its instructions are on the pile until it ends.
#[cycle(read)]
fn read_sequence(
    alloc: Global,
    cursor: &mut Cursor<'_>,
    many: bool,
    deeper: u32,
    pile: &mut Pile,
) -> Result<Sequence, Fault>
    ensures reads { (fuel : ℕ) → length cursor.old ≤ fuel → Gives result cursor.new (sequence_at many fuel deeper cursor.old) }
    ensures shorter { OnOk result (length cursor.new < length cursor.old) }
    ensures pile { OnOk result (pile.new.instrs ≡ pile.old.instrs) }
    ensures uses { IfOk result (λ s. pile.new.uses_data ≡ (pile.old.uses_data || uses_data s.items)) }
{
    sequences_are_read_token_by_token();
    let start = pile.instrs.len();
    'tokens: loop {
        match read_token(alloc, cursor, many, pile)? {
            Kind::End => {
                return Ok(Sequence {
                    items: pile.split_off(alloc, start)?,
                    by_else: false,
                });
            }
            Kind::Else => {
                return Ok(Sequence {
                    items: pile.split_off(alloc, start)?,
                    by_else: true,
                });
            }
            Kind::Plain => (),
            Kind::Open(opener) => {
                let ty = read_block_type(alloc, cursor)?;
                let block = read_block(alloc, cursor, many, deeper, opener, ty, pile)?;
                pile.instrs.keep(block)?
            }
        }
    }
}

/// Reads the rest of a block whose opening token was read.
#[cycle(read)]
fn read_block(
    alloc: Global,
    cursor: &mut Cursor<'_>,
    many: bool,
    deeper: u32,
    opener: Opener,
    ty: BlockType,
    pile: &mut Pile,
) -> Result<Instr, Fault>
    ensures reads { (fuel : ℕ) → length cursor.old ≤ fuel → Gives result cursor.new (block_at (sequence_at many fuel) deeper opener ty cursor.old) }
    ensures shorter { OnOk result (length cursor.new < length cursor.old) }
    ensures pile { OnOk result (pile.new.instrs ≡ pile.old.instrs) }
    ensures uses { IfOk result (λ i. pile.new.uses_data ≡ (pile.old.uses_data || uses_data_in i)) }
{
    if deeper == 0 {
        return Err(Fault::Limit {
            which: Which::Nesting,
        });
    }
    let first = read_sequence(alloc, cursor, many, deeper - 1, pile)?;
    operands_pass_layer_by_layer();
    match opener {
        Opener::If => {
            if first.by_else {
                let other = read_sequence(alloc, cursor, many, deeper - 1, pile)?;
                if other.by_else {
                    return Err(Fault::Malformed);
                }
                return Ok(Instr::If(ty, first.items, other.items));
            }
            Ok(Instr::If(ty, first.items, Items::new(alloc)))
        }
        Opener::Block => {
            if first.by_else {
                return Err(Fault::Malformed);
            }
            Ok(Instr::Block(ty, first.items))
        }
        Opener::Loop => {
            if first.by_else {
                return Err(Fault::Malformed);
            }
            Ok(Instr::Loop(ty, first.items))
        }
    }
}

/// Reads a body up to its last `end`, which nothing may follow (WebAssembly Core 2.0, section
/// 5.4.9).
#[tactic(auto, unfolding(wasm_read_spec::specs::BodyReading::body_at))]
pub fn read_body(
    alloc: Global,
    cursor: &mut Cursor<'_>,
    many: bool,
    pile: &mut Pile,
) -> Result<Items<Instr>, Fault>
    ensures gives { GivesAll result (body_at many cursor.old) }
    ensures uses { IfOk result (λ is. pile.new.uses_data ≡ (pile.old.uses_data || uses_data is)) }
{
    let body = read_sequence(alloc, cursor, many, MOST_NESTING, pile)?;
    if body.by_else {
        return Err(Fault::Malformed);
    }
    if cursor.left() != 0 {
        return Err(Fault::Malformed);
    }
    Ok(body.items)
}
