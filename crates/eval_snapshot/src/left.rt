// The globals and the data segments of a snapshot.

ghost use Rattle.std.specs.Prelude.{◌≡◌, ◌+◌, ◌≤◌, ◌<◌, ◌^◌, length};
ghost use Rattle.wasm_tree.specs.declared.module.Module.{Module};
ghost use Rattle.eval_machine.specs.Kept.{MachineFits, state_in};
ghost use Rattle.eval_snapshot_spec.specs.Snapshot.{globals_left, segments_left};
ghost use Rattle.eval_snapshot.specs.Names.{left_or_emptied};

use eval_machine::Machine;
use std::alloc::Global;
use wasm_bytes::Items;
use wasm_tree::{DataMode, DataSeg, GlobalDef};

/// Makes the value of each defined global its initialiser, if the value is known; `imported`
/// globals come before the defined ones.
pub(crate) fn initialise_globals(globals: &mut Items<GlobalDef>, machine: &Machine, imported: u32)
    requires few { imported + length globals.old ≤ 2 ^ 32 }
    ensures { (m : Module) → MachineFits m machine.now → globals.new ≡ globals_left m (state_in m machine.now) imported globals.old }
{
    for at in 0..globals.len() {
        if let Some(global) = globals.get_mut(at) {
            if let Some(constant) = machine.global_value(imported + at as u32) {
                global.init = constant;
            }
        }
    }
}

// Empties a segment, unless it is passive and not dropped.
fn empty_segment(alloc: Global, segment: &mut DataSeg, dropped: bool)
    ensures { segment.new ≡ left_or_emptied dropped segment.old }
{
    match segment.mode {
        DataMode::Passive if !dropped => (),
        DataMode::Passive | DataMode::Active { .. } => {
            *segment = DataSeg {
                mode: DataMode::Passive,
                bytes: Items::new(alloc),
            };
        }
    }
}

/// Empties all segments, except passive ones that are not dropped.
pub(crate) fn empty_segments(alloc: Global, segments: &mut Items<DataSeg>, machine: &Machine)
    requires few { length segments.old < 2 ^ 32 }
    ensures { (m : Module) → MachineFits m machine.now → segments.new ≡ segments_left (state_in m machine.now) 0 segments.old }
{
    for at in 0..segments.len() {
        if let Some(segment) = segments.get_mut(at) {
            empty_segment(alloc, segment, machine.dropped(at as u32));
        }
    }
}
