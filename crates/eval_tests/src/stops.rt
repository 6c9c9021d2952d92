use crate::built::{BLOCKS_999, BLOCKS_1000, SEGMENTS_16384, SEGMENTS_16385, nested, scattered};
use crate::evaluated::{Seen, after, after_runs, boot_stop, boot_stop_of, each_is_stopped};
use crate::modules::{
    FILLS, FRAMES, GROW, GROW_IMPORTED, IMPORT, LAST_BYTE, ROUNDS, SIGNATURE, START_STOPS,
    TABLE_WRITE, TRAP, TRAP_DATA, TRAP_ELEM, UNKNOWN, UNKNOWN_MEMORY, UNKNOWN_OFFSET,
    UNKNOWN_PLACE, UNKNOWN_TABLE,
};
use eval_machine::Ran;
use eval_spec::Stop;
use std::alloc::Global;
use std::test::Fail;

// A module, how many functions it has from 0 on, and what stops each of them.
type Functions = (&'static [u8], u32, Stop);

const STOPPED: [Functions; 7] = [
    (IMPORT, 4, Stop::Import),
    (GROW, 1, Stop::Grow),
    (GROW_IMPORTED, 1, Stop::Grow),
    (TABLE_WRITE, 6, Stop::TableWrite),
    (UNKNOWN, 10, Stop::Unknown),
    (TRAP, 6, Stop::Trap),
    (SIGNATURE, 2, Stop::Signature),
];

// The place of the first module of which a function is not stopped so, if there is one.
fn first_not_stopped(alloc: Global, rows: &[Functions]) -> Result<Option<usize>, Fail> {
    for (place, (bytes, count, stop)) in rows.iter().enumerate() {
        if !each_is_stopped(alloc, bytes, *count, *stop)? {
            return Ok(Some(place));
        }
    }
    Ok(None)
}

#[test]
fn functions_are_stopped(rt: HostRuntime) -> Result<(), Fail> {
    assert_eq!(rt; first_not_stopped(rt.alloc(), &STOPPED)?, None);
    Ok(())
}

// A module, and what stops its instantiation or its start.
type Instantiation = (&'static [u8], Stop);

const UNREADY: [Instantiation; 7] = [
    (UNKNOWN_OFFSET, Stop::Unknown),
    (UNKNOWN_PLACE, Stop::Unknown),
    (UNKNOWN_MEMORY, Stop::Unknown),
    (UNKNOWN_TABLE, Stop::Unknown),
    (TRAP_DATA, Stop::Trap),
    (TRAP_ELEM, Stop::Trap),
    (START_STOPS, Stop::Trap),
];

// The place of the first module whose instantiation is not stopped so, if there is one.
fn first_ready(alloc: Global, rows: &[Instantiation]) -> Result<Option<usize>, Fail> {
    for (place, (bytes, stop)) in rows.iter().enumerate() {
        if boot_stop_of(alloc, bytes)? != Some(*stop) {
            return Ok(Some(place));
        }
    }
    Ok(None)
}

#[test]
fn instantiations_are_stopped(rt: HostRuntime) -> Result<(), Fail> {
    assert_eq!(rt; first_ready(rt.alloc(), &UNREADY)?, None);
    Ok(())
}

#[test]
fn turns_are_counted_over_all_constructors(rt: HostRuntime) -> Result<(), Fail> {
    let alloc = rt.alloc();
    let steps = Ran::Stopped(Stop::Steps);
    after_runs(alloc, ROUNDS, &[(0, Ran::Done)], 0)?;
    after_runs(alloc, ROUNDS, &[(1, steps)], 0)?;
    after_runs(alloc, ROUNDS, &[(2, Ran::Done), (2, steps)], 0)?;
    Ok(())
}

// A function of so many blocks, each in the one before, ends so.
fn ends(alloc: Global, before: &[u8], count: usize, ran: Ran) -> Result<Seen, Fail> {
    let input = nested(alloc, before, count)?;
    after(alloc, &input, &[(0, ran)], 0)
}

#[test]
fn frames_and_labels_are_counted(rt: HostRuntime) -> Result<(), Fail> {
    let alloc = rt.alloc();
    let depth = Ran::Stopped(Stop::Depth);
    after_runs(alloc, FRAMES, &[(1, Ran::Done), (2, depth)], 0)?;
    ends(alloc, BLOCKS_999, 999, Ran::Done)?;
    ends(alloc, BLOCKS_1000, 1_000, depth)?;
    Ok(())
}

fn fits(alloc: Global) -> Result<Seen, Fail> {
    let input = scattered(alloc, SEGMENTS_16384, 16_384)?;
    after(alloc, &input, &[], 0)
}

fn exceeds(alloc: Global) -> Result<Option<Stop>, Fail> {
    let input = scattered(alloc, SEGMENTS_16385, 16_385)?;
    boot_stop(alloc, &input)
}

#[test]
fn blocks_are_counted(rt: HostRuntime) -> Result<(), Fail> {
    let alloc = rt.alloc();
    let memory = Ran::Stopped(Stop::Memory);
    after_runs(alloc, FILLS, &[(0, Ran::Done), (1, memory)], 0)?;
    after_runs(alloc, LAST_BYTE, &[(0, Ran::Done)], 0)?;
    fits(alloc)?;
    assert_eq!(rt; exceeds(alloc)?, Some(Stop::Memory));
    Ok(())
}
