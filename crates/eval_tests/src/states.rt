use crate::evaluated::{after_runs, byte_at_first};
use crate::modules::{LAST_BYTE, LEARNT, LINKED, START, UNDONE};
use eval_machine::Ran;
use eval_spec::Stop;
use std::test::Fail;
use wasm_tree::ConstExpr;

#[test]
fn a_start_is_run(rt: HostRuntime) -> Result<(), Fail> {
    let seen = after_runs(rt.alloc(), START, &[], 0)?;
    assert_eq!(rt;
        (seen.global, seen.blocks, seen.dropped),
        (Some(ConstExpr::I32(7)), Some(1), true)
    );
    Ok(())
}

#[test]
fn the_memory_is_read(rt: HostRuntime) -> Result<(), Fail> {
    let alloc = rt.alloc();
    let last = byte_at_first(alloc, START, 1_024)?;
    let past = byte_at_first(alloc, START, 65_536)?;
    let seen = after_runs(alloc, LAST_BYTE, &[(0, Ran::Done)], 0)?;
    assert_eq!(rt;
        (last, past, seen.nonzero),
        (Some(9), None, Some(4_294_967_295))
    );
    Ok(())
}

#[test]
fn a_call_of_an_import_leaves_the_writes_before_it(rt: HostRuntime) -> Result<(), Fail> {
    let import = (2, Ran::Stopped(Stop::Import));
    let runs = [(1, Ran::Done), import, (3, Ran::Done)];
    let seen = after_runs(rt.alloc(), LINKED, &runs, 0)?;
    assert_eq!(rt; (seen.nonzero, seen.blocks), (Some(1_024), Some(1)));
    Ok(())
}

#[test]
fn a_stopped_constructor_leaves_nothing(rt: HostRuntime) -> Result<(), Fail> {
    let alloc = rt.alloc();
    let trap = (0, Ran::Stopped(Stop::Trap));
    let global = Some(ConstExpr::I64(3));
    let first = after_runs(alloc, UNDONE, &[trap], 0)?;
    assert_eq!(rt;
        (first.nonzero, first.global, first.dropped, first.blocks),
        (None, global, false, Some(0))
    );
    let next = after_runs(alloc, UNDONE, &[trap, (1, Ran::Done)], 0)?;
    assert_eq!(rt;
        (next.nonzero, next.global, next.dropped, next.blocks),
        (Some(9), global, true, Some(1))
    );
    Ok(())
}

#[test]
fn a_global_is_known_once_it_is_set(rt: HostRuntime) -> Result<(), Fail> {
    let alloc = rt.alloc();
    let stopped = [
        (0, Ran::Stopped(Stop::Trap)),
        (1, Ran::Stopped(Stop::Unknown)),
    ];
    let before = after_runs(alloc, LEARNT, &stopped, 1)?;
    let runs = [(2, Ran::Done), (3, Ran::Done)];
    let after = after_runs(alloc, LEARNT, &runs, 1)?;
    assert_eq!(rt;
        (before.global, after.global),
        (None, Some(ConstExpr::I32(6)))
    );
    Ok(())
}
