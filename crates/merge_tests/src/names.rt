use merge_names::{Mode, NameFault, choose_names};
use std::alloc::Global;
use std::process::Abort;
use std::test::Fail;
use wasm_bytes::{Items, Name};

fn assert_named(rt: &impl Abort, names: &Items<Option<Name>>, place: usize, want: &str) {
    match names.get(place) {
        Some(Some(name)) => assert_eq!(rt; name.as_str(), want),
        _ => assert!(rt; false, "no name at {place}"),
    }
}

#[test]
fn takes_the_least_number_that_no_part_has(rt: HostRuntime) -> Result<(), Fail> {
    let names = choose_names(rt.alloc(), &["f", "f", "f_1"], Mode::Rename)?;
    assert_named(&rt, &names, 0, "f");
    assert_named(&rt, &names, 1, "f_2");
    assert_named(&rt, &names, 2, "f_1");
    Ok(())
}

#[test]
fn goes_on_from_chosen_numbers(rt: HostRuntime) -> Result<(), Fail> {
    let names = choose_names(rt.alloc(), &["f", "f", "f", "f_1", "f_1"], Mode::Rename)?;
    assert_named(&rt, &names, 1, "f_2");
    assert_named(&rt, &names, 2, "f_3");
    assert_named(&rt, &names, 4, "f_1_1");
    Ok(())
}

#[test]
fn skips_later_ones(rt: HostRuntime) -> Result<(), Fail> {
    let names = choose_names(rt.alloc(), &["f", "g", "f"], Mode::Skip)?;
    assert_named(&rt, &names, 0, "f");
    assert_named(&rt, &names, 1, "g");
    assert!(rt; matches!(names.get(2), Some(None)));
    Ok(())
}

#[test]
fn refuses_the_first_that_came_before(rt: HostRuntime) -> Result<(), Fail> {
    let names = choose_names(rt.alloc(), &["f", "g"], Mode::Refuse)?;
    assert_named(&rt, &names, 1, "g");
    match choose_names(rt.alloc(), &["a", "b", "b", "a"], Mode::Refuse) {
        Err(fault) => assert_eq!(rt; fault, NameFault::Conflict { place: 2 }),
        Ok(_) => assert!(rt; false),
    }
    Ok(())
}
