use base_kept::{add_numbers, keep_marked, new_places};
use std::test::Fail;
use wasm_bytes::Items;

#[test]
fn what_is_marked_is_kept_in_order(rt: HostRuntime) -> Result<(), Fail> {
    let alloc = rt.alloc();
    let Ok(all) = Items::from_slice(alloc, &[10u32, 20, 30, 40]) else {
        return Err(Fail::new("no memory"));
    };
    let Ok(kept) = keep_marked(alloc, all, &[true, false, false, true]) else {
        return Err(Fail::new("no memory"));
    };
    assert_eq!(rt; kept.as_slice(), [10u32, 40].as_slice());
    Ok(())
}

#[test]
fn places_count_what_is_kept_before(rt: HostRuntime) -> Result<(), Fail> {
    let Ok(mut places) = new_places(rt.alloc(), &[true, false, true, false]) else {
        return Err(Fail::new("no memory"));
    };
    assert_eq!(rt; places.as_slice(), [0u32, 1, 1, 2].as_slice());
    if add_numbers(&mut places, 7, 2).is_err() {
        return Err(Fail::new("no memory"));
    }
    assert_eq!(rt; places.as_slice(), [0u32, 1, 1, 2, 7, 8].as_slice());
    Ok(())
}
