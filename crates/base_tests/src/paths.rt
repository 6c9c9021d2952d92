use base_paths::{Step, endings, ends};

// A stop, a chain to it, a circle of two with a way into it, a place that is its own next, and a second way to the stop.
#[test]
fn chains_end_where_they_stop_and_circles_never(rt: HostRuntime) {
    let steps = [
        None,
        Some(0),
        Some(1),
        Some(4),
        Some(3),
        Some(4),
        Some(6),
        Some(2),
    ];
    let want = [Some(0), Some(0), Some(0), None, None, None, None, Some(0)];
    match ends(rt.alloc(), &steps) {
        Ok(found) => assert_eq!(rt; found.as_slice(), &want[..]),
        Err(_) => assert!(rt; false),
    }
}

// A place that goes on to the next, what that ends with, a circle of one, and a place that leads to one from where nothing leads on.
#[test]
fn what_a_path_ends_with_is_told(rt: HostRuntime) {
    let steps = [
        Step::Leads(1),
        Step::Stops(7u8),
        Step::Leads(2),
        Step::Leads(4),
        Step::Nowhere,
    ];
    let want = [Some(7u8), Some(7), None, None, None];
    match endings(rt.alloc(), &steps) {
        Ok(found) => assert_eq!(rt; found.as_slice(), &want[..]),
        Err(_) => assert!(rt; false),
    }
}
