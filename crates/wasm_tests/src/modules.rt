use std::alloc::Global;
use std::test::Fail;
use wasm_tree::Module;
use wasm_valid::{Invalid, ItemKind, Rejected, Valid, validate};

// Whether a module has no functions.
fn is_without_functions(valid: &Valid) -> bool {
    valid.can_be_written();
    valid.module().funcs.len() == 0
}

// Whether a valid module has no functions once it is known to be valid.
fn is_known_without_functions(valid: Valid) -> bool {
    let again = Valid::known(valid.into_module());
    let known = is_without_functions(&again);
    drop(again);
    known
}

// Whether the empty module is accepted, and is the same once it is known to be valid.
#[tactic(auto, using(crate::proofs::Empty::empty_bounded))]
fn is_accepted(alloc: Global) -> bool {
    match validate(alloc, Module::empty(alloc)).ok() {
        Some(valid) => is_known_without_functions(valid),
        None => false,
    }
}

// The start of a module that is handed back, and what is invalid.
fn back(validated: &Result<Valid, Rejected>) -> Option<(Option<u32>, Invalid)> {
    match validated {
        Ok(_) => None,
        Err(Rejected::Invalid(same, invalid)) => Some((same.start, *invalid)),
        Err(Rejected::NoMemory(_)) => None,
    }
}

// The same of a module that starts a function which it does not have.
#[tactic(auto, using(crate::proofs::Empty::empty_bounded))]
fn handed_back(alloc: Global) -> Option<(Option<u32>, Invalid)> {
    let mut started = Module::empty(alloc);
    started.start = Some(3);
    let validated = validate(alloc, started);
    let back = back(&validated);
    drop(validated);
    back
}

#[test]
fn a_module_is_accepted_or_handed_back(rt: HostRuntime) -> Result<(), Fail> {
    let alloc = rt.alloc();
    assert!(rt; is_accepted(alloc));
    let start = Invalid {
        kind: ItemKind::Start,
        index: 0,
    };
    assert_eq!(rt; handed_back(alloc), Some((Some(3), start)));
    Ok(())
}
