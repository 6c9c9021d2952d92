use split_plan::{Plan, PlanFault, plan};
use std::alloc::Global;
use std::process::Abort;
use std::test::Fail;
use wasm_bytes::{Items, Name, NoMemory};
use wasm_names::FuncName;
use wasm_read::read;
use wasm_valid::{Valid, validate};

// Function 0 is imported. Functions 1 and 3 do nothing, and function 2 drops the one data segment. Function 3 is exported as `g`.
const MODULE: &[u8] = b"\
    \x00\x61\x73\x6D\x01\x00\x00\x00\
    \x01\x04\x01\x60\x00\x00\
    \x02\x07\x01\x01\x6D\x01\x66\x00\x00\
    \x03\x04\x03\x00\x00\x00\
    \x07\x05\x01\x01\x67\x00\x03\
    \x0C\x01\x01\
    \x0A\x0D\x03\x02\x00\x0B\x05\x00\xFC\x09\x00\x0B\x02\x00\x0B\
    \x0B\x03\x01\x01\x00";

// Functions 1 and 3 both bear `s`; function 0 is imported, and there is no function 9.
const NAMES: &[(u32, &str)] = &[
    (0, "i"),
    (1, "a"),
    (2, "b"),
    (3, "s"),
    (1, "s"),
    (9, "gone"),
];

fn module(rt: &impl Abort, alloc: Global) -> Valid {
    let Ok(module) = read(alloc, MODULE) else {
        panic!(rt; "the module is not read");
    };
    let Ok(valid) = validate(alloc, module) else {
        panic!(rt; "the module is not valid");
    };
    valid
}

fn names(alloc: Global) -> Result<Items<FuncName>, NoMemory> {
    let mut names = Items::new(alloc);
    for named in NAMES {
        names.keep(FuncName {
            index: named.0,
            name: Name::from_text(alloc, named.1)?,
        })?;
    }
    Ok(names)
}

fn words(alloc: Global, texts: &[&str]) -> Result<Items<Name>, NoMemory> {
    let mut words = Items::new(alloc);
    for text in texts {
        words.keep(Name::from_text(alloc, text)?)?;
    }
    Ok(words)
}

// What the plan comes to: its lists, or its fault and the word.
fn told(alloc: Global, found: Result<Plan, PlanFault>) -> Result<String, Fail> {
    Ok(match found {
        Ok(plan) => format!(in alloc;
            "moved {:?} kept {:?}",
            plan.moved.as_slice(),
            plan.kept.as_slice()
        )?,
        Err(PlanFault::NoSuchFunction { name }) => format!(in alloc;
            "no function {}",
            name.as_str()
        )?,
        Err(PlanFault::AmbiguousFunction { name }) => format!(in alloc;
            "several functions {}",
            name.as_str()
        )?,
        Err(PlanFault::KeptAndSplit { name }) => format!(in alloc;
            "kept and split {}",
            name.as_str()
        )?,
        Err(PlanFault::NoMemory) => format!(in alloc; "no memory")?,
    })
}

// The plan of these words.
fn planned(
    rt: &impl Abort,
    alloc: Global,
    split: Option<&Items<Name>>,
    keep: Option<&Items<Name>>,
) -> Result<String, Fail> {
    let names = names(alloc)?;
    let input = module(rt, alloc);
    told(alloc, plan(alloc, &input, &names, split, keep))
}

// The plan of words to split alone.
fn split_alone(rt: &impl Abort, alloc: Global, split: &[&str]) -> Result<String, Fail> {
    let split = words(alloc, split)?;
    planned(rt, alloc, Some(&split), None)
}

// The plan of words to keep alone.
fn keep_alone(rt: &impl Abort, alloc: Global, keep: &[&str]) -> Result<String, Fail> {
    let keep = words(alloc, keep)?;
    planned(rt, alloc, None, Some(&keep))
}

fn split_and_keep(
    rt: &impl Abort,
    alloc: Global,
    split: &[&str],
    keep: &[&str],
) -> Result<String, Fail> {
    let split = words(alloc, split)?;
    let keep = words(alloc, keep)?;
    planned(rt, alloc, Some(&split), Some(&keep))
}

#[test]
fn named_functions_move_and_those_with_segments_stay(rt: HostRuntime) -> Result<(), Fail> {
    let alloc = rt.alloc();
    assert_eq!(rt;
        split_alone(&rt, alloc, &["g", "b", "a", "g"])?.as_str(),
        "moved [1, 3] kept [2]"
    );
    assert_eq!(rt; split_alone(&rt, alloc, &[])?.as_str(), "moved [] kept []");
    Ok(())
}

#[test]
fn without_words_to_split_all_others_move(rt: HostRuntime) -> Result<(), Fail> {
    let alloc = rt.alloc();
    assert_eq!(rt;
        keep_alone(&rt, alloc, &["a"])?.as_str(),
        "moved [3] kept [2]"
    );
    assert_eq!(rt;
        keep_alone(&rt, alloc, &["a", "b", "g"])?.as_str(),
        "moved [] kept []"
    );
    Ok(())
}

#[test]
fn words_are_refused_in_their_order(rt: HostRuntime) -> Result<(), Fail> {
    let alloc = rt.alloc();
    assert_eq!(rt;
        split_alone(&rt, alloc, &["a", "i", "s"])?.as_str(),
        "no function i"
    );
    assert_eq!(rt;
        split_alone(&rt, alloc, &["gone"])?.as_str(),
        "no function gone"
    );
    assert_eq!(rt;
        split_and_keep(&rt, alloc, &["a", "s"], &["i", "a"])?.as_str(),
        "several functions s"
    );
    assert_eq!(rt;
        split_and_keep(&rt, alloc, &["a"], &["a", "f"])?.as_str(),
        "no function f"
    );
    assert_eq!(rt;
        split_and_keep(&rt, alloc, &["b", "g", "a"], &["a", "g"])?.as_str(),
        "kept and split g"
    );
    Ok(())
}
