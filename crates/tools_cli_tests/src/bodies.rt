// Tests of bodies: operands of code that is not reached, and how deep blocks may stand in one
// another.
use crate::given::{merge_one, module_of, module_of_blocks};
use std::alloc::Global;
use std::test::Fail;

// A body that selects and drops behind `unreachable`, where operands have any type; and one that
// selects, behind `unreachable`, of an i32 and an i64.
const SELECTS: [(&str, &str); 2] = [
    (
        "01 04 01 60 00 00 03 02 01 00 0A 07 01 05 00 00 1B 1A 0B",
        "",
    ),
    (
        "01 04 01 60 00 00 03 02 01 00 0A 0D 01 0B 00 00 41 00 42 00 41 00 1B 1A 0B",
        "binkit: a.wasm: invalid body 0\n",
    ),
];

// Expects the refusal with this text or, if it is empty, the same module as the output.
fn unlike_merged(alloc: Global, bytes: &[u8], text: &str) -> Result<&'static str, Fail> {
    let ran = merge_one(alloc, bytes)?;
    Ok(ran.unlike_written("o.wasm", bytes, text))
}

fn unlike_select(alloc: Global, sections: &str, text: &str) -> Result<&'static str, Fail> {
    let module = module_of(alloc, sections)?;
    unlike_merged(alloc, module.as_slice(), text)
}

// Names the text.
fn first_unlike_select(alloc: Global) -> Result<(&'static str, &'static str), Fail> {
    for (sections, text) in &SELECTS {
        let unlike = unlike_select(alloc, sections, text)?;
        if !unlike.is_empty() {
            return Ok((*text, unlike));
        }
    }
    Ok(("", ""))
}

#[test]
fn operands_of_unreached_code_have_any_type(rt: HostRuntime) -> Result<(), Fail> {
    assert_eq!(rt; first_unlike_select(rt.alloc())?, ("", ""));
    Ok(())
}

fn unlike_blocks(
    alloc: Global,
    head: &str,
    count: usize,
    text: &str,
) -> Result<&'static str, Fail> {
    let module = module_of_blocks(alloc, head, count)?;
    unlike_merged(alloc, module.as_slice(), text)
}

#[test]
fn a_thousand_blocks_may_stand_in_one_another(rt: HostRuntime) -> Result<(), Fail> {
    let alloc = rt.alloc();
    let fits = "01 04 01 60 00 00 03 02 01 00 0A BD 17 01 BA 17 00";
    let more = "01 04 01 60 00 00 03 02 01 00 0A C0 17 01 BD 17 00";
    let text = "binkit: a.wasm: limit on nesting\n";
    assert_eq!(rt; unlike_blocks(alloc, fits, 1000, "")?, "");
    assert_eq!(rt; unlike_blocks(alloc, more, 1001, text)?, "");
    Ok(())
}
