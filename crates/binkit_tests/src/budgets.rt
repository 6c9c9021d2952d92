// Tests of how deep an evaluation may be, of how much memory it may write, and of the limit on
// output bytes.
use crate::split::many_params;
use std::alloc::Global;
use std::test::Fail;
use tool_io::MemFiles;
use tools_cli_tests::given::{Ran, module_of, module_of_blocks, run_line, with_file};

// Evaluates the constructors of a module into o.wasm.
fn evaluate(alloc: Global, module: &[u8], ctors: &str) -> Result<Ran, Fail> {
    let files = with_file(MemFiles::new(alloc), "m.wasm", module)?;
    let line = format!(in alloc; "ctor-eval m.wasm --ctors={ctors} -o o.wasm")?;
    run_line(alloc, files, line.as_str())
}

// Expects these lines, and this module in o.wasm.
fn unlike_evaluated(
    alloc: Global,
    module: &[u8],
    ctors: &str,
    lines: &str,
    after: &[u8],
) -> Result<&'static str, Fail> {
    let ran = evaluate(alloc, module, ctors)?;
    if !ran.has("o.wasm", after) {
        return Ok("the output");
    }
    Ok(ran.unlike(tools_cli::Status::Done, lines, ""))
}

// Expects a constructor of so many blocks, each in the one before, to print this line, and the
// output to be the module with the second head.
fn unlike_blocks(
    alloc: Global,
    head: &str,
    count: usize,
    line: &str,
    after: &str,
) -> Result<&'static str, Fail> {
    let module = module_of_blocks(alloc, head, count)?;
    let left = module_of_blocks(alloc, after, count)?;
    unlike_evaluated(alloc, module.as_slice(), "a", line, left.as_slice())
}

#[test]
fn a_constructor_opens_999_blocks_in_its_frame(rt: HostRuntime) -> Result<(), Fail> {
    let alloc = rt.alloc();
    let fits = "01 04 01 60 00 00 03 02 01 00 07 05 01 01 61 00 00 0A BA 17 01 B7 17 00";
    let left = "01 04 01 60 00 00 03 02 01 00 0A BA 17 01 B7 17 00";
    let more = "01 04 01 60 00 00 03 02 01 00 07 05 01 01 61 00 00 0A BD 17 01 BA 17 00";
    assert_eq!(rt; unlike_blocks(alloc, fits, 999, "evaluated a\n", left)?, "");
    assert_eq!(rt;
        unlike_blocks(alloc, more, 1000, "stopped at a: depth\n", more)?,
        ""
    );
    Ok(())
}

// Expects the module of these sections to be left as that of the others.
fn unlike_sections(
    alloc: Global,
    sections: &str,
    ctors: &str,
    lines: &str,
    after: &str,
) -> Result<&'static str, Fail> {
    let module = module_of(alloc, sections)?;
    let left = module_of(alloc, after)?;
    unlike_evaluated(alloc, module.as_slice(), ctors, lines, left.as_slice())
}

// The constructor a fills 2^26 bytes with zeros, and b one byte more; and the same after a.
const FILLS: &str =
    "01 04 01 60 00 00 03 03 02 00 00 05 04 01 00 81 08 07 09 02 01 61 00 00 01 62 00 01 0A 1F 02 0E 00 41 00 41 00 41 80 80 80 20 FC 0B 00 0B 0E 00 41 00 41 00 41 81 80 80 20 FC 0B 00 0B";

const FILLS_AFTER: &str =
    "01 04 01 60 00 00 03 03 02 00 00 05 04 01 00 81 08 07 05 01 01 62 00 01 0A 1F 02 0E 00 41 00 41 00 41 80 80 80 20 FC 0B 00 0B 0E 00 41 00 41 00 41 81 80 80 20 FC 0B 00 0B";

#[test]
fn an_evaluation_writes_16384_blocks(rt: HostRuntime) -> Result<(), Fail> {
    let alloc = rt.alloc();
    let lines = "evaluated a\nstopped at b: memory\n";
    assert_eq!(rt;
        unlike_sections(alloc, FILLS, "a,b", lines, FILLS_AFTER)?,
        ""
    );
    Ok(())
}

// A name of so many letters.
fn long_name(alloc: Global, count: usize) -> Result<String, Fail> {
    let mut name = String::new(alloc);
    for _ in 0..count {
        name.push_str("n")?;
    }
    Ok(name)
}

// Splits a module of which 4,000 functions move, with a placeholder namespace of so many letters.
fn split_with(alloc: Global, letters: usize) -> Result<Ran, Fail> {
    let module = many_params(alloc)?;
    let files = with_file(MemFiles::new(alloc), "m.wasm", module.as_slice())?;
    let namespace = long_name(alloc, letters)?;
    let line = format!(in alloc;
        "split m.wasm --primary-output=p --secondary-output=q --keep-funcs=k,l --placeholder-namespace={namespace}"
    )?;
    run_line(alloc, files, line.as_str())
}

fn unlike_too_long(alloc: Global, letters: usize) -> Result<&'static str, Fail> {
    let ran = split_with(alloc, letters)?;
    if ran.files.contents("p").is_some() {
        return Ok("the primary module");
    }
    Ok(ran.unlike_refused("binkit: output exceeds the limit on output bytes\n", "q"))
}

#[test]
fn an_output_above_the_limit_on_output_bytes_is_refused(rt: HostRuntime) -> Result<(), Fail> {
    assert_eq!(rt; unlike_too_long(rt.alloc(), 70000)?, "");
    Ok(())
}
