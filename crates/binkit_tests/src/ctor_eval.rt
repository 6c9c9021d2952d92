// Tests of `ctor-eval`.
use std::alloc::Global;
use std::test::Fail;
use tool_io::MemFiles;
use tools_cli::Status;
use tools_cli_tests::given::{
    CUT, HEADER, LINKED, Ran, failing_files, run_line, run_line_failing, with_file, with_module,
};

// Three constructors: a stores 42 at 1024, b calls the import env.f, and c does nothing.
const THREE: &str = "\
    01 04 01 60 00 00 \
    02 09 01 03 65 6E 76 01 66 00 00 \
    03 04 03 00 00 00 \
    05 03 01 00 01 \
    07 0D 03 01 61 00 01 01 62 00 02 01 63 00 03 \
    0A 1C 03 0A 00 41 80 08 41 2A 3A 00 00 0B 0C 00 41 81 08 41 01 3A 00 00 10 00 0B 02 00 0B";

// THREE after a.
const THREE_AFTER: &str = "\
    01 04 01 60 00 00 \
    02 09 01 03 65 6E 76 01 66 00 00 \
    03 04 03 00 00 00 \
    05 03 01 00 01 \
    07 09 02 01 62 00 02 01 63 00 03 \
    0A 1C 03 0A 00 41 80 08 41 2A 3A 00 00 0B 0C 00 41 81 08 41 01 3A 00 00 10 00 0B 02 00 0B \
    0B 08 01 00 41 80 08 0B 01 2A";

// THREE after a, whose export is kept.
const THREE_KEPT: &str = "\
    01 04 01 60 00 00 \
    02 09 01 03 65 6E 76 01 66 00 00 \
    03 05 04 00 00 00 00 \
    05 03 01 00 01 \
    07 0D 03 01 61 00 04 01 62 00 02 01 63 00 03 \
    0A 1F 04 0A 00 41 80 08 41 2A 3A 00 00 0B 0C 00 41 81 08 41 01 3A 00 00 10 00 0B 02 00 0B 02 \
    00 0B \
    0B 08 01 00 41 80 08 0B 01 2A";

// THREE after a and c, whose exports are kept and share a function.
const THREE_BOTH_KEPT: &str = "\
    01 04 01 60 00 00 \
    02 09 01 03 65 6E 76 01 66 00 00 \
    03 05 04 00 00 00 00 \
    05 03 01 00 01 \
    07 0D 03 01 61 00 04 01 62 00 02 01 63 00 04 \
    0A 1F 04 0A 00 41 80 08 41 2A 3A 00 00 0B 0C 00 41 81 08 41 01 3A 00 00 10 00 0B 02 00 0B 02 \
    00 0B \
    0B 08 01 00 41 80 08 0B 01 2A";

// The module of a linker, after its constructors.
const LINKED_AFTER: &str = "\
    01 0D 03 60 00 00 60 01 7F 01 7F 60 01 7F 00 \
    02 0B 01 03 65 6E 76 03 6C 6F 67 00 02 \
    03 05 04 00 00 01 01 \
    04 05 01 70 01 05 05 \
    05 03 01 00 02 \
    06 08 01 7F 01 41 90 88 04 0B \
    07 10 02 06 6D 65 6D 6F 72 79 02 00 03 72 75 6E 00 04 \
    09 07 01 00 41 01 0B 01 03 \
    0A 27 04 04 00 10 02 0B 0A 00 41 00 41 2A 36 02 84 08 0B 07 00 20 00 41 01 74 0B 0D 00 20 00 \
    10 00 20 00 41 01 11 01 00 0B \
    0B 0C 01 00 41 80 08 0B 05 68 69 00 00 2A";

// A segment has a byte at 4000, and a stores at 4256 and at 4513.
const ZEROS: &str =
    "01 04 01 60 00 00 03 02 01 00 05 03 01 00 01 07 05 01 01 61 00 00 0A 14 01 12 00 41 A0 21 41 02 3A 00 00 41 A1 23 41 03 3A 00 00 0B 0B 08 01 00 41 A0 1F 0B 01 01";

// ZEROS after a: the first of two segments contains 255 zeros, and 256 zeros lie between the
// segments.
const ZEROS_AFTER: &str = "\
    01 04 01 60 00 00 \
    03 02 01 00 \
    05 03 01 00 01 \
    0A 14 01 12 00 41 A0 21 41 02 3A 00 00 41 A1 23 41 03 3A 00 00 0B \
    0B 90 02 02 00 41 A0 1F 0B 81 02 01 00 00 00 00 00 00 00 00 00 00 00 00 00 00 00 00 00 00 00 \
    00 00 00 00 00 00 00 00 00 00 00 00 00 00 00 00 00 00 00 00 00 00 00 00 00 00 00 00 00 00 00 \
    00 00 00 00 00 00 00 00 00 00 00 00 00 00 00 00 00 00 00 00 00 00 00 00 00 00 00 00 00 00 00 \
    00 00 00 00 00 00 00 00 00 00 00 00 00 00 00 00 00 00 00 00 00 00 00 00 00 00 00 00 00 00 00 \
    00 00 00 00 00 00 00 00 00 00 00 00 00 00 00 00 00 00 00 00 00 00 00 00 00 00 00 00 00 00 00 \
    00 00 00 00 00 00 00 00 00 00 00 00 00 00 00 00 00 00 00 00 00 00 00 00 00 00 00 00 00 00 00 \
    00 00 00 00 00 00 00 00 00 00 00 00 00 00 00 00 00 00 00 00 00 00 00 00 00 00 00 00 00 00 00 \
    00 00 00 00 00 00 00 00 00 00 00 00 00 00 00 00 00 00 00 00 00 00 00 00 00 00 00 00 00 00 00 \
    00 00 00 00 00 00 00 00 00 00 00 00 00 00 00 00 00 00 00 02 00 41 A1 23 0B 01 03";

// A memory of 65,536 pages; a stores in its last byte.
const LAST_BYTE: &str =
    "01 04 01 60 00 00 03 02 01 00 05 05 01 00 80 80 04 07 05 01 01 61 00 00 0A 0B 01 09 00 41 7F 41 01 3A 00 00 0B";

// LAST_BYTE after a.
const LAST_BYTE_AFTER: &str =
    "01 04 01 60 00 00 03 02 01 00 05 05 01 00 80 80 04 0A 0B 01 09 00 41 7F 41 01 3A 00 00 0B 0B 07 01 00 41 7F 0B 01 01";

// Global 0 is imported, and global 1 begins with its value. a sets globals 2 to 4, the last one to
// function 1, which is the start and sets global 5.
const GLOBALS: &str = "\
    01 04 01 60 00 00 \
    02 0A 01 03 65 6E 76 01 67 03 7F 00 \
    03 03 02 00 00 \
    06 1A 05 7F 01 23 00 0B 7F 01 41 01 0B 7E 01 42 02 0B 70 01 D0 70 0B 7F 01 41 03 0B \
    07 09 02 01 61 00 00 01 74 00 01 \
    08 01 01 \
    0A 1B 02 12 00 41 79 24 02 42 80 E4 97 D0 12 24 03 D2 01 24 04 0B 06 00 41 04 24 05 0B";

// GLOBALS after a: global 1 keeps its initialiser, and there is no start.
const GLOBALS_AFTER: &str = "\
    01 04 01 60 00 00 \
    02 0A 01 03 65 6E 76 01 67 03 7F 00 \
    03 03 02 00 00 \
    06 1E 05 7F 01 23 00 0B 7F 01 41 79 0B 7E 01 42 80 E4 97 D0 12 0B 70 01 D2 01 0B 7F 01 41 04 \
    0B \
    07 05 01 01 74 00 01 \
    0A 1B 02 12 00 41 79 24 02 42 80 E4 97 D0 12 24 03 D2 01 24 04 0B 06 00 41 04 24 05 0B";

// Of three data segments the last one is active. a copies the first to 512 and drops it, and
// function 1 copies from the second.
const SEGMENTS: &str = "\
    01 04 01 60 00 00 \
    03 03 02 00 00 \
    05 03 01 00 01 \
    07 09 02 01 61 00 00 01 74 00 01 \
    0C 01 03 \
    0A 1F 02 10 00 41 80 04 41 00 41 02 FC 08 00 00 FC 09 00 0B 0C 00 41 00 41 00 41 00 FC 08 01 \
    00 0B \
    0B 0F 03 01 02 61 62 01 02 63 64 00 41 10 0B 01 65";

// SEGMENTS after a: the first and the last are empty, and two segments follow them.
const SEGMENTS_AFTER: &str = "\
    01 04 01 60 00 00 \
    03 03 02 00 00 \
    05 03 01 00 01 \
    07 05 01 01 74 00 01 \
    0C 01 05 \
    0A 1F 02 10 00 41 80 04 41 00 41 02 FC 08 00 00 FC 09 00 0B 0C 00 41 00 41 00 41 00 FC 08 01 \
    00 0B \
    0B 17 05 01 00 01 02 63 64 01 00 00 41 10 0B 01 65 00 41 80 04 0B 02 61 62";

// Function 1 names a by `ref.func`. Only the export of a declares it.
const REFERENCES: &str =
    "01 08 02 60 01 7F 00 60 00 00 03 03 02 01 01 07 09 02 01 61 00 00 01 74 00 01 0A 0A 02 02 00 0B 05 00 D2 00 1A 0B";

// REFERENCES after a: a segment declares it.
const REFERENCES_AFTER: &str =
    "01 08 02 60 01 7F 00 60 00 00 03 03 02 01 01 07 05 01 01 74 00 01 09 05 01 03 00 01 00 0A 0A 02 02 00 0B 05 00 D2 00 1A 0B";

// REFERENCES after a, whose export is kept for function 2, of the second type.
const REFERENCES_KEPT: &str =
    "01 08 02 60 01 7F 00 60 00 00 03 04 03 01 01 01 07 09 02 01 61 00 02 01 74 00 01 09 05 01 03 00 01 00 0A 0D 03 02 00 0B 05 00 D2 00 1A 0B 02 00 0B";

const ONE: &str = "evaluated a\n";

const STOPPED_AT_B: &str = "evaluated a\nstopped at b: import\n";

// The file m.wasm, of these sections.
fn file_of(alloc: Global, module: &str) -> Result<MemFiles, Fail> {
    with_module(alloc, MemFiles::new(alloc), "m.wasm", module)
}

// Evaluates the module m.wasm into o.wasm with these arguments.
fn evaluate_by(alloc: Global, module: &str, words: &str) -> Result<Ran, Fail> {
    let line = format!(in alloc; "ctor-eval m.wasm {words} -o o.wasm")?;
    run_line(alloc, file_of(alloc, module)?, line.as_str())
}

// Expects the evaluation of a module with these arguments to print these lines and to write this
// module.
fn unlike_evaluated(
    alloc: Global,
    module: &str,
    words: &str,
    lines: &str,
    after: &str,
) -> Result<&'static str, Fail> {
    let ran = evaluate_by(alloc, module, words)?;
    ran.unlike_done(alloc, lines, "o.wasm", after)
}

const BOTH: &str = "evaluated a\nevaluated c\n";

// Modules, arguments, and what each prints and writes.
const EVALUATED: [(&str, &str, &str, &str); 11] = [
    (THREE, "--ctors=a,b,c", STOPPED_AT_B, THREE_AFTER),
    (
        THREE,
        "--ctors a,b,c --kept-exports=a",
        STOPPED_AT_B,
        THREE_KEPT,
    ),
    (
        THREE,
        "--kept-exports c,c,x --ctors=a,b,c",
        STOPPED_AT_B,
        THREE_AFTER,
    ),
    (
        THREE,
        "--ctors=a,c --kept-exports=c,a",
        BOTH,
        THREE_BOTH_KEPT,
    ),
    (
        LINKED,
        "--ctors=__wasm_call_ctors",
        "evaluated __wasm_call_ctors\n",
        LINKED_AFTER,
    ),
    (ZEROS, "--ctors=a", ONE, ZEROS_AFTER),
    (LAST_BYTE, "--ctors=a", ONE, LAST_BYTE_AFTER),
    (GLOBALS, "--ctors=a", ONE, GLOBALS_AFTER),
    (SEGMENTS, "--ctors=a", ONE, SEGMENTS_AFTER),
    (REFERENCES, "--ctors=a", ONE, REFERENCES_AFTER),
    (
        REFERENCES,
        "--ctors=a --kept-exports=a",
        ONE,
        REFERENCES_KEPT,
    ),
];

// Names the arguments and the lines.
fn first_unlike_evaluated(
    alloc: Global,
) -> Result<(&'static str, &'static str, &'static str), Fail> {
    for (module, words, lines, after) in &EVALUATED {
        let unlike = unlike_evaluated(alloc, module, words, lines, after)?;
        if !unlike.is_empty() {
            return Ok((*words, *lines, unlike));
        }
    }
    Ok(("", "", ""))
}

#[test]
fn constructors_are_evaluated_until_one_is_stopped(rt: HostRuntime) -> Result<(), Fail> {
    assert_eq!(rt; first_unlike_evaluated(rt.alloc())?, ("", "", ""));
    Ok(())
}

// Modules whose first constructor is stopped, with the reason that is reported; and one whose start
// is stopped.
const STOPPED: [(&str, &str); 11] = [
    // It calls an import.
    (
        "01 04 01 60 00 00 02 09 01 03 65 6E 76 01 66 00 00 03 02 01 00 07 05 01 01 61 00 01 0A 06 01 04 00 10 00 0B",
        "stopped at a: import\n",
    ),
    // It is an import.
    (
        "01 04 01 60 00 00 02 09 01 03 65 6E 76 01 66 00 00 07 05 01 01 61 00 00",
        "stopped at a: import\n",
    ),
    // It grows the memory.
    (
        "01 04 01 60 00 00 03 02 01 00 05 03 01 00 01 07 05 01 01 61 00 00 0A 09 01 07 00 41 00 40 00 1A 0B",
        "stopped at a: grow\n",
    ),
    // It sets a slot of a table.
    (
        "01 04 01 60 00 00 03 02 01 00 04 04 01 70 00 01 07 05 01 01 61 00 00 0A 0A 01 08 00 41 00 D0 70 26 00 0B",
        "stopped at a: table write\n",
    ),
    // It reads an imported global.
    (
        "01 04 01 60 00 00 02 0A 01 03 65 6E 76 01 67 03 7F 00 03 02 01 00 07 05 01 01 61 00 00 0A 07 01 05 00 23 00 1A 0B",
        "stopped at a: unknown\n",
    ),
    // It runs `unreachable`.
    (
        "01 04 01 60 00 00 03 02 01 00 07 05 01 01 61 00 00 0A 05 01 03 00 00 0B",
        "stopped at a: trap\n",
    ),
    // It has a parameter.
    (
        "01 05 01 60 01 7F 00 03 02 01 00 07 05 01 01 61 00 00 0A 04 01 02 00 0B",
        "stopped at a: signature\n",
    ),
    // It fills more than the turns allow.
    (
        "01 04 01 60 00 00 03 02 01 00 05 05 01 00 BD FD 02 07 05 01 01 61 00 00 0A 11 01 0F 00 41 00 41 00 41 80 C0 F0 F5 7B FC 0B 00 0B",
        "stopped at a: steps\n",
    ),
    // It calls itself.
    (
        "01 04 01 60 00 00 03 02 01 00 07 05 01 01 61 00 00 0A 06 01 04 00 10 00 0B",
        "stopped at a: depth\n",
    ),
    // It fills too many blocks.
    (
        "01 04 01 60 00 00 03 02 01 00 05 04 01 00 81 08 07 05 01 01 61 00 00 0A 10 01 0E 00 41 00 41 00 41 80 A0 80 20 FC 0B 00 0B",
        "stopped at a: memory\n",
    ),
    // Its start runs `unreachable`.
    (
        "01 04 01 60 00 00 03 03 02 00 00 07 05 01 01 61 00 00 08 01 01 0A 08 02 02 00 0B 03 00 00 0B",
        "instantiation stopped: trap\n",
    ),
];

// Names the line.
fn first_unlike_stopped(alloc: Global) -> Result<(&'static str, &'static str), Fail> {
    let words = "--ctors=a --kept-exports=a";
    for (module, line) in &STOPPED {
        let unlike = unlike_evaluated(alloc, module, words, line, module)?;
        if !unlike.is_empty() {
            return Ok((*line, unlike));
        }
    }
    Ok(("", ""))
}

#[test]
fn where_the_first_is_stopped_the_module_stays_as_it_is(rt: HostRuntime) -> Result<(), Fail> {
    assert_eq!(rt; first_unlike_stopped(rt.alloc())?, ("", ""));
    Ok(())
}

// Modules, arguments with a name of no exported function, and the text of the refusal.
const UNNAMED: [(&str, &str, &str); 4] = [
    (THREE, "--ctors=zz", "binkit: no exported function zz\n"),
    (
        THREE,
        "--ctors=a,yy,zz",
        "binkit: no exported function yy\n",
    ),
    (THREE, "--ctors=a,", "binkit: no exported function \n"),
    (
        LINKED,
        "--ctors=memory",
        "binkit: no exported function memory\n",
    ),
];

// Expects the refusal of these arguments with this text.
fn unlike_unnamed(
    alloc: Global,
    module: &str,
    words: &str,
    text: &str,
) -> Result<&'static str, Fail> {
    let ran = evaluate_by(alloc, module, words)?;
    Ok(ran.unlike_refused(text, "o.wasm"))
}

// Names the arguments.
fn first_unlike_unnamed(alloc: Global) -> Result<(&'static str, &'static str), Fail> {
    for (module, words, text) in &UNNAMED {
        let unlike = unlike_unnamed(alloc, module, words, text)?;
        if !unlike.is_empty() {
            return Ok((*words, unlike));
        }
    }
    Ok(("", ""))
}

#[test]
fn a_name_of_no_exported_function_is_refused_before_anything_is_written(
    rt: HostRuntime,
) -> Result<(), Fail> {
    assert_eq!(rt; first_unlike_unnamed(rt.alloc())?, ("", ""));
    Ok(())
}

// Evaluates THREE where this call of the files and this `put` on standard output fail.
fn evaluate_failing(alloc: Global, call: u64, put: u64) -> Result<Ran, Fail> {
    let files = failing_files(file_of(alloc, THREE)?, call)?;
    let line = "ctor-eval --ctors=a,b,c m.wasm -o o.wasm";
    run_line_failing(alloc, files, line, (put, 0))
}

// Expects this text on standard error, and the status `Outside`.
fn unlike_fault(ran: &Ran, text: &str) -> &'static str {
    if ran.err.text() != text.as_bytes() {
        return "standard error";
    }
    if ran.ended != Status::Outside {
        return "the status";
    }
    ""
}

// The same; if the output is complete, also expects o.wasm to hold what is left of THREE.
fn unlike_outside_of(
    alloc: Global,
    ran: &Ran,
    is_complete: bool,
    text: &str,
) -> Result<&'static str, Fail> {
    if is_complete && !ran.has_module(alloc, "o.wasm", THREE_AFTER)? {
        return Ok("the output");
    }
    Ok(unlike_fault(ran, text))
}

// Expects this text if this call of the files or this `put` on standard output fails. If `put` is
// 1, o.wasm must be complete.
fn unlike_outside(alloc: Global, call: u64, put: u64, text: &str) -> Result<&'static str, Fail> {
    let ran = evaluate_failing(alloc, call, put)?;
    unlike_outside_of(alloc, &ran, put == 1, text)
}

#[test]
fn faults_of_its_file_and_of_standard_output_are_told(rt: HostRuntime) -> Result<(), Fail> {
    let alloc = rt.alloc();
    let read = unlike_outside(alloc, 1, 0, "binkit: cannot read m.wasm\n")?;
    assert_eq!(rt; read, "");
    let written = unlike_outside(alloc, 2, 0, "binkit: cannot write o.wasm\n")?;
    assert_eq!(rt; written, "");
    let printed = unlike_outside(alloc, 0, 1, "binkit: cannot write standard output\n")?;
    assert_eq!(rt; printed, "");
    Ok(())
}

// Runs a line over two files, of which m.wasm is cut.
fn run_over_two(alloc: Global, line: &str) -> Result<Ran, Fail> {
    let files = with_file(MemFiles::new(alloc), "m.wasm", &CUT)?;
    let files = with_file(files, "h.wasm", &HEADER)?;
    run_line(alloc, files, line)
}

// Expects the refusal of a line over these two files with this text.
fn unlike_refused(alloc: Global, line: &str, text: &str) -> Result<&'static str, Fail> {
    let ran = run_over_two(alloc, line)?;
    Ok(ran.unlike_refused(text, "o.wasm"))
}

#[test]
fn its_module_is_read_before_its_names_are_looked_up(rt: HostRuntime) -> Result<(), Fail> {
    let alloc = rt.alloc();
    let line = "ctor-eval m.wasm --ctors=zz -o o.wasm";
    let text = "binkit: m.wasm: malformed section 3\n";
    assert_eq!(rt; unlike_refused(alloc, line, text)?, "");
    let line = "ctor-eval h.wasm --ctors=zz -o o.wasm";
    let text = "binkit: no exported function zz\n";
    assert_eq!(rt; unlike_refused(alloc, line, text)?, "");
    Ok(())
}

// Lines that are no ctor-eval.
const NO_EVALUATION: [&str; 14] = [
    "ctor-eval",
    "ctor-eval m.wasm -o o.wasm",
    "ctor-eval m.wasm --ctors=a",
    "ctor-eval --ctors=a -o o.wasm",
    "ctor-eval m.wasm n.wasm --ctors=a -o o.wasm",
    "ctor-eval m.wasm --ctors=a,b,a -o o.wasm",
    "ctor-eval m.wasm --ctors=, -o o.wasm",
    "ctor-eval m.wasm --ctors= -o o.wasm",
    "ctor-eval m.wasm --ctors=a --ctors=b -o o.wasm",
    "ctor-eval m.wasm --ctors=a --kept-exports=a --kept-exports=b -o o.wasm",
    "ctor-eval m.wasm --ctors=a --kept-exports= -o o.wasm",
    "ctor-eval m.wasm --ctors=a -o o.wasm --output=o.wasm",
    "ctor-eval m.wasm --ctors=a --wide -o o.wasm",
    "ctor-eval m.wasm --ctors a -o o.wasm --",
];

// Expects a line, over no file, to print the usage line alone.
fn unlike_usage(alloc: Global, line: &str) -> Result<&'static str, Fail> {
    let ran = run_line(alloc, MemFiles::new(alloc), line)?;
    Ok(ran.unlike(Status::Usage, "", "usage: binkit ctor-eval\n"))
}

// Names the line.
fn first_unlike_usage(alloc: Global) -> Result<(&'static str, &'static str), Fail> {
    for line in &NO_EVALUATION {
        let unlike = unlike_usage(alloc, line)?;
        if !unlike.is_empty() {
            return Ok((*line, unlike));
        }
    }
    Ok(("", ""))
}

#[test]
fn its_options_stand_anywhere_and_its_names_differ(rt: HostRuntime) -> Result<(), Fail> {
    assert_eq!(rt; first_unlike_usage(rt.alloc())?, ("", ""));
    Ok(())
}
