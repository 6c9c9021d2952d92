use crate::given::{
    A, CUT, HEADER, Ran, merge_one, run_line, run_words, two_files, with_file, words_of,
};
use std::alloc::Global;
use std::test::Fail;
use tool_io::MemFiles;
use tools_cli::Status;

// A with an empty name section after it.
const A_WITH_NAMES: [u8; 41] = [
    0x00, 0x61, 0x73, 0x6D, 0x01, 0x00, 0x00, 0x00, 0x01, 0x05, 0x01, 0x60, 0x00, 0x01, 0x7F, 0x03,
    0x02, 0x01, 0x00, 0x07, 0x05, 0x01, 0x01, 0x66, 0x00, 0x00, 0x0A, 0x06, 0x01, 0x04, 0x00, 0x41,
    0x07, 0x0B, 0x00, 0x05, 0x04, 0x6E, 0x61, 0x6D, 0x65,
];

// A with the size of the code section encoded in five bytes.
const A_PADDED: [u8; 38] = [
    0x00, 0x61, 0x73, 0x6D, 0x01, 0x00, 0x00, 0x00, 0x01, 0x05, 0x01, 0x60, 0x00, 0x01, 0x7F, 0x03,
    0x02, 0x01, 0x00, 0x07, 0x05, 0x01, 0x01, 0x66, 0x00, 0x00, 0x0A, 0x86, 0x80, 0x80, 0x80, 0x00,
    0x01, 0x04, 0x00, 0x41, 0x07, 0x0B,
];

// The same in six bytes.
const A_OVERLONG: [u8; 39] = [
    0x00, 0x61, 0x73, 0x6D, 0x01, 0x00, 0x00, 0x00, 0x01, 0x05, 0x01, 0x60, 0x00, 0x01, 0x7F, 0x03,
    0x02, 0x01, 0x00, 0x07, 0x05, 0x01, 0x01, 0x66, 0x00, 0x00, 0x0A, 0x86, 0x80, 0x80, 0x80, 0x80,
    0x00, 0x01, 0x04, 0x00, 0x41, 0x07, 0x0B,
];

// A body with f64.add.
const FLOAT_BODY: [u8; 25] = [
    0x00, 0x61, 0x73, 0x6D, 0x01, 0x00, 0x00, 0x00, 0x01, 0x04, 0x01, 0x60, 0x00, 0x00, 0x03, 0x02,
    0x01, 0x00, 0x0A, 0x05, 0x01, 0x03, 0x00, 0xA0, 0x0B,
];

// A type with a float parameter.
const FLOAT_PARAMETER: [u8; 15] = [
    0x00, 0x61, 0x73, 0x6D, 0x01, 0x00, 0x00, 0x00, 0x01, 0x05, 0x01, 0x60, 0x01, 0x7D, 0x00,
];

// A with an unknown opcode in its body.
const UNKNOWN_OPCODE: [u8; 34] = [
    0x00, 0x61, 0x73, 0x6D, 0x01, 0x00, 0x00, 0x00, 0x01, 0x05, 0x01, 0x60, 0x00, 0x01, 0x7F, 0x03,
    0x02, 0x01, 0x00, 0x07, 0x05, 0x01, 0x01, 0x66, 0x00, 0x00, 0x0A, 0x06, 0x01, 0x04, 0x00, 0x06,
    0x07, 0x0B,
];

// A without the instruction that pushes 7.
const NOTHING_GIVEN: [u8; 32] = [
    0x00, 0x61, 0x73, 0x6D, 0x01, 0x00, 0x00, 0x00, 0x01, 0x05, 0x01, 0x60, 0x00, 0x01, 0x7F, 0x03,
    0x02, 0x01, 0x00, 0x07, 0x05, 0x01, 0x01, 0x66, 0x00, 0x00, 0x0A, 0x04, 0x01, 0x02, 0x00, 0x0B,
];

// A type section that begins with the count 1,000,001.
const MANY_TYPES: [u8; 13] = [
    0x00, 0x61, 0x73, 0x6D, 0x01, 0x00, 0x00, 0x00, 0x01, 0x03, 0xC1, 0x84, 0x3D,
];

// A type with the parameter count 1,001.
const MANY_PARAMETERS: [u8; 14] = [
    0x00, 0x61, 0x73, 0x6D, 0x01, 0x00, 0x00, 0x00, 0x01, 0x04, 0x01, 0x60, 0xE9, 0x07,
];

const ALL_USAGE: &str = "usage: binkit merge|split|metadce|ctor-eval|sample\n";

// Runs a line over one module without sections.
fn run_over_header(alloc: Global, line: &str) -> Result<Ran, Fail> {
    let files = with_file(MemFiles::new(alloc), "h.wasm", &HEADER)?;
    run_line(alloc, files, line)
}

// Lines over this module, and the file to which each writes it.
const COPIED: [(&str, &str); 7] = [
    ("merge h.wasm m -o o.wasm", "o.wasm"),
    ("merge -o o.wasm h.wasm m", "o.wasm"),
    ("merge h.wasm --output o.wasm m", "o.wasm"),
    ("merge h.wasm m --output=-x", "-x"),
    ("merge --output=a=b h.wasm m", "a=b"),
    ("merge --skip-export-conflicts h.wasm -o o m", "o"),
    ("merge h.wasm m -o o --rename-export-conflicts", "o"),
];

// Expects a line over this module to write it to this file.
fn unlike_copied(alloc: Global, line: &str, output: &str) -> Result<&'static str, Fail> {
    let ran = run_over_header(alloc, line)?;
    ran.unlike_done(alloc, "", output, "")
}

// Names the line.
fn first_unlike_copied(alloc: Global) -> Result<(&'static str, &'static str), Fail> {
    for (line, output) in &COPIED {
        let unlike = unlike_copied(alloc, line, output)?;
        if !unlike.is_empty() {
            return Ok((*line, unlike));
        }
    }
    Ok(("", ""))
}

#[test]
fn options_stand_anywhere_in_a_line(rt: HostRuntime) -> Result<(), Fail> {
    assert_eq!(rt; first_unlike_copied(rt.alloc())?, ("", ""));
    Ok(())
}

// Lines that are no merge.
const NO_MERGE: [&str; 29] = [
    "merge",
    "merge a.wasm -o o",
    "merge a.wasm a",
    "merge -o o",
    "merge -h.wasm m -o o",
    "merge h.wasm - -o o",
    "merge h.wasm '' -o o",
    "merge h.wasm m -o -o",
    "merge h.wasm m -o ''",
    "merge h.wasm m -o",
    "merge h.wasm m --output",
    "merge h.wasm m --output=",
    "merge h.wasm m --output -x",
    "merge h.wasm m -p o",
    "merge h.wasm m -o=o",
    "merge h.wasm m -oo",
    "merge h.wasm m -o o b",
    "merge h.wasm m -o o -o o",
    "merge h.wasm m -o o --output=o",
    "merge h.wasm m h.wasm m -o o",
    "merge h.wasm m -o o --",
    "merge h.wasm m -o o --help",
    "merge h.wasm m -o o -g",
    "merge h.wasm m -o o --enable-multimemory",
    "merge h.wasm m -o o --skip-export-conflicts=1",
    "merge h.wasm m -o o --skip-export",
    "merge h.wasm m -o o --out=o",
    "merge h.wasm m -o o --skip-export-conflicts --skip-export-conflicts",
    "merge h.wasm m -o o --skip-export-conflicts --rename-export-conflicts",
];

// Lines that are no split.
const NO_SPLIT: [&str; 27] = [
    "split",
    "split s.wasm",
    "split s.wasm --split-funcs=g --primary-output=p",
    "split s.wasm --split-funcs=g --secondary-output=q",
    "split s.wasm --split-funcs=g --primary-output=p --secondary-output=p",
    "split s.wasm --primary-output=p --secondary-output=q",
    "split --split-funcs=g --primary-output=p --secondary-output=q",
    "split s.wasm t.wasm --split-funcs=g --primary-output=p --secondary-output=q",
    "split '' --split-funcs=g --primary-output=p --secondary-output=q",
    "split s.wasm --split-funcs=g --split-funcs=f --primary-output=p --secondary-output=q",
    "split s.wasm --keep-funcs=g --keep-funcs g --primary-output=p --secondary-output=q",
    "split s.wasm --split-funcs=g --primary-output=p --primary-output=r --secondary-output=q",
    "split s.wasm --split-funcs=g --primary-output=p --secondary-output=q --secondary-output=q",
    "split s.wasm --split-funcs=g --primary-output=p --secondary-output=q --import-namespace=i --import-namespace=i",
    "split s.wasm --split-funcs=g --primary-output=p --secondary-output=q --placeholder-namespace=i --placeholder-namespace=j",
    "split s.wasm --split-funcs=g --primary-output=p --secondary-output=q --export-prefix=i --export-prefix=j",
    "split s.wasm --split-funcs= --primary-output=p --secondary-output=q",
    "split s.wasm --keep-funcs '' --primary-output=p --secondary-output=q",
    "split s.wasm --split-funcs=g --primary-output=p --secondary-output=q --export-prefix=",
    "split s.wasm --primary-output=p --secondary-output=q --split-funcs",
    "split s.wasm --split-funcs -g --primary-output=p --secondary-output=q",
    "split s.wasm --split-funcs=g --primary-output=p --secondary-output=q -o o.wasm",
    "split s.wasm --split-funcs=g --primary-output=p --secondary-output=q --output=o.wasm",
    "split s.wasm --split-funcs=g --primary-output=p --secondary-output=q -g",
    "split s.wasm --split=g --primary-output=p --secondary-output=q",
    "split s.wasm --groups=m.json --primary-output=p",
    "split s.wasm --split-funcs=g --primary-output=p --secondary-output=q --",
];

// Lines that are no metadce.
const NO_SWEEP: [&str; 15] = [
    "metadce",
    "metadce m.wasm -o o.wasm",
    "metadce m.wasm --graph-file g.json",
    "metadce --graph-file g.json -o o.wasm",
    "metadce m.wasm n.wasm --graph-file g.json -o o.wasm",
    "metadce m.wasm --graph-file g.json -o o.wasm --output=p.wasm",
    "metadce m.wasm --graph-file g.json --graph-file g.json -o o.wasm",
    "metadce m.wasm --graph-file= -o o.wasm",
    "metadce m.wasm --graph-file -o o.wasm",
    "metadce m.wasm --graph-file g.json -o",
    "metadce m.wasm --graph g.json -o o.wasm",
    "metadce m.wasm --graph-file g.json -o=o.wasm",
    "metadce m.wasm --graph-file g.json -o o.wasm --skip-export-conflicts",
    "metadce '' --graph-file g.json -o o.wasm",
    "metadce m.wasm --graph-file g.json -o o.wasm --",
];

// Lines of no command.
const NO_COMMAND: [&str; 3] = ["", "--help", "merges h.wasm m -o o.wasm"];

// Expects a line to print this usage line alone.
fn unlike_usage(alloc: Global, line: &str, usage: &str) -> Result<&'static str, Fail> {
    let ran = run_over_header(alloc, line)?;
    Ok(ran.unlike(Status::Usage, "", usage))
}

// Names the line.
fn first_unlike_usage(
    alloc: Global,
    lines: &[&'static str],
    usage: &str,
) -> Result<(&'static str, &'static str), Fail> {
    for line in lines {
        let unlike = unlike_usage(alloc, line, usage)?;
        if !unlike.is_empty() {
            return Ok((*line, unlike));
        }
    }
    Ok(("", ""))
}

#[test]
fn words_that_ask_for_nothing_are_told_what_there_is(rt: HostRuntime) -> Result<(), Fail> {
    let alloc = rt.alloc();
    let merge = first_unlike_usage(alloc, &NO_MERGE, "usage: binkit merge\n")?;
    assert_eq!(rt; merge, ("", ""));
    let split = first_unlike_usage(alloc, &NO_SPLIT, "usage: binkit split\n")?;
    assert_eq!(rt; split, ("", ""));
    let sweep = first_unlike_usage(alloc, &NO_SWEEP, "usage: binkit metadce\n")?;
    assert_eq!(rt; sweep, ("", ""));
    assert_eq!(rt;
        first_unlike_usage(alloc, &NO_COMMAND, ALL_USAGE)?,
        ("", "")
    );
    Ok(())
}

// Adds a part of this number to the arguments.
fn add_part(alloc: Global, words: &mut Vec<String>, part: usize) -> Result<(), Fail> {
    words.push(String::from_str(alloc, "h.wasm")?)?;
    words.push(format!(in alloc; "{part}")?)?;
    Ok(())
}

fn add_parts(alloc: Global, words: &mut Vec<String>, count: usize) -> Result<(), Fail> {
    for part in 0..count {
        add_part(alloc, words, part)?;
    }
    Ok(())
}

// Merges `count` parts, over no file.
fn merge_parts(alloc: Global, count: usize) -> Result<Ran, Fail> {
    let mut words = words_of(alloc, "merge -o o")?;
    add_parts(alloc, &mut words, count)?;
    Ok(run_words(alloc, words.as_slice(), MemFiles::new(alloc)))
}

fn unlike_parts(alloc: Global) -> Result<&'static str, Fail> {
    let ran = merge_parts(alloc, 1001)?;
    Ok(ran.unlike(Status::Refused, "", "binkit: limit on parts\n"))
}

#[test]
fn a_thousand_and_one_parts_are_refused_before_a_file_is_read(rt: HostRuntime) -> Result<(), Fail> {
    assert_eq!(rt; unlike_parts(rt.alloc())?, "");
    Ok(())
}

// Modules, and what the merge of each alone writes or, if there is a text, the text with which it
// is refused.
const WRITTEN: [(&[u8], &[u8], &str); 9] = [
    (&A_WITH_NAMES, &A, ""),
    (&A_PADDED, &A, ""),
    (&A_OVERLONG, &[], "binkit: a.wasm: malformed section 3\n"),
    (
        &FLOAT_BODY,
        &[],
        "binkit: a.wasm: unsupported in function 0\n",
    ),
    (
        &FLOAT_PARAMETER,
        &[],
        "binkit: a.wasm: unsupported in section 0\n",
    ),
    (
        &UNKNOWN_OPCODE,
        &[],
        "binkit: a.wasm: malformed function 0\n",
    ),
    (&MANY_TYPES, &[], "binkit: a.wasm: limit on types\n"),
    (
        &MANY_PARAMETERS,
        &[],
        "binkit: a.wasm: limit on parameters\n",
    ),
    (&NOTHING_GIVEN, &[], "binkit: a.wasm: invalid body 0\n"),
];

// Expects the merge of these bytes to write those, or, if there is a text, the refusal with it and
// no output.
fn unlike_written(
    alloc: Global,
    bytes: &[u8],
    written: &[u8],
    text: &str,
) -> Result<&'static str, Fail> {
    let ran = merge_one(alloc, bytes)?;
    Ok(ran.unlike_written("o.wasm", written, text))
}

// Returns the place of the row instead of its text.
fn first_unlike_written(alloc: Global) -> Result<Option<(usize, &'static str)>, Fail> {
    for (place, (bytes, written, text)) in WRITTEN.iter().enumerate() {
        let unlike = unlike_written(alloc, bytes, written, text)?;
        if !unlike.is_empty() {
            return Ok(Some((place, unlike)));
        }
    }
    Ok(None)
}

#[test]
fn each_module_is_written_or_refused_with_its_text(rt: HostRuntime) -> Result<(), Fail> {
    assert_eq!(rt; first_unlike_written(rt.alloc())?, None);
    Ok(())
}

// The type [] to [] and the function a.f of it. The other part has a.f of another type.
const ASKS_FOR_ANOTHER_TYPE: [u8; 23] = [
    0x00, 0x61, 0x73, 0x6D, 0x01, 0x00, 0x00, 0x00, 0x01, 0x04, 0x01, 0x60, 0x00, 0x00, 0x02, 0x07,
    0x01, 0x01, 0x61, 0x01, 0x66, 0x00, 0x00,
];

// Two modules, and the text with which a merge that begins with them is refused.
const ONE_BY_ONE: [(&[u8], &[u8], &str); 4] = [
    (&NOTHING_GIVEN, &CUT, "binkit: a.wasm: invalid body 0\n"),
    (
        &CUT,
        &NOTHING_GIVEN,
        "binkit: a.wasm: malformed section 3\n",
    ),
    (&A, &NOTHING_GIVEN, "binkit: b.wasm: invalid body 0\n"),
    (
        &A,
        &ASKS_FOR_ANOTHER_TYPE,
        "binkit: b.wasm: import 0 does not match\n",
    ),
];

// Runs a line over these two modules and a third.
fn run_over_three(alloc: Global, line: &str, a: &[u8], b: &[u8]) -> Result<Ran, Fail> {
    let files = two_files(alloc, a, b)?;
    let files = with_file(files, "c.wasm", &ASKS_FOR_ANOTHER_TYPE)?;
    run_line(alloc, files, line)
}

// Expects the refusal of a merge of these two modules and a third with this text.
fn unlike_refused(
    alloc: Global,
    line: &str,
    a: &[u8],
    b: &[u8],
    text: &str,
) -> Result<&'static str, Fail> {
    let ran = run_over_three(alloc, line, a, b)?;
    Ok(ran.unlike_refused(text, "o.wasm"))
}

// Names the text of the refusal.
fn first_unlike_refused(alloc: Global, line: &str) -> Result<(&'static str, &'static str), Fail> {
    for (a, b, text) in &ONE_BY_ONE {
        let unlike = unlike_refused(alloc, line, a, b, text)?;
        if !unlike.is_empty() {
            return Ok((*text, unlike));
        }
    }
    Ok(("", ""))
}

#[test]
fn modules_are_read_and_validated_one_by_one_before_they_are_linked(
    rt: HostRuntime,
) -> Result<(), Fail> {
    let alloc = rt.alloc();
    let two = first_unlike_refused(alloc, "merge a.wasm a b.wasm b -o o.wasm")?;
    assert_eq!(rt; two, ("", ""));
    let three = first_unlike_refused(alloc, "merge a.wasm a b.wasm b c.wasm c -o o.wasm")?;
    assert_eq!(rt; three, ("", ""));
    Ok(())
}
