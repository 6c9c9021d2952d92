// Single calls of files and streams that fail, and files that are too large.
use crate::given::{
    ADDS, ADDS_PRIMARY, ADDS_SECONDARY, CALLS_BACK, COPIES, COPIES_PRIMARY, COPIES_SECONDARY,
    GIVES, HOST, LEFT, Ran, failing_files, module_of, run_line, run_line_failing, two_files,
    with_file, with_module, zeros,
};
use crate::merges::{BOTH, CALLS};
use std::alloc::Global;
use std::test::Fail;
use tool_io::MemFiles;

// A function that returns 7, without its last byte.
const GIVES_CUT: &str =
    "01 05 01 60 00 01 7F 03 02 01 00 07 05 01 01 66 00 00 0A 06 01 04 00 41 07";

// The input modules.
const MODULES: [(&str, &str); 7] = [
    ("a.wasm", GIVES),
    ("b.wasm", CALLS),
    ("c.wasm", GIVES_CUT),
    ("h.wasm", ""),
    ("s.wasm", ADDS),
    ("i.wasm", COPIES),
    ("m.wasm", CALLS_BACK),
];

fn all_files(alloc: Global) -> Result<MemFiles, Fail> {
    let mut files = MemFiles::new(alloc);
    for (name, sections) in &MODULES {
        files = with_module(alloc, files, name, sections)?;
    }
    with_file(files, "g.json", HOST.as_bytes())
}

// Whether a file is missing, if it should be, or else holds exactly these bytes.
fn has_or_misses(files: &MemFiles, name: &str, bytes: &[u8], is_missing: bool) -> bool {
    match files.contents(name) {
        Some(held) => !is_missing && held == bytes,
        None => is_missing,
    }
}

// Whether a file holds the first `count` bytes of a module; if `count` is 0, whether it is missing.
fn holds(
    alloc: Global,
    files: &MemFiles,
    name: &str,
    sections: &str,
    count: usize,
) -> Result<bool, Fail> {
    let mut bytes = module_of(alloc, sections)?;
    bytes.truncate(count);
    Ok(has_or_misses(files, name, bytes.as_slice(), count == 0))
}

// Whether the input files are unchanged.
fn inputs_stay(alloc: Global, ran: &Ran) -> Result<bool, Fail> {
    for (name, sections) in &MODULES {
        if !ran.has_module(alloc, name, sections)? {
            return Ok(false);
        }
    }
    Ok(ran.has("g.json", HOST.as_bytes()))
}

const MERGE: &str = "merge a.wasm a b.wasm b -o o.wasm";

const MERGE_H: &str = "merge h.wasm m -o o.wasm";

const MERGE_N: &str = "merge n.wasm n h.wasm h -o o.wasm";

const MERGE_C: &str = "merge c.wasm m -o o.wasm";

const SPLIT: &str = "split s.wasm --split-funcs=add --primary-output=p --secondary-output=q";

const SPLIT_I: &str = "split i.wasm --split-funcs=i --primary-output=p --secondary-output=q";

const SPLIT_N: &str = "split n.wasm --split-funcs=add --primary-output=p --secondary-output=q";

const SWEEP: &str = "metadce m.wasm --graph-file=g.json -o o.wasm";

const SWEEP_N: &str = "metadce m.wasm --graph-file n.json -o o.wasm";

const NO_OUTPUT: &str = "binkit: cannot write standard output\n";

// A line; the number of the call of its files that fails, of the `put` on standard output and of
// that on standard error, or 0 if none fails; the text on standard error; and for the first output,
// o.wasm or q, and for the second one, p: the module of which it holds the first bytes, and how
// many.
type Row = (
    &'static str,
    u64,
    u64,
    u64,
    &'static str,
    &'static str,
    usize,
    &'static str,
    usize,
);

const FAILING: [Row; 24] = [
    (MERGE, 1, 0, 0, "binkit: cannot read a.wasm\n", "", 0, "", 0),
    (MERGE, 2, 0, 0, "binkit: cannot read b.wasm\n", "", 0, "", 0),
    (
        MERGE,
        3,
        0,
        0,
        "binkit: cannot write o.wasm\n",
        BOTH,
        22,
        "",
        0,
    ),
    (
        MERGE_H,
        1,
        0,
        0,
        "binkit: cannot read h.wasm\n",
        "",
        0,
        "",
        0,
    ),
    (
        MERGE_H,
        2,
        0,
        0,
        "binkit: cannot write o.wasm\n",
        "",
        4,
        "",
        0,
    ),
    // a missing file, before another call that fails
    (
        MERGE_N,
        0,
        0,
        0,
        "binkit: cannot read n.wasm\n",
        "",
        0,
        "",
        0,
    ),
    (
        MERGE_N,
        2,
        0,
        0,
        "binkit: cannot read n.wasm\n",
        "",
        0,
        "",
        0,
    ),
    (
        "merge a.wasm a n.wasm n -o o.wasm",
        0,
        0,
        0,
        "binkit: cannot read n.wasm\n",
        "",
        0,
        "",
        0,
    ),
    // all files are read before the first is decoded
    (
        "merge c.wasm c n.wasm n -o o.wasm",
        0,
        0,
        0,
        "binkit: cannot read n.wasm\n",
        "",
        0,
        "",
        0,
    ),
    (MERGE_H, 1, 0, 1, "bink", "", 0, "", 0),
    (MERGE_H, 1, 0, 2, "binkit: cannot", "", 0, "", 0),
    (MERGE_C, 0, 0, 1, "bink", "", 0, "", 0),
    (MERGE_C, 0, 0, 2, "binkit: c.w", "", 0, "", 0),
    (
        "merge a.wasm a a.wasm b -o o.wasm",
        0,
        0,
        1,
        "bink",
        "",
        0,
        "",
        0,
    ),
    (SPLIT, 1, 0, 0, "binkit: cannot read s.wasm\n", "", 0, "", 0),
    (
        SPLIT_N,
        0,
        0,
        0,
        "binkit: cannot read n.wasm\n",
        "",
        0,
        "",
        0,
    ),
    // the secondary module is written first
    (
        SPLIT,
        2,
        0,
        0,
        "binkit: cannot write q\n",
        ADDS_SECONDARY,
        32,
        "",
        0,
    ),
    (
        SPLIT,
        3,
        0,
        0,
        "binkit: cannot write p\n",
        ADDS_SECONDARY,
        64,
        ADDS_PRIMARY,
        44,
    ),
    (
        SPLIT_I,
        0,
        1,
        0,
        NO_OUTPUT,
        COPIES_SECONDARY,
        45,
        COPIES_PRIMARY,
        79,
    ),
    (SWEEP, 1, 0, 0, "binkit: cannot read m.wasm\n", "", 0, "", 0),
    (SWEEP, 2, 0, 0, "binkit: cannot read g.json\n", "", 0, "", 0),
    (
        SWEEP,
        3,
        0,
        0,
        "binkit: cannot write o.wasm\n",
        LEFT,
        33,
        "",
        0,
    ),
    (
        SWEEP_N,
        0,
        0,
        0,
        "binkit: cannot read n.json\n",
        "",
        0,
        "",
        0,
    ),
    (SWEEP, 0, 1, 0, NO_OUTPUT, LEFT, 67, "", 0),
];

// The name of the first output of a line.
fn first_output(line: &str) -> &str {
    if line.starts_with("split") {
        "q"
    } else {
        "o.wasm"
    }
}

// Runs the line of a row over all files, with the calls failing that the row says.
fn run_failing(alloc: Global, row: &Row) -> Result<Ran, Fail> {
    let files = failing_files(all_files(alloc)?, row.1)?;
    run_line_failing(alloc, files, row.0, (row.2, row.3))
}

// Whether a run reports what a row says, with nothing on standard output unless that fails.
fn is_told(ran: &Ran, row: &Row) -> bool {
    let is_silent = row.2 > 0 || ran.out.text().is_empty();
    is_silent && ran.ended.code() == 3 && ran.err.text() == row.4.as_bytes()
}

// Expects what a row says, and the input files to be unchanged.
fn unlike_ran(alloc: Global, ran: &Ran, row: &Row) -> Result<&'static str, Fail> {
    if !is_told(ran, row) {
        return Ok("what is told");
    }
    if !holds(alloc, &ran.files, first_output(row.0), row.5, row.6)? {
        return Ok("the first output");
    }
    if !holds(alloc, &ran.files, "p", row.7, row.8)? {
        return Ok("the second output");
    }
    if !inputs_stay(alloc, ran)? {
        return Ok("the inputs");
    }
    Ok("")
}

fn unlike_row(alloc: Global, row: &Row) -> Result<&'static str, Fail> {
    let ran = run_failing(alloc, row)?;
    unlike_ran(alloc, &ran, row)
}

// Names the line and the text on standard error.
fn first_unlike_row(alloc: Global) -> Result<(&'static str, &'static str, &'static str), Fail> {
    for row in &FAILING {
        let unlike = unlike_row(alloc, row)?;
        if !unlike.is_empty() {
            return Ok((row.0, row.4, unlike));
        }
    }
    Ok(("", "", ""))
}

#[test]
fn one_call_that_fails_is_told_and_the_files_are_a_first_part(rt: HostRuntime) -> Result<(), Fail> {
    assert_eq!(rt; first_unlike_row(rt.alloc())?, ("", "", ""));
    Ok(())
}

// Merges two files.
fn merge_files(alloc: Global, first: &[u8], second: &[u8]) -> Result<Ran, Fail> {
    let files = two_files(alloc, first, second)?;
    run_line(alloc, files, "merge a.wasm a b.wasm b -o o.wasm")
}

// Expects the refusal of the merge of two files with this text.
fn unlike_refused(
    alloc: Global,
    first: &[u8],
    second: &[u8],
    text: &str,
) -> Result<&'static str, Fail> {
    let ran = merge_files(alloc, first, second)?;
    Ok(ran.unlike_refused(text, "o.wasm"))
}

// Expects the refusal of the merge of two files of so many zeros with this text.
fn unlike_zeros(
    alloc: Global,
    first: usize,
    second: usize,
    text: &str,
) -> Result<&'static str, Fail> {
    let first = zeros(alloc, first)?;
    let second = zeros(alloc, second)?;
    unlike_refused(alloc, first.as_slice(), second.as_slice(), text)
}

#[test]
fn input_files_have_16_mib_at_most_together(rt: HostRuntime) -> Result<(), Fail> {
    let alloc = rt.alloc();
    let text = "binkit: a.wasm: not a WebAssembly module\n";
    assert_eq!(rt; unlike_zeros(alloc, 8_388_608, 8_388_608, text)?, "");
    let text = "binkit: b.wasm: limit on input bytes\n";
    assert_eq!(rt; unlike_zeros(alloc, 8_388_608, 8_388_609, text)?, "");
    Ok(())
}
