use crate::given::{Ran, run_line};
use std::alloc::Global;
use std::test::Fail;
use tool_io::MemFiles;
use tools_cli::Status;

// What a sample of seed 1 with one function in each module prints.
const LINES: &str = "sample seed 1 count 1\nparts 2\nfunctions 2\nexports 2\nbytes 56\n";

// The merged module of this sample.
const MERGED: &str =
    "01 06 01 60 01 7F 01 7F 03 03 02 00 00 07 0B 02 02 66 30 00 00 02 67 30 00 01 0A 14 02 0B 00 20 00 41 A6 FD 99 8E 04 6A 0B 06 00 20 00 10 00 0B";

// The merged module for seed 7 and two functions each.
const MERGED_OF_TWO: &str = "\
    01 06 01 60 01 7F 01 7F \
    03 05 04 00 00 00 00 \
    07 15 04 02 66 30 00 00 02 66 31 00 01 02 67 30 00 02 02 67 31 00 03 \
    0A 27 04 0B 00 20 00 41 B4 AA B1 E3 04 6A 0B 0B 00 20 00 41 D2 A1 D1 D3 02 6A 0B 06 00 20 00 \
    10 00 0B 06 00 20 00 10 01 0B";

// Runs a line over no file.
fn run_alone(alloc: Global, line: &str) -> Result<Ran, Fail> {
    run_line(alloc, MemFiles::new(alloc), line)
}

// Expects a line to print these lines alone, and to write nothing.
fn unlike_printed(alloc: Global, line: &str, lines: &str) -> Result<&'static str, Fail> {
    let ran = run_alone(alloc, line)?;
    if ran.files.contents("o.wasm").is_some() {
        return Ok("the output");
    }
    Ok(ran.unlike(Status::Done, lines, ""))
}

// Lines, and what each prints.
const PRINTED: [(&str, &str); 5] = [
    ("sample --seed 1 --count 1", LINES),
    ("sample --count=1 --seed=1", LINES),
    // leading zeros
    ("sample --seed 0000000001 --count=0000000001", LINES),
    (
        "sample --seed 2147483647 --count 1",
        "sample seed 2147483647 count 1\nparts 2\nfunctions 2\nexports 2\nbytes 56\n",
    ),
    (
        "sample --seed 0 --count 3",
        "sample seed 0 count 3\nparts 2\nfunctions 6\nexports 6\nbytes 116\n",
    ),
];

// Names the line.
fn first_unlike_printed(alloc: Global) -> Result<(&'static str, &'static str), Fail> {
    for (line, lines) in &PRINTED {
        let unlike = unlike_printed(alloc, line, lines)?;
        if !unlike.is_empty() {
            return Ok((*line, unlike));
        }
    }
    Ok(("", ""))
}

#[test]
fn a_sample_without_an_output_prints_its_lines(rt: HostRuntime) -> Result<(), Fail> {
    assert_eq!(rt; first_unlike_printed(rt.alloc())?, ("", ""));
    Ok(())
}

// Expects a line to print these lines and to write this module.
fn unlike_written(
    alloc: Global,
    line: &str,
    lines: &str,
    merged: &str,
) -> Result<&'static str, Fail> {
    let ran = run_alone(alloc, line)?;
    ran.unlike_done(alloc, lines, "o.wasm", merged)
}

// Lines, and what each prints and writes.
const WRITTEN: [(&str, &str, &str); 3] = [
    ("sample --seed 1 --count 1 -o o.wasm", LINES, MERGED),
    ("sample --output=o.wasm --seed 1 --count 1", LINES, MERGED),
    (
        "sample --seed 7 -o o.wasm --count 2",
        "sample seed 7 count 2\nparts 2\nfunctions 4\nexports 4\nbytes 87\n",
        MERGED_OF_TWO,
    ),
];

// Names the line.
fn first_unlike_written(alloc: Global) -> Result<(&'static str, &'static str), Fail> {
    for (line, lines, merged) in &WRITTEN {
        let unlike = unlike_written(alloc, line, lines, merged)?;
        if !unlike.is_empty() {
            return Ok((*line, unlike));
        }
    }
    Ok(("", ""))
}

#[test]
fn a_sample_writes_what_its_modules_are_merged_into(rt: HostRuntime) -> Result<(), Fail> {
    assert_eq!(rt; first_unlike_written(rt.alloc())?, ("", ""));
    Ok(())
}

// Expects a line to print this alone.
fn unlike_answered(
    alloc: Global,
    line: &str,
    ended: Status,
    out: &str,
    err: &str,
) -> Result<&'static str, Fail> {
    let ran = run_alone(alloc, line)?;
    Ok(ran.unlike(ended, out, err))
}

// What each run of a large sample prints.
const LARGE: &str =
    "sample seed 1 count 2000\nparts 2\nfunctions 4000\nexports 4000\nbytes 77444\n";

#[test]
fn a_large_sample_prints_the_same_lines_at_each_run(rt: HostRuntime) -> Result<(), Fail> {
    let alloc = rt.alloc();
    let line = "sample --seed 1 --count 2000";
    assert_eq!(rt; unlike_answered(alloc, line, Status::Done, LARGE, "")?, "");
    let line = "sample --seed 1 --count 2000 -o o.wasm";
    assert_eq!(rt; unlike_answered(alloc, line, Status::Done, LARGE, "")?, "");
    Ok(())
}

// Lines that are no sample.
const NO_SAMPLE: [&str; 27] = [
    "sample",
    "sample --seed 1",
    "sample --count 1",
    "sample --seed 2147483648 --count 1",
    "sample --seed 4294967297 --count 1",
    "sample --seed 9999999999 --count 1",
    "sample --seed 1 --count 0",
    "sample --seed 1 --count 100001",
    "sample --seed=+1 --count 1",
    "sample --seed 1 --count=+1",
    "sample --seed=-1 --count 1",
    "sample --seed -1 --count 1",
    "sample --seed 00000000001 --count 1",
    "sample --seed 1 --count 00000000001",
    "sample --seed 1x --count 1",
    "sample --seed 0x1 --count 1",
    "sample --seed= --count 1",
    "sample --seed 1 --count",
    "sample --seed 1 --seed 1 --count 1",
    "sample --seed 1 --count 1 --count=2",
    "sample --seed 1 --count 1 m.wasm",
    "sample --seed 1 --count 1 -o o.wasm --output=p.wasm",
    "sample --seed 1 --count 1 -o",
    "sample --seed 1 --count 1 -o=o.wasm",
    "sample --seed 1 --count 1 -g",
    "sample --seed 1 --count 1 --",
    "sample --help",
];

// Names the line.
fn first_unlike_usage(alloc: Global) -> Result<(&'static str, &'static str), Fail> {
    let usage = "usage: binkit sample\n";
    for line in &NO_SAMPLE {
        let unlike = unlike_answered(alloc, line, Status::Usage, "", usage)?;
        if !unlike.is_empty() {
            return Ok((*line, unlike));
        }
    }
    Ok(("", ""))
}

#[test]
fn other_words_are_answered_with_the_usage_line(rt: HostRuntime) -> Result<(), Fail> {
    assert_eq!(rt; first_unlike_usage(rt.alloc())?, ("", ""));
    Ok(())
}
