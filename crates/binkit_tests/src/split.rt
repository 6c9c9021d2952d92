use std::alloc::Global;
use std::test::Fail;
use tool_io::MemFiles;
use tools_cli::Status;
use tools_cli_tests::given::{
    ADDS, ADDS_PRIMARY, ADDS_SECONDARY, COPIES, COPIES_PRIMARY, COPIES_SECONDARY, CUT, HEADER,
    LINKED, NOTHING_GIVEN, Ran, module_of, module_of_tables, run_line, with_file,
};

// The module s.wasm, and an older file p.
fn files_of(alloc: Global, module: &[u8]) -> Result<MemFiles, Fail> {
    let files = with_file(MemFiles::new(alloc), "s.wasm", module)?;
    with_file(files, "p", &HEADER)
}

// Splits a module into p and q with these arguments.
fn split_by(alloc: Global, module: &[u8], words: &str) -> Result<Ran, Fail> {
    let line = format!(in alloc; "split s.wasm {words} --primary-output=p --secondary-output=q")?;
    run_line(alloc, files_of(alloc, module)?, line.as_str())
}

// The same of a module of these sections.
fn split_sections(alloc: Global, sections: &str, words: &str) -> Result<Ran, Fail> {
    let module = module_of(alloc, sections)?;
    split_by(alloc, module.as_slice(), words)
}

// Expects these lines, and two files that hold these modules.
fn unlike_two(
    alloc: Global,
    ran: &Ran,
    lines: &str,
    first: (&str, &str),
    second: (&str, &str),
) -> Result<&'static str, Fail> {
    if !ran.has_module(alloc, first.0, first.1)? {
        return Ok("the first file");
    }
    ran.unlike_done(alloc, lines, second.0, second.1)
}

// Expects the split of a module with these arguments to print these lines and to write these
// modules.
fn unlike_split(
    alloc: Global,
    module: &str,
    words: &str,
    lines: &str,
    (primary, secondary): (&str, &str),
) -> Result<&'static str, Fail> {
    let ran = split_sections(alloc, module, words)?;
    unlike_two(alloc, &ran, lines, ("p", primary), ("q", secondary))
}

const LINKED_PRIMARY: &str = "\
    01 0D 03 60 00 00 60 01 7F 01 7F 60 01 7F 00 \
    02 1B 02 03 65 6E 76 03 6C 6F 67 00 02 0B 70 6C 61 63 65 68 6F 6C 64 65 72 01 30 00 01 \
    03 05 04 00 00 01 01 04 09 02 70 01 05 05 70 01 01 01 \
    05 03 01 00 02 06 08 01 7F 01 41 90 88 04 0B \
    07 2D 04 06 6D 65 6D 6F 72 79 02 00 11 5F 5F 77 61 73 6D 5F 63 61 6C 6C 5F 63 74 6F 72 73 00 \
    02 03 72 75 6E 00 05 06 25 73 6C 6F 74 73 01 01 \
    09 0F 02 00 41 01 0B 01 04 02 01 41 00 0B 00 01 01 \
    0A 29 04 04 00 10 03 0B 0A 00 41 00 41 2A 36 02 84 08 0B 09 00 20 00 41 00 11 01 01 0B 0D 00 \
    20 00 10 00 20 00 41 01 11 01 00 0B 0B 09 01 00 41 80 08 0B 02 68 69";

const LINKED_SECONDARY: &str =
    "01 0D 03 60 00 00 60 01 7F 01 7F 60 01 7F 00 02 15 01 07 70 72 69 6D 61 72 79 06 25 73 6C 6F 74 73 01 70 01 01 01 03 02 01 01 09 07 01 00 41 00 0B 01 00 0A 09 01 07 00 20 00 41 01 74 0B";

// Function 1, exported as r, calls the import e.f and names a table, a memory and a global.
const NAMES_ALL: &str =
    "01 04 01 60 00 00 02 07 01 01 65 01 66 00 00 03 02 01 00 04 04 01 70 00 01 05 03 01 00 01 06 06 01 7F 01 41 00 0B 07 05 01 01 72 00 01 0A 11 01 0F 00 10 00 41 00 25 00 1A 3F 00 1A 23 00 1A 0B";

const NAMES_ALL_PRIMARY: &str = "\
    01 04 01 60 00 00 02 17 02 01 65 01 66 00 00 0B 70 6C 61 63 65 68 6F 6C 64 65 72 01 30 00 00 \
    03 02 01 00 04 08 02 70 00 01 70 01 01 01 \
    05 03 01 00 01 06 06 01 7F 01 41 00 0B \
    07 26 06 01 72 00 02 03 25 66 30 00 00 03 25 74 30 01 00 03 25 6D 30 02 00 03 25 67 30 03 00 \
    06 25 73 6C 6F 74 73 01 01 09 09 01 02 01 41 00 0B 00 01 01 \
    0A 09 01 07 00 41 00 11 00 01 0B";

const NAMES_ALL_SECONDARY: &str = "\
    01 04 01 60 00 00 \
    02 51 05 07 70 72 69 6D 61 72 79 03 25 66 30 00 00 07 70 72 69 6D 61 72 79 03 25 74 30 01 70 \
    00 01 07 70 72 69 6D 61 72 79 06 25 73 6C 6F 74 73 01 70 01 01 01 07 70 72 69 6D 61 72 79 03 \
    25 6D 30 02 00 01 07 70 72 69 6D 61 72 79 03 25 67 30 03 7F 01 03 02 01 00 \
    09 09 01 02 01 41 00 0B 00 01 01 \
    0A 11 01 0F 00 10 00 41 00 25 00 1A 3F 00 1A 23 00 1A 0B";

// Modules, arguments, the lines, and the primary and the secondary module.
const MOVED: [(&str, &str, &str, &str, &str); 4] = [
    (ADDS, "--split-funcs=add", "", ADDS_PRIMARY, ADDS_SECONDARY),
    (
        COPIES,
        "--split-funcs=i",
        "kept i: uses a segment\n",
        COPIES_PRIMARY,
        COPIES_SECONDARY,
    ),
    (
        LINKED,
        "--split-funcs twice",
        "",
        LINKED_PRIMARY,
        LINKED_SECONDARY,
    ),
    (
        NAMES_ALL,
        "--split-funcs=r",
        "",
        NAMES_ALL_PRIMARY,
        NAMES_ALL_SECONDARY,
    ),
];

// Names the arguments.
fn first_unlike_moved(alloc: Global) -> Result<(&'static str, &'static str), Fail> {
    for (module, words, lines, primary, secondary) in &MOVED {
        let unlike = unlike_split(alloc, module, words, lines, (*primary, *secondary))?;
        if !unlike.is_empty() {
            return Ok((*words, unlike));
        }
    }
    Ok(("", ""))
}

#[test]
fn functions_move_to_the_secondary_module(rt: HostRuntime) -> Result<(), Fail> {
    assert_eq!(rt; first_unlike_moved(rt.alloc())?, ("", ""));
    Ok(())
}

// Function 0, exported as f, calls function 1, which is named g and returns 7.
const CALLS: &str =
    "01 05 01 60 00 01 7F 03 03 02 00 00 07 05 01 01 66 00 00 0A 0B 02 04 00 10 01 0B 04 00 41 07 0B 00 0B 04 6E 61 6D 65 01 04 01 01 01 67";

const CALLS_PRIMARY: &str = "\
    01 05 01 60 00 01 7F \
    02 11 01 0B 70 6C 61 63 65 68 6F 6C 64 65 72 01 30 00 00 \
    03 02 01 00 \
    04 05 01 70 01 01 01 \
    07 0E 02 01 66 00 01 06 25 73 6C 6F 74 73 01 00 \
    09 07 01 00 41 00 0B 01 00 \
    0A 09 01 07 00 41 00 11 00 00 0B";

// A function that returns 7, in slot 0.
const GIVES_SECONDARY: &str =
    "01 05 01 60 00 01 7F 02 15 01 07 70 72 69 6D 61 72 79 06 25 73 6C 6F 74 73 01 70 01 01 01 03 02 01 00 09 07 01 00 41 00 0B 01 00 0A 06 01 04 00 41 07 0B";

// CALLS, if nothing moves.
const CALLS_WHOLE: &str =
    "01 05 01 60 00 01 7F 03 03 02 00 00 04 05 01 70 01 00 00 07 0E 02 01 66 00 00 06 25 73 6C 6F 74 73 01 00 09 06 01 00 41 00 0B 00 0A 0B 02 04 00 10 01 0B 04 00 41 07 0B";

const EMPTY_SECONDARY: &str =
    "01 05 01 60 00 01 7F 02 15 01 07 70 72 69 6D 61 72 79 06 25 73 6C 6F 74 73 01 70 01 00 00 09 06 01 00 41 00 0B 00";

// CALLS, split with the import namespace i, the placeholder namespace h and the prefix x.
const CALLS_NAMED: &str =
    "01 05 01 60 00 01 7F 02 07 01 01 68 01 30 00 00 03 02 01 00 04 05 01 70 01 01 01 07 0E 02 01 66 00 01 06 78 73 6C 6F 74 73 01 00 09 07 01 00 41 00 0B 01 00 0A 09 01 07 00 41 00 11 00 00 0B";

const GIVES_NAMED: &str =
    "01 05 01 60 00 01 7F 02 0F 01 01 69 06 78 73 6C 6F 74 73 01 70 01 01 01 03 02 01 00 09 07 01 00 41 00 0B 01 00 0A 06 01 04 00 41 07 0B";

// Arguments, and the primary and the secondary module of CALLS.
const THROUGH_SLOT: [(&str, &str, &str); 8] = [
    ("--split-funcs=g", CALLS_PRIMARY, GIVES_SECONDARY),
    ("--split-funcs=g,g", CALLS_PRIMARY, GIVES_SECONDARY),
    ("--keep-funcs=f", CALLS_PRIMARY, GIVES_SECONDARY),
    ("--keep-funcs f,f", CALLS_PRIMARY, GIVES_SECONDARY),
    (
        "--split-funcs=g --keep-funcs=f",
        CALLS_PRIMARY,
        GIVES_SECONDARY,
    ),
    (
        "--split-funcs=g --import-namespace=primary --placeholder-namespace=placeholder --export-prefix=%",
        CALLS_PRIMARY,
        GIVES_SECONDARY,
    ),
    ("--keep-funcs=f,g", CALLS_WHOLE, EMPTY_SECONDARY),
    (
        "--export-prefix x --placeholder-namespace=h --split-funcs=g --import-namespace i",
        CALLS_NAMED,
        GIVES_NAMED,
    ),
];

// Names the arguments.
fn first_unlike_call(alloc: Global) -> Result<(&'static str, &'static str), Fail> {
    for (words, primary, secondary) in &THROUGH_SLOT {
        let unlike = unlike_split(alloc, CALLS, words, "", (*primary, *secondary))?;
        if !unlike.is_empty() {
            return Ok((*words, unlike));
        }
    }
    Ok(("", ""))
}

#[test]
fn a_call_goes_through_the_slot_under_default_and_given_names(rt: HostRuntime) -> Result<(), Fail> {
    assert_eq!(rt; first_unlike_call(rt.alloc())?, ("", ""));
    Ok(())
}

// Function 0 is the import e.g, which is exported as g. Function 1, exported as f, calls function
// 2, which returns 7.
const CALLS_BESIDE: &str =
    "01 05 01 60 00 01 7F 02 07 01 01 65 01 67 00 00 03 03 02 00 00 07 09 02 01 66 00 01 01 67 00 00 0A 0B 02 04 00 10 02 0B 04 00 41 07 0B";

// CALLS_BESIDE, if function 2 moves.
const BESIDE_PRIMARY: &str = "\
    01 05 01 60 00 01 7F \
    02 17 02 01 65 01 67 00 00 0B 70 6C 61 63 65 68 6F 6C 64 65 72 01 30 00 00 \
    03 02 01 00 \
    04 05 01 70 01 01 01 \
    07 12 03 01 66 00 02 01 67 00 00 06 25 73 6C 6F 74 73 01 00 \
    09 07 01 00 41 00 0B 01 01 \
    0A 09 01 07 00 41 00 11 00 00 0B";

// CALLS_BESIDE, if function 1 moves.
const CALLER_PRIMARY: &str = "\
    01 05 01 60 00 01 7F \
    02 17 02 01 65 01 67 00 00 0B 70 6C 61 63 65 68 6F 6C 64 65 72 01 30 00 00 \
    03 03 02 00 00 \
    04 05 01 70 01 01 01 \
    07 18 04 01 66 00 02 01 67 00 00 03 25 66 32 00 03 06 25 73 6C 6F 74 73 01 00 \
    09 07 01 00 41 00 0B 01 01 \
    0A 0E 02 07 00 41 00 11 00 00 0B 04 00 41 07 0B";

const CALLER_SECONDARY: &str = "\
    01 05 01 60 00 01 7F \
    02 23 02 07 70 72 69 6D 61 72 79 03 25 66 32 00 00 07 70 72 69 6D 61 72 79 06 25 73 6C 6F 74 \
    73 01 70 01 01 01 \
    03 02 01 00 \
    09 07 01 00 41 00 0B 01 01 \
    0A 06 01 04 00 10 00 0B";

// The name section that gives function 2 the name f, and the same with a byte too few.
const F_IS_2: &str = "00 0B 04 6E 61 6D 65 01 04 01 02 01 66";

const F_CUT: &str = "00 0B 04 6E 61 6D 65 01 05 01 02 01 66";

// A name section after CALLS_BESIDE, a name, and the function that has it: 1 or 2.
const NAMED: [(&str, &str, u32); 13] = [
    ("", "f", 1),
    (F_IS_2, "f", 2),
    // a name of an import is passed over, and so is one of no function
    ("00 0B 04 6E 61 6D 65 01 04 01 00 01 66", "f", 1),
    ("00 0B 04 6E 61 6D 65 01 04 01 09 01 66", "f", 1),
    ("00 0E 04 6E 61 6D 65 01 07 02 00 01 67 02 01 67", "g", 2),
    // malformed, so as if absent: cut off, twice, not ascending, a byte too many, not UTF-8
    (F_CUT, "f", 1),
    (
        "00 11 04 6E 61 6D 65 01 04 01 02 01 66 01 04 01 02 01 66",
        "f",
        1,
    ),
    ("00 0E 04 6E 61 6D 65 01 07 02 02 01 66 02 01 66", "f", 1),
    ("00 0C 04 6E 61 6D 65 01 05 01 02 01 66 00", "f", 1),
    ("00 0B 04 6E 61 6D 65 01 04 01 02 01 FF", "f", 1),
    // only the first name section counts
    (
        "00 0B 04 6E 61 6D 65 01 05 01 02 01 66 00 0B 04 6E 61 6D 65 01 04 01 02 01 66",
        "f",
        1,
    ),
    // other subsections, and sections of other names, are not read
    ("00 0E 04 6E 61 6D 65 00 01 FF 01 04 01 02 01 66", "f", 2),
    ("00 0B 04 6E 61 6D 66 01 04 01 02 01 66", "f", 1),
];

// Expects this name to move this function of the module with these names.
fn unlike_named(alloc: Global, names: &str, word: &str, func: u32) -> Result<&'static str, Fail> {
    let module = format!(in alloc; "{CALLS_BESIDE} {names}")?;
    let words = format!(in alloc; "--split-funcs={word}")?;
    let modules = if func == 1 {
        (CALLER_PRIMARY, CALLER_SECONDARY)
    } else {
        (BESIDE_PRIMARY, GIVES_SECONDARY)
    };
    unlike_split(alloc, module.as_str(), words.as_str(), "", modules)
}

// Names the name section.
fn first_unlike_named(alloc: Global) -> Result<(&'static str, &'static str), Fail> {
    for (names, word, func) in &NAMED {
        let unlike = unlike_named(alloc, names, word, *func)?;
        if !unlike.is_empty() {
            return Ok((*names, unlike));
        }
    }
    Ok(("", ""))
}

#[test]
fn words_name_functions_by_the_name_list_and_then_by_exports(rt: HostRuntime) -> Result<(), Fail> {
    assert_eq!(rt; first_unlike_named(rt.alloc())?, ("", ""));
    Ok(())
}

// Functions 1 to 4 use a segment. One is named one and exported as x; the next is exported as b and
// as a. Function 5 is exported as m. The import is named i.
const SEGMENTS: &str = "\
    01 04 01 60 00 00 \
    02 09 01 03 65 6E 76 01 66 00 00 \
    03 07 06 00 00 00 00 00 00 \
    04 04 01 70 00 00 \
    05 03 01 00 00 \
    07 11 04 01 78 00 01 01 62 00 02 01 61 00 02 01 6D 00 05 \
    09 04 01 01 00 00 \
    0C 01 01 \
    0A 30 06 0C 00 41 00 41 00 41 00 FC 08 00 00 0B 08 00 02 40 FC 09 00 0B 0B 0C 00 41 00 41 00 \
    41 00 FC 0C 00 00 0B 05 00 FC 0D 00 0B 02 00 0B 02 00 0B \
    0B 04 01 01 01 78 \
    00 16 04 6E 61 6D 65 01 0F 03 00 01 69 01 03 6F 6E 65 09 04 67 6F 6E 65";

// SEGMENTS, if function 6 moves.
const SEGMENTS_PRIMARY: &str = "\
    01 04 01 60 00 00 \
    02 19 02 03 65 6E 76 01 66 00 00 0B 70 6C 61 63 65 68 6F 6C 64 65 72 01 30 00 00 \
    03 06 05 00 00 00 00 00 \
    04 08 02 70 00 00 70 01 01 01 \
    05 03 01 00 00 \
    07 1A 05 01 78 00 02 01 62 00 03 01 61 00 03 01 6D 00 06 06 25 73 6C 6F 74 73 01 01 \
    09 0C 02 01 00 00 02 01 41 00 0B 00 01 01 \
    0C 01 01 \
    0A 2D 05 0C 00 41 00 41 00 41 00 FC 08 00 00 0B 08 00 02 40 FC 09 00 0B 0B 0C 00 41 00 41 00 \
    41 00 FC 0C 00 00 0B 05 00 FC 0D 00 0B 02 00 0B \
    0B 04 01 01 01 78";

const SEGMENTS_SECONDARY: &str =
    "01 04 01 60 00 00 02 15 01 07 70 72 69 6D 61 72 79 06 25 73 6C 6F 74 73 01 70 01 01 01 03 02 01 00 09 07 01 00 41 00 0B 01 00 0A 04 01 02 00 0B";

const ALL_LINES: &str =
    "kept one: uses a segment\nkept b: uses a segment\nkept 3: uses a segment\nkept 4: uses a segment\n";

// Arguments, and what a split of SEGMENTS prints.
const KEPT: [(&str, &str); 5] = [
    ("--keep-funcs=m", ALL_LINES),
    (
        "--split-funcs=a,m,one,b,one",
        "kept one: uses a segment\nkept b: uses a segment\n",
    ),
    ("--split-funcs=x", "kept one: uses a segment\n"),
    ("--split-funcs=m", ""),
    (
        "--keep-funcs=one,x,b",
        "kept 3: uses a segment\nkept 4: uses a segment\n",
    ),
];

// Expects a split of SEGMENTS to print these lines.
fn unlike_kept(alloc: Global, words: &str, lines: &str) -> Result<&'static str, Fail> {
    let ran = split_sections(alloc, SEGMENTS, words)?;
    Ok(ran.unlike(Status::Done, lines, ""))
}

// Names the arguments.
fn first_unlike_kept(alloc: Global) -> Result<(&'static str, &'static str), Fail> {
    for (words, lines) in &KEPT {
        let unlike = unlike_kept(alloc, words, lines)?;
        if !unlike.is_empty() {
            return Ok((*words, unlike));
        }
    }
    Ok(("", ""))
}

#[test]
fn functions_that_use_a_segment_are_kept_and_told_in_order(rt: HostRuntime) -> Result<(), Fail> {
    let alloc = rt.alloc();
    assert_eq!(rt; first_unlike_kept(alloc)?, ("", ""));
    let modules = (SEGMENTS_PRIMARY, SEGMENTS_SECONDARY);
    let unlike = unlike_split(alloc, SEGMENTS, "--keep-funcs=m", ALL_LINES, modules)?;
    assert_eq!(rt; unlike, "");
    Ok(())
}

// Two functions that are named n, of which the second is exported as m and as k.
const BOTH_N: &str =
    "01 04 01 60 00 00 03 03 02 00 00 07 09 02 01 6D 00 01 01 6B 00 01 0A 07 02 02 00 0B 02 00 0B 00 0E 04 6E 61 6D 65 01 07 02 00 01 6E 01 01 6E";

// The import a.f, which is named h and exported as h, and a function that calls it.
const IMPORTED: &str =
    "01 05 01 60 00 01 7F 02 07 01 01 61 01 66 00 00 03 02 01 00 07 05 01 01 68 00 00 0A 06 01 04 00 10 00 0B 00 0B 04 6E 61 6D 65 01 04 01 00 01 68";

// CALLS, whose name list has a byte too many.
const CALLS_MALFORMED: &str =
    "01 05 01 60 00 01 7F 03 03 02 00 00 07 05 01 01 66 00 00 0A 0B 02 04 00 10 01 0B 04 00 41 07 0B 00 0C 04 6E 61 6D 65 01 05 01 01 01 67 00";

// ADDS, and the immutable global placeholder.g.
const ADDS_BESIDE: &str =
    "01 07 01 60 02 7F 7F 01 7F 02 12 01 0B 70 6C 61 63 65 68 6F 6C 64 65 72 01 67 03 7F 00 03 02 01 00 07 07 01 03 61 64 64 00 00 0A 09 01 07 00 20 00 20 01 6A 0B";

// ADDS, exported as %slots.
const SLOTS: &str =
    "01 07 01 60 02 7F 7F 01 7F 03 02 01 00 07 0A 01 06 25 73 6C 6F 74 73 00 00 0A 09 01 07 00 20 00 20 01 6A 0B";

// ADDS, exported as %slots, and the immutable global placeholder.g.
const SLOTS_BESIDE: &str =
    "01 07 01 60 02 7F 7F 01 7F 02 12 01 0B 70 6C 61 63 65 68 6F 6C 64 65 72 01 67 03 7F 00 03 02 01 00 07 0A 01 06 25 73 6C 6F 74 73 00 00 0A 09 01 07 00 20 00 20 01 6A 0B";

// The imports e.f and h.f, and a function that is exported as f.
const TWO_IMPORTS: &str =
    "01 04 01 60 00 00 02 0D 02 01 65 01 66 00 00 01 68 01 66 00 00 03 02 01 00 07 05 01 01 66 00 02 0A 04 01 02 00 0B";

// Function 0, exported as %slots, and function 1, exported as %f0, which calls it.
const TWO_TAKEN: &str =
    "01 04 01 60 00 00 03 03 02 00 00 07 10 02 06 25 73 6C 6F 74 73 00 00 03 25 66 30 00 01 0A 09 02 02 00 0B 04 00 10 00 0B";

const IMPORT_0: &str = "s.wasm: import 0 uses the placeholder namespace";

const IMPORT_1: &str = "s.wasm: import 1 uses the placeholder namespace";

// A module, arguments, and the text of the refusal.
const REFUSED: [(&str, &str, &str); 38] = [
    (COPIES, "--split-funcs=zz", "no function zz"),
    (COPIES, "--keep-funcs=zz", "no function zz"),
    (COPIES, "--split-funcs=,", "no function "),
    (COPIES, "--split-funcs=i,", "no function "),
    (BOTH_N, "--split-funcs=n", "several functions n"),
    (BOTH_N, "--keep-funcs=m,n", "several functions n"),
    (BOTH_N, "--split-funcs=n,zz", "several functions n"),
    (BOTH_N, "--split-funcs=zz,n", "no function zz"),
    (BOTH_N, "--split-funcs=zz --keep-funcs=n", "no function zz"),
    (
        BOTH_N,
        "--keep-funcs=zz --split-funcs=n",
        "several functions n",
    ),
    (
        BOTH_N,
        "--split-funcs=m --keep-funcs=m,zz",
        "no function zz",
    ),
    (
        BOTH_N,
        "--split-funcs=m --keep-funcs=n",
        "several functions n",
    ),
    (
        BOTH_N,
        "--split-funcs=m --keep-funcs=k",
        "function m is kept and split",
    ),
    (
        BOTH_N,
        "--split-funcs=k,m --keep-funcs=m",
        "function k is kept and split",
    ),
    (
        CALLS,
        "--split-funcs=g --keep-funcs=g",
        "function g is kept and split",
    ),
    (
        CALLS,
        "--split-funcs=f,g --keep-funcs=g",
        "function g is kept and split",
    ),
    (
        CALLS,
        "--split-funcs=g,f --keep-funcs=f,g",
        "function g is kept and split",
    ),
    // a name that only an import has, and the name of an import that is exported
    (SEGMENTS, "--split-funcs=i", "no function i"),
    (IMPORTED, "--split-funcs=h", "no function h"),
    (CALLS_BESIDE, "--split-funcs=g", "no function g"),
    // a name of no function, and a name of a malformed list
    (SEGMENTS, "--split-funcs=gone", "no function gone"),
    (CALLS_MALFORMED, "--split-funcs=g", "no function g"),
    // faults of the listed names before those of the module, and its imports before its exports
    (ADDS_BESIDE, "--split-funcs=add", IMPORT_0),
    (ADDS_BESIDE, "--split-funcs=zz", "no function zz"),
    (
        ADDS_BESIDE,
        "--split-funcs=add --keep-funcs=add",
        "function add is kept and split",
    ),
    (SLOTS, "--split-funcs=%slots", "export %slots is taken"),
    (SLOTS, "--split-funcs=%slots,zz", "no function zz"),
    (SLOTS, "--keep-funcs=%slots", "export %slots is taken"),
    (
        SLOTS,
        "--split-funcs=%slots --keep-funcs=%slots",
        "function %slots is kept and split",
    ),
    (SLOTS_BESIDE, "--split-funcs=%slots", IMPORT_0),
    (
        SLOTS_BESIDE,
        "--split-funcs=%slots --placeholder-namespace=h",
        "export %slots is taken",
    ),
    (
        SLOTS_BESIDE,
        "--split-funcs=%slots --export-prefix=x",
        IMPORT_0,
    ),
    (
        LINKED,
        "--split-funcs=twice --placeholder-namespace=env",
        IMPORT_0,
    ),
    // nothing moves
    (
        TWO_IMPORTS,
        "--keep-funcs=f --placeholder-namespace=h",
        IMPORT_1,
    ),
    (
        TWO_IMPORTS,
        "--keep-funcs=f --placeholder-namespace=e",
        IMPORT_0,
    ),
    (TWO_TAKEN, "--split-funcs=%f0", "export %f0 is taken"),
    (TWO_TAKEN, "--split-funcs=%slots", "export %slots is taken"),
    (
        TWO_TAKEN,
        "--split-funcs=%slots,%f0",
        "export %slots is taken",
    ),
];

// Expects the refusal with this text.
fn unlike_refusal(alloc: Global, ran: &Ran, text: &str) -> Result<&'static str, Fail> {
    let text = format!(in alloc; "binkit: {text}\n")?;
    Ok(ran.unlike_refused(text.as_str(), "q"))
}

// Expects the refusal with this text, and the files to be unchanged.
fn unlike_refused_of(
    alloc: Global,
    ran: &Ran,
    module: &str,
    text: &str,
) -> Result<&'static str, Fail> {
    if !ran.has_module(alloc, "s.wasm", module)? {
        return Ok("the module");
    }
    if !ran.has("p", &HEADER) {
        return Ok("the older file");
    }
    unlike_refusal(alloc, ran, text)
}

// Expects the refusal of the split of a module with these arguments with this text, and the files
// to be unchanged.
fn unlike_refused(
    alloc: Global,
    module: &str,
    words: &str,
    text: &str,
) -> Result<&'static str, Fail> {
    let ran = split_sections(alloc, module, words)?;
    unlike_refused_of(alloc, &ran, module, text)
}

// Names the arguments.
fn first_unlike_refused(alloc: Global) -> Result<(&'static str, &'static str), Fail> {
    for (module, words, text) in &REFUSED {
        let unlike = unlike_refused(alloc, module, words, text)?;
        if !unlike.is_empty() {
            return Ok((*words, unlike));
        }
    }
    Ok(("", ""))
}

#[test]
fn the_first_fault_is_told_and_no_file_is_written(rt: HostRuntime) -> Result<(), Fail> {
    assert_eq!(rt; first_unlike_refused(rt.alloc())?, ("", ""));
    Ok(())
}

// Adds so many of these bytes.
fn add_times(bytes: &mut Vec<u8>, count: usize, added: &[u8]) -> Result<(), Fail> {
    for _ in 0..count {
        bytes.extend_from_slice(added)?;
    }
    Ok(())
}

// Adds the parameters of the second type, and a function of the first type and 4,001 of the second.
fn add_types_and_funcs(bytes: &mut Vec<u8>) -> Result<(), Fail> {
    add_times(bytes, 1000, &[0x7F])?;
    bytes.extend_from_slice(&[0x00, 0x03, 0xA4, 0x1F, 0xA2, 0x1F, 0x00])?;
    add_times(bytes, 4001, &[1])
}

fn add_exports_and_code(bytes: &mut Vec<u8>) -> Result<(), Fail> {
    bytes.extend_from_slice(&[
        0x07, 0x09, 0x02, 0x01, 0x6B, 0x00, 0x00, 0x01, 0x6C, 0x00, 0x01, 0x0A, 0xE8, 0x5D, 0xA2,
        0x1F,
    ])?;
    add_times(bytes, 4002, &[0x02, 0x00, 0x0B])
}

fn add_many_params(bytes: &mut Vec<u8>) -> Result<(), Fail> {
    add_types_and_funcs(bytes)?;
    add_exports_and_code(bytes)
}

// A function without parameters, exported as k, and 4,001 functions of 1,000 parameters, the first
// of which is exported as l.
pub(crate) fn many_params(alloc: Global) -> Result<Vec<u8>, Fail> {
    let mut bytes = module_of(alloc, "01 F0 07 02 60 00 00 60 E8 07")?;
    add_many_params(&mut bytes)?;
    Ok(bytes)
}

// Expects the refusal with this text, without a secondary module, or, if the text is empty, a
// secondary module.
fn unlike_told_of(ran: &Ran, text: &str) -> &'static str {
    if !text.is_empty() {
        return ran.unlike_refused(text, "q");
    }
    if ran.files.contents("q").is_none() {
        return "the secondary module";
    }
    ran.unlike(Status::Done, "", "")
}

// Splits a module with these arguments, and expects the same.
fn unlike_told(
    alloc: Global,
    module: &[u8],
    words: &str,
    text: &str,
) -> Result<&'static str, Fail> {
    let ran = split_by(alloc, module, words)?;
    Ok(unlike_told_of(&ran, text))
}

fn unlike_many_params(alloc: Global, words: &str, text: &str) -> Result<&'static str, Fail> {
    let module = many_params(alloc)?;
    unlike_told(alloc, module.as_slice(), words, text)
}

#[test]
fn too_many_parameters_of_functions_that_move_are_told(rt: HostRuntime) -> Result<(), Fail> {
    let alloc = rt.alloc();
    let text = "binkit: output exceeds the limit on trampolines\n";
    assert_eq!(rt; unlike_many_params(alloc, "--keep-funcs=k", text)?, "");
    assert_eq!(rt; unlike_many_params(alloc, "--keep-funcs=k,l", "")?, "");
    Ok(())
}

// A module of so many tables, whose section begins so, and a function that is exported as f.
fn many_tables(alloc: Global, head: &str, count: usize) -> Result<Vec<u8>, Fail> {
    let before = format!(in alloc; "01 04 01 60 00 00 03 02 01 00 {head}")?;
    let behind = "07 05 01 01 66 00 00 0A 04 01 02 00 0B";
    module_of_tables(alloc, before.as_str(), count, behind)
}

// Splits a module of so many tables, whose section begins so, and expects the same as
// `unlike_told`.
fn unlike_many_tables(
    alloc: Global,
    head: &str,
    count: usize,
    text: &str,
) -> Result<&'static str, Fail> {
    let module = many_tables(alloc, head, count)?;
    unlike_told(alloc, module.as_slice(), "--split-funcs=f", text)
}

#[test]
fn a_table_too_many_is_told(rt: HostRuntime) -> Result<(), Fail> {
    let alloc = rt.alloc();
    let text = "binkit: output exceeds the limit on tables\n";
    let most = unlike_many_tables(alloc, "04 B2 EA 01 90 4E", 10000, text)?;
    assert_eq!(rt; most, "");
    let fewer = unlike_many_tables(alloc, "04 AF EA 01 8F 4E", 9999, "")?;
    assert_eq!(rt; fewer, "");
    Ok(())
}

// Expects the refusal of this module, of a word that names no function, as invalid.
fn unlike_invalid(alloc: Global) -> Result<&'static str, Fail> {
    let invalid = module_of(alloc, NOTHING_GIVEN)?;
    let text = "binkit: s.wasm: invalid body 0\n";
    unlike_told(alloc, invalid.as_slice(), "--split-funcs=zz", text)
}

#[test]
fn the_module_is_read_and_validated_before_the_words_are_looked_up(
    rt: HostRuntime,
) -> Result<(), Fail> {
    let alloc = rt.alloc();
    let words = "--split-funcs=zz";
    let text = "binkit: s.wasm: malformed section 3\n";
    assert_eq!(rt; unlike_told(alloc, &CUT, words, text)?, "");
    assert_eq!(rt; unlike_invalid(alloc)?, "");
    let text = "binkit: s.wasm: not a WebAssembly module\n";
    assert_eq!(rt; unlike_told(alloc, b"", words, text)?, "");
    Ok(())
}

// Runs a line over CALLS.
fn run_over_calls(alloc: Global, line: &str) -> Result<Ran, Fail> {
    let module = module_of(alloc, CALLS)?;
    run_line(alloc, files_of(alloc, module.as_slice())?, line)
}

// Expects a line over CALLS to be done and to write the primary and the secondary module to these
// files.
fn unlike_files(
    alloc: Global,
    line: &str,
    primary: &str,
    secondary: &str,
) -> Result<&'static str, Fail> {
    let ran = run_over_calls(alloc, line)?;
    let first = (primary, CALLS_PRIMARY);
    unlike_two(alloc, &ran, "", first, (secondary, GIVES_SECONDARY))
}

// A line, and the files to which it writes the primary and the secondary module.
type Line = (&'static str, &'static str, &'static str);

// Names the line.
fn first_unlike_files(alloc: Global, rows: &[Line]) -> Result<(&'static str, &'static str), Fail> {
    for (line, primary, secondary) in rows {
        let unlike = unlike_files(alloc, line, primary, secondary)?;
        if !unlike.is_empty() {
            return Ok((*line, unlike));
        }
    }
    Ok(("", ""))
}

const OVERWRITING: [Line; 2] = [
    (
        "split s.wasm --split-funcs=g --primary-output=s.wasm --secondary-output=q",
        "s.wasm",
        "q",
    ),
    (
        "split s.wasm --split-funcs=g --primary-output=p --secondary-output=s.wasm",
        "p",
        "s.wasm",
    ),
];

#[test]
fn an_output_may_be_the_file(rt: HostRuntime) -> Result<(), Fail> {
    assert_eq!(rt; first_unlike_files(rt.alloc(), &OVERWRITING)?, ("", ""));
    Ok(())
}

// A function that is exported under the empty name and returns 7.
const NAMELESS: &str = "01 05 01 60 00 01 7F 03 02 01 00 07 04 01 00 00 00 0A 06 01 04 00 41 07 0B";

const NAMELESS_PRIMARY: &str = "\
    01 05 01 60 00 01 7F \
    02 11 01 0B 70 6C 61 63 65 68 6F 6C 64 65 72 01 30 00 00 \
    03 02 01 00 \
    04 05 01 70 01 01 01 \
    07 0D 02 00 00 01 06 25 73 6C 6F 74 73 01 00 \
    09 07 01 00 41 00 0B 01 00 \
    0A 09 01 07 00 41 00 11 00 00 0B";

#[test]
fn an_empty_piece_of_a_list_is_the_empty_name(rt: HostRuntime) -> Result<(), Fail> {
    let alloc = rt.alloc();
    let modules = (NAMELESS_PRIMARY, GIVES_SECONDARY);
    let unlike = unlike_split(alloc, NAMELESS, "--split-funcs=,", "", modules)?;
    assert_eq!(rt; unlike, "");
    Ok(())
}

const ANYWHERE: [Line; 3] = [
    (
        "split --split-funcs g --secondary-output q --primary-output p s.wasm",
        "p",
        "q",
    ),
    (
        "split --secondary-output=q s.wasm --primary-output=p --keep-funcs=f",
        "p",
        "q",
    ),
    (
        "split --split-funcs=g --secondary-output=q --primary-output=-p s.wasm",
        "-p",
        "q",
    ),
];

#[test]
fn its_options_stand_anywhere_and_once(rt: HostRuntime) -> Result<(), Fail> {
    assert_eq!(rt; first_unlike_files(rt.alloc(), &ANYWHERE)?, ("", ""));
    Ok(())
}
