use crate::given::{GIVES, Ran, merge_two, module_of_tables, run_line, with_file, with_module};
use std::alloc::Global;
use std::test::Fail;
use tool_io::MemFiles;

// One function, exported as f and as f_1, that returns 7.
const GIVES_TWICE: &str =
    "01 05 01 60 00 01 7F 03 02 01 00 07 0B 02 01 66 00 00 03 66 5F 31 00 00 0A 06 01 04 00 41 07 0B";

// A function, exported as g, that calls a.f.
pub const CALLS: &str =
    "01 05 01 60 00 01 7F 02 07 01 01 61 01 66 00 00 03 02 01 00 07 05 01 01 67 00 01 0A 06 01 04 00 10 00 0B";

// GIVES merged with CALLS.
pub const BOTH: &str =
    "01 05 01 60 00 01 7F 03 03 02 00 00 07 09 02 01 66 00 00 01 67 00 01 0A 0B 02 04 00 41 07 0B 04 00 10 00 0B";

// A start that does nothing.
const STARTS: &str = "01 04 01 60 00 00 03 02 01 00 08 01 00 0A 04 01 02 00 0B";

// Expects the merge of two parts, with at most one flag, to write this module.
fn unlike_merge(
    alloc: Global,
    a: &str,
    b: &str,
    flag: &str,
    merged: &str,
) -> Result<&'static str, Fail> {
    let ran = merge_two(alloc, a, b, flag)?;
    ran.unlike_done(alloc, "", "o.wasm", merged)
}

// Two parts, a flag or none, and the merged module.
type Merge = (&'static str, &'static str, &'static str, &'static str);

// Names the two parts.
fn first_unlike_merge(
    alloc: Global,
    rows: &[Merge],
) -> Result<(&'static str, &'static str, &'static str), Fail> {
    for (a, b, flag, merged) in rows {
        let unlike = unlike_merge(alloc, a, b, flag, merged)?;
        if !unlike.is_empty() {
            return Ok((*a, *b, unlike));
        }
    }
    Ok(("", "", ""))
}

const ONE_MODULE: [Merge; 5] = [
    (GIVES, CALLS, "", BOTH),
    (
        GIVES,
        GIVES,
        "--rename-export-conflicts",
        "01 05 01 60 00 01 7F 03 03 02 00 00 07 0B 02 01 66 00 00 03 66 5F 31 00 01 0A 0B 02 04 00 41 07 0B 04 00 41 07 0B",
    ),
    (
        GIVES,
        GIVES,
        "--skip-export-conflicts",
        "01 05 01 60 00 01 7F 03 03 02 00 00 07 05 01 01 66 00 00 0A 0B 02 04 00 41 07 0B 04 00 41 07 0B",
    ),
    (
        GIVES,
        GIVES_TWICE,
        "--rename-export-conflicts",
        "01 05 01 60 00 01 7F 03 03 02 00 00 07 11 03 01 66 00 00 03 66 5F 32 00 01 03 66 5F 31 00 01 0A 0B 02 04 00 41 07 0B 04 00 41 07 0B",
    ),
    (
        STARTS,
        STARTS,
        "",
        "01 04 01 60 00 00 03 04 03 00 00 00 08 01 02 0A 0E 03 02 00 0B 02 00 0B 06 00 10 00 10 01 0B",
    ),
];

#[test]
fn two_parts_are_merged_into_one_module(rt: HostRuntime) -> Result<(), Fail> {
    assert_eq!(rt; first_unlike_merge(rt.alloc(), &ONE_MODULE)?, ("", "", ""));
    Ok(())
}

// The memory env.memory, with a minimum of 1, and with 3 to 5.
const FROM_1: &str = "02 0F 01 03 65 6E 76 06 6D 65 6D 6F 72 79 02 00 01";

const FROM_3_TO_5: &str = "02 10 01 03 65 6E 76 06 6D 65 6D 6F 72 79 02 01 03 05";

// A global of 5, exported as x, and one that reads a.x.
const FIVE: &str = "06 06 01 7F 00 41 05 0B 07 05 01 01 78 03 00";

const READS: &str = "02 08 01 01 61 01 78 03 7F 00 06 06 01 7F 00 23 00 0B";

const JOINED: [Merge; 3] = [
    (FROM_1, FROM_3_TO_5, "", FROM_3_TO_5),
    (FROM_3_TO_5, FROM_1, "", FROM_3_TO_5),
    (
        FIVE,
        READS,
        "",
        "06 0B 02 7F 00 41 05 0B 7F 00 41 05 0B 07 05 01 01 78 03 00",
    ),
];

#[test]
fn memories_and_globals_are_joined(rt: HostRuntime) -> Result<(), Fail> {
    assert_eq!(rt; first_unlike_merge(rt.alloc(), &JOINED)?, ("", "", ""));
    Ok(())
}

// Expects o.wasm to hold this module still, and to be written once more, as p.wasm.
fn unlike_copy(alloc: Global, ran: &Ran, merged: &str) -> Result<&'static str, Fail> {
    if !ran.has_module(alloc, "o.wasm", merged)? {
        return Ok("the input");
    }
    ran.unlike_done(alloc, "", "p.wasm", merged)
}

// Expects the same after a merge of o.wasm alone.
fn unlike_merged_again(alloc: Global, files: MemFiles, merged: &str) -> Result<&'static str, Fail> {
    let ran = run_line(alloc, files, "merge o.wasm o -o p.wasm")?;
    unlike_copy(alloc, &ran, merged)
}

// The same as `unlike_merge`; also expects the merge of o.wasm alone to write it once more, as
// p.wasm.
fn unlike_merges(
    alloc: Global,
    a: &str,
    b: &str,
    flag: &str,
    merged: &str,
) -> Result<&'static str, Fail> {
    let first = merge_two(alloc, a, b, flag)?;
    let unlike = first.unlike_done(alloc, "", "o.wasm", merged)?;
    if unlike.is_empty() {
        unlike_merged_again(alloc, first.files, merged)
    } else {
        Ok(unlike)
    }
}

// Two parts and the merged module.
type Merges = (&'static str, &'static str, &'static str);

// Names the two parts.
fn first_unlike_merges(
    alloc: Global,
    rows: &[Merges],
) -> Result<(&'static str, &'static str, &'static str), Fail> {
    for (a, b, merged) in rows {
        let unlike = unlike_merges(alloc, a, b, "", merged)?;
        if !unlike.is_empty() {
            return Ok((*a, *b, unlike));
        }
    }
    Ok(("", "", ""))
}

// Part a imports its own f, which returns 7, and its g calls that import.
const OWN_IMPORT: &str =
    "01 05 01 60 00 01 7F 02 07 01 01 61 01 66 00 00 03 03 02 00 00 07 09 02 01 66 00 02 01 67 00 01 0A 0B 02 04 00 10 00 0B 04 00 41 07 0B";

#[test]
fn a_part_imports_from_itself(rt: HostRuntime) -> Result<(), Fail> {
    let alloc = rt.alloc();
    let merged =
        "01 05 01 60 00 01 7F 03 03 02 00 00 07 09 02 01 66 00 01 01 67 00 00 0A 0B 02 04 00 10 01 0B 04 00 41 07 0B";
    assert_eq!(rt; unlike_merges(alloc, OWN_IMPORT, "", "", merged)?, "");
    Ok(())
}

// The memory b.m, which no part exports, with a minimum of 1, and with 3 to 5.
const B_M_FROM_1: &str = "02 08 01 01 62 01 6D 02 00 01";

const B_M_FROM_3_TO_5: &str = "02 09 01 01 62 01 6D 02 01 03 05";

// The immutable global e.g of type i32, once and twice.
const E_G: &str = "02 08 01 01 65 01 67 03 7F 00";

const E_G_TWICE: &str = "02 0F 02 01 65 01 67 03 7F 00 01 65 01 67 03 7F 00";

// The table e.t of functions, twice.
const E_T_TWICE: &str = "02 11 02 01 65 01 74 01 70 00 01 01 65 01 74 01 70 00 02";

// The function e.f of type [] to [], twice.
const E_F_TWICE: &str = "01 04 01 60 00 00 02 0D 02 01 65 01 66 00 00 01 65 01 66 00 00";

const STAYS: [Merges; 5] = [
    (B_M_FROM_1, B_M_FROM_3_TO_5, B_M_FROM_3_TO_5),
    (E_G, E_G, E_G_TWICE),
    (E_G_TWICE, "", E_G_TWICE),
    (E_T_TWICE, "", E_T_TWICE),
    (E_F_TWICE, "", E_F_TWICE),
];

#[test]
fn of_what_stays_memories_alone_become_one(rt: HostRuntime) -> Result<(), Fail> {
    assert_eq!(rt; first_unlike_merges(rt.alloc(), &STAYS)?, ("", "", ""));
    Ok(())
}

// A function of the second of two equal types, and of the one type.
const OF_SECOND_TYPE: &str = "01 07 02 60 00 00 60 00 00 03 02 01 01 0A 04 01 02 00 0B";

const OF_ONE_TYPE: &str = "01 04 01 60 00 00 03 02 01 00 0A 04 01 02 00 0B";

// The type [i32] to [], which nothing uses.
const UNUSED_TYPE: &str = "01 05 01 60 01 7F 00";

const TYPES: [Merges; 2] = [
    (OF_SECOND_TYPE, "", OF_ONE_TYPE),
    (
        UNUSED_TYPE,
        OF_SECOND_TYPE,
        "01 08 02 60 01 7F 00 60 00 00 03 02 01 01 0A 04 01 02 00 0B",
    ),
];

#[test]
fn equal_types_stand_once_and_unused_ones_stay(rt: HostRuntime) -> Result<(), Fail> {
    assert_eq!(rt; first_unlike_merges(rt.alloc(), &TYPES)?, ("", "", ""));
    Ok(())
}

// A start that does nothing, exported as s, and a part that starts a.s.
const STARTS_OWN: &str =
    "01 04 01 60 00 00 03 02 01 00 07 05 01 01 73 00 00 08 01 00 0A 04 01 02 00 0B";

const STARTS_A_S: &str = "01 04 01 60 00 00 02 07 01 01 61 01 73 00 00 08 01 00";

#[test]
fn a_function_that_two_parts_start_is_called_twice(rt: HostRuntime) -> Result<(), Fail> {
    let alloc = rt.alloc();
    let merged =
        "01 04 01 60 00 00 03 03 02 00 00 07 05 01 01 73 00 00 08 01 01 0A 0B 02 02 00 0B 06 00 10 00 10 00 0B";
    assert_eq!(rt;
        unlike_merges(alloc, STARTS_OWN, STARTS_A_S, "", merged)?,
        ""
    );
    Ok(())
}

// Part a imports e.h, and its global y reads b.x.
const Y_READS_B_X: &str =
    "02 0F 02 01 65 01 68 03 7F 00 01 62 01 78 03 7F 00 06 06 01 7F 00 23 01 0B 07 05 01 01 79 03 02";

// The global x of part b: one that reads e.g, and then one that is e.g.
const X_READS_E_G: &str =
    "02 08 01 01 65 01 67 03 7F 00 06 06 01 7F 00 23 00 0B 07 05 01 01 78 03 01";

const X_IS_E_G: &str = "02 08 01 01 65 01 67 03 7F 00 07 05 01 01 78 03 00";

// A function, and a global that reads b.x, a reference to a function.
const READS_FUNCTION: &str =
    "01 04 01 60 00 00 02 08 01 01 62 01 78 03 70 00 03 02 01 00 06 06 01 70 00 23 00 0B 0A 04 01 02 00 0B";

// The global x, which refers to the only function.
const REFERS: &str =
    "01 04 01 60 00 00 03 02 01 00 06 06 01 70 00 D2 00 0B 07 05 01 01 78 03 00 0A 04 01 02 00 0B";

const READING: [Merges; 3] = [
    (
        Y_READS_B_X,
        X_READS_E_G,
        "02 0F 02 01 65 01 68 03 7F 00 01 65 01 67 03 7F 00 06 0B 02 7F 00 23 01 0B 7F 00 23 01 0B 07 09 02 01 79 03 02 01 78 03 03",
    ),
    (
        Y_READS_B_X,
        X_IS_E_G,
        "02 0F 02 01 65 01 68 03 7F 00 01 65 01 67 03 7F 00 06 06 01 7F 00 23 01 0B 07 09 02 01 79 03 02 01 78 03 01",
    ),
    (
        READS_FUNCTION,
        REFERS,
        "01 04 01 60 00 00 03 03 02 00 00 06 0B 02 70 00 D2 01 0B 70 00 D2 01 0B 07 05 01 01 78 03 01 0A 07 02 02 00 0B 02 00 0B",
    ),
];

#[test]
fn globals_take_the_value_at_which_reading_ends(rt: HostRuntime) -> Result<(), Fail> {
    assert_eq!(rt; first_unlike_merges(rt.alloc(), &READING)?, ("", "", ""));
    Ok(())
}

// A function, exported as f, that does nothing, and one that names itself by `ref.func`.
const DOES_NOTHING: &str = "01 04 01 60 00 00 03 02 01 00 07 05 01 01 66 00 00 0A 04 01 02 00 0B";

const NAMES_ITSELF: &str =
    "01 04 01 60 00 00 03 02 01 00 07 05 01 01 66 00 00 0A 07 01 05 00 D2 00 1A 0B";

#[test]
fn a_function_whose_export_is_left_out_is_declared(rt: HostRuntime) -> Result<(), Fail> {
    let alloc = rt.alloc();
    let flag = "--skip-export-conflicts";
    let merged =
        "01 04 01 60 00 00 03 03 02 00 00 07 05 01 01 66 00 00 09 05 01 03 00 01 01 0A 0A 02 02 00 0B 05 00 D2 01 1A 0B";
    assert_eq!(rt;
        unlike_merges(alloc, DOES_NOTHING, NAMES_ITSELF, flag, merged)?,
        ""
    );
    Ok(())
}

// Merges a.wasm with itself.
fn merge_twice(alloc: Global, part: &[u8]) -> Result<Ran, Fail> {
    let files = with_file(MemFiles::new(alloc), "a.wasm", part)?;
    run_line(alloc, files, "merge a.wasm a a.wasm b -o o.wasm")
}

// Expects the merge of a part with itself to write these bytes.
fn unlike_merged_twice(alloc: Global, part: &[u8], merged: &[u8]) -> Result<&'static str, Fail> {
    let ran = merge_twice(alloc, part)?;
    Ok(ran.unlike_written("o.wasm", merged, ""))
}

fn unlike_tables(alloc: Global) -> Result<&'static str, Fail> {
    let part = module_of_tables(alloc, "04 9A 75 88 27", 5000, "")?;
    let merged = module_of_tables(alloc, "04 B2 EA 01 90 4E", 10000, "")?;
    unlike_merged_twice(alloc, part.as_slice(), merged.as_slice())
}

#[test]
fn as_many_tables_as_the_limit_are_written(rt: HostRuntime) -> Result<(), Fail> {
    assert_eq!(rt; unlike_tables(rt.alloc())?, "");
    Ok(())
}

// A module as a linker leaves it, with padded indices, a name section and a producers section. All
// but the code and these two sections is unchanged in the output.
const BEFORE_CODE: &str = "\
    01 0D 03 60 00 00 60 01 7F 01 7F 60 01 7F 00 \
    02 0B 01 03 65 6E 76 03 6C 6F 67 00 02 \
    03 05 04 00 00 01 01 \
    04 05 01 70 01 05 05 \
    05 03 01 00 02 \
    06 08 01 7F 01 41 90 88 04 0B \
    07 24 03 06 6D 65 6D 6F 72 79 02 00 11 5F 5F 77 61 73 6D 5F 63 61 6C 6C 5F 63 74 6F 72 73 00 \
    01 03 72 75 6E 00 04 \
    09 07 01 00 41 01 0B 01 03";

const PADDED_CODE: &str =
    "0A 33 04 08 00 10 82 80 80 80 00 0B 0A 00 41 00 41 2A 36 02 84 08 0B 07 00 20 00 41 01 74 0B 15 00 20 00 10 80 80 80 80 00 20 00 41 01 11 81 80 80 80 00 00 0B";

const SHORT_CODE: &str =
    "0A 27 04 04 00 10 02 0B 0A 00 41 00 41 2A 36 02 84 08 0B 07 00 20 00 41 01 74 0B 0D 00 20 00 10 00 20 00 41 01 11 01 00 0B";

const DATA: &str = "0B 09 01 00 41 80 08 0B 02 68 69";

const CUSTOM: &str = "\
    00 32 04 6E 61 6D 65 01 2B 05 00 03 6C 6F 67 01 11 5F 5F 77 61 73 6D 5F 63 61 6C 6C 5F 63 74 \
    6F 72 73 02 04 69 6E 69 74 03 05 74 77 69 63 65 04 03 72 75 6E \
    00 0B 09 70 72 6F 64 75 63 65 72 73 00";

// Merges this module alone.
fn merge_linked(alloc: Global) -> Result<Ran, Fail> {
    let given = format!(in alloc; "{BEFORE_CODE} {PADDED_CODE} {DATA} {CUSTOM}")?;
    let files = with_module(alloc, MemFiles::new(alloc), "l.wasm", given.as_str())?;
    run_line(alloc, files, "merge l.wasm main -o o.wasm")
}

// Expects it to be written without padding, and without its last two sections.
fn unlike_plain(alloc: Global) -> Result<&'static str, Fail> {
    let plain = format!(in alloc; "{BEFORE_CODE} {SHORT_CODE} {DATA}")?;
    let ran = merge_linked(alloc)?;
    ran.unlike_done(alloc, "", "o.wasm", plain.as_str())
}

#[test]
fn a_module_as_a_linker_leaves_it_is_spelled_plainly(rt: HostRuntime) -> Result<(), Fail> {
    assert_eq!(rt; unlike_plain(rt.alloc())?, "");
    Ok(())
}
