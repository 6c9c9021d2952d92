use crate::given::{GIVES, Ran, merge_two, module_of_tables, run_line, two_files};
use std::alloc::Global;
use std::test::Fail;

// The memory env.memory, with a minimum of 6, and with 1 to 5.
const FROM_6: &str = "02 0F 01 03 65 6E 76 06 6D 65 6D 6F 72 79 02 00 06";

const FROM_1_TO_5: &str = "02 10 01 03 65 6E 76 06 6D 65 6D 6F 72 79 02 01 01 05";

// A function that is imported from the other part, exported as x.
const FROM_B: &str = "01 04 01 60 00 00 02 07 01 01 62 01 78 00 00 07 05 01 01 78 00 00";

const FROM_A: &str = "01 04 01 60 00 00 02 07 01 01 61 01 78 00 00 07 05 01 01 78 00 00";

// A global that reads one which is imported from the other part, exported as x.
const READS_B: &str = "02 08 01 01 62 01 78 03 7F 00 06 06 01 7F 00 23 00 0B 07 05 01 01 78 03 01";

const READS_A: &str = "02 08 01 01 61 01 78 03 7F 00 06 06 01 7F 00 23 00 0B 07 05 01 01 78 03 01";

// Expects the refusal of the merge of two parts with this text.
fn unlike_refused(alloc: Global, a: &str, b: &str, text: &str) -> Result<&'static str, Fail> {
    let ran = merge_two(alloc, a, b, "")?;
    Ok(ran.unlike_refused(text, "o.wasm"))
}

// Two parts, and the text with which their merge is refused.
type Refusal = (&'static str, &'static str, &'static str);

// Names the text.
fn first_unlike_refused(
    alloc: Global,
    rows: &[Refusal],
) -> Result<(&'static str, &'static str), Fail> {
    for (a, b, text) in rows {
        let unlike = unlike_refused(alloc, a, b, text)?;
        if !unlike.is_empty() {
            return Ok((*text, unlike));
        }
    }
    Ok(("", ""))
}

const UNFIT: [Refusal; 6] = [
    (GIVES, GIVES, "binkit: export f stands twice\n"),
    (FROM_B, FROM_A, "binkit: a.wasm: import 0 has no end\n"),
    (
        FROM_6,
        FROM_1_TO_5,
        "binkit: a.wasm: import 0 has limits that clash\n",
    ),
    (
        "05 03 01 00 01",
        "05 03 01 00 01",
        "binkit: more than one memory\n",
    ),
    (
        GIVES,
        "01 04 01 60 00 00 02 07 01 01 61 01 66 00 00",
        "binkit: b.wasm: import 0 does not match\n",
    ),
    (READS_B, READS_A, "binkit: a.wasm: global 1 has no value\n"),
];

#[test]
fn parts_that_do_not_fit_are_refused_with_their_text(rt: HostRuntime) -> Result<(), Fail> {
    assert_eq!(rt; first_unlike_refused(rt.alloc(), &UNFIT)?, ("", ""));
    Ok(())
}

// A global that reads b.x, and that nothing reads.
const LEADS_TO_B: &str = "02 08 01 01 62 01 78 03 7F 00 06 06 01 7F 00 23 00 0B";

#[test]
fn the_first_global_that_leads_into_a_cycle_is_told(rt: HostRuntime) -> Result<(), Fail> {
    let alloc = rt.alloc();
    // as part b, READS_B reads itself
    let text = "binkit: a.wasm: global 1 has no value\n";
    assert_eq!(rt; unlike_refused(alloc, LEADS_TO_B, READS_B, text)?, "");
    Ok(())
}

// Part a imports e.m with 6 pages or more and exports the i32 global x. Part b imports e.m with at
// most 5 pages, and a.x as an i64.
const ASKS_FOR_6: &str =
    "02 08 01 01 65 01 6D 02 00 06 06 06 01 7F 00 41 05 0B 07 05 01 01 78 03 00";

const ASKS_FOR_5_AND_I64: &str = "02 10 02 01 65 01 6D 02 01 01 05 01 61 01 78 03 7E 00";

// Part a exports its import e.t of 6 entries or more, and part b imports that with at most 5. Each
// has a memory.
const TABLE_FROM_6: &str = "02 09 01 01 65 01 74 01 70 00 06 05 03 01 00 01 07 05 01 01 74 01 00";

const TABLE_TO_5: &str = "02 0A 01 01 61 01 74 01 70 01 01 05 05 03 01 00 01";

// The parts whose globals read each other, each with a memory.
const MEMORY_READS_B: &str =
    "02 08 01 01 62 01 78 03 7F 00 05 03 01 00 01 06 06 01 7F 00 23 00 0B 07 05 01 01 78 03 01";

const MEMORY_READS_A: &str =
    "02 08 01 01 61 01 78 03 7F 00 05 03 01 00 01 06 06 01 7F 00 23 00 0B 07 05 01 01 78 03 01";

const TWO_FAULTS: [Refusal; 4] = [
    // before limits that clash
    (
        ASKS_FOR_6,
        ASKS_FOR_5_AND_I64,
        "binkit: b.wasm: import 1 does not match\n",
    ),
    // before two memories
    (
        TABLE_FROM_6,
        TABLE_TO_5,
        "binkit: a.wasm: import 0 has limits that clash\n",
    ),
    // before a global without a value
    (
        MEMORY_READS_B,
        MEMORY_READS_A,
        "binkit: more than one memory\n",
    ),
    // before two exports of the name x
    (READS_B, READS_A, "binkit: a.wasm: global 1 has no value\n"),
];

#[test]
fn of_two_faults_the_earlier_in_the_order_is_told(rt: HostRuntime) -> Result<(), Fail> {
    assert_eq!(rt; first_unlike_refused(rt.alloc(), &TWO_FAULTS)?, ("", ""));
    Ok(())
}

// Part a imports from itself the i32 global y as an i64, and x, which is this very import; then the
// same two in the other order.
const MISMATCH_AND_CYCLE: &str =
    "02 0F 02 01 61 01 79 03 7E 00 01 61 01 78 03 7F 00 06 06 01 7F 00 41 05 0B 07 09 02 01 79 03 02 01 78 03 01";

const CYCLE_AND_MISMATCH: &str =
    "02 0F 02 01 61 01 78 03 7F 00 01 61 01 79 03 7E 00 06 06 01 7F 00 41 05 0B 07 09 02 01 79 03 02 01 78 03 00";

// Part a imports e.g, and b.y as an i64. Part b imports from itself x, which is this very import,
// and its global y is an i32.
const MISMATCH_BEHIND: &str = "02 0F 02 01 65 01 67 03 7F 00 01 62 01 79 03 7E 00";

const CYCLE_IN_FRONT: &str =
    "02 08 01 01 62 01 78 03 7F 00 06 06 01 7F 00 41 05 0B 07 09 02 01 79 03 01 01 78 03 00";

const TWO_IMPORTS: [Refusal; 3] = [
    (
        MISMATCH_AND_CYCLE,
        "",
        "binkit: a.wasm: import 0 does not match\n",
    ),
    (
        CYCLE_AND_MISMATCH,
        "",
        "binkit: a.wasm: import 0 has no end\n",
    ),
    (
        MISMATCH_BEHIND,
        CYCLE_IN_FRONT,
        "binkit: a.wasm: import 1 does not match\n",
    ),
];

#[test]
fn of_the_imports_with_a_fault_the_first_is_told(rt: HostRuntime) -> Result<(), Fail> {
    assert_eq!(rt; first_unlike_refused(rt.alloc(), &TWO_IMPORTS)?, ("", ""));
    Ok(())
}

// The parts of the two tests above, each without the fault that is reported there.
const MENDED: [Refusal; 7] = [
    (
        ASKS_FOR_6,
        "02 10 02 01 65 01 6D 02 01 01 05 01 61 01 78 03 7F 00",
        "binkit: a.wasm: import 0 has limits that clash\n",
    ),
    (
        TABLE_FROM_6,
        "02 09 01 01 61 01 74 01 70 00 01 05 03 01 00 01",
        "binkit: more than one memory\n",
    ),
    (READS_B, READS_A, "binkit: a.wasm: global 1 has no value\n"),
    (
        READS_B,
        "06 06 01 7F 00 41 05 0B 07 05 01 01 78 03 00",
        "binkit: export x stands twice\n",
    ),
    (
        "02 0F 02 01 61 01 79 03 7F 00 01 61 01 78 03 7F 00 06 06 01 7F 00 41 05 0B 07 09 02 01 79 03 02 01 78 03 01",
        "",
        "binkit: a.wasm: import 1 has no end\n",
    ),
    (
        "02 0F 02 01 61 01 78 03 7F 00 01 61 01 79 03 7E 00 06 06 01 7F 00 41 05 0B 07 09 02 01 79 03 02 01 78 03 02",
        "",
        "binkit: a.wasm: import 1 does not match\n",
    ),
    (
        "02 0F 02 01 65 01 67 03 7F 00 01 62 01 79 03 7F 00",
        CYCLE_IN_FRONT,
        "binkit: b.wasm: import 0 has no end\n",
    ),
];

#[test]
fn where_the_earlier_fault_is_mended_the_later_is_told(rt: HostRuntime) -> Result<(), Fail> {
    assert_eq!(rt; first_unlike_refused(rt.alloc(), &MENDED)?, ("", ""));
    Ok(())
}

// The memory e.m, twice.
const E_M_TWICE: &str = "02 0F 02 01 65 01 6D 02 00 01 01 65 01 6D 02 00 01";

#[test]
fn one_part_has_one_memory_even_where_two_are_of_one_name(rt: HostRuntime) -> Result<(), Fail> {
    let alloc = rt.alloc();
    let text = "binkit: a.wasm: invalid memories 2\n";
    assert_eq!(rt; unlike_refused(alloc, E_M_TWICE, "", text)?, "");
    Ok(())
}

// Runs a line over a.wasm and b.wasm.
fn run_over_two(alloc: Global, a: &[u8], b: &[u8], line: &str) -> Result<Ran, Fail> {
    run_line(alloc, two_files(alloc, a, b)?, line)
}

// Expects the refusal of a line that merges two modules with this text.
fn unlike_refused_line(
    alloc: Global,
    a: &[u8],
    b: &[u8],
    line: &str,
    text: &str,
) -> Result<&'static str, Fail> {
    let ran = run_over_two(alloc, a, b, line)?;
    Ok(ran.unlike_refused(text, "o.wasm"))
}

// Merges of two modules that have too many tables and export the same name, and the text with which
// each is refused.
const MANY_TABLES: [(&str, &str); 3] = [
    (
        "merge a.wasm a b.wasm b -o o.wasm",
        "binkit: export t stands twice\n",
    ),
    (
        "merge a.wasm a b.wasm b -o o.wasm --skip-export-conflicts",
        "binkit: output exceeds the limit on tables\n",
    ),
    (
        "merge a.wasm a b.wasm b -o o.wasm --rename-export-conflicts",
        "binkit: output exceeds the limit on tables\n",
    ),
];

// Names the line.
fn first_unlike_refused_line(
    alloc: Global,
    a: &[u8],
    b: &[u8],
) -> Result<(&'static str, &'static str), Fail> {
    for (line, text) in &MANY_TABLES {
        let unlike = unlike_refused_line(alloc, a, b, line, text)?;
        if !unlike.is_empty() {
            return Ok((*line, unlike));
        }
    }
    Ok(("", ""))
}

fn first_unlike_tables(alloc: Global) -> Result<(&'static str, &'static str), Fail> {
    let export = "07 05 01 01 74 01 00";
    let a = module_of_tables(alloc, "04 9A 75 88 27", 5000, export)?;
    let b = module_of_tables(alloc, "04 9D 75 89 27", 5001, export)?;
    first_unlike_refused_line(alloc, a.as_slice(), b.as_slice())
}

#[test]
fn too_many_tables_are_told_after_a_conflict_of_names(rt: HostRuntime) -> Result<(), Fail> {
    assert_eq!(rt; first_unlike_tables(rt.alloc())?, ("", ""));
    Ok(())
}
