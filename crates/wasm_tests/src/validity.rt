use std::alloc::Global;
use std::test::Fail;
use wasm_read::read;
use wasm_valid::{Invalid, ItemKind, Rejected, Valid, validate};

const HEADER: &[u8] = b"\x00\x61\x73\x6D\x01\x00\x00\x00";

// The sections before the code: types 0 [] to [], 1 [i32] to [i64], 2 [i32 i32] to [i32], 3 [i64] to [i64 i32]; an imported immutable i32 global;
// function 0 of type 0, function 1 of type 1; table 0 of funcref, table 1 of externref; a memory; mutable globals 1 (i32) and 2 (i64);
// a passive element segment of funcref that names function 1, and one of externref; one data segment.
const BEFORE: &[u8] = b"\
    \x01\x15\x04\x60\x00\x00\x60\x01\x7F\x01\x7E\x60\x02\x7F\x7F\x01\x7F\x60\x01\x7E\x02\x7E\x7F\
    \x02\x08\x01\x01\x6D\x01\x67\x03\x7F\x00\
    \x03\x03\x02\x00\x01\
    \x04\x07\x02\x70\x00\x01\x6F\x00\x01\
    \x05\x03\x01\x00\x01\
    \x06\x0B\x02\x7F\x01\x41\x00\x0B\x7E\x00\x42\x00\x0B\
    \x09\x0B\x02\x01\x00\x01\x01\x05\x6F\x01\xD0\x6F\x0B\
    \x0C\x01\x01";

// Locals 0 (i32), 1 (i64), 2 (funcref) and 3 (externref).
const LOCALS: &[u8] = b"\x04\x01\x7F\x01\x7E\x01\x70\x01\x6F";

// The data section.
const AFTER: &[u8] = b"\x0B\x04\x01\x01\x01\x78";

// Control, parametric and variable instructions in a body without results, and whether it is well typed.
const CONTROL: [(&[u8], bool); 44] = [
    // unreachable
    (b"\x00", true),
    // unreachable leaves an i32 for ref.is_null
    (b"\x00\x41\x00\xD1\x1A", false),
    // nop
    (b"\x01", true),
    // nop leaves nothing to drop
    (b"\x01\x1A", false),
    // i32.const
    (b"\x41\x00\x21\x00", true),
    // i32.const is no i64
    (b"\x41\x00\x21\x01", false),
    // i64.const
    (b"\x42\x00\x21\x01", true),
    // i64.const is no i32
    (b"\x42\x00\x21\x00", false),
    // block
    (b"\x02\x7F\x20\x00\x0B\x1A", true),
    // block leaves too much
    (b"\x02\x40\x20\x00\x0B", false),
    // block takes parameters
    (b"\x20\x00\x02\x01\x1A\x20\x01\x0B\x1A", true),
    // block of an unknown type
    (b"\x02\x09\x0B", false),
    // loop
    (b"\x20\x00\x03\x01\x0C\x00\x0B\x1A", true),
    // a loop label takes its parameters
    (b"\x03\x7F\x20\x00\x0C\x00\x1A\x0B\x1A", true),
    // a loop label does not take its results
    (b"\x20\x00\x03\x01\x1A\x20\x01\x0C\x00\x0B\x1A", false),
    // if
    (b"\x20\x00\x04\x7F\x20\x00\x05\x20\x00\x0B\x1A", true),
    // if with two unlike arms
    (b"\x20\x00\x04\x7F\x20\x00\x05\x20\x01\x0B\x1A", false),
    // if without else of [i32] to [i64]
    (b"\x20\x00\x20\x00\x04\x01\x1A\x20\x01\x0B\x1A", false),
    // if without else
    (b"\x20\x00\x04\x40\x0B", true),
    // if without its condition
    (b"\x04\x40\x0B", false),
    // br
    (b"\x0C\x00", true),
    // br to no label
    (b"\x0C\x01", false),
    // br_if
    (b"\x02\x7F\x20\x00\x20\x00\x0D\x00\x0B\x1A", true),
    // br_if with too few operands
    (b"\x02\x7F\x20\x00\x0D\x00\x20\x00\x0B\x1A", false),
    // br_table
    (b"\x20\x00\x0E\x01\x00\x00", true),
    // br_table with labels of two lengths
    (b"\x02\x7F\x20\x00\x20\x00\x0E\x01\x00\x01\x0B\x1A", false),
    // return
    (b"\x0F", true),
    // return leaves i64 for i32.eqz
    (b"\x0F\x20\x01\x45\x1A", false),
    // call
    (b"\x20\x00\x10\x01\x1A", true),
    // call with an i64
    (b"\x20\x01\x10\x01\x1A", false),
    // call_indirect
    (b"\x20\x00\x20\x00\x11\x01\x00\x1A", true),
    // call_indirect on externref
    (b"\x20\x00\x20\x00\x11\x01\x01\x1A", false),
    // drop
    (b"\x20\x03\x1A", true),
    // drop nothing
    (b"\x1A", false),
    // select
    (b"\x20\x01\x20\x01\x20\x00\x1B\x21\x01", true),
    // select of references
    (b"\x20\x02\x20\x02\x20\x00\x1B\x1A", false),
    // select with a type
    (b"\x20\x02\x20\x02\x20\x00\x1C\x01\x70\x21\x02", true),
    // select with two types
    (b"\x20\x00\x20\x00\x20\x00\x1C\x02\x7F\x7F\x1A", false),
    // select with the other type
    (b"\x20\x02\x20\x02\x20\x00\x1C\x01\x6F\x21\x03", false),
    // local.get
    (b"\x20\x03\x1A", true),
    // local.get past the locals
    (b"\x20\x04\x1A", false),
    // local.set
    (b"\x20\x01\x21\x01", true),
    // local.set of another type
    (b"\x20\x01\x21\x00", false),
    // local.tee
    (b"\x20\x01\x22\x01\x1A", true),
];

// Tables, memories, references.
const REFERENCES: [(&[u8], bool); 39] = [
    // local.tee of another type
    (b"\x20\x01\x22\x00\x1A", false),
    // global.get
    (b"\x23\x02\x21\x01", true),
    // global.get past the globals
    (b"\x23\x03\x1A", false),
    // global.set
    (b"\x20\x00\x24\x01", true),
    // global.set of an immutable global
    (b"\x20\x01\x24\x02", false),
    // table.get
    (b"\x20\x00\x25\x01\x21\x03", true),
    // table.get of another type
    (b"\x20\x00\x25\x01\x21\x02", false),
    // table.set
    (b"\x20\x00\x20\x02\x26\x00", true),
    // table.set of another type
    (b"\x20\x00\x20\x03\x26\x00", false),
    // memory.size
    (b"\x3F\x00\x21\x00", true),
    // memory.size is an i32
    (b"\x3F\x00\x21\x01", false),
    // memory.grow
    (b"\x20\x00\x40\x00\x21\x00", true),
    // memory.grow by an i64
    (b"\x20\x01\x40\x00\x1A", false),
    // ref.null
    (b"\xD0\x6F\x21\x03", true),
    // ref.null of the other type
    (b"\xD0\x6F\x21\x02", false),
    // ref.is_null
    (b"\x20\x02\xD1\x21\x00", true),
    // ref.is_null of a number
    (b"\x20\x00\xD1\x21\x00", false),
    // ref.func
    (b"\xD2\x01\x21\x02", true),
    // ref.func of an undeclared function
    (b"\xD2\x00\x21\x02", false),
    // memory.init
    (b"\x20\x00\x20\x00\x20\x00\xFC\x08\x00\x00", true),
    // memory.init of no segment
    (b"\x20\x00\x20\x00\x20\x00\xFC\x08\x01\x00", false),
    // data.drop
    (b"\xFC\x09\x00", true),
    // data.drop of no segment
    (b"\xFC\x09\x01", false),
    // memory.copy
    (b"\x20\x00\x20\x00\x20\x00\xFC\x0A\x00\x00", true),
    // memory.copy with an i64
    (b"\x20\x00\x20\x01\x20\x00\xFC\x0A\x00\x00", false),
    // memory.fill
    (b"\x20\x00\x20\x00\x20\x00\xFC\x0B\x00", true),
    // memory.fill with too few operands
    (b"\x20\x00\x20\x00\xFC\x0B\x00", false),
    // table.init
    (b"\x20\x00\x20\x00\x20\x00\xFC\x0C\x00\x00", true),
    // table.init of another type
    (b"\x20\x00\x20\x00\x20\x00\xFC\x0C\x01\x00", false),
    // elem.drop
    (b"\xFC\x0D\x01", true),
    // elem.drop of no segment
    (b"\xFC\x0D\x02", false),
    // table.copy
    (b"\x20\x00\x20\x00\x20\x00\xFC\x0E\x00\x00", true),
    // table.copy of two types
    (b"\x20\x00\x20\x00\x20\x00\xFC\x0E\x00\x01", false),
    // table.grow
    (b"\x20\x03\x20\x00\xFC\x0F\x01\x21\x00", true),
    // table.grow by another type
    (b"\x20\x02\x20\x00\xFC\x0F\x01\x21\x00", false),
    // table.size
    (b"\xFC\x10\x01\x21\x00", true),
    // table.size of no table
    (b"\xFC\x10\x02\x21\x00", false),
    // table.fill
    (b"\x20\x00\x20\x03\x20\x00\xFC\x11\x01", true),
    // table.fill of another type
    (b"\x20\x00\x20\x02\x20\x00\xFC\x11\x01", false),
];

// Code that is not reached.
const UNREACHABLE: [(&[u8], bool); 18] = [
    // select of two bottoms after unreachable
    (b"\x00\x1B\x1A", true),
    // select of an i64 and an i32 after unreachable
    (b"\x00\x41\x00\x42\x00\x41\x00\x1B\x1A", false),
    // a select of two bottoms is a reference too
    (b"\x00\x1B\xD1\x1A", true),
    // a select with one i32 is an i32
    (b"\x00\x41\x00\x41\x00\x1B\xD1\x1A", false),
    // operands after br
    (b"\x0C\x00\x6A\x1A", true),
    // an i64 after br for i32.add
    (b"\x0C\x00\x42\x00\x6A\x1A", false),
    // operands after return
    (b"\x0F\x6A\x1A", true),
    // operands after br_table
    (b"\x20\x00\x0E\x00\x00\x6A\x1A", true),
    // an operand is left over after unreachable
    (b"\x00\x41\x00", false),
    // in a block with parameters, unreachable, then its result
    (b"\x20\x00\x02\x01\x00\x0B\x1A", true),
    // in a block with parameters, unreachable, then another result
    (b"\x20\x00\x02\x01\x00\x41\x00\x0B\x1A", false),
    // code after a block that ends unreachable is reachable
    (b"\x02\x40\x00\x0B\x1A", false),
    // br_table after unreachable over labels of two types
    (
        b"\x02\x7F\x02\x7E\x00\x0E\x01\x00\x01\x0B\x1A\x41\x00\x0B\x1A",
        true,
    ),
    // br_table after unreachable with an i32 for labels of two types
    (
        b"\x02\x7F\x02\x7E\x00\x41\x00\x41\x00\x0E\x01\x00\x01\x0B\x1A\x41\x00\x0B\x1A",
        false,
    ),
    // br_table after unreachable over labels of two lengths
    (b"\x02\x7F\x00\x0E\x01\x00\x01\x0B\x1A", false),
    // br_if after unreachable leaves its label's types
    (b"\x02\x7F\x00\x0D\x00\xD1\x0B\x1A", false),
    // several results
    (b"\x20\x01\x02\x03\x20\x00\x0B\x21\x00\x21\x01", true),
    // labels that are named again
    (b"\x20\x00\x0E\x03\x00\x00\x00\x00", true),
];

// For each integer operation its opcode, the local of its operands, their number and the local of its result.
const OPERATIONS: [(u8, u8, usize, u8); 66] = [
    (0x45, 0, 1, 0),
    (0x46, 0, 2, 0),
    (0x47, 0, 2, 0),
    (0x48, 0, 2, 0),
    (0x49, 0, 2, 0),
    (0x4A, 0, 2, 0),
    (0x4B, 0, 2, 0),
    (0x4C, 0, 2, 0),
    (0x4D, 0, 2, 0),
    (0x4E, 0, 2, 0),
    (0x4F, 0, 2, 0),
    (0x50, 1, 1, 0),
    (0x51, 1, 2, 0),
    (0x52, 1, 2, 0),
    (0x53, 1, 2, 0),
    (0x54, 1, 2, 0),
    (0x55, 1, 2, 0),
    (0x56, 1, 2, 0),
    (0x57, 1, 2, 0),
    (0x58, 1, 2, 0),
    (0x59, 1, 2, 0),
    (0x5A, 1, 2, 0),
    (0x67, 0, 1, 0),
    (0x68, 0, 1, 0),
    (0x69, 0, 1, 0),
    (0x6A, 0, 2, 0),
    (0x6B, 0, 2, 0),
    (0x6C, 0, 2, 0),
    (0x6D, 0, 2, 0),
    (0x6E, 0, 2, 0),
    (0x6F, 0, 2, 0),
    (0x70, 0, 2, 0),
    (0x71, 0, 2, 0),
    (0x72, 0, 2, 0),
    (0x73, 0, 2, 0),
    (0x74, 0, 2, 0),
    (0x75, 0, 2, 0),
    (0x76, 0, 2, 0),
    (0x77, 0, 2, 0),
    (0x78, 0, 2, 0),
    (0x79, 1, 1, 1),
    (0x7A, 1, 1, 1),
    (0x7B, 1, 1, 1),
    (0x7C, 1, 2, 1),
    (0x7D, 1, 2, 1),
    (0x7E, 1, 2, 1),
    (0x7F, 1, 2, 1),
    (0x80, 1, 2, 1),
    (0x81, 1, 2, 1),
    (0x82, 1, 2, 1),
    (0x83, 1, 2, 1),
    (0x84, 1, 2, 1),
    (0x85, 1, 2, 1),
    (0x86, 1, 2, 1),
    (0x87, 1, 2, 1),
    (0x88, 1, 2, 1),
    (0x89, 1, 2, 1),
    (0x8A, 1, 2, 1),
    (0xA7, 1, 1, 0),
    (0xAC, 0, 1, 1),
    (0xAD, 0, 1, 1),
    (0xC0, 0, 1, 0),
    (0xC1, 0, 1, 0),
    (0xC2, 1, 1, 1),
    (0xC3, 1, 1, 1),
    (0xC4, 1, 1, 1),
];

// For each load its opcode, the local of its result and its greatest alignment.
const LOADS: [(u8, u8, u8); 12] = [
    (0x28, 0, 2),
    (0x29, 1, 3),
    (0x2C, 0, 0),
    (0x2D, 0, 0),
    (0x2E, 0, 1),
    (0x2F, 0, 1),
    (0x30, 1, 0),
    (0x31, 1, 0),
    (0x32, 1, 1),
    (0x33, 1, 1),
    (0x34, 1, 2),
    (0x35, 1, 2),
];

// For each store its opcode, the local of its value and its greatest alignment.
const STORES: [(u8, u8, u8); 7] = [
    (0x36, 0, 2),
    (0x37, 1, 3),
    (0x3A, 0, 0),
    (0x3B, 0, 1),
    (0x3C, 1, 0),
    (0x3D, 1, 1),
    (0x3E, 1, 2),
];

// Sections, and the first invalid item.
const ITEMS: [(&[u8], Option<(ItemKind, u32)>); 29] = [
    // nothing
    (b"", None),
    // an import of an unknown type
    (
        b"\x01\x04\x01\x60\x00\x00\x02\x0D\x02\x01\x6D\x01\x66\x00\x00\x01\x6D\x01\x67\x00\x01",
        Some((ItemKind::Import, 1)),
    ),
    // an import of a memory of 65,537 pages
    (
        b"\x02\x0A\x01\x01\x6D\x01\x6D\x02\x00\x81\x80\x04",
        Some((ItemKind::Import, 0)),
    ),
    // an import of a table with its limits in the wrong order
    (
        b"\x02\x0A\x01\x01\x6D\x01\x74\x01\x70\x01\x02\x01",
        Some((ItemKind::Import, 0)),
    ),
    // two memories
    (
        b"\x02\x08\x01\x01\x6D\x01\x6D\x02\x00\x01\x05\x03\x01\x00\x01",
        Some((ItemKind::Memories, 2)),
    ),
    // the number of memories before a bad defined memory
    (
        b"\x05\x06\x02\x00\x01\x01\x02\x01",
        Some((ItemKind::Memories, 2)),
    ),
    // a function of an unknown type, behind an imported one
    (
        b"\x01\x04\x01\x60\x00\x00\x02\x07\x01\x01\x6D\x01\x66\x00\x00\x03\x02\x01\x01\x0A\x04\x01\x02\x00\x0B",
        Some((ItemKind::Func, 1)),
    ),
    // a table with its limits in the wrong order
    (
        b"\x04\x08\x02\x70\x00\x01\x70\x01\x02\x01",
        Some((ItemKind::Table, 1)),
    ),
    // the greatest table
    (b"\x04\x08\x01\x70\x00\xFF\xFF\xFF\xFF\x0F", None),
    // a memory of at most 65,537 pages
    (
        b"\x05\x06\x01\x01\x01\x81\x80\x04",
        Some((ItemKind::Memory, 0)),
    ),
    // a memory of 65,536 pages
    (b"\x05\x05\x01\x00\x80\x80\x04", None),
    // a global of another type
    (
        b"\x06\x0B\x02\x7F\x00\x41\x00\x0B\x7E\x00\x41\x00\x0B",
        Some((ItemKind::Global, 1)),
    ),
    // a constant of a defined global
    (
        b"\x06\x0B\x02\x7F\x00\x41\x00\x0B\x7F\x00\x23\x00\x0B",
        Some((ItemKind::Global, 1)),
    ),
    // a constant of a mutable imported global
    (
        b"\x02\x08\x01\x01\x6D\x01\x67\x03\x7F\x01\x06\x06\x01\x7F\x00\x23\x00\x0B",
        Some((ItemKind::Global, 1)),
    ),
    // a constant of an imported global
    (
        b"\x02\x08\x01\x01\x6D\x01\x67\x03\x7F\x00\x06\x06\x01\x7F\x00\x23\x00\x0B",
        None,
    ),
    // an export past its space
    (
        b"\x01\x04\x01\x60\x00\x00\x03\x02\x01\x00\x07\x09\x02\x01\x61\x00\x00\x01\x62\x00\x01\x0A\x04\x01\x02\x00\x0B",
        Some((ItemKind::Export, 1)),
    ),
    // an export name twice
    (
        b"\x01\x04\x01\x60\x00\x00\x03\x02\x01\x00\x07\x0D\x03\x01\x61\x00\x00\x01\x62\x00\x00\x01\x61\x00\x00\x0A\x04\x01\x02\x00\x0B",
        Some((ItemKind::Export, 2)),
    ),
    // a start with a result
    (
        b"\x01\x08\x02\x60\x00\x00\x60\x00\x01\x7F\x03\x02\x01\x01\x08\x01\x00\x0A\x06\x01\x04\x00\x41\x00\x0B",
        Some((ItemKind::Start, 0)),
    ),
    // a start past the functions
    (b"\x08\x01\x00", Some((ItemKind::Start, 0))),
    // an element segment without its table
    (
        b"\x09\x06\x01\x00\x41\x00\x0B\x00",
        Some((ItemKind::Elem, 0)),
    ),
    // an element segment of another type than its table
    (
        b"\x04\x04\x01\x6F\x00\x01\x09\x06\x01\x00\x41\x00\x0B\x00",
        Some((ItemKind::Elem, 0)),
    ),
    // an element segment of an unknown function
    (
        b"\x09\x08\x02\x01\x00\x00\x01\x00\x01\x00",
        Some((ItemKind::Elem, 1)),
    ),
    // an element segment with an i64 offset
    (
        b"\x04\x04\x01\x70\x00\x01\x09\x06\x01\x00\x42\x00\x0B\x00",
        Some((ItemKind::Elem, 0)),
    ),
    // a data segment without its memory
    (
        b"\x0B\x08\x02\x01\x00\x00\x41\x00\x0B\x00",
        Some((ItemKind::Segment, 1)),
    ),
    // a data segment with an i64 offset
    (
        b"\x05\x03\x01\x00\x01\x0B\x06\x01\x00\x42\x00\x0B\x00",
        Some((ItemKind::Segment, 0)),
    ),
    // a body that leaves no result, behind an imported function
    (
        b"\x01\x08\x02\x60\x00\x00\x60\x00\x01\x7F\x02\x07\x01\x01\x6D\x01\x66\x00\x00\x03\x03\x02\x00\x01\x0A\x07\x02\x02\x00\x0B\x02\x00\x0B",
        Some((ItemKind::Body, 2)),
    ),
    // a bad start before a bad body
    (
        b"\x01\x08\x02\x60\x00\x00\x60\x00\x01\x7F\x03\x02\x01\x01\x08\x01\x00\x0A\x04\x01\x02\x00\x0B",
        Some((ItemKind::Start, 0)),
    ),
    // select after unreachable
    (
        b"\x01\x04\x01\x60\x00\x00\x03\x02\x01\x00\x0A\x07\x01\x05\x00\x00\x1B\x1A\x0B",
        None,
    ),
    // an i32 and an i64 after unreachable
    (
        b"\x01\x04\x01\x60\x00\x00\x03\x02\x01\x00\x0A\x0D\x01\x0B\x00\x00\x41\x00\x42\x00\x41\x00\x1B\x1A\x0B",
        Some((ItemKind::Body, 0)),
    ),
];

// The first item that does not hold, if one does not.
fn invalid_item(validated: &Result<Valid, Rejected>) -> Result<Option<Invalid>, Fail> {
    match validated {
        Ok(_) => Ok(None),
        Err(Rejected::Invalid(_, invalid)) => Ok(Some(*invalid)),
        Err(Rejected::NoMemory(_)) => Err(Fail::new("no memory")),
    }
}

// The first item of a file that does not hold, if one does not.
fn verdict(alloc: Global, bytes: &[u8]) -> Result<Option<Invalid>, Fail> {
    if bytes.len() >= 0x1_0000_0000 {
        return Err(Fail::new("too long"));
    }
    let validated = validate(alloc, read(alloc, bytes)?);
    let item = invalid_item(&validated);
    drop(validated);
    item
}

// The file whose function 0 has this code.
fn file_of(alloc: Global, code: &[u8]) -> Result<Vec<u8>, Fail> {
    if code.len() > 60 {
        return Err(Fail::new("too long"));
    }
    let entry = code.len() as u8 + 10;
    let mut bytes = Vec::from_slice(alloc, HEADER)?;
    bytes.extend_from_slice(BEFORE)?;
    bytes.extend_from_slice(&[0x0A, entry + 6, 2, entry])?;
    bytes.extend_from_slice(LOCALS)?;
    bytes.extend_from_slice(code)?;
    bytes.extend_from_slice(b"\x0B\x03\x00\x00\x0B")?;
    bytes.extend_from_slice(AFTER)?;
    Ok(bytes)
}

// Whether function 0 with this code is accepted. Nothing else of the file is wrong.
fn is_accepted(alloc: Global, code: &[u8]) -> Result<bool, Fail> {
    let bytes = file_of(alloc, code)?;
    match verdict(alloc, &bytes)? {
        None => Ok(true),
        Some(
            Invalid {
                kind: ItemKind::Body,
                index: 0,
            },
        ) => Ok(false),
        Some(_) => Err(Fail::new("another item")),
    }
}

// The place of the first row whose code is accepted and should not be, or is not and should be, if there is one.
fn first_wrong(alloc: Global, rows: &[(&[u8], bool)]) -> Result<Option<usize>, Fail> {
    for (place, (code, expected)) in rows.iter().enumerate() {
        if is_accepted(alloc, code)? != *expected {
            return Ok(Some(place));
        }
    }
    Ok(None)
}

#[test]
fn control_instructions_fit_their_operands(rt: HostRuntime) -> Result<(), Fail> {
    assert_eq!(rt; first_wrong(rt.alloc(), &CONTROL)?, None);
    Ok(())
}

#[test]
fn instructions_of_references_fit_their_operands(rt: HostRuntime) -> Result<(), Fail> {
    assert_eq!(rt; first_wrong(rt.alloc(), &REFERENCES)?, None);
    Ok(())
}

#[test]
fn unreachable_code_fits_any_operands(rt: HostRuntime) -> Result<(), Fail> {
    assert_eq!(rt; first_wrong(rt.alloc(), &UNREACHABLE)?, None);
    Ok(())
}

// Whether code that applies an operation to so many operands, and keeps its result, is accepted.
fn applies(alloc: Global, opcode: u8, operand: u8, count: usize, target: u8) -> Result<bool, Fail> {
    let mut code = Vec::new(alloc);
    for _ in 0..count {
        code.extend_from_slice(&[0x20, operand])?;
    }
    code.extend_from_slice(&[opcode, 0x21, target])?;
    is_accepted(alloc, &code)
}

// The i64 local for the i32 local, and back.
fn other(local: u8) -> u8 {
    if local == 0 { 1 } else { 0 }
}

#[test]
fn operations_have_their_types(rt: HostRuntime) -> Result<(), Fail> {
    let alloc = rt.alloc();
    for (opcode, operand, count, target) in &OPERATIONS {
        let right = applies(alloc, *opcode, *operand, *count, *target)?;
        let operands = applies(alloc, *opcode, other(*operand), *count, *target)?;
        let result = applies(alloc, *opcode, *operand, *count, other(*target))?;
        assert_eq!(rt; (right, operands, result), (true, false, false), "{opcode}");
    }
    Ok(())
}

// The first alignment below 7 with which a load is accepted and should not be, or is not and should be, if there is one.
fn misaligned_load(alloc: Global, opcode: u8, local: u8, most: u8) -> Result<Option<u8>, Fail> {
    for align in 0..7 {
        let code = [0x20, 0, opcode, align, 0, 0x21, local];
        if is_accepted(alloc, &code)? != (align <= most) {
            return Ok(Some(align));
        }
    }
    Ok(None)
}

// The same of a store.
fn misaligned_store(alloc: Global, opcode: u8, local: u8, most: u8) -> Result<Option<u8>, Fail> {
    for align in 0..7 {
        let code = [0x20, 0, 0x20, local, opcode, align, 0];
        if is_accepted(alloc, &code)? != (align <= most) {
            return Ok(Some(align));
        }
    }
    Ok(None)
}

#[test]
fn loads_have_their_types_and_alignments(rt: HostRuntime) -> Result<(), Fail> {
    let alloc = rt.alloc();
    for (opcode, local, most) in &LOADS {
        assert_eq!(rt;
            misaligned_load(alloc, *opcode, *local, *most)?,
            None,
            "{opcode}"
        );
        let code = [0x20, 0, *opcode, 0, 0, 0x21, other(*local)];
        assert!(rt; !is_accepted(alloc, &code)?, "{opcode}");
    }
    Ok(())
}

#[test]
fn stores_have_their_types_and_alignments(rt: HostRuntime) -> Result<(), Fail> {
    let alloc = rt.alloc();
    for (opcode, local, most) in &STORES {
        assert_eq!(rt;
            misaligned_store(alloc, *opcode, *local, *most)?,
            None,
            "{opcode}"
        );
        let code = [0x20, 0, 0x20, other(*local), *opcode, 0, 0];
        assert!(rt; !is_accepted(alloc, &code)?, "{opcode}");
    }
    Ok(())
}

// The kind and the place of the first item of these sections that does not hold, if one does not.
fn first_item(alloc: Global, sections: &[u8]) -> Result<Option<(ItemKind, u32)>, Fail> {
    let mut bytes = Vec::from_slice(alloc, HEADER)?;
    bytes.extend_from_slice(sections)?;
    match verdict(alloc, &bytes)? {
        Some(invalid) => Ok(Some((invalid.kind, invalid.index))),
        None => Ok(None),
    }
}

// The place of the first row for which another item is named, if there is one.
fn first_other_item(alloc: Global) -> Result<Option<usize>, Fail> {
    for (place, (sections, expected)) in ITEMS.iter().enumerate() {
        if first_item(alloc, sections)? != *expected {
            return Ok(Some(place));
        }
    }
    Ok(None)
}

#[test]
fn the_first_item_that_does_not_hold_is_named(rt: HostRuntime) -> Result<(), Fail> {
    assert_eq!(rt; first_other_item(rt.alloc())?, None);
    Ok(())
}
