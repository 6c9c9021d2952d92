use crate::body_cases::{BODIES, ORDER, SMALL, TOKENS};
use crate::section_cases::{LIMITS, SECTIONS, SEGMENTS};
use std::alloc::Global;
use std::test::Fail;
use wasm_bytes::Out;
use wasm_read::{ReadFault, read};
use wasm_tree::{ConstExpr, ExportDesc, Instr, Module, Which};

const HEADER: &[u8] = b"\x00\x61\x73\x6D\x01\x00\x00\x00";

/// What `read` answers for the header and these sections: its refusal, or none.
fn refusal(alloc: Global, sections: &[u8]) -> Result<Option<ReadFault>, Fail> {
    let mut bytes = Vec::new(alloc);
    bytes.extend_from_slice(HEADER)?;
    bytes.extend_from_slice(sections)?;
    if bytes.len() >= 0x1_0000_0000 {
        return Ok(Some(ReadFault::NoMemory));
    }
    Ok(read(alloc, &bytes).err())
}

/// A file after its header, and what `read` answers for it: its refusal, or none.
type Row = (&'static [u8], Option<ReadFault>);

/// The place of the first row whose answer is not the one listed, if there is one.
fn first_wrong(alloc: Global, rows: &[Row]) -> Result<Option<usize>, Fail> {
    for (place, (sections, expected)) in rows.iter().enumerate() {
        if refusal(alloc, sections)? != *expected {
            return Ok(Some(place));
        }
    }
    Ok(None)
}

const NO_MODULES: [&[u8]; 6] = [
    b"",
    b"\x00\x61\x73\x6D\x01\x00\x00",
    b"\x00\x61\x73\x6D\x02\x00\x00\x00",
    b"\x7F\x45\x4C\x46\x01\x00\x00\x00",
    b"\x00\x61\x73\x6D\x0D\x00\x01\x00\x01\x03\xC1\x84\x3D",
    // a bad header, and then a frame with a bad number
    b"\x00\x61\x73\x6D\x02\x00\x00\x00\x0D\x01\x00",
];

/// First and last opcodes of operations, and of opcodes that are known but outside the integer profile.
const OPERATIONS: [(u8, u8); 5] = [
    (0x45, 0x5A),
    (0x67, 0x8A),
    (0xA7, 0xA7),
    (0xAC, 0xAD),
    (0xC0, 0xC4),
];

const UNSUPPORTED: [(u8, u8); 8] = [
    (0x2A, 0x2B),
    (0x38, 0x39),
    (0x43, 0x44),
    (0x5B, 0x66),
    (0x8B, 0xA6),
    (0xA8, 0xAB),
    (0xAE, 0xBF),
    (0xFD, 0xFD),
];

const UNKNOWN: [u8; 14] = [
    0x06, 0x0A, 0x12, 0x19, 0x1D, 0x1F, 0x27, 0xC5, 0xCF, 0xD3, 0xE0, 0xFB, 0xFE, 0xFF,
];

/// What `read` answers for a module with one function that has this body, without a local: its refusal, or none.
fn body_refusal(alloc: Global, body: &[u8]) -> Result<Option<ReadFault>, Fail> {
    let mut entry = Out::new(alloc);
    entry.u32(0)?;
    entry.bytes(body)?;
    if entry.len() >= 0x1_0000_0000 {
        return Ok(Some(ReadFault::NoMemory));
    }
    let mut codes = Out::new(alloc);
    codes.u32(1)?;
    codes.u32(entry.len() as u32)?;
    codes.bytes(entry.as_slice())?;
    if codes.len() >= 0x1_0000_0000 {
        return Ok(Some(ReadFault::NoMemory));
    }
    let mut sections = Out::new(alloc);
    sections.bytes(b"\x01\x04\x01\x60\x00\x00\x03\x02\x01\x00\x0C\x01\x00")?;
    sections.framed(10, &codes)?;
    refusal(alloc, sections.as_slice())
}

#[test]
fn each_section_is_read(rt: HostRuntime) -> Result<(), Fail> {
    assert_eq!(rt; first_wrong(rt.alloc(), &SECTIONS)?, None);
    Ok(())
}

#[test]
fn each_form_of_segment_is_read(rt: HostRuntime) -> Result<(), Fail> {
    assert_eq!(rt; first_wrong(rt.alloc(), &SEGMENTS)?, None);
    Ok(())
}

#[test]
fn each_limit_is_kept_at_its_number(rt: HostRuntime) -> Result<(), Fail> {
    assert_eq!(rt; first_wrong(rt.alloc(), &LIMITS)?, None);
    Ok(())
}

#[test]
fn bodies_are_read(rt: HostRuntime) -> Result<(), Fail> {
    assert_eq!(rt; first_wrong(rt.alloc(), &BODIES)?, None);
    Ok(())
}

#[test]
fn the_first_fault_is_answered(rt: HostRuntime) -> Result<(), Fail> {
    assert_eq!(rt; first_wrong(rt.alloc(), &ORDER)?, None);
    Ok(())
}

#[test]
fn small_changes_are_answered(rt: HostRuntime) -> Result<(), Fail> {
    assert_eq!(rt; first_wrong(rt.alloc(), &SMALL)?, None);
    Ok(())
}

#[test]
fn other_files_are_no_modules(rt: HostRuntime) -> Result<(), Fail> {
    for bytes in NO_MODULES {
        assert!(rt; bytes.len() < 0x1_0000_0000);
        assert_eq!(rt; read(rt.alloc(), bytes).err(), Some(ReadFault::NotModule));
    }
    Ok(())
}

/// Whether a token is read if an end follows it, and is refused if none does, whole or without its last byte.
fn is_token(alloc: Global, token: &[u8]) -> Result<bool, Fail> {
    let cut = Some(ReadFault::MalformedBody { func: 0 });
    if body_refusal(alloc, token)? != cut {
        return Ok(false);
    }
    if let Some((_, front)) = token.split_last() {
        if body_refusal(alloc, front)? != cut {
            return Ok(false);
        }
    }
    let mut body = Out::new(alloc);
    body.bytes(token)?;
    body.byte(0x0B)?;
    Ok(body_refusal(alloc, body.as_slice())? == None)
}

#[test]
fn each_token_is_read(rt: HostRuntime) -> Result<(), Fail> {
    for token in &TOKENS {
        assert!(rt; is_token(rt.alloc(), token)?, "{token:?}");
    }
    Ok(())
}

/// The first opcode of a range, both its bounds included, for which `read` does not give the expected refusal, if there is one. The body is the opcode alone or, with `ends`, the opcode and an end.
fn first_unlike(
    alloc: Global,
    (first, last): (u8, u8),
    ends: bool,
    expected: Option<ReadFault>,
) -> Result<Option<u8>, Fail> {
    for opcode in first..=last {
        let body = [opcode, 0x0B];
        let count = if ends { 2 } else { 1 };
        if body_refusal(alloc, &body[..count])? != expected {
            return Ok(Some(opcode));
        }
    }
    Ok(None)
}

const OUTSIDE: Option<ReadFault> = Some(ReadFault::Unsupported {
    section: 3,
    func: Some(0),
});

#[test]
fn each_opcode_is_known_or_not(rt: HostRuntime) -> Result<(), Fail> {
    for range in OPERATIONS {
        assert_eq!(rt; first_unlike(rt.alloc(), range, true, None)?, None);
    }
    for range in UNSUPPORTED {
        assert_eq!(rt; first_unlike(rt.alloc(), range, false, OUTSIDE)?, None);
    }
    let unknown = Some(ReadFault::MalformedBody { func: 0 });
    for opcode in UNKNOWN {
        assert_eq!(rt;
            first_unlike(rt.alloc(), (opcode, opcode), true, unknown)?,
            None
        );
    }
    Ok(())
}

#[test]
fn conversions_that_saturate_are_unsupported(rt: HostRuntime) -> Result<(), Fail> {
    for number in 0..=7 {
        assert_eq!(rt;
            body_refusal(rt.alloc(), &[0xFC, number])?,
            OUTSIDE,
            "{number}"
        );
    }
    Ok(())
}

/// So many nested blocks and their ends, and then this byte.
fn nested(alloc: Global, depth: u32, last: u8) -> Result<Out, Fail> {
    let mut body = Out::new(alloc);
    for _ in 0..depth {
        body.bytes(b"\x02\x40")?;
    }
    for _ in 0..depth {
        body.byte(0x0B)?;
    }
    body.byte(last)?;
    Ok(body)
}

/// How many blocks, the byte after their ends, and the answer: the limit comes before a byte that is no opcode.
const NESTED: [(u32, u8, Option<ReadFault>); 4] = [
    (1000, 0x0B, None),
    (
        1001,
        0x0B,
        Some(ReadFault::Limit {
            which: Which::Nesting,
        }),
    ),
    (1000, 0xFF, Some(ReadFault::MalformedBody { func: 0 })),
    (
        1001,
        0xFF,
        Some(ReadFault::Limit {
            which: Which::Nesting,
        }),
    ),
];

#[test]
fn a_thousand_blocks_may_be_open_at_once(rt: HostRuntime) -> Result<(), Fail> {
    for (depth, last, expected) in NESTED {
        let body = nested(rt.alloc(), depth, last)?;
        assert_eq!(rt; body_refusal(rt.alloc(), body.as_slice())?, expected);
    }
    Ok(())
}

// A function of type [] to [i32] that is exported as `f`, and an element segment that lists it.
const TREE: &[u8] =
    b"\x00\x61\x73\x6D\x01\x00\x00\x00\x01\x05\x01\x60\x00\x01\x7F\x03\x02\x01\x00\x07\x05\x01\x01\x66\x00\x00\x09\x07\x01\x00\x41\x02\x0B\x01\x00\x0A\x06\x01\x04\x00\x41\x07\x0B";

// Whether the module has one function, of type 0, whose body is `i32.const 7`.
fn has_function(module: &Module) -> bool {
    match module.funcs.get(0) {
        Some(func) => {
            module.funcs.len() == 1
                && func.ty == 0
                && matches!(func.body.as_slice(), [Instr::I32Const(7)])
        }
        None => false,
    }
}

fn has_export(module: &Module) -> bool {
    match module.exports.get(0) {
        Some(export) => {
            module.exports.len() == 1
                && export.name.as_str() == "f"
                && export.desc == ExportDesc::Func(0)
        }
        None => false,
    }
}

fn has_segment(module: &Module) -> bool {
    match module.elems.get(0) {
        Some(elem) => {
            module.elems.len() == 1 && matches!(elem.items.as_slice(), [ConstExpr::Func(0)])
        }
        None => false,
    }
}

// Names the first part of a module that is not as that file has it. If all are, the name is empty.
fn unlike_tree(module: &Module) -> &'static str {
    if module.types.len() != 1 {
        return "the types";
    }
    if !has_function(module) {
        return "the function";
    }
    if !has_export(module) {
        return "the export";
    }
    if !has_segment(module) {
        return "the element segment";
    }
    ""
}

fn tree_unlike(alloc: Global) -> Result<&'static str, ReadFault> {
    let module = read(alloc, TREE)?;
    Ok(unlike_tree(&module))
}

#[test]
fn the_tree_has_what_the_sections_hold(rt: HostRuntime) -> Result<(), Fail> {
    assert_eq!(rt; tree_unlike(rt.alloc()), Ok(""));
    Ok(())
}

// A module of two functions of type [] to [], up to the instructions of the first, which are 4,096 bytes; and what comes after these: its end, and the second function, `nop`.
const LONG: &[u8] =
    b"\x00\x61\x73\x6D\x01\x00\x00\x00\x01\x04\x01\x60\x00\x00\x03\x03\x02\x00\x00\x0A\x89\x20\x02\x82\x20\x00";

const SHORT: &[u8] = b"\x0B\x03\x00\x01\x0B";

fn body_length(module: &Module, func: usize) -> Option<usize> {
    Some(module.funcs.get(func)?.body.len())
}

// How many instructions the two functions have, of which the first has 4,096 `nop`.
fn lengths(alloc: Global) -> Result<[Option<usize>; 2], Fail> {
    let mut bytes = Out::new(alloc);
    bytes.bytes(LONG)?;
    for _ in 0..4_096 {
        bytes.byte(0x01)?;
    }
    bytes.bytes(SHORT)?;
    if bytes.len() >= 0x1_0000_0000 {
        return Ok([None, None]);
    }
    match read(alloc, bytes.as_slice()) {
        Ok(module) => Ok([body_length(&module, 0), body_length(&module, 1)]),
        Err(_) => Ok([None, None]),
    }
}

#[test]
fn a_long_body_is_read_and_the_one_after_it(rt: HostRuntime) -> Result<(), Fail> {
    assert_eq!(rt; lengths(rt.alloc())?, [Some(4_096), Some(1)]);
    Ok(())
}
