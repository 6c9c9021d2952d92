// Files without their header, and what the reader refuses of them: their sections, segments and counts.

use wasm_read::ReadFault;
use wasm_tree::Which;

pub const SECTIONS: [(&[u8], Option<ReadFault>); 41] = [
    (b"", None),
    (b"\x00\x06\x04\x6E\x61\x6D\x65\xFF", None),
    (b"\x00\x00", Some(ReadFault::Malformed { section: 0 })),
    (
        b"\x00\x02\x01\xFF",
        Some(ReadFault::Malformed { section: 0 }),
    ),
    (
        b"\x00\x02\x02\x61",
        Some(ReadFault::Malformed { section: 0 }),
    ),
    (
        b"\x01\x0B\x02\x60\x02\x7F\x7E\x02\x70\x6F\x60\x00\x00",
        None,
    ),
    (b"\x01\x05\x81\x00\x60\x00\x00", None),
    (
        b"\x01\x04\x01\x61\x00\x00",
        Some(ReadFault::Malformed { section: 0 }),
    ),
    (
        b"\x01\x05\x01\x60\x01\x40\x00",
        Some(ReadFault::Malformed { section: 0 }),
    ),
    (
        b"\x01\x05\x01\x60\x01\x7D\x00",
        Some(ReadFault::Unsupported {
            section: 0,
            func: None,
        }),
    ),
    (
        b"\x01\x05\x01\x60\x00\x01\x7C",
        Some(ReadFault::Unsupported {
            section: 0,
            func: None,
        }),
    ),
    (
        b"\x01\x05\x01\x60\x00\x01\x7B",
        Some(ReadFault::Unsupported {
            section: 0,
            func: None,
        }),
    ),
    (
        b"\x02\x1C\x04\x01\x61\x01\x62\x00\x05\x00\x00\x01\x70\x00\x01\x01\x61\x01\x62\x02\x01\x01\x02\x01\x61\x01\x62\x03\x7E\x01",
        None,
    ),
    (
        b"\x02\x07\x01\x01\x61\x01\x62\x04\x00",
        Some(ReadFault::Malformed { section: 0 }),
    ),
    (
        b"\x02\x07\x01\x01\xFF\x01\x62\x00\x00",
        Some(ReadFault::Malformed { section: 0 }),
    ),
    (
        b"\x02\x08\x01\x01\x61\x01\x62\x03\x7F\x02",
        Some(ReadFault::Malformed { section: 0 }),
    ),
    (
        b"\x02\x08\x01\x01\x61\x01\x62\x03\x7D\x00",
        Some(ReadFault::Unsupported {
            section: 0,
            func: None,
        }),
    ),
    (
        b"\x02\x09\x01\x01\x61\x01\x62\x01\x7D\x00\x00",
        Some(ReadFault::Malformed { section: 0 }),
    ),
    (
        b"\x01\x04\x01\x60\x00\x00\x03\x02\x01\x00\x0A\x04\x01\x02\x00\x0B",
        None,
    ),
    (
        b"\x01\x04\x01\x60\x00\x00\x03\x02\x01\x80",
        Some(ReadFault::Malformed { section: 1 }),
    ),
    (b"\x04\x08\x02\x70\x00\x05\x6F\x01\x05\x05", None),
    (
        b"\x04\x04\x01\x7F\x00\x05",
        Some(ReadFault::Malformed { section: 0 }),
    ),
    (
        b"\x04\x05\x01\x70\x02\x05\x05",
        Some(ReadFault::Malformed { section: 0 }),
    ),
    (b"\x05\x06\x02\x00\x01\x01\x01\x02", None),
    (
        b"\x05\x03\x01\x02\x01",
        Some(ReadFault::Malformed { section: 0 }),
    ),
    (
        b"\x05\x04\x01\x80\x00\x01",
        Some(ReadFault::Malformed { section: 0 }),
    ),
    (
        b"\x05\x04\x01\x00\x01\x00",
        Some(ReadFault::Malformed { section: 0 }),
    ),
    (
        b"\x06\x1A\x05\x7F\x00\x41\x7F\x0B\x7E\x01\x42\x00\x0B\x70\x00\xD0\x70\x0B\x70\x00\xD2\x05\x0B\x6F\x00\x23\x00\x0B",
        None,
    ),
    (
        b"\x06\x05\x01\x7F\x00\x01\x0B",
        Some(ReadFault::Malformed { section: 0 }),
    ),
    (
        b"\x06\x08\x01\x7F\x00\x41\x00\x41\x00\x0B",
        Some(ReadFault::Malformed { section: 0 }),
    ),
    (
        b"\x06\x06\x01\x7F\x02\x41\x00\x0B",
        Some(ReadFault::Malformed { section: 0 }),
    ),
    (
        b"\x06\x09\x01\x7D\x00\x43\x00\x00\x00\x00\x0B",
        Some(ReadFault::Unsupported {
            section: 0,
            func: None,
        }),
    ),
    (
        b"\x06\x06\x01\x7F\x00\x43\x00\x0B",
        Some(ReadFault::Unsupported {
            section: 0,
            func: None,
        }),
    ),
    (
        b"\x06\x06\x01\x7F\x00\x44\x00\x0B",
        Some(ReadFault::Unsupported {
            section: 0,
            func: None,
        }),
    ),
    (
        b"\x06\x06\x01\x7F\x00\xFD\x00\x0B",
        Some(ReadFault::Unsupported {
            section: 0,
            func: None,
        }),
    ),
    (
        b"\x06\x06\x01\x70\x00\xD0\x7F\x0B",
        Some(ReadFault::Malformed { section: 0 }),
    ),
    (
        b"\x07\x12\x04\x01\x61\x00\x00\x01\x62\x01\x80\x00\x01\x63\x02\x02\x01\x64\x03\x03",
        None,
    ),
    (
        b"\x07\x05\x01\x01\x61\x04\x00",
        Some(ReadFault::Malformed { section: 0 }),
    ),
    (b"\x08\x02\x80\x00", None),
    (
        b"\x08\x02\x00\x00",
        Some(ReadFault::Malformed { section: 0 }),
    ),
    (b"\x08\x00", Some(ReadFault::Malformed { section: 0 })),
];

pub const SEGMENTS: [(&[u8], Option<ReadFault>); 31] = [
    (b"\x09\x09\x01\x00\x41\x00\x0B\x02\x00\x81\x00", None),
    (
        b"\x09\x06\x01\x00\x41\x00\x0B\x01",
        Some(ReadFault::Malformed { section: 0 }),
    ),
    (b"\x09\x05\x01\x01\x00\x01\x00", None),
    (
        b"\x09\x05\x01\x01\x01\x01\x00",
        Some(ReadFault::Malformed { section: 0 }),
    ),
    (b"\x09\x09\x01\x02\x03\x41\x00\x0B\x00\x01\x00", None),
    (
        b"\x09\x09\x01\x02\x03\x41\x00\x0B\x01\x01\x00",
        Some(ReadFault::Malformed { section: 0 }),
    ),
    (b"\x09\x05\x01\x03\x00\x01\x00", None),
    (
        b"\x09\x05\x01\x03\x70\x01\x00",
        Some(ReadFault::Malformed { section: 0 }),
    ),
    (b"\x09\x09\x01\x04\x41\x00\x0B\x01\xD2\x00\x0B", None),
    (
        b"\x09\x07\x01\x04\x41\x00\x0B\x01\x00",
        Some(ReadFault::Malformed { section: 0 }),
    ),
    (b"\x09\x07\x01\x05\x6F\x01\xD0\x6F\x0B", None),
    (
        b"\x09\x04\x01\x05\x7F\x00",
        Some(ReadFault::Malformed { section: 0 }),
    ),
    (
        b"\x09\x0B\x01\x06\x01\x41\x00\x0B\x70\x01\x23\x00\x0B",
        None,
    ),
    (
        b"\x09\x08\x01\x06\x01\x41\x00\x0B\x7F\x00",
        Some(ReadFault::Malformed { section: 0 }),
    ),
    (b"\x09\x07\x01\x07\x70\x01\xD2\x00\x0B", None),
    (
        b"\x09\x06\x01\x07\x70\x01\xD2\x00",
        Some(ReadFault::Malformed { section: 0 }),
    ),
    (b"\x09\x07\x01\x80\x00\x41\x00\x0B\x00", None),
    (
        b"\x09\x03\x01\x08\x00",
        Some(ReadFault::Malformed { section: 0 }),
    ),
    (
        b"\x09\x0A\x01\x05\x70\x01\x43\x00\x00\x00\x00\x0B",
        Some(ReadFault::Unsupported {
            section: 0,
            func: None,
        }),
    ),
    (
        b"\x09\x06\x01\x00\x44\x00\x0B\x00",
        Some(ReadFault::Unsupported {
            section: 0,
            func: None,
        }),
    ),
    (b"\x0B\x08\x01\x00\x41\x00\x0B\x02\x68\x69", None),
    (
        b"\x0B\x07\x01\x00\x41\x00\x0B\x03\x68",
        Some(ReadFault::Malformed { section: 0 }),
    ),
    (b"\x0B\x05\x01\x01\x02\x68\x69", None),
    (
        b"\x0B\x05\x01\x01\x03\x68\x69",
        Some(ReadFault::Malformed { section: 0 }),
    ),
    (b"\x0B\x07\x01\x02\x01\x41\x00\x0B\x00", None),
    (
        b"\x0B\x07\x01\x02\x01\x41\x00\x0C\x00",
        Some(ReadFault::Malformed { section: 0 }),
    ),
    (
        b"\x0B\x03\x01\x03\x00",
        Some(ReadFault::Malformed { section: 0 }),
    ),
    (b"\x0B\x04\x01\x81\x00\x00", None),
    (b"\x0C\x01\x01\x0B\x03\x01\x01\x00", None),
    (b"\x0C\x01\x00", None),
    (b"\x0C\x01\x80", Some(ReadFault::Malformed { section: 0 })),
];

pub const LIMITS: [(&[u8], Option<ReadFault>); 32] = [
    (
        b"\x01\x03\xC0\x84\x3D",
        Some(ReadFault::Malformed { section: 0 }),
    ),
    (
        b"\x01\x03\xC1\x84\x3D",
        Some(ReadFault::Limit {
            which: Which::Types,
        }),
    ),
    (
        b"\x02\x03\xC0\x84\x3D",
        Some(ReadFault::Malformed { section: 0 }),
    ),
    (
        b"\x02\x03\xC1\x84\x3D",
        Some(ReadFault::Limit {
            which: Which::Imports,
        }),
    ),
    (
        b"\x03\x03\xC0\x84\x3D",
        Some(ReadFault::Malformed { section: 0 }),
    ),
    (
        b"\x03\x03\xC1\x84\x3D",
        Some(ReadFault::Limit {
            which: Which::Functions,
        }),
    ),
    (
        b"\x04\x02\x90\x4E",
        Some(ReadFault::Malformed { section: 0 }),
    ),
    (
        b"\x04\x02\x91\x4E",
        Some(ReadFault::Limit {
            which: Which::Tables,
        }),
    ),
    (
        b"\x05\x02\x90\x4E",
        Some(ReadFault::Malformed { section: 0 }),
    ),
    (
        b"\x05\x02\x91\x4E",
        Some(ReadFault::Limit {
            which: Which::Memories,
        }),
    ),
    (
        b"\x06\x03\xC0\x84\x3D",
        Some(ReadFault::Malformed { section: 0 }),
    ),
    (
        b"\x06\x03\xC1\x84\x3D",
        Some(ReadFault::Limit {
            which: Which::Globals,
        }),
    ),
    (
        b"\x07\x03\xC0\x84\x3D",
        Some(ReadFault::Malformed { section: 0 }),
    ),
    (
        b"\x07\x03\xC1\x84\x3D",
        Some(ReadFault::Limit {
            which: Which::Exports,
        }),
    ),
    (
        b"\x09\x03\xE0\xA7\x12",
        Some(ReadFault::Malformed { section: 0 }),
    ),
    (
        b"\x09\x03\xE1\xA7\x12",
        Some(ReadFault::Limit {
            which: Which::ElementSegments,
        }),
    ),
    (
        b"\x0A\x03\xC0\x84\x3D",
        Some(ReadFault::Malformed { section: 0 }),
    ),
    (
        b"\x0A\x03\xC1\x84\x3D",
        Some(ReadFault::Limit {
            which: Which::Functions,
        }),
    ),
    (
        b"\x0B\x03\xE0\xA7\x12",
        Some(ReadFault::Malformed { section: 0 }),
    ),
    (
        b"\x0B\x03\xE1\xA7\x12",
        Some(ReadFault::Limit {
            which: Which::DataSegments,
        }),
    ),
    (
        b"\x01\x04\x01\x60\xE8\x07",
        Some(ReadFault::Malformed { section: 0 }),
    ),
    (
        b"\x01\x04\x01\x60\xE9\x07",
        Some(ReadFault::Limit {
            which: Which::Parameters,
        }),
    ),
    (
        b"\x01\x05\x01\x60\x00\xE8\x07",
        Some(ReadFault::Malformed { section: 0 }),
    ),
    (
        b"\x01\x05\x01\x60\x00\xE9\x07",
        Some(ReadFault::Limit {
            which: Which::Results,
        }),
    ),
    (
        b"\x01\x04\x01\x60\x00\x00\x03\x02\x01\x00\x0A\x08\x01\x06\x01\xD0\x86\x03\x7F\x0B",
        None,
    ),
    (
        b"\x01\x04\x01\x60\x00\x00\x03\x02\x01\x00\x0A\x08\x01\x06\x01\xD1\x86\x03\x7F\x0B",
        Some(ReadFault::Limit {
            which: Which::Locals,
        }),
    ),
    (
        b"\x01\x04\x01\x60\x00\x00\x03\x02\x01\x00\x0A\x08\x01\x06\x01\xD1\x86\x03\x7D\x0B",
        Some(ReadFault::Limit {
            which: Which::Locals,
        }),
    ),
    (
        b"\x01\x04\x01\x60\x00\x00\x03\x02\x01\x00\x0A\x0A\x01\x08\x02\xD0\x86\x03\x7F\x00\x7E\x0B",
        None,
    ),
    (
        b"\x01\x04\x01\x60\x00\x00\x03\x02\x01\x00\x0A\x0A\x01\x08\x02\xD0\x86\x03\x7F\x01\x7E\x0B",
        Some(ReadFault::Limit {
            which: Which::Locals,
        }),
    ),
    (
        b"\x01\x04\x01\x60\x00\x00\x03\x02\x01\x00\x0A\x07\x01\x05\x02\xD0\x86\x03\x7F",
        Some(ReadFault::MalformedBody { func: 0 }),
    ),
    (
        b"\x01\x04\x01\x60\x00\x00\x03\x02\x01\x00\x0A\x06\x01\x04\x01\x01\x7D\x0B",
        Some(ReadFault::Unsupported {
            section: 2,
            func: Some(0),
        }),
    ),
    (
        b"\x01\x04\x01\x60\x00\x00\x03\x02\x01\x00\x0A\x06\x01\x04\x01\x01\x40\x0B",
        Some(ReadFault::MalformedBody { func: 0 }),
    ),
];
