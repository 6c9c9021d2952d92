use std::alloc::Global;
use std::test::Fail;
use wasm_bytes::{Cursor, Frame, FrameFault, Items, Name, NoMemory, Out, Wrong, frames};

const U32: [(&[u8], Result<(u32, usize), Wrong>); 8] = [
    (b"\xE5\x8E\x26\x00", Ok((624_485, 1))),
    (b"\x80\x80\x80\x80\x00", Ok((0, 0))),
    (b"\xFF\xFF\xFF\xFF\x0F", Ok((4_294_967_295, 0))),
    (b"\xFF\xFF\xFF\xFF\x1F", Err(Wrong::Spelling)),
    (b"\x86\x80\x80\x80\x80\x00", Err(Wrong::Spelling)),
    (b"\x86\x80\x80\x80", Err(Wrong::Short)),
    (b"\x80", Err(Wrong::Short)),
    (b"", Err(Wrong::Short)),
];

const S32: [(&[u8], Result<(i32, usize), Wrong>); 8] = [
    (b"\xC0\xBB\x78", Ok((-123_456, 0))),
    (b"\xA6\xFD\x99\x8E\x04", Ok((1_103_527_590, 0))),
    (b"\xFF\xFF\xFF\xFF\x7F", Ok((-1, 0))),
    (b"\x80\x80\x80\x80\x78", Ok((-2_147_483_648, 0))),
    (b"\xFF\xFF\xFF\xFF\x07\x0B", Ok((2_147_483_647, 1))),
    (b"\xFF\xFF\xFF\xFF\x4F", Err(Wrong::Spelling)),
    (b"\xFF\xFF\xFF\xFF\x0F", Err(Wrong::Spelling)),
    (b"\xFF\xFF", Err(Wrong::Short)),
];

const S33: [(&[u8], Result<(i64, usize), Wrong>); 5] = [
    (b"\x80\x80\x80\x80\x00", Ok((0, 0))),
    (b"\xFF\x7F", Ok((-1, 0))),
    (b"\xFF\xFF\xFF\xFF\x0F", Ok((4_294_967_295, 0))),
    (b"\x80\x80\x80\x80\x70", Ok((-4_294_967_296, 0))),
    (b"\x80\x80\x80\x80\x60", Err(Wrong::Spelling)),
];

const S64: [(&[u8], Result<(i64, usize), Wrong>); 4] = [
    (b"\x7F\x1A", Ok((-1, 1))),
    (
        b"\xFF\xFF\xFF\xFF\xFF\xFF\xFF\xFF\xFF\x00",
        Ok((9_223_372_036_854_775_807, 0)),
    ),
    (
        b"\x80\x80\x80\x80\x80\x80\x80\x80\x80\x40",
        Err(Wrong::Spelling),
    ),
    (b"\x80\x80\x80\x80\x80\x80\x80\x80\x80", Err(Wrong::Short)),
];

#[test]
fn unsigned_numbers_are_read(rt: HostRuntime) {
    for (bytes, expected) in &U32 {
        let mut cursor = Cursor::new(bytes);
        let read = cursor.u32();
        assert_eq!(rt; read.map(|value| (value, cursor.left())), *expected);
    }
}

#[test]
fn signed_numbers_of_32_bits_are_read(rt: HostRuntime) {
    for (bytes, expected) in S32 {
        let mut cursor = Cursor::new(bytes);
        let read = cursor.s32();
        assert_eq!(rt; read.map(|value| (value, cursor.left())), expected);
    }
}

#[test]
fn signed_numbers_of_33_bits_are_read(rt: HostRuntime) {
    for (bytes, expected) in S33 {
        let mut cursor = Cursor::new(bytes);
        let read = cursor.s33();
        assert_eq!(rt; read.map(|value| (value, cursor.left())), expected);
    }
}

#[test]
fn signed_numbers_of_64_bits_are_read(rt: HostRuntime) {
    for (bytes, expected) in S64 {
        let mut cursor = Cursor::new(bytes);
        let read = cursor.s64();
        assert_eq!(rt; read.map(|value| (value, cursor.left())), expected);
    }
}

#[test]
fn numbers_are_written(rt: HostRuntime) -> Result<(), Fail> {
    let mut out = Out::new(rt.alloc());
    out.u32(624_485)?;
    out.s32(-123_456)?;
    out.s33(4_294_967_295)?;
    out.s64(-1)?;
    assert_eq!(rt;
        out.as_slice(),
        b"\xE5\x8E\x26\xC0\xBB\x78\xFF\xFF\xFF\xFF\x0F\x7F".as_slice()
    );
    Ok(())
}

// A section of a name and two bytes.
const FRAMED: [u8; 7] = *b"\x00\x05\x02\xC3\xA9\x01\x02";

#[test]
fn a_name_is_what_it_was_made_of(rt: HostRuntime) -> Result<(), Fail> {
    let alloc = rt.alloc();
    let name = Name::from_text(alloc, "é")?.copy(alloc)?;
    assert_eq!(rt; name.as_str(), "é");
    Ok(())
}

#[test]
fn bytes_and_names_are_written(rt: HostRuntime) -> Result<(), Fail> {
    let alloc = rt.alloc();
    let name = Name::from_text(alloc, "é")?;
    let mut content = Out::new(alloc);
    content.byte(9)?;
    content.clear();
    content.name(&name)?;
    content.bytes(b"\x01\x02")?;
    assert_eq!(rt; content.len(), 5);
    let mut out = Out::new(alloc);
    out.framed(0, &content)?;
    assert_eq!(rt; out.into_bytes().as_slice(), FRAMED.as_slice());
    Ok(())
}

// Names the first thing of the section that a cursor reads wrong. The name is empty if there is none.
fn unlike_framed() -> &'static str {
    let mut cursor = Cursor::new(FRAMED.as_slice());
    if cursor.peek() != Some(0) {
        return "the next byte";
    }
    if cursor.byte() != Ok(0) || cursor.byte() != Ok(5) {
        return "a byte";
    }
    if cursor.name() != Ok("é") {
        return "the name";
    }
    if cursor.take(3) != Err(Wrong::Short) {
        return "more bytes than there are";
    }
    if cursor.take(2) != Ok(b"\x01\x02".as_slice()) {
        return "the bytes";
    }
    if cursor.byte() != Err(Wrong::Short) {
        return "the end";
    }
    ""
}

#[test]
fn bytes_and_names_are_read(rt: HostRuntime) {
    assert_eq!(rt; unlike_framed(), "");
}

#[test]
fn names_that_are_cut_or_no_text_are_not_read(rt: HostRuntime) {
    assert_eq!(rt; Cursor::new(b"\x01\xFF").name(), Err(Wrong::Spelling));
    assert_eq!(rt; Cursor::new(b"\x02\x41").name(), Err(Wrong::Short));
}

#[test]
fn items_are_kept_in_order(rt: HostRuntime) -> Result<(), Fail> {
    let mut items = Items::new(rt.alloc());
    assert!(rt; items.push(7u32).is_ok());
    items.keep(8)?;
    if let Some(item) = items.get_mut(0) {
        *item = 6;
    }
    assert_eq!(rt; items.len(), 2);
    assert_eq!(rt; items.get(0).copied(), Some(6));
    assert_eq!(rt; items.get(2).copied(), None);
    Ok(())
}

// Appends two items to one and cuts them off again. Names the first thing that is wrong then. The name is empty if there is none.
fn unlike_appended(alloc: Global) -> Result<&'static str, NoMemory> {
    let mut behind = Items::from_slice(alloc, &[6u32, 8])?;
    let mut items = Items::from_slice(alloc, behind.as_slice())?;
    if behind.pop() != Some(8) {
        return Ok("the item taken off");
    }
    behind.append(&mut items)?;
    if behind.as_slice() != &[6u32, 6, 8][..] {
        return Ok("what is appended");
    }
    if items.pop() != None {
        return Ok("what is left");
    }
    let tail = behind.split_off(1)?;
    if behind.as_slice() != &[6u32][..] {
        return Ok("what stays");
    }
    if tail.as_slice() != &[6u32, 8][..] {
        return Ok("what is cut off");
    }
    Ok("")
}

#[test]
fn items_are_appended_behind_and_cut_off(rt: HostRuntime) -> Result<(), Fail> {
    assert_eq!(rt; unlike_appended(rt.alloc())?, "");
    Ok(())
}

const FAULTS: [(&[u8], FrameFault); 11] = [
    (b"", FrameFault::NotModule),
    (b"\0asm\x01\0\0", FrameFault::NotModule),
    (b"\0asm\x02\0\0\0", FrameFault::NotModule),
    (
        b"\0asm\x01\0\0\0\x0D\x00",
        FrameFault::BadFrame { section: 0 },
    ),
    (b"\0asm\x01\0\0\0\x01", FrameFault::BadFrame { section: 0 }),
    (
        b"\0asm\x01\0\0\0\x01\x80",
        FrameFault::BadFrame { section: 0 },
    ),
    (
        b"\0asm\x01\0\0\0\x00\x00\x01\x02\x00",
        FrameFault::BadFrame { section: 1 },
    ),
    (
        b"\0asm\x01\0\0\0\x01\x86\x80\x80\x80\x80\x00",
        FrameFault::BadFrame { section: 0 },
    ),
    (
        b"\0asm\x01\0\0\0\x01\x00\x00\x00\x01\x00",
        FrameFault::BadFrame { section: 2 },
    ),
    (
        b"\0asm\x01\0\0\0\x0C\x00\x09\x00",
        FrameFault::BadFrame { section: 1 },
    ),
    (
        b"\0asm\x01\0\0\0\x0B\x00\x0A\x00",
        FrameFault::BadFrame { section: 1 },
    ),
];

// The place of the first file that is not refused with the fault beside it, if there is one.
fn first_other_fault(alloc: Global) -> Option<usize> {
    for (place, (bytes, expected)) in FAULTS.iter().enumerate() {
        if frames(alloc, bytes).err() != Some(*expected) {
            return Some(place);
        }
    }
    None
}

// The sections of a file.
const FRAMES: [Frame; 6] = [
    Frame {
        id: 0,
        start: 10,
        len: 1,
    },
    Frame {
        id: 9,
        start: 14,
        len: 1,
    },
    Frame {
        id: 12,
        start: 17,
        len: 0,
    },
    Frame {
        id: 10,
        start: 19,
        len: 0,
    },
    Frame {
        id: 11,
        start: 21,
        len: 0,
    },
    Frame {
        id: 0,
        start: 23,
        len: 2,
    },
];

fn frames_are_as_listed(alloc: Global) -> Result<bool, FrameFault> {
    let found = frames(
        alloc,
        b"\0asm\x01\0\0\0\x00\x01\x00\x09\x81\x00\x00\x0C\x00\x0A\x00\x0B\x00\x00\x02\x01\x61",
    )?;
    Ok(found.as_slice() == FRAMES.as_slice())
}

#[test]
fn frames_are_found(rt: HostRuntime) -> Result<(), Fail> {
    assert_eq!(rt; first_other_fault(rt.alloc()), None);
    assert_eq!(rt; frames_are_as_listed(rt.alloc()), Ok(true));
    Ok(())
}
