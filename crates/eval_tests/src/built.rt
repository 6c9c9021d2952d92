// Modules that are too great to be spelled out: their first bytes, and the rest by a rule.

use crate::modules::spelled;
use std::alloc::{AllocError, Global};
use std::test::Fail;
use wasm_valid::Valid;

/// A function, up to its 999 blocks.
pub(crate) const BLOCKS_999: &[u8] =
    b"\x00\x61\x73\x6D\x01\x00\x00\x00\x01\x04\x01\x60\x00\x00\x03\x02\x01\x00\x0A\xBA\x17\x01\xB7\x17\x00";

/// The same, up to its 1,000 blocks.
pub(crate) const BLOCKS_1000: &[u8] =
    b"\x00\x61\x73\x6D\x01\x00\x00\x00\x01\x04\x01\x60\x00\x00\x03\x02\x01\x00\x0A\xBD\x17\x01\xBA\x17\x00";

/// A memory of 1,025 pages, up to the first of 16,384 data segments.
pub(crate) const SEGMENTS_16384: &[u8] =
    b"\x00\x61\x73\x6D\x01\x00\x00\x00\x05\x04\x01\x00\x81\x08\x0B\x83\x80\x0A\x80\x80\x01";

/// The same, up to the first of 16,385.
pub(crate) const SEGMENTS_16385: &[u8] =
    b"\x00\x61\x73\x6D\x01\x00\x00\x00\x05\x04\x01\x00\x81\x08\x0B\x8D\x80\x0A\x81\x80\x01";

// Adds these bytes so many times.
fn add_times(bytes: &mut Vec<u8>, count: usize, added: &[u8]) -> Result<(), AllocError> {
    for _ in 0..count {
        bytes.extend_from_slice(added)?;
    }
    Ok(())
}

// Adds so many blocks, each in the one before, and the end of their function.
fn add_blocks(bytes: &mut Vec<u8>, count: usize) -> Result<(), AllocError> {
    add_times(bytes, count, b"\x02\x40")?;
    add_times(bytes, count, &[0x0B])?;
    bytes.push(0x0B)?;
    Ok(())
}

/// A module with one function of so many blocks, each in the one before.
pub(crate) fn nested(alloc: Global, before: &[u8], count: usize) -> Result<Valid, Fail> {
    let mut bytes = Vec::from_slice(alloc, before)?;
    add_blocks(&mut bytes, count)?;
    spelled(alloc, bytes.as_slice())
}

// An active data segment of one zero byte, at the first place of a block, whose offset is spelled with five bytes.
fn segment(block: u16) -> [u8; 10] {
    let low = (block % 4 * 32) as u8;
    let middle = (block / 4 % 128) as u8;
    let high = (block / 512) as u8;
    [
        0,
        0x41,
        0x80,
        low | 0x80,
        middle | 0x80,
        high | 0x80,
        0,
        0x0B,
        1,
        0,
    ]
}

// Adds so many data segments, each in a block of its own.
fn add_segments(bytes: &mut Vec<u8>, count: u16) -> Result<(), AllocError> {
    for block in 0..count {
        bytes.extend_from_slice(&segment(block))?;
    }
    Ok(())
}

/// A module with a memory and so many data segments of one byte, each in a block of its own.
pub(crate) fn scattered(alloc: Global, before: &[u8], count: u16) -> Result<Valid, Fail> {
    let mut bytes = Vec::from_slice(alloc, before)?;
    add_segments(&mut bytes, count)?;
    spelled(alloc, bytes.as_slice())
}
