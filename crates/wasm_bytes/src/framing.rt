ghost use Rattle.std.specs.Prelude.{◌≡◌, ◌<◌, ◌≤◌, ◌+◌, ◌^◌, ◌⊎◌, ℕ, List, length, OnOk, IfOk, IsOkAnd, IsTrue, IfSome, IfErr, OnErr, ◌↔◌, Err, drop};
ghost use Rattle.wasm_bytes.specs.Reading.{IsBytes, sized_at, with_rest, lent};
ghost use Rattle.wasm_bytes.specs.Frames.{Section, may_follow, section_order, order_after, Framed, FirstBad, HasHeader};
ghost use Rattle.wasm_bytes.specs.FrameViews.{GivesFrame, GivesFrames, framed_all, Inside, Stand, StandsAt};

use crate::cursor::{Cursor, Wrong};
use crate::items::Items;
use std::alloc::Global;

/// A section in a file: its id, and where its content starts and how long it is.
#[derive(Clone, Copy, Debug, PartialEq, Eq)]
pub struct Frame {
    pub id: u8,
    pub start: usize,
    pub len: usize,
}

/// Why a file has no frames.
#[derive(Clone, Copy, Debug, PartialEq, Eq)]
pub enum FrameFault {
    /// The bytes do not begin with the magic number and the version.
    NotModule,
    /// The number of the first bad frame, counted from 0.
    BadFrame { section: u32 },
    NoMemory,
}

/// The magic number and the version (WebAssembly Core 2.0, section 5.5.16).
const HEADER: [u8; 8] = [0x00, 0x61, 0x73, 0x6D, 0x01, 0x00, 0x00, 0x00];

fn has_header(bytes: &[u8]) -> bool
    ensures { IsTrue result ↔ HasHeader bytes.now }
{
    bytes.starts_with(&HEADER)
}

/// Returns the position of a section id in the order of the sections.
fn place_of(id: u8) -> u8
    requires { id ≤ 12 }
    ensures value { result ≡ section_order id }
    ensures small { result ≤ 12 }
{
    if id == 12 {
        10
    } else if id > 9 {
        id + 1
    } else {
        id
    }
}

/// Returns the position of the last section that is not custom, after one with this id.
fn place_after(last: u8, id: u8) -> u8
    requires { id ≤ 12 }
    ensures { result ≡ order_after last id }
{
    if id == 0 { last } else { place_of(id) }
}

/// Returns whether a section with this id may follow. `last` is the position of the last section
/// that is not custom (0: none).
fn follows(last: u8, id: u8) -> bool
    ensures value { result ≡ may_follow last id }
    ensures known { IsTrue result → id ≤ 12 }
{
    if id == 0 {
        true
    } else if id > 12 {
        false
    } else {
        last < place_of(id)
    }
}

/// Reads a length and as many bytes.
fn read_sized<'a>(cursor: &mut Cursor<'a>) -> Result<&'a [u8], Wrong>
    ensures gives { sized_at cursor.old ≡ with_rest (lent result) cursor.new }
    ensures err { IfErr result (λ e. sized_at cursor.old ≡ Err e) }
{
    let count = cursor.u32()?;
    cursor.take(count as usize)
}

/// Reads the frame that begins at `at`, or returns `None` if no frame that may follow begins there.
#[tactic(auto, unfolding(crate::specs::Frames::frame_at))]
fn read_frame(bytes: &[u8], at: usize, last: u8) -> Option<Frame>
    requires { at ≤ length bytes.now }
    ensures gives { GivesFrame bytes.now last at result }
    ensures inside { IfSome result (λ f. (at < f.start + f.len) × (f.start + f.len ≤ length bytes.now) × (f.id ≤ 12)) }
    ensures stands { IfSome result (λ f. StandsAt bytes.now at f) }
{
    let mut cursor = Cursor::new(&bytes[at..]);
    let Ok(id) = cursor.byte() else {
        return None;
    };
    if !follows(last, id) {
        return None;
    }
    let Ok(content) = read_sized(&mut cursor) else {
        return None;
    };
    let start = bytes.len() - cursor.left() - content.len();
    Some(Frame {
        id,
        start,
        len: content.len(),
    })
}

/// Reads the frames behind the header.
fn frames_behind(alloc: Global, bytes: &[u8]) -> Result<Items<Frame>, FrameFault>
    requires header { 8 ≤ length bytes.now }
    requires most { length bytes.now < 2 ^ 32 }
    ensures gives { GivesFrames bytes.now result }
    ensures bytes { IsBytes bytes.now }
    ensures inside { IfOk result (λ fs. Inside bytes.now fs) }
    ensures stand { IfOk result (λ fs. Stand bytes.now 8 fs (length bytes.now)) }
{
    let mut frames = Items::new(alloc);
    let mut at = HEADER.len();
    let mut last = 0u8;
    let mut count = 0u32;
    while at < bytes.len() {
        let Some(frame) = read_frame(bytes, at, last) else {
            return Err(FrameFault::BadFrame { section: count });
        };
        match frames.keep(frame) {
            Ok(()) => (),
            Err(_) => return Err(FrameFault::NoMemory),
        }
        last = place_after(last, frame.id);
        at = frame.start + frame.len;
        count += 1;
    }
    Ok(frames)
}

/// Reads the sections of a module file, in its order (WebAssembly Core 2.0, section 5.5.2). The
/// error is `NotModule` exactly if the first eight bytes are not the header. Unless memory runs
/// out, it is `BadFrame` exactly if, behind the header, `section` good frames are followed by bytes
/// that do not begin with a frame that may follow: the id is above 12, repeated or out of order, or
/// the size is malformed, cut short or exceeds what is left.
pub fn frames(alloc: Global, bytes: &[u8]) -> Result<Items<Frame>, FrameFault>
    requires { length bytes.now < 2 ^ 32 }
    ensures ok { IfOk result (λ fs. Framed bytes.now (framed_all bytes.now fs)) }
    ensures only { (ss : List Section) → Framed bytes.now ss → (result ≡ Err FrameFault.NoMemory) ⊎ IsOkAnd result (λ fs. framed_all bytes.now fs ≡ ss) }
    ensures not_module { (result ≡ Err FrameFault.NotModule) ↔ (HasHeader bytes.now → ⊥) }
    ensures bad { (n : ℕ) → result ≡ Err (FrameFault.BadFrame n) → FirstBad bytes.now n }
    ensures only_bad { (n : ℕ) → FirstBad bytes.now n → (result ≡ Err FrameFault.NoMemory) ⊎ (result ≡ Err (FrameFault.BadFrame n)) }
    ensures inside { IfOk result (λ fs. Inside bytes.now fs) }
    ensures stand { IfOk result (λ fs. Stand bytes.now 8 fs (length bytes.now)) }
{
    if !has_header(bytes) {
        return Err(FrameFault::NotModule);
    }
    frames_behind(alloc, bytes)
}
