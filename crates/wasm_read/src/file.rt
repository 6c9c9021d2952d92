ghost use Rattle.std.specs.Prelude.{◌≡◌, ◌<◌, ◌≤◌, ◌+◌, ◌^◌, ◌⊎◌, ◌↔◌, ℕ, length, IfOk, IfErr, IsTrue, Ok, Err, Some, None, false};
ghost use Rattle.wasm_bytes.specs.Frames.{HasHeader, FirstBad};
ghost use Rattle.wasm_bytes.specs.Reading.{IsBytes};
ghost use Rattle.wasm_bytes.specs.FrameViews.{Inside, framed, framed_all};
ghost use Rattle.wasm_tree.specs.declared.module.Module.{Module as ModuleTree};
ghost use Rattle.wasm_tree.specs.Bounds.{IsBounded};
ghost use Rattle.wasm_tree.specs.DataUse.{any_uses_data};
ghost use Rattle.wasm_tree.specs.MemoryZero.{memory_zero_funcs};
ghost use Rattle.wasm_read_spec.specs.declared.fault.ReadFault.{ReadFault as SomeFault};
ghost use Rattle.wasm_read_spec.specs.declared.fault.ReadFault.TheVariants as fault;
ghost use Rattle.wasm_tree.specs.declared.which.Which.{Which as SomeWhich};
ghost use Rattle.wasm_read_spec.specs.Stops.{NotSupported, Over};
ghost use Rattle.wasm_read_spec.specs.Causes.{Cause, SectionStops, EntryStops, MalformedSection, MalformedEntry, FaultyWhole};
ghost use Rattle.wasm_read_spec.specs.Files.{nothing, tree_of, Spells, Within};
ghost use Rattle.wasm_read_spec.specs.Contents.{FileGivesAll, contents_at, read_at, read_fault};
ghost use Rattle.wasm_read.specs.Views.{GivesFramed, GivesParts};
ghost use Rattle.wasm_read.specs.Told.{Told};

use crate::rules::{agree, set_types};
use crate::sections::{Found, read_section};
use std::alloc::Global;
use wasm_bytes::{Frame, FrameFault, Items, frames};
use wasm_read_spec::{
    Parts, ReadFault, encoded_bodies_name_memory_zero,
    encoded_files_are_within_limits_where_none_is_exceeded, encoded_trees_are_bounded,
    faults_have_causes, framing_is_decided, reading_is_exact,
};
use wasm_tree::Module;

/// Returns the frames of the file, or the fault of its frames.
fn frame_list(alloc: Global, bytes: &[u8]) -> Result<Items<Frame>, ReadFault>
    requires { length bytes.now < 2 ^ 32 }
    ensures gives { GivesFramed bytes.now result }
    ensures inside { IfOk result (λ fs. Inside bytes.now fs) }
    ensures bytes { IsBytes bytes.now }
{
    framing_is_decided();
    match frames(alloc, bytes) {
        Ok(all) => Ok(all),
        Err(FrameFault::NotModule) => Err(ReadFault::NotModule),
        Err(FrameFault::BadFrame { section }) => Err(ReadFault::Malformed { section }),
        Err(FrameFault::NoMemory) => Err(ReadFault::NoMemory),
    }
}

fn content_of(bytes: &[u8], frame: Frame) -> &[u8]
    requires { frame.start + frame.len ≤ length bytes.now }
    ensures { (frame.id, result.now) ≡ framed bytes.now frame }
{
    &bytes[frame.start..frame.start + frame.len]
}

fn no_parts(alloc: Global) -> Parts
    ensures { result ≡ nothing }
{
    Parts {
        types: Items::new(alloc),
        imports: Items::new(alloc),
        func_types: Items::new(alloc),
        tables: Items::new(alloc),
        mems: Items::new(alloc),
        globals: Items::new(alloc),
        exports: Items::new(alloc),
        start: None,
        elems: Items::new(alloc),
        codes: Items::new(alloc),
        datas: Items::new(alloc),
        data_count: None,
    }
}

/// Returns what the sections contain, or the first fault in one.
fn read_contents(alloc: Global, bytes: &[u8], many: bool, all: &[Frame]) -> Result<Found, ReadFault>
    requires inside { Inside bytes.now all.now }
    requires small { length bytes.now < 2 ^ 32 }
    ensures gives { GivesParts result (contents_at many 0 nothing (framed_all bytes.now all.now)) }
    ensures uses { IfOk result (λ c. c.uses_data ≡ any_uses_data c.parts.codes) }
{
    let mut found = Found {
        parts: no_parts(alloc),
        uses_data: false,
    };
    let mut section = 0u32;
    for frame in all {
        let content = content_of(bytes, *frame);
        read_section(alloc, many, section, &mut found, frame.id, content)?;
        section += 1;
    }
    Ok(found)
}

/// Returns the tree of parts that obey the rules on the whole file.
fn tree(parts: Parts) -> Module
    requires { length parts.func_types ≡ length parts.codes }
    ensures { result ≡ tree_of parts }
{
    let mut funcs = parts.codes;
    set_types(&mut funcs, parts.func_types.as_slice());
    Module {
        types: parts.types,
        imports: parts.imports,
        funcs,
        tables: parts.tables,
        mems: parts.mems,
        globals: parts.globals,
        exports: parts.exports,
        start: parts.start,
        elems: parts.elems,
        datas: parts.datas,
    }
}

/// Returns the tree of the file, or its first fault. If `many` is true, memories have indices in
/// bodies.
#[tactic(auto, unfolding(wasm_read_spec::specs::Contents::parts_at, wasm_read_spec::specs::Contents::read_at))]
fn read_file(alloc: Global, bytes: &[u8], many: bool) -> Result<Module, ReadFault>
    requires { length bytes.now < 2 ^ 32 }
    ensures gives { FileGivesAll result (read_at many bytes.now) }
    ensures bytes { IsBytes bytes.now }
{
    let all = frame_list(alloc, bytes)?;
    let count = all.len() as u32;
    let found = read_contents(alloc, bytes, many, all.as_slice())?;
    if !agree(&found.parts, found.uses_data) {
        return Err(ReadFault::Malformed { section: count });
    }
    Ok(tree(found.parts))
}

/// Reads the tree that a module file encodes (WebAssembly Core 2.0, chapter 5), within the limits
/// on counts, nesting and locals. The file must have fewer than 2^32 bytes.
///
/// Unless memory runs out, the result is the tree exactly if the bytes encode one within the
/// limits. Otherwise the error is the first fault of the file, in this order:
///
/// - `NotModule`, if the bytes do not begin with the header;
/// - `Malformed`, for the first section whose frame is bad (its id, its place among the sections or
///   its size), whatever the sections contain;
/// - the first fault in the contents of the sections, in the order of the file;
/// - `Malformed`, with the number of all sections, if the function and the code section have
///   different lengths, if the data count is not the number of data segments, or if there is no
///   data count although a body names a data segment (section 5.5.16).
///
/// `NoMemory` means that memory ran out and says nothing about the bytes. The tree is bounded, so
/// that a u32 names each of its entries, and its bodies name no memory except memory 0.
pub fn read(alloc: Global, bytes: &[u8]) -> Result<Module, ReadFault>
    requires { length bytes.now < 2 ^ 32 }
    ensures found { IfOk result (λ m. Spells bytes.now m false × Within bytes.now false) }
    ensures only { (m : ModuleTree) → Spells bytes.now m false → Within bytes.now false → (result ≡ Ok m) ⊎ (result ≡ Err ReadFault.NoMemory) }
    ensures fault { IfErr result (λ e. (e ≡ ReadFault.NoMemory) ⊎ (read_fault bytes.now false ≡ Some e)) }
    ensures first { (e : SomeFault) → read_fault bytes.now false ≡ Some e → (result ≡ Err e) ⊎ (result ≡ Err ReadFault.NoMemory) }
    // What each fault says about the bytes, with its place. Unless memory runs out, it is the error
    // exactly if that is so.
    ensures not_module { Told result fault.NotModule (HasHeader bytes.now → ⊥) }
    ensures malformed { (n : ℕ) → Told result (fault.Malformed n) (FirstBad bytes.now n ⊎ (MalformedSection bytes.now false n ⊎ FaultyWhole bytes.now false n)) }
    ensures malformed_body { (f : ℕ) → Told result (fault.MalformedBody f) ((n : ℕ) × MalformedEntry bytes.now false n f) }
    ensures unsupported { (n : ℕ) → Told result (fault.Unsupported n None) (SectionStops bytes.now false n NotSupported) }
    ensures unsupported_body { (n f : ℕ) → Told result (fault.Unsupported n (Some f)) (EntryStops bytes.now false n f NotSupported) }
    ensures limit { (which : SomeWhich) → Told result (fault.Limit which) ((n : ℕ) × (SectionStops bytes.now false n (Over which) ⊎ ((f : ℕ) × EntryStops bytes.now false n f (Over which)))) }
    // A file that encodes a tree is within the limits exactly if no count, no nesting and no sum of
    // locals in it is over its limit.
    ensures within { (m : ModuleTree) → Spells bytes.now m false → Within bytes.now false ↔ ((which : SomeWhich) → Cause bytes.now false (fault.Limit which) → ⊥) }
    ensures bounded { IfOk result (λ m. IsBounded m) }
    ensures memory { IfOk result (λ m. IsTrue (memory_zero_funcs m.funcs)) }
{
    faults_have_causes();
    encoded_files_are_within_limits_where_none_is_exceeded();
    encoded_trees_are_bounded();
    encoded_bodies_name_memory_zero();
    reading_is_exact();
    read_file(alloc, bytes, false)
}
