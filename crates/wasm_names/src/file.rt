ghost use Rattle.std.specs.Prelude.{◌≡◌, ◌<◌, ◌≤◌, ◌+◌, ◌^◌, ℕ, List, [], length, unwrap_or, option_and_then, IfOk};
ghost use Rattle.wasm_bytes.specs.FrameViews.{Inside, framed, framed_all};
ghost use Rattle.wasm_bytes.specs.Reading.{IsBytes};
ghost use Rattle.wasm_names.specs.declared.func_name.FuncName.{FuncName as Named};
ghost use Rattle.wasm_names.specs.NameList.{AreFunctionNames};
ghost use Rattle.wasm_names.specs.Reading.{content_of_names, first_content, lent_option, name_list, names_in};

use crate::func_name::FuncName;
use crate::laws::name_lists_are_those_of_the_first_name_section;
use crate::section::{behind_name_of, read_names};
use std::alloc::Global;
use wasm_bytes::{Frame, FrameFault, Items, NoMemory, frames};
use wasm_read_spec::{Fault, framing_is_decided};

/// Returns what follows the name of the section, if it is a custom section named `name`.
fn names_content(bytes: &[u8], frame: Frame) -> Option<&[u8]>
    requires { frame.start + frame.len ≤ length bytes.now }
    ensures { lent_option result ≡ content_of_names (framed bytes.now frame) }
{
    if frame.id != 0 {
        return None;
    }
    behind_name_of(&bytes[frame.start..frame.start + frame.len])
}

/// Returns what follows the name of the first custom section named `name`.
fn first_names_content<'a>(bytes: &'a [u8], all: &[Frame]) -> Option<&'a [u8]>
    requires { Inside bytes.now all.now }
    ensures { lent_option result ≡ first_content (framed_all bytes.now all.now) }
{
    for frame in all {
        let content = names_content(bytes, *frame);
        if content.is_some() {
            return content;
        }
    }
    None
}

/// Reads the names, and returns none if there is no name section or it is malformed.
fn names_or_none(alloc: Global, content: Option<&[u8]>) -> Result<Items<FuncName>, NoMemory>
    ensures { IfOk result (λ ns. ns ≡ unwrap_or (option_and_then names_in (lent_option content.entry)) []) }
{
    let Some(content) = content else {
        return Ok(Items::new(alloc));
    };
    match read_names(alloc, content) {
        Ok(names) => Ok(names),
        Err(Fault::NoMemory) => Err(NoMemory),
        Err(_) => Ok(Items::new(alloc)),
    }
}

#[tactic(auto, unfolding(crate::specs::Reading::names_found))]
fn read_name_list(alloc: Global, bytes: &[u8]) -> Result<Items<FuncName>, NoMemory>
    requires { length bytes.now < 2 ^ 32 }
    ensures list { IfOk result (λ ns. ns ≡ name_list bytes.now) }
    ensures bytes { IsBytes bytes.now }
{
    framing_is_decided();
    match frames(alloc, bytes) {
        Ok(all) => names_or_none(alloc, first_names_content(bytes, all.as_slice())),
        Err(FrameFault::NotModule) => Ok(Items::new(alloc)),
        Err(FrameFault::BadFrame { .. }) => Ok(Items::new(alloc)),
        Err(FrameFault::NoMemory) => Err(NoMemory),
    }
}

/// Reads the names that a module file gives its functions (WebAssembly Core 2.0, section 7.4.1).
///
/// Returns the entries as they are in the file, including those of imported functions and of
/// functions that do not exist. Only the first custom section named `name` is read. The list is
/// empty if there is no such section, if it is malformed, or if the file cannot be divided into
/// sections. The section is malformed if the frame of a subsection is broken, if more than one
/// subsection has function names, or if the content of that subsection is not exactly a vector of
/// indices and names with strictly ascending indices; other subsections are skipped by their size.
/// The only error is `NoMemory`, which says nothing of the bytes.
pub fn function_names(alloc: Global, bytes: &[u8]) -> Result<Items<FuncName>, NoMemory>
    requires { length bytes.now < 2 ^ 32 }
    ensures list { IfOk result (λ ns. ns ≡ name_list bytes.now) }
    ensures names { IfOk result (λ ns. AreFunctionNames bytes.now ns) }
    ensures only { (ns : List Named) → AreFunctionNames bytes.now ns → IfOk result (λ found. found ≡ ns) }
{
    name_lists_are_those_of_the_first_name_section();
    read_name_list(alloc, bytes)
}
