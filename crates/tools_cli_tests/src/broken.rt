// Modules that are cut, or of which one size or count is changed.
use crate::given::{A, GIVES, Ran, merge_one, module_of};
use std::alloc::Global;
use std::test::Fail;

// Expects the refusal with this text or, if the text is empty, these bytes as output.
fn unlike_output(alloc: Global, ran: &Ran, bytes: &[u8], text: &str) -> Result<&'static str, Fail> {
    if text.is_empty() {
        return Ok(ran.unlike_written("o.wasm", bytes, ""));
    }
    let told = format!(in alloc; "binkit: a.wasm: {text}\n")?;
    Ok(ran.unlike_refused(told.as_str(), "o.wasm"))
}

// The same; also expects a.wasm, which has these bytes, to be unchanged.
fn unlike_ran(alloc: Global, ran: &Ran, bytes: &[u8], text: &str) -> Result<&'static str, Fail> {
    if !ran.has("a.wasm", bytes) {
        return Ok("the input");
    }
    unlike_output(alloc, ran, bytes, text)
}

// Merges the bytes alone, as a.wasm. Expects the refusal with this text or, if the text is empty,
// the same bytes as output; a.wasm must be unchanged.
fn unlike_told(alloc: Global, bytes: &[u8], text: &str) -> Result<&'static str, Fail> {
    let ran = merge_one(alloc, bytes)?;
    unlike_ran(alloc, &ran, bytes, text)
}

// The refusals of the first n bytes of the 34 bytes of A, from n = 0 on: each text for this many
// values of n. An empty text means that the bytes are a module.
const CUTS: [(usize, &str); 8] = [
    (8, "not a WebAssembly module"),
    (1, ""),
    (6, "malformed section 0"),
    (1, ""),
    (3, "malformed section 1"),
    (7, "malformed section 2"),
    (8, "malformed section 3"),
    (1, ""),
];

// The text for the first `count` bytes, or none if `count` is too large.
fn text_of(count: usize) -> Option<&'static str> {
    let mut end = 0_usize;
    for (counts, text) in &CUTS {
        end = end.saturating_add(*counts);
        if count < end {
            return Some(*text);
        }
    }
    None
}

// Names the text.
fn first_unlike_cut(alloc: Global) -> Result<(&'static str, &'static str), Fail> {
    for count in 0..=A.len() {
        let Some(text) = text_of(count) else {
            return Ok(("", "the number of the texts"));
        };
        let unlike = unlike_told(alloc, &A[..count], text)?;
        if !unlike.is_empty() {
            return Ok((text, unlike));
        }
    }
    Ok(("", ""))
}

#[test]
fn a_module_that_is_cut_is_written_where_a_section_ends(rt: HostRuntime) -> Result<(), Fail> {
    assert_eq!(rt; first_unlike_cut(rt.alloc())?, ("", ""));
    assert_eq!(rt; text_of(A.len() + 1), None);
    Ok(())
}

// A module with one size or count changed: that of the types, of the characters of a name, of the
// bytes of a body.
const CHANGES: [(&str, &str); 6] = [
    (
        "01 05 02 60 00 01 7F 03 02 01 00 07 05 01 01 66 00 00 0A 06 01 04 00 41 07 0B",
        "malformed section 0",
    ),
    (
        "01 05 00 60 00 01 7F 03 02 01 00 07 05 01 01 66 00 00 0A 06 01 04 00 41 07 0B",
        "malformed section 0",
    ),
    (
        "01 05 01 60 00 01 7F 03 02 01 00 07 05 01 09 66 00 00 0A 06 01 04 00 41 07 0B",
        "malformed section 2",
    ),
    (
        "01 05 01 60 00 01 7F 03 02 01 00 07 05 01 01 66 00 00 0A 06 01 05 00 41 07 0B",
        "malformed section 3",
    ),
    (
        "01 05 01 60 00 01 7F 03 02 01 00 07 05 01 01 66 00 00 0A 06 01 03 00 41 07 0B",
        "malformed function 0",
    ),
    (GIVES, ""),
];

fn unlike_changed(alloc: Global, sections: &str, text: &str) -> Result<&'static str, Fail> {
    let bytes = module_of(alloc, sections)?;
    unlike_told(alloc, bytes.as_slice(), text)
}

// Names the sections.
fn first_unlike_changed(alloc: Global) -> Result<(&'static str, &'static str), Fail> {
    for (sections, text) in &CHANGES {
        let unlike = unlike_changed(alloc, sections, text)?;
        if !unlike.is_empty() {
            return Ok((*sections, unlike));
        }
    }
    Ok(("", ""))
}

#[test]
fn a_module_with_a_changed_size_or_count_is_refused(rt: HostRuntime) -> Result<(), Fail> {
    assert_eq!(rt; first_unlike_changed(rt.alloc())?, ("", ""));
    Ok(())
}
