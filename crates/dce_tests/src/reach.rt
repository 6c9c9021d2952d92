// What is reached of small modules by small graphs.

ghost use Rattle.std.specs.Prelude.{◌<◌, ◌^◌, length};

use crate::graph_files::graph_of;
use dce_graph::{Graph, Reached, reached};
use std::alloc::{AllocError, Global};
use std::test::Fail;
use wasm_bytes::{Items, NoMemory};
use wasm_read::read;
use wasm_valid::{Valid, validate};

// Three functions behind an imported one. The first calls the imported one and names the last; they are exported as a, b and c.
const CALLING: &[u8] = b"\
    \0asm\x01\0\0\0\
    \x01\x04\x01\x60\x00\x00\
    \x02\x0A\x01\x03env\x02cb\x00\x00\
    \x03\x04\x03\x00\x00\x00\
    \x07\x0D\x03\x01a\x00\x01\x01b\x00\x02\x01c\x00\x03\
    \x0A\x0F\x03\x07\x00\x10\x00\xD2\x03\x1A\x0B\x02\x00\x0B\x02\x00\x0B";

// What a linker writes: an imported log, constructors, init, twice and run, which calls log, and twice through the table.
const LINKED: &[u8] = b"\
    \0asm\x01\0\0\0\
    \x01\x0D\x03\x60\x00\x00\x60\x01\x7F\x01\x7F\x60\x01\x7F\x00\
    \x02\x0B\x01\x03env\x03log\x00\x02\
    \x03\x05\x04\x00\x00\x01\x01\
    \x04\x05\x01\x70\x01\x05\x05\
    \x05\x03\x01\x00\x02\
    \x06\x08\x01\x7F\x01\x41\x90\x88\x04\x0B\
    \x07\x24\x03\x06memory\x02\x00\x11__wasm_call_ctors\x00\x01\x03run\x00\x04\
    \x09\x07\x01\x00\x41\x01\x0B\x01\x03\
    \x0A\x33\x04\x08\x00\x10\x82\x80\x80\x80\x00\x0B\x0A\x00\x41\x00\x41\x2A\x36\x02\x84\x08\x0B\
    \x07\x00\x20\x00\x41\x01\x74\x0B\x15\x00\x20\x00\x10\x80\x80\x80\x80\x00\x20\x00\x41\x01\x11\
    \x81\x80\x80\x80\x00\x00\x0B\
    \x0B\x09\x01\x00\x41\x80\x08\x0B\x02hi";

// An imported table, memory and two globals; globals 2 and 3 are i32 of 7 and function 2; functions 0 to 5, of which 1 is the start. The first segment is
// active at global 0 and names function 3, the second is passive and names function 4 and the third declares function 5. The data segment is at global 1.
const ROOTS: &[u8] = b"\
    \0asm\x01\0\0\0\
    \x01\x04\x01\x60\x00\x00\
    \x02\x1E\x04\x01m\x01t\x01\x70\x00\x0A\x01m\x01p\x02\x00\x01\x01m\x01g\x03\x7F\x00\x01m\x01h\
    \x03\x7F\x00\
    \x03\x07\x06\x00\x00\x00\x00\x00\x00\
    \x06\x0B\x02\x7F\x01\x41\x07\x0B\x70\x00\xD2\x02\x0B\
    \x07\x09\x02\x01x\x03\x03\x01t\x01\x00\
    \x08\x01\x01\
    \x09\x0F\x03\x00\x23\x00\x0B\x01\x03\x01\x00\x01\x04\x03\x00\x01\x05\
    \x0A\x13\x06\x02\x00\x0B\x02\x00\x0B\x02\x00\x0B\x02\x00\x0B\x02\x00\x0B\x02\x00\x0B\
    \x0B\x07\x01\x00\x23\x01\x0B\x01\x2A";

// Two functions, imported by one module and field and exported as a and b.
const IMPORTED_TWICE: &[u8] =
    b"\0asm\x01\0\0\0\x01\x04\x01\x60\x00\x00\x02\x13\x02\x03env\x02cb\x00\x00\x03env\x02cb\x00\x00\x07\x09\x02\x01a\x00\x00\x01b\x00\x01";

fn valid_of(alloc: Global, bytes: &[u8]) -> Result<Valid, Fail> {
    if bytes.len() >= 0x1_0000_0000 {
        return Err(Fail::new("too long"));
    }
    match validate(alloc, read(alloc, bytes)?) {
        Ok(valid) => Ok(valid),
        Err(_rejected) => Err(Fail::new("not valid")),
    }
}

// What is reached of a module by a graph, both of which are then dropped.
fn marks_by(alloc: Global, graph: Graph, valid: Valid) -> Result<Reached, NoMemory>
    requires { length graph.nodes < 2 ^ 32 }
{
    reached(alloc, &graph, &valid)
}

fn marks_of(alloc: Global, bytes: &[u8], text: &[u8]) -> Result<Reached, Fail> {
    let graph = graph_of(alloc, text)?;
    let valid = valid_of(alloc, bytes)?;
    Ok(marks_by(alloc, graph, valid)?)
}

// Adds `+` for each mark that is set, `-` for others.
fn add_marks(text: &mut String, marks: &Items<bool>) -> Result<(), AllocError> {
    for mark in marks.as_slice() {
        text.push(if *mark { '+' } else { '-' })?;
    }
    Ok(())
}

// Adds a space, and the same.
fn add_next(text: &mut String, marks: &Items<bool>) -> Result<(), AllocError> {
    text.push(' ')?;
    add_marks(text, marks)
}

fn add_all(text: &mut String, marks: &Reached) -> Result<(), AllocError> {
    add_marks(text, &marks.nodes)?;
    add_next(text, &marks.exports)?;
    add_next(text, &marks.imports)?;
    add_next(text, &marks.funcs)?;
    add_next(text, &marks.globals)
}

// The marks of nodes, exports, imports, functions and globals that are reached.
fn shown(alloc: Global, bytes: &[u8], text: &[u8]) -> Result<String, Fail> {
    let marks = marks_of(alloc, bytes, text)?;
    let mut shown = String::new(alloc);
    add_all(&mut shown, &marks)?;
    Ok(shown)
}

#[test]
fn an_import_that_is_reached_reaches_its_nodes(rt: HostRuntime) -> Result<(), Fail> {
    let text = b"\
        [{\"name\":\"out\",\"root\":true,\"reaches\":[\"A\"]},{\"name\":\"A\",\"export\":\"a\"},\
        {\"name\":\"cb\",\"import\":[\"env\",\"cb\"],\"reaches\":[\"B\"]},\
        {\"name\":\"B\",\"export\":\"b\"},{\"name\":\"C\",\"export\":\"c\"}]";
    assert_eq!(rt;
        shown(rt.alloc(), CALLING, text)?.as_str(),
        "++++- ++- + ++++ "
    );
    Ok(())
}

#[test]
fn a_node_does_not_reach_its_import(rt: HostRuntime) -> Result<(), Fail> {
    let text =
        b"[{\"name\":\"cb\",\"root\":true,\"import\":[\"env\",\"cb\"],\"reaches\":[\"B\"]},{\"name\":\"B\",\"export\":\"b\"},{\"name\":\"none\",\"root\":true,\"export\":\"d\"}]";
    assert_eq!(rt;
        shown(rt.alloc(), CALLING, text)?.as_str(),
        "+++ -+- - --+- "
    );
    Ok(())
}

#[test]
fn a_function_in_an_active_segment_is_reached(rt: HostRuntime) -> Result<(), Fail> {
    let text = b"\
        [{\"name\":\"main\",\"root\":true,\"reaches\":[\"run\",\"mem\"]},\
        {\"name\":\"run\",\"export\":\"run\"},{\"name\":\"mem\",\"export\":\"memory\"},\
        {\"name\":\"ctors\",\"export\":\"__wasm_call_ctors\"}]";
    assert_eq!(rt;
        shown(rt.alloc(), LINKED, text)?.as_str(),
        "+++- +-+ + +--++ -"
    );
    Ok(())
}

#[test]
fn roots_of_the_module_are_reached_by_an_empty_graph(rt: HostRuntime) -> Result<(), Fail> {
    assert_eq!(rt;
        shown(rt.alloc(), ROOTS, b"[]")?.as_str(),
        " -- ++++ -+-++- ++--"
    );
    Ok(())
}

#[test]
fn an_exported_global_reaches_its_initialiser(rt: HostRuntime) -> Result<(), Fail> {
    let text =
        b"[{\"name\":\"x\",\"root\":true,\"export\":\"x\"},{\"name\":\"h\",\"import\":[\"m\",\"h\"]},{\"name\":\"i\",\"import\":[\"m\",\"h\"]},{\"name\":\"j\",\"import\":[\"m\",\"j\"]}]";
    assert_eq!(rt;
        shown(rt.alloc(), ROOTS, text)?.as_str(),
        "+++- +- ++++ -++++- ++-+"
    );
    Ok(())
}

#[test]
fn imports_of_one_module_and_field_reach_the_same_nodes(rt: HostRuntime) -> Result<(), Fail> {
    let text = b"\
        [{\"name\":\"a\",\"root\":true,\"export\":\"a\"},\
        {\"name\":\"b\",\"root\":true,\"export\":\"b\"},\
        {\"name\":\"c\",\"import\":[\"env\",\"cb\"]},{\"name\":\"d\",\"import\":[\"env\",\"cc\"]},\
        {\"name\":\"e\",\"import\":[\"env\",\"cb\"]},{\"name\":\"f\",\"import\":[\"other\",\"cb\"]}]";
    assert_eq!(rt;
        shown(rt.alloc(), IMPORTED_TWICE, text)?.as_str(),
        "+++-+- ++ ++ ++ "
    );
    Ok(())
}
