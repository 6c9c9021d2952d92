use std::alloc::Global;
use std::test::Fail;
use tool_io::MemFiles;
use tools_cli_tests::given::{
    CALLS_BACK, CUT, HOST, LEFT, LINKED, NOTHING_GIVEN, Ran, module_of, run_line, with_file, zeros,
};

const LINE: &str = "metadce m.wasm --graph-file=g.json -o o.wasm";

// Runs a line over a module and a graph.
fn run_over(alloc: Global, module: &[u8], graph: &[u8], line: &str) -> Result<Ran, Fail> {
    let files = with_file(MemFiles::new(alloc), "m.wasm", module)?;
    let files = with_file(files, "g.json", graph)?;
    run_line(alloc, files, line)
}

// Runs the line over a module, of these sections, and a graph.
fn sweep(alloc: Global, module: &str, graph: &str) -> Result<Ran, Fail> {
    let module = module_of(alloc, module)?;
    run_over(alloc, module.as_slice(), graph.as_bytes(), LINE)
}

// Expects this to be left of a module by a graph, and these lines to be printed.
fn unlike_left(
    alloc: Global,
    module: &str,
    graph: &str,
    lines: &str,
    left: &str,
) -> Result<&'static str, Fail> {
    let ran = sweep(alloc, module, graph)?;
    ran.unlike_done(alloc, lines, "o.wasm", left)
}

// Expects the refusal of a module and a graph with this text.
fn unlike_refused(
    alloc: Global,
    module: &[u8],
    graph: &[u8],
    text: &str,
) -> Result<&'static str, Fail> {
    let ran = run_over(alloc, module, graph, LINE)?;
    Ok(ran.unlike_refused(text, "o.wasm"))
}

// What is left if nothing is reached.
const NOTHING: &str = "01 04 01 60 00 00";

// A graph, the lines, and what is left of CALLS_BACK.
const SWEPT: [(&str, &str, &str); 6] = [
    (HOST, "unused: C\n", LEFT),
    ("[]", "", NOTHING),
    // an import that a node denotes is not kept by it
    (
        "[{\"name\":\"out\",\"root\":true,\"reaches\":[\"cb\"]},{\"name\":\"cb\",\"import\":[\"env\",\"cb\"]}]",
        "",
        NOTHING,
    ),
    // an export that the module does not have
    (
        "[{\"name\":\"z\",\"root\":true,\"export\":\"zz\"}]",
        "",
        NOTHING,
    ),
    (
        "[{\"name\":\"A\",\"root\":true,\"export\":\"a\"},{\"name\":\"B\",\"root\":true,\"export\":\"b\"},{\"name\":\"C\",\"root\":true,\"export\":\"c\"}]",
        "",
        CALLS_BACK,
    ),
    // in the order of the bytes of the names, and not of the file
    (
        "[{\"name\":\"b\"},{\"name\":\"\\ud83d\\ude00\"},{\"name\":\"\\ufffd\"},{\"name\":\"B\"},{\"name\":\"bb\"}]",
        "unused: B\nunused: b\nunused: bb\nunused: \u{fffd}\nunused: \u{1f600}\n",
        NOTHING,
    ),
];

// Names the graph.
fn first_unlike_left(alloc: Global) -> Result<(&'static str, &'static str), Fail> {
    for (graph, lines, left) in &SWEPT {
        let unlike = unlike_left(alloc, CALLS_BACK, graph, lines, left)?;
        if !unlike.is_empty() {
            return Ok((*graph, unlike));
        }
    }
    Ok(("", ""))
}

#[test]
fn what_no_path_reaches_is_left_out_and_told(rt: HostRuntime) -> Result<(), Fail> {
    assert_eq!(rt; first_unlike_left(rt.alloc())?, ("", ""));
    Ok(())
}

// What is left of a linker's module, for a host that uses its memory and run.
const LINKED_LEFT: &str = "\
    01 0D 03 60 00 00 60 01 7F 01 7F 60 01 7F 00 \
    02 0B 01 03 65 6E 76 03 6C 6F 67 00 02 \
    03 03 02 01 01 \
    04 05 01 70 01 05 05 \
    05 03 01 00 02 \
    07 10 02 06 6D 65 6D 6F 72 79 02 00 03 72 75 6E 00 02 \
    09 07 01 00 41 01 0B 01 01 \
    0A 17 02 07 00 20 00 41 01 74 0B 0D 00 20 00 10 00 20 00 41 01 11 01 00 0B \
    0B 09 01 00 41 80 08 0B 02 68 69";

#[test]
fn a_module_as_a_linker_leaves_it_is_swept(rt: HostRuntime) -> Result<(), Fail> {
    let alloc = rt.alloc();
    let graph = "\
        [{\"name\":\"main\",\"root\":true,\"reaches\":[\"run\",\"mem\"]},\
        {\"name\":\"run\",\"export\":\"run\"},{\"name\":\"mem\",\"export\":\"memory\"},\
        {\"name\":\"ctors\",\"export\":\"__wasm_call_ctors\"}]";
    let unlike = unlike_left(alloc, LINKED, graph, "unused: ctors\n", LINKED_LEFT)?;
    assert_eq!(rt; unlike, "");
    Ok(())
}

// A graph, and the text with which it is refused.
const REFUSED: [(&str, &str); 7] = [
    ("{", "binkit: g.json: not JSON\n"),
    ("", "binkit: g.json: not JSON\n"),
    ("{}", "binkit: g.json: entry 0 has the wrong shape\n"),
    (
        "[{\"name\":1}]",
        "binkit: g.json: entry 0 has the wrong shape\n",
    ),
    (
        "[{\"name\":\"a\"},{\"name\":\"b\",\"export\":\"b\",\"import\":[\"env\",\"b\"]}]",
        "binkit: g.json: entry 1 has the wrong shape\n",
    ),
    (
        "[{\"name\":\"a\"},{\"name\":\"a\"}]",
        "binkit: g.json: node a stands twice\n",
    ),
    (
        "[{\"name\":\"a\",\"reaches\":[\"b\"]}]",
        "binkit: g.json: no node b\n",
    ),
];

// Expects the refusal of a graph with this text.
fn unlike_refused_graph(alloc: Global, graph: &str, text: &str) -> Result<&'static str, Fail> {
    let ran = sweep(alloc, CALLS_BACK, graph)?;
    Ok(ran.unlike_refused(text, "o.wasm"))
}

// Names the graph.
fn first_unlike_refused(alloc: Global) -> Result<(&'static str, &'static str), Fail> {
    for (graph, text) in &REFUSED {
        let unlike = unlike_refused_graph(alloc, graph, text)?;
        if !unlike.is_empty() {
            return Ok((*graph, unlike));
        }
    }
    Ok(("", ""))
}

#[test]
fn graphs_are_refused_with_their_text(rt: HostRuntime) -> Result<(), Fail> {
    assert_eq!(rt; first_unlike_refused(rt.alloc())?, ("", ""));
    Ok(())
}

// Expects the refusal of this module, of a graph that is not JSON, as invalid.
fn unlike_invalid(alloc: Global) -> Result<&'static str, Fail> {
    let invalid = module_of(alloc, NOTHING_GIVEN)?;
    let text = "binkit: m.wasm: invalid body 0\n";
    unlike_refused(alloc, invalid.as_slice(), b"{", text)
}

#[test]
fn the_module_is_read_and_validated_before_the_graph_is_read(rt: HostRuntime) -> Result<(), Fail> {
    let alloc = rt.alloc();
    let text = "binkit: m.wasm: malformed section 3\n";
    assert_eq!(rt; unlike_refused(alloc, &CUT, b"{", text)?, "");
    assert_eq!(rt; unlike_invalid(alloc)?, "");
    Ok(())
}

// Expects the refusal with this text of CALLS_BACK and so many zeros that the two have the most
// input bytes and `more`.
fn unlike_zeros(alloc: Global, more: usize, text: &str) -> Result<&'static str, Fail> {
    let module = module_of(alloc, CALLS_BACK)?;
    let left = 16_777_216_usize.saturating_sub(module.len());
    let graph = zeros(alloc, left.saturating_add(more))?;
    unlike_refused(alloc, module.as_slice(), graph.as_slice(), text)
}

#[test]
fn the_graph_counts_as_input_bytes(rt: HostRuntime) -> Result<(), Fail> {
    let alloc = rt.alloc();
    let text = "binkit: g.json: limit on input bytes\n";
    assert_eq!(rt; unlike_zeros(alloc, 1, text)?, "");
    assert_eq!(rt; unlike_zeros(alloc, 0, "binkit: g.json: not JSON\n")?, "");
    Ok(())
}

// Expects the inputs to be unchanged but for one of this name, and the output to be what is left.
fn unlike_beside(
    alloc: Global,
    ran: &Ran,
    module: &[u8],
    name: &str,
) -> Result<&'static str, Fail> {
    if name != "m.wasm" && !ran.has("m.wasm", module) {
        return Ok("the module");
    }
    if name != "g.json" && !ran.has("g.json", HOST.as_bytes()) {
        return Ok("the graph");
    }
    ran.unlike_done(alloc, "unused: C\n", name, LEFT)
}

// Runs a line over this module and the graph of the host, and expects that.
fn unlike_over(alloc: Global, module: &[u8], line: &str, name: &str) -> Result<&'static str, Fail> {
    let ran = run_over(alloc, module, HOST.as_bytes(), line)?;
    unlike_beside(alloc, &ran, module, name)
}

// Expects a line over the module and the graph of the host to be done, and to write what is left to
// this file.
fn unlike_for_the_host(alloc: Global, line: &str, name: &str) -> Result<&'static str, Fail> {
    let module = module_of(alloc, CALLS_BACK)?;
    unlike_over(alloc, module.as_slice(), line, name)
}

// Names the line.
fn first_unlike_for_the_host(
    alloc: Global,
    lines: &[(&'static str, &'static str)],
) -> Result<(&'static str, &'static str), Fail> {
    for (line, name) in lines {
        let unlike = unlike_for_the_host(alloc, line, name)?;
        if !unlike.is_empty() {
            return Ok((*line, unlike));
        }
    }
    Ok(("", ""))
}

// Lines, and the output of each, which is one of its files.
const OVERWRITING: [(&str, &str); 2] = [
    ("metadce m.wasm --graph-file g.json -o m.wasm", "m.wasm"),
    ("metadce m.wasm --graph-file g.json -o g.json", "g.json"),
];

#[test]
fn the_output_may_be_one_of_its_files(rt: HostRuntime) -> Result<(), Fail> {
    assert_eq!(rt;
        first_unlike_for_the_host(rt.alloc(), &OVERWRITING)?,
        ("", "")
    );
    Ok(())
}

// Adds as many element segments as the limit allows, each empty and passive.
fn add_segments(bytes: &mut Vec<u8>) -> Result<(), Fail> {
    for _ in 0..300_000 {
        bytes.extend_from_slice(&[1, 0, 0])?;
    }
    Ok(())
}

// Adds these segments and two bodies. The second names the first function.
fn add_segments_and_code(bytes: &mut Vec<u8>) -> Result<(), Fail> {
    add_segments(bytes)?;
    bytes.extend_from_slice(&[
        0x0A, 0x0A, 0x02, 0x02, 0x00, 0x0B, 0x05, 0x00, 0xD2, 0x00, 0x1A, 0x0B,
    ])?;
    Ok(())
}

// As many element segments as the limit allows, each empty and passive, and a function that names
// another which only an export declares.
fn many_segments(alloc: Global) -> Result<Vec<u8>, Fail> {
    let mut bytes = module_of(
        alloc,
        "01 04 01 60 00 00 03 03 02 00 00 07 09 02 01 61 00 00 01 62 00 01 09 A3 F7 36 E0 A7 12",
    )?;
    add_segments_and_code(&mut bytes)?;
    Ok(bytes)
}

fn unlike_segments(alloc: Global) -> Result<&'static str, Fail> {
    let module = many_segments(alloc)?;
    let graph = b"[{\"name\":\"B\",\"root\":true,\"export\":\"b\"}]";
    let text = "binkit: output exceeds the limit on element segments\n";
    unlike_refused(alloc, module.as_slice(), graph, text)
}

#[test]
fn a_segment_too_many_is_told(rt: HostRuntime) -> Result<(), Fail> {
    assert_eq!(rt; unlike_segments(rt.alloc())?, "");
    Ok(())
}

// Lines whose options stand elsewhere, and the output of each.
const ANYWHERE: [(&str, &str); 3] = [
    ("metadce -o o.wasm --graph-file g.json m.wasm", "o.wasm"),
    (
        "metadce --output=o.wasm m.wasm --graph-file=g.json",
        "o.wasm",
    ),
    (
        "metadce --output o.wasm --graph-file=g.json m.wasm",
        "o.wasm",
    ),
];

#[test]
fn its_options_stand_anywhere_and_once(rt: HostRuntime) -> Result<(), Fail> {
    assert_eq!(rt; first_unlike_for_the_host(rt.alloc(), &ANYWHERE)?, ("", ""));
    Ok(())
}
