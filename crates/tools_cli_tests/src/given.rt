// Command lines, files and modules for the tests of this crate and of binkit_tests.
use std::alloc::Global;
use std::test::Fail;
use tool_io::{MemFiles, MemSink};
use tools_cli::{Status, run};

// The magic number and the version.
pub const HEADER: [u8; 8] = [0x00, 0x61, 0x73, 0x6D, 0x01, 0x00, 0x00, 0x00];

// One function, exported as f, that returns 7.
pub const A: [u8; 34] = [
    0x00, 0x61, 0x73, 0x6D, 0x01, 0x00, 0x00, 0x00, 0x01, 0x05, 0x01, 0x60, 0x00, 0x01, 0x7F, 0x03,
    0x02, 0x01, 0x00, 0x07, 0x05, 0x01, 0x01, 0x66, 0x00, 0x00, 0x0A, 0x06, 0x01, 0x04, 0x00, 0x41,
    0x07, 0x0B,
];

// A without its last byte.
pub const CUT: [u8; 33] = [
    0x00, 0x61, 0x73, 0x6D, 0x01, 0x00, 0x00, 0x00, 0x01, 0x05, 0x01, 0x60, 0x00, 0x01, 0x7F, 0x03,
    0x02, 0x01, 0x00, 0x07, 0x05, 0x01, 0x01, 0x66, 0x00, 0x00, 0x0A, 0x06, 0x01, 0x04, 0x00, 0x41,
    0x07,
];

fn add_word(alloc: Global, words: &mut Vec<String>, word: &str) -> Result<(), Fail> {
    let word = if word == "''" { "" } else { word };
    words.push(String::from_str(alloc, word)?)?;
    Ok(())
}

fn add_words(alloc: Global, words: &mut Vec<String>, line: &str) -> Result<(), Fail> {
    for word in line.split_whitespace() {
        add_word(alloc, words, word)?;
    }
    Ok(())
}

// The arguments of a line. The argument `''` is empty.
pub fn words_of(alloc: Global, line: &str) -> Result<Vec<String>, Fail> {
    let mut words = Vec::new(alloc);
    add_words(alloc, &mut words, line)?;
    Ok(words)
}

// The result of a run: its status, the texts on standard output and standard error, and the files
// after it.
#[derive(Drop)]
pub struct Ran {
    pub ended: Status,
    pub out: MemSink,
    pub err: MemSink,
    pub files: MemFiles,
}

// Runs these arguments over the files and streams.
fn run_over(
    alloc: Global,
    words: &[String],
    mut files: MemFiles,
    mut out: MemSink,
    mut err: MemSink,
) -> Ran {
    let ended = run(alloc, words, &mut files, &mut out, &mut err);
    Ran {
        ended,
        out,
        err,
        files,
    }
}

// Runs these arguments over the files.
pub fn run_words(alloc: Global, words: &[String], files: MemFiles) -> Ran {
    run_over(
        alloc,
        words,
        files,
        MemSink::new(alloc),
        MemSink::new(alloc),
    )
}

// Runs a line over the files.
pub fn run_line(alloc: Global, files: MemFiles, line: &str) -> Result<Ran, Fail> {
    let words = words_of(alloc, line)?;
    Ok(run_words(alloc, words.as_slice(), files))
}

// A stream whose `put` of this number fails, or none if the number is 0.
fn failing_sink(alloc: Global, put: u64) -> Result<MemSink, Fail> {
    let mut sink = MemSink::new(alloc);
    sink.fail_at(put)?;
    Ok(sink)
}

// These files, of which the call of this number fails, or none if the number is 0.
pub fn failing_files(mut files: MemFiles, call: u64) -> Result<MemFiles, Fail> {
    files.fail_at(call)?;
    Ok(files)
}

// Runs these arguments over the files, where the `put` of the first number on standard output and
// that of the second on standard error fail.
fn run_words_failing(
    alloc: Global,
    words: &[String],
    files: MemFiles,
    (out_put, err_put): (u64, u64),
) -> Result<Ran, Fail> {
    let out = failing_sink(alloc, out_put)?;
    let err = failing_sink(alloc, err_put)?;
    Ok(run_over(alloc, words, files, out, err))
}

// The same of a line.
pub fn run_line_failing(
    alloc: Global,
    files: MemFiles,
    line: &str,
    puts: (u64, u64),
) -> Result<Ran, Fail> {
    let words = words_of(alloc, line)?;
    run_words_failing(alloc, words.as_slice(), files, puts)
}

// Adds a file with these bytes.
pub fn with_file(mut files: MemFiles, name: &str, bytes: &[u8]) -> Result<MemFiles, Fail> {
    files.add(name, bytes)?;
    Ok(files)
}

// Adds a file with this module.
pub fn with_module(
    alloc: Global,
    files: MemFiles,
    name: &str,
    sections: &str,
) -> Result<MemFiles, Fail> {
    let bytes = module_of(alloc, sections)?;
    with_file(files, name, bytes.as_slice())
}

// Functions whose names begin with `unlike` return the name of the first thing that is not as
// expected, or the empty text if everything is. Those whose names begin with `first_unlike` return
// the text of the first row of which something is not as expected, and the name of this thing; if
// there is no such row, all their texts are empty.
impl Ran {
    // Expects this status and these texts on standard output and on standard error.
    pub fn unlike(&self, ended: Status, out: &str, err: &str) -> &'static str {
        if self.err.text() != err.as_bytes() {
            return "standard error";
        }
        if self.ended != ended {
            return "the status";
        }
        if self.out.text() != out.as_bytes() {
            return "standard output";
        }
        ""
    }

    // Whether a file holds exactly these bytes.
    pub fn has(&self, name: &str, bytes: &[u8]) -> bool {
        match self.files.contents(name) {
            Some(held) => held == bytes,
            None => false,
        }
    }

    // Whether a file holds exactly this module.
    pub fn has_module(&self, alloc: Global, name: &str, sections: &str) -> Result<bool, Fail> {
        let module = module_of(alloc, sections)?;
        Ok(self.has(name, module.as_slice()))
    }

    // Expects status `Done`, these lines on standard output, nothing on standard error, and this
    // module in a file.
    pub fn unlike_done(
        &self,
        alloc: Global,
        lines: &str,
        name: &str,
        sections: &str,
    ) -> Result<&'static str, Fail> {
        if !self.has_module(alloc, name, sections)? {
            return Ok("the output");
        }
        Ok(self.unlike(Status::Done, lines, ""))
    }

    // Expects the refusal with this text, and no file of this name.
    pub fn unlike_refused(&self, text: &str, name: &str) -> &'static str {
        if self.files.contents(name).is_some() {
            return "the output";
        }
        self.unlike(Status::Refused, "", text)
    }

    // Expects the refusal with this text, and no file of this name; or, if the text is empty,
    // status `Done`, nothing on the streams, and these bytes in the file.
    pub fn unlike_written(&self, name: &str, bytes: &[u8], text: &str) -> &'static str {
        if !text.is_empty() {
            return self.unlike_refused(text, name);
        }
        if !self.has(name, bytes) {
            return "the output";
        }
        self.unlike(Status::Done, "", "")
    }
}

// Adds the bytes that a text has in hexadecimal.
fn add_bytes(bytes: &mut Vec<u8>, text: &str) -> Result<(), Fail> {
    for byte in text.split_whitespace() {
        bytes.push(u8::from_str_radix(byte, 16)?)?;
    }
    Ok(())
}

// A module, from its sections in hexadecimal.
pub fn module_of(alloc: Global, sections: &str) -> Result<Vec<u8>, Fail> {
    let mut bytes = Vec::from_slice(alloc, &HEADER)?;
    add_bytes(&mut bytes, sections)?;
    Ok(bytes)
}

pub fn zeros(alloc: Global, count: usize) -> Result<Vec<u8>, Fail> {
    let mut bytes = Vec::new(alloc);
    for _ in 0..count {
        bytes.push(0)?;
    }
    Ok(bytes)
}

// Adds `count` tables of functions, each empty.
fn add_tables(bytes: &mut Vec<u8>, count: usize) -> Result<(), Fail> {
    for _ in 0..count {
        add_bytes(bytes, "70 00 00")?;
    }
    Ok(())
}

fn add_tables_and_tail(bytes: &mut Vec<u8>, count: usize, tail: &str) -> Result<(), Fail> {
    add_tables(bytes, count)?;
    add_bytes(bytes, tail)
}

// A module of `count` tables of functions, each empty: `head` is the table section up to its count,
// and `tail` the sections after it.
pub fn module_of_tables(
    alloc: Global,
    head: &str,
    count: usize,
    tail: &str,
) -> Result<Vec<u8>, Fail> {
    let mut bytes = module_of(alloc, head)?;
    add_tables_and_tail(&mut bytes, count, tail)?;
    Ok(bytes)
}

fn add_times(bytes: &mut Vec<u8>, count: usize, text: &str) -> Result<(), Fail> {
    for _ in 0..count {
        add_bytes(bytes, text)?;
    }
    Ok(())
}

fn add_blocks(bytes: &mut Vec<u8>, count: usize) -> Result<(), Fail> {
    add_times(bytes, count, "02 40")?;
    add_times(bytes, count, "0B")?;
    add_bytes(bytes, "0B")
}

// A module whose last body has so many blocks, each in the one before: `head` are its sections up
// to the first block.
pub fn module_of_blocks(alloc: Global, head: &str, count: usize) -> Result<Vec<u8>, Fail> {
    let mut bytes = module_of(alloc, head)?;
    add_blocks(&mut bytes, count)?;
    Ok(bytes)
}

// Merges a.wasm of these bytes alone into o.wasm.
pub fn merge_one(alloc: Global, bytes: &[u8]) -> Result<Ran, Fail> {
    let files = with_file(MemFiles::new(alloc), "a.wasm", bytes)?;
    run_line(alloc, files, "merge a.wasm a -o o.wasm")
}

// Two files, a.wasm and b.wasm.
pub fn two_files(alloc: Global, a: &[u8], b: &[u8]) -> Result<MemFiles, Fail> {
    let files = with_file(MemFiles::new(alloc), "a.wasm", a)?;
    with_file(files, "b.wasm", b)
}

// Two files, for the parts `a` and `b`.
fn two_modules(alloc: Global, a: &str, b: &str) -> Result<MemFiles, Fail> {
    let files = with_module(alloc, MemFiles::new(alloc), "a.wasm", a)?;
    with_module(alloc, files, "b.wasm", b)
}

// Merges the parts `a` and `b` into o.wasm, with at most one flag.
pub fn merge_two(alloc: Global, a: &str, b: &str, flag: &str) -> Result<Ran, Fail> {
    let line = format!(in alloc; "merge a.wasm a b.wasm b -o o.wasm {flag}")?;
    run_line(alloc, two_modules(alloc, a, b)?, line.as_str())
}

// One function, exported as f, that returns 7.
pub const GIVES: &str =
    "01 05 01 60 00 01 7F 03 02 01 00 07 05 01 01 66 00 00 0A 06 01 04 00 41 07 0B";

// A module as a linker leaves it.
pub const LINKED: &str = "\
    01 0D 03 60 00 00 60 01 7F 01 7F 60 01 7F 00 \
    02 0B 01 03 65 6E 76 03 6C 6F 67 00 02 \
    03 05 04 00 00 01 01 \
    04 05 01 70 01 05 05 \
    05 03 01 00 02 \
    06 08 01 7F 01 41 90 88 04 0B \
    07 24 03 06 6D 65 6D 6F 72 79 02 00 11 5F 5F 77 61 73 6D 5F 63 61 6C 6C 5F 63 74 6F 72 73 00 \
    01 03 72 75 6E 00 04 \
    09 07 01 00 41 01 0B 01 03 \
    0A 33 04 08 00 10 82 80 80 80 00 0B 0A 00 41 00 41 2A 36 02 84 08 0B 07 00 20 00 41 01 74 0B \
    15 00 20 00 10 80 80 80 80 00 20 00 41 01 11 81 80 80 80 00 00 0B \
    0B 09 01 00 41 80 08 0B 02 68 69 \
    00 32 04 6E 61 6D 65 01 2B 05 00 03 6C 6F 67 01 11 5F 5F 77 61 73 6D 5F 63 61 6C 6C 5F 63 74 \
    6F 72 73 02 04 69 6E 69 74 03 05 74 77 69 63 65 04 03 72 75 6E \
    00 0B 09 70 72 6F 64 75 63 65 72 73 00";

// A function whose type has a result, and which returns none.
pub const NOTHING_GIVEN: &str = "01 05 01 60 00 01 7F 03 02 01 00 0A 04 01 02 00 0B";

// A function, exported as add, that adds its parameters. Its primary module calls it through a
// trampoline.
pub const ADDS: &str =
    "01 07 01 60 02 7F 7F 01 7F 03 02 01 00 07 07 01 03 61 64 64 00 00 0A 09 01 07 00 20 00 20 01 6A 0B";

pub const ADDS_PRIMARY: &str = "\
    01 07 01 60 02 7F 7F 01 7F \
    02 11 01 0B 70 6C 61 63 65 68 6F 6C 64 65 72 01 30 00 00 \
    03 02 01 00 \
    04 05 01 70 01 01 01 \
    07 10 02 03 61 64 64 00 01 06 25 73 6C 6F 74 73 01 00 \
    09 07 01 00 41 00 0B 01 00 \
    0A 0D 01 0B 00 20 00 20 01 41 00 11 00 00 0B";

pub const ADDS_SECONDARY: &str =
    "01 07 01 60 02 7F 7F 01 7F 02 15 01 07 70 72 69 6D 61 72 79 06 25 73 6C 6F 74 73 01 70 01 01 01 03 02 01 00 09 07 01 00 41 00 0B 01 00 0A 09 01 07 00 20 00 20 01 6A 0B";

// A function, exported as i, that copies from a segment.
pub const COPIES: &str =
    "01 04 01 60 00 00 03 02 01 00 05 03 01 00 01 07 05 01 01 69 00 00 0C 01 01 0A 0E 01 0C 00 41 00 41 00 41 00 FC 08 00 00 0B 0B 04 01 01 01 78";

pub const COPIES_PRIMARY: &str = "\
    01 04 01 60 00 00 \
    03 02 01 00 \
    04 05 01 70 01 00 00 \
    05 03 01 00 01 \
    07 0E 02 01 69 00 00 06 25 73 6C 6F 74 73 01 00 \
    09 06 01 00 41 00 0B 00 \
    0C 01 01 \
    0A 0E 01 0C 00 41 00 41 00 41 00 FC 08 00 00 0B \
    0B 04 01 01 01 78";

pub const COPIES_SECONDARY: &str =
    "01 04 01 60 00 00 02 15 01 07 70 72 69 6D 61 72 79 06 25 73 6C 6F 74 73 01 70 01 00 00 09 06 01 00 41 00 0B 00";

// The import env.cb, and functions 1 to 3, exported as a, b and c. Function 1 calls the import and
// names function 3.
pub const CALLS_BACK: &str =
    "01 04 01 60 00 00 02 0A 01 03 65 6E 76 02 63 62 00 00 03 04 03 00 00 00 07 0D 03 01 61 00 01 01 62 00 02 01 63 00 03 0A 0F 03 07 00 10 00 D2 03 1A 0B 02 00 0B 02 00 0B";

// A host that uses a, and that calls b when the module calls it back.
pub const HOST: &str = "\
    [{\"name\":\"out\",\"root\":true,\"reaches\":[\"A\"]},{\"name\":\"A\",\"export\":\"a\"},\
    {\"name\":\"cb\",\"import\":[\"env\",\"cb\"],\"reaches\":[\"B\"]},\
    {\"name\":\"B\",\"export\":\"b\"},{\"name\":\"C\",\"export\":\"c\"}]";

// What is left for HOST: the export c is gone, and function 3 is declared.
pub const LEFT: &str =
    "01 04 01 60 00 00 02 0A 01 03 65 6E 76 02 63 62 00 00 03 04 03 00 00 00 07 09 02 01 61 00 01 01 62 00 02 09 05 01 03 00 01 03 0A 0F 03 07 00 10 00 D2 03 1A 0B 02 00 0B 02 00 0B";
