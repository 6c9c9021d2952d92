use std::alloc::Global;
use std::test::Fail;
use tools_cli_words::{Arguments, Tool, cut, listed_words, read_arguments};

// The words of a line, parted by spaces.
fn words_of(alloc: Global, line: &str) -> Result<Vec<String>, Fail> {
    let pieces: Vec<&str> = line.split(' ').collect(alloc)?;
    let mut words = Vec::new(alloc);
    for piece in pieces {
        words.push(String::from_str(alloc, piece)?)?;
    }
    Ok(words)
}

// What a line says to a tool.
fn said_by(alloc: Global, tool: Tool, line: &str) -> Result<Option<Arguments>, Fail> {
    let words = words_of(alloc, line)?;
    match read_arguments(alloc, tool, words.as_slice()) {
        Ok(said) => Ok(said),
        Err(_) => Err(Fail::new("no memory")),
    }
}

#[test]
fn words_of_a_merge_are_read_in_any_order(rt: HostRuntime) -> Result<(), Fail> {
    let alloc = rt.alloc();
    let line = "a.wasm --skip-export-conflicts a -o out.wasm b.wasm b";
    let Some(said) = said_by(alloc, Tool::Merge, line)? else {
        return Err(Fail::new("the words are right"));
    };
    let Ok(plain) = said.plain_words(alloc) else {
        return Err(Fail::new("no memory"));
    };
    assert_eq!(rt; plain.as_slice(), ["a.wasm", "a", "b.wasm", "b"].as_slice());
    assert_eq!(rt;
        said.flags.as_slice(),
        ["--skip-export-conflicts"].as_slice()
    );
    assert_eq!(rt; said.only_value("--output"), Some("out.wasm"));
    Ok(())
}

#[test]
fn options_of_a_split_have_their_values(rt: HostRuntime) -> Result<(), Fail> {
    let line = "--primary-output=-p --secondary-output s.wasm in.wasm --export-prefix=a=b";
    let Some(said) = said_by(rt.alloc(), Tool::Split, line)? else {
        return Err(Fail::new("the words are right"));
    };
    assert_eq!(rt; said.only_plain(), Some("in.wasm"));
    assert_eq!(rt; said.only_value("--primary-output"), Some("-p"));
    assert_eq!(rt; said.value_or("--export-prefix", "%"), Some("a=b"));
    assert_eq!(rt;
        said.value_or("--import-namespace", "primary"),
        Some("primary")
    );
    assert_eq!(rt; said.value_if_any("--keep-funcs"), Some(None));
    Ok(())
}

#[test]
fn words_that_no_tool_has_say_nothing(rt: HostRuntime) -> Result<(), Fail> {
    for line in [
        "--output=a -o b",
        "--output a --output=a",
        "--skip-export-conflicts --skip-export-conflicts",
        "--output",
        "--output=",
        "--output -x",
        "-o=x",
        "-ox",
        "--out=a",
        "--skip-export-conflicts=1",
        "--",
        "-",
        "--help",
        "-h",
        "--version",
        "",
    ] {
        assert!(rt; said_by(rt.alloc(), Tool::Merge, line)?.is_none());
    }
    Ok(())
}

#[test]
fn options_of_the_other_tools_are_read(rt: HostRuntime) -> Result<(), Fail> {
    for (tool, line, option, value) in [
        (
            Tool::Metadce,
            "in.wasm --graph-file g.json",
            "--graph-file",
            "g.json",
        ),
        (
            Tool::CtorEval,
            "--kept-exports=a,,b in.wasm",
            "--kept-exports",
            "a,,b",
        ),
        (Tool::Sample, "--count 10 --seed=1", "--count", "10"),
    ] {
        let Some(said) = said_by(rt.alloc(), tool, line)? else {
            return Err(Fail::new("the words are right"));
        };
        assert_eq!(rt; said.only_value(option), Some(value));
    }
    Ok(())
}

#[test]
fn a_list_is_cut_at_each_comma(rt: HostRuntime) -> Result<(), Fail> {
    let alloc = rt.alloc();
    assert_eq!(rt; cut(alloc, "a,,b")?.as_slice(), ["a", "", "b"].as_slice());
    let Ok(names) = listed_words(alloc, "a,,b") else {
        return Err(Fail::new("no memory"));
    };
    for (name, text) in names.as_slice().iter().zip(["a", "", "b"]) {
        assert_eq!(rt; name.as_str(), text);
    }
    assert_eq!(rt; names.as_slice().len(), 3);
    Ok(())
}
