// The task that the arguments of a command line ask for.
ghost use Rattle.std.specs.Prelude.{◌≡◌, ◌<◌, ◌≤◌, ◌^◌, true, map, option_map, option_and_then, string_bytes, IfOk, IfSome};
ghost use Rattle.tools_cli_words.specs.Arguments.{listed_words};
ghost use Rattle.tools_cli_spec.specs.CommandLine.{task_of, task_of_arguments, tool_named, tool_in, said_to_tool};
ghost use Rattle.tools_cli_spec.specs.CommandLine.{merge_of_arguments, metadce_of_arguments, split_of_arguments, outputs_said, words_said};
ghost use Rattle.tools_cli_spec.specs.CommandLine.{names_said, ctor_eval_of_arguments, words_apart, words_if_any, sample_of_arguments, seed_in, count_in, sources_of, some_apart, are_apart, flag_mode};
ghost use Rattle.tools_cli_spec.specs.CommandLine.{merge_mode, usage_line};
ghost use Rattle.tools_cli_decide.specs.Command.{task_value, outputs_value, arguments_value, names_of};
ghost use Rattle.tools_cli_decide.specs.Sources.{source_values, source_names};

use crate::ctor_eval::CtorEvalTask;
use crate::merge::{MergeTask, Source};
use crate::metadce::MetadceTask;
use crate::numbers::number_within;
use crate::sample::SampleTask;
use crate::split::{SplitOutputs, SplitTask};
use crate::task::Task;
use merge_names::Mode;
use split_spec::SplitNames;
use std::alloc::Global;
use std::collections::BTreeMap;
use tools_cli_spec::SplitWords;
use tools_cli_words::{Arguments, Tool, cut, listed_words, read_arguments};
use wasm_bytes::{Items, Name, NoMemory};

// The output option of each command that has one output.
const OUTPUT_OPTION: &str = "--output";

// Pairs positional arguments as a file and a name; returns `None` if the last file has no name.
fn pair<'a>(alloc: Global, plain: &[&'a str]) -> Result<Option<Vec<Source<'a>>>, NoMemory>
    ensures { IfOk result (λ sources. option_map (λ s. source_values s.items) sources ≡ sources_of (names_of plain.now)) }
{
    let mut sources = Vec::new(alloc);
    for words in plain.chunks(2) {
        let [file, name] = words else {
            return Ok(None);
        };
        sources.push(Source { file, name })?;
    }
    Ok(Some(sources))
}

// Whether no two of the words are equal.
fn are_apart(alloc: Global, words: &[&str]) -> Result<bool, NoMemory>
    ensures { IfOk result (λ apart. apart ≡ are_apart (names_of words.now)) }
{
    let mut came: BTreeMap<&str, ()> = BTreeMap::new(alloc);
    for word in words {
        if came.contains_key(*word) {
            return Ok(false);
        }
        came.insert(*word, ())?;
    }
    Ok(true)
}

fn source_names<'a>(alloc: Global, sources: &[Source<'a>]) -> Result<Vec<&'a str>, NoMemory>
    ensures { IfOk result (λ names. names_of names.items ≡ source_names sources.now) }
{
    let mut names = Vec::new(alloc);
    for source in sources {
        names.push(source.name)?;
    }
    Ok(names)
}

// Returns the sources, if there is at least one and their names are distinct.
fn some_apart<'a>(alloc: Global, plain: &[&'a str]) -> Result<Option<Vec<Source<'a>>>, NoMemory>
    ensures sources { IfOk result (λ sources. option_map (λ s. source_values s.items) sources ≡ option_and_then some_apart (sources_of (names_of plain.now))) }
    ensures apart { IfOk result (λ sources. IfSome sources (λ s. are_apart (source_names s.items) ≡ true)) }
{
    let Some(sources) = pair(alloc, plain)? else {
        return Ok(None);
    };
    if sources.is_empty() {
        return Ok(None);
    }
    let names = source_names(alloc, sources.as_slice())?;
    if are_apart(alloc, names.as_slice())? {
        Ok(Some(sources))
    } else {
        Ok(None)
    }
}

// The mode that a flag selects.
fn flag_mode(flag: &str) -> Option<Mode>
    ensures { result ≡ flag_mode flag.now }
{
    if flag == "--rename-export-conflicts" {
        return Some(Mode::Rename);
    }
    if flag == "--skip-export-conflicts" {
        return Some(Mode::Skip);
    }
    None
}

// Returns the mode, if there is at most one flag.
fn merge_mode(flags: &[&str]) -> Option<Mode>
    ensures { result ≡ merge_mode (names_of flags.now) }
{
    match flags {
        [] => Some(Mode::Refuse),
        [flag] => flag_mode(flag),
        _ => None,
    }
}

// Returns the task of `merge`, or `None`.
fn merge_of_arguments<'a>(
    alloc: Global,
    arguments: &'a Arguments,
) -> Result<Option<Task<'a>>, NoMemory>
    ensures { IfOk result (λ task. option_map task_value task ≡ merge_of_arguments (arguments_value arguments.now)) }
{
    let plain = arguments.plain_words(alloc)?;
    let Some(sources) = some_apart(alloc, plain.as_slice())? else {
        return Ok(None);
    };
    let Some(output) = arguments.only_value(OUTPUT_OPTION) else {
        return Ok(None);
    };
    let Some(mode) = merge_mode(arguments.flags.as_slice()) else {
        return Ok(None);
    };
    Ok(Some(Task::Merge(MergeTask {
        sources,
        output,
        mode,
    })))
}

// Returns the task of `metadce`, or `None`.
fn metadce_of_arguments<'a>(arguments: &'a Arguments) -> Option<Task<'a>>
    ensures { option_map task_value result ≡ metadce_of_arguments (arguments_value arguments.now) }
{
    let file = arguments.only_plain()?;
    let graph_file = arguments.only_value("--graph-file")?;
    let output = arguments.only_value(OUTPUT_OPTION)?;
    Some(Task::Metadce(MetadceTask {
        file,
        graph_file,
        output,
    }))
}

// Returns both outputs of a split, if they are given and differ.
fn outputs_said<'a>(arguments: &'a Arguments) -> Option<SplitOutputs<'a>>
    ensures { option_map outputs_value result ≡ outputs_said (arguments_value arguments.now) }
{
    let primary = arguments.only_value("--primary-output")?;
    let secondary = arguments.only_value("--secondary-output")?;
    if primary == secondary {
        return None;
    }
    Some(SplitOutputs { primary, secondary })
}

// Returns the entries of a list, if there is one.
fn words_in(alloc: Global, list: Option<&str>) -> Result<Option<Items<Name>>, NoMemory>
    ensures { IfOk result (λ words. words ≡ option_map listed_words (option_map (λ text. text.now) list.entry)) }
{
    match list {
        Some(text) => Ok(Some(listed_words(alloc, text)?)),
        None => Ok(None),
    }
}

// Returns the lists of functions to move and to keep, or `None`.
fn words_said(alloc: Global, arguments: &Arguments) -> Result<Option<SplitWords>, NoMemory>
    ensures { IfOk result (λ words. words ≡ words_said (arguments_value arguments.now)) }
{
    let Some(split) = arguments.value_if_any("--split-funcs") else {
        return Ok(None);
    };
    let Some(keep) = arguments.value_if_any("--keep-funcs") else {
        return Ok(None);
    };
    if split.is_none() && keep.is_none() {
        return Ok(None);
    }
    Ok(Some(SplitWords {
        split: words_in(alloc, split)?,
        keep: words_in(alloc, keep)?,
    }))
}

// Returns the names that a split adds, or `None`.
fn names_said(alloc: Global, arguments: &Arguments) -> Result<Option<SplitNames>, NoMemory>
    ensures { IfOk result (λ names. names ≡ names_said (arguments_value arguments.now)) }
{
    let Some(importing) = arguments.value_or("--import-namespace", "primary") else {
        return Ok(None);
    };
    let Some(placeholder) = arguments.value_or("--placeholder-namespace", "placeholder") else {
        return Ok(None);
    };
    let Some(prefix) = arguments.value_or("--export-prefix", "%") else {
        return Ok(None);
    };
    Ok(Some(SplitNames {
        import_namespace: Name::from_text(alloc, importing)?,
        placeholder_namespace: Name::from_text(alloc, placeholder)?,
        export_prefix: Name::from_text(alloc, prefix)?,
    }))
}

// Returns the task of `split`, or `None`.
fn split_of_arguments<'a>(
    alloc: Global,
    arguments: &'a Arguments,
) -> Result<Option<Task<'a>>, NoMemory>
    ensures { IfOk result (λ task. option_map task_value task ≡ split_of_arguments (arguments_value arguments.now)) }
{
    let Some(file) = arguments.only_plain() else {
        return Ok(None);
    };
    let Some(outputs) = outputs_said(arguments) else {
        return Ok(None);
    };
    let Some(words) = words_said(alloc, arguments)? else {
        return Ok(None);
    };
    let Some(names) = names_said(alloc, arguments)? else {
        return Ok(None);
    };
    Ok(Some(Task::Split(SplitTask {
        file,
        outputs,
        words,
        names,
    })))
}

// Returns the entries of a list, if they are distinct.
fn words_apart(alloc: Global, list: &str) -> Result<Option<Items<Name>>, NoMemory>
    ensures { IfOk result (λ words. words ≡ words_apart list.now) }
{
    let words = cut(alloc, list)?;
    if are_apart(alloc, words.as_slice())? {
        Ok(Some(listed_words(alloc, list)?))
    } else {
        Ok(None)
    }
}

// Returns the entries of a list; none if there is no list.
fn words_if_any(alloc: Global, list: Option<&str>) -> Result<Items<Name>, NoMemory>
    ensures { IfOk result (λ words. words ≡ words_if_any (option_map (λ text. text.now) list.entry)) }
{
    match list {
        Some(text) => listed_words(alloc, text),
        None => Ok(Items::new(alloc)),
    }
}

// Returns the task of `ctor-eval`, or `None`.
fn ctor_eval_of_arguments<'a>(
    alloc: Global,
    arguments: &'a Arguments,
) -> Result<Option<Task<'a>>, NoMemory>
    ensures { IfOk result (λ task. option_map task_value task ≡ ctor_eval_of_arguments (arguments_value arguments.now)) }
{
    let Some(file) = arguments.only_plain() else {
        return Ok(None);
    };
    let Some(list) = arguments.only_value("--ctors") else {
        return Ok(None);
    };
    let Some(ctors) = words_apart(alloc, list)? else {
        return Ok(None);
    };
    let Some(kept) = arguments.value_if_any("--kept-exports") else {
        return Ok(None);
    };
    let Some(output) = arguments.only_value(OUTPUT_OPTION) else {
        return Ok(None);
    };
    let kept = words_if_any(alloc, kept)?;
    Ok(Some(Task::CtorEval(CtorEvalTask {
        file,
        ctors,
        kept,
        output,
    })))
}

// Returns the seed of a sample, or `None`.
fn seed_in(text: &str) -> Option<u32>
    ensures value { result ≡ seed_in text.now }
    ensures few { IfSome result (λ seed. seed < 2 ^ 31) }
{
    number_within(text, 0, 2_147_483_647)
}

// Returns how many functions each module of a sample has, or `None`.
fn count_in(text: &str) -> Option<u32>
    ensures value { result ≡ count_in text.now }
    ensures some { IfSome result (λ count. 1 ≤ count) }
    ensures most { IfSome result (λ count. count ≤ 100000) }
{
    number_within(text, 1, 100_000)
}

// Returns the task of `sample`, or `None`.
fn sample_of_arguments<'a>(arguments: &'a Arguments) -> Option<Task<'a>>
    ensures { option_map task_value result ≡ sample_of_arguments (arguments_value arguments.now) }
{
    if !arguments.plain.is_empty() {
        return None;
    }
    let seed = seed_in(arguments.only_value("--seed")?)?;
    let count = count_in(arguments.only_value("--count")?)?;
    let output = arguments.value_if_any(OUTPUT_OPTION)?;
    Some(Task::Sample(SampleTask {
        seed,
        count,
        output,
    }))
}

// The tool that the first argument of a command line names.
fn tool_named(word: &str) -> Option<Tool>
    ensures { result ≡ tool_named word.now }
{
    if word == "merge" {
        return Some(Tool::Merge);
    }
    if word == "metadce" {
        return Some(Tool::Metadce);
    }
    if word == "split" {
        return Some(Tool::Split);
    }
    if word == "ctor-eval" {
        return Some(Tool::CtorEval);
    }
    if word == "sample" {
        return Some(Tool::Sample);
    }
    None
}

// The tool of a command line.
fn tool_in(words: &[String]) -> Option<Tool>
    ensures { result ≡ tool_in (map string_bytes words.now) }
{
    match words.first() {
        Some(word) => tool_named(word.as_str()),
        None => None,
    }
}

/// Parses the arguments after the first one for the tool that the first one names. Returns `None`
/// if there is no such tool or they do not parse.
pub fn said_to_tool(alloc: Global, words: &[String]) -> Result<Option<Arguments>, NoMemory>
    ensures { IfOk result (λ said. option_map arguments_value said ≡ said_to_tool (map string_bytes words.now)) }
{
    let Some((word, rest)) = words.split_first() else {
        return Ok(None);
    };
    match tool_named(word.as_str()) {
        Some(tool) => read_arguments(alloc, tool, rest),
        None => Ok(None),
    }
}

// Returns the task that parsed arguments ask of a tool, or `None`.
fn task_of_arguments<'a>(
    alloc: Global,
    tool: Tool,
    arguments: &'a Arguments,
) -> Result<Option<Task<'a>>, NoMemory>
    ensures { IfOk result (λ task. option_map task_value task ≡ task_of_arguments tool (arguments_value arguments.now)) }
{
    match tool {
        Tool::Merge => merge_of_arguments(alloc, arguments),
        Tool::Metadce => Ok(metadce_of_arguments(arguments)),
        Tool::Split => split_of_arguments(alloc, arguments),
        Tool::CtorEval => ctor_eval_of_arguments(alloc, arguments),
        Tool::Sample => Ok(sample_of_arguments(arguments)),
    }
}

/// Returns the task of a command line, or `None`. `said` are its parsed arguments. If memory ran
/// out while they were parsed, the result is `NoMemory` too.
pub fn parse<'a>(
    alloc: Global,
    words: &[String],
    said: &'a Result<Option<Arguments>, NoMemory>,
) -> Result<Option<Task<'a>>, NoMemory>
    requires { IfOk said.now (λ a. option_map arguments_value a ≡ said_to_tool (map string_bytes words.now)) }
    ensures { IfOk result (λ task. option_map task_value task ≡ task_of (map string_bytes words.now)) }
{
    let arguments = match said {
        Ok(Some(arguments)) => arguments,
        Ok(None) => return Ok(None),
        Err(_) => return Err(NoMemory),
    };
    match tool_in(words) {
        Some(tool) => task_of_arguments(alloc, tool, arguments),
        None => Ok(None),
    }
}

/// Returns the usage line for these arguments.
pub fn usage(words: &[String]) -> &'static str
    ensures { result.now ≡ usage_line (map string_bytes words.now) }
{
    match words.first() {
        Some(word) if word.as_str() == "merge" => "usage: binkit merge\n",
        Some(word) if word.as_str() == "metadce" => "usage: binkit metadce\n",
        Some(word) if word.as_str() == "split" => "usage: binkit split\n",
        Some(word) if word.as_str() == "ctor-eval" => "usage: binkit ctor-eval\n",
        Some(word) if word.as_str() == "sample" => "usage: binkit sample\n",
        _ => "usage: binkit merge|split|metadce|ctor-eval|sample\n",
    }
}
