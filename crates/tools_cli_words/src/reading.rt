ghost use Rattle.std.specs.Prelude.{◌≡◌, [], List, ℕ, Option, None, map, string_bytes, option_map, unwrap_or, IfOk};
ghost use Rattle.base_lists.specs.Every.{Every};
ghost use Rattle.clap.specs.Words.{found_of, raw_values, matched_of};
ghost use Rattle.tools_cli_words.specs.Arguments.{said_together, said_flags};
ghost use Rattle.tools_cli_words.specs.Vocabularies.{vocabulary_of};
ghost use Rattle.tools_cli_words.specs.Reader.{Parsed, ReadFrom, app_of_vocabulary};
ghost use Rattle.tools_cli_words.specs.Meaning.{arguments_value};

use crate::arguments::Arguments;
use crate::arranged::arranged;
use crate::command::command;
use crate::matches::{flags_in, plain_in, values_in};
use crate::pass::said_by;
use crate::tool::Tool;
use clap::ArgMatches;
use clap::error::ErrorKind;
use std::alloc::Global;
use wasm_bytes::NoMemory;

// Returns the matches of arranged arguments by the command of a tool, or `None` if it refuses them.
fn parse<'a>(
    alloc: Global,
    tool: Tool,
    words: &'a [String],
) -> Result<Option<ArgMatches<'a>>, NoMemory>
    ensures { IfOk result (λ parsed. Parsed (app_of_vocabulary (vocabulary_of tool)) (map string_bytes words.entry.now) parsed) }
{
    let command = command(alloc, tool.options(), tool.flags())?;
    match command.try_get_matches_from(words) {
        Ok(matches) => Ok(Some(matches)),
        Err(error) if error.kind() == ErrorKind::OutOfMemory => Err(NoMemory),
        Err(_) => Ok(None),
    }
}

// Returns the arguments that the matches report.
fn arguments_in(alloc: Global, tool: Tool, matches: &ArgMatches<'_>) -> Result<Arguments, NoMemory>
    ensures { IfOk result (λ arguments. ReadFrom (vocabulary_of tool) (found_of matches.now) (arguments_value arguments)) }
{
    Ok(Arguments {
        values: values_in(alloc, matches, tool.options())?,
        flags: flags_in(alloc, matches, tool.flags())?,
        plain: plain_in(alloc, matches)?,
    })
}

/// Parses the arguments `words` after the name of a command, for its tool. Returns `None` if one of
/// them does not parse, or if an option or a flag is repeated. The options and flags are in the
/// order of the tool's vocabulary. The only error is `NoMemory`.
pub fn read_arguments(
    alloc: Global,
    tool: Tool,
    words: &[String],
) -> Result<Option<Arguments>, NoMemory>
    ensures { IfOk result (λ arguments. option_map arguments_value arguments ≡ said_together (vocabulary_of tool) (map string_bytes words.now)) }
{
    let Some(said) = said_by(alloc, tool.options(), tool.flags(), words)? else {
        return Ok(None);
    };
    let arranged = arranged(alloc, &said)?;
    match parse(alloc, tool, arranged.as_slice())? {
        Some(matches) => Ok(Some(arguments_in(alloc, tool, &matches)?)),
        None => Ok(None),
    }
}
