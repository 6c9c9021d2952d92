ghost use Rattle.std.specs.Prelude.{◌≡◌, [], List, ℕ, map, string_bytes, option_map, unwrap_or, Some, IfOk};
ghost use Rattle.clap.specs.Words.{found_of, one_text, raw_values, matched_of};
ghost use Rattle.base_lists.specs.Every.{Every};
ghost use Rattle.tools_cli_words.specs.Arguments.{said_flags};
ghost use Rattle.tools_cli_words.specs.Reader.{plain_id, matched_options, GivesFlag};
ghost use Rattle.tools_cli_words.specs.Meaning.{option_value, names_of};

use crate::arguments::OptionValue;
use crate::command::PLAIN;
use clap::ArgMatches;
use std::alloc::Global;
use wasm_bytes::NoMemory;

/// Returns the options that have a value, in this order.
pub(crate) fn values_in(
    alloc: Global,
    matches: &ArgMatches<'_>,
    options: &[&'static str],
) -> Result<Vec<OptionValue>, NoMemory>
    ensures { IfOk result (λ values. map option_value values.items ≡ matched_options (found_of matches.now) (names_of options.now)) }
{
    let mut values = Vec::new(alloc);
    for option in options {
        if let Some(text) = matches.get_str(option) {
            let value = String::from_str(alloc, text)?;
            values.push(OptionValue { option, value })?;
        }
    }
    Ok(values)
}

/// Returns the flags that are set, in this order.
pub(crate) fn flags_in(
    alloc: Global,
    matches: &ArgMatches<'_>,
    flags: &[&'static str],
) -> Result<Vec<&'static str>, NoMemory>
    ensures { IfOk result (λ given. (said : List (List ℕ)) → Every (GivesFlag (found_of matches.now) said) (names_of flags.now) → names_of given.items ≡ said_flags (names_of flags.now) said) }
{
    let mut given = Vec::new(alloc);
    for flag in flags {
        if matches.get_flag(flag) {
            given.push(*flag)?;
        }
    }
    Ok(given)
}

/// Returns the positional arguments.
pub(crate) fn plain_in(alloc: Global, matches: &ArgMatches<'_>) -> Result<Vec<String>, NoMemory>
    ensures { IfOk result (λ words. map string_bytes words.items ≡ unwrap_or (option_map raw_values (matched_of (found_of matches.now) plain_id)) []) }
{
    let mut words = Vec::new(alloc);
    if let Some(given) = matches.get_strs(PLAIN) {
        for word in given {
            words.push(String::from_str(alloc, word)?)?;
        }
    }
    Ok(words)
}
