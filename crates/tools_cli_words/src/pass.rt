ghost use Rattle.std.specs.Prelude.{◌≡◌, ◌∷◌, [], ◌&&◌, None, map, option_map, is_none, string_bytes, OnOk, IfOk};
ghost use Rattle.tools_cli_words.specs.Arguments.{said_from, arguments_of, takes_value, next_argument};
ghost use Rattle.tools_cli_words.specs.Meaning.{said_value, argument_value, join_arguments, names_of};

use crate::argument::{Argument, long_name, other_word, own_value, takes_value};
use std::alloc::Global;
use wasm_bytes::NoMemory;

/// An option and its value, as they are given.
#[derive(Clone, Copy, Debug)]
pub(crate) struct SaidOption<'a> {
    pub(crate) option: &'a str,
    pub(crate) value: &'a str,
}

/// The parsed arguments by kind, in the order in which they are given.
#[derive(Drop)]
pub(crate) struct Said<'a> {
    pub(crate) values: Vec<SaidOption<'a>>,
    pub(crate) flags: Vec<&'a str>,
    pub(crate) plain: Vec<&'a str>,
}

impl<'a> Said<'a> {
    fn new(alloc: Global) -> Said<'a>
        ensures { said_value result ≡ arguments_of [] }
    {
        Said {
            values: Vec::new(alloc),
            flags: Vec::new(alloc),
            plain: Vec::new(alloc),
        }
    }

    fn add(&mut self, said: Argument<'a>) -> Result<(), NoMemory>
        ensures { OnOk result (said_value self.new ≡ join_arguments (said_value self.old) (arguments_of (argument_value said.entry ∷ []))) }
    {
        match said {
            Argument::Value { option, value } => self.values.push(SaidOption { option, value })?,
            Argument::Flag(word) => self.flags.push(word)?,
            Argument::Plain(word) => self.plain.push(word)?,
        }
        Ok(())
    }
}

// Whether the argument is an option whose value is the next argument, and not itself the value of
// `due`.
fn begins_option(options: &[&str], due: Option<&str>, word: &str) -> bool
    ensures { result ≡ (is_none due.entry && takes_value (names_of options.now) word.now) }
{
    due.is_none() && takes_value(options, word)
}

// Parses an argument: as the value of the option `due`, if there is one, or else by itself.
fn next_argument<'a>(
    options: &[&'a str],
    flags: &[&str],
    due: Option<&'a str>,
    word: &'a str,
) -> Option<Argument<'a>>
    ensures { option_map argument_value result ≡ next_argument (record { options = names_of options.now; flags = names_of flags.now }) (option_map (λ o. o.now) due.entry) word.now }
{
    match due {
        Some(option) => own_value(option, word),
        None => other_word(options, flags, word),
    }
}

/// Parses arguments with these options and flags. Returns `None` if one of them does not parse, or
/// if the last is an option that needs its value.
pub(crate) fn said_by<'a>(
    alloc: Global,
    options: &[&'a str],
    flags: &[&str],
    words: &'a [String],
) -> Result<Option<Said<'a>>, NoMemory>
    ensures { IfOk result (λ said. option_map said_value said ≡
        option_map arguments_of (said_from (record { options = names_of options.now; flags = names_of flags.now }) None (map string_bytes words.now))) }
{
    let mut said = Said::new(alloc);
    let mut due = None;
    for word in words {
        let word = word.as_str();
        if begins_option(options, due, word) {
            due = Some(long_name(word));
            continue;
        }
        let Some(argument) = next_argument(options, flags, due, word) else {
            return Ok(None);
        };
        said.add(argument)?;
        due = None;
    }
    if due.is_some() {
        return Ok(None);
    }
    Ok(Some(said))
}
