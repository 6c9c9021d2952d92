ghost use Rattle.std.specs.Prelude.{◌≡◌, List, ℕ, option_map, option_and_then, bytes_eq};
ghost use Rattle.std.specs.List.{list_any};
ghost use Rattle.tools_cli_words.specs.Arguments.{is_plain, long_name, takes_value, behind, own_value, value_behind, joined_value, other_word};
ghost use Rattle.tools_cli_words.specs.Meaning.{argument_value, names_of};

/// An option with its value, a flag, or a positional argument.
#[derive(Drop)]
pub(crate) enum Argument<'a> {
    Value { option: &'a str, value: &'a str },
    Flag(&'a str),
    Plain(&'a str),
}

// Whether the argument may be positional, or a value.
fn is_plain(word: &str) -> bool
    ensures { result ≡ is_plain word.now }
{
    !word.is_empty() && !word.starts_with('-')
}

fn is_one_of(words: &[&str], word: &str) -> bool
    ensures { result ≡ list_any (bytes_eq word.now) (names_of words.now) }
{
    words.contains(&word)
}

/// The output option of each command that has one output.
pub(crate) const OUTPUT_OPTION: &str = "--output";

/// Returns `--output` for the option `-o`, and any other argument as it is. It keeps the hyphens;
/// `long_name` of the module `command` takes them away.
pub(crate) fn long_name(word: &str) -> &str
    ensures { result.now ≡ long_name word.now }
{
    if word == "-o" { OUTPUT_OPTION } else { word }
}

/// Whether the argument is an option whose value is the next argument.
pub(crate) fn takes_value(options: &[&str], word: &str) -> bool
    ensures { result ≡ takes_value (names_of options.now) word.now }
{
    is_one_of(options, long_name(word))
}

/// Returns the option with the next argument as its value, if it can be one.
pub(crate) fn own_value<'a>(option: &'a str, word: &'a str) -> Option<Argument<'a>>
    ensures { option_map argument_value result ≡ own_value option.now word.now }
{
    if is_plain(word) {
        Some(Argument::Value {
            option,
            value: word,
        })
    } else {
        None
    }
}

// Returns the option with its value, from what follows the option in its argument.
fn value_behind<'a>(option: &'a str, rest: &'a str) -> Option<Argument<'a>>
    ensures { option_map argument_value result ≡ value_behind option.now rest.now }
{
    match rest.strip_prefix("=") {
        Some(value) if !value.is_empty() => Some(Argument::Value { option, value }),
        _ => None,
    }
}

// Returns this option with its value, if the argument has both.
fn value_in<'a>(option: &'a str, word: &'a str) -> Option<Argument<'a>>
    ensures { option_map argument_value result ≡ option_and_then (value_behind option.now) (behind option.now word.now) }
{
    match word.strip_prefix(option) {
        Some(rest) => value_behind(option, rest),
        None => None,
    }
}

// Returns an option with its value, if the argument has both.
fn joined_value<'a>(options: &[&'a str], word: &'a str) -> Option<Argument<'a>>
    ensures { option_map argument_value result ≡ joined_value (names_of options.now) word.now }
{
    for option in options {
        if let Some(said) = value_in(option, word) {
            return Some(said);
        }
    }
    None
}

/// Parses any other argument: not an option whose value is the next argument, and not such a value.
pub(crate) fn other_word<'a>(
    options: &[&'a str],
    flags: &[&str],
    word: &'a str,
) -> Option<Argument<'a>>
    ensures { option_map argument_value result ≡ other_word (record { options = names_of options.now; flags = names_of flags.now }) word.now }
{
    if is_plain(word) {
        return Some(Argument::Plain(word));
    }
    if is_one_of(flags, word) {
        return Some(Argument::Flag(word));
    }
    joined_value(options, word)
}
