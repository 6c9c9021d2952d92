ghost use Rattle.std.specs.Prelude.{◌≡◌, false, IfOk};
ghost use Rattle.clap.specs.Words.{app_of, rule_of};
ghost use Rattle.tools_cli_words.specs.Meaning.{names_of};
ghost use Rattle.tools_cli_words.specs.Reader.{app_of_vocabulary, long_of_option, option_rule, flag_rule, plain_rule};

use clap::{Arg, ArgAction, Command};
use std::alloc::{AllocError, Global};

/// The id of the positional arguments.
pub(crate) const PLAIN: &str = "words";

// The name of an option or a flag without its two hyphens, as `Arg::long` takes it.
fn long_name<'a>(word: &'a str) -> &'a str
    ensures { result.now ≡ long_of_option word.now }
{
    match word.strip_prefix("--") {
        Some(name) => name,
        None => word,
    }
}

fn option<'a>(alloc: Global, word: &'a str) -> Arg<'a>
    ensures rule { rule_of result ≡ option_rule word.now }
    ensures local { result.global ≡ false }
{
    Arg::new(alloc, word)
        .long(long_name(word))
        .action(ArgAction::Set)
}

fn flag<'a>(alloc: Global, word: &'a str) -> Arg<'a>
    ensures rule { rule_of result ≡ flag_rule word.now }
    ensures local { result.global ≡ false }
{
    Arg::new(alloc, word)
        .long(long_name(word))
        .action(ArgAction::SetTrue)
}

fn plain<'a>(alloc: Global) -> Arg<'a>
    ensures rule { rule_of result ≡ plain_rule }
    ensures local { result.global ≡ false }
{
    Arg::new(alloc, PLAIN)
        .action(ArgAction::Append)
        .num_args(1..)
}

/// Makes the `clap` command with these options and flags, and with positional arguments.
pub(crate) fn command<'a>(
    alloc: Global,
    options: &[&'a str],
    flags: &[&'a str],
) -> Result<Command<'a>, AllocError>
    ensures { IfOk result (λ c. app_of c ≡ app_of_vocabulary (record { options = names_of options.now; flags = names_of flags.now })) }
{
    let mut command = Command::new(alloc, "binkit");
    for word in options {
        command = command.arg(option(alloc, word))?;
    }
    for word in flags {
        command = command.arg(flag(alloc, word))?;
    }
    command.arg(plain(alloc))
}
