ghost use Rattle.std.specs.Prelude.{◌≡◌, ◌++◌, ◌∷◌, codes, map, string_bytes, IfOk, OnOk};
ghost use Rattle.tools_cli_words.specs.Arguments.{arranged_words, option_word};
ghost use Rattle.tools_cli_words.specs.Meaning.{said_value, said_option, names_of};

use crate::pass::{Said, SaidOption};
use std::alloc::Global;
use wasm_bytes::NoMemory;

// An option and its value as one argument.
fn option_word(alloc: Global, said: &SaidOption<'_>) -> Result<String, NoMemory>
    ensures { IfOk result (λ word. string_bytes word ≡ option_word (said_option said.now)) }
{
    let mut word = String::from_str(alloc, said.option)?;
    word.push_str("=")?;
    word.push_str(said.value)?;
    Ok(word)
}

// Adds each option with its value.
fn add_options(
    alloc: Global,
    words: &mut Vec<String>,
    values: &[SaidOption<'_>],
) -> Result<(), NoMemory>
    ensures { OnOk result (map string_bytes words.new.items ≡ map string_bytes words.old.items ++ map option_word (map said_option values.now)) }
{
    for said in values {
        words.push(option_word(alloc, said)?)?;
    }
    Ok(())
}

fn add_words(alloc: Global, words: &mut Vec<String>, more: &[&str]) -> Result<(), NoMemory>
    ensures { OnOk result (map string_bytes words.new.items ≡ map string_bytes words.old.items ++ names_of more.now) }
{
    for word in more {
        words.push(String::from_str(alloc, word)?)?;
    }
    Ok(())
}

/// Returns the program's name and then the arguments: the options first, each with its value in one
/// argument, then the flags, and the positional arguments last.
pub(crate) fn arranged(alloc: Global, said: &Said<'_>) -> Result<Vec<String>, NoMemory>
    ensures { IfOk result (λ words. map string_bytes words.items ≡ codes "binkit" ∷ arranged_words (said_value said.now)) }
{
    let mut words = Vec::new(alloc);
    words.push(String::from_str(alloc, "binkit")?)?;
    add_options(alloc, &mut words, said.values.as_slice())?;
    add_words(alloc, &mut words, said.flags.as_slice())?;
    add_words(alloc, &mut words, said.plain.as_slice())?;
    Ok(words)
}
