ghost use Rattle.std.specs.Prelude.{◌≡◌, IfOk};
ghost use Rattle.tools_cli_words.specs.Arguments.{listed_words};
ghost use Rattle.tools_cli_words.specs.Meaning.{names_of};

use std::alloc::{AllocError, Global};
use wasm_bytes::{Items, Name, NoMemory};

/// Cuts a list at each comma and returns its entries, borrowed from `text`. The only error is
/// running out of memory.
pub fn cut<'a>(alloc: Global, text: &'a str) -> Result<Vec<&'a str>, AllocError>
    ensures { IfOk result (λ pieces. names_of pieces.items ≡ listed_words text.now) }
{
    text.split(',').collect(alloc)
}

/// Cuts a list at each comma and returns copies of its entries. The only error is `NoMemory`.
pub fn listed_words(alloc: Global, text: &str) -> Result<Items<Name>, NoMemory>
    ensures { IfOk result (λ words. words ≡ listed_words text.now) }
{
    let pieces = cut(alloc, text)?;
    let mut words = Items::new(alloc);
    for piece in pieces {
        words.keep(Name::from_text(alloc, piece)?)?;
    }
    Ok(words)
}
