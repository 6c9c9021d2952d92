//! Parses the arguments of a command: a pass determines what each says and arranges them, `clap`
//! reads them, and its matches are looked up.
//!
//! Only for simple commands does the contract of `clap` say exactly what results, and simple
//! commands have other rules than this program, so the pass is needed. Here a value after `=` may
//! begin with `-`, no value is empty, and `-o=x`, `--` and `--help` do not parse
//! (docs/DECISIONS.md).
//!
//! Files:
//!
//! - `argument`: An option with its value, a flag, or a positional argument.
//! - `arguments`: The parsed arguments of a command: its options with their values, its flags, and
//!   its positional arguments (`plain`).
//! - `arranged`: The arguments as `clap` reads them: options first, plain words last.
//! - `command`: The `clap` command of a tool.
//! - `lists`: Cuts a list at each comma and returns its entries, borrowed from `text`.
//! - `matches`: What the matches of `clap` hold.
//! - `pass`: What each argument says: the pass over all arguments.
//! - `reading`: Parses the arguments `words` after the name of a command, for its tool.
//! - `tool`: One of the five commands of the program.
//! - `specs/Arguments`: What the arguments after the name of a command mean: values of options,
//!   flags, and positional arguments (plain words).
//! - `specs/Meaning`: What the types of the code denote in the definitions.
//! - `specs/Reader`: The `clap` command that reads arguments by a vocabulary.
//! - `specs/Vocabularies`: The options and the flags of each tool.
#![tactic(auto)]

mod argument;
mod arguments;
mod arranged;
mod command;
mod lists;
mod matches;
mod pass;
mod reading;
mod tool;

pub use arguments::{Arguments, OptionValue};
pub use lists::{cut, listed_words};
pub use reading::read_arguments;
pub use tool::Tool;
