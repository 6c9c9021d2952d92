//! Tests of tools_cli_words and tool_io.
#![tactic(auto)]

#[cfg(test)]
mod files;
#[cfg(test)]
mod words;
