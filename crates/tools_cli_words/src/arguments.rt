ghost use Rattle.std.specs.Prelude.{◌≡◌, option_map, IfOk};
ghost use Rattle.tools_cli_words.specs.Arguments.{only_text, only_value, value_if_any, value_or};
ghost use Rattle.tools_cli_words.specs.Meaning.{arguments_value, names_of};

use std::alloc::Global;
use wasm_bytes::NoMemory;

/// An option and its value.
#[derive(Drop)]
pub struct OptionValue {
    pub option: &'static str,
    pub value: String,
}

/// The parsed arguments of a command: its options with their values, its flags, and its positional
/// arguments (`plain`).
#[derive(Drop)]
pub struct Arguments {
    pub values: Vec<OptionValue>,
    pub flags: Vec<&'static str>,
    pub plain: Vec<String>,
}

impl Arguments {
    /// Returns the positional argument, if there is exactly one.
    pub fn only_plain(&self) -> Option<&str>
        ensures { option_map (λ text. text.now) result ≡ only_text (arguments_value self.now).plain }
    {
        match self.plain.as_slice() {
            [text] => Some(text.as_str()),
            _ => None,
        }
    }

    /// Returns the positional arguments, in order. The only error is `NoMemory`.
    pub fn plain_words(&self, alloc: Global) -> Result<Vec<&str>, NoMemory>
        ensures { IfOk result (λ words. names_of words.items ≡ (arguments_value self.now).plain) }
    {
        let mut words = Vec::new(alloc);
        for word in self.plain.as_slice() {
            words.push(word.as_str())?;
        }
        Ok(words)
    }

    /// Returns the value of an option: `Some(None)` if the option is absent, `None` if it is
    /// repeated.
    pub fn value_if_any(&self, option: &str) -> Option<Option<&str>>
        ensures { option_map (option_map (λ text. text.now)) result ≡ value_if_any option.now (arguments_value self.now) }
    {
        let mut found = None;
        for valued in self.values.as_slice() {
            if valued.option == option {
                if found.is_some() {
                    return None;
                }
                found = Some(valued.value.as_str());
            }
        }
        Some(found)
    }

    /// Returns the value of an option that is given exactly once, and otherwise `None`.
    pub fn only_value(&self, option: &str) -> Option<&str>
        ensures { option_map (λ text. text.now) result ≡ only_value option.now (arguments_value self.now) }
    {
        self.value_if_any(option).flatten()
    }

    /// Returns the value of an option, or `default` if it is absent; `None` if it is repeated.
    pub fn value_or<'a>(&'a self, option: &str, default: &'a str) -> Option<&'a str>
        ensures { option_map (λ text. text.now) result ≡ value_or option.now default.now (arguments_value self.now) }
    {
        match self.value_if_any(option) {
            Some(value) => Some(value.unwrap_or(default)),
            None => None,
        }
    }
}
