ghost use Rattle.std.specs.Prelude.{◌≡◌, IfOk, string_bytes, decimal};

use itoa::Buffer;
use std::alloc::Global;
use wasm_bytes::NoMemory;

/// A number with its decimal digits.
#[derive(Drop)]
pub struct Digits {
    pub number: u32,
    text: String,
    ghost decimal: { string_bytes text ≡ decimal number },
}

impl Digits {
    /// Makes the digits of a number.
    pub fn new(alloc: Global, number: u32) -> Result<Digits, NoMemory>
        ensures { IfOk result (λ digits. digits.number ≡ number) }
    {
        let mut buffer = Buffer::new();
        let text = String::from_str(alloc, buffer.format(number))?;
        Ok(Digits { number, text })
    }

    /// Returns the digits.
    pub fn as_str(&self) -> &str
        ensures { result.now ≡ decimal self.now.number }
    {
        self.text.as_str()
    }
}
