ghost use Rattle.std.specs.Prelude.{◌≡◌, ◌≤◌, ◌+◌, ◌-◌, ◌^◌, ℕ, List, length, min, max, OnOk};
ghost use Rattle.wasm_write.specs.Sizes.{counted};
ghost use Rattle.wasm_write.specs.Laws.{no_more, added, not_less, told};

use crate::target::Target;
use std::convert::Infallible;
use std::marker::Model;

/// A count of the bytes of an encoding. It stops at the greatest u64.
#[derive(Drop)]
pub(crate) struct Size {
    bytes: u64,
}

impl Model for Size {
    ghost use Rattle.std.specs.Prelude.{ℕ};

    ghost Value = { ℕ };

    ghost view = { λ s. s.bytes };
}

impl Size {
    pub(crate) fn new() -> Size
        ensures { result ≡ 0 }
    {
        Size { bytes: 0 }
    }

    pub(crate) fn get(&self) -> u64
        ensures { result ≡ self.now }
    {
        self.bytes
    }

    /// Counts `more` bytes more.
    fn count(&mut self, more: u64) -> Result<(), Infallible>
        ensures { OnOk result (self.new ≡ counted self.old more) }
    {
        self.bytes = self.bytes.saturating_add(more);
        Ok(())
    }
}

impl Target for Size {
    type Refusal = Infallible;

    ghost preceded = { λ s text. counted s (length text) };

    ghost written_so_far = { λ s. s };

    ghost nothing = { λ s. no_more s };

    ghost joined = { λ s a b. added s a b };

    ghost farther = { λ s a. not_less s a };

    ghost told = { λ s a f. told s a f };

    fn byte(&mut self, value: u8) -> Result<(), Infallible> {
        self.count(1)
    }

    fn bytes(&mut self, more: &[u8]) -> Result<(), Infallible> {
        self.count(more.len() as u64)
    }

    fn written_so_far(&self) -> u64 {
        self.bytes
    }
}
