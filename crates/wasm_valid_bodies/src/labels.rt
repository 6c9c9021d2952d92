// The labels that a branch can name.

ghost use Rattle.std.specs.Prelude.{◌≡◌, ◌+◌, [], ◌∷◌, drop, length, OnOk, slice_get, option_map};
ghost use Rattle.wasm_valid_bodies.specs.Labels.{label_list};

use std::alloc::{AllocError, Global};
use wasm_tree::ValType;

/// The types that a branch to each open label takes, the innermost label last (WebAssembly Core
/// 2.0, section 3.1.1).
#[derive(Drop)]
pub struct Labels<'a> {
    open: Vec<&'a [ValType]>,
}

impl<'a> Labels<'a> {
    /// Returns `Labels` without an open label. The call allocates nothing.
    pub fn new(alloc: Global) -> Labels<'a>
        ensures { label_list result ≡ [] }
    {
        Labels {
            open: Vec::new(alloc),
        }
    }

    /// Returns the number of open labels.
    pub fn len(&self) -> usize
        ensures { result ≡ length (label_list self.now) }
    {
        self.open.len()
    }

    /// Opens a label inside the others.
    pub fn open(&mut self, types: &'a [ValType]) -> Result<(), AllocError>
        ensures { OnOk result (label_list self.new ≡ types.now ∷ label_list self.old) }
    {
        self.open.push(types)?;
        Ok(())
    }

    /// Closes all labels.
    pub fn clear(&mut self)
        ensures { label_list self.new ≡ [] }
    {
        self.open.clear();
    }

    /// Closes the innermost label.
    pub fn close(&mut self)
        ensures { label_list self.new ≡ drop 1 (label_list self.old) }
    {
        self.open.pop();
    }

    /// Returns the types of a label, counted from the innermost, if it is open.
    pub fn types_at(&self, label: u32) -> Option<&'a [ValType]>
        ensures { option_map (λ ts. ts.now) result ≡ slice_get (label_list self.now) label }
    {
        let below = self.open.len().checked_sub(label as usize)?;
        let at = below.checked_sub(1)?;
        match self.open.get(at) {
            Some(types) => Some(*types),
            None => None,
        }
    }
}
