ghost use Rattle.std.specs.Prelude.{◌≡◌, ◌∷◌, [], IfOk};
ghost use Rattle.tools_cli_decide.specs.Command.{names_of};

use std::alloc::Global;
use wasm_bytes::{Items, Name, NoMemory};

/// What `ctor-eval` is to do.
#[derive(Drop)]
pub struct CtorEvalTask<'a> {
    pub file: &'a str,
    pub ctors: Items<Name>,
    pub kept: Items<Name>,
    pub output: &'a str,
}

impl<'a> CtorEvalTask<'a> {
    /// Returns the file of the module.
    pub(crate) fn files(&self, alloc: Global) -> Result<Vec<&'a str>, NoMemory>
        ensures { IfOk result (λ names. names_of names.items ≡ self.now.file.now ∷ []) }
    {
        let mut names = Vec::new(alloc);
        names.push(self.file)?;
        Ok(names)
    }
}
