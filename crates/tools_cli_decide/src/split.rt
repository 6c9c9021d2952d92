use split_spec::SplitNames;
use std::alloc::Global;
use tools_cli_spec::SplitWords;
use wasm_bytes::NoMemory;

/// The output files of a split.
#[derive(Clone, Copy, Debug)]
pub struct SplitOutputs<'a> {
    pub primary: &'a str,
    pub secondary: &'a str,
}

/// What `split` is to do.
#[derive(Drop)]
pub struct SplitTask<'a> {
    pub file: &'a str,
    pub outputs: SplitOutputs<'a>,
    pub words: SplitWords,
    pub names: SplitNames,
}

impl<'a> SplitTask<'a> {
    ghost use Rattle.std.specs.Prelude.{◌≡◌, ◌∷◌, [], IfOk};
    ghost use Rattle.tools_cli_decide.specs.Command.{names_of};

    /// Returns the file of the module.
    pub(crate) fn files(&self, alloc: Global) -> Result<Vec<&'a str>, NoMemory>
        ensures { IfOk result (λ names. names_of names.items ≡ self.now.file.now ∷ []) }
    {
        let mut names = Vec::new(alloc);
        names.push(self.file)?;
        Ok(names)
    }
}
