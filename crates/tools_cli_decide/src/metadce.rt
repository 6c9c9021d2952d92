ghost use Rattle.std.specs.Prelude.{◌≡◌, ◌∷◌, [], IfOk};
ghost use Rattle.tools_cli_decide.specs.Command.{names_of};

use std::alloc::Global;
use wasm_bytes::NoMemory;

/// What `metadce` is to do.
#[derive(Clone, Copy, Debug)]
pub struct MetadceTask<'a> {
    pub file: &'a str,
    pub graph_file: &'a str,
    pub output: &'a str,
}

impl<'a> MetadceTask<'a> {
    /// Returns the file of the module and that of the graph.
    pub(crate) fn files(&self, alloc: Global) -> Result<Vec<&'a str>, NoMemory>
        ensures { IfOk result (λ names. names_of names.items ≡ self.now.file.now ∷ (self.now.graph_file.now ∷ [])) }
    {
        let mut names = Vec::new(alloc);
        names.push(self.file)?;
        names.push(self.graph_file)?;
        Ok(names)
    }
}
