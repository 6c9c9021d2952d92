ghost use Rattle.std.specs.Prelude.{◌≡◌, true, IfOk};
ghost use Rattle.tools_cli_spec.specs.CommandLine.{are_apart};
ghost use Rattle.tools_cli_decide.specs.Sources.{source_names};

use merge_names::Mode;
use std::alloc::Global;
use wasm_bytes::NoMemory;

/// A part of a merge: the file that holds it, and its name.
#[derive(Clone, Copy, Debug)]
pub struct Source<'a> {
    pub file: &'a str,
    pub name: &'a str,
}

/// What `merge` is to do.
#[derive(Drop)]
pub struct MergeTask<'a> {
    pub sources: Vec<Source<'a>>,
    pub output: &'a str,
    pub mode: Mode,
    ghost apart: { are_apart (source_names sources.items) ≡ true },
}

impl<'a> MergeTask<'a> {
    ghost use Rattle.tools_cli_spec.specs.CommandLine.{source_files};
    ghost use Rattle.tools_cli_decide.specs.Command.{merge_value, names_of};

    /// Returns the files of the parts, in order.
    pub(crate) fn files(&self, alloc: Global) -> Result<Vec<&'a str>, NoMemory>
        ensures { IfOk result (λ names. names_of names.items ≡ source_files (merge_value self.now)) }
    {
        let mut names = Vec::new(alloc);
        for source in &self.sources {
            names.push(source.file)?;
        }
        Ok(names)
    }
}
