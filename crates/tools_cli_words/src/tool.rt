ghost use Rattle.std.specs.Prelude.{◌≡◌};
ghost use Rattle.tools_cli_words.specs.Vocabularies.{vocabulary_of};
ghost use Rattle.tools_cli_words.specs.Meaning.{names_of};

/// One of the five commands of the program.
#[derive(Clone, Copy, Debug, PartialEq, Eq)]
pub enum Tool {
    Merge,
    Split,
    Metadce,
    CtorEval,
    Sample,
}

impl Tool {
    /// Returns the options of the tool, each of which takes a value.
    pub(crate) fn options(self) -> &'static [&'static str]
        ensures { names_of result.now ≡ (vocabulary_of self).options }
    {
        match self {
            Tool::Merge => MERGE_OPTIONS.as_slice(),
            Tool::Split => SPLIT_OPTIONS.as_slice(),
            Tool::Metadce => METADCE_OPTIONS.as_slice(),
            Tool::CtorEval => CTOR_EVAL_OPTIONS.as_slice(),
            Tool::Sample => SAMPLE_OPTIONS.as_slice(),
        }
    }

    /// Returns the flags of the tool.
    pub(crate) fn flags(self) -> &'static [&'static str]
        ensures { names_of result.now ≡ (vocabulary_of self).flags }
    {
        match self {
            Tool::Merge => MERGE_FLAGS.as_slice(),
            Tool::Split | Tool::Metadce | Tool::CtorEval | Tool::Sample => NO_FLAGS.as_slice(),
        }
    }
}

static MERGE_OPTIONS: [&str; 1] = ["--output"];

static MERGE_FLAGS: [&str; 2] = ["--rename-export-conflicts", "--skip-export-conflicts"];

static SPLIT_OPTIONS: [&str; 7] = [
    "--primary-output",
    "--secondary-output",
    "--split-funcs",
    "--keep-funcs",
    "--import-namespace",
    "--placeholder-namespace",
    "--export-prefix",
];

static METADCE_OPTIONS: [&str; 2] = ["--graph-file", "--output"];

static CTOR_EVAL_OPTIONS: [&str; 3] = ["--ctors", "--kept-exports", "--output"];

static SAMPLE_OPTIONS: [&str; 3] = ["--seed", "--count", "--output"];

static NO_FLAGS: [&str; 0] = [];
