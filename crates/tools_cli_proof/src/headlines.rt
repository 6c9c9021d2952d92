// The headline of each command, written out.
ghost use Rattle.std.specs.Prelude.{◌≡◌, List, ℕ, Option, Some};
ghost use Rattle.tool_io.specs.FilesAndSinks.{FileContents};
ghost use Rattle.tools_cli_spec.specs.CommandLine.{task_of, Merge, MergeTask, Metadce, MetadceTask, Split, SplitTask, CtorEval, CtorEvalTask, Sample, SampleTask};
ghost use Rattle.tools_cli_spec.specs.Faithful.{EndsFaithful};
ghost use Rattle.tools_cli_proof.specs.Headlines.{MergeIsFaithful, MetadceIsFaithful, SplitIsFaithful, CtorEvalIsFaithful, SampleIsFaithful};

/// States what `faithful` of `run` says of a merge: the output file holds the valid joined module
/// of the modules that the files of the parts held, and each embedder sees of it what it sees of
/// the parts linked by name, within four more steps.
pub fn merges_are_faithful()
    ensures { (words : List (List ℕ)) (merge : MergeTask) (before : FileContents) (new : Option FileContents) → task_of words ≡ Some (Merge merge) → EndsFaithful words before new →
        (after : FileContents) × (new ≡ Some after) × MergeIsFaithful merge before after }
{}

/// States what `faithful` of `run` says of a metadce: the output file holds the valid module
/// without what the graph does not reach, and each embedder sees of it, step by step, what it sees
/// of the module by the exports that are kept.
pub fn metadces_are_faithful()
    ensures { (words : List (List ℕ)) (metadce : MetadceTask) (before : FileContents) (new : Option FileContents) → task_of words ≡ Some (Metadce metadce) → EndsFaithful words before new →
        (after : FileContents) × (new ≡ Some after) × MetadceIsFaithful metadce before after }
{}

/// States what `faithful` of `run` says of a split: the output files hold the valid secondary and
/// primary modules of the functions that the listed names select, and each embedder sees of the
/// primary module under its loader what it sees of the module.
pub fn splits_are_faithful()
    ensures { (words : List (List ℕ)) (split : SplitTask) (before : FileContents) (new : Option FileContents) → task_of words ≡ Some (Split split) → EndsFaithful words before new →
        (after : FileContents) × (new ≡ Some after) × SplitIsFaithful split before after }
{}

/// States what `faithful` of `run` says of a ctor-eval: the output file holds the valid module as
/// its evaluated constructors left it, and each embedder sees of it, step by step, what it sees of
/// the module after these constructors.
pub fn evaluations_are_faithful()
    ensures { (words : List (List ℕ)) (eval : CtorEvalTask) (before : FileContents) (new : Option FileContents) → task_of words ≡ Some (CtorEval eval) → EndsFaithful words before new →
        (after : FileContents) × (new ≡ Some after) × CtorEvalIsFaithful eval before after }
{}

/// States what `faithful` of `run` says of a sample: the output file, if there is one, holds the
/// valid joined module of the two modules of the sample, and each embedder sees of it what it sees
/// of these as the parts `a` and `b`, within four more steps.
pub fn samples_are_faithful()
    ensures { (words : List (List ℕ)) (sample : SampleTask) (before : FileContents) (new : Option FileContents) → task_of words ≡ Some (Sample sample) → EndsFaithful words before new →
        (after : FileContents) × (new ≡ Some after) × SampleIsFaithful sample after }
{}
