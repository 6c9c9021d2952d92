//! Defines how WebAssembly modules execute: the store, the configuration, one small step, the
//! embedder, worlds and runs.
//!
//! The definitions are in `specs/`, and no command runs code of this crate. `docs/SEMANTICS.md`
//! explains them.
//!
//! Files:
//!
//! - `specs/Access`: What loads read and stores write: little-endian numbers of 1, 2, 4 or 8
//!   bytes.
//! - `specs/Control`: Calls, ends, branches and blocks.
//! - `specs/Counted`: How many entities of a kind parts define, and which exports are found by
//!   name.
//! - `specs/Environment`: What an embedder offers to a world, and the values that it sees and
//!   passes.
//! - `specs/Laws`: Laws of runs and of joining imports by name.
//! - `specs/Linking`: Imports that are joined by name: where each ends, which limits are asked of
//!   a staying import, and what constant expressions read through joined globals.
//! - `specs/Loader`: A module under a loader.
//! - `specs/Memory`: Instructions on memories and data segments.
//! - `specs/Outcomes`: The outcome of a part of a step, and look-ups in lists.
//! - `specs/Paths`: Paths: a point has no step, or its step ends with something or leads to
//!   another point.
//! - `specs/Run`: The embedder's moves, and runs.
//! - `specs/Sequential`: Sequential instantiation: each part is matched and allocated, its
//!   segments are copied and its start function runs, before the next part's turn.
//! - `specs/StartFrames`: What the steps of a start function depend on: only its own entries of
//!   the stack.
//! - `specs/State`: The store and the configuration, and the results of a step.
//! - `specs/Step`: One small step.
//! - `specs/Tables`: Instructions on tables and element segments.
//! - `specs/Touched`: What a step writes into the store, computed from what is on top of the stack
//!   before it.
//! - `specs/Values`: Instructions on values, locals and globals.
//! - `specs/World`: Worlds, and their instantiation at once.
#![tactic(auto)]

ghost use Rattle.wasm_meaning.specs.StartFrames.{StartDependsOnlyOnItsFrames};
ghost use Rattle.wasm_meaning.specs.Touched.{StepsWriteWhatTheyTouch};
ghost use Rattle.wasm_meaning.specs.Counted.{EachPartAddsItsDefinitions, FoundExportsAreThere, NoPartDefinesMoreThanAll, NothingIsDefinedBeforeTheFirst};
ghost use Rattle.wasm_meaning.specs.Laws.{EndsArePaths, LoadedRunsAreDetermined, ReadsArePaths, RunsAreDetermined, SequentialRunsAreDetermined, ShorterLoadedRunsArePrefixes, ShorterRunsArePrefixes};
ghost use Rattle.wasm_meaning.specs.Laws.{ShorterSequentialRunsArePrefixes};

/// States that a run is determined by its world, its environment, the embedder's moves and the
/// number of steps: a run of a world that is instantiated at once (`determined`) or sequentially
/// (`sequential`), or of a module under a loader (`loaded`).
pub fn runs_are_determined()
    ensures determined { RunsAreDetermined }
    ensures sequential { SequentialRunsAreDetermined }
    ensures loaded { LoadedRunsAreDetermined }
{}

/// States that the trace of fewer steps of a run is a prefix of the trace of more steps: of a world
/// that is instantiated at once (`prefixes`) or sequentially (`sequential`), or of a module under a
/// loader (`loaded`).
pub fn shorter_runs_are_prefixes()
    ensures prefixes { ShorterRunsArePrefixes }
    ensures sequential { ShorterSequentialRunsArePrefixes }
    ensures loaded { ShorterLoadedRunsArePrefixes }
{}

/// States that `end_of` and `read_of`, with which worlds are computed, agree with paths: they give
/// exactly the end of an import's path (`ends`) and what a constant expression's path through
/// joined globals leads to (`reads`).
pub fn ends_and_reads_are_paths()
    ensures ends { EndsArePaths }
    ensures reads { ReadsArePaths }
{}

/// States that a step of a start function depends neither on the phase of the run nor on what is on
/// the stack below the start's entries, as long as a start function can run on top of it
/// (`IsBottom`): two runs that differ only in these have steps with the same event and the same
/// effect.
pub fn start_depends_only_on_its_frames()
    ensures own_frames { StartDependsOnlyOnItsFrames }
{}

/// States that `touched` tells what the step of a frame writes into the store (address, place and
/// count) from what is on top of the stack before the step (WebAssembly Core 2.0, section 4.4).
pub fn steps_write_only_touched_places()
    ensures writes { StepsWriteWhatTheyTouch }
{}

/// States how many entities of a kind parts define.
///
/// - `none`: the parts before the first one define nothing.
/// - `next`: the parts before the next one define what those before this one do, and what this one
///   does.
/// - `all`: the parts up to one define no more than all parts do.
pub fn definitions_are_counted_by_part()
    ensures none { NothingIsDefinedBeforeTheFirst }
    ensures next { EachPartAddsItsDefinitions }
    ensures all { NoPartDefinesMoreThanAll }
{}

/// States that what is found under a name is what an export of that name has (`there`).
pub fn found_exports_are_there()
    ensures there { FoundExportsAreThere }
{}
