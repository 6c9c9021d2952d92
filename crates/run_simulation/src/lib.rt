//! Laws of runs: steps from related stores agree, and related runs have equal traces, also where
//! functions are opaque, where frames only pass results on, and where the stores are related except
//! at unknown places.
//!
//! Files:
//!
//! - `specs/Groups`: Instructions in three groups, and the law of steps for a group.
//! - `specs/Laws`: The laws of steps and of runs.
//! - `specs/OpaqueRuns`: Runs with opaque functions: which steps begin a call of one, and that
//!   every other step of two related runs has the same event and leaves the runs related.
//! - `specs/Related`: Stores and configurations that are related by a relation of addresses.
//! - `specs/RelatedRuns`: Related runs: a relation of addresses relates their states, and given
//!   relations relate their stacks.
//! - `specs/Trampolines`: Calls through slots of a table.
//! - `specs/UnknownPlaces`: Unknown places of a store, beside a relation of addresses: what is
//!   there need not be related.
//! - `specs/WiderRelations`: If more code may stand in place of calls, what was related stays
//!   related.
#![tactic(auto)]

ghost use Rattle.run_simulation.specs.Laws.{CodeIsRelatedToItself, NamedAreKnown, OthersStay, RelatedRunsHaveEqualTraces, RelatedTicksAgree, ShownAgree, StepsAgree, TrapsAgree};
ghost use Rattle.run_simulation.specs.OpaqueRuns.{RunsWithOpaqueFunctionsAgree};
ghost use Rattle.run_simulation.specs.Trampolines.{
  DirectCallsAgree,
  PassedValuesHaveTypes,
  PassingFramesStutter,
  PoppedValuesHaveTypes,
  SlotCallsAgree,
  SlotCallsEnterSlots,
  TrampolineCallsAgree,
  TrampolinesEnterSlots,
};
ghost use Rattle.run_simulation.specs.WiderRelations.{CodeStaysRelated, RunsStayRelated, StoresStayRelated};
ghost use Rattle.run_simulation.specs.UnknownPlaces.{NothingUnknown, RunsAgreeOff, SetGlobalsAreKnown, StepsAgreeOff};

/// States how the next steps of two related configurations over related stores agree (WebAssembly
/// Core 2.0, section 4.4).
///
/// Two addresses are related if the simulation relation has them; code may name those that the code
/// relation has. An opaque function is one of a list. Two related ones need only have equal types,
/// and neither is the environment's own or both are the same function of it. Other code may stand
/// in place of a call of one.
///
/// - `steps`: both steps go on to related results, or both trap, or both are ill typed, if the
///   simulation relation is one to one except for functions, the entries that the step touches are
///   related, the next instruction names related addresses, and the step begins no call of an
///   opaque function, directly or through a table.
/// - `known`: if all of the code relation is related, the next instruction names related addresses.
/// - `shown`: the embedder is shown equal values for related ones, if the simulation relation is
///   one to one, functions included, and the functions that were shown before are related, number
///   by number.
/// - `traps`: a trap ends at the nearest mark of the embedder. If the two nearest marks are
///   related, the same caller waits at both, whatever is above them.
/// - `reflexive`: code is related to itself over an instance whose addresses are in the code
///   relation with themselves.
pub fn related_steps_agree()
    ensures steps { StepsAgree }
    ensures known { NamedAreKnown }
    ensures shown { ShownAgree }
    ensures traps { TrapsAgree }
    ensures reflexive { CodeIsRelatedToItself }
{}

/// States that related runs have equal traces, if the simulation relation is one to one, functions
/// included. In the first three clauses it is also the code relation, and no function is opaque.
///
/// - `events`: the traces are equal in any number of steps.
/// - `steps`: each step has the same event and leaves the runs related.
/// - `unrelated`: once the runs are instantiated, a step leaves the functions as they were, and
///   everything else that has no partner in the other store.
/// - `opaque`: with opaque functions, or more pairs in the code relation, `steps` and `unrelated`
///   hold for each step that begins no call of an opaque function (by a frame, a start or a move)
///   and whose next instruction names related addresses.
pub fn related_runs_have_equal_traces()
    ensures events { RelatedRunsHaveEqualTraces }
    ensures steps { RelatedTicksAgree }
    ensures unrelated { OthersStay }
    ensures opaque { RunsWithOpaqueFunctionsAgree }
{}

/// States how calls through slots of a table simulate direct calls, as after functions of a module
/// are moved to another one (WebAssembly Core 2.0, section 4.4.8). In the second of two related
/// runs, passing frames, which only pass results on, may be between the other frames.
///
/// - `passing_frames`: one or two steps of the second run answer a step of the first that begins no
///   call of an opaque function and whose next instruction names related addresses, if the
///   simulation relation is one to one.
/// - `trampolines`: a trampoline that was entered has, after a step for each parameter and two
///   more, entered the function in its slot with the same values.
/// - `slots`: the two instructions `i32.const` and `call_indirect` have, after two steps, entered
///   the function in the slot.
/// - `through`: if this function has code that is related to that of the function which the first
///   run enters directly, the result of the trampoline is related to that of the first run, with a
///   passing frame between.
/// - `replaced`: the result of the two instructions is related to that of such a direct call,
///   without a passing frame.
/// - `direct`: the results of two direct calls are related, if the functions have related code.
/// - `popped`: values that are popped as having some types have these.
/// - `passed`: values that the embedder passes for parameters have the types of these.
pub fn calls_through_slots_simulate_direct_calls()
    ensures passing_frames { PassingFramesStutter }
    ensures trampolines { TrampolinesEnterSlots }
    ensures slots { SlotCallsEnterSlots }
    ensures through { TrampolineCallsAgree }
    ensures replaced { SlotCallsAgree }
    ensures direct { DirectCallsAgree }
    ensures popped { PoppedValuesHaveTypes }
    ensures passed { PassedValuesHaveTypes }
{}

/// States that what is related stays related if more code may stand in place of calls of opaque
/// functions, as when another module is added whose code calls them in another way.
///
/// - `code`: this holds for code;
/// - `stores`: for stores;
/// - `runs`: and for runs of which the second has passing frames between its frames.
pub fn code_relation_is_monotone()
    ensures code { CodeStaysRelated }
    ensures stores { StoresStayRelated }
    ensures runs { RunsStayRelated }
{}

/// States two facts about stores that are related except at unknown places.
///
/// - `nothing`: if there are no unknown places, this means that the stores are related.
/// - `set`: if two related globals are set to related values, they are known from then on, for a
///   simulation relation that is one to one except for functions.
pub fn set_globals_are_known()
    ensures nothing { NothingUnknown }
    ensures set { SetGlobalsAreKnown }
{}

/// States how steps agree over stores that are related except at unknown places, if they read no
/// unknown place: `global.get` reads a global, `table.get` and `call_indirect` read a slot,
/// `table.copy` and `table.init` the references that they copy (WebAssembly Core 2.0, sections
/// 4.4.5, 4.4.6 and 4.4.8).
///
/// - `steps`: the clause `steps` of `related_steps_agree` holds for such stores. Afterwards they are
///   related except at what is still unknown; a global that was set is known.
/// - `runs`: a run of the machine is followed step by step if each of its steps goes on, reads no
///   unknown place, begins no call of an opaque function and names related addresses.
pub fn steps_agree_off_unknown_places()
    ensures steps { StepsAgreeOff }
    ensures runs { RunsAgreeOff }
{}
