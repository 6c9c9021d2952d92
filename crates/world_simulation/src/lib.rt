//! Laws about worlds: what the index spaces, instances and stores of their parts contain; that two
//! worlds have equal traces if their definitions, segments, starts and views correspond; what an
//! instantiation leaves; how a loader begins and steps; and that runs only extend their stores.
//!
//! Files:
//!
//! - `contents`: Laws: what an instantiation leaves, entity by entity; what active segments
//!   change; what the constant expressions of one module read; and that two related stores stay
//!   related when a module is added to one of them.
//! - `extension`: Laws: store extension is a preorder; a run, also under a loader, only extends
//!   its store, and the indices of an instance keep naming what its module says.
//! - `loader`: Laws of loaders: what they begin as, and that they step as their run.
//! - `simulation`: Laws about worlds: what the index spaces, instances and stores of their parts
//!   contain, and in which order their segments are copied; that two worlds have equal traces if
//!   their definitions, segments, starts and views correspond; and that one start may call several
//!   functions in place of several starts.
//! - `specs/AddedModules`: A module that is added to one of two related stores, as a loader adds
//!   one.
//! - `specs/AllocatedParts`: What the parts of a world add to its store, and where it stands
//!   there.
//! - `specs/ConstantValues`: What constant expressions of a module alone denote.
//! - `specs/CorrespondingDefinitions`: Definitions of two instantiated worlds that correspond
//!   under a relation of addresses.
//! - `specs/CorrespondingInstances`: Two worlds whose instances correspond.
//! - `specs/CorrespondingWorlds`: One law for two worlds: their traces are equal if what their
//!   parts define corresponds under a one-to-one relation of addresses, their segments, starts and
//!   views are in the same order, and the environment links both or neither.
//! - `specs/DeclaredReferences`: A module with its references declared: it has perhaps one more
//!   element segment, which is declarative.
//! - `specs/DefinedPlaceholders`: A loader's primary module with functions of its own in place of
//!   the placeholders that it imports, so that the world of one module determines what it begins as.
//! - `specs/EmptyLoaders`: A loader that supplies nothing.
//! - `specs/EnvironmentEntities`: The environment's own entities in two worlds where each has the
//!   same address: they correspond, and so do the tables and globals that are allocated for them.
//! - `specs/FailedRuns`: Runs that are over before anything could be called, because the
//!   instantiation of the world failed or trapped.
//! - `specs/FunctionIndependence`: What is copied into tables and memories has nothing to do with
//!   the functions of a store.
//! - `specs/IndexSpaces`: The index spaces and the instances of the parts of a world: first the
//!   imports, then what the part defines.
//! - `specs/InstantiatedStores`: What the instantiation of one module leaves in a store, entity by
//!   entity: what the module defines comes after what was there, and its active segments are copied
//!   in order.
//! - `specs/LoaderSteps`: Steps of a run under a loader: those that call no placeholder are steps
//!   of the run, and one that calls a placeholder continues in the function that is then in its
//!   slot.
//! - `specs/ModulesAlone`: A module alone: all its imports stay, so that its types and imports
//!   determine what the imports denote, its index spaces, and what its constant expressions read.
//! - `specs/NamedIndices`: What the indices of a body name: if each index of a set names what its
//!   entry names, so does each index of a body that names only these.
//! - `specs/NewContents`: Tables, memories and data segments as they are allocated.
//! - `specs/SegmentCopies`: Segments that are copied one after the other: what stands at each
//!   address is overwritten in order, and each segment that is copied is dropped.
//! - `specs/SegmentsByPart`: The segments of a world are listed part by part, in the order in
//!   which they are copied.
//! - `specs/SegmentsInOrder`: The segments of two instantiated worlds in the order in which they
//!   are copied: partners are in the same order, and an active segment without a partner is in
//!   bounds and writes only what has no partner.
//! - `specs/StartFunctions`: One start that calls several functions, in place of these functions
//!   as starts one after the other.
//! - `specs/StoreExtension`: What a run does to its store: once it is instantiated, each step only
//!   extends the store.
//! - `specs/TypedInstances`: Typed instances, in which each index names what the module says: the
//!   instance of a module is typed when the module is instantiated, and it stays so.
#![tactic(auto)]

mod contents;
mod extension;
mod loader;
mod simulation;

pub use contents::{
    constants_of_one_module_read_the_environment, instantiated_stores_match_their_modules,
    segments_leave_functions_alone, segments_run_as_copies,
    stores_stay_related_where_a_module_is_added,
};
pub use extension::{
    closed_runs_stay_closed, instances_stay_typed, store_extension_is_a_preorder,
    stores_are_extended,
};
pub use loader::{
    loaders_begin_as_their_primary, loaders_begin_as_with_defined_placeholders,
    loaders_step_as_their_run,
};
pub use simulation::{
    allocated_stores_have_what_parts_define, corresponding_worlds_have_equal_traces,
    declared_references_are_one_more_segment, imports_of_one_module_denote_the_environment,
    index_spaces_list_imports_and_definitions, one_start_for_several_equivalent,
    own_entities_correspond, related_instances_have_equal_traces, remapped_code_is_related,
    segments_are_listed_by_part,
};
