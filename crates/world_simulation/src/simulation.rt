// Laws about worlds: what the index spaces, instances and stores of their parts contain, and in
// which order their segments are copied; that two worlds have equal traces if their definitions,
// segments, starts and views correspond; and that one start may call several functions in place of
// several starts.

ghost use Rattle.world_simulation.specs.ModulesAlone.{
  ImportsDenoteTheEnvironment,
  ImportsStay,
  ReadsStay,
  SpacesAreImportsAndOwn,
};
ghost use Rattle.world_simulation.specs.AllocatedParts.{
  AllocatedStoresHaveDefinitions,
  PartsAddWhatCanBeAllocated,
};
ghost use Rattle.world_simulation.specs.SegmentsByPart.{DatasAreListedByPart, ElemsAreListedByPart};
ghost use Rattle.world_simulation.specs.DeclaredReferences.{DeclaringAddsASegment, DeclaringSegmentsAreAllocated};
ghost use Rattle.world_simulation.specs.IndexSpaces.{
  EachPartHasAnInstance,
  IndicesNameImportsOrDefinitions,
  SpacesAreImportsAndDefinitions,
};
ghost use Rattle.world_simulation.specs.CorrespondingInstances.{RelatedBegunHaveEqualTraces, RelatedInstancesHaveEqualTraces};
ghost use Rattle.world_simulation.specs.NamedIndices.{FittingCodeIsNamed, KeptCodeIsNamed};
ghost use Rattle.world_simulation.specs.EnvironmentEntities.{OwnEntitiesCorrespond};
ghost use Rattle.world_simulation.specs.CorrespondingWorlds.{
  AllocatedStoresCorrespond,
  CorrespondingWorldsAreInstantiatedRelated,
  CorrespondingWorldsBeginRelated,
  CorrespondingWorldsHaveEqualTraces,
  WhatIsInstantiated,
};
ghost use Rattle.world_simulation.specs.StartFunctions.{OneStartMayCallSeveral};

use index_remap::steps_agree;
use index_remap_proof::renumbering_keeps_typing;
use run_simulation::related_runs_have_equal_traces;
use wasm_meaning::start_depends_only_on_its_frames;

/// In the world of a module alone each import is its own end (`ends`). It denotes the entity that
/// the environment offers under its name, for a function also of its type, if there is one
/// (`external_values`). An index space has the addresses of the imports, then those of what the
/// module defines; there is none if an import denotes nothing (`spaces`). A constant expression
/// reads itself, or the `global.get` of the import that it names, or nothing (`reads`).
pub fn imports_of_one_module_denote_the_environment()
    ensures ends { ImportsStay }
    ensures external_values { ImportsDenoteTheEnvironment }
    ensures spaces { SpacesAreImportsAndOwn }
    ensures reads { ReadsStay }
{}

/// An index space of a part of a world has the addresses of the part's imports, then those of what
/// the part defines (`spaces`); so each index of it names an import or a definition (`indices`).
/// The instances of the parts of a world are one for each part (`instances`).
pub fn index_spaces_list_imports_and_definitions()
    ensures spaces { SpacesAreImportsAndDefinitions }
    ensures indices { IndicesNameImportsOrDefinitions }
    ensures instances { EachPartHasAnInstance }
{}

/// The store that is allocated for a world has at each address what a part defines there
/// (`placed`). A part adds something to the store if each of its functions, globals and element
/// segments can be allocated (`added`).
pub fn allocated_stores_have_what_parts_define()
    ensures placed { AllocatedStoresHaveDefinitions }
    ensures added { PartsAddWhatCanBeAllocated }
{}

/// A module with references declared differs from the module by at most one more element segment,
/// which stands last (`differs`). This segment is allocated if the instance names as many functions
/// as the module has (`allocated`).
pub fn declared_references_are_one_more_segment()
    ensures differs { DeclaringAddsASegment }
    ensures allocated { DeclaringSegmentsAreAllocated }
{}

/// The element segments of a world are listed part by part (`elems`), and so are its data segments
/// (`datas`).
pub fn segments_are_listed_by_part()
    ensures elems { ElemsAreListedByPart }
    ensures datas { DatasAreListedByPart }
{}

/// If each address of the environment's own entities is related to itself, these entities
/// correspond, and so do the tables and globals that are allocated for them.
pub fn own_entities_correspond()
    ensures own { OwnEntitiesCorrespond }
{}

/// Two worlds have equal traces, step by step, if neither can be instantiated, or both can, with
/// results that correspond under a one-to-one relation without opaque functions (WebAssembly Core
/// 2.0, section 4.5.4). The law is stated for worlds (`equal_traces`) and for any results of
/// instantiation (`begun`).
pub fn related_instances_have_equal_traces()
    ensures equal_traces { RelatedInstancesHaveEqualTraces }
    ensures begun { RelatedBegunHaveEqualTraces }
{
    related_runs_have_equal_traces();
}

/// Two worlds have equal traces, step by step, in an environment that links both or neither
/// (WebAssembly Core 2.0, section 4.5.4), if what they define corresponds under a one-to-one
/// relation of addresses, their partnered segments, starts and views are in the same order, and
/// each active segment without a partner is in bounds and writes only what has no partner
/// (`equal_traces`): neither is instantiated, or both are, to related states (`instantiated`).
///
/// Without the premises about starts and linking, if both are instantiated, their stores and views
/// are related, and both trapped or neither (`begin`). Before segments are copied, the allocated
/// stores are related if the definitions correspond (`allocated`). In these two laws functions may
/// be opaque, of which only the types have to be equal. `made` says what a result of `instantiate`
/// is made of: instances, the allocated store, the view, and imports that match.
pub fn corresponding_worlds_have_equal_traces()
    ensures made { WhatIsInstantiated }
    ensures allocated { AllocatedStoresCorrespond }
    ensures begin { CorrespondingWorldsBeginRelated }
    ensures instantiated { CorrespondingWorldsAreInstantiatedRelated }
    ensures equal_traces { CorrespondingWorldsHaveEqualTraces }
{
    related_instances_have_equal_traces();
}

/// If each index of a set and its entry in a map denote addresses of the code relation, or equal
/// types, or both nothing, so do each index of a body and its entry, if the body names only indices
/// of the set (`kept`). If the set is that of the indices with an entry, this holds for each body
/// whose indices all have entries (`fitting`).
pub fn remapped_code_is_related()
    ensures kept { KeptCodeIsNamed }
    ensures fitting { FittingCodeIsNamed }
{
    renumbering_keeps_typing();
}

/// One start that calls several functions of type [] to [] has the trace that these have as starts
/// one after the other, within two more steps; the other way round no more steps are needed.
pub fn one_start_for_several_equivalent()
    ensures calls { OneStartMayCallSeveral }
{
    start_depends_only_on_its_frames();
}
