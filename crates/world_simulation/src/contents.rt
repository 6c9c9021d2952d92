// Laws: what an instantiation leaves, entity by entity; what active segments change; what the
// constant expressions of one module read; and that two related stores stay related when a module
// is added to one of them.

ghost use Rattle.world_simulation.specs.AddedModules.{AddedToTheFirstStayRelated, AddedToTheSecondStayRelated};
ghost use Rattle.world_simulation.specs.SegmentCopies.{OwnSegmentsLeave, OwnSegmentsRunAsCopies, SegmentsAloneRunAsCopies};
ghost use Rattle.world_simulation.specs.FunctionIndependence.{SegmentsIgnoreFunctions, SegmentsKeepFunctions};
ghost use Rattle.world_simulation.specs.InstantiatedStores.{
  AddedModulesLeave,
  ModulesAloneLeave,
  PrimaryModulesLeave,
  WorldsOfOneModuleLeave,
};
ghost use Rattle.world_simulation.specs.ConstantValues.{ConstantsAloneReadTheEnvironment};

use crate::simulation::{
    corresponding_worlds_have_equal_traces, index_spaces_list_imports_and_definitions,
};

/// Two related stores stay related when a module is added to the second (`second`) or to the first
/// (`first`), as a loader adds one (WebAssembly Core 2.0, section 4.5.4), if its active segments
/// are copied into tables and memories that are related to nothing. Whether a segment traps makes
/// no difference.
pub fn stores_stay_related_where_a_module_is_added()
    ensures second { AddedToTheSecondStayRelated }
    ensures first { AddedToTheFirstStayRelated }
{}

/// What the instantiation of a module leaves, entity by entity, if no segment traps (WebAssembly
/// Core 2.0, sections 4.5.3 and 4.5.4). Each function, global and passive segment is what the
/// module says. Tables are null and memories zero, except for the active segments that are copied
/// over them, in order. Active and declarative segments are dropped. Of what was there before, only
/// tables and memories change, by these copies. This holds for a module that is added to a store,
/// as a loader adds one (`added`), for a module alone (`alone`), also with other names in its view
/// (`world`), and for the primary module of a loader (`primary`).
pub fn instantiated_stores_match_their_modules()
    ensures added { AddedModulesLeave }
    ensures alone { ModulesAloneLeave }
    ensures world { WorldsOfOneModuleLeave }
    ensures primary { PrimaryModulesLeave }
{
    corresponding_worlds_have_equal_traces();
}

/// To copy the active segments of a module is to run their copies in order, those of element
/// segments first (`own`), also in the world of the module alone (`alone`). If no segment traps,
/// the store then has what the module leaves, whatever the values of the constant expressions are
/// (`left`).
pub fn segments_run_as_copies()
    ensures own { OwnSegmentsRunAsCopies }
    ensures alone { SegmentsAloneRunAsCopies }
    ensures left { OwnSegmentsLeave }
{}

/// The active segments of a module leave the functions of the store as they were (`kept`), and do
/// the same in a store with other functions (`ignored`).
pub fn segments_leave_functions_alone()
    ensures kept { SegmentsKeepFunctions }
    ensures ignored { SegmentsIgnoreFunctions }
{}

/// In the world of a module alone, the constant expressions of the module denote what they denote
/// over the environment's own globals.
pub fn constants_of_one_module_read_the_environment()
    ensures values { ConstantsAloneReadTheEnvironment }
{
    index_spaces_list_imports_and_definitions();
}
