// Laws: store extension is a preorder; a run, also under a loader, only extends its store, and the
// indices of an instance keep naming what its module says.

ghost use Rattle.world_simulation.specs.StoreExtension.{
  AddedModulesExtend,
  CallsExtend,
  ExtensionIsTransitive,
  ExtensionsKeepWhatIsThere,
  LoadersExtend,
  OwnSegmentsExtend,
  SegmentsExtend,
  StepsExtend,
  StoresExtendThemselves,
};
ghost use Rattle.world_simulation.specs.FailedRuns.{RunsThatAreOverStaySo};
ghost use Rattle.world_simulation.specs.TypedInstances.{AddedModulesAreTyped, InstancesStayTyped};

use wasm_meaning::steps_write_only_touched_places;

/// Store extension (compare WebAssembly Core 2.0, appendix, Soundness) is a preorder: each store
/// extends itself (`reflexive`), and a store that extends an extension of another one extends that
/// one (`transitive`). What is in a store stays in each store that extends it (`kept`).
pub fn store_extension_is_a_preorder()
    ensures reflexive { StoresExtendThemselves }
    ensures transitive { ExtensionIsTransitive }
    ensures kept { ExtensionsKeepWhatIsThere }
{}

/// Once a run is instantiated, each step extends its store and leaves it instantiated (WebAssembly
/// Core 2.0, section 4.2.3): functions stay as they are, tables, memories and globals keep their
/// types and maxima and do not shrink, immutable globals keep their values, and nothing is added or
/// taken away (`step`). The same holds up to the call of a placeholder (`call`), and when active
/// segments are copied (section 4.5.4), those of one module (`own_segments`) or those of all parts
/// of a world at once (`segments`). When a module is added to a store, the functions, tables,
/// memories and globals that were there are kept in the same way, whether or not a segment traps
/// (`added`), and so they are in each step under a loader whose run is instantiated, also in a step
/// that loads a module (`loader`).
pub fn stores_are_extended()
    ensures step { StepsExtend }
    ensures call { CallsExtend }
    ensures own_segments { OwnSegmentsExtend }
    ensures segments { SegmentsExtend }
    ensures added { AddedModulesExtend }
    ensures loader { LoadersExtend }
{
    steps_write_only_touched_places();
}

/// Each index of a module that is added to a store names what the module says: a function of its
/// type, a table or memory that meets its limits, a global of its type (WebAssembly Core 2.0,
/// section 4.5.1), whether or not a segment traps (`made`). This stays so in every store that
/// extends that one (`stays`).
pub fn instances_stay_typed()
    ensures made { AddedModulesAreTyped }
    ensures stays { InstancesStayTyped }
{}

/// A run that is closed with nothing on its stack, for instance because the instantiation of its
/// world failed or trapped, takes no step of the machine any more and stays so (`over`).
pub fn closed_runs_stay_closed()
    ensures over { RunsThatAreOverStaySo }
{}
