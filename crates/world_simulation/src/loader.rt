// Laws of loaders: what they begin as, and that they step as their run.

ghost use Rattle.world_simulation.specs.EmptyLoaders.{LoadersBeginAsTheirPrimary, LoadersHaveTheirPrimarysInstance};
ghost use Rattle.world_simulation.specs.LoaderSteps.{LoadersGoAsTheirRun, LoadersStepAsTheirRun, PlaceholdersAreAnswered};
ghost use Rattle.world_simulation.specs.DefinedPlaceholders.{LoadersAddAsStubbed, LoadersBeginAsStubbed, PlaceholdersAreCounted};

use crate::contents::{
    constants_of_one_module_read_the_environment, segments_leave_functions_alone,
};

/// A loader that supplies nothing begins as its primary module alone, with the loader's view, and
/// one is linked if and only if the other is (`begin`). It has the instance of the primary module
/// alone (`inst`).
pub fn loaders_begin_as_their_primary()
    ensures begin { LoadersBeginAsTheirPrimary }
    ensures inst { LoadersHaveTheirPrimarysInstance }
{
    constants_of_one_module_read_the_environment();
}

/// A step under a loader that calls no placeholder is the step of its run (`step`), and so are
/// several (`steps`). A step that calls a placeholder of a secondary module that can be loaded, or
/// was, continues in the function that is then in its slot and has its type, with the same
/// arguments (`answered`).
pub fn loaders_step_as_their_run()
    ensures step { LoadersStepAsTheirRun }
    ensures steps { LoadersGoAsTheirRun }
    ensures answered { PlaceholdersAreAnswered }
{}

/// Take a loader whose primary module imports its placeholders after all else, and one that
/// supplies nothing and whose primary module has functions of its own in their place. Except for
/// the placeholders themselves, both have the same instance (`added`) and begin alike (`begin`):
/// one is linked if and only if the other is, and traps if and only if the other does. In the store,
/// the placeholders are one function each (`counted`).
pub fn loaders_begin_as_with_defined_placeholders()
    ensures added { LoadersAddAsStubbed }
    ensures begin { LoadersBeginAsStubbed }
    ensures counted { PlaceholdersAreCounted }
{
    segments_leave_functions_alone();
}
