ghost use Rattle.split_plan.specs.Causes.{FaultsHaveCauses};
ghost use Rattle.split_plan.specs.PlannedMoves.{WhatIsPlannedIsAPlan};

/// Proves that `plan_fault` gives a fault exactly if the cause of that fault holds.
pub fn plan_faults_have_causes()
    ensures { FaultsHaveCauses }
{}

/// Proves that what is planned for a module is a plan for it (`IsPlan`), whichever functions are
/// wanted.
pub fn what_is_planned_is_a_plan()
    ensures { WhatIsPlannedIsAPlan }
{}
