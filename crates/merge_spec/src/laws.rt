// Laws about the types of the merged module and about the faults of linking.

ghost use Rattle.merge_spec.specs.Faults.{LinkFaultsNameParts, NoPartsWantMemory, SeveralMemoriesAddNoFault};
ghost use Rattle.merge_spec.specs.Types.{MergedTypesAreDistinct};

/// The types of the merged module are those of the parts, each once, in the order in which they
/// first appear.
pub fn merged_types_are_distinct()
    ensures distinct { MergedTypesAreDistinct }
{}

/// A fault of linking parts names a part that is there (`names`) and is never `NoMemory` (`memory`).
/// Parts that have no fault have none where several memories are allowed either (`several`).
pub fn link_faults_name_parts()
    ensures names { LinkFaultsNameParts }
    ensures memory { NoPartsWantMemory }
    ensures several { SeveralMemoriesAddNoFault }
{}
