ghost use Rattle.std.specs.Prelude.{IfErr, IfOk, Some, None, false, length, map, ◌<◌, ◌^◌, ◌≡◌, ◌⊎◌};
ghost use Rattle.wasm_tree.specs.declared.space.Space.TheVariants.{Globals};
ghost use Rattle.wasm_meaning.specs.Linking as linking;
ghost use Rattle.wasm_meaning.specs.World.{defined_before};
ghost use Rattle.merge_spec.specs.Faults as faults;
ghost use Rattle.merge_spec.specs.Linked.{AreLinks};
ghost use Rattle.merge_spec.specs.Parts.{HaveDistinctNames, named_modules};
ghost use Rattle.merge_spec.specs.declared.faults.LinkFault.{LinkFault};
ghost use Rattle.merge_link.specs.Sites.{AreSites};
ghost use Rattle.merge_link.specs.PartTables.{AreKnown, ArePartTables};
ghost use Rattle.merge_link.specs.Resolving.{IsKept, IsLinkedKept, IsMatched, IsRefusal, IsValued, read_entry_at};

use crate::cutting::{cut, end_entries};
use crate::matching::known_ends;
use crate::part_tables::{Ending, PartTables};
use crate::sites::{Site, all_sites};
use crate::tables::{all_names, all_tables};
use merge_spec::{LinkFault, Links, Part, Read};
use std::alloc::Global;
use wasm_bytes::{Items, NoMemory};
use wasm_tree::Limits;

/// The linked ends of imports, and the limits that they keep.
#[derive(Drop)]
pub struct LinkedImports {
    pub linked: Vec<Ending>,
    pub limits: Vec<Option<Limits>>,
}

impl<'a> PartTables<'a> {
    // Returns the ends of all imports, or the fault of the first that has none or whose end is not
    // what it asks for.
    fn matched(&self, alloc: Global, sites: &[Site]) -> Result<Vec<Ending>, LinkFault>
        requires joining { ArePartTables self.now }
        requires sites { AreSites self.now.parts.now sites.now }
        ensures { IsMatched self.now.parts.now sites.now result }
    {
        let ends = self.ends(alloc, sites)?;
        match self.first_import_fault(sites, &ends) {
            Some(fault) => Err(fault),
            None => Ok(known_ends(alloc, &ends)?),
        }
    }

    // Returns the linked ends and the limits that are kept, or the fault of the first import whose
    // limits clash.
    fn kept_ends(
        &self,
        alloc: Global,
        sites: &[Site],
        ends: &[Ending],
    ) -> Result<LinkedImports, LinkFault>
        requires joining { ArePartTables self.now }
        requires sites { AreSites self.now.parts.now sites.now }
        requires ends { AreKnown self.now.parts.now sites.now ends.now }
        ensures { IsKept self.now.parts.now sites.now result }
    {
        let linked = self.linked(alloc, sites, ends)?;
        let limits = self.kept_limits(alloc, sites, &linked)?;
        match self.first_clash(sites, &limits) {
            Some(fault) => Err(fault),
            None => Ok(LinkedImports { linked, limits }),
        }
    }

    // Returns what is read through imports, or the fault of the first defined global whose value
    // has no end.
    fn read_values(
        &self,
        alloc: Global,
        sites: &[Site],
        ends: &[Ending],
    ) -> Result<Vec<Option<Read>>, LinkFault>
        requires joining { ArePartTables self.now }
        requires parts { length self.now.parts.now < 2 ^ 32 }
        requires sites { AreSites self.now.parts.now sites.now }
        requires ends { AreKnown self.now.parts.now sites.now ends.now }
        ensures { IsValued self.now.parts.now sites.now result }
    {
        let globals = self.defined_globals(alloc)?;
        let values = self.values(alloc, sites, ends, &globals)?;
        match self.first_global_fault(&globals, &values) {
            Some(fault) => Err(fault),
            None => Ok(self.reads(alloc, sites, ends, &values)?),
        }
    }

    // Returns the links, with one list for each part.
    fn written(
        &self,
        alloc: Global,
        kept: &LinkedImports,
        reads: &[Option<Read>],
        sites: &[Site],
    ) -> Result<Links, NoMemory>
        requires sites { AreSites self.now.parts.now sites.now }
        requires kept { IsLinkedKept self.now.parts.now sites.now kept.now }
        requires reads { reads.now ≡ map (read_entry_at self.now.parts.now) sites.now }
        ensures { IfOk result (AreLinks (named_modules self.now.parts.now)) }
    {
        let entries = end_entries(alloc, &kept.linked)?;
        Ok(Links {
            ends: cut(alloc, self.parts, &entries)?,
            limits: cut(alloc, self.parts, &kept.limits)?,
            reads: cut(alloc, self.parts, reads)?,
        })
    }

    // Returns the links, or the first fault.
    fn linked_sites(&self, alloc: Global, sites: &[Site]) -> Result<Links, LinkFault>
        requires joining { ArePartTables self.now }
        requires parts { length self.now.parts.now < 2 ^ 32 }
        requires sites { AreSites self.now.parts.now sites.now }
        ensures links { IfOk result (AreLinks (named_modules self.now.parts.now)) }
        ensures linked { IfOk result (λ links. faults.link_fault (named_modules self.now.parts.now) false ≡ None) }
        ensures fault { IfErr result (IsRefusal (faults.link_fault (named_modules self.now.parts.now) false)) }
    {
        let ends = self.matched(alloc, sites)?;
        let kept = self.kept_ends(alloc, sites, &ends)?;
        if self.has_too_many_memories(sites, &kept.linked) {
            return Err(LinkFault::TooManyMemories);
        }
        let reads = self.read_values(alloc, sites, &ends)?;
        Ok(self.written(alloc, &kept, &reads, sites)?)
    }
}

/// Links parts by name: finds where each import ends, which limits it keeps, and what is read
/// through it (WebAssembly Core 2.0, sections 3.2.8 and 4.5.4).
///
/// No two parts may have the same name. There must be fewer than 2^32 parts, fewer than 2^32
/// imports in all parts together, and fewer than 2^32 globals that the parts define.
///
/// An import whose module is a part's name is joined with that part's export of its field's name,
/// if there is one, and stays otherwise. If the export is itself an import, that one is followed in
/// turn.
///
/// Fails with the first fault in this order: `ImportMismatch` or `ImportCycle`, part by part, in
/// the order of the imports; `LimitsClash`, in the same order; `TooManyMemories`; `GlobalCycle`,
/// part by part, in the order of the defined globals. `NoMemory` means that memory ran out and says
/// nothing about the parts.
pub fn resolve(alloc: Global, parts: &Items<Part>) -> Result<Links, LinkFault>
    requires names { HaveDistinctNames parts.now }
    requires parts { length parts.now < 2 ^ 32 }
    requires imports { length (linking.sites (named_modules parts.now)) < 2 ^ 32 }
    requires globals { defined_before Globals (named_modules parts.now) (length parts.now) < 2 ^ 32 }
    ensures links { IfOk result (AreLinks (named_modules parts.now)) }
    ensures linked { IfOk result (λ links. faults.link_fault (named_modules parts.now) false ≡ None) }
    ensures fault { IfErr result (λ f. (f ≡ LinkFault.NoMemory) ⊎ (faults.link_fault (named_modules parts.now) false ≡ Some f)) }
{
    let parts = parts.as_slice();
    let sites = all_sites(alloc, parts)?;
    let names = all_names(alloc, parts)?;
    let tables = all_tables(alloc, parts)?;
    let joining = PartTables {
        parts,
        names,
        tables,
    };
    joining.linked_sites(alloc, &sites)
}
