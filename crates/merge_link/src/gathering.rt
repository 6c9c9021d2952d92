// Staying memory imports with the same module and field name end together, at the first of them.

ghost use Rattle.std.specs.Prelude.{IfOk, List, None, Some, map, ℕ, ◌≡◌};
ghost use Rattle.std.specs.BTreeMap.{get_by};
ghost use Rattle.merge_spec.specs.Parts.{named_modules};
ghost use Rattle.wasm_meaning.specs.Linking as linking;
ghost use Rattle.merge_link.specs.Sites.{AreSites, ImportExists};
ghost use Rattle.merge_link.specs.PartTables.{AreKnown, ArePartTables, IsStop, the_end};
ghost use Rattle.merge_link.specs.Gathering.{HasFirstSites, AreLinkedEnds, EndsThere, IsStayingMemory};

use crate::part_tables::{Ending, PartTables};
use crate::sites::{Site, import_at};
use std::alloc::Global;
use std::collections::BTreeMap;
use wasm_bytes::NoMemory;
use wasm_tree::{Import, Space};

impl<'a> PartTables<'a> {
    /// Returns the import at a place, if it is a memory that stays.
    pub fn staying_memory(&self, site: Site, end: Ending) -> Option<&'a Import>
        requires there { ImportExists self.now.parts.now site }
        ensures { IsStayingMemory (named_modules self.now.parts.now) site end result }
    {
        match end {
            Ending::Defined(_) => None,
            Ending::Outside(at) => {
                let import = import_at(self.parts, site);
                if at == site && import.desc.is_in(Space::Memories) {
                    Some(import)
                } else {
                    None
                }
            }
        }
    }

    // Returns the first staying memory of each module and field name. The loop runs backwards, so
    // that the first one remains in the map.
    fn first_memories(
        &self,
        alloc: Global,
        sites: &[Site],
        ends: &[Ending],
    ) -> Result<BTreeMap<(&'a str, &'a str), Site>, NoMemory>
        requires sites { AreSites self.now.parts.now sites.now }
        requires ends { AreKnown self.now.parts.now sites.now ends.now }
        ensures { IfOk result (λ firsts. HasFirstSites self.now.parts.now sites.now firsts) }
    {
        let mut firsts = BTreeMap::new(alloc);
        for at in (0..sites.len()).rev() {
            match self.staying_memory(sites[at], ends[at]) {
                None => {}
                Some(import) => {
                    let pair = (import.module.as_str(), import.field.as_str());
                    firsts.insert(pair, sites[at])?;
                }
            }
        }
        Ok(firsts)
    }

    // Returns the end; for a staying memory, the first one with the same module and field name.
    fn gathered(
        &self,
        firsts: &BTreeMap<(&'a str, &'a str), Site>,
        sites: &[Site],
        end: Ending,
    ) -> Ending
        requires sites { AreSites self.now.parts.now sites.now }
        requires firsts { HasFirstSites self.now.parts.now sites.now firsts.now }
        requires stop { IsStop (named_modules self.now.parts.now) (the_end end) }
        ensures end { the_end result ≡ linking.gathered (named_modules self.now.parts.now) (the_end end) }
        ensures there { EndsThere self.now.parts.now result }
    {
        match end {
            Ending::Defined(_) => end,
            Ending::Outside(site) => {
                let import = import_at(self.parts, site);
                if import.desc.is_in(Space::Memories) {
                    match firsts.get(&(import.module.as_str(), import.field.as_str())) {
                        None => end,
                        Some(first) => Ending::Outside(*first),
                    }
                } else {
                    end
                }
            }
        }
    }

    /// Returns the linked ends of imports: staying memories with the same module and field name are
    /// one.
    pub fn linked(
        &self,
        alloc: Global,
        sites: &[Site],
        ends: &[Ending],
    ) -> Result<Vec<Ending>, NoMemory>
        requires sites { AreSites self.now.parts.now sites.now }
        requires ends { AreKnown self.now.parts.now sites.now ends.now }
        ensures { IfOk result (λ linked. AreLinkedEnds self.now.parts.now sites.now linked.items) }
    {
        let firsts = self.first_memories(alloc, sites, ends)?;
        let mut linked = Vec::new(alloc);
        for end in ends {
            linked.push(self.gathered(&firsts, sites, *end))?;
        }
        Ok(linked)
    }
}
