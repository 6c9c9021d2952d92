ghost use Rattle.std.specs.Prelude.{Some, cond, false, length, nat_lt, ◌+◌, ◌≡◌, ◌&&◌};
ghost use Rattle.wasm_tree.specs.declared.space.Space.TheVariants.{Memories};
ghost use Rattle.merge_spec.specs.Faults as faults;
ghost use Rattle.merge_spec.specs.Parts.{named_modules};
ghost use Rattle.wasm_meaning.specs.Linking as linking;
ghost use Rattle.wasm_meaning.specs.World as world;
ghost use Rattle.merge_link.specs.Sites.{AreSites, ImportExists, the_site};
ghost use Rattle.merge_link.specs.PartTables.{the_end};
ghost use Rattle.merge_link.specs.Gathering.{AreLinkedEnds, is_memory_at};

use crate::part_tables::{Ending, PartTables};
use crate::sites::Site;

impl<'a> PartTables<'a> {
    fn is_staying_memory(&self, site: Site, end: Ending) -> bool
        requires { ImportExists self.now.parts.now site }
        ensures { result ≡ linking.is_outside (the_site site) (Some (the_end end)) && is_memory_at (linking.import_at (named_modules self.now.parts.now) (the_site site)) }
    {
        self.staying_memory(site, end).is_some()
    }

    // Returns how many memories stay; those with the same module and field name count once.
    fn staying_memories(&self, sites: &[Site], linked: &[Ending]) -> usize
        requires sites { AreSites self.now.parts.now sites.now }
        requires linked { AreLinkedEnds self.now.parts.now sites.now linked.now }
        ensures { result ≡ linking.count_of (λ s. faults.is_staying_memory (named_modules self.now.parts.now) (the_site s)) sites.now }
    {
        let mut count = 0;
        for at in 0..sites.len() {
            if self.is_staying_memory(sites[at], linked[at]) {
                count += 1;
            }
        }
        count
    }

    // Returns whether the defined memories and these staying ones are more than one.
    fn are_more_than_one(&self, staying: usize) -> bool
        ensures { result ≡ nat_lt 1 (staying + world.defined_before Memories (named_modules self.now.parts.now) (length (named_modules self.now.parts.now))) }
    {
        let mut count = staying;
        for part in self.parts {
            if count > 1 {
                return true;
            }
            count += part.module.module().mems.len();
        }
        count > 1
    }

    /// Returns whether the memories that are defined and those that stay are more than one.
    pub fn has_too_many_memories(&self, sites: &[Site], linked: &[Ending]) -> bool
        requires sites { AreSites self.now.parts.now sites.now }
        requires linked { AreLinkedEnds self.now.parts.now sites.now linked.now }
        ensures { result ≡ nat_lt 1 (faults.memory_count (named_modules self.now.parts.now)) }
    {
        self.are_more_than_one(self.staying_memories(sites, linked))
    }
}
