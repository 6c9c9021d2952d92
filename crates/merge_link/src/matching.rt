ghost use Rattle.std.specs.Prelude.{IfOk, IfSome, None, Some, length, map, option_map, slice_get, ℕ, ◌≡◌};
ghost use Rattle.merge_spec.specs.Faults as faults;
ghost use Rattle.merge_spec.specs.Parts.{named_modules};
ghost use Rattle.merge_link.specs.Sites.{AreSites, ImportExists, the_site};
ghost use Rattle.merge_link.specs.PartTables.{AreStops, ArePartTables, IsStop, end_at, the_end};

use crate::part_tables::{Ending, PartTables};
use crate::sites::Site;
use merge_spec::LinkFault;
use std::alloc::Global;
use wasm_bytes::NoMemory;

impl<'a> PartTables<'a> {
    // Returns the fault of an import, if it never ends or its end is not what it asks for.
    fn import_fault(&self, site: Site, end: Option<Ending>) -> Option<LinkFault>
        requires joining { ArePartTables self.now }
        requires there { ImportExists self.now.parts.now site }
        requires stop { IfSome end (λ e. IsStop (named_modules self.now.parts.now) (the_end e)) }
        ensures { result ≡ faults.end_fault (named_modules self.now.parts.now) (the_site site) (option_map the_end end) }
    {
        match end {
            None => Some(LinkFault::ImportCycle {
                part: site.part,
                import: site.import,
            }),
            Some(end) => {
                if self.is_suited(site, end) {
                    None
                } else {
                    Some(LinkFault::ImportMismatch {
                        part: site.part,
                        import: site.import,
                    })
                }
            }
        }
    }

    /// Returns the fault of the first import that never ends or whose end is not what it asks for,
    /// if there is one.
    pub fn first_import_fault(&self, sites: &[Site], ends: &[Option<Ending>]) -> Option<LinkFault>
        requires joining { ArePartTables self.now }
        requires sites { AreSites self.now.parts.now sites.now }
        requires ends { map (option_map the_end) ends.now ≡ map (end_at self.now.parts.now) sites.now }
        requires stops { AreStops self.now.parts.now ends.now }
        ensures { result ≡ faults.first_fault (λ s. faults.import_fault (named_modules self.now.parts.now) (the_site s)) sites.now }
    {
        for at in 0..sites.len() {
            match self.import_fault(sites[at], ends[at]) {
                None => {}
                Some(fault) => return Some(fault),
            }
        }
        None
    }
}

/// Returns the ends of imports that all have one.
pub fn known_ends(alloc: Global, ends: &[Option<Ending>]) -> Result<Vec<Ending>, NoMemory>
    requires { (n : ℕ) → slice_get ends.now n ≡ Some None → ⊥ }
    ensures { IfOk result (λ known. map Some known.items ≡ ends.now) }
{
    let mut known = Vec::new(alloc);
    for end in ends {
        match end {
            None => {}
            Some(end) => known.push(*end)?,
        }
    }
    Ok(known)
}
