ghost use Rattle.std.specs.Prelude.{IfOk, map, option_map, ◌≡◌};
ghost use Rattle.merge_spec.specs.Linked as links;
ghost use Rattle.merge_spec.specs.Parts.{named_modules};
ghost use Rattle.merge_link.specs.Sites.{AreSites, ImportExists, the_site};
ghost use Rattle.merge_link.specs.PartTables.{AreKnown, ArePartTables, IsStop, the_end};
ghost use Rattle.merge_link.specs.Globals.{the_read};
ghost use Rattle.merge_link.specs.Reads.{AreGlobalReads, fixed_read, read_past};

use crate::part_tables::{Ending, PartTables};
use crate::sites::{Site, import_at};
use merge_spec::Read;
use std::alloc::Global;
use wasm_bytes::NoMemory;
use wasm_meaning::ends_and_reads_are_paths;
use wasm_tree::{GlobalType, ImportDesc};

impl<'a> PartTables<'a> {
    // Returns what is read from the end of a global's import.
    fn read_past(&self, end: Ending, values: &[Option<Read>]) -> Option<Read>
        requires joining { ArePartTables self.now }
        requires stop { IsStop (named_modules self.now.parts.now) (the_end end) }
        requires values { AreGlobalReads self.now.parts.now values.now }
        ensures { option_map the_read result ≡ read_past (named_modules self.now.parts.now) (the_end end) }
    {
        match end {
            Ending::Outside(site) => Some(self.outside_read(site)),
            Ending::Defined(entity) => match self.global_number(entity) {
                None => None,
                Some(number) => values[number as usize],
            },
        }
    }

    // Returns what is read through an import, if it is an immutable global.
    fn read_through(&self, site: Site, end: Ending, values: &[Option<Read>]) -> Option<Read>
        requires joining { ArePartTables self.now }
        requires there { ImportExists self.now.parts.now site }
        requires stop { IsStop (named_modules self.now.parts.now) (the_end end) }
        requires values { AreGlobalReads self.now.parts.now values.now }
        ensures { result ≡ fixed_read (named_modules self.now.parts.now) (the_site site) (the_end end) }
    {
        match import_at(self.parts, site).desc {
            ImportDesc::Func(_) => None,
            ImportDesc::Table(_) => None,
            ImportDesc::Memory(_) => None,
            ImportDesc::Global(GlobalType { mutable: true, .. }) => None,
            ImportDesc::Global(GlobalType { mutable: false, .. }) => self.read_past(end, values),
        }
    }

    /// Returns what is read through each import; `None` unless it is an immutable global.
    pub fn reads(
        &self,
        alloc: Global,
        sites: &[Site],
        ends: &[Ending],
        values: &[Option<Read>],
    ) -> Result<Vec<Option<Read>>, NoMemory>
        requires joining { ArePartTables self.now }
        requires sites { AreSites self.now.parts.now sites.now }
        requires ends { AreKnown self.now.parts.now sites.now ends.now }
        requires values { AreGlobalReads self.now.parts.now values.now }
        ensures { IfOk result (λ reads. reads.items ≡ map (λ s. links.read_at (named_modules self.now.parts.now) (the_site s)) sites.now) }
    {
        ends_and_reads_are_paths();
        let mut reads = Vec::new(alloc);
        for at in 0..sites.len() {
            reads.push(self.read_through(sites[at], ends[at], values))?;
        }
        Ok(reads)
    }
}
