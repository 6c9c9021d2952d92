// The globals that parts define, and what their value expressions read.

ghost use Rattle.std.specs.Prelude.{IfOk, length, map, option_map, ◌<◌, ◌^◌, ◌≡◌};
ghost use Rattle.merge_spec.specs.Faults as faults;
ghost use Rattle.merge_spec.specs.Parts.{named_modules};
ghost use Rattle.wasm_meaning.specs.Linking as linking;
ghost use Rattle.merge_link.specs.Sites.{AreSites, ImportExists, the_site};
ghost use Rattle.merge_link.specs.PartTables.{AreKnown, AreSteps, ArePartTables, IsStep, IsStop, the_end, the_entity};
ghost use Rattle.merge_link.specs.Globals.{AreOwn, IsEndStep, IsOwn, own_read, own_reads, the_own, the_read, value_at};

use crate::part_tables::{Ending, Entity, PartTables};
use crate::sites::Site;
use base_paths::{Step, endings};
use merge_spec::{LinkFault, Read};
use std::alloc::Global;
use wasm_bytes::NoMemory;
use wasm_meaning::ends_and_reads_are_paths;
use wasm_tree::{ConstExpr, ExportDesc, Space};

/// A global that a part defines: the part, its index in that part's global space, and its value
/// expression.
#[derive(Clone, Copy, Drop)]
pub struct DefinedGlobal {
    pub part: u32,
    pub index: u32,
    pub init: ConstExpr,
}

impl<'a> PartTables<'a> {
    /// Returns the globals that the parts define, part by part, in the order of their indices.
    pub fn defined_globals(&self, alloc: Global) -> Result<Vec<DefinedGlobal>, NoMemory>
        requires joining { ArePartTables self.now }
        requires parts { length self.now.parts.now < 2 ^ 32 }
        ensures { IfOk result (λ globals. AreOwn self.now.parts.now globals.items) }
    {
        let mut all = Vec::new(alloc);
        for (at, part) in self.parts.iter().enumerate() {
            let globals = part.module.module().globals.as_slice();
            let imported = self.tables[at].imported(Space::Globals);
            for place in 0..globals.len() {
                all.push(DefinedGlobal {
                    part: at as u32,
                    index: (imported + place) as u32,
                    init: globals[place].init,
                })?;
            }
        }
        Ok(all)
    }

    /// Returns the number of a defined global among those of all parts, or `None` if there is no
    /// such global.
    pub fn global_number(&self, entity: Entity) -> Option<u32>
        requires { ArePartTables self.now }
        ensures { IsOwn (named_modules self.now.parts.now) (the_entity entity) result }
    {
        match self.tables.get(entity.part as usize) {
            None => None,
            Some(table) => {
                let index = entity.what.index() as usize;
                let place = index.saturating_sub(table.imported(Space::Globals));
                let globals = self.parts[entity.part as usize]
                    .module
                    .module()
                    .globals
                    .as_slice();
                if place < globals.len() {
                    Some(table.first_global() + place as u32)
                } else {
                    None
                }
            }
        }
    }

    /// Returns the `global.get` of a staying import.
    pub fn outside_read(&self, site: Site) -> Read
        requires joining { ArePartTables self.now }
        requires there { ImportExists self.now.parts.now site }
        ensures { linking.outside_read (named_modules self.now.parts.now) (the_site site) ≡ Some (the_read result) }
    {
        let index = self.tables[site.part as usize].global_index(site.import);
        Read {
            part: site.part,
            expr: ConstExpr::Global(index),
        }
    }

    // Returns the step from the end of a global's import: to the value expression of a defined
    // global, or to the `global.get` of a staying import.
    fn end_step(&self, end: Ending) -> Step<Read>
        requires joining { ArePartTables self.now }
        requires stop { IsStop (named_modules self.now.parts.now) (the_end end) }
        ensures { IsEndStep self.now.parts.now (the_end end) result }
    {
        match end {
            Ending::Outside(site) => Step::Stops(self.outside_read(site)),
            Ending::Defined(entity) => match self.global_number(entity) {
                None => Step::Nowhere,
                Some(number) => Step::Leads(number),
            },
        }
    }

    // Returns the step from a global's value expression.
    fn value_step(&self, sites: &[Site], ends: &[Ending], global: DefinedGlobal) -> Step<Read>
        requires joining { ArePartTables self.now }
        requires sites { AreSites self.now.parts.now sites.now }
        requires ends { AreKnown self.now.parts.now sites.now ends.now }
        ensures { IsStep (linking.read_step (named_modules self.now.parts.now)) (own_reads (named_modules self.now.parts.now)) the_read (own_read (the_own global)) result }
    {
        match global.init {
            ConstExpr::Global(index) => {
                let entity = Entity {
                    part: global.part,
                    what: ExportDesc::Global(index),
                };
                match self.imported_as(entity) {
                    None => Step::Nowhere,
                    Some(number) => self.end_step(ends[number as usize]),
                }
            }
            expr => Step::Stops(Read {
                part: global.part,
                expr,
            }),
        }
    }

    fn value_steps(
        &self,
        alloc: Global,
        sites: &[Site],
        ends: &[Ending],
        globals: &[DefinedGlobal],
    ) -> Result<Vec<Step<Read>>, NoMemory>
        requires joining { ArePartTables self.now }
        requires sites { AreSites self.now.parts.now sites.now }
        requires ends { AreKnown self.now.parts.now sites.now ends.now }
        ensures { IfOk result (λ steps. AreSteps (linking.read_step (named_modules self.now.parts.now)) (own_reads (named_modules self.now.parts.now)) the_read
            (map (λ g. own_read (the_own g)) globals.now) steps.items) }
    {
        let mut steps = Vec::new(alloc);
        for global in globals {
            steps.push(self.value_step(sites, ends, *global))?;
        }
        Ok(steps)
    }

    /// Returns what the value expression of each defined global reads, or `None` if following it
    /// never ends.
    pub fn values(
        &self,
        alloc: Global,
        sites: &[Site],
        ends: &[Ending],
        globals: &[DefinedGlobal],
    ) -> Result<Vec<Option<Read>>, NoMemory>
        requires joining { ArePartTables self.now }
        requires sites { AreSites self.now.parts.now sites.now }
        requires ends { AreKnown self.now.parts.now sites.now ends.now }
        requires globals { AreOwn self.now.parts.now globals.now }
        ensures { IfOk result (λ values. map (option_map the_read) values.items ≡ map (value_at self.now.parts.now) globals.now) }
    {
        ends_and_reads_are_paths();
        let steps = self.value_steps(alloc, sites, ends, globals)?;
        let values = endings(alloc, &steps)?;
        Ok(values)
    }

    /// Returns the fault of the first defined global whose value has no end, if there is one.
    pub fn first_global_fault(
        &self,
        globals: &[DefinedGlobal],
        values: &[Option<Read>],
    ) -> Option<LinkFault>
        requires { map (option_map the_read) values.now ≡ map (value_at self.now.parts.now) globals.now }
        ensures { result ≡ faults.first_fault (λ g. faults.global_fault (named_modules self.now.parts.now) (the_own g)) globals.now }
    {
        for at in 0..globals.len() {
            match values[at] {
                Some(_) => {}
                None => {
                    return Some(LinkFault::GlobalCycle {
                        part: globals[at].part,
                        global: globals[at].index,
                    });
                }
            }
        }
        None
    }
}
