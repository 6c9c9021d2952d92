ghost use Rattle.std.specs.Prelude.{IfOk, None, Some, length, map, option_map, slice_get, ℕ, ◌<◌, ◌^◌, ◌≡◌};
ghost use Rattle.merge_spec.specs.Parts.{named_modules};
ghost use Rattle.wasm_meaning.specs.Linking as linking;
ghost use Rattle.merge_link.specs.Sites.{AreSites, the_site};
ghost use Rattle.merge_link.specs.PartTables.{AreSteps, AreStops, IsImportedAs, ArePartTables, IsStep, end_at, the_end, the_entity};

use crate::sites::{Site, import_at};
use crate::tables::Table;
use base_paths::{Step, endings};
use merge_spec::Part;
use std::alloc::Global;
use std::collections::BTreeMap;
use wasm_bytes::NoMemory;
use wasm_meaning::ends_and_reads_are_paths;
use wasm_tree::{ExportDesc, Import};

/// An entity of a part: an entry of one of its index spaces.
#[derive(Clone, Copy, Drop)]
pub struct Entity {
    pub part: u32,
    pub what: ExportDesc,
}

/// Where following an import ends: an entity that a part defines, with its kind, or an import that
/// stays. When all links are found it becomes a `merge_spec::End`, which has no kind.
#[derive(Clone, Copy, Drop)]
pub enum Ending {
    Defined(Entity),
    Outside(Site),
}

/// Parts, with tables for look-ups in them.
#[derive(Drop)]
pub struct PartTables<'a> {
    pub parts: &'a [Part],
    pub names: BTreeMap<&'a str, u32>,
    pub tables: Vec<Table<'a>>,
}

impl<'a> PartTables<'a> {
    // Returns the entity with which the import is joined, or `None` if it stays.
    fn entity_of(&self, import: &Import) -> Option<Entity>
        requires { ArePartTables self.now }
        ensures { option_map the_entity result ≡ linking.joined (named_modules self.now.parts.now) import.now }
    {
        let part = *self.names.get(import.module.as_str())?;
        let table = self.tables.get(part as usize)?;
        let what = table.export(import.field.as_str())?;
        Some(Entity { part, what })
    }

    /// Returns the number of the import that an entity is, or `None` if its part defines it.
    pub fn imported_as(&self, entity: Entity) -> Option<u32>
        requires { ArePartTables self.now }
        ensures { IsImportedAs (named_modules self.now.parts.now) (the_entity entity) result }
    {
        let table = self.tables.get(entity.part as usize)?;
        let place = table.import_place(entity.what.space(), entity.what.index())?;
        Some(table.first_import() + place)
    }

    // Returns the step from an import to the next one, or to its end.
    fn step_of(&self, site: Site, import: &Import) -> Step<Ending>
        requires joining { ArePartTables self.now }
        requires import { linking.import_at (named_modules self.now.parts.now) (the_site site) ≡ Some import.now }
        ensures { IsStep (linking.import_step (named_modules self.now.parts.now)) (linking.sites (named_modules self.now.parts.now)) the_end (the_site site) result }
    {
        match self.entity_of(import) {
            None => Step::Stops(Ending::Outside(site)),
            Some(entity) => match self.imported_as(entity) {
                None => Step::Stops(Ending::Defined(entity)),
                Some(number) => Step::Leads(number),
            },
        }
    }

    fn steps(&self, alloc: Global, sites: &[Site]) -> Result<Vec<Step<Ending>>, NoMemory>
        requires joining { ArePartTables self.now }
        requires sites { AreSites self.now.parts.now sites.now }
        ensures { IfOk result (λ steps. AreSteps (linking.import_step (named_modules self.now.parts.now)) (linking.sites (named_modules self.now.parts.now)) the_end (map the_site sites.now)
            steps.items) }
    {
        let mut steps = Vec::new(alloc);
        for site in sites {
            let import = import_at(self.parts, *site);
            steps.push(self.step_of(*site, import))?;
        }
        Ok(steps)
    }

    /// Returns the end of each import, or `None` if following it never ends.
    pub fn ends(&self, alloc: Global, sites: &[Site]) -> Result<Vec<Option<Ending>>, NoMemory>
        requires joining { ArePartTables self.now }
        requires sites { AreSites self.now.parts.now sites.now }
        ensures ends { IfOk result (λ ends. map (option_map the_end) ends.items ≡ map (end_at self.now.parts.now) sites.now) }
        ensures stops { IfOk result (λ ends. AreStops self.now.parts.now ends.items) }
    {
        ends_and_reads_are_paths();
        let steps = self.steps(alloc, sites)?;
        let ends = endings(alloc, &steps)?;
        Ok(ends)
    }
}
