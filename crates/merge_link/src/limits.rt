// The limits of staying tables and memories, which all their imports accept (import subtyping,
// WebAssembly Core 2.0, section 3.2.8, for several imports of one).

ghost use Rattle.std.specs.Prelude.{IfOk, None, Some, map, max, replicate, slice_get, ◌≡◌};
ghost use Rattle.merge_spec.specs.Faults as faults;
ghost use Rattle.merge_spec.specs.Parts.{named_modules};
ghost use Rattle.wasm_meaning.specs.Linking as linking;
ghost use Rattle.merge_link.specs.Sites.{AreSites, ImportExists, the_site};
ghost use Rattle.merge_link.specs.PartTables.{ArePartTables, the_end};
ghost use Rattle.merge_link.specs.Gathering.{AreLinkedEnds, EndsThere};
ghost use Rattle.merge_link.specs.Limits.{IsDemand, clash_of, kept_of, met_at};

use crate::part_tables::{Ending, PartTables};
use crate::sites::{Site, import_at};
use merge_spec::LinkFault;
use std::alloc::Global;
use wasm_bytes::NoMemory;
use wasm_tree::{ImportDesc, Limits};

fn least(a: Option<u32>, b: Option<u32>) -> Option<u32>
    ensures { result ≡ linking.least a b }
{
    match (a, b) {
        (None, b) => b,
        (Some(a), None) => Some(a),
        (Some(a), Some(b)) => Some(a.min(b)),
    }
}

// Returns the greater minimum and the lesser maximum.
fn meet(limits: Limits, met: Limits) -> Limits
    ensures { result ≡ record { min = max limits.min met.min; max = linking.least limits.max met.max } }
{
    Limits {
        min: limits.min.max(met.min),
        max: least(limits.max, met.max),
    }
}

fn no_demands(alloc: Global, count: usize) -> Result<Vec<Limits>, NoMemory>
    ensures { IfOk result (λ all. all.items ≡ replicate count (record { min = 0; max = None })) }
{
    Ok(vec![in alloc; Limits { min: 0, max: None }; count]?)
}

fn limits_of(desc: ImportDesc) -> Option<Limits>
    ensures { result ≡ linking.limits_of desc }
{
    match desc {
        ImportDesc::Func(_) => None,
        ImportDesc::Table(ty) => Some(ty.limits),
        ImportDesc::Memory(limits) => Some(limits),
        ImportDesc::Global(_) => None,
    }
}

// Returns the fault of an import, if its limits clash.
fn clash(site: Site, limits: Option<Limits>) -> Option<LinkFault>
    ensures { result ≡ clash_of (the_site site) limits }
{
    match limits {
        None => None,
        Some(Limits { max: None, .. }) => None,
        Some(
            Limits {
                min,
                max: Some(most),
            },
        ) => {
            if most < min {
                Some(LinkFault::LimitsClash {
                    part: site.part,
                    import: site.import,
                })
            } else {
                None
            }
        }
    }
}

impl<'a> PartTables<'a> {
    // Returns the number of an import among those of all parts.
    fn number(&self, site: Site) -> u32
        requires joining { ArePartTables self.now }
        requires there { ImportExists self.now.parts.now site }
        ensures { slice_get (linking.sites (named_modules self.now.parts.now)) result ≡ Some (the_site site) }
    {
        self.tables[site.part as usize].first_import() + site.import
    }

    // Returns the limits that an import asks of the staying import at which it ends, with that
    // one's number.
    fn demand(&self, site: Site, end: Ending) -> Option<(u32, Limits)>
        requires joining { ArePartTables self.now }
        requires there { ImportExists self.now.parts.now site }
        requires end { EndsThere self.now.parts.now end }
        ensures { IsDemand (named_modules self.now.parts.now) (the_site site) (the_end end) result }
    {
        match end {
            Ending::Defined(_) => None,
            Ending::Outside(at) => match limits_of(import_at(self.parts, site).desc) {
                None => None,
                Some(limits) => Some((self.number(at), limits)),
            },
        }
    }

    // Returns for each import the greatest minimum and the least maximum of all that end there.
    fn met_limits(
        &self,
        alloc: Global,
        sites: &[Site],
        linked: &[Ending],
    ) -> Result<Vec<Limits>, NoMemory>
        requires joining { ArePartTables self.now }
        requires sites { AreSites self.now.parts.now sites.now }
        requires linked { AreLinkedEnds self.now.parts.now sites.now linked.now }
        ensures { IfOk result (λ all. all.items ≡ map (met_at self.now.parts.now) sites.now) }
    {
        let mut all = no_demands(alloc, sites.len())?;
        for at in (0..sites.len()).rev() {
            match self.demand(sites[at], linked[at]) {
                None => {}
                Some((number, limits)) => {
                    let met = all[number as usize];
                    all[number as usize] = meet(limits, met);
                }
            }
        }
        Ok(all)
    }

    // Returns `met`, if the import is a table or memory that stays.
    fn kept(&self, site: Site, end: Ending, met: Limits) -> Option<Limits>
        requires there { ImportExists self.now.parts.now site }
        ensures { result ≡ kept_of (named_modules self.now.parts.now) (the_site site) (the_end end) met }
    {
        match end {
            Ending::Defined(_) => None,
            Ending::Outside(at) => {
                if at == site && limits_of(import_at(self.parts, site).desc).is_some() {
                    Some(met)
                } else {
                    None
                }
            }
        }
    }

    /// Returns the limits that each import keeps; `None` unless it is a table or memory that stays.
    pub fn kept_limits(
        &self,
        alloc: Global,
        sites: &[Site],
        linked: &[Ending],
    ) -> Result<Vec<Option<Limits>>, NoMemory>
        requires joining { ArePartTables self.now }
        requires sites { AreSites self.now.parts.now sites.now }
        requires linked { AreLinkedEnds self.now.parts.now sites.now linked.now }
        ensures { IfOk result (λ kept. kept.items ≡ map (λ s. faults.kept_limits (named_modules self.now.parts.now) (the_site s)) sites.now) }
    {
        let met = self.met_limits(alloc, sites, linked)?;
        let mut kept = Vec::new(alloc);
        for at in 0..sites.len() {
            kept.push(self.kept(sites[at], linked[at], met[at]))?;
        }
        Ok(kept)
    }

    /// Returns the fault of the first import whose limits clash, if there is one.
    pub fn first_clash(&self, sites: &[Site], kept: &[Option<Limits>]) -> Option<LinkFault>
        requires { kept.now ≡ map (λ s. faults.kept_limits (named_modules self.now.parts.now) (the_site s)) sites.now }
        ensures { result ≡ faults.first_fault (λ s. faults.clash_fault (named_modules self.now.parts.now) (the_site s)) sites.now }
    {
        for at in 0..sites.len() {
            match clash(sites[at], kept[at]) {
                None => {}
                Some(fault) => return Some(fault),
            }
        }
        None
    }
}
