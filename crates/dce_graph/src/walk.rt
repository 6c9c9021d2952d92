// Visits the roots of a graph and a module, and the points to which edges lead.

ghost use Rattle.std.specs.Prelude.{◌≡◌, ◌<◌, ◌^◌, [], ◌∷◌, Some, cond, map, length, OnOk, slice_get};
ghost use Rattle.wasm_tree.specs.Spaces.{space_of_import};
ghost use Rattle.dce_graph.specs.Reach.{edges, edges_of, export_of_node, from_export, from_funcs, from_globals, from_import, from_node, import_points, root_nodes, roots, denotes_import, start_points};
ghost use Rattle.dce_graph.specs.Reach.{stays_imported};
ghost use Rattle.dce_graph.specs.declared.point.Point.TheVariants.{Node as node_point};
ghost use Rattle.dce_graph.specs.Marks.{Spread};
ghost use Rattle.dce_graph.specs.Walks.{AreFollowed, AreLookups, last_place};

use crate::code::{visit_body, visit_const, visit_datas, visit_elems};
use crate::graph::{Graph, Node};
use crate::marks::{is_set, set_flag};
use crate::point::Point;
use crate::search::{Search, visit};
use std::collections::BTreeMap;
use wasm_bytes::{Items, Name, NoMemory};
use wasm_tree::{ExportDesc, Import, ImportDesc, Module};

/// A graph and a module, with what is looked up in them during a search.
#[derive(Drop)]
pub(crate) struct Walk<'a> {
    pub(crate) graph: &'a Graph,
    pub(crate) module: &'a Module,
    /// The place of each export name.
    pub(crate) exports: BTreeMap<&'a str, u32>,
    /// For each module and field the last node that denotes them.
    pub(crate) last: BTreeMap<(&'a str, &'a str), u32>,
    /// For each node the one before it that denotes the same module and field.
    pub(crate) before: Vec<Option<u32>>,
    /// The places of the imports of functions.
    pub(crate) funcs: Vec<u32>,
    /// The places of the imports of globals.
    pub(crate) globals: Vec<u32>,
}

fn visit_nodes(search: &mut Search, places: &[u32]) -> Result<(), NoMemory>
    ensures { OnOk result (Spread search.old (map node_point places.now) search.new) }
{
    for place in places {
        visit(search, Point::Node(*place))?;
    }
    Ok(())
}

fn visit_if(search: &mut Search, is_met: bool, point: Point) -> Result<(), NoMemory>
    ensures { OnOk result (Spread search.old (cond is_met (point ∷ []) []) search.new) }
{
    if is_met { visit(search, point) } else { Ok(()) }
}

fn visit_root_nodes(search: &mut Search, nodes: &[Node]) -> Result<(), NoMemory>
    requires few { length nodes.now < 2 ^ 32 }
    ensures { OnOk result (Spread search.old (root_nodes nodes.now) search.new) }
{
    for place in 0..nodes.len() {
        visit_if(search, nodes[place].root, Point::Node(place as u32))?;
    }
    Ok(())
}

fn visit_start(search: &mut Search, start: Option<u32>) -> Result<(), NoMemory>
    ensures { OnOk result (Spread search.old (start_points start) search.new) }
{
    match start {
        Some(func) => visit(search, Point::Func(func)),
        None => Ok(()),
    }
}

fn stays(desc: &ImportDesc) -> bool
    ensures { result ≡ stays_imported (space_of_import desc.now) }
{
    match desc {
        ImportDesc::Table(_) | ImportDesc::Memory(_) => true,
        ImportDesc::Func(_) | ImportDesc::Global(_) => false,
    }
}

// Visits the imports of tables and memories.
fn visit_imports(search: &mut Search, imports: &[Import]) -> Result<(), NoMemory>
    requires few { length imports.now < 2 ^ 32 }
    ensures { OnOk result (Spread search.old (import_points imports.now) search.new) }
{
    for place in 0..imports.len() {
        let stays = stays(&imports[place].desc);
        visit_if(search, stays, Point::Import(place as u32))?;
    }
    Ok(())
}

impl<'a> Walk<'a> {
    /// Visits the roots.
    pub(crate) fn visit_roots(&self, search: &mut Search) -> Result<(), NoMemory>
        requires nodes { length self.now.graph.now.nodes < 2 ^ 32 }
        requires imports { length self.now.«module».now.imports < 2 ^ 32 }
        ensures { OnOk result (Spread search.old (roots self.now.graph.now self.now.«module».now) search.new) }
    {
        visit_root_nodes(search, self.graph.nodes.as_slice())?;
        visit_start(search, self.module.start)?;
        visit_imports(search, self.module.imports.as_slice())?;
        visit_elems(search, self.module.elems.as_slice())?;
        visit_datas(search, self.module.datas.as_slice())
    }

    // Visits the export with a name, if there is one.
    fn visit_named_export(&self, search: &mut Search, name: &Option<Name>) -> Result<(), NoMemory>
        requires lookups { AreLookups self.now }
        ensures { OnOk result (Spread search.old (export_of_node self.now.«module».now.exports name.now) search.new) }
    {
        match name {
            Some(name) => match self.exports.get(name.as_str()) {
                Some(place) => visit(search, Point::Export(*place)),
                None => Ok(()),
            },
            None => Ok(()),
        }
    }

    fn visit_from_node(&self, search: &mut Search, node: &Node) -> Result<(), NoMemory>
        requires lookups { AreLookups self.now }
        ensures { OnOk result (Spread search.old (from_node self.now.«module».now.exports node.now) search.new) }
    {
        visit_nodes(search, node.reaches.as_slice())?;
        self.visit_named_export(search, &node.export)
    }

    // Visits each node that denotes the import, from the last to the first.
    fn visit_standing(
        &self,
        search: &mut Search,
        import: &Import,
        last: u32,
    ) -> Result<(), NoMemory>
        requires lookups { AreLookups self.now }
        requires last { last_place (denotes_import import.now) self.now.graph.now.nodes 0 ≡ Some last }
        ensures { OnOk result (Spread search.old (from_import self.now.graph.now.nodes import.now) search.new) }
    {
        let mut next = Some(last);
        while let Some(place) = next {
            visit(search, Point::Node(place))?;
            next = self.before[place as usize];
        }
        Ok(())
    }

    // Visits each node that denotes the import. Each module and field is followed only once, even
    // if it is imported several times: the flag of the last node that denotes it is set after that.
    fn visit_from_import(
        &self,
        search: &mut Search,
        followed: &mut Items<bool>,
        import: &'a Import,
    ) -> Result<(), NoMemory>
        requires lookups { AreLookups self.now }
        requires followed { AreFollowed self.now.graph.now.nodes followed.now search.now.marks }
        ensures spread { OnOk result (Spread search.old (from_import self.now.graph.now.nodes import.now) search.new) }
        ensures followed { OnOk result (AreFollowed self.now.graph.now.nodes followed.new search.new.marks) }
    {
        let pair = (import.module.as_str(), import.field.as_str());
        match self.last.get(&pair) {
            Some(last) => {
                if is_set(followed.as_slice(), *last) {
                    return Ok(());
                }
                self.visit_standing(search, import, *last)?;
                set_flag(followed, *last);
                Ok(())
            }
            None => Ok(()),
        }
    }

    fn visit_from_export(&self, search: &mut Search, desc: ExportDesc) -> Result<(), NoMemory>
        ensures { OnOk result (Spread search.old (from_export desc) search.new) }
    {
        match desc {
            ExportDesc::Func(func) => visit(search, Point::Func(func)),
            ExportDesc::Global(global) => visit(search, Point::Global(global)),
            ExportDesc::Table(_) | ExportDesc::Memory(_) => Ok(()),
        }
    }

    fn visit_from_func(&self, search: &mut Search, func: u32) -> Result<(), NoMemory>
        requires lookups { AreLookups self.now }
        ensures { OnOk result (Spread search.old (edges_of (slice_get (from_funcs self.now.«module».now) func)) search.new) }
    {
        let index = func as usize;
        if index < self.funcs.len() {
            return visit(search, Point::Import(self.funcs[index]));
        }
        match self.module.funcs.get(index - self.funcs.len()) {
            Some(func) => visit_body(search, func.body.as_slice()),
            None => Ok(()),
        }
    }

    fn visit_from_global(&self, search: &mut Search, global: u32) -> Result<(), NoMemory>
        requires lookups { AreLookups self.now }
        ensures { OnOk result (Spread search.old (edges_of (slice_get (from_globals self.now.«module».now) global)) search.new) }
    {
        let index = global as usize;
        if index < self.globals.len() {
            return visit(search, Point::Import(self.globals[index]));
        }
        match self.module.globals.get(index - self.globals.len()) {
            Some(global) => visit_const(search, &global.init),
            None => Ok(()),
        }
    }

    /// Visits the points to which edges lead from a point.
    pub(crate) fn visit_edges(
        &self,
        search: &mut Search,
        followed: &mut Items<bool>,
        point: Point,
    ) -> Result<(), NoMemory>
        requires lookups { AreLookups self.now }
        requires followed { AreFollowed self.now.graph.now.nodes followed.now search.now.marks }
        ensures spread { OnOk result (Spread search.old (edges self.now.graph.now self.now.«module».now point) search.new) }
        ensures followed { OnOk result (AreFollowed self.now.graph.now.nodes followed.new search.new.marks) }
    {
        match point {
            Point::Node(place) => match self.graph.nodes.get(place as usize) {
                Some(node) => self.visit_from_node(search, node),
                None => Ok(()),
            },
            Point::Export(place) => match self.module.exports.get(place as usize) {
                Some(export) => self.visit_from_export(search, export.desc),
                None => Ok(()),
            },
            Point::Import(place) => match self.module.imports.get(place as usize) {
                Some(import) => self.visit_from_import(search, followed, import),
                None => Ok(()),
            },
            Point::Func(func) => self.visit_from_func(search, func),
            Point::Global(global) => self.visit_from_global(search, global),
        }
    }
}
