// Marks on what is reached.

ghost use Rattle.std.specs.Prelude.{◌≡◌, get_or, slice_get, slice_set, replicate, true, false, length, IfOk, OnOk};
ghost use Rattle.wasm_tree.specs.Spaces.{funcs_of, globals_of};
ghost use Rattle.dce_graph.specs.Marks.{marked, not_set, unmet, with_mark, blank_marks};

use crate::graph::Graph;
use crate::point::Point;
use std::alloc::Global;
use wasm_bytes::{Items, NoMemory};
use wasm_tree::Module;

/// Whether each point of a graph and a module is reached: one mark for each node, export, import,
/// function and global.
#[derive(Drop)]
pub struct Reached {
    pub nodes: Items<bool>,
    pub exports: Items<bool>,
    pub imports: Items<bool>,
    pub funcs: Items<bool>,
    pub globals: Items<bool>,
}

fn is_blank(flags: &[bool], place: u32) -> bool
    ensures { result ≡ not_set (slice_get flags.now place) }
{
    match flags.get(place as usize) {
        Some(flag) => !*flag,
        None => false,
    }
}

/// Returns whether a flag exists and is set.
pub(crate) fn is_set(flags: &[bool], place: u32) -> bool
    ensures { result ≡ get_or flags.now place false }
{
    match flags.get(place as usize) {
        Some(flag) => *flag,
        None => false,
    }
}

/// Sets a flag, if it exists.
pub(crate) fn set_flag(flags: &mut Items<bool>, place: u32)
    ensures { flags.new ≡ slice_set flags.old place true }
{
    if let Some(flag) = flags.get_mut(place as usize) {
        *flag = true;
    }
}

/// Returns `count` flags, none of them set.
pub(crate) fn blank_flags(alloc: Global, count: usize) -> Result<Items<bool>, NoMemory>
    ensures { IfOk result (λ flags. flags ≡ replicate count false) }
{
    let mut flags = Items::new(alloc);
    for _place in 0..count {
        flags.keep(false)?;
    }
    Ok(flags)
}

impl Reached {
    /// Returns marks for all points, none of them set.
    pub(crate) fn blank(alloc: Global, graph: &Graph, module: &Module) -> Result<Reached, NoMemory>
        ensures { IfOk result (λ marks. marks ≡ blank_marks graph.now «module».now) }
    {
        Ok(Reached {
            nodes: blank_flags(alloc, graph.nodes.len())?,
            exports: blank_flags(alloc, module.exports.len())?,
            imports: blank_flags(alloc, module.imports.len())?,
            funcs: blank_flags(alloc, module.func_space())?,
            globals: blank_flags(alloc, module.global_space())?,
        })
    }

    /// Returns whether the point exists and is not marked.
    pub(crate) fn is_unmet(&self, point: Point) -> bool
        ensures { result ≡ unmet self.now point }
    {
        match point {
            Point::Node(place) => is_blank(self.nodes.as_slice(), place),
            Point::Export(place) => is_blank(self.exports.as_slice(), place),
            Point::Import(place) => is_blank(self.imports.as_slice(), place),
            Point::Func(place) => is_blank(self.funcs.as_slice(), place),
            Point::Global(place) => is_blank(self.globals.as_slice(), place),
        }
    }

    /// Marks the point, if it exists.
    pub(crate) fn mark(&mut self, point: Point)
        ensures { self.new ≡ with_mark self.old point }
    {
        match point {
            Point::Node(place) => set_flag(&mut self.nodes, place),
            Point::Export(place) => set_flag(&mut self.exports, place),
            Point::Import(place) => set_flag(&mut self.imports, place),
            Point::Func(place) => set_flag(&mut self.funcs, place),
            Point::Global(place) => set_flag(&mut self.globals, place),
        }
    }
}
