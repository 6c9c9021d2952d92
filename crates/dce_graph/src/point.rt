/// A point that may be reached: a node of the graph, an export or import of the module by its
/// place, or a function or global by its index, also an imported one (WebAssembly Core 2.0, section
/// 2.5.1).
#[derive(Clone, Copy, Debug, PartialEq, Eq)]
pub enum Point {
    Node(u32),
    Export(u32),
    Import(u32),
    Func(u32),
    Global(u32),
}
