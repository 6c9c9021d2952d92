// Laws about what is reached.

ghost use Rattle.wasm_tree.specs.declared.space.Space.TheVariants.{Functions, Globals};
ghost use Rattle.dce_graph.specs.declared.point.Point.TheVariants.{Func, Global};
ghost use Rattle.dce_graph.specs.Laws.{AreReachedTogether, ExactMarksAreOne, ExactMarksExist, StayingImportsAreReached};

/// An import of a function or global is reached if and only if that function or global is, and
/// imports of tables and memories are reached in every graph.
pub fn imports_are_reached_with_their_entries()
    ensures funcs { AreReachedTogether Functions Func }
    ensures globals { AreReachedTogether Globals Global }
    ensures staying { StayingImportsAreReached }
{}

/// For each graph and module there are marks on exactly what a path from a root meets (`exist`),
/// and all such marks are the same (`one`; WebAssembly Core 2.0, section 2.5.1).
pub fn exact_marks_exist()
    ensures exist { ExactMarksExist }
    ensures one { ExactMarksAreOne }
{}
