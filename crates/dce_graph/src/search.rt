// The points that were visited, and those of them whose edges were not followed yet.

ghost use Rattle.std.specs.Prelude.{◌≡◌, ◌∷◌, ◌++◌, [], OnOk, MatchOption};
ghost use Rattle.dce_graph.specs.Marks.{Spread, with_stack};

use crate::marks::Reached;
use crate::point::Point;
use wasm_bytes::{Items, NoMemory};

#[derive(Drop)]
pub(crate) struct Search {
    pub(crate) marks: Reached,
    pub(crate) stack: Items<Point>,
}

/// Visits a point, if it exists.
pub(crate) fn visit(search: &mut Search, point: Point) -> Result<(), NoMemory>
    ensures { OnOk result (Spread search.old (point ∷ []) search.new) }
{
    if !search.marks.is_unmet(point) {
        return Ok(());
    }
    search.stack.keep(point)?;
    search.marks.mark(point);
    Ok(())
}

/// Takes the last point whose edges were not followed yet.
pub(crate) fn next(search: &mut Search) -> Option<Point>
    ensures { MatchOption result ((search.old.stack ≡ []) × (search.new ≡ search.old)) (λ p. (search.old.stack ≡ search.new.stack ++ p ∷ []) × (search.new ≡ with_stack search.old search.new.stack)) }
{
    search.stack.pop()
}
