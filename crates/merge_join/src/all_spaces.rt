ghost use Rattle.std.specs.Prelude.{◌≡◌, IfOk};
ghost use Rattle.merge_join.specs.LinkedParts.{PartsAreLinked};
ghost use Rattle.merge_join.specs.AllSpaces.{AreSpaces};

use crate::spaces::{MergedSpace, space_of};
use merge_spec::{Links, Part};
use std::alloc::Global;
use wasm_bytes::NoMemory;
use wasm_tree::Space;

/// The merged index spaces of functions, tables, memories and globals.
#[derive(Drop)]
pub(crate) struct Spaces<'a> {
    pub funcs: MergedSpace<'a>,
    pub tables: MergedSpace<'a>,
    pub mems: MergedSpace<'a>,
    pub globals: MergedSpace<'a>,
}

// Computes two merged index spaces.
fn two_spaces<'a>(
    alloc: Global,
    parts: &'a [Part],
    links: &Links,
    first: Space,
    second: Space,
) -> Result<(MergedSpace<'a>, MergedSpace<'a>), NoMemory>
    requires { PartsAreLinked parts.now links.now }
    ensures first_parts { IfOk result (λ two. two.0.parts.now ≡ parts.now) }
    ensures first_space { IfOk result (λ two. two.0.space ≡ first) }
    ensures second_parts { IfOk result (λ two. two.1.parts.now ≡ parts.now) }
    ensures second_space { IfOk result (λ two. two.1.space ≡ second) }
{
    let one = space_of(alloc, parts, links, first)?;
    let other = space_of(alloc, parts, links, second)?;
    Ok((one, other))
}

/// Computes the four merged index spaces.
pub(crate) fn spaces_of<'a>(
    alloc: Global,
    parts: &'a [Part],
    links: &Links,
) -> Result<Spaces<'a>, NoMemory>
    requires { PartsAreLinked parts.now links.now }
    ensures { IfOk result (λ spaces. AreSpaces parts.now spaces) }
{
    let (funcs, tables) = two_spaces(alloc, parts, links, Space::Functions, Space::Tables)?;
    let (mems, globals) = two_spaces(alloc, parts, links, Space::Memories, Space::Globals)?;
    Ok(Spaces {
        funcs,
        tables,
        mems,
        globals,
    })
}
