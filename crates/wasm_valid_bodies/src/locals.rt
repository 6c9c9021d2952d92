// The locals of a function, without an entry in memory for each declared local.

ghost use Rattle.std.specs.Prelude.{◌≡◌, ◌+◌, ◌<◌, ◌≤◌, ◌^◌, length, IfOk, slice_get};
ghost use Rattle.wasm_tree.specs.Bounds.{declared_count};
ghost use Rattle.wasm_valid_bodies.specs.Groups.{locals_of, ends_of, IsAscending, IsFirstAbove};

use std::alloc::{AllocError, Global};
use wasm_tree::{LocalGroup, ValType};

/// The parameters of a function and the groups of its declared locals (WebAssembly Core 2.0,
/// section 3.4.1).
#[derive(Drop)]
pub struct Locals<'a> {
    params: &'a [ValType],
    groups: &'a [LocalGroup],
    /// For each group, the number of parameters and declared locals up to its end.
    ends: Vec<u32>,
    ghost ends_are: { ends.items ≡ ends_of (length params.now) groups.now },
}

impl<'a> Locals<'a> {
    /// Returns the locals of a function with these parameters and declared groups, or `AllocError`.
    pub fn new(
        alloc: Global,
        params: &'a [ValType],
        groups: &'a [LocalGroup],
    ) -> Result<Locals<'a>, AllocError>
        requires { length params.now + declared_count groups.now < 2 ^ 32 }
        ensures { IfOk result (λ locals. locals_of locals.params.now locals.groups.now ≡ locals_of params.now groups.now) }
    {
        let ends = group_ends(alloc, params.len(), groups)?;
        Ok(Locals {
            params,
            groups,
            ends,
        })
    }

    // Returns the type of a declared local, if it exists.
    fn declared_at(&self, local: u32) -> Option<ValType>
        requires { length self.now.params.now ≤ local }
        ensures { result ≡ slice_get (locals_of self.now.params.now self.now.groups.now) local }
    {
        let group = first_above(&self.ends, local);
        let groups = self.groups;
        match groups.get(group) {
            Some(group) => Some(group.ty),
            None => None,
        }
    }

    /// Returns the type of a local, if it exists.
    pub fn type_at(&self, local: u32) -> Option<ValType>
        ensures { result ≡ slice_get (locals_of self.now.params.now self.now.groups.now) local }
    {
        match self.params.get(local as usize) {
            Some(ty) => Some(*ty),
            None => self.declared_at(local),
        }
    }
}

// Returns for each group the number of locals up to its end, with `before` locals before the first.
fn group_ends(alloc: Global, before: usize, groups: &[LocalGroup]) -> Result<Vec<u32>, AllocError>
    requires { before + declared_count groups.now < 2 ^ 32 }
    ensures { IfOk result (λ ends. ends.items ≡ ends_of before groups.now) }
{
    let mut ends = Vec::new(alloc);
    let mut end = before as u32;
    for group in groups {
        end += group.count;
        ends.push(end)?;
    }
    Ok(ends)
}

// Returns the first position of a number above `bound` in an ascending list.
fn first_above(ends: &[u32], bound: u32) -> usize
    requires { IsAscending ends.now }
    ensures { IsFirstAbove ends.now bound result }
{
    let mut low = 0;
    let mut high = ends.len();
    while low < high {
        let middle = low + (high - low) / 2;
        if ends[middle] <= bound {
            low = middle + 1;
        } else {
            high = middle;
        }
    }
    low
}
