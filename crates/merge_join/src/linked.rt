ghost use Rattle.std.specs.Prelude.{◌≡◌, ◌<◌, length, Some, Bool, option_map, map};
ghost use Rattle.wasm_tree.specs.Bounds.{IsBounded};
ghost use Rattle.wasm_valid.specs.Validity.{IsValid};
ghost use Rattle.wasm_meaning.specs.Linking.{module_at, linked_end};
ghost use Rattle.merge_spec.specs.Parts.{named_modules};
ghost use Rattle.merge_spec.specs.Linked.{AreLinks, end_entry, read_at};
ghost use Rattle.merge_spec.specs.Faults as faults;
ghost use Rattle.merge_join.specs.LinkedParts.{site, IsSite, PartsHold};

use merge_spec::{End, Links, Part, Read};
use wasm_tree::{Limits, Module};

/// Returns the module of the part at a place.
pub(crate) fn module_of(parts: &[Part], part: usize) -> &Module
    requires { part < length parts.now }
    ensures at { module_at (named_modules parts.now) part ≡ Some result.now }
    ensures valid { IsValid result.now }
    ensures bounded { IsBounded result.now }
{
    parts[part].module.module()
}

/// Shows that each part's module is valid and bounded, as the type `Valid` guarantees.
pub(crate) fn parts_hold(parts: &[Part])
    ensures { PartsHold (named_modules parts.now) }
{
    for part in 0..parts.len() {
        let _module = module_of(parts, part);
    }
}

/// Returns the end of an import.
pub(crate) fn end_of(parts: &[Part], links: &Links, part: usize, import: usize) -> End
    requires links { AreLinks (named_modules parts.now) links.now }
    requires there { IsSite (named_modules parts.now) part import }
    ensures { option_map end_entry (linked_end (named_modules parts.now) (site part import)) ≡ Some result }
{
    links.ends.as_slice()[part].as_slice()[import]
}

/// Returns the limits that an import keeps; `None` unless it is a table or memory that stays.
pub(crate) fn limits_of(parts: &[Part], links: &Links, part: usize, import: usize) -> Option<Limits>
    requires links { AreLinks (named_modules parts.now) links.now }
    requires there { IsSite (named_modules parts.now) part import }
    ensures { result ≡ faults.kept_limits (named_modules parts.now) (site part import) }
{
    links.limits.as_slice()[part].as_slice()[import]
}

/// Returns what is read through an import; `None` unless it is an immutable global.
pub(crate) fn read_of(parts: &[Part], links: &Links, part: usize, import: usize) -> Option<Read>
    requires links { AreLinks (named_modules parts.now) links.now }
    requires there { IsSite (named_modules parts.now) part import }
    ensures { result ≡ read_at (named_modules parts.now) (site part import) }
{
    links.reads.as_slice()[part].as_slice()[import]
}

/// Returns whether an import stays, that is, whether it is its own end.
pub(crate) fn stays(parts: &[Part], links: &Links, part: usize, import: usize) -> bool
    requires links { AreLinks (named_modules parts.now) links.now }
    requires there { IsSite (named_modules parts.now) part import }
    ensures { result ≡ faults.stays (named_modules parts.now) (site part import) }
{
    match end_of(parts, links, part, import) {
        End::Outside {
            part: other,
            import: place,
        } => other as usize == part && place as usize == import,
        End::Defined { .. } => false,
    }
}
