ghost use Rattle.std.specs.Prelude.{IfOk, Some, length, ◌<◌, ◌^◌, ◌≡◌};
ghost use Rattle.merge_spec.specs.Parts.{named_modules};
ghost use Rattle.wasm_meaning.specs.Linking as linking;
ghost use Rattle.merge_link.specs.Sites.{AreSites, ImportExists, the_site};

use merge_spec::Part;
use std::alloc::Global;
use wasm_bytes::NoMemory;
use wasm_tree::Import;

/// The place of an import: its part, and its place in the import section.
#[derive(Clone, Copy, Debug, PartialEq, Eq)]
pub struct Site {
    pub part: u32,
    pub import: u32,
}

/// Returns the places of all imports, part by part, in order.
pub fn all_sites(alloc: Global, parts: &[Part]) -> Result<Vec<Site>, NoMemory>
    requires parts { length parts.now < 2 ^ 32 }
    requires imports { length (linking.sites (named_modules parts.now)) < 2 ^ 32 }
    ensures { IfOk result (λ sites. AreSites parts.now sites.items) }
{
    let mut sites = Vec::new(alloc);
    for (at, part) in parts.iter().enumerate() {
        let imports = part.module.module().imports.len();
        for import in 0..imports {
            sites.push(Site {
                part: at as u32,
                import: import as u32,
            })?;
        }
    }
    Ok(sites)
}

/// Returns the import at a place.
pub fn import_at<'a>(parts: &'a [Part], site: Site) -> &'a Import
    requires there { ImportExists parts.now site }
    ensures { linking.import_at (named_modules parts.now) (the_site site) ≡ Some result.now }
{
    let part = &parts[site.part as usize];
    &part.module.module().imports.as_slice()[site.import as usize]
}
