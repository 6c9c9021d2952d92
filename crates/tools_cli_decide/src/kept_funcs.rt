// The lines that report functions which were to move and are kept.
ghost use Rattle.std.specs.Prelude.{◌≡◌, ◌++◌, ℕ, option_map, IfOk, OnOk};
ghost use Rattle.tools_cli_spec.specs.KeptFuncs.{exported_name, told_name, line_of_func, kept_lines};
ghost use Rattle.tools_cli_decide.specs.Labels.{label_in};

use crate::digits::Digits;
use std::alloc::Global;
use std::collections::BTreeMap;
use wasm_bytes::NoMemory;
use wasm_names::FuncName;
use wasm_tree::{Export, Module, Space};

// The names of functions by exports. The loop goes from the last export to the first, so that the
// first export of a function counts.
fn exported_names<'a>(
    alloc: Global,
    exports: &'a [Export],
) -> Result<BTreeMap<u32, &'a str>, NoMemory>
    ensures { IfOk result (λ labels. (func : ℕ) → label_in labels func ≡ exported_name exports.now func) }
{
    let mut labels = BTreeMap::new(alloc);
    for at in (0..exports.len()).rev() {
        let export = &exports[at];
        if export.desc.space() == Space::Functions {
            labels.insert(export.desc.index(), export.name.as_str())?;
        }
    }
    Ok(labels)
}

// The names by which functions are reported, for those that have one. A name of the name list takes
// precedence over an export.
fn told_names<'a>(
    alloc: Global,
    exports: &'a [Export],
    names: &'a [FuncName],
) -> Result<BTreeMap<u32, &'a str>, NoMemory>
    ensures { IfOk result (λ labels. (func : ℕ) → label_in labels func ≡ told_name exports.now names.now func) }
{
    let mut labels = exported_names(alloc, exports)?;
    for at in (0..names.len()).rev() {
        let named = &names[at];
        labels.insert(named.index, named.name.as_str())?;
    }
    Ok(labels)
}

// Adds the line that reports a function.
fn add_line(
    alloc: Global,
    lines: &mut Vec<u8>,
    func: u32,
    name: Option<&str>,
) -> Result<(), NoMemory>
    ensures { OnOk result (lines.new.items ≡ lines.old.items ++ line_of_func func (option_map (λ text. text.now) name.entry)) }
{
    let digits = Digits::new(alloc, func)?;
    lines.extend_from_slice("kept ".as_bytes())?;
    lines.extend_from_slice(name.unwrap_or(digits.as_str()).as_bytes())?;
    lines.extend_from_slice(": uses a segment\n".as_bytes())?;
    Ok(())
}

/// Returns a line for each of these functions, in their order.
pub(crate) fn kept_lines(
    alloc: Global,
    module: &Module,
    names: &[FuncName],
    kept: &[u32],
) -> Result<Vec<u8>, NoMemory>
    ensures { IfOk result (λ lines. lines.items ≡ kept_lines «module».now names.now kept.now) }
{
    let mut lines = Vec::new(alloc);
    if kept.is_empty() {
        return Ok(lines);
    }
    let labels = told_names(alloc, module.exports.as_slice(), names)?;
    for func in kept {
        add_line(alloc, &mut lines, *func, labels.get(func).copied())?;
    }
    Ok(lines)
}
