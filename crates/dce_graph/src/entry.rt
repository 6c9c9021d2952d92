// One entry of a graph file.

ghost use Rattle.std.specs.Prelude.{◌≡◌, map, option_map, option_and_then, is_some};
ghost use Rattle.std.specs.List.{list_all};
ghost use Rattle.base_lists.specs.Options.{all_there};
ghost use Rattle.serde_json.specs.Find.{as_str};
ghost use Rattle.serde_json.specs.View.{view};
ghost use Rattle.dce_graph.specs.GraphFile.{texts_of, import_pair_of, import_pair_of_two, name_in, root_in, reaches_in, export_in, import_in, entry_of};
ghost use Rattle.dce_graph.specs.Entries.{texts_in, pair_now, entry_now};

use serde_json::Value;

/// What an entry says about its node, as parts of the JSON value. The values in `reaches` are
/// strings.
#[derive(Clone, Copy)]
pub(crate) struct Entry<'v> {
    pub(crate) name: &'v str,
    pub(crate) root: bool,
    pub(crate) reaches: &'v [Value],
    pub(crate) export: Option<&'v str>,
    pub(crate) import: Option<(&'v str, &'v str)>,
}

fn are_texts(values: &[Value]) -> bool
    ensures { result ≡ list_all (λ v. is_some (as_str (view v))) values.now }
{
    values.iter().all(|value| value.is_string())
}

// Returns the values of an array, if all are strings.
fn texts(value: &Value) -> Option<&[Value]>
    ensures { option_map (λ vs. texts_in vs.now) result ≡ texts_of (view value.now) }
{
    match value.as_array() {
        Some(values) => {
            if are_texts(values.as_slice()) {
                Some(values.as_slice())
            } else {
                None
            }
        }
        None => None,
    }
}

fn name(value: &Value) -> Option<&str>
    ensures { option_map (λ s. s.now) result ≡ name_in (view value.now) }
{
    match value.get("name") {
        Some(name) => name.as_str(),
        None => None,
    }
}

fn root(value: &Value) -> Option<bool>
    ensures { result ≡ root_in (view value.now) }
{
    match value.get("root") {
        Some(root) => root.as_bool(),
        None => Some(false),
    }
}

fn reaches(value: &Value) -> Option<&[Value]>
    ensures { option_map (λ vs. texts_in vs.now) result ≡ reaches_in (view value.now) }
{
    match value.get("reaches") {
        Some(reaches) => texts(reaches),
        None => Some(&[]),
    }
}

fn export(value: &Value) -> Option<Option<&str>>
    ensures { option_map (λ o. option_map (λ s. s.now) o) result ≡ export_in (view value.now) }
{
    match value.get("export") {
        Some(export) => match export.as_str() {
            Some(name) => Some(Some(name)),
            None => None,
        },
        None => Some(None),
    }
}

// Returns a module and a field, if there are exactly two strings.
fn two_texts(values: &[Value]) -> Option<Option<(&str, &str)>>
    ensures { option_map (λ o. option_map pair_now o) result ≡ option_and_then import_pair_of_two (all_there as_str (map view values.now)) }
{
    if values.len() != 2 {
        return None;
    }
    match values[0].as_str() {
        Some(module) => match values[1].as_str() {
            Some(base) => Some(Some((module, base))),
            None => None,
        },
        None => None,
    }
}

fn pair(value: &Value) -> Option<Option<(&str, &str)>>
    ensures { option_map (λ o. option_map pair_now o) result ≡ import_pair_of (view value.now) }
{
    match value.as_array() {
        Some(values) => two_texts(values.as_slice()),
        None => None,
    }
}

fn import(value: &Value) -> Option<Option<(&str, &str)>>
    ensures { option_map (λ o. option_map pair_now o) result ≡ import_in (view value.now) }
{
    match value.get("import") {
        Some(import) => pair(import),
        None => Some(None),
    }
}

/// Returns what the value says, if it has the shape of an entry.
pub(crate) fn read_entry(value: &Value) -> Option<Entry<'_>>
    ensures { option_map entry_now result ≡ entry_of (view value.now) }
{
    let name = name(value)?;
    let root = root(value)?;
    let reaches = reaches(value)?;
    let export = export(value)?;
    let import = import(value)?;
    if export.is_some() && import.is_some() {
        return None;
    }
    Some(Entry {
        name,
        root,
        reaches,
        export,
        import,
    })
}
