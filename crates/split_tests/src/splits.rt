ghost use Rattle.std.specs.Prelude.{◌<◌, ◌^◌, length};

use crate::modules::{ADD, CALL, LINKED, module, planned};
use split_slots::{Pair, SplitFault, SplitNames, split};
use std::alloc::Global;
use std::test::Fail;
use wasm_bytes::{Name, NoMemory};
use wasm_valid::Valid;
use wasm_write::write;

// The primary module for `add`, with a trampoline.
const ADD_PRIMARY: &[u8] = b"\
    \x00\x61\x73\x6D\x01\x00\x00\x00\
    \x01\x07\x01\x60\x02\x7F\x7F\x01\x7F\
    \x02\x11\x01\x0B\x70\x6C\x61\x63\x65\x68\x6F\x6C\x64\x65\x72\x01\x30\x00\x00\
    \x03\x02\x01\x00\
    \x04\x05\x01\x70\x01\x01\x01\
    \x07\x10\x02\x03\x61\x64\x64\x00\x01\x06\x25\x73\x6C\x6F\x74\x73\x01\x00\
    \x09\x07\x01\x00\x41\x00\x0B\x01\x00\
    \x0A\x0D\x01\x0B\x00\x20\x00\x20\x01\x41\x00\x11\x00\x00\x0B";

// Its secondary module.
const ADD_SECONDARY: &[u8] = b"\
    \x00\x61\x73\x6D\x01\x00\x00\x00\
    \x01\x07\x01\x60\x02\x7F\x7F\x01\x7F\
    \x02\x15\x01\x07\x70\x72\x69\x6D\x61\x72\x79\x06\x25\x73\x6C\x6F\x74\x73\x01\x70\x01\x01\x01\
    \x03\x02\x01\x00\
    \x09\x07\x01\x00\x41\x00\x0B\x01\x00\
    \x0A\x09\x01\x07\x00\x20\x00\x20\x01\x6A\x0B";

// The primary module for `g`, which is called through its slot.
const CALL_PRIMARY: &[u8] = b"\
    \x00\x61\x73\x6D\x01\x00\x00\x00\
    \x01\x05\x01\x60\x00\x01\x7F\
    \x02\x11\x01\x0B\x70\x6C\x61\x63\x65\x68\x6F\x6C\x64\x65\x72\x01\x30\x00\x00\
    \x03\x02\x01\x00\
    \x04\x05\x01\x70\x01\x01\x01\
    \x07\x0E\x02\x01\x66\x00\x01\x06\x25\x73\x6C\x6F\x74\x73\x01\x00\
    \x09\x07\x01\x00\x41\x00\x0B\x01\x00\
    \x0A\x09\x01\x07\x00\x41\x00\x11\x00\x00\x0B";

// Its secondary module.
const CALL_SECONDARY: &[u8] = b"\
    \x00\x61\x73\x6D\x01\x00\x00\x00\
    \x01\x05\x01\x60\x00\x01\x7F\
    \x02\x15\x01\x07\x70\x72\x69\x6D\x61\x72\x79\x06\x25\x73\x6C\x6F\x74\x73\x01\x70\x01\x01\x01\
    \x03\x02\x01\x00\
    \x09\x07\x01\x00\x41\x00\x0B\x01\x00\
    \x0A\x06\x01\x04\x00\x41\x07\x0B";

// The primary module for `twice`, whose trampoline stands in the table of the module.
const LINKED_PRIMARY: &[u8] = b"\
    \x00\x61\x73\x6D\x01\x00\x00\x00\
    \x01\x0D\x03\x60\x00\x00\x60\x01\x7F\x01\x7F\x60\x01\x7F\x00\
    \x02\x1B\x02\x03\x65\x6E\x76\x03\x6C\x6F\x67\x00\x02\x0B\x70\x6C\x61\x63\x65\x68\x6F\x6C\x64\
    \x65\x72\x01\x30\x00\x01\
    \x03\x05\x04\x00\x00\x01\x01\
    \x04\x09\x02\x70\x01\x05\x05\x70\x01\x01\x01\
    \x05\x03\x01\x00\x02\
    \x06\x08\x01\x7F\x01\x41\x90\x88\x04\x0B\
    \x07\x2D\x04\x06\x6D\x65\x6D\x6F\x72\x79\x02\x00\x11\x5F\x5F\x77\x61\x73\x6D\x5F\x63\x61\x6C\
    \x6C\x5F\x63\x74\x6F\x72\x73\x00\x02\x03\x72\x75\x6E\x00\x05\x06\x25\x73\x6C\x6F\x74\x73\x01\
    \x01\
    \x09\x0F\x02\x00\x41\x01\x0B\x01\x04\x02\x01\x41\x00\x0B\x00\x01\x01\
    \x0A\x29\x04\x04\x00\x10\x03\x0B\x0A\x00\x41\x00\x41\x2A\x36\x02\x84\x08\x0B\x09\x00\x20\x00\
    \x41\x00\x11\x01\x01\x0B\x0D\x00\x20\x00\x10\x00\x20\x00\x41\x01\x11\x01\x00\x0B\
    \x0B\x09\x01\x00\x41\x80\x08\x0B\x02\x68\x69";

// Its secondary module.
const LINKED_SECONDARY: &[u8] = b"\
    \x00\x61\x73\x6D\x01\x00\x00\x00\
    \x01\x0D\x03\x60\x00\x00\x60\x01\x7F\x01\x7F\x60\x01\x7F\x00\
    \x02\x15\x01\x07\x70\x72\x69\x6D\x61\x72\x79\x06\x25\x73\x6C\x6F\x74\x73\x01\x70\x01\x01\x01\
    \x03\x02\x01\x01\
    \x09\x07\x01\x00\x41\x00\x0B\x01\x00\
    \x0A\x09\x01\x07\x00\x20\x00\x41\x01\x74\x0B";

// A function that copies from a segment, exported as `i`, so that it stays.
const COPY: &[u8] = b"\
    \x00\x61\x73\x6D\x01\x00\x00\x00\
    \x01\x04\x01\x60\x00\x00\
    \x03\x02\x01\x00\
    \x05\x03\x01\x00\x01\
    \x07\x05\x01\x01\x69\x00\x00\
    \x0C\x01\x01\
    \x0A\x0E\x01\x0C\x00\x41\x00\x41\x00\x41\x00\xFC\x08\x00\x00\x0B\
    \x0B\x04\x01\x01\x01\x78";

// The primary module for nothing.
const COPY_PRIMARY: &[u8] = b"\
    \x00\x61\x73\x6D\x01\x00\x00\x00\
    \x01\x04\x01\x60\x00\x00\
    \x03\x02\x01\x00\
    \x04\x05\x01\x70\x01\x00\x00\
    \x05\x03\x01\x00\x01\
    \x07\x0E\x02\x01\x69\x00\x00\x06\x25\x73\x6C\x6F\x74\x73\x01\x00\
    \x09\x06\x01\x00\x41\x00\x0B\x00\
    \x0C\x01\x01\
    \x0A\x0E\x01\x0C\x00\x41\x00\x41\x00\x41\x00\xFC\x08\x00\x00\x0B\
    \x0B\x04\x01\x01\x01\x78";

// Its secondary module.
const COPY_SECONDARY: &[u8] =
    b"\x00\x61\x73\x6D\x01\x00\x00\x00\x01\x04\x01\x60\x00\x00\x02\x15\x01\x07\x70\x72\x69\x6D\x61\x72\x79\x06\x25\x73\x6C\x6F\x74\x73\x01\x70\x01\x00\x00\x09\x06\x01\x00\x41\x00\x0B\x00";

// The function that adds, beside an import from `placeholder`.
const NAMESPACE: &[u8] = b"\
    \x00\x61\x73\x6D\x01\x00\x00\x00\
    \x01\x07\x01\x60\x02\x7F\x7F\x01\x7F\
    \x02\x12\x01\x0B\x70\x6C\x61\x63\x65\x68\x6F\x6C\x64\x65\x72\x01\x67\x03\x7F\x00\
    \x03\x02\x01\x00\
    \x07\x07\x01\x03\x61\x64\x64\x00\x00\
    \x0A\x09\x01\x07\x00\x20\x00\x20\x01\x6A\x0B";

// The function that adds, exported as `%slots`.
const SLOTS: &[u8] =
    b"\x00\x61\x73\x6D\x01\x00\x00\x00\x01\x07\x01\x60\x02\x7F\x7F\x01\x7F\x03\x02\x01\x00\x07\x0A\x01\x06\x25\x73\x6C\x6F\x74\x73\x00\x00\x0A\x09\x01\x07\x00\x20\x00\x20\x01\x6A\x0B";

fn names(alloc: Global) -> Result<SplitNames, NoMemory> {
    let import_namespace = Name::from_text(alloc, "primary")?;
    let placeholder_namespace = Name::from_text(alloc, "placeholder")?;
    let export_prefix = Name::from_text(alloc, "%")?;
    Ok(SplitNames {
        import_namespace,
        placeholder_namespace,
        export_prefix,
    })
}

fn told(alloc: Global, fault: &SplitFault) -> Result<String, Fail> {
    Ok(match fault {
        SplitFault::NamespaceTaken { import } => format!(in alloc; "namespace {import}")?,
        SplitFault::PrefixTaken { name } => {
            let name = name.as_str();
            format!(in alloc; "prefix {name}")?
        }
        SplitFault::TooMany { which } => format!(in alloc; "too many {which:?}")?,
        SplitFault::NoMemory => format!(in alloc; "no memory")?,
    })
}

// The split of these bytes under these names, where this word names what moves.
fn split_under(
    alloc: Global,
    bytes: &[u8],
    word: &str,
    names: &SplitNames,
) -> Result<Result<Pair, SplitFault>, Fail>
    requires { length bytes.now < 2 ^ 32 }
{
    let input = module(alloc, bytes)?;
    let plan = planned(alloc, &input, bytes, word)?;
    Ok(split(alloc, input, &plan, names))
}

// The split of these bytes, where this word names what moves.
fn tried(alloc: Global, bytes: &[u8], word: &str) -> Result<Result<Pair, SplitFault>, Fail>
    requires { length bytes.now < 2 ^ 32 }
{
    let names = names(alloc)?;
    split_under(alloc, bytes, word, &names)
}

// Whether a module is spelled so.
fn is_spelled(alloc: Global, module: &Valid, bytes: &[u8]) -> Result<bool, Fail> {
    let spelled = write(alloc, module.module())?;
    Ok(spelled.as_slice() == bytes)
}

// Names the first of both modules that is not spelled so, or nothing.
fn unlike(
    alloc: Global,
    pair: &Pair,
    primary: &[u8],
    secondary: &[u8],
) -> Result<&'static str, Fail> {
    if !is_spelled(alloc, &pair.primary, primary)? {
        return Ok("the primary module");
    }
    if !is_spelled(alloc, &pair.secondary, secondary)? {
        return Ok("the secondary module");
    }
    Ok("")
}

// Which module of the split of these bytes is not spelled so, where this word names what moves, or
// nothing.
fn unlike_split(
    alloc: Global,
    bytes: &[u8],
    word: &str,
    primary: &[u8],
    secondary: &[u8],
) -> Result<&'static str, Fail>
    requires { length bytes.now < 2 ^ 32 }
{
    match tried(alloc, bytes, word)? {
        Ok(pair) => unlike(alloc, &pair, primary, secondary),
        Err(_fault) => Err(Fail::new("not split")),
    }
}

// The fault that is told.
fn refusal(alloc: Global, bytes: &[u8], word: &str) -> Result<String, Fail>
    requires { length bytes.now < 2 ^ 32 }
{
    match tried(alloc, bytes, word)? {
        Ok(_) => Err(Fail::new("split")),
        Err(fault) => told(alloc, &fault),
    }
}

#[test]
fn an_exported_function_is_called_through_a_trampoline(rt: HostRuntime) -> Result<(), Fail> {
    let unlike = unlike_split(rt.alloc(), ADD, "add", ADD_PRIMARY, ADD_SECONDARY)?;
    assert_eq!(rt; unlike, "");
    Ok(())
}

#[test]
fn a_function_that_is_only_called_is_called_through_its_slot(rt: HostRuntime) -> Result<(), Fail> {
    let unlike = unlike_split(rt.alloc(), CALL, "g", CALL_PRIMARY, CALL_SECONDARY)?;
    assert_eq!(rt; unlike, "");
    Ok(())
}

#[test]
fn no_table_of_the_module_holds_a_slot(rt: HostRuntime) -> Result<(), Fail> {
    let alloc = rt.alloc();
    let unlike = unlike_split(alloc, LINKED, "twice", LINKED_PRIMARY, LINKED_SECONDARY)?;
    assert_eq!(rt; unlike, "");
    Ok(())
}

#[test]
fn where_nothing_moves_there_is_no_slot(rt: HostRuntime) -> Result<(), Fail> {
    let unlike = unlike_split(rt.alloc(), COPY, "i", COPY_PRIMARY, COPY_SECONDARY)?;
    assert_eq!(rt; unlike, "");
    Ok(())
}

#[test]
fn an_import_may_have_the_namespace(rt: HostRuntime) -> Result<(), Fail> {
    assert_eq!(rt;
        refusal(rt.alloc(), NAMESPACE, "add")?.as_str(),
        "namespace 0"
    );
    Ok(())
}

#[test]
fn an_export_may_have_the_name_of_the_slot_table(rt: HostRuntime) -> Result<(), Fail> {
    assert_eq!(rt;
        refusal(rt.alloc(), SLOTS, "%slots")?.as_str(),
        "prefix %slots"
    );
    Ok(())
}
