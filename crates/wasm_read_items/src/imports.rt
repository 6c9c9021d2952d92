ghost use Rattle.std.specs.Prelude.{◌≡◌, ◌<◌, length, OnOk};
ghost use Rattle.wasm_read_spec.specs.Reading.{Gives, name_at, import_desc_at, import_at, export_desc_at, export_at};

use crate::types::{read_byte, read_u32};
use crate::vectors::Spelled;
use std::alloc::Global;
use wasm_bytes::{Cursor, Name};
use wasm_read_spec::Fault;
use wasm_tree::{Export, ExportDesc, GlobalType, Import, ImportDesc, Limits, TableType};

/// Reads a name (WebAssembly Core 2.0, section 5.2.4). The error is `Malformed` or `NoMemory`.
pub fn read_name(alloc: Global, cursor: &mut Cursor<'_>) -> Result<Name, Fault>
    ensures gives { Gives result cursor.new (name_at cursor.old) }
    ensures shorter { OnOk result (length cursor.new < length cursor.old) }
{
    match cursor.name() {
        Ok(text) => Ok(Name::from_text(alloc, text)?),
        Err(_) => Err(Fault::Malformed),
    }
}

/// Reads the kind byte of an import and what follows it (WebAssembly Core 2.0, section 5.5.5).
#[tactic(auto, unfolding(wasm_read_spec::specs::Reading::import_desc_at))]
fn read_import_desc(alloc: Global, cursor: &mut Cursor<'_>) -> Result<ImportDesc, Fault>
    ensures gives { Gives result cursor.new (import_desc_at cursor.old) }
    ensures shorter { OnOk result (length cursor.new < length cursor.old) }
{
    match read_byte(cursor)? {
        0x00 => Ok(ImportDesc::Func(read_u32(cursor)?)),
        0x01 => Ok(ImportDesc::Table(TableType::read(alloc, cursor)?)),
        0x02 => Ok(ImportDesc::Memory(Limits::read(alloc, cursor)?)),
        0x03 => Ok(ImportDesc::Global(GlobalType::read(alloc, cursor)?)),
        _ => Err(Fault::Malformed),
    }
}

impl Spelled for Import {
    ghost reading = { import_at };

    #[tactic(auto, unfolding(wasm_read_spec::specs::Reading::import_at))]
    fn read(alloc: Global, cursor: &mut Cursor<'_>) -> Result<Import, Fault> {
        let module = read_name(alloc, cursor)?;
        let field = read_name(alloc, cursor)?;
        let desc = read_import_desc(alloc, cursor)?;
        Ok(Import {
            module,
            field,
            desc,
        })
    }
}

/// Reads the kind byte and the index of an export (WebAssembly Core 2.0, section 5.5.10).
#[tactic(auto, unfolding(wasm_read_spec::specs::Reading::export_desc_at))]
fn read_export_desc(cursor: &mut Cursor<'_>) -> Result<ExportDesc, Fault>
    ensures gives { Gives result cursor.new (export_desc_at cursor.old) }
    ensures shorter { OnOk result (length cursor.new < length cursor.old) }
{
    match read_byte(cursor)? {
        0x00 => Ok(ExportDesc::Func(read_u32(cursor)?)),
        0x01 => Ok(ExportDesc::Table(read_u32(cursor)?)),
        0x02 => Ok(ExportDesc::Memory(read_u32(cursor)?)),
        0x03 => Ok(ExportDesc::Global(read_u32(cursor)?)),
        _ => Err(Fault::Malformed),
    }
}

impl Spelled for Export {
    ghost reading = { export_at };

    #[tactic(auto, unfolding(wasm_read_spec::specs::Reading::export_at))]
    fn read(alloc: Global, cursor: &mut Cursor<'_>) -> Result<Export, Fault> {
        let name = read_name(alloc, cursor)?;
        let desc = read_export_desc(cursor)?;
        Ok(Export { name, desc })
    }
}
