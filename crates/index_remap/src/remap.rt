// The maps of indices, and the parts of a module that have only a few indices.

ghost use Rattle.std.specs.Prelude.{◌≡◌, ◌<◌, length, slice_index, IsTrue};
ghost use Rattle.index_remap.specs.Renumbered.{new_type, new_memarg, new_const, new_import_desc, new_export_desc, new_elem_mode, new_data_mode, new_start, fits_type, has, fits_const};
ghost use Rattle.index_remap.specs.Renumbered.{fits_import_desc, fits_export_desc, fits_elem_mode, fits_data_mode, fits_start};

use wasm_bytes::Items;
use wasm_tree::{BlockType, ConstExpr, DataMode, ElemMode, ExportDesc, ImportDesc, MemArg};

/// The new index of each old index, for each index space.
#[derive(Drop)]
pub struct Remap {
    pub types: Items<u32>,
    pub funcs: Items<u32>,
    pub tables: Items<u32>,
    pub mems: Items<u32>,
    pub globals: Items<u32>,
    pub elems: Items<u32>,
    pub datas: Items<u32>,
}

pub(crate) fn entry(map: &Items<u32>, at: u32) -> u32
    requires { at < length map.now }
    ensures { result ≡ slice_index map.now at }
{
    map.as_slice()[at as usize]
}

pub(crate) fn renumber_type(ty: BlockType, map: &Remap) -> BlockType
    requires { IsTrue (fits_type map.now ty) }
    ensures { result ≡ new_type map.now ty }
{
    match ty {
        BlockType::Empty => BlockType::Empty,
        BlockType::Value(value) => BlockType::Value(value),
        BlockType::Index(at) => BlockType::Index(entry(&map.types, at)),
    }
}

pub(crate) fn renumber_memarg(arg: MemArg, map: &Remap) -> MemArg
    requires { IsTrue (has map.now.mems arg.memory) }
    ensures { result ≡ new_memarg map.now arg }
{
    MemArg {
        align: arg.align,
        offset: arg.offset,
        memory: entry(&map.mems, arg.memory),
    }
}

/// Returns the constant expression with its index replaced by its entry in `map` (WebAssembly Core
/// 2.0, section 3.3.10). `map` needs an entry for that index.
pub fn renumber_const(expr: ConstExpr, map: &Remap) -> ConstExpr
    requires { IsTrue (fits_const map.now expr) }
    ensures { result ≡ new_const map.now expr }
{
    match expr {
        ConstExpr::I32(value) => ConstExpr::I32(value),
        ConstExpr::I64(value) => ConstExpr::I64(value),
        ConstExpr::Null(ty) => ConstExpr::Null(ty),
        ConstExpr::Func(func) => ConstExpr::Func(entry(&map.funcs, func)),
        ConstExpr::Global(global) => ConstExpr::Global(entry(&map.globals, global)),
    }
}

pub(crate) fn renumber_import_desc(desc: ImportDesc, map: &Remap) -> ImportDesc
    requires { IsTrue (fits_import_desc map.now desc) }
    ensures { result ≡ new_import_desc map.now desc }
{
    match desc {
        ImportDesc::Func(ty) => ImportDesc::Func(entry(&map.types, ty)),
        ImportDesc::Table(ty) => ImportDesc::Table(ty),
        ImportDesc::Memory(limits) => ImportDesc::Memory(limits),
        ImportDesc::Global(ty) => ImportDesc::Global(ty),
    }
}

/// Returns what an export denotes, with its index replaced by its entry in `map` (WebAssembly Core
/// 2.0, section 2.5.10). `map` needs an entry for that index.
pub fn renumber_export_desc(desc: ExportDesc, map: &Remap) -> ExportDesc
    requires { IsTrue (fits_export_desc map.now desc) }
    ensures { result ≡ new_export_desc map.now desc }
{
    match desc {
        ExportDesc::Func(func) => ExportDesc::Func(entry(&map.funcs, func)),
        ExportDesc::Table(table) => ExportDesc::Table(entry(&map.tables, table)),
        ExportDesc::Memory(memory) => ExportDesc::Memory(entry(&map.mems, memory)),
        ExportDesc::Global(global) => ExportDesc::Global(entry(&map.globals, global)),
    }
}

pub(crate) fn renumber_elem_mode(mode: ElemMode, map: &Remap) -> ElemMode
    requires { IsTrue (fits_elem_mode map.now mode) }
    ensures { result ≡ new_elem_mode map.now mode }
{
    match mode {
        ElemMode::Active { table, offset } => ElemMode::Active {
            table: entry(&map.tables, table),
            offset: renumber_const(offset, map),
        },
        ElemMode::Passive => ElemMode::Passive,
        ElemMode::Declarative => ElemMode::Declarative,
    }
}

pub(crate) fn renumber_data_mode(mode: DataMode, map: &Remap) -> DataMode
    requires { IsTrue (fits_data_mode map.now mode) }
    ensures { result ≡ new_data_mode map.now mode }
{
    match mode {
        DataMode::Active { memory, offset } => DataMode::Active {
            memory: entry(&map.mems, memory),
            offset: renumber_const(offset, map),
        },
        DataMode::Passive => DataMode::Passive,
    }
}

pub(crate) fn renumber_start(start: Option<u32>, map: &Remap) -> Option<u32>
    requires { IsTrue (fits_start map.now start) }
    ensures { result ≡ new_start map.now start }
{
    match start {
        Some(func) => Some(entry(&map.funcs, func)),
        None => None,
    }
}
