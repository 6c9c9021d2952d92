// Modules (WebAssembly Core 2.0, section 2.5).

ghost use Rattle.std.specs.Prelude.{◌≡◌, [], None};

use crate::instr::Instr;
use crate::types::{FuncType, GlobalType, Limits, RefType, TableType, ValType};
use std::alloc::Global;
use wasm_bytes::{Items, Name};

/// What an import is: a function with its type index, or a table, memory or global with its type
/// (WebAssembly Core 2.0, section 2.5.11).
#[derive(Clone, Copy, Debug, PartialEq, Eq)]
pub enum ImportDesc {
    Func(u32),
    Table(TableType),
    Memory(Limits),
    Global(GlobalType),
}

/// An import (WebAssembly Core 2.0, section 2.5.11).
#[derive(Drop)]
pub struct Import {
    pub module: Name,
    pub field: Name,
    pub desc: ImportDesc,
}

/// Declared locals of one type, grouped as in an entry of the code section (WebAssembly Core 2.0,
/// section 5.5.13).
#[derive(Clone, Copy, Debug, PartialEq, Eq)]
pub struct LocalGroup {
    pub count: u32,
    pub ty: ValType,
}

/// A defined function; `ty` is its type index (WebAssembly Core 2.0, section 2.5.3).
#[derive(Drop)]
pub struct Func {
    pub ty: u32,
    pub locals: Items<LocalGroup>,
    pub body: Items<Instr>,
}

/// A constant expression, as its one instruction before the `end` (WebAssembly Core 2.0, section
/// 3.3.10).
#[derive(Clone, Copy, Debug, PartialEq, Eq)]
pub enum ConstExpr {
    I32(i32),
    I64(i64),
    Null(RefType),
    Func(u32),
    Global(u32),
}

/// A defined global (WebAssembly Core 2.0, section 2.5.6).
#[derive(Clone, Copy, Debug, PartialEq, Eq)]
pub struct GlobalDef {
    pub ty: GlobalType,
    pub init: ConstExpr,
}

/// What an export names, as an index in its index space (WebAssembly Core 2.0, section 2.5.10).
#[derive(Clone, Copy, Debug, PartialEq, Eq)]
pub enum ExportDesc {
    Func(u32),
    Table(u32),
    Memory(u32),
    Global(u32),
}

/// An export (WebAssembly Core 2.0, section 2.5.10).
#[derive(Drop)]
pub struct Export {
    pub name: Name,
    pub desc: ExportDesc,
}

/// The mode of an element segment (WebAssembly Core 2.0, section 2.5.7).
#[derive(Clone, Copy, Debug, PartialEq, Eq)]
pub enum ElemMode {
    Active { table: u32, offset: ConstExpr },
    Passive,
    Declarative,
}

/// An element segment (WebAssembly Core 2.0, section 2.5.7).
#[derive(Drop)]
pub struct ElemSeg {
    pub mode: ElemMode,
    pub ty: RefType,
    pub items: Items<ConstExpr>,
}

/// The mode of a data segment (WebAssembly Core 2.0, section 2.5.8).
#[derive(Clone, Copy, Debug, PartialEq, Eq)]
pub enum DataMode {
    Active { memory: u32, offset: ConstExpr },
    Passive,
}

/// A data segment (WebAssembly Core 2.0, section 2.5.8).
#[derive(Drop)]
pub struct DataSeg {
    pub mode: DataMode,
    pub bytes: Items<u8>,
}

/// A module (WebAssembly Core 2.0, section 2.5).
#[derive(Drop)]
pub struct Module {
    pub types: Items<FuncType>,
    pub imports: Items<Import>,
    /// The defined functions, without the imported ones. `tables`, `mems` and `globals` have only
    /// defined ones too.
    pub funcs: Items<Func>,
    pub tables: Items<TableType>,
    pub mems: Items<Limits>,
    pub globals: Items<GlobalDef>,
    pub exports: Items<Export>,
    pub start: Option<u32>,
    pub elems: Items<ElemSeg>,
    pub datas: Items<DataSeg>,
}

impl Module {
    /// Returns the module in which every list is empty and there is no start function. The call
    /// allocates nothing.
    pub fn empty(alloc: Global) -> Module
        ensures { result ≡ record { types = []; imports = []; funcs = []; tables = []; mems = []; globals = []; exports = []; start = None; elems = []; datas = [] } }
    {
        Module {
            types: Items::new(alloc),
            imports: Items::new(alloc),
            funcs: Items::new(alloc),
            tables: Items::new(alloc),
            mems: Items::new(alloc),
            globals: Items::new(alloc),
            exports: Items::new(alloc),
            start: None,
            elems: Items::new(alloc),
            datas: Items::new(alloc),
        }
    }
}
