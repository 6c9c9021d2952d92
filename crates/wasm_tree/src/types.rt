// Types (WebAssembly Core 2.0, section 2.3).

use wasm_bytes::Items;

/// A reference type (WebAssembly Core 2.0, section 2.3.3).
#[derive(Clone, Copy, Debug, PartialEq, Eq)]
pub enum RefType {
    Func,
    Extern,
}

/// A value type of the integer profile (WebAssembly Core 2.0, section 2.3.4).
#[derive(Clone, Copy, Debug, PartialEq, Eq)]
pub enum ValType {
    I32,
    I64,
    Ref(RefType),
}

/// The type of a function (WebAssembly Core 2.0, section 2.3.6).
#[derive(Drop)]
pub struct FuncType {
    pub params: Items<ValType>,
    pub results: Items<ValType>,
}

/// The range of the size of a table or a memory (WebAssembly Core 2.0, section 2.3.7).
#[derive(Clone, Copy, Debug, PartialEq, Eq)]
pub struct Limits {
    pub min: u32,
    pub max: Option<u32>,
}

/// The type of a table (WebAssembly Core 2.0, section 2.3.9).
#[derive(Clone, Copy, Debug, PartialEq, Eq)]
pub struct TableType {
    pub ty: RefType,
    pub limits: Limits,
}

/// The type of a global (WebAssembly Core 2.0, section 2.3.10).
#[derive(Clone, Copy, Debug, PartialEq, Eq)]
pub struct GlobalType {
    pub ty: ValType,
    pub mutable: bool,
}

/// The type of a block: no result, one result, or a type index of the module (WebAssembly Core 2.0,
/// section 2.4.8).
#[derive(Clone, Copy, Debug, PartialEq, Eq)]
pub enum BlockType {
    Empty,
    Value(ValType),
    Index(u32),
}
