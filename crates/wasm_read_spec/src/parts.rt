use wasm_bytes::Items;
use wasm_tree::{DataSeg, ElemSeg, Export, Func, FuncType, GlobalDef, Import, Limits, TableType};

/// What each section contains (WebAssembly Core 2.0, section 5.5).
#[derive(Drop)]
pub struct Parts {
    pub types: Items<FuncType>,
    pub imports: Items<Import>,
    /// The function section: the type indices of the functions.
    pub func_types: Items<u32>,
    pub tables: Items<TableType>,
    pub mems: Items<Limits>,
    pub globals: Items<GlobalDef>,
    pub exports: Items<Export>,
    pub start: Option<u32>,
    pub elems: Items<ElemSeg>,
    /// The code section. Its functions have type index 0, because the section does not have their
    /// types.
    pub codes: Items<Func>,
    pub datas: Items<DataSeg>,
    /// The data count section.
    pub data_count: Option<u32>,
}
