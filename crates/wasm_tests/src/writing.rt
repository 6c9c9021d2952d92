use std::alloc::Global;
use std::test::Fail;
use wasm_bytes::{Items, Name, NoMemory};
use wasm_num::{BinOp, UnOp};
use wasm_tree::{
    BlockType, ConstExpr, DataMode, DataSeg, ElemMode, ElemSeg, Export, ExportDesc, Func, FuncType,
    GlobalDef, GlobalType, Import, ImportDesc, Instr, Limits, LoadOp, MemArg, Module, RefType,
    StoreOp, TableType, ValType,
};
use wasm_write::{fits, write};

/// Whether these bytes are written, which fit their number and no fewer.
fn is_written(alloc: Global, module: &Module, expected: &[u8]) -> Result<bool, NoMemory> {
    let bytes = write(alloc, module)?;
    if expected.len() > 1000 {
        return Ok(false);
    }
    let size = expected.len() as u32;
    Ok(bytes.as_slice() == expected && fits(module, size) && !fits(module, size.saturating_sub(1)))
}

/// What is written of a module, which is then dropped.
fn written(alloc: Global, module: Module) -> Result<Vec<u8>, NoMemory> {
    let bytes = write(alloc, &module);
    drop(module);
    bytes
}

/// One function type, of nothing to nothing.
fn types(alloc: Global) -> Result<Items<FuncType>, NoMemory> {
    let mut types = Items::new(alloc);
    types.keep(FuncType {
        params: Items::new(alloc),
        results: Items::new(alloc),
    })?;
    Ok(types)
}

fn funcs(alloc: Global, body: Items<Instr>) -> Result<Items<Func>, NoMemory> {
    let mut funcs = Items::new(alloc);
    funcs.keep(Func {
        ty: 0,
        locals: Items::new(alloc),
        body,
    })?;
    Ok(funcs)
}

/// A module with one function of type [] to [].
fn one_body(alloc: Global, body: Items<Instr>) -> Result<Module, NoMemory> {
    let types = types(alloc)?;
    let funcs = funcs(alloc, body)?;
    let mut module = Module::empty(alloc);
    module.types = types;
    module.funcs = funcs;
    Ok(module)
}

fn one(alloc: Global, instr: Instr) -> Result<Items<Instr>, NoMemory> {
    let mut body = Items::new(alloc);
    let kept = body.keep(instr);
    kept.map(|()| body)
}

fn two(alloc: Global, first: Instr, second: Instr) -> Result<Items<Instr>, NoMemory> {
    let mut body = one(alloc, first)?;
    let kept = body.keep(second);
    kept.map(|()| body)
}

/// Whether the empty module comes out as the header alone.
fn empty_is_header(alloc: Global) -> Result<bool, NoMemory> {
    let empty = Module::empty(alloc);
    let is_written = is_written(alloc, &empty, b"\0asm\x01\0\0\0");
    drop(empty);
    is_written
}

#[test]
fn no_section_is_empty(rt: HostRuntime) -> Result<(), Fail> {
    assert!(rt; empty_is_header(rt.alloc())?);
    Ok(())
}

/// A module whose body has a block of type 0, in which an i64 is dropped.
fn with_block(alloc: Global) -> Result<Module, NoMemory> {
    let inner = two(alloc, Instr::I64Const(-1), Instr::Drop)?;
    one_body(alloc, one(alloc, Instr::Block(BlockType::Index(0), inner))?)
}

fn block_is_written(alloc: Global) -> Result<bool, NoMemory> {
    let module = with_block(alloc)?;
    let is_written = is_written(
        alloc,
        &module,
        b"\0asm\x01\0\0\0\x01\x04\x01\x60\x00\x00\x03\x02\x01\x00\x0A\x0A\x01\x08\x00\x02\x00\x42\x7F\x1A\x0B\x0B",
    );
    drop(module);
    is_written
}

#[test]
fn a_block_names_its_type_by_a_signed_number(rt: HostRuntime) -> Result<(), Fail> {
    assert!(rt; block_is_written(rt.alloc())?);
    Ok(())
}

fn passive(alloc: Global) -> Result<Items<DataSeg>, NoMemory> {
    let bytes = Items::from_slice(alloc, b"x")?;
    let mut datas = Items::new(alloc);
    datas.keep(DataSeg {
        mode: DataMode::Passive,
        bytes,
    })?;
    Ok(datas)
}

/// A module whose one body is this instruction, and with one passive data segment.
fn with_data(alloc: Global, instr: Instr) -> Result<Module, NoMemory> {
    let mut module = one_body(alloc, one(alloc, instr)?)?;
    module.datas = passive(alloc)?;
    Ok(module)
}

/// Whether what is written of a module with this body and a data segment ends so.
fn ends_so(alloc: Global, instr: Instr, expected: &[u8]) -> Result<bool, NoMemory> {
    let bytes = written(alloc, with_data(alloc, instr)?)?;
    Ok(bytes.as_slice().ends_with(expected))
}

#[test]
fn a_data_count_stands_where_a_body_needs_one(rt: HostRuntime) -> Result<(), Fail> {
    let alloc = rt.alloc();
    assert!(rt;
        ends_so(
            alloc,
            Instr::DataDrop(0),
            b"\x03\x02\x01\x00\x0C\x01\x01\x0A\x07\x01\x05\x00\xFC\x09\x00\x0B\x0B\x04\x01\x01\x01\x78",
        )?
    );
    assert!(rt;
        ends_so(
            alloc,
            Instr::Nop,
            b"\x03\x02\x01\x00\x0A\x05\x01\x03\x00\x01\x0B\x0B\x04\x01\x01\x01\x78"
        )?
    );
    Ok(())
}

fn elems(
    alloc: Global,
    mode: ElemMode,
    ty: RefType,
    items: &[ConstExpr],
) -> Result<Items<ElemSeg>, NoMemory> {
    let items = Items::from_slice(alloc, items)?;
    let mut elems = Items::new(alloc);
    elems.keep(ElemSeg { mode, ty, items })?;
    Ok(elems)
}

/// Whether a module with this one element segment comes out as these bytes after the header.
fn is_segment(
    alloc: Global,
    mode: ElemMode,
    ty: RefType,
    items: &[ConstExpr],
    expected: &[u8],
) -> Result<bool, NoMemory> {
    let elems = elems(alloc, mode, ty, items)?;
    let mut module = Module::empty(alloc);
    module.elems = elems;
    let bytes = written(alloc, module)?;
    Ok(bytes.len() == expected.len().saturating_add(8) && bytes.as_slice().ends_with(expected))
}

const AT_ZERO: ElemMode = ElemMode::Active {
    table: 0,
    offset: ConstExpr::I32(0),
};

const ELSEWHERE: ElemMode = ElemMode::Active {
    table: 1,
    offset: ConstExpr::Global(0),
};

const NULL: ConstExpr = ConstExpr::Null(RefType::Func);

#[test]
fn segments_of_functions_list_their_indices(rt: HostRuntime) -> Result<(), Fail> {
    let alloc = rt.alloc();
    assert!(rt;
        is_segment(
            alloc,
            AT_ZERO,
            RefType::Func,
            &[ConstExpr::Func(1)],
            b"\x09\x07\x01\x00\x41\x00\x0B\x01\x01"
        )?
    );
    assert!(rt;
        is_segment(
            alloc,
            ElemMode::Passive,
            RefType::Func,
            &[ConstExpr::Func(2)],
            b"\x09\x05\x01\x01\x00\x01\x02"
        )?
    );
    assert!(rt;
        is_segment(
            alloc,
            ELSEWHERE,
            RefType::Func,
            &[],
            b"\x09\x08\x01\x02\x01\x23\x00\x0B\x00\x00"
        )?
    );
    assert!(rt;
        is_segment(
            alloc,
            ElemMode::Declarative,
            RefType::Func,
            &[ConstExpr::Func(0)],
            b"\x09\x05\x01\x03\x00\x01\x00"
        )?
    );
    Ok(())
}

#[test]
fn other_segments_list_expressions(rt: HostRuntime) -> Result<(), Fail> {
    let alloc = rt.alloc();
    assert!(rt;
        is_segment(
            alloc,
            AT_ZERO,
            RefType::Func,
            &[ConstExpr::Func(3), NULL],
            b"\x09\x0C\x01\x04\x41\x00\x0B\x02\xD2\x03\x0B\xD0\x70\x0B"
        )?
    );
    assert!(rt;
        is_segment(
            alloc,
            ElemMode::Passive,
            RefType::Extern,
            &[ConstExpr::Null(RefType::Extern)],
            b"\x09\x07\x01\x05\x6F\x01\xD0\x6F\x0B"
        )?
    );
    assert!(rt;
        is_segment(
            alloc,
            AT_ZERO,
            RefType::Extern,
            &[],
            b"\x09\x08\x01\x06\x00\x41\x00\x0B\x6F\x00"
        )?
    );
    assert!(rt;
        is_segment(
            alloc,
            ElemMode::Declarative,
            RefType::Func,
            &[NULL],
            b"\x09\x07\x01\x07\x70\x01\xD0\x70\x0B"
        )?
    );
    Ok(())
}

fn imports(alloc: Global) -> Result<Items<Import>, NoMemory> {
    let module = Name::from_text(alloc, "a")?;
    let field = Name::from_text(alloc, "f")?;
    let mut imports = Items::new(alloc);
    imports.keep(Import {
        module,
        field,
        desc: ImportDesc::Func(0),
    })?;
    Ok(imports)
}

fn tables(alloc: Global) -> Result<Items<TableType>, NoMemory> {
    Items::from_slice(
        alloc,
        &[TableType {
            ty: RefType::Extern,
            limits: Limits { min: 1, max: None },
        }],
    )
}

fn mems(alloc: Global) -> Result<Items<Limits>, NoMemory> {
    Items::from_slice(
        alloc,
        &[Limits {
            min: 2,
            max: Some(300),
        }],
    )
}

fn globals(alloc: Global) -> Result<Items<GlobalDef>, NoMemory> {
    let mut globals = Items::new(alloc);
    globals.keep(GlobalDef {
        ty: GlobalType {
            ty: ValType::I32,
            mutable: true,
        },
        init: ConstExpr::I32(66_576),
    })?;
    Ok(globals)
}

fn exports(alloc: Global) -> Result<Items<Export>, NoMemory> {
    let name = Name::from_text(alloc, "g")?;
    let mut exports = Items::new(alloc);
    exports.keep(Export {
        name,
        desc: ExportDesc::Global(0),
    })?;
    Ok(exports)
}

/// Puts one item in each section without code or segments.
fn put_items(alloc: Global, module: &mut Module) -> Result<(), NoMemory> {
    module.types = types(alloc)?;
    module.imports = imports(alloc)?;
    module.tables = tables(alloc)?;
    module.mems = mems(alloc)?;
    module.globals = globals(alloc)?;
    module.exports = exports(alloc)?;
    module.start = Some(0);
    Ok(())
}

fn with_items(alloc: Global) -> Result<Module, NoMemory> {
    let mut module = Module::empty(alloc);
    let put = put_items(alloc, &mut module);
    put.map(|()| module)
}

fn items_are_written(alloc: Global) -> Result<bool, NoMemory> {
    let module = with_items(alloc)?;
    let is_written = is_written(
        alloc,
        &module,
        b"\
            \0asm\x01\0\0\0\
            \x01\x04\x01\x60\x00\x00\
            \x02\x07\x01\x01\x61\x01\x66\x00\x00\
            \x04\x04\x01\x6F\x00\x01\
            \x05\x05\x01\x01\x02\xAC\x02\
            \x06\x08\x01\x7F\x01\x41\x90\x88\x04\x0B\
            \x07\x05\x01\x01\x67\x03\x00\
            \x08\x01\x00",
    );
    drop(module);
    is_written
}

#[test]
fn sections_stand_in_their_order(rt: HostRuntime) -> Result<(), Fail> {
    assert!(rt; items_are_written(rt.alloc())?);
    Ok(())
}

/// Whether a body of this one instruction comes out as these bytes, between the count of its locals and its end.
fn is_body(alloc: Global, instr: Instr, expected: &[u8]) -> Result<bool, NoMemory> {
    let bytes = written(alloc, one_body(alloc, one(alloc, instr)?)?)?;
    Ok(bytes.len() == expected.len().saturating_add(22) && bytes.as_slice().ends_with(expected))
}

const ARGUMENT: MemArg = MemArg {
    align: 2,
    offset: 516,
    memory: 0,
};

#[test]
fn instructions_have_their_codes(rt: HostRuntime) -> Result<(), Fail> {
    let alloc = rt.alloc();
    assert!(rt;
        is_body(
            alloc,
            Instr::CallIndirect { ty: 2, table: 1 },
            b"\x00\x11\x02\x01\x0B"
        )?
    );
    assert!(rt;
        is_body(
            alloc,
            Instr::Load(LoadOp::I64Load32U, ARGUMENT),
            b"\x00\x35\x02\x84\x04\x0B"
        )?
    );
    assert!(rt;
        is_body(
            alloc,
            Instr::Store(StoreOp::I32Store, ARGUMENT),
            b"\x00\x36\x02\x84\x04\x0B"
        )?
    );
    assert!(rt; is_body(alloc, Instr::MemoryGrow(0), b"\x00\x40\x00\x0B")?);
    assert!(rt; is_body(alloc, Instr::Un(UnOp::I64ExtendI32U), b"\x00\xAD\x0B")?);
    assert!(rt; is_body(alloc, Instr::Bin(BinOp::I64Rotr), b"\x00\x8A\x0B")?);
    Ok(())
}

#[test]
fn instructions_of_tables_and_segments_have_their_codes(rt: HostRuntime) -> Result<(), Fail> {
    let alloc = rt.alloc();
    assert!(rt; is_body(alloc, Instr::RefNull(RefType::Extern), b"\x00\xD0\x6F\x0B")?);
    assert!(rt;
        is_body(
            alloc,
            Instr::MemoryCopy { to: 0, from: 0 },
            b"\x00\xFC\x0A\x00\x00\x0B"
        )?
    );
    assert!(rt;
        is_body(
            alloc,
            Instr::TableInit {
                segment: 1,
                table: 2
            },
            b"\x00\xFC\x0C\x01\x02\x0B"
        )?
    );
    assert!(rt; is_body(alloc, Instr::TableFill(0), b"\x00\xFC\x11\x00\x0B")?);
    Ok(())
}

#[test]
fn an_empty_second_list_has_no_else(rt: HostRuntime) -> Result<(), Fail> {
    let alloc = rt.alloc();
    let first = one(alloc, Instr::Nop)?;
    assert!(rt;
        is_body(
            alloc,
            Instr::If(BlockType::Empty, first, Items::new(alloc)),
            b"\x00\x04\x40\x01\x0B\x0B"
        )?
    );
    let second = one(alloc, Instr::Unreachable)?;
    assert!(rt;
        is_body(
            alloc,
            Instr::If(BlockType::Value(ValType::I32), Items::new(alloc), second),
            b"\x00\x04\x7F\x05\x00\x0B\x0B"
        )?
    );
    assert!(rt;
        is_body(
            alloc,
            Instr::Loop(BlockType::Empty, Items::new(alloc)),
            b"\x00\x03\x40\x0B\x0B"
        )?
    );
    let labels = Items::from_slice(alloc, &[0, 128])?;
    assert!(rt;
        is_body(
            alloc,
            Instr::BrTable(labels, 1),
            b"\x00\x0E\x02\x00\x80\x01\x01\x0B"
        )?
    );
    Ok(())
}
