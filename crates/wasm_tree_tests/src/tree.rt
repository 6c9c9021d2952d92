use std::alloc::Global;
use std::test::Fail;
use wasm_bytes::{Items, Name, NoMemory};
use wasm_tree::{
    BlockType, ConstExpr, Export, ExportDesc, Func, FuncType, GlobalDef, GlobalType, Instr, Limits,
    Module, Operand, RefType, Space, TableType, ValType, Which,
};

fn types(alloc: Global) -> Result<Items<FuncType>, NoMemory> {
    let results = Items::from_slice(alloc, &[ValType::I32])?;
    let mut types = Items::new(alloc);
    types.keep(FuncType {
        params: Items::new(alloc),
        results,
    })?;
    Ok(types)
}

fn funcs(alloc: Global) -> Result<Items<Func>, NoMemory> {
    let mut body = Items::new(alloc);
    body.keep(Instr::I32Const(7))?;
    let mut funcs = Items::new(alloc);
    funcs.keep(Func {
        ty: 0,
        locals: Items::new(alloc),
        body,
    })?;
    Ok(funcs)
}

fn exports(alloc: Global) -> Result<Items<Export>, NoMemory> {
    let name = Name::from_text(alloc, "f")?;
    let mut exports = Items::new(alloc);
    exports.keep(Export {
        name,
        desc: ExportDesc::Func(0),
    })?;
    Ok(exports)
}

// A function of type [] to [i32], exported as `f`, whose body is `i32.const 7`.
fn seven(alloc: Global) -> Result<Module, NoMemory> {
    let types = types(alloc)?;
    let funcs = funcs(alloc)?;
    let exports = exports(alloc)?;
    let mut module = Module::empty(alloc);
    module.types = types;
    module.funcs = funcs;
    module.exports = exports;
    Ok(module)
}

// The number of results of function 0, the name of the first export and the constant of the body.
fn shown(module: &Module) -> (Option<usize>, Option<&str>, Option<i32>) {
    let results = module.type_of_func(0).map(|ty| ty.results.len());
    let name = module.exports.get(0).map(|export| export.name.as_str());
    (results, name, constant(module))
}

fn constant(module: &Module) -> Option<i32> {
    match module.funcs.get(0)?.body.get(0)? {
        Instr::I32Const(value) => Some(*value),
        _ => None,
    }
}

#[test]
fn a_copy_has_the_same_parts(rt: HostRuntime) -> Result<(), Fail> {
    let alloc = rt.alloc();
    let copy = seven(alloc)?.copy(alloc)?;
    assert_eq!(rt; shown(&copy), (Some(1), Some("f"), Some(7)));
    assert_eq!(rt; copy.func_space(), 1);
    Ok(())
}

const TABLE: TableType = TableType {
    ty: RefType::Func,
    limits: Limits {
        min: 0,
        max: Some(9),
    },
};

const PAGE: Limits = Limits { min: 1, max: None };

const FLAG: GlobalDef = GlobalDef {
    ty: GlobalType {
        ty: ValType::I32,
        mutable: false,
    },
    init: ConstExpr::I32(5),
};

#[test]
fn what_is_declared_is_found(rt: HostRuntime) -> Result<(), Fail> {
    let alloc = rt.alloc();
    let tables = Items::from_slice(alloc, &[TABLE])?;
    let mems = Items::from_slice(alloc, &[PAGE])?;
    let globals = Items::from_slice(alloc, &[FLAG])?;
    let mut module = Module::empty(alloc);
    module.tables = tables;
    module.mems = mems;
    module.globals = globals;
    let sizes = (
        module.table_space(),
        module.memory_space(),
        module.global_space(),
    );
    let found = (
        module.table_type(0).copied(),
        module.memory_limits(0).copied(),
        module.global_type(0).copied(),
    );
    assert_eq!(rt; sizes, (1, 1, 1));
    assert_eq!(rt; found, (Some(TABLE), Some(PAGE), Some(FLAG.ty)));
    Ok(())
}

fn named(space: Space, index: u32) -> Operand {
    Operand {
        space,
        index,
        called: false,
    }
}

#[test]
fn operands_are_named_with_their_spaces(rt: HostRuntime) -> Result<(), Fail> {
    let alloc = rt.alloc();
    let call = Instr::Call(3).operands();
    assert_eq!(rt;
        call.first,
        Some(Operand {
            space: Space::Functions,
            index: 3,
            called: true
        })
    );
    assert_eq!(rt; call.second, None);
    let reference = Instr::RefFunc(3).operands();
    assert_eq!(rt; reference.first, Some(named(Space::Functions, 3)));
    assert_eq!(rt; reference.second, None);
    let init = Instr::MemoryInit {
        segment: 4,
        memory: 5,
    }
    .operands();
    assert_eq!(rt; init.first, Some(named(Space::DataSegments, 4)));
    assert_eq!(rt; init.second, Some(named(Space::Memories, 5)));
    let block = Instr::Block(BlockType::Index(6), Items::new(alloc)).operands();
    assert_eq!(rt; block.first, Some(named(Space::Types, 6)));
    assert_eq!(rt; block.second, None);
    let nop = Instr::Nop.operands();
    assert_eq!(rt; nop.first, None);
    assert_eq!(rt; nop.second, None);
    Ok(())
}

#[test]
fn limits_are_as_they_are_told(rt: HostRuntime) -> Result<(), Fail> {
    assert_eq!(rt; Which::InputBytes.limit(), 16_777_216);
    assert_eq!(rt; Which::Parts.limit(), 1_000);
    assert_eq!(rt; Which::Nesting.limit(), 1_000);
    assert_eq!(rt; Which::Locals.limit(), 50_000);
    assert_eq!(rt; Which::DataSegments.limit(), 300_000);
    Ok(())
}
