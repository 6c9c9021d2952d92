use std::alloc::Global;
use std::test::Fail;
use wasm_bytes::{Items, NoMemory};
use wasm_tree::{BlockType, Instr, LocalGroup, ValType};
use wasm_valid_bodies::{Locals, Scope, Stacks, is_well_typed_body};

// A body of one block that leaves the local of this number, of type i64 where it is declared.
fn block_of_local(alloc: Global, local: u32) -> Result<Items<Instr>, NoMemory> {
    let mut inside = Items::new(alloc);
    inside.keep(Instr::LocalGet(local))?;
    let mut body = Items::new(alloc);
    body.keep(Instr::Block(BlockType::Value(ValType::I64), inside))?;
    Ok(body)
}

// Whether a block that leaves this local is well typed.
fn is_checked(alloc: Global, scope: &Scope<'_>, local: u32) -> Result<bool, Fail> {
    let body = block_of_local(alloc, local)?;
    let mut stacks = Stacks::new(alloc);
    Ok(is_well_typed_body(alloc, scope, &mut stacks, body.as_slice())?)
}

// The first local of which the checker says something else than is expected.
fn first_wrong(alloc: Global, scope: &Scope<'_>) -> Result<Option<u32>, Fail> {
    for (local, expected) in [(0, false), (1, true), (2, true), (3, false), (4, false)] {
        if is_checked(alloc, scope, local)? != expected {
            return Ok(Some(local));
        }
    }
    Ok(None)
}

#[test]
fn bodies_are_checked(rt: HostRuntime) -> Result<(), Fail> {
    let alloc = rt.alloc();
    let groups = [
        LocalGroup {
            count: 0,
            ty: ValType::I32,
        },
        LocalGroup {
            count: 2,
            ty: ValType::I64,
        },
        LocalGroup {
            count: 1,
            ty: ValType::I32,
        },
    ];
    let locals = Locals::new(alloc, &[ValType::I32], &groups)?;
    let scope = Scope {
        types: &[],
        funcs: &[],
        tables: &[],
        memories: 0,
        globals: &[],
        elems: &[],
        datas: 0,
        named: &[],
        locals,
        results: &[ValType::I64],
    };
    assert_eq!(rt; first_wrong(alloc, &scope)?, None);
    Ok(())
}
