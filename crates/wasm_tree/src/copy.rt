// Copies of a module and its parts.

ghost use Rattle.std.specs.Prelude.{◌≡◌, IfOk};

use crate::body::copy_body;
use crate::module::{DataSeg, ElemSeg, Export, Func, Import, Module};
use crate::types::FuncType;
use std::alloc::Global;
use wasm_bytes::{Items, NoMemory};

impl FuncType {
    /// Returns an equal type, or `NoMemory`.
    pub fn copy(&self, alloc: Global) -> Result<FuncType, NoMemory>
        ensures { IfOk result (λ new. new ≡ self.now) }
    {
        Ok(FuncType {
            params: Items::from_slice(alloc, self.params.as_slice())?,
            results: Items::from_slice(alloc, self.results.as_slice())?,
        })
    }
}

impl Import {
    /// Returns an equal import, or `NoMemory`.
    pub fn copy(&self, alloc: Global) -> Result<Import, NoMemory>
        ensures { IfOk result (λ new. new ≡ self.now) }
    {
        Ok(Import {
            module: self.module.copy(alloc)?,
            field: self.field.copy(alloc)?,
            desc: self.desc,
        })
    }
}

impl Func {
    /// Returns an equal function, or `NoMemory`. The recursion is as deep as the blocks are nested.
    pub fn copy(&self, alloc: Global) -> Result<Func, NoMemory>
        ensures { IfOk result (λ new. new ≡ self.now) }
    {
        Ok(Func {
            ty: self.ty,
            locals: Items::from_slice(alloc, self.locals.as_slice())?,
            body: copy_body(alloc, self.body.as_slice())?,
        })
    }
}

impl Export {
    /// Returns an equal export, or `NoMemory`.
    pub fn copy(&self, alloc: Global) -> Result<Export, NoMemory>
        ensures { IfOk result (λ new. new ≡ self.now) }
    {
        Ok(Export {
            name: self.name.copy(alloc)?,
            desc: self.desc,
        })
    }
}

impl ElemSeg {
    /// Returns an equal segment, or `NoMemory`.
    pub fn copy(&self, alloc: Global) -> Result<ElemSeg, NoMemory>
        ensures { IfOk result (λ new. new ≡ self.now) }
    {
        Ok(ElemSeg {
            mode: self.mode,
            ty: self.ty,
            items: Items::from_slice(alloc, self.items.as_slice())?,
        })
    }
}

impl DataSeg {
    /// Returns an equal segment, or `NoMemory`.
    pub fn copy(&self, alloc: Global) -> Result<DataSeg, NoMemory>
        ensures { IfOk result (λ new. new ≡ self.now) }
    {
        Ok(DataSeg {
            mode: self.mode,
            bytes: Items::from_slice(alloc, self.bytes.as_slice())?,
        })
    }
}

impl Module {
    /// Returns an equal tree, or `NoMemory`.
    pub fn copy(&self, alloc: Global) -> Result<Module, NoMemory>
        ensures { IfOk result (λ new. new ≡ self.now) }
    {
        Ok(Module {
            types: copy_types(alloc, self.types.as_slice())?,
            imports: copy_imports(alloc, self.imports.as_slice())?,
            funcs: copy_funcs(alloc, self.funcs.as_slice())?,
            tables: Items::from_slice(alloc, self.tables.as_slice())?,
            mems: Items::from_slice(alloc, self.mems.as_slice())?,
            globals: Items::from_slice(alloc, self.globals.as_slice())?,
            exports: copy_exports(alloc, self.exports.as_slice())?,
            start: self.start,
            elems: copy_elems(alloc, self.elems.as_slice())?,
            datas: copy_datas(alloc, self.datas.as_slice())?,
        })
    }
}

fn copy_types(alloc: Global, types: &[FuncType]) -> Result<Items<FuncType>, NoMemory>
    ensures { IfOk result (λ new. new ≡ types.now) }
{
    let mut all = Items::new(alloc);
    for ty in types {
        all.keep(ty.copy(alloc)?)?;
    }
    Ok(all)
}

fn copy_imports(alloc: Global, imports: &[Import]) -> Result<Items<Import>, NoMemory>
    ensures { IfOk result (λ new. new ≡ imports.now) }
{
    let mut all = Items::new(alloc);
    for import in imports {
        all.keep(import.copy(alloc)?)?;
    }
    Ok(all)
}

fn copy_funcs(alloc: Global, funcs: &[Func]) -> Result<Items<Func>, NoMemory>
    ensures { IfOk result (λ new. new ≡ funcs.now) }
{
    let mut all = Items::new(alloc);
    for func in funcs {
        all.keep(func.copy(alloc)?)?;
    }
    Ok(all)
}

fn copy_exports(alloc: Global, exports: &[Export]) -> Result<Items<Export>, NoMemory>
    ensures { IfOk result (λ new. new ≡ exports.now) }
{
    let mut all = Items::new(alloc);
    for export in exports {
        all.keep(export.copy(alloc)?)?;
    }
    Ok(all)
}

fn copy_elems(alloc: Global, elems: &[ElemSeg]) -> Result<Items<ElemSeg>, NoMemory>
    ensures { IfOk result (λ new. new ≡ elems.now) }
{
    let mut all = Items::new(alloc);
    for elem in elems {
        all.keep(elem.copy(alloc)?)?;
    }
    Ok(all)
}

fn copy_datas(alloc: Global, datas: &[DataSeg]) -> Result<Items<DataSeg>, NoMemory>
    ensures { IfOk result (λ new. new ≡ datas.now) }
{
    let mut all = Items::new(alloc);
    for data in datas {
        all.keep(data.copy(alloc)?)?;
    }
    Ok(all)
}
