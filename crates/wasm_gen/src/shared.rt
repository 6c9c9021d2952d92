// What both modules share.

ghost use Rattle.std.specs.Prelude.{◌≡◌, ◌+◌, ◌<◌, ◌^◌, string_bytes, IfOk};
ghost use Rattle.wasm_gen.specs.Modules.{exports_of, func_of, module_of, numbered, unary};

use itoa::Buffer;
use std::alloc::{AllocError, Global};
use wasm_bytes::{Items, Name, NoMemory};
use wasm_tree::{Export, ExportDesc, Func, FuncType, Import, Instr, Module, ValType};

// The type from [i32] to [i32].
fn unary_type(alloc: Global) -> Result<FuncType, NoMemory>
    ensures { IfOk result (λ ty. ty ≡ unary) }
{
    Ok(FuncType {
        params: Items::from_slice(alloc, &[ValType::I32])?,
        results: Items::from_slice(alloc, &[ValType::I32])?,
    })
}

/// Returns a function of the one type.
pub(crate) fn func(alloc: Global, body: Items<Instr>) -> Func
    ensures { result ≡ func_of body }
{
    Func {
        ty: 0,
        locals: Items::new(alloc),
        body,
    }
}

// Returns a letter and a number in decimal.
fn numbered_text(alloc: Global, letter: &str, number: u32) -> Result<String, AllocError>
    ensures { IfOk result (λ text. string_bytes text ≡ numbered letter.now number) }
{
    let mut text = String::from_str(alloc, letter)?;
    text.push_str(Buffer::new().format(number))?;
    Ok(text)
}

/// Returns a letter and a number in decimal, as a name.
pub(crate) fn numbered_name(alloc: Global, letter: &str, number: u32) -> Result<Name, NoMemory>
    ensures { IfOk result (λ name. name ≡ numbered letter.now number) }
{
    let text = numbered_text(alloc, letter, number)?;
    Name::from_text(alloc, text.as_str())
}

/// Returns exports of `count` functions from `index` on, the first under the letter and 0, the next
/// under the letter and 1, and so on.
#[tactic(auto, using(crate::proofs::Drawing::export_more))]
pub(crate) fn exports_from(
    alloc: Global,
    letter: &str,
    index: u32,
    count: u32,
) -> Result<Items<Export>, NoMemory>
    requires { index + count < 2 ^ 32 }
    ensures { IfOk result (λ all. all ≡ exports_of letter.now index count) }
{
    let mut all = Items::new(alloc);
    for i in 0..count {
        all.keep(Export {
            name: numbered_name(alloc, letter, i)?,
            desc: ExportDesc::Func(index + i),
        })?;
    }
    Ok(all)
}

/// Makes the module with the one type, and with these imports, functions and exports.
pub(crate) fn module(
    alloc: Global,
    imports: Items<Import>,
    funcs: Items<Func>,
    exports: Items<Export>,
) -> Result<Module, NoMemory>
    ensures { IfOk result (λ it. it ≡ module_of imports funcs exports) }
{
    let mut module = Module::empty(alloc);
    module.types.keep(unary_type(alloc)?)?;
    module.imports = imports;
    module.funcs = funcs;
    module.exports = exports;
    Ok(module)
}
