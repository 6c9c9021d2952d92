// Constant expressions (WebAssembly Core 2.0, section 3.3.10).

ghost use Rattle.std.specs.Prelude.{◌≡◌, ◌↔◌, Some, IsTrue};
ghost use Rattle.wasm_valid.specs.Constants.{const_type};

use crate::spaces::Spaces;
use wasm_tree::{ConstExpr, RefType, ValType};

// Returns the type of a constant expression, if the index that it names is allowed.
fn const_type(spaces: &Spaces<'_>, expr: &ConstExpr) -> Option<ValType>
    ensures { result ≡ const_type spaces.now.module.now expr.now }
{
    match expr {
        ConstExpr::I32(_) => Some(ValType::I32),
        ConstExpr::I64(_) => Some(ValType::I64),
        ConstExpr::Null(ty) => Some(ValType::Ref(*ty)),
        ConstExpr::Func(func) => {
            if (*func as usize) < spaces.funcs.len() {
                Some(ValType::Ref(RefType::Func))
            } else {
                None
            }
        }
        ConstExpr::Global(global) => match spaces.globals.get(*global as usize) {
            Some(found) => {
                if (*global as usize) < spaces.global_imports && !found.mutable {
                    Some(found.ty)
                } else {
                    None
                }
            }
            None => None,
        },
    }
}

/// Returns whether `expr` is a constant expression of type `ty`.
pub fn has_type(spaces: &Spaces<'_>, expr: &ConstExpr, ty: ValType) -> bool
    ensures { IsTrue result ↔ (const_type spaces.now.module.now expr.now ≡ Some ty) }
{
    match const_type(spaces, expr) {
        Some(found) => found == ty,
        None => false,
    }
}
