// Modules that are known to be valid.

ghost use Rattle.std.specs.Prelude.{◌≡◌, IfOk, IfErr};
ghost use Rattle.wasm_tree.specs.Bounds.{IsBounded};
ghost use Rattle.wasm_valid.specs.Validity.{IsValid, IsSingle};
ghost use Rattle.wasm_valid.specs.Rejection.{IsRejected, IsWantOfMemory};

use crate::first::first_invalid;
use crate::kinds::Invalid;
use std::alloc::Global;
use std::marker::Model;
use wasm_tree::Module;

/// A module that is valid and bounded (a u32 can count each list, each index space and the locals).
/// Contracts see the module.
#[derive(Drop)]
pub struct Valid {
    module: Module,
}

impl Model for Valid {
    ghost use Rattle.wasm_tree.specs.declared.module.Module.{Module};
    ghost use Rattle.wasm_tree.specs.contracts.module.Module as tree;
    ghost use Rattle.wasm_tree.specs.Bounds.{IsBounded};
    ghost use Rattle.wasm_valid.specs.Validity.{IsValid};
    ghost use Rattle.std.specs.Coded.{codes};

    ghost Value = { Module };

    ghost coded = { Prim.hlevel (codes, tree.the_row.coded) };

    ghost view = { λ v. v.module };

    ghost invariant = { λ v. IsValid v.module × IsBounded v.module };
}

/// Why `validate` rejected a module. Both variants hand the module back unchanged.
#[derive(Drop)]
pub enum Rejected {
    /// The module, and its first invalid item in the order of `ItemKind`.
    Invalid(Module, Invalid),
    /// Memory ran out. This says nothing about the module.
    NoMemory(Module),
}

/// Validates a module (WebAssembly Core 2.0, section 3.4), which must be bounded (see `Valid`). It
/// is accepted exactly if it is valid and has at most one memory, unless memory runs out. Otherwise
/// the error has the first invalid item. Each error hands the module back unchanged.
pub fn validate(alloc: Global, module: Module) -> Result<Valid, Rejected>
    requires { IsBounded «module» }
    ensures same { IfOk result (λ valid. valid ≡ «module») }
    ensures valid { IfOk result (λ valid. IsValid «module») }
    ensures single { IfOk result (λ valid. IsSingle «module») }
    ensures accepted { IsValid «module» → IsSingle «module» → IfErr result IsWantOfMemory }
    ensures rejected { IfErr result (IsRejected «module») }
{
    match first_invalid(alloc, &module, false) {
        Err(_) => Err(Rejected::NoMemory(module)),
        Ok(Some(invalid)) => Err(Rejected::Invalid(module, invalid)),
        Ok(None) => Ok(Valid { module }),
    }
}

impl Valid {
    /// Wraps a module without testing it. The module must be valid and bounded; it may have several
    /// memories.
    pub fn known(module: Module) -> Valid
        requires valid { IsValid «module» }
        requires bounded { IsBounded «module» }
        ensures { result ≡ «module» }
    {
        Valid { module }
    }

    /// Returns the module.
    pub fn module(&self) -> &Module
        ensures value { result.now ≡ self.now }
        ensures valid { IsValid result.now }
        ensures bounded { IsBounded result.now }
    {
        &self.module
    }

    /// Returns the module, without the type that shows it to be valid.
    pub fn into_module(self) -> Module
        ensures value { result ≡ self }
        ensures valid { IsValid result }
        ensures bounded { IsBounded result }
    {
        self.module
    }
}
