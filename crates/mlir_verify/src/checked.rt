ghost use Rattle.std.specs.Prelude.{◌≡◌, IfOk};
ghost use Rattle.mlir_verify.specs.Rules.{IsVerified};

use mlir_base::Memory;
use mlir_copy::copy_module;
use mlir_ir::Module;
use std::alloc::Global;
use std::marker::Model;

/// A module in which no rule of the verifier fails.
#[derive(Drop)]
pub struct Checked {
    module: Module,
}

impl Model for Checked {
    ghost use Rattle.mlir_ir.specs.declared.tree.Module.{Module as Whole};
    ghost use Rattle.mlir_verify.specs.Rules.{IsVerified};
    ghost use Rattle.mlir_ir.specs.contracts.tree.Op as op;
    ghost use Rattle.std.specs.Coded.{codes};

    ghost Value = { Whole };

    ghost coded = { Prim.hlevel (codes, op.the_row.coded) };

    ghost view = { λ c. c.module };

    ghost invariant = { λ c. IsVerified c.module };
}

impl Checked {
    /// A module in which no rule fails, as its maker knows; nothing is tested.
    pub fn from_verified(m: Module) -> Checked
        requires { IsVerified m }
        ensures { result ≡ m }
    {
        Checked { module: m }
    }

    /// An equal module, with the same numbers.
    pub fn copy(&self, alloc: Global) -> Result<Checked, Memory>
        ensures { IfOk result (λ c. c ≡ self.now) }
    {
        let module = copy_module(alloc, &self.module)?;
        Ok(Checked { module })
    }

    /// The module.
    pub fn module(&self) -> &Module
        ensures same { result.now ≡ self.now }
        ensures verified { IsVerified result.now }
    {
        &self.module
    }

    /// The module itself; this takes no memory.
    pub fn into_module(self) -> Module
        ensures same { result ≡ self }
        ensures verified { IsVerified result }
    {
        self.module
    }
}
