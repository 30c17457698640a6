ghost use Rattle.std.specs.Prelude.{◌≡◌, ℕ, None, option_copied, OnOk};
ghost use Rattle.mlir_ir.specs.Count.{first};
ghost use Rattle.mlir_verify.specs.Place.{type_among};
ghost use Rattle.step_passes.specs.Telling.{types_known};

use mlir_base::Memory;
use mlir_ir::{Ty, ValueId};
use std::alloc::Global;
use std::collections::BTreeMap;

/// The types of the values in scope.
#[derive(Drop)]
pub(crate) struct KnownTypes<'a> {
    types: BTreeMap<u32, &'a Ty>,
}

impl<'a> KnownTypes<'a> {
    pub(crate) fn new(alloc: Global) -> KnownTypes<'a>
        ensures { (v : ℕ) → types_known result v ≡ None }
    {
        KnownTypes {
            types: BTreeMap::new(alloc),
        }
    }

    pub(crate) fn type_of(&self, v: ValueId) -> Option<&'a Ty>
        ensures { option_copied result ≡ types_known self.now v.0 }
    {
        self.types.get(&v.0).copied()
    }

    /// Brings these definitions into scope.
    pub(crate) fn bind(&mut self, definitions: &'a [(ValueId, Ty)]) -> Result<(), Memory>
        ensures { OnOk result ((v : ℕ)
            → types_known self.new v ≡ first (type_among definitions.now v) (types_known self.old v)) }
    {
        for d in definitions {
            if self.types.insert(d.0.0, &d.1).is_err() {
                return Err(Memory);
            }
        }
        Ok(())
    }
}
