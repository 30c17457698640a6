ghost use Rattle.std.specs.Prelude.{◌≡◌, ℕ, List, [], ◌∷◌, ◌++◌, None, option_copied, OnOk};
ghost use Rattle.mlir_ir.specs.Count.{first};
ghost use Rattle.mlir_verify.specs.Constants.{constants_of};
ghost use Rattle.mlir_verify.specs.Names.{numbers};
ghost use Rattle.mlir_verify.specs.Place.{type_among};
ghost use Rattle.mlir_verify.specs.Scope.{types_in, constants_in, IsSet};

use mlir_base::Memory;
use mlir_ir::{Op, OpKind, Ty, ValueId};
use std::alloc::Global;
use std::collections::{BTreeMap, BTreeSet};

/// The types of the values in scope, and those of them that are constants.
#[derive(Drop)]
pub(crate) struct Scope<'a> {
    types: BTreeMap<u32, &'a Ty>,
    constants: BTreeSet<u32>,
}

impl<'a> Scope<'a> {
    pub(crate) fn new(alloc: Global) -> Scope<'a>
        ensures types { (v : ℕ) → types_in result v ≡ None }
        ensures constants { IsSet result.constants [] }
    {
        Scope {
            types: BTreeMap::new(alloc),
            constants: BTreeSet::new(alloc),
        }
    }

    pub(crate) fn type_of(&self, v: ValueId) -> Option<&'a Ty>
        ensures { option_copied result ≡ types_in self.now v.0 }
    {
        self.types.get(&v.0).copied()
    }

    /// Whether an `arith.constant` defines the value.
    pub(crate) fn is_constant(&self, v: ValueId) -> bool
        ensures { result ≡ constants_in self.now v.0 }
    {
        self.constants.contains(&v.0)
    }

    /// Brings these definitions into scope.
    pub(crate) fn bind(&mut self, definitions: &'a [(ValueId, Ty)]) -> Result<(), Memory>
        ensures types { OnOk result ((v : ℕ) → types_in self.new v ≡ first (type_among definitions.now v) (types_in self.old v)) }
        ensures constants { self.new.constants ≡ self.old.constants }
    {
        for d in definitions {
            if self.types.insert(d.0.0, &d.1).is_err() {
                return Err(Memory);
            }
        }
        Ok(())
    }
}

fn insert(set: &mut BTreeSet<u32>, n: u32) -> Result<(), Memory>
    ensures { OnOk result ((known : List ℕ) → IsSet set.old known → IsSet set.new (known ++ n ∷ [])) }
{
    match set.insert(n) {
        Ok(_) => Ok(()),
        Err(_) => Err(Memory),
    }
}

/// Adds the numbers of these definitions.
fn insert_all(set: &mut BTreeSet<u32>, definitions: &[(ValueId, Ty)]) -> Result<(), Memory>
    ensures { OnOk result ((known : List ℕ) → IsSet set.old known → IsSet set.new (known ++ numbers definitions.now)) }
{
    for d in definitions {
        match insert(set, d.0.0) {
            Ok(()) => {}
            Err(e) => return Err(e),
        }
    }
    Ok(())
}

/// Adds the constants that an operation defines.
fn insert_constants(set: &mut BTreeSet<u32>, op: &Op) -> Result<(), Memory>
    ensures { OnOk result ((known : List ℕ) → IsSet set.old known → IsSet set.new (known ++ constants_of op.now)) }
{
    match &op.kind {
        OpKind::Constant { .. } => insert_all(set, op.results.as_slice()),
        _ => Ok(()),
    }
}

/// Brings the results of an operation into scope.
pub(crate) fn define<'a>(scope: &mut Scope<'a>, op: &'a Op) -> Result<(), Memory>
    ensures types { OnOk result ((v : ℕ) → types_in scope.new v ≡ first (type_among op.now.results v) (types_in scope.old v)) }
    ensures constants { OnOk result ((known : List ℕ) → IsSet scope.old.constants known → IsSet scope.new.constants (known ++ constants_of op.now)) }
{
    match insert_constants(&mut scope.constants, op) {
        Ok(()) => scope.bind(op.results.as_slice()),
        Err(e) => Err(e),
    }
}
