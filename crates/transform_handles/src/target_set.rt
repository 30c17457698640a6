ghost use Rattle.std.specs.Prelude.{◌≡◌, [], ◌∷◌, ◌++◌, List, IfOk, OnOk};
ghost use Rattle.std.specs.List.{list_any};
ghost use Rattle.transform_handles.specs.Targets.{has, Holds};
ghost use Rattle.transform_handles.specs.declared.target.Target.{Target as Named};

use crate::target::Target;
use mlir_base::Memory;
use std::alloc::Global;
use std::collections::BTreeSet;

/// Targets, to be looked up.
#[derive(Drop)]
pub(crate) struct TargetSet {
    root: bool,
    functions: BTreeSet<u32>,
    operations: BTreeSet<u32>,
}

impl TargetSet {
    fn new(alloc: Global) -> TargetSet
        ensures { Holds result [] }
    {
        TargetSet {
            root: false,
            functions: BTreeSet::new(alloc),
            operations: BTreeSet::new(alloc),
        }
    }

    pub(crate) fn has(&self, t: Target) -> bool
        ensures { result ≡ has self.now t }
    {
        match t {
            Target::Root => self.root,
            Target::Function(k) => self.functions.contains(&k),
            Target::Operation(i) => self.operations.contains(&i.0),
        }
    }

    #[tactic(auto, using(crate::proofs::Sets::any_last))]
    fn add(&mut self, t: Target) -> Result<(), Memory>
        ensures { (ts : List Named) → Holds self.old ts → OnOk result (Holds self.new (ts ++ t ∷ [])) }
    {
        match t {
            Target::Root => {
                self.root = true;
                Ok(())
            }
            Target::Function(k) => match self.functions.insert(k) {
                Ok(_) => Ok(()),
                Err(_) => Err(Memory),
            },
            Target::Operation(i) => match self.operations.insert(i.0) {
                Ok(_) => Ok(()),
                Err(_) => Err(Memory),
            },
        }
    }

    #[tactic(auto, using(crate::proofs::Sets::any_last))]
    pub(crate) fn add_all(&mut self, targets: &[Target]) -> Result<(), Memory>
        ensures { (ts : List Named) → Holds self.old ts → OnOk result (Holds self.new (ts ++ targets.now)) }
    {
        for t in targets {
            match self.add(*t) {
                Ok(()) => {}
                Err(e) => return Err(e),
            }
        }
        Ok(())
    }

    pub(crate) fn of(alloc: Global, targets: &[Target]) -> Result<TargetSet, Memory>
        ensures { IfOk result (λ s. Holds s targets.now) }
    {
        let mut set = TargetSet::new(alloc);
        match set.add_all(targets) {
            Ok(()) => Ok(set),
            Err(e) => Err(e),
        }
    }

    /// Whether one of these is in the set.
    pub(crate) fn has_one(&self, targets: &[Target]) -> bool
        ensures { result ≡ list_any (has self.now) targets.now }
    {
        for t in targets {
            if self.has(*t) {
                return true;
            }
        }
        false
    }
}
