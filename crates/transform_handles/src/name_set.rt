ghost use Rattle.std.specs.Prelude.{◌≡◌, map, IfOk, List, ℕ, ◌∷◌, ◌++◌, [], OnOk};
ghost use Rattle.transform_handles.specs.Names.{HoldsNames, has_name};

use mlir_base::{Memory, Name};
use std::alloc::Global;
use std::collections::HashMap;

/// Names, to be looked up.
#[derive(Drop)]
pub(crate) struct NameSet<'a> {
    names: HashMap<&'a [u8], ()>,
}

impl<'a> NameSet<'a> {
    fn new(alloc: Global) -> NameSet<'a>
        ensures { HoldsNames result.names [] }
    {
        NameSet {
            names: HashMap::new(alloc),
        }
    }

    fn add(&mut self, name: &'a [u8]) -> Result<(), Memory>
        ensures { (ns : List (List ℕ)) → HoldsNames self.old.names ns → OnOk result (HoldsNames self.new.names (ns ++ name.now ∷ [])) }
    {
        match self.names.insert(name, ()) {
            Ok(_) => Ok(()),
            Err(_) => Err(Memory),
        }
    }

    pub(crate) fn of(alloc: Global, names: &'a [Name]) -> Result<NameSet<'a>, Memory>
        ensures { IfOk result (λ s. HoldsNames s.names names.now) }
    {
        let mut set = NameSet::new(alloc);
        for name in names {
            match set.add(name.as_str().as_bytes()) {
                Ok(()) => {}
                Err(e) => return Err(e),
            }
        }
        Ok(set)
    }

    pub(crate) fn has(&self, name: &[u8]) -> bool
        ensures { result ≡ has_name self.now.names name.now }
    {
        self.names.contains_key(&name)
    }
}
