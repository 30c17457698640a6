//! Names that a file defines.

ghost use Rattle.std.specs.Prelude.{◌≡◌, ◌∷◌, ◌++◌, [], None, OnOk};
ghost use Rattle.mlir_scope.specs.Names.{place};

use mlir_base::Memory;
use std::alloc::Global;
use std::collections::HashMap;
use std::marker::Model;

/// The names of a file's functions, in order.
#[derive(Drop)]
pub struct NameList<'a> {
    names: Vec<&'a [u8]>,
    index: HashMap<&'a [u8], usize>,
}

impl<'a> Model for NameList<'a> {
    ghost use Rattle.std.specs.Prelude.{◌≡◌, ℕ, List, map};
    ghost use Rattle.std.specs.Str.{bytes_eq};
    ghost use Rattle.std.specs.HashMap.{get_by};
    ghost use Rattle.std.specs.Coded.{coded_ℕ, coded_list};
    ghost use Rattle.mlir_scope.specs.Names.{place};

    ghost Value = { List (List ℕ) };

    ghost coded = { coded_list (coded_list coded_ℕ) };

    ghost view = { λ s. map (λ n. n.now) s.names.items };

    ghost invariant = { λ s. (q : List ℕ) → get_by (λ k. bytes_eq q k.now) s.index ≡ place 0 (map (λ n. n.now) s.names.items) q };
}

impl<'a> NameList<'a> {
    pub fn new(alloc: Global) -> NameList<'a>
        ensures { result ≡ [] }
    {
        NameList {
            names: Vec::new(alloc),
            index: HashMap::new(alloc),
        }
    }

    /// Where the name stands.
    pub fn place(&self, name: &[u8]) -> Option<usize>
        ensures { result ≡ place 0 self.now name.now }
    {
        match self.index.get(&name) {
            Some(at) => Some(*at),
            None => None,
        }
    }

    pub fn add(&mut self, name: &'a [u8]) -> Result<(), Memory>
        requires { place 0 self.old name.now ≡ None }
        ensures { OnOk result (self.new ≡ self.old ++ name.now ∷ []) }
    {
        let at = self.names.len();
        self.names.push(name)?;
        match self.index.insert(name, at) {
            Ok(_) => Ok(()),
            Err(_) => {
                self.names.pop();
                Err(Memory)
            }
        }
    }
}
