//! The names of a map's dimensions and symbols.

ghost use Rattle.std.specs.Prelude.{◌≡◌, None, [], ◌∷◌, ◌++◌, length, OnOk};
ghost use Rattle.affine_text.specs.Grammar.{dimension_of};

use mlir_base::Memory;
use std::alloc::Global;
use std::collections::HashMap;
use std::marker::Model;

/// A name that is declared.
#[derive(Drop)]
struct Name<'a> {
    text: &'a [u8],
}

impl<'a> Model for Name<'a> {
    ghost use Rattle.std.specs.Prelude.{ℕ, List};
    ghost use Rattle.std.specs.Coded.{coded_list, coded_ℕ};

    ghost Value = { List ℕ };

    ghost coded = { coded_list coded_ℕ };

    ghost view = { λ n. n.text.now };
}

/// The names that are declared, each with its number.
#[derive(Drop)]
pub struct Names<'a> {
    declared: Vec<Name<'a>>,
    index: HashMap<&'a [u8], u32>,
}

impl<'a> Model for Names<'a> {
    ghost use Rattle.std.specs.Prelude.{◌≡◌, ◌<◌, ◌^◌, ℕ, List, length};
    ghost use Rattle.std.specs.Str.{bytes_eq};
    ghost use Rattle.std.specs.HashMap.{get_by};
    ghost use Rattle.std.specs.Coded.{coded_list, coded_ℕ};
    ghost use Rattle.affine_text.specs.Grammar.{dimension_of};

    ghost Value = { List (List ℕ) };

    ghost coded = { coded_list (coded_list coded_ℕ) };

    ghost view = { λ s. s.declared.items };

    ghost invariant = { λ s. ((q : List ℕ) → get_by (λ k. bytes_eq q k.now) s.index ≡ dimension_of s.declared.items q) × (length s.declared.items < 2 ^ 32) };
}

impl<'a> Names<'a> {
    #[tactic(auto, unfolding(crate::specs::Grammar::dimension_of))]
    pub fn new(alloc: Global) -> Names<'a>
        ensures { result ≡ [] }
    {
        Names {
            declared: Vec::new(alloc),
            index: HashMap::new(alloc),
        }
    }

    /// How many there are.
    pub fn count(&self) -> u32
        ensures { result ≡ length self.now }
    {
        self.declared.len() as u32
    }

    /// The number of the dimension or symbol that has the name.
    pub fn find(&self, name: &[u8]) -> Option<u32>
        ensures { result ≡ dimension_of self.now name.now }
    {
        self.index.get(&name).copied()
    }

    /// Gives the name the next number. Want of room for numbers counts as want of memory.
    pub fn declare(&mut self, name: &'a [u8]) -> Result<(), Memory>
        requires { dimension_of self.old name.now ≡ None }
        ensures { OnOk result (self.new ≡ self.old ++ name.now ∷ []) }
    {
        let number = self.count();
        if number == u32::MAX {
            return Err(Memory);
        }
        match self.index.insert(name, number) {
            Ok(_) => {}
            Err(_) => return Err(Memory),
        }
        match self.declared.push(Name { text: name }) {
            Ok(()) => Ok(()),
            Err(_) => {
                self.index.remove(&name);
                Err(Memory)
            }
        }
    }
}
