ghost use Rattle.std.specs.Prelude.{◌≡◌, ◌++◌, ◌∷◌, [], length, false, OnOk, OnErr};
ghost use Rattle.mlir_meaning.specs.Points.{has, place_of};

use mlir_base::Memory;
use std::alloc::Global;
use std::collections::HashMap;
use std::marker::Model;

/// Distinct numbers, in the order in which they came first.
#[derive(Drop)]
pub struct FirstUses {
    order: Vec<u32>,
    places: HashMap<u32, usize>,
}

impl Model for FirstUses {
    ghost use Rattle.std.specs.Prelude.{◌≡◌, ℕ, List, nat_eq};
    ghost use Rattle.std.specs.HashMap.{get};
    ghost use Rattle.payload_forms.specs.Places.{place_from};

    ghost Value = { List ℕ };

    ghost view = { λ s. s.order.items };

    ghost invariant = { λ s. (n : ℕ) → get nat_eq s.places n ≡ place_from 0 s.order.items n };
}

impl FirstUses {
    pub fn new(alloc: Global) -> FirstUses
        ensures { result ≡ [] }
    {
        FirstUses {
            order: Vec::new(alloc),
            places: HashMap::new(alloc),
        }
    }

    pub fn as_slice(&self) -> &[u32]
        ensures { result.now ≡ self.now }
    {
        self.order.as_slice()
    }

    pub fn len(&self) -> usize
        ensures { result ≡ length self.now }
    {
        self.order.len()
    }

    pub fn has(&self, n: u32) -> bool
        ensures { result ≡ has self.now n }
    {
        self.places.contains_key(&n)
    }

    /// The place of the number, and the length where it isn't there.
    pub fn place_of(&self, n: u32) -> usize
        ensures { result ≡ place_of n 0 self.now }
    {
        match self.places.get(&n) {
            Some(at) => *at,
            None => self.order.len(),
        }
    }

    /// Adds a new number last. Where memory runs out, all stays as it was.
    pub fn add(&mut self, n: u32) -> Result<(), Memory>
        requires { has self.old n ≡ false }
        ensures ok { OnOk result (self.new ≡ self.old ++ n ∷ []) }
        ensures err { OnErr result (self.new ≡ self.old) }
    {
        let at = self.order.len();
        self.order.push(n)?;
        match self.places.insert(n, at) {
            Ok(_) => Ok(()),
            Err(_) => {
                self.order.pop();
                Err(Memory)
            }
        }
    }
}
