ghost use Rattle.std.specs.Prelude.{◌≡◌, ◌+◌, ◌-◌, ◌==◌, ℕ, cond, OnOk};
ghost use Rattle.use_counts.specs.Counts.{count_in};

use mlir_base::Memory;
use mlir_ir::ValueId;
use std::alloc::Global;
use std::collections::BTreeMap;

/// How often each value is used, by its number.
#[derive(Drop)]
pub struct UseCounts {
    counts: BTreeMap<u32, usize>,
}

impl UseCounts {
    pub fn new(alloc: Global) -> UseCounts
        ensures { (v : ℕ) → count_in result v ≡ 0 }
    {
        UseCounts {
            counts: BTreeMap::new(alloc),
        }
    }

    /// How often the value is used.
    pub fn of(&self, v: ValueId) -> usize
        ensures { result ≡ count_in self.now v.0 }
    {
        match self.counts.get(&v.0) {
            Some(n) => *n,
            None => 0,
        }
    }

    fn set(&mut self, v: u32, n: usize) -> Result<(), Memory>
        ensures { OnOk result ((w : ℕ) → count_in self.new w ≡ cond (v == w) n (count_in self.old w)) }
    {
        match self.counts.insert(v, n) {
            Ok(_) => Ok(()),
            Err(_) => Err(Memory),
        }
    }

    /// Adds a use.
    pub fn add(&mut self, v: ValueId) -> Result<(), Memory>
        ensures { OnOk result ((w : ℕ) → count_in self.new w ≡ count_in self.old w + cond (v.0 == w) 1 0) }
    {
        let n = self.of(v);
        // Memory ends long before this number does.
        if n == usize::MAX {
            return Err(Memory);
        }
        self.set(v.0, n + 1)
    }

    /// Takes a use away, where there is one.
    pub fn remove(&mut self, v: ValueId) -> Result<(), Memory>
        ensures { OnOk result ((w : ℕ) → count_in self.new w ≡ count_in self.old w - cond (v.0 == w) 1 0) }
    {
        let n = self.of(v);
        self.set(v.0, n.saturating_sub(1))
    }
}
