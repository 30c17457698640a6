//! Exchanges that are left to be made.

ghost use Rattle.std.specs.Prelude.{◌≡◌, ℕ, ◌==◌, None, Some, IfOk, OnOk, if◌then◌else◌};
ghost use Rattle.step_passes.specs.OnePass.{exchange_of};
ghost use Rattle.step_passes.specs.Pending.{pending_at};

use crate::exchange::Exchange;
use mlir_base::{List, Memory};
use mlir_ir::OpId;
use std::alloc::Global;
use std::collections::BTreeMap;

/// Exchanges, by the numbers of their targets.
#[derive(Drop)]
pub(crate) struct Pending {
    map: BTreeMap<u32, Exchange>,
}

impl Pending {
    fn new(alloc: Global) -> Pending
        ensures { (i : ℕ) → pending_at result i ≡ None }
    {
        Pending {
            map: BTreeMap::new(alloc),
        }
    }

    fn add(&mut self, x: Exchange) -> Result<(), Memory>
        ensures { OnOk result ((i : ℕ) → pending_at self.new i ≡ (if x.target.0 == i then Some x else pending_at self.old i)) }
    {
        match self.map.insert(x.target.0, x) {
            Ok(_) => Ok(()),
            Err(_) => Err(Memory),
        }
    }

    /// Takes out the exchange of an operation.
    pub(crate) fn take(&mut self, op: OpId) -> Option<Exchange>
        ensures value { result ≡ pending_at self.old op.0 }
        ensures others { (i : ℕ) → pending_at self.new i ≡ (if op.0 == i then None else pending_at self.old i) }
    {
        self.map.remove(&op.0)
    }
}

/// All of these exchanges. Of those of one target the first is made.
pub(crate) fn all_pending(alloc: Global, exchanges: List<Exchange>) -> Result<Pending, Memory>
    ensures { IfOk result (λ p. (i : ℕ) → pending_at p i ≡ exchange_of exchanges i) }
{
    let mut all = Pending::new(alloc);
    let mut rest = exchanges.into_vec();
    while let Some(x) = rest.pop() {
        all.add(x)?;
    }
    Ok(all)
}
