ghost use Rattle.std.specs.Prelude.{◌≡◌, [], ◌∷◌, ◌++◌, Some, IfOk, OnOk, OnErr, map, option_map, option_copied};
ghost use Rattle.transform_handles.specs.Handles.{named, row_of, consumed, left};
ghost use Rattle.transform_handles.specs.Targets.{has, Holds};
ghost use Rattle.transform_handles.specs.Items.{inside};
ghost use Rattle.transform_handles.specs.declared.target.Target.TheVariants.{Root};

use crate::matching::inside;
use crate::target::Target;
use crate::target_set::TargetSet;
use mlir_base::{List, Memory};
use mlir_ir::Module;
use std::alloc::Global;
use std::marker::Model;

/// The handles that were defined, in order, each with what it names, or nothing once it is dead.
#[derive(Drop)]
pub struct Handles {
    rows: Vec<(u32, Option<List<Target>>)>,
}

impl Model for Handles {
    ghost use Rattle.std.specs.Prelude.{List as Sequence};
    ghost use Rattle.transform_handles.specs.Handles.{Row};

    ghost Value = { Sequence Row };

    ghost view = { λ h. h.rows.items };
}

/// The last of these rows that defines the handle.
#[tactic(auto, using(crate::proofs::Sets::first_none))]
fn last_row<'a>(
    rows: &'a [(u32, Option<List<Target>>)],
    h: u32,
) -> Option<&'a (u32, Option<List<Target>>)>
    ensures { option_copied result ≡ row_of rows.now h }
{
    let mut found = None;
    for row in rows {
        if row.0 == h {
            found = Some(row);
        }
    }
    found
}

/// A handle that names a target of the set is dead.
fn kill_row(gone: &TargetSet, row: &mut (u32, Option<List<Target>>))
    ensures { row.new ≡ left (has gone.now) row.old }
{
    let dead = match &row.1 {
        Some(targets) => gone.has_one(targets.as_slice()),
        None => false,
    };
    if dead {
        row.1 = None;
    }
}

fn kill(gone: &TargetSet, rows: &mut [(u32, Option<List<Target>>)])
    ensures { rows.new ≡ map (left (has gone.now)) rows.old }
{
    for row in rows.iter_mut() {
        kill_row(gone, row);
    }
}

/// The targets, and all that stands inside one.
fn gone_by(alloc: Global, m: &Module, targets: &[Target]) -> Result<TargetSet, Memory>
    ensures { IfOk result (λ s. Holds s (targets.now ++ inside targets.now m.now.funcs)) }
{
    let mut set = match TargetSet::of(alloc, targets) {
        Ok(set) => set,
        Err(e) => return Err(e),
    };
    let within = match inside(alloc, m, targets) {
        Ok(within) => within,
        Err(e) => return Err(e),
    };
    match set.add_all(within.as_slice()) {
        Ok(()) => Ok(set),
        Err(e) => Err(e),
    }
}

impl Handles {
    /// The root handle names the module.
    pub fn new(alloc: Global, root: u32) -> Result<Handles, Memory>
        ensures { IfOk result (λ h. h ≡ (root, Some (Root ∷ [])) ∷ []) }
    {
        let mut targets = List::new(alloc);
        match targets.push(Target::Root) {
            Ok(()) => {}
            Err(e) => return Err(e),
        }
        let mut rows = Vec::new(alloc);
        match rows.push((root, Some(targets))) {
            Ok(()) => Ok(Handles { rows }),
            Err(_) => Err(Memory),
        }
    }

    /// What a handle names; `None` where it isn't known or is dead.
    pub fn live(&self, h: u32) -> Option<&[Target]>
        ensures { option_map (λ ts. ts.now) result ≡ named self.now h }
    {
        match last_row(self.rows.as_slice(), h) {
            Some((_, Some(targets))) => Some(targets.as_slice()),
            _ => None,
        }
    }

    /// The handles after a step that only reads, which defines these too. A refusal leaves them as they were.
    pub fn define(&mut self, rows: Vec<(u32, Option<List<Target>>)>) -> Result<(), Memory>
        ensures ok { OnOk result (self.new ≡ self.old ++ rows.items) }
        ensures err { OnErr result (self.new ≡ self.old) }
    {
        let mut more = rows;
        match self.rows.append(&mut more) {
            Ok(()) => Ok(()),
            Err(_) => Err(Memory),
        }
    }

    /// The handles after a step on a module that consumed these targets and defines these handles. A refusal leaves
    /// them as they were.
    pub fn consume(
        &mut self,
        alloc: Global,
        m: &Module,
        targets: &[Target],
        rows: Vec<(u32, Option<List<Target>>)>,
    ) -> Result<(), Memory>
        ensures ok { OnOk result (self.new ≡ consumed targets.now m.now.funcs self.old ++ rows.items) }
        ensures err { OnErr result (self.new ≡ self.old) }
    {
        let gone = match gone_by(alloc, m, targets) {
            Ok(gone) => gone,
            Err(e) => return Err(e),
        };
        let mut more = rows;
        match self.rows.reserve(more.len()) {
            Ok(()) => {}
            Err(_) => return Err(Memory),
        }
        kill(&gone, self.rows.as_mut_slice());
        match self.rows.append(&mut more) {
            Ok(()) => Ok(()),
            Err(_) => unreachable!(),
        }
    }
}
