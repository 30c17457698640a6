ghost use Rattle.std.specs.Prelude.{◌≡◌, [], ◌∷◌, true, IfOk, OnOk, OnErr, option_map};
ghost use Rattle.mlir_verify.specs.Rules.{IsVerified};
ghost use Rattle.transform_handles.specs.Handles.{named};
ghost use Rattle.script_run.specs.Outcomes.{Agrees, Becomes};
ghost use Rattle.script_run.specs.Sessions.{opened, are_targets, IsSession};
ghost use Rattle.script_run.specs.Steps.{targets_of, result_rows, with_rows, moved_on, at_each, matches, splits, transforms, after_kind, after};
ghost use Rattle.script_run.specs.Transforms.{target_step};
ghost use Rattle.script_run.specs.Scripts.{is_built};

use crate::rows::{one_row, split_rows};
use crate::transforms::{Exchange, Transform};
use mlir_base::{List, Memory, Name};
use mlir_verify::Checked;
use rewrite_base::{StepError, StepRule};
use script_read::{HandleId, Step, StepKind};
use std::alloc::Global;
use std::marker::Model;
use transform_handles::{Handles, Target, matched};

/// A verified module, and handles that name targets in it. Each live handle names different targets, and all of them stand in
/// the module.
#[derive(Drop)]
pub struct Session {
    module: Checked,
    handles: Handles,
}

impl Model for Session {
    ghost use Rattle.mlir_ir.specs.contracts.tree.Op as op;
    ghost use Rattle.std.specs.Coded.{codes};
    ghost use Rattle.script_run.specs.Sessions.{SessionShape, IsSession};

    ghost Value = { SessionShape };

    ghost coded = { Prim.hlevel (codes, op.the_row.coded) };

    ghost view = { λ s. record { «module» = s.module; rows = s.handles } };

    ghost invariant = { λ s. IsSession (record { «module» = s.module; rows = s.handles }) };
}

const DEAD: StepError = StepError::Rule {
    rule: StepRule::HandleDead,
    op: None,
};

const COUNT: StepError = StepError::Rule {
    rule: StepRule::HandleCount,
    op: None,
};

/// A copy of targets.
fn owned(alloc: Global, targets: &[Target]) -> Result<List<Target>, Memory>
    ensures { IfOk result (λ ts. ts ≡ targets.now) }
{
    match Vec::from_slice(alloc, targets) {
        Ok(items) => Ok(List::from_vec(items)),
        Err(_) => Err(Memory),
    }
}

impl Session {
    /// The root handle names the module.
    pub fn new(alloc: Global, c: Checked, root: HandleId) -> Result<Session, Memory>
        ensures opened { IfOk result (λ x. x ≡ opened c root) }
        ensures verified { IfOk result (λ _. IsVerified c) }
    {
        let handles = match Handles::new(alloc, root.0) {
            Ok(handles) => handles,
            Err(e) => return Err(e),
        };
        let _module = c.module();
        Ok(Session { module: c, handles })
    }

    /// What a handle names; `None` where it isn't known or is dead.
    pub fn live(&self, h: HandleId) -> Option<&[Target]>
        ensures { option_map (λ ts. ts.now) result ≡ named self.now.rows h.0 }
    {
        self.handles.live(h.0)
    }

    /// The module.
    pub fn module(&self) -> &Checked
        ensures { result.now ≡ self.now.module }
    {
        &self.module
    }

    pub(crate) fn into_module(self) -> Checked
        ensures same { result ≡ self.module }
        ensures verified { IsVerified result }
    {
        self.module
    }

    /// The targets of a handle that a step uses. They stand in the module.
    fn targets(&self, alloc: Global, h: HandleId) -> Result<List<Target>, StepError>
        ensures targets { Agrees result (targets_of h self.now) }
        ensures stand { IfOk result (λ ts. are_targets self.now.module ts ≡ true) }
        ensures session { IsSession self.now }
    {
        match self.handles.live(h.0) {
            Some(targets) => match owned(alloc, targets) {
                Ok(targets) => Ok(targets),
                Err(_) => Err(StepError::Memory),
            },
            None => Err(DEAD),
        }
    }

    /// The session after a step that only reads. A refusal leaves it as it was.
    fn add_rows(&mut self, rows: Vec<(u32, Option<List<Target>>)>) -> Result<(), Memory>
        requires { IsSession (with_rows self.old rows.items) }
        ensures ok { OnOk result (self.new ≡ with_rows self.old rows.items) }
        ensures err { OnErr result (self.new ≡ self.old) }
    {
        self.handles.define(rows)
    }

    /// The session after a step that consumed targets and formed a module. A refusal leaves it as it was.
    fn move_on(
        &mut self,
        alloc: Global,
        targets: &[Target],
        formed: Checked,
        rows: Vec<(u32, Option<List<Target>>)>,
    ) -> Result<(), Memory>
        requires { IsSession (moved_on targets.now formed rows.items self.old) }
        ensures ok { OnOk result (self.new ≡ moved_on targets.now formed rows.items self.old) }
        ensures err { OnErr result (self.new ≡ self.old) }
    {
        match self
            .handles
            .consume(alloc, self.module.module(), targets, rows)
        {
            Ok(()) => {
                self.module = formed;
                Ok(())
            }
            Err(e) => Err(e),
        }
    }

    fn match_in(
        &mut self,
        alloc: Global,
        names: &[Name],
        inside: HandleId,
        results: &[HandleId],
    ) -> Result<(), StepError>
        ensures { Becomes self.old self.new result (matches names.now inside results.now self.old) }
    {
        let targets = match self.targets(alloc, inside) {
            Ok(targets) => targets,
            Err(e) => return Err(e),
        };
        let found = match matched(alloc, self.module.module(), targets.as_slice(), names) {
            Ok(found) => found,
            Err(_) => return Err(StepError::Memory),
        };
        let rows = match one_row(alloc, results, found) {
            Ok(rows) => rows,
            Err(_) => return Err(StepError::Memory),
        };
        match self.add_rows(rows) {
            Ok(()) => Ok(()),
            Err(_) => Err(StepError::Memory),
        }
    }

    fn split(&mut self, alloc: Global, h: HandleId, results: &[HandleId]) -> Result<(), StepError>
        ensures { Becomes self.old self.new result (splits h results.now self.old) }
    {
        let targets = match self.targets(alloc, h) {
            Ok(targets) => targets,
            Err(e) => return Err(e),
        };
        if targets.len() != results.len() {
            return Err(COUNT);
        }
        let rows = match split_rows(alloc, results, targets.as_slice()) {
            Ok(rows) => rows,
            Err(_) => return Err(StepError::Memory),
        };
        match self.add_rows(rows) {
            Ok(()) => Ok(()),
            Err(_) => Err(StepError::Memory),
        }
    }

    /// The module that a step forms at each of these targets, and what they gave. The session's own module stays.
    fn formed(
        &self,
        alloc: Global,
        step: &Transform,
        targets: &[Target],
    ) -> Result<(Checked, List<Target>), StepError>
        requires session { IsSession self.now }
        requires stand { are_targets self.now.module targets.now ≡ true }
        ensures { Agrees result (at_each (target_step step.now) targets.now self.now.module) }
    {
        match self.module.copy(alloc) {
            Ok(copy) => step.at_each(alloc, copy, targets),
            Err(_) => Err(StepError::Memory),
        }
    }

    fn transform(
        &mut self,
        alloc: Global,
        step: &Transform,
        target: HandleId,
        results: &[HandleId],
    ) -> Result<(), StepError>
        ensures { Becomes self.old self.new result (transforms (target_step step.now) target results.now self.old) }
    {
        let targets = match self.targets(alloc, target) {
            Ok(targets) => targets,
            Err(e) => return Err(e),
        };
        let (module, given) = match self.formed(alloc, step, targets.as_slice()) {
            Ok(formed) => formed,
            Err(e) => return Err(e),
        };
        let rows = match one_row(alloc, results, given) {
            Ok(rows) => rows,
            Err(_) => return Err(StepError::Memory),
        };
        match self.move_on(alloc, targets.as_slice(), module, rows) {
            Ok(()) => Ok(()),
            Err(_) => Err(StepError::Memory),
        }
    }

    fn apply_kind(
        &mut self,
        alloc: Global,
        kind: &StepKind,
        results: &[HandleId],
    ) -> Result<(), StepError>
        requires { is_built kind.now ≡ true }
        ensures { Becomes self.old self.new result (after_kind kind.now results.now self.old) }
    {
        match kind {
            StepKind::Match { names, inside } => {
                self.match_in(alloc, names.as_slice(), *inside, results)
            }
            StepKind::Split { handle } => self.split(alloc, *handle, results),
            StepKind::Generalize { target } => {
                let step = Transform::Exchange(Exchange::Generalize);
                self.transform(alloc, &step, *target, results)
            }
            StepKind::Interchange { target, order } => {
                let step = Transform::Exchange(Exchange::Interchange(order.as_slice()));
                self.transform(alloc, &step, *target, results)
            }
            StepKind::FuseElementwise { target } => {
                self.transform(alloc, &Transform::FuseElementwise, *target, results)
            }
            _ => unreachable!(),
        }
    }

    /// Applies a step (Transform dialect). A refusal leaves the session as it was, also after earlier targets of the step.
    ///
    /// `HandleDead`: a used handle isn't known or is dead. `HandleCount`: a split handle names more or fewer targets than the step
    /// has results. Then, target by target: `WrongKind`, the step's own rules, and the first limit that is passed.
    #[tactic(auto, unfolding(crate::specs::Steps::after))]
    pub fn apply(&mut self, alloc: Global, s: &Step) -> Result<(), StepError>
        requires { is_built s.now.kind ≡ true }
        ensures { Becomes self.old self.new result (after s.now self.old) }
    {
        self.apply_kind(alloc, &s.kind, s.results.as_slice())
    }
}
