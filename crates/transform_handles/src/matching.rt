ghost use Rattle.std.specs.Prelude.{◌≡◌, [], ◌∷◌, IfOk, ◌||◌};
ghost use Rattle.transform_handles.specs.Targets.{has};
ghost use Rattle.transform_handles.specs.Items.{tree_of, items_of, items_inside, items_from, function_tree, picked, matched, inside};
ghost use Rattle.transform_handles.specs.Matching.{Adds, Lists, names_by, wants};

use crate::name_set::NameSet;
use crate::names::name_of;
use crate::target::Target;
use crate::target_set::TargetSet;
use mlir_base::{List, Memory, Name};
use mlir_ir::{Func, Module, Op, OpKind};
use std::alloc::Global;

/// What is looked for: all, or what has one of these names, strictly inside these targets.
#[derive(Drop)]
pub(crate) struct Wanted<'a> {
    names: Option<NameSet<'a>>,
    targets: TargetSet,
}

impl<'a> Wanted<'a> {
    fn has_name(&self, name: &[u8]) -> bool
        ensures { result ≡ names_by self.now.names name.now }
    {
        match &self.names {
            Some(names) => names.has(name),
            None => true,
        }
    }

    /// What stands inside a target is within one where the target is, or where the place is.
    fn enters(&self, target: Target, within: bool) -> bool
        ensures { result ≡ (has self.now.targets target || within) }
    {
        self.targets.has(target) || within
    }
}

fn list_item(
    what: &Wanted,
    found: &mut List<Target>,
    target: Target,
    name: &[u8],
    within: bool,
) -> Result<(), Memory>
    ensures { Lists result what.now within found.old found.new (λ around. record { target = target; name = name.now; around = around } ∷ []) }
{
    if within && what.has_name(name) {
        match found.push(target) {
            Ok(()) => Ok(()),
            Err(e) => Err(e),
        }
    } else {
        Ok(())
    }
}

#[cycle(listing)]
fn list_body(
    what: &Wanted,
    found: &mut List<Target>,
    ops: &[Op],
    within: bool,
) -> Result<(), Memory>
    ensures { Lists result what.now within found.old found.new (items_of ops.now) }
{
    for op in ops {
        match list_op(what, found, op, within) {
            Ok(()) => {}
            Err(e) => return Err(e),
        }
    }
    Ok(())
}

#[cycle(listing)]
fn list_op(what: &Wanted, found: &mut List<Target>, op: &Op, within: bool) -> Result<(), Memory>
    ensures { Lists result what.now within found.old found.new (tree_of op.now) }
{
    let target = Target::Operation(op.id);
    match list_item(what, found, target, name_of(&op.kind), within) {
        Ok(()) => {}
        Err(e) => return Err(e),
    }
    let inside = what.enters(target, within);
    list_inside(what, found, &op.kind, inside)
}

#[cycle(listing)]
fn list_inside(
    what: &Wanted,
    found: &mut List<Target>,
    kind: &OpKind,
    within: bool,
) -> Result<(), Memory>
    ensures { Lists result what.now within found.old found.new (items_inside kind.now) }
{
    match kind {
        OpKind::For { body, .. } => list_body(what, found, body.as_slice(), within),
        OpKind::Forall { body, .. } => list_body(what, found, body.as_slice(), within),
        _ => Ok(()),
    }
}

fn list_func(what: &Wanted, found: &mut List<Target>, number: u32, f: &Func) -> Result<(), Memory>
    ensures { Adds result found.old found.new (picked (wants what.now) (function_tree number f.now)) }
{
    let target = Target::Function(number);
    let within = what.enters(Target::Root, false);
    match list_item(what, found, target, b"func.func", within) {
        Ok(()) => {}
        Err(e) => return Err(e),
    }
    let inside = what.enters(target, within);
    list_body(what, found, f.body.as_slice(), inside)
}

fn list_funcs(alloc: Global, what: &Wanted, funcs: &[Func]) -> Result<List<Target>, Memory>
    ensures { IfOk result (λ found. found ≡ picked (wants what.now) (items_from 0 funcs.now)) }
{
    let mut found = List::new(alloc);
    let mut number = 0u64;
    for f in funcs {
        if number > u32::MAX as u64 {
            return Err(Memory);
        }
        match list_func(what, &mut found, number as u32, f) {
            Ok(()) => {}
            Err(e) => return Err(e),
        }
        number += 1;
    }
    Ok(found)
}

/// The operations of these names, and functions as `func.func`, that stand strictly inside the targets, each once and in
/// tree order (Transform manual, "transform.structured.match").
#[tactic(auto, unfolding(crate::specs::Items::matched))]
pub fn matched(
    alloc: Global,
    m: &Module,
    targets: &[Target],
    names: &[Name],
) -> Result<List<Target>, Memory>
    ensures { IfOk result (λ found. found ≡ matched names.now targets.now m.now.funcs) }
{
    let targets = match TargetSet::of(alloc, targets) {
        Ok(targets) => targets,
        Err(e) => return Err(e),
    };
    let names = match NameSet::of(alloc, names) {
        Ok(names) => Some(names),
        Err(e) => return Err(e),
    };
    list_funcs(alloc, &Wanted { names, targets }, m.funcs.as_slice())
}

/// All that stands strictly inside the targets.
#[tactic(auto, unfolding(crate::specs::Items::inside))]
pub(crate) fn inside(alloc: Global, m: &Module, targets: &[Target]) -> Result<List<Target>, Memory>
    ensures { IfOk result (λ found. found ≡ inside targets.now m.now.funcs) }
{
    let targets = match TargetSet::of(alloc, targets) {
        Ok(targets) => targets,
        Err(e) => return Err(e),
    };
    list_funcs(
        alloc,
        &Wanted {
            names: None,
            targets,
        },
        m.funcs.as_slice(),
    )
}
