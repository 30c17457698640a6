//! Steps applied to a function with two fills.

use mlir_base::{ElemTy, List, Memory, Name, Width};
use mlir_ir::{Extent, Func, Module, Op, OpId, OpKind, Ty, ValueId, find};
use mlir_verify::{Checked, verify};
use rewrite_base::StepRule;
use script_read::{HandleId, Script, Step, StepKind};
use script_run::{ScriptError, Session, StepError, first_unbuilt, run_script};
use std::alloc::Global;
use transform_handles::Target;

fn tensor(alloc: Global, elem: Width) -> Result<Ty, Memory> {
    let mut extents = List::new(alloc);
    extents.push(Extent::Fixed(2))?;
    extents.push(Extent::Fixed(3))?;
    Ok(Ty::Tensor { extents, elem })
}

fn one_value(alloc: Global, value: u32, ty: Ty) -> Result<List<(ValueId, Ty)>, Memory> {
    let mut values = List::new(alloc);
    values.push((ValueId(value), ty))?;
    Ok(values)
}

fn fill(alloc: Global, id: u32, outs: u32, value: u32, elem: Width) -> Result<Op, Memory> {
    Ok(Op {
        id: OpId(id),
        results: one_value(alloc, value, tensor(alloc, elem)?)?,
        kind: OpKind::Fill {
            value: ValueId(1),
            outs: ValueId(outs),
        },
    })
}

// The constant 0, the fills 1 and 2, and the return 3.
fn body(alloc: Global, elem: Width) -> Result<List<Op>, Memory> {
    let mut cells = List::new(alloc);
    cells.push(7)?;
    let mut ops = List::new(alloc);
    ops.push(Op {
        id: OpId(0),
        results: one_value(alloc, 1, Ty::Scalar(ElemTy::Int(elem)))?,
        kind: OpKind::Constant { value: cells },
    })?;
    ops.push(fill(alloc, 1, 0, 2, elem)?)?;
    ops.push(fill(alloc, 2, 2, 3, elem)?)?;
    let mut values = List::new(alloc);
    values.push(ValueId(3))?;
    ops.push(Op {
        id: OpId(3),
        results: List::new(alloc),
        kind: OpKind::Return { values },
    })?;
    Ok(ops)
}

fn module(alloc: Global) -> Result<Module, Memory> {
    let elem = Width::new(8).ok_or(Memory)?;
    let params = one_value(alloc, 0, tensor(alloc, elem)?)?;
    let mut results = List::new(alloc);
    results.push(tensor(alloc, elem)?)?;
    let name = Name::new(alloc, "f")?;
    let body = body(alloc, elem)?;
    let mut funcs = List::new(alloc);
    if body.as_slice().len() > 0 {
        funcs.push(Func {
            name,
            params,
            results,
            body,
        })?;
    }
    Ok(Module { funcs })
}

/// What a step does; all that is matched becomes one handle.
#[derive(Clone, Copy)]
enum Does {
    MatchFills,
    MatchAll,
    Split,
    Generalize,
    Turn,
}

/// A step on a handle, with so many results from a first one on, and what it answers.
#[derive(Clone, Copy)]
struct Row {
    does: Does,
    on: u32,
    first: u32,
    count: u32,
    told: &'static str,
}

fn answered(does: Does, on: u32, first: u32, count: u32, told: &'static str) -> Row {
    Row {
        does,
        on,
        first,
        count,
        told,
    }
}

fn matched(alloc: Global, inside: HandleId, wanted: &[&str]) -> Result<StepKind, Memory> {
    let mut names = List::new(alloc);
    for name in wanted {
        names.push(Name::new(alloc, name)?)?;
    }
    Ok(StepKind::Match { names, inside })
}

fn turned(alloc: Global, target: HandleId) -> Result<StepKind, Memory> {
    let mut order = List::new(alloc);
    order.push(1)?;
    order.push(0)?;
    Ok(StepKind::Interchange { target, order })
}

fn kind_of(alloc: Global, does: Does, on: HandleId) -> Result<StepKind, Memory> {
    match does {
        Does::MatchFills => matched(alloc, on, ["linalg.fill"].as_slice()),
        Does::MatchAll => matched(alloc, on, ["linalg.fill", "return"].as_slice()),
        Does::Split => Ok(StepKind::Split { handle: on }),
        Does::Generalize => Ok(StepKind::Generalize { target: on }),
        Does::Turn => turned(alloc, on),
    }
}

fn step_of(alloc: Global, row: &Row) -> Result<Step, Memory> {
    let mut results = List::new(alloc);
    for k in 0..row.count {
        results.push(HandleId(row.first.wrapping_add(k)))?;
    }
    let kind = kind_of(alloc, row.does, HandleId(row.on))?;
    Ok(Step { results, kind })
}

/// What a step answers.
fn applied(s: &mut Session, alloc: Global, step: &Step) -> Result<(), StepError> {
    match &step.kind {
        StepKind::Match { .. } => s.apply(alloc, step),
        StepKind::Split { .. } => s.apply(alloc, step),
        StepKind::Generalize { .. } => s.apply(alloc, step),
        StepKind::Interchange { .. } => s.apply(alloc, step),
        _ => Err(StepError::Memory),
    }
}

fn words(answer: Result<(), StepError>) -> &'static str {
    match answer {
        Ok(()) => "done",
        Err(StepError::Rule { rule, op }) => match (rule, op) {
            (StepRule::HandleDead, None) => "dead",
            (StepRule::HandleCount, None) => "count",
            (StepRule::WrongKind, Some(OpId(3))) => "kind at 3",
            _ => "another rule",
        },
        Err(StepError::Limit { .. }) => "limit",
        Err(StepError::Memory) => "memory",
    }
}

fn told(s: &mut Session, alloc: Global, row: &Row) -> Result<&'static str, Memory> {
    let step = step_of(alloc, row)?;
    Ok(words(applied(s, alloc, &step)))
}

/// Whether the steps answer as their rows say.
fn answer_so(s: &mut Session, alloc: Global, rows: &[Row]) -> Result<bool, Memory> {
    let mut so = true;
    for row in rows {
        so = told(s, alloc, row)? == row.told && so;
    }
    Ok(so)
}

fn opened(alloc: Global) -> Result<Session, Memory> {
    match verify(alloc, module(alloc)?) {
        Ok(c) => Session::new(alloc, c, HandleId(0)),
        Err(_) => Err(Memory),
    }
}

fn names(s: &Session, handle: u32, wanted: &[u32]) -> bool {
    match s.live(HandleId(handle)) {
        Some(targets) => {
            let mut same = targets.len() == wanted.len();
            for (t, id) in targets.iter().zip(wanted) {
                same = same && *t == Target::Operation(OpId(*id));
            }
            same
        }
        None => false,
    }
}

fn is_generic(s: &Session, id: u32) -> bool {
    match find(s.module().module(), OpId(id)) {
        Some(op) => match &op.kind {
            OpKind::Generic { .. } => true,
            _ => false,
        },
        None => false,
    }
}

// A split into too many, a handle that is dead, and targets in their order.
#[test]
fn steps_take_their_targets_in_order(rt: HostRuntime) -> Result<(), Memory> {
    let mut s = opened(rt.alloc())?;
    let rows = [
        answered(Does::MatchFills, 0, 1, 1, "done"),
        answered(Does::Split, 1, 2, 3, "count"),
        answered(Does::Split, 1, 2, 2, "done"),
        answered(Does::Generalize, 1, 4, 1, "done"),
        answered(Does::Generalize, 1, 5, 1, "dead"),
        answered(Does::Generalize, 3, 5, 1, "dead"),
        answered(Does::Turn, 4, 5, 1, "done"),
    ];
    assert!(rt; answer_so(&mut s, rt.alloc(), rows.as_slice())?);
    assert!(rt; names(&s, 5, [6, 7].as_slice()) && is_generic(&s, 7));
    Ok(())
}

// The first target of the second step isn't refused.
#[test]
fn a_refused_step_changes_nothing(rt: HostRuntime) -> Result<(), Memory> {
    let mut s = opened(rt.alloc())?;
    let rows = [
        answered(Does::MatchAll, 0, 1, 1, "done"),
        answered(Does::Generalize, 1, 2, 1, "kind at 3"),
    ];
    assert!(rt; answer_so(&mut s, rt.alloc(), rows.as_slice())?);
    assert!(rt; names(&s, 1, [1, 2, 3].as_slice()) && s.live(HandleId(2)).is_none());
    Ok(())
}

/// The fills are matched, generalized and generalized again under a name that is dead.
fn script(alloc: Global) -> Result<Script, Memory> {
    let rows = [
        answered(Does::MatchFills, 0, 1, 1, "done"),
        answered(Does::Generalize, 1, 2, 1, "done"),
        answered(Does::Generalize, 1, 3, 1, "dead"),
    ];
    let mut steps = List::new(alloc);
    for row in rows.as_slice() {
        steps.push(step_of(alloc, row)?)?;
    }
    let root = HandleId(0);
    Ok(Script { root, steps })
}

/// The step at which a script stops, 0 where it doesn't.
fn stopped_at(alloc: Global, c: Checked, s: &Script) -> u32 {
    match first_unbuilt(s) {
        None => match run_script(alloc, c, s) {
            Ok(_) => 0,
            Err(ScriptError { step, .. }) => step,
        },
        Some(_) => 0,
    }
}

#[test]
fn a_script_stops_at_a_refused_step(rt: HostRuntime) -> Result<(), Memory> {
    let alloc = rt.alloc();
    let s = script(alloc)?;
    match verify(alloc, module(alloc)?) {
        Ok(c) => {
            assert!(rt; stopped_at(alloc, c, &s) == 3);
        }
        Err(_) => return Err(Memory),
    }
    Ok(())
}
