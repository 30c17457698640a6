//! Steps with their results, and whole scripts.

ghost use Rattle.std.specs.Prelude.{◌≡◌, ◌<◌, ◌-◌, ◌&&◌, IfOk, IfSome, Ok, OnOk, nat_lt};
ghost use Rattle.mlir_lex.specs.Chain.{Agree, Leaves, thread};
ghost use Rattle.script_read.specs.Numbers.{number_of};
ghost use Rattle.script_read.specs.Kinds.{one_name, one_of, two_name, two_of, three_name, three_of, many_name, many_of};
ghost use Rattle.script_read.specs.Resolve.{room, ids, counted, finished, paired, further_of, behind_third_of, behind_second_of, group_name, types_count, group_count, types_end, group_end, is_count_by, group_step_of, group_of, behind_first_of, vectorized, line_of, start, resolve};

use crate::handles::{define, define_each, define_group, fresh};
use crate::kinds::{
    many_name, one_name, read_fuse, read_many, read_one, read_pad, read_three, read_tile_forall,
    read_two, read_vectorize, three_name, two_name,
};
use crate::names::{Meaning, Names, Scope};
use crate::numbers::number_of;
use crate::script::{HandleId, Script, Step, StepKind};
use mlir_base::{List, Memory, Which};
use mlir_lex::{Fault, Refused};
use script_syntax::{
    BehindFirst, BehindSecond, BehindThird, Further, Group, GroupStep, GroupTypes, Line,
    ManyResults, NextResult, NextType, OneResult, Sequence, ThreeResults, TwoResults,
    VectorizeStep,
};
use std::alloc::Global;
use text_format::Token;

/// One more step is within the limit.
fn room(steps: u32, name: &Token) -> Result<(), Refused>
    ensures exact { Agree result (room steps name.now) }
    ensures few { OnOk result (steps < 1024) }
{
    if steps < 1024 {
        Ok(())
    } else {
        Err(Refused::At(Fault::Limit(Which::ScriptSteps, name.start())))
    }
}

/// The handles from the first number up to the second, which isn't one of them.
fn ids(alloc: Global, first: u32, end: u32) -> Result<List<HandleId>, Memory>
    ensures { IfOk result (λ l. l ≡ ids first (end - first)) }
{
    let mut found = List::new(alloc);
    for number in first..end {
        found.push(HandleId(number))?;
    }
    Ok(found)
}

/// The step of this kind, whose results are the handles from `first` on.
fn finish(alloc: Global, first: u32, scope: &mut Scope, kind: StepKind) -> Result<Step, Refused>
    requires { scope.old.steps < 1024 }
    ensures { Leaves scope.new result (Ok (counted scope.old, record { results = ids first (scope.old.next - first); kind = kind })) }
{
    let results = ids(alloc, first, scope.next)?;
    scope.steps += 1;
    Ok(Step { results, kind })
}

fn finish_one(
    alloc: Global,
    first: u32,
    scope: &mut Scope,
    step: &OneResult,
) -> Result<Step, Refused>
    ensures { Leaves scope.new result (finished first scope.old (one_name step.now) (one_of scope.old.env first step.now)) }
{
    room(scope.steps, one_name(step))?;
    let kind = read_one(alloc, &scope.env, first, step)?;
    finish(alloc, first, scope, kind)
}

fn finish_two(
    alloc: Global,
    first: u32,
    scope: &mut Scope,
    step: &TwoResults,
) -> Result<Step, Refused>
    ensures { Leaves scope.new result (finished first scope.old (two_name step.now) (two_of scope.old.env first step.now)) }
{
    room(scope.steps, two_name(step))?;
    let kind = read_two(alloc, &scope.env, first, step)?;
    finish(alloc, first, scope, kind)
}

fn finish_three(
    alloc: Global,
    first: u32,
    scope: &mut Scope,
    step: &ThreeResults,
) -> Result<Step, Refused>
    ensures { Leaves scope.new result (finished first scope.old (three_name step.now) (three_of scope.old.env first step.now)) }
{
    room(scope.steps, three_name(step))?;
    let kind = read_three(alloc, &scope.env, first, step)?;
    finish(alloc, first, scope, kind)
}

fn finish_many(
    alloc: Global,
    first: u32,
    scope: &mut Scope,
    step: &ManyResults,
) -> Result<Step, Refused>
    ensures { Leaves scope.new result (finished first scope.old (many_name step.now) (many_of scope.old.env first step.now)) }
{
    room(scope.steps, many_name(step))?;
    let kind = read_many(alloc, &scope.env, first, step)?;
    finish(alloc, first, scope, kind)
}

/// One type for each of the results from the fifth on.
fn paired(close: &Token, names: &[NextResult], types: &[NextType]) -> Result<(), Refused>
    ensures { Agree result (paired close.now names.now types.now) }
{
    let mut wanted = names;
    let mut rest = types;
    while let [_, more @ ..] = wanted {
        match rest {
            [_, others @ ..] => {
                wanted = more;
                rest = others;
            }
            [] => return Err(Refused::At(Fault::Syntax(close.start()))),
        }
    }
    match rest {
        [written, ..] => Err(Refused::At(Fault::Syntax(written.comma.start()))),
        [] => Ok(()),
    }
}

fn read_further<'a>(
    alloc: Global,
    first: u32,
    scope: &mut Scope<'a>,
    further: &Further<'a>,
) -> Result<Step, Refused>
    ensures { Leaves scope.new result (further_of first scope.old further.now) }
{
    define(scope, &further.name)?;
    define_each(scope, further.names.as_slice())?;
    let step = finish_many(alloc, first, scope, &further.step)?;
    paired(
        &further.types.close,
        further.names.as_slice(),
        further.types.more.as_slice(),
    )?;
    Ok(step)
}

fn read_behind_third<'a>(
    alloc: Global,
    first: u32,
    scope: &mut Scope<'a>,
    rest: &BehindThird<'a>,
) -> Result<Step, Refused>
    ensures { Leaves scope.new result (behind_third_of first scope.old rest.now) }
{
    match rest {
        BehindThird::Step(step) => finish_three(alloc, first, scope, step),
        BehindThird::More(further) => read_further(alloc, first, scope, further),
    }
}

fn read_behind_second<'a>(
    alloc: Global,
    first: u32,
    scope: &mut Scope<'a>,
    rest: &BehindSecond<'a>,
) -> Result<Step, Refused>
    ensures { Leaves scope.new result (behind_second_of first scope.old rest.now) }
{
    match rest {
        BehindSecond::Step(step) => finish_two(alloc, first, scope, step),
        BehindSecond::More(third) => {
            define(scope, &third.name)?;
            read_behind_third(alloc, first, scope, &third.rest)
        }
    }
}

/// How many results the types show.
fn types_count(types: &GroupTypes) -> Option<u32>
    ensures { IfSome result (λ n. n ≡ types_count types.now) }
{
    match types {
        GroupTypes::One(_) => Some(1),
        GroupTypes::Several(types) => match u32::try_from(types.more.len()) {
            Ok(more) => more.checked_add(2),
            Err(_) => None,
        },
    }
}

/// How many results the step's text shows. None: more than are numbered.
fn group_count(step: &GroupStep) -> Option<u32>
    ensures { IfSome result (λ n. n ≡ group_count step.now) }
{
    match step {
        GroupStep::TileForall(_) => Some(2),
        GroupStep::FuseInto(_) => Some(2),
        GroupStep::Pad(_) => Some(3),
        GroupStep::Many(_, types) => types_count(types),
    }
}

fn types_end<'b, 'a>(types: &'b GroupTypes<'a>) -> &'b Token<'a>
    ensures { result.now ≡ types_end types.now }
{
    match types {
        GroupTypes::One(ty) => ty,
        GroupTypes::Several(types) => &types.close,
    }
}

/// The token that shows that there are no more results.
fn group_end<'b, 'a>(step: &'b GroupStep<'a>) -> &'b Token<'a>
    ensures { result.now ≡ group_end step.now }
{
    match step {
        GroupStep::TileForall(step) => &step.name,
        GroupStep::FuseInto(step) => &step.name,
        GroupStep::Pad(step) => &step.name,
        GroupStep::Many(_, types) => types_end(types),
    }
}

fn group_name<'b, 'a>(step: &'b GroupStep<'a>) -> &'b Token<'a>
    ensures { result.now ≡ group_name step.now }
{
    match step {
        GroupStep::TileForall(step) => &step.name,
        GroupStep::FuseInto(step) => &step.name,
        GroupStep::Pad(step) => &step.name,
        GroupStep::Many(step, _) => many_name(step),
    }
}

/// Whether so many results may be written before a step that shows `shown`, where `end` shows that there are no more.
/// Tokens at `until` or behind it were not read.
#[tactic(auto, using(crate::proofs::Words::word_is, crate::proofs::Words::large_count))]
fn is_count(until: u32, digits: &[u8], shown: u32, end: u32) -> bool
    ensures { result ≡ (nat_lt 1 (number_of digits.now) && is_count_by (nat_lt end until) shown (number_of digits.now)) }
{
    match number_of(digits) {
        Some(number) => {
            if end < until {
                number > 1 && number == shown as u64
            } else {
                number > 1 && shown as u64 <= number
            }
        }
        None => !(end < until),
    }
}

fn read_group_step(
    alloc: Global,
    names: &Names,
    first: u32,
    step: &GroupStep,
) -> Result<StepKind, Refused>
    ensures { Agree result (group_step_of names.now first step.now) }
{
    match step {
        GroupStep::TileForall(step) => read_tile_forall(alloc, names, first, step),
        GroupStep::FuseInto(step) => read_fuse(names, first, step),
        GroupStep::Pad(step) => read_pad(alloc, names, first, step),
        GroupStep::Many(step, _) => read_many(alloc, names, first, step),
    }
}

fn finish_group(
    alloc: Global,
    first: u32,
    scope: &mut Scope,
    step: &GroupStep,
) -> Result<Step, Refused>
    ensures { Leaves scope.new result (finished first scope.old (group_name step.now) (group_step_of scope.old.env first step.now)) }
{
    room(scope.steps, group_name(step))?;
    let kind = read_group_step(alloc, &scope.env, first, step)?;
    finish(alloc, first, scope, kind)
}

/// A step whose results have one name.
fn read_group<'a>(
    alloc: Global,
    until: u32,
    scope: &mut Scope<'a>,
    name: &Token<'a>,
    group: &Group<'a>,
) -> Result<Step, Refused>
    ensures { Leaves scope.new result (group_of until scope.old name.now group.now) }
{
    fresh(&scope.env, name)?;
    let Some(shown) = group_count(&group.step) else {
        return Err(Refused::Memory);
    };
    let end = group_end(&group.step).start();
    if !is_count(until, group.count.text(), shown, end) {
        let at = group.count.start();
        return Err(Refused::At(Fault::Number(at, at)));
    }
    let first = scope.next;
    define_group(scope, name, shown)?;
    finish_group(alloc, first, scope, &group.step)
}

/// A step with results.
fn read_behind_first<'a>(
    alloc: Global,
    until: u32,
    scope: &mut Scope<'a>,
    name: &Token<'a>,
    rest: &BehindFirst<'a>,
) -> Result<Step, Refused>
    ensures { Leaves scope.new result (behind_first_of until scope.old name.now rest.now) }
{
    let first = scope.next;
    match rest {
        BehindFirst::Step(step) => {
            define(scope, name)?;
            finish_one(alloc, first, scope, step)
        }
        BehindFirst::More(second) => {
            define(scope, name)?;
            define(scope, &second.name)?;
            read_behind_second(alloc, first, scope, &second.rest)
        }
        BehindFirst::Group(group) => read_group(alloc, until, scope, name, group),
    }
}

fn read_vectorized(alloc: Global, scope: &mut Scope, step: &VectorizeStep) -> Result<Step, Refused>
    ensures { Leaves scope.new result (vectorized scope.old step.now) }
{
    room(scope.steps, &step.name)?;
    let first = scope.next;
    let kind = read_vectorize(alloc, &scope.env, first, step)?;
    finish(alloc, first, scope, kind)
}

fn read_line<'a>(
    alloc: Global,
    until: u32,
    scope: &mut Scope<'a>,
    line: &Line<'a>,
) -> Result<Step, Refused>
    ensures { Leaves scope.new result (line_of until scope.old line.now) }
{
    match line {
        Line::Named(step) => read_behind_first(alloc, until, scope, &step.first, &step.rest),
        Line::Vectorize(step) => read_vectorized(alloc, scope, step),
    }
}

fn read_lines<'a>(
    alloc: Global,
    until: u32,
    scope: &mut Scope<'a>,
    lines: &[Line<'a>],
) -> Result<List<Step>, Refused>
    ensures { Leaves scope.new result (thread (line_of until) scope.old lines.now) }
{
    let mut found = List::new(alloc);
    for line in lines {
        let step = read_line(alloc, until, scope, line)?;
        found.push(step)?;
    }
    Ok(found)
}

/// The scope in which the root has this name.
fn start<'a>(alloc: Global, root: &'a [u8]) -> Result<Scope<'a>, Memory>
    ensures { IfOk result (λ s. s ≡ start root.now) }
{
    let mut env = Names::new(alloc);
    env.define(root, Meaning::One(0))?;
    Ok(Scope {
        env,
        next: 1,
        steps: 0,
    })
}

/// The script that a tree stands for, or its first fault. Handles are numbered 0, 1 and so on in the order in which they are
/// defined, and the root is 0.
pub fn resolve_script(alloc: Global, tree: &Sequence) -> Result<Script, Refused>
    ensures { Agree result (resolve tree.now) }
{
    let mut scope = start(alloc, tree.root.text())?;
    let steps = read_lines(alloc, tree.end.start(), &mut scope, tree.lines.as_slice())?;
    Ok(Script {
        root: HandleId(0),
        steps,
    })
}
