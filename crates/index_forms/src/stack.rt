ghost use Rattle.std.specs.Prelude.{◌≡◌, ◌≤◌, ◌<◌, ◌+◌, length, IfOk};
ghost use Rattle.index_forms.specs.Facts.{AreFacts};
ghost use Rattle.index_forms.specs.Bounds.{join};
ghost use Rattle.index_forms.specs.Stack.{gained, settled, after, finished, unmet, all_unmet, turn_bound, turn_met, is_bound, IsFrame, AreFrames, IsTurn};
ghost use Rattle.index_forms.specs.declared.stack.Turn.TheVariants.{Form};

use crate::choices::{child, count};
use crate::form::{Fact, LinForm};
use mlir_base::Memory;
use std::alloc::Global;

/// A form whose first atom is being replaced: its next choice, and the bound of those before that.
#[derive(Drop)]
pub(crate) struct Frame {
    pub(crate) form: LinForm,
    pub(crate) next: usize,
    pub(crate) best: Option<Option<i64>>,
}

/// What comes next: a form to take up, `None` for one past the limit, or the bound of one.
#[derive(Drop)]
pub(crate) enum Turn {
    Form(Option<LinForm>),
    Bound(Option<i64>),
}

/// The least bound where one is enough, the greatest where all are needed.
fn joined(one: bool, a: Option<i64>, b: Option<i64>) -> Option<i64>
    ensures { result ≡ join one a b }
{
    match (a, b) {
        (None, b) => if one { b } else { None },
        (Some(a), None) => if one { Some(a) } else { None },
        (Some(a), Some(b)) => if one { Some(a.min(b)) } else { Some(a.max(b)) },
    }
}

/// The bound with that of a further choice.
fn with_choice(one: bool, best: Option<Option<i64>>, next: Option<i64>) -> Option<i64>
    ensures { result ≡ gained one best next }
{
    match best {
        Some(best) => joined(one, best, next),
        None => next,
    }
}

/// Takes up a frame's next choice, or hands back its bound.
fn ahead(
    facts: &[Fact],
    frame: Frame,
    stack: &mut Vec<Frame>,
    alloc: Global,
) -> Result<Turn, Memory>
    requires known { AreFacts facts.now }
    requires frame { IsFrame facts.now frame }
    requires stack { AreFrames facts.now stack.old.items }
    ensures bound { IfOk result (λ t. finished facts.now stack.new.items (turn_bound facts.now t) ≡ finished facts.now stack.old.items (settled facts.now frame)) }
    ensures met { IfOk result (λ t. turn_met facts.now t + all_unmet facts.now stack.new.items ≡ unmet facts.now frame + all_unmet facts.now stack.old.items) }
    ensures frames { IfOk result (λ t. AreFrames facts.now stack.new.items × IsTurn facts.now t) }
    ensures size { IfOk result (λ t. length stack.new.items + is_bound t ≤ 1 + length stack.old.items) }
{
    let (atom, by) = frame.form.terms.as_slice()[0];
    let fact = &facts[atom as usize];
    if frame.next < count(fact, by) {
        let below = child(fact, &frame.form, by, frame.next, alloc)?;
        let Frame { form, next, best } = frame;
        match stack.push(Frame {
            form,
            next: next + 1,
            best,
        }) {
            Ok(_) => Ok(Turn::Form(below)),
            Err(_) => Err(Memory),
        }
    } else {
        match frame.best {
            Some(best) => Ok(Turn::Bound(best)),
            None => Ok(Turn::Bound(None)),
        }
    }
}

/// Takes up a form.
pub(crate) fn down(
    facts: &[Fact],
    form: Option<LinForm>,
    stack: &mut Vec<Frame>,
    alloc: Global,
) -> Result<Turn, Memory>
    requires known { AreFacts facts.now }
    requires form { IsTurn facts.now (Form form) }
    requires stack { AreFrames facts.now stack.old.items }
    ensures bound { IfOk result (λ t. finished facts.now stack.new.items (turn_bound facts.now t) ≡ finished facts.now stack.old.items (turn_bound facts.now (Form form))) }
    ensures met { IfOk result (λ t. 1 + (turn_met facts.now t + all_unmet facts.now stack.new.items) ≡ turn_met facts.now (Form form) + all_unmet facts.now stack.old.items) }
    ensures frames { IfOk result (λ t. AreFrames facts.now stack.new.items × IsTurn facts.now t) }
    ensures size { IfOk result (λ t. length stack.new.items + is_bound t ≤ 1 + length stack.old.items) }
{
    match form {
        None => Ok(Turn::Bound(None)),
        Some(form) => {
            if form.terms.len() == 0 {
                return Ok(Turn::Bound(Some(form.constant)));
            }
            let frame = Frame {
                form,
                next: 0,
                best: None,
            };
            ahead(facts, frame, stack, alloc)
        }
    }
}

/// Hands the bound of a choice to the frame above it.
pub(crate) fn up(
    facts: &[Fact],
    frame: Frame,
    bound: Option<i64>,
    stack: &mut Vec<Frame>,
    alloc: Global,
) -> Result<Turn, Memory>
    requires known { AreFacts facts.now }
    requires frame { IsFrame facts.now frame }
    requires stack { AreFrames facts.now stack.old.items }
    ensures bound { IfOk result (λ t. finished facts.now stack.new.items (turn_bound facts.now t) ≡ finished facts.now stack.old.items (after facts.now frame bound)) }
    ensures met { IfOk result (λ t. turn_met facts.now t + all_unmet facts.now stack.new.items ≡ unmet facts.now frame + all_unmet facts.now stack.old.items) }
    ensures frames { IfOk result (λ t. AreFrames facts.now stack.new.items × IsTurn facts.now t) }
    ensures size { IfOk result (λ t. length stack.new.items + is_bound t ≤ 1 + length stack.old.items) }
{
    let by = frame.form.terms.as_slice()[0].1;
    let Frame { form, next, best } = frame;
    let best = Some(with_choice(by > 0, best, bound));
    ahead(facts, Frame { form, next, best }, stack, alloc)
}
