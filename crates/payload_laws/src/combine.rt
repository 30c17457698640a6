ghost use Rattle.std.specs.Prelude.{◌≡◌, ◌^◌, ◌<◌};
ghost use Rattle.std.specs.List.{list_all};
ghost use Rattle.payload_laws.specs.Combiners.{combiner_of_operation, neutral_of, avoids, op_avoids, steps_avoid, other_than_out, joins, joins_at, combining, combiner_of};

use mlir_base::{Width, all_ones, sign_bit};
use payload_ops::{Arg, BinOp, Combiner, Payload, PayloadStep, StepOp};

/// How a payload joins the output's element with a term, so that a reduction by it may be folded in
/// any order (Linalg manual, "linalg.generic"). `Some` exactly where the yielded step is one of the
/// nine operations of `Combiner`, exactly one of its two arguments is the output's element, and no
/// other step names the output's element or the yielded step. The other argument is the term.
pub fn combiner(p: &Payload) -> Option<Combiner>
    ensures { result ≡ combiner_of p.now }
{
    match combining(p.steps().as_slice(), p.yielded()) {
        Some(found) => Some(found.0),
        None => None,
    }
}

/// The value of the width that changes no other when it is joined with it.
pub fn neutral(c: Combiner, w: Width) -> u64
    ensures { result ≡ neutral_of c w }
{
    match c {
        Combiner::Add | Combiner::Or | Combiner::Xor | Combiner::MaxU => 0,
        Combiner::Mul => 1,
        Combiner::And | Combiner::MinU => all_ones(w),
        Combiner::MaxS => sign_bit(w),
        Combiner::MinS => sign_bit(w) - 1,
    }
}

/// The combiner of steps that yield an argument, and its term.
pub fn combining(steps: &[PayloadStep], yielded: Arg) -> Option<(Combiner, Arg)>
    ensures { result ≡ combining steps.now yielded }
{
    match yielded {
        Arg::Step(place) => joins_at(steps, place),
        Arg::Input(_) => None,
        Arg::Out => None,
    }
}

fn joins_at(steps: &[PayloadStep], place: u32) -> Option<(Combiner, Arg)>
    ensures { result ≡ joins_at steps.now place }
{
    let at = place as usize;
    match steps.get(at) {
        Some(step) => {
            if steps_avoid(place, &steps[..at]) && steps_avoid(place, &steps[at + 1..]) {
                joins(&step.op)
            } else {
                None
            }
        }
        None => None,
    }
}

fn joins(op: &StepOp) -> Option<(Combiner, Arg)>
    ensures { result ≡ joins op.now }
{
    match op {
        StepOp::Binary(op, a, b) => match combiner_of_operation(*op) {
            Some(c) => match other_than_out(*a, *b) {
                Some(term) => Some((c, term)),
                None => None,
            },
            None => None,
        },
        _ => None,
    }
}

fn combiner_of_operation(op: BinOp) -> Option<Combiner>
    ensures { result ≡ combiner_of_operation op }
{
    match op {
        BinOp::Addi => Some(Combiner::Add),
        BinOp::Muli => Some(Combiner::Mul),
        BinOp::Andi => Some(Combiner::And),
        BinOp::Ori => Some(Combiner::Or),
        BinOp::Xori => Some(Combiner::Xor),
        BinOp::Maxsi => Some(Combiner::MaxS),
        BinOp::Maxui => Some(Combiner::MaxU),
        BinOp::Minsi => Some(Combiner::MinS),
        BinOp::Minui => Some(Combiner::MinU),
        _ => None,
    }
}

// The other argument, where exactly one is the output's element.
fn other_than_out(a: Arg, b: Arg) -> Option<Arg>
    ensures { result ≡ other_than_out a b }
{
    match (a, b) {
        (Arg::Out, Arg::Out) => None,
        (Arg::Out, term) => Some(term),
        (term, Arg::Out) => Some(term),
        _ => None,
    }
}

fn steps_avoid(place: u32, steps: &[PayloadStep]) -> bool
    ensures { result ≡ steps_avoid place steps.now }
{
    for step in steps {
        if !op_avoids(place, &step.op) {
            return false;
        }
    }
    true
}

fn op_avoids(place: u32, op: &StepOp) -> bool
    ensures { result ≡ op_avoids place op.now }
{
    match op {
        StepOp::Const(_) | StepOp::Index(_) | StepOp::Captured(_) => true,
        StepOp::Linear { terms, .. } => terms_avoid(place, terms.as_slice()),
        StepOp::Binary(_, a, b) => avoids(place, *a) && avoids(place, *b),
        StepOp::Compare(_, a, b) => avoids(place, *a) && avoids(place, *b),
        StepOp::Select(condition, a, b) => {
            avoids(place, *condition) && avoids(place, *a) && avoids(place, *b)
        }
        StepOp::SignExtend(a) => avoids(place, *a),
        StepOp::ZeroExtend(a) => avoids(place, *a),
        StepOp::Truncate(a) => avoids(place, *a),
        StepOp::IndexCast(a) => avoids(place, *a),
    }
}

fn terms_avoid(place: u32, terms: &[(Arg, i64)]) -> bool
    ensures { result ≡ list_all (λ t. avoids place t.0) terms.now }
{
    for term in terms {
        if !avoids(place, term.0) {
            return false;
        }
    }
    true
}

// Neither the output's element nor the step of that place.
fn avoids(place: u32, arg: Arg) -> bool
    ensures { result ≡ avoids place arg }
{
    match arg {
        Arg::Input(_) => true,
        Arg::Out => false,
        Arg::Step(k) => k != place,
    }
}
