//! The payload of two generics, of which one uses the other's result.

ghost use Rattle.std.specs.Prelude.{◌≡◌, ◌++◌, [], map, IfOk, OnOk};
ghost use Rattle.mlir_meaning.specs.Grids.{count_up};
ghost use Rattle.payload_ops.specs.Payload.{IsPayload};
ghost use Rattle.payload_forms.specs.Captured.{in_front};
ghost use Rattle.named_forms.specs.Fit.{IsFit};
ghost use Rattle.payload_forms.specs.Joined.{consumer_steps, consumer_to, joined, producer_steps, producer_to, spliced};
ghost use Rattle.payload_forms.specs.Moved.{captured_step};
ghost use Rattle.payload_forms.specs.Names.{joint};

use crate::moving::{Moving, push_captured};
use crate::numbers::{number, plus};
use crate::renaming::Inputs;
use crate::splicing::spliced;
use affine_maps::Expr;
use mlir_base::{ElemTy, List, Memory};
use payload_ops::{Arg, Payload, PayloadStep, payload};
use std::alloc::Global;

/// What a producer and a consumer are joined by: the consumer's input that is the producer's result, the producer's
/// dimensions as expressions of the consumer's, the number of captured values of both together, and where those of
/// each stand among these.
#[derive(Drop)]
pub struct Joining<'a> {
    pub input: u32,
    pub exprs: &'a [Expr],
    pub captured: u32,
    pub of_producer: &'a [u32],
    pub of_consumer: &'a [u32],
}

/// The parts of a payload that has a step for each of `captured` values in front. `rest` are the steps behind those.
/// They need not fit together.
#[derive(Drop)]
pub struct InFront {
    pub captured: u32,
    pub ins: List<ElemTy>,
    pub out: ElemTy,
    pub rest: List<PayloadStep>,
    pub yielded: Arg,
}

/// Adds the producer's steps, and gives what it yields.
fn push_producer(
    alloc: Global,
    rest: &mut List<PayloadStep>,
    by: &Joining,
    producer: &Payload,
    consumer: &Payload,
) -> Result<Arg, Memory>
    ensures steps { OnOk result (rest.new ≡ rest.old ++ producer_steps (joint by.now) producer.now consumer.now) }
    ensures yielded { IfOk result (λ a. a ≡ producer_to (joint by.now) producer.now consumer.now producer.now.yielded) }
{
    let moving = Moving {
        exprs: Some(by.exprs),
        captured: by.of_producer,
    };
    let first = by.captured as u64;
    moving.push_payload(alloc, rest, Inputs::After(by.input), first, producer)
}

/// Adds the consumer's steps behind the producer's, which yields `value`, and gives what it yields.
fn push_consumer(
    alloc: Global,
    rest: &mut List<PayloadStep>,
    by: &Joining,
    producer: &Payload,
    value: Arg,
    consumer: &Payload,
) -> Result<Arg, Memory>
    requires steps { rest.old ≡ producer_steps (joint by.now) producer.now consumer.now }
    requires value { value ≡ producer_to (joint by.now) producer.now consumer.now producer.now.yielded }
    ensures steps { OnOk result (rest.new ≡ rest.old ++ consumer_steps (joint by.now) producer.now consumer.now) }
    ensures yielded { IfOk result (λ a. a ≡ consumer_to (joint by.now) producer.now consumer.now consumer.now.yielded) }
{
    let moving = Moving {
        exprs: None,
        captured: by.of_consumer,
    };
    let count = number(producer.ins().len() as u64)?;
    let inputs = Inputs::Spliced {
        at: by.input,
        count,
        value,
    };
    let first = plus(by.captured as u64, rest.len() as u64)?;
    moving.push_payload(alloc, rest, inputs, first, consumer)
}

/// The steps of both, behind those for captured values, and what the consumer yields.
fn joined_steps(
    alloc: Global,
    rest: &mut List<PayloadStep>,
    by: &Joining,
    producer: &Payload,
    consumer: &Payload,
) -> Result<Arg, Memory>
    requires { rest.old ≡ [] }
    ensures steps { OnOk result (rest.new ≡ producer_steps (joint by.now) producer.now consumer.now ++ consumer_steps (joint by.now) producer.now consumer.now) }
    ensures yielded { IfOk result (λ a. a ≡ consumer_to (joint by.now) producer.now consumer.now consumer.now.yielded) }
{
    let value = push_producer(alloc, rest, by, producer, consumer)?;
    push_consumer(alloc, rest, by, producer, value, consumer)
}

/// The producer's and the consumer's payload as one, with a step for each captured value of both in front. The
/// producer's steps come first, its `linalg.index` as an `affine.apply`; its inputs stand in the place of the
/// consumer's one. Linear in the number of steps.
pub fn join(
    alloc: Global,
    by: &Joining,
    producer: &Payload,
    consumer: &Payload,
) -> Result<InFront, Memory>
    ensures captured { IfOk result (λ f. f.captured ≡ by.now.captured) }
    ensures ins { IfOk result (λ f. f.ins ≡ spliced by.now.input producer.now.ins consumer.now.ins) }
    ensures out { IfOk result (λ f. f.out ≡ consumer.now.out) }
    ensures rest { IfOk result (λ f. f.rest ≡ producer_steps (joint by.now) producer.now consumer.now ++ consumer_steps (joint by.now) producer.now consumer.now) }
    ensures yielded { IfOk result (λ f. f.yielded ≡ consumer_to (joint by.now) producer.now consumer.now consumer.now.yielded) }
{
    let mut rest = List::new(alloc);
    let yielded = joined_steps(alloc, &mut rest, by, producer, consumer)?;
    let ins = spliced(
        alloc,
        by.input,
        producer.ins().as_slice(),
        consumer.ins().as_slice(),
    )?;
    Ok(InFront {
        captured: by.captured,
        ins,
        out: consumer.out(),
        rest,
        yielded,
    })
}

/// Steps for so many captured values, and then these.
fn behind_captured(
    alloc: Global,
    captured: u32,
    rest: List<PayloadStep>,
) -> Result<List<PayloadStep>, Memory>
    ensures { IfOk result (λ l. l ≡ map captured_step (count_up 0 captured) ++ rest) }
{
    let mut front = List::new(alloc);
    push_captured(&mut front, 0, captured as u64)?;
    let mut steps = front.into_vec();
    let mut rest = rest.into_vec();
    match steps.append(&mut rest) {
        Ok(()) => Ok(List::from_vec(steps)),
        Err(_) => Err(Memory),
    }
}

impl InFront {
    /// The payload of these parts, or `None` where they don't fit together.
    pub fn payload(self, alloc: Global) -> Result<Option<Payload>, Memory>
        ensures { IfOk result (λ r. IsFit IsPayload r (in_front self.captured self.ins self.out self.rest self.yielded)) }
    {
        let steps = behind_captured(alloc, self.captured, self.rest)?;
        Ok(payload(self.ins, self.out, steps, self.yielded))
    }
}

/// The joined payload as `join` gives it, or `None` where it is none: where the producer's result hasn't the type of
/// the consumer's input, or a step uses the producer's output.
pub fn joined(
    alloc: Global,
    by: &Joining,
    producer: &Payload,
    consumer: &Payload,
) -> Result<Option<Payload>, Memory>
    ensures { IfOk result (λ r. IsFit IsPayload r (joined (joint by.now) producer.now consumer.now)) }
{
    let parts = join(alloc, by, producer, consumer)?;
    parts.payload(alloc)
}
