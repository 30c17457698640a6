ghost use Rattle.std.specs.Prelude.{◌≡◌};
ghost use Rattle.payload_ops.specs.Payload.{IsPayload};

use crate::step::{Arg, PayloadStep};
use mlir_base::{ElemTy, List};
use std::marker::Model;

pub mod parts;

/// What a `linalg.generic` computes at one point, from one element of each input and of its output
/// (Linalg manual, "linalg.generic"). `payload` makes one, and so its steps fit.
#[derive(Drop)]
pub struct Payload {
    ins: List<ElemTy>,
    out: ElemTy,
    steps: List<PayloadStep>,
    yielded: Arg,
}

impl Model for Payload {
    ghost use Rattle.payload_ops.specs.Shape.{PayloadShape};
    ghost use Rattle.payload_ops.specs.Payload.{IsPayload};

    ghost Value = { PayloadShape };

    ghost view = { λ p. record { ins = p.ins; out = p.out; steps = p.steps; yielded = p.yielded } };

    ghost invariant = { λ p. IsPayload (record { ins = p.ins; out = p.out; steps = p.steps; yielded = p.yielded }) };
}

impl Payload {
    /// The element types of the inputs, in order.
    pub fn ins(&self) -> &List<ElemTy>
        ensures { result.now ≡ self.now.ins }
    {
        &self.ins
    }

    /// The element type of the output.
    pub fn out(&self) -> ElemTy
        ensures { result ≡ self.now.out }
    {
        self.out
    }

    pub fn steps(&self) -> &List<PayloadStep>
        ensures value { result.now ≡ self.now.steps }
        ensures kept { IsPayload self.now }
    {
        &self.steps
    }

    /// What the output's element becomes.
    pub fn yielded(&self) -> Arg
        ensures value { result ≡ self.now.yielded }
        ensures kept { IsPayload self.now }
    {
        self.yielded
    }
}
