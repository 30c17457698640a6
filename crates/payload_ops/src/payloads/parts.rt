ghost use Rattle.std.specs.Prelude.{◌≡◌, ◌↔◌, IsSome, IfSome};
ghost use Rattle.payload_ops.specs.Payload.{IsPayload};

use crate::fits::{Scope, steps_fit};
use crate::payloads::Payload;
use crate::step::{Arg, PayloadStep};
use mlir_base::{ElemTy, List};

/// The payload of these parts. `None` exactly where an argument names no input and no earlier step,
/// a step's types do not fit its operation, a constant is no value of its type, a `Linear` step has
/// a coefficient 0 or a number beyond plus and minus 2^31, or what is yielded has another type than
/// the output.
pub fn payload(
    ins: List<ElemTy>,
    out: ElemTy,
    steps: List<PayloadStep>,
    yielded: Arg,
) -> Option<Payload>
    ensures valid { IsSome result ↔ IsPayload (record { ins = ins; out = out; steps = steps; yielded = yielded }) }
    ensures value { IfSome result (λ p. p ≡ record { ins = ins; out = out; steps = steps; yielded = yielded }) }
{
    let scope = Scope {
        ins: ins.as_slice(),
        out: &out,
        earlier: steps.as_slice(),
    };
    let fits = steps_fit(scope.ins, scope.out, scope.earlier) && scope.has_type(yielded, scope.out);
    if fits {
        Some(Payload {
            ins,
            out,
            steps,
            yielded,
        })
    } else {
        None
    }
}
