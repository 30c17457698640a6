ghost use Rattle.std.specs.Prelude.{◌≡◌, Some, IfSome, slice_get, option_map};
ghost use Rattle.mlir_edits.specs.Places.{place_of, position_in, op_at};

use mlir_ir::{Func, Module, Op, OpId};

/// Where an operation stands: the number of its function in the module, and its position in the body, both from 0.
#[derive(Clone, Copy)]
pub struct Place {
    pub func: usize,
    pub op: usize,
}

/// An operation of a module, with its function.
#[derive(Clone, Copy)]
pub struct Target<'a> {
    pub func: &'a Func,
    pub op: &'a Op,
}

fn position_in(ops: &[Op], id: OpId) -> Option<usize>
    ensures { result ≡ position_in id ops.now }
{
    for (k, op) in ops.iter().enumerate() {
        if op.id.0 == id.0 {
            return Some(k);
        }
    }
    None
}

/// The place of the first operation of that number, in bodies without what stands inside loops.
pub fn place_of(m: &Module, id: OpId) -> Option<Place>
    ensures { result ≡ place_of id m.now.funcs }
{
    for (k, f) in m.funcs.as_slice().iter().enumerate() {
        if let Some(op) = position_in(f.body.as_slice(), id) {
            return Some(Place { func: k, op });
        }
    }
    None
}

/// What stands at a place.
pub fn target_at<'a>(m: &'a Module, place: Place) -> Option<Target<'a>>
    ensures op { option_map (λ t. t.op.now) result ≡ op_at place m.now.funcs }
    ensures func { IfSome result (λ t. slice_get m.now.funcs place.func ≡ Some t.func.now) }
{
    match m.funcs.as_slice().get(place.func) {
        Some(func) => match func.body.as_slice().get(place.op) {
            Some(op) => Some(Target { func, op }),
            None => None,
        },
        None => None,
    }
}
