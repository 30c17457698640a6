ghost use Rattle.std.specs.Prelude.{◌≡◌, ◌<◌, ◌^◌, max};
ghost use Rattle.verified_runs.specs.Fresh.{above_op, above_body, above_func, above_ids, fresh_value, fresh_op};

use crate::operands::{of_definitions, of_operands};
use mlir_ir::{Func, Module, Op};

fn op_end(op: &Op) -> u64
    ensures { result ≡ above_op op.now }
{
    of_operands(&op.kind).max(of_definitions(op.results.as_slice()))
}

fn body_end(ops: &[Op]) -> u64
    ensures { result ≡ above_body ops.now }
{
    let mut end = 0u64;
    for op in ops {
        end = end.max(op_end(op));
    }
    end
}

fn func_end(f: &Func) -> u64
    ensures { result ≡ above_func f.now }
{
    of_definitions(f.params.as_slice()).max(body_end(f.body.as_slice()))
}

/// One more than the greatest number of a value, and 0 where there is none.
pub fn values_end(m: &Module) -> u64
    ensures { result ≡ fresh_value m.now.funcs }
{
    let mut end = 0u64;
    for f in m.funcs.as_slice() {
        end = end.max(func_end(f));
    }
    end
}

fn ids_end(ops: &[Op]) -> u64
    ensures { result ≡ above_ids ops.now }
{
    let mut end = 0u64;
    for op in ops {
        end = end.max(op.id.0 as u64 + 1);
    }
    end
}

/// One more than the greatest number of an operation, and 0 where there is none.
pub fn ops_end(m: &Module) -> u64
    ensures { result ≡ fresh_op m.now.funcs }
{
    let mut end = 0u64;
    for f in m.funcs.as_slice() {
        end = end.max(ids_end(f.body.as_slice()));
    }
    end
}

/// One more than the greatest number of a value, and one more than the greatest number of an operation, each 0 where there is
/// none. Each number of the module is below 2^32 - 1.
pub fn fresh(m: &Module) -> (u32, u32)
    requires values { fresh_value m.now.funcs < 2 ^ 32 }
    requires ops { fresh_op m.now.funcs < 2 ^ 32 }
    ensures value { result.0 ≡ fresh_value m.now.funcs }
    ensures op { result.1 ≡ fresh_op m.now.funcs }
{
    (values_end(m) as u32, ops_end(m) as u32)
}
