//! A copy of a module with a loop.

use mlir_base::{List, Memory, Name};
use mlir_copy::copy_module;
use mlir_ir::{Func, Module, Op, OpId, OpKind, ValueId, count_ops, depth, find};

#[test]
fn copies_the_inside_of_a_loop(rt: HostRuntime) -> Result<(), Memory> {
    let mut inner = List::new(rt.alloc());
    inner.push(Op {
        id: OpId(1),
        results: List::new(rt.alloc()),
        kind: OpKind::Yield {
            values: List::new(rt.alloc()),
        },
    })?;
    let mut body = List::new(rt.alloc());
    body.push(Op {
        id: OpId(0),
        results: List::new(rt.alloc()),
        kind: OpKind::For {
            var: ValueId(0),
            lower: ValueId(1),
            upper: ValueId(2),
            step: ValueId(3),
            carried: List::new(rt.alloc()),
            body: inner,
        },
    })?;
    let mut funcs = List::new(rt.alloc());
    let name = Name::new(rt.alloc(), "f")?;
    if body.as_slice().len() > 0 {
        funcs.push(Func {
            name,
            params: List::new(rt.alloc()),
            results: List::new(rt.alloc()),
            body,
        })?;
    }
    let copy = copy_module(rt.alloc(), &Module { funcs })?;
    assert!(rt; count_ops(&copy) == 2);
    assert!(rt; depth(&copy) == 1);
    assert!(rt; find(&copy, OpId(1)).is_some());
    Ok(())
}
