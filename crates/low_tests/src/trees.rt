use mlir_base::{List, Memory, Name};
use mlir_ir::{Func, Module, Op, OpId, OpKind, ValueId, count_ops, depth, find, uses};
use std::alloc::Global;

fn op(alloc: Global, id: u32, kind: OpKind) -> Op {
    Op {
        id: OpId(id),
        results: List::new(alloc),
        kind,
    }
}

/// A loop over values 1, 2 and 3 that yields nothing, and a return.
#[test]
fn trees_are_searched_and_counted(rt: HostRuntime) -> Result<(), Memory> {
    let alloc = rt.alloc();
    let values = List::new(alloc);
    let mut inner = List::new(alloc);
    inner.push(op(alloc, 1, OpKind::Yield { values }))?;
    let mut body = List::new(alloc);
    let turns = OpKind::For {
        var: ValueId(0),
        lower: ValueId(1),
        upper: ValueId(2),
        step: ValueId(3),
        carried: List::new(alloc),
        body: inner,
    };
    body.push(op(alloc, 0, turns))?;
    let values = List::new(alloc);
    body.push(op(alloc, 2, OpKind::Return { values }))?;
    let name = Name::new(alloc, "f")?;
    let mut funcs = List::new(alloc);
    if body.as_slice().len() > 0 {
        funcs.push(Func {
            name,
            params: List::new(alloc),
            results: List::new(alloc),
            body,
        })?;
    }
    let m = Module { funcs };
    assert!(rt; count_ops(&m) == 3);
    assert!(rt; depth(&m) == 1);
    assert!(rt; uses(&m, ValueId(2)) == 1);
    assert!(rt; find(&m, OpId(1)).is_some());
    Ok(())
}
