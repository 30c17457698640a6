//! A loop with two fills, and what is matched in it.

use mlir_base::{List, Memory, Name};
use mlir_ir::{Func, Module, Op, OpId, OpKind, ValueId};
use std::alloc::Global;
use transform_handles::{Handles, Target, matched};

fn fill(alloc: Global, id: u32) -> Op {
    Op {
        id: OpId(id),
        results: List::new(alloc),
        kind: OpKind::Fill {
            value: ValueId(0),
            outs: ValueId(1),
        },
    }
}

// A loop 0 around the fill 1, then the fill 2.
fn module(alloc: Global) -> Result<Module, Memory> {
    let mut inner = List::new(alloc);
    inner.push(fill(alloc, 1))?;
    let mut body = List::new(alloc);
    body.push(Op {
        id: OpId(0),
        results: List::new(alloc),
        kind: OpKind::For {
            var: ValueId(0),
            lower: ValueId(1),
            upper: ValueId(2),
            step: ValueId(3),
            carried: List::new(alloc),
            body: inner,
        },
    })?;
    body.push(fill(alloc, 2))?;
    let mut funcs = List::new(alloc);
    let name = Name::new(alloc, "f")?;
    if body.as_slice().len() > 0 {
        funcs.push(Func {
            name,
            params: List::new(alloc),
            results: List::new(alloc),
            body,
        })?;
    }
    Ok(Module { funcs })
}

fn named(alloc: Global, name: &str) -> Result<List<Name>, Memory> {
    let mut names = List::new(alloc);
    names.push(Name::new(alloc, name)?)?;
    Ok(names)
}

#[test]
fn matches_strictly_inside(rt: HostRuntime) -> Result<(), Memory> {
    let alloc = rt.alloc();
    let m = module(alloc)?;
    let fills = named(alloc, "linalg.fill")?;
    let all = matched(alloc, &m, [Target::Root].as_slice(), fills.as_slice())?;
    assert!(rt;
        all.as_slice() == [Target::Operation(OpId(1)), Target::Operation(OpId(2))].as_slice()
    );
    let inner = matched(
        alloc,
        &m,
        [Target::Operation(OpId(0))].as_slice(),
        fills.as_slice(),
    )?;
    assert!(rt; inner.as_slice() == [Target::Operation(OpId(1))].as_slice());
    let none = matched(
        alloc,
        &m,
        [Target::Operation(OpId(2))].as_slice(),
        fills.as_slice(),
    )?;
    assert!(rt; none.is_empty());
    let functions = named(alloc, "func.func")?;
    let found = matched(alloc, &m, [Target::Root].as_slice(), functions.as_slice())?;
    assert!(rt; found.as_slice() == [Target::Function(0)].as_slice());
    Ok(())
}

#[test]
fn kills_what_is_inside(rt: HostRuntime) -> Result<(), Memory> {
    let alloc = rt.alloc();
    let m = module(alloc)?;
    let mut handles = Handles::new(alloc, 0)?;
    let fills = named(alloc, "linalg.fill")?;
    let inner = matched(
        alloc,
        &m,
        [Target::Operation(OpId(0))].as_slice(),
        fills.as_slice(),
    )?;
    let mut rows = Vec::new(alloc);
    if rows.push((1, Some(inner))).is_err() {
        return Err(Memory);
    }
    handles.define(rows)?;
    assert!(rt; handles.live(1).is_some());
    handles.consume(
        alloc,
        &m,
        [Target::Operation(OpId(0))].as_slice(),
        Vec::new(alloc),
    )?;
    assert!(rt; handles.live(1).is_none());
    assert!(rt; handles.live(0).is_some());
    Ok(())
}
