//! Limits that reading tests before the verifier does.

use mlir_base::{List, Memory, Name, Width};
use mlir_ir::{Extent, Func, Module, Op, OpId, OpKind, Ty, ValueId};
use mlir_verify::{Refused, Rule, verify};
use std::alloc::Global;

/// A function with one argument, a tensor of so many axes of this extent.
fn one_argument(alloc: Global, rank: u32, extent: u32) -> Result<Module, Memory> {
    let mut extents = List::new(alloc);
    for _ in 0..rank {
        extents.push(Extent::Fixed(extent))?;
    }
    let elem = Width::new(1).ok_or(Memory)?;
    let mut params = List::new(alloc);
    params.push((ValueId(0), Ty::Tensor { extents, elem }))?;
    let mut body = List::new(alloc);
    body.push(Op {
        id: OpId(0),
        results: List::new(alloc),
        kind: OpKind::Return {
            values: List::new(alloc),
        },
    })?;
    let name = Name::new(alloc, "f")?;
    let mut funcs = List::new(alloc);
    if body.as_slice().len() > 0 {
        funcs.push(Func {
            name,
            params,
            results: List::new(alloc),
            body,
        })?;
    }
    Ok(Module { funcs })
}

/// Whether the module is accepted (true), or breaks V14 at its first operation (false).
fn keeps_limits(alloc: Global, rank: u32, extent: u32) -> Result<bool, Memory> {
    match verify(alloc, one_argument(alloc, rank, extent)?) {
        Ok(_) => Ok(true),
        Err(
            Refused::Rule {
                rule: Rule::V14,
                op: OpId(0),
            },
        ) => Ok(false),
        Err(_) => Err(Memory),
    }
}

#[test]
fn limits_are_kept(rt: HostRuntime) -> Result<(), Memory> {
    let rows = [
        (8, 1, true),
        (9, 1, false),
        (1, 1048576, true),
        (1, 1048577, false),
        (2, 2048, true),
        (2, 2049, false),
    ];
    for (rank, extent, kept) in rows {
        assert!(rt; keeps_limits(rt.alloc(), rank, extent)? == kept);
    }
    Ok(())
}
