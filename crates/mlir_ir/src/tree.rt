use affine_maps::AffineMap;
use mlir_base::{ElemTy, List, Name, Width};
use payload_ops::{Combiner, Payload, StepOp};
use std::marker::Model;

/// The number of a value of a function: a parameter, a result, or what a loop gives its body.
#[derive(Clone, Copy, PartialEq, Eq)]
pub struct ValueId(pub u32);

/// The number of an operation.
#[derive(Clone, Copy, PartialEq, Eq)]
pub struct OpId(pub u32);

/// The length of one axis of a tensor; `Any` is MLIR's `?`.
#[derive(Clone, Copy, PartialEq, Eq)]
pub enum Extent {
    Fixed(u32),
    Any,
}

/// The type of a value (Builtin manual, "RankedTensorType" and "VectorType").
#[derive(Drop)]
pub enum Ty {
    Scalar(ElemTy),
    Tensor { extents: List<Extent>, elem: Width },
    Vector { extents: List<u32>, elem: Width },
}

/// An entry of a list of offsets, sizes or bounds: a literal, or an `index` value.
#[derive(Clone, Copy, PartialEq, Eq)]
pub enum Idx {
    Literal(i64),
    Value(ValueId),
}

/// The kind of a dimension of a `linalg.generic` (Linalg manual, "iterator_types").
#[derive(Clone, Copy, PartialEq, Eq)]
pub enum Iter {
    Parallel,
    Reduction,
}

/// An operation, with its results and their types. The tree order of operations is the order in
/// which they begin in the text: an operation comes before those inside it.
#[cycle(ir)]
#[derive(Drop)]
pub struct Op {
    pub id: OpId,
    pub results: List<(ValueId, Ty)>,
    pub kind: OpKind,
}

/// What an operation does, with its operands.
///
/// `Constant` has its cells, one for a scalar and one for a vector. `Apply` and `Least` are
/// `affine.apply` and `affine.min`. In `For` and `Forall`, `carried` and `shared` have an entry for
/// each carried value: its name in the body, its type, and the value that it starts as. `captured`
/// are the outer `index` values that a payload uses. The step of an `Elementwise` names its
/// arguments `Input(0)`, `Input(1)` and so on. `Yield` ends a body, and `Return` a function.
#[cycle(ir)]
#[derive(Drop)]
pub enum OpKind {
    Constant {
        value: List<u64>,
    },
    Apply {
        map: AffineMap,
        args: List<ValueId>,
    },
    Least {
        map: AffineMap,
        args: List<ValueId>,
    },
    Empty {
        sizes: List<ValueId>,
    },
    ExtractSlice {
        source: ValueId,
        offsets: List<Idx>,
        sizes: List<Idx>,
    },
    InsertSlice {
        source: ValueId,
        dest: ValueId,
        offsets: List<Idx>,
        sizes: List<Idx>,
    },
    Pad {
        source: ValueId,
        high: List<Idx>,
        value: ValueId,
    },
    Generic {
        maps: List<AffineMap>,
        iterators: List<Iter>,
        ins: List<ValueId>,
        outs: ValueId,
        captured: List<ValueId>,
        payload: Payload,
    },
    Fill {
        value: ValueId,
        outs: ValueId,
    },
    Matmul {
        a: ValueId,
        b: ValueId,
        outs: ValueId,
    },
    BatchMatmul {
        a: ValueId,
        b: ValueId,
        outs: ValueId,
    },
    Transpose {
        source: ValueId,
        outs: ValueId,
        order: List<u32>,
    },
    Broadcast {
        source: ValueId,
        outs: ValueId,
        dims: List<u32>,
    },
    Pack {
        source: ValueId,
        dest: ValueId,
        value: Option<ValueId>,
        dims: List<u32>,
        tiles: List<u32>,
    },
    Unpack {
        source: ValueId,
        dest: ValueId,
        dims: List<u32>,
        tiles: List<u32>,
    },
    For {
        var: ValueId,
        lower: ValueId,
        upper: ValueId,
        step: ValueId,
        carried: List<(ValueId, Ty, ValueId)>,
        body: List<Op>,
    },
    Forall {
        vars: List<ValueId>,
        lower: List<Idx>,
        upper: List<Idx>,
        step: List<Idx>,
        shared: List<(ValueId, Ty, ValueId)>,
        body: List<Op>,
    },
    Yield {
        values: List<ValueId>,
    },
    ParallelInsert {
        source: ValueId,
        dest: ValueId,
        offsets: List<Idx>,
        sizes: List<Idx>,
    },
    CreateMask {
        sizes: List<ValueId>,
    },
    TransferRead {
        source: ValueId,
        offsets: List<ValueId>,
        pad: ValueId,
        mask: Option<ValueId>,
        map: AffineMap,
    },
    TransferWrite {
        value: ValueId,
        dest: ValueId,
        offsets: List<ValueId>,
        mask: Option<ValueId>,
        map: AffineMap,
    },
    Elementwise {
        op: StepOp,
        args: List<ValueId>,
    },
    MultiReduction {
        kind: Combiner,
        source: ValueId,
        acc: ValueId,
        dims: List<u32>,
    },
    Return {
        values: List<ValueId>,
    },
}

/// A function. Its body is not empty.
#[derive(Drop)]
pub struct Func {
    pub name: Name,
    pub params: List<(ValueId, Ty)>,
    pub results: List<Ty>,
    pub body: List<Op>,
}

impl Model for Func {
    ghost use Rattle.std.specs.Prelude.{◌<◌, length};
    ghost use Rattle.mlir_ir.specs.Shape.{FuncShape};
    ghost use Rattle.mlir_ir.specs.contracts.tree.Op as op;
    ghost use Rattle.std.specs.Coded.{codes};

    ghost Value = { FuncShape };

    ghost coded = { Prim.hlevel (codes, op.the_row.coded) };

    ghost view = { λ f. record { name = f.name; params = f.params; results = f.results; body = f.body } };

    ghost invariant = { λ f. 0 < length f.body };
}

/// The functions of a module, in order.
#[derive(Drop)]
pub struct Module {
    pub funcs: List<Func>,
}

/// A tensor with its cells in row-major order: one for each index of its box, each a value of the
/// element's width.
#[derive(Drop)]
pub struct Tensor {
    pub extents: List<u32>,
    pub elem: Width,
    pub cells: List<u64>,
}

impl Model for Tensor {
    ghost use Rattle.mlir_ir.specs.Shape.{TensorShape, IsTensor};

    ghost Value = { TensorShape };

    ghost view = { λ t. record { extents = t.extents; elem = t.elem; cells = t.cells } };

    ghost invariant = { λ t. IsTensor t.extents t.elem t.cells };
}
