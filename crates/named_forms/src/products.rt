ghost use Rattle.std.specs.Prelude.{◌≡◌, ◌∷◌, ◌==◌, [], nat_lt, IfOk};
ghost use Rattle.affine_maps.specs.Map.{IsMap};
ghost use Rattle.payload_ops.specs.Payload.{IsPayload};
ghost use Rattle.mlir_ir.specs.declared.tree.Iter.TheVariants.{Parallel, Reduction};
ghost use Rattle.mlir_meaning.specs.Grids.{Each};
ghost use Rattle.mlir_meaning.specs.Points.{select_map};
ghost use Rattle.mlir_meaning.specs.Structured.{step_of, multiply_add, multiply_add_steps, last_step, matmul_form, batch_matmul_form};
ghost use Rattle.named_forms.specs.Fit.{IsFit, FormFits};

use crate::forms::{Form, select_map};
use affine_maps::AffineMap;
use mlir_base::{ElemTy, List, Memory, Width};
use mlir_ir::Iter;
use payload_ops::{Arg, BinOp, Payload, PayloadStep, StepOp, payload};
use std::alloc::Global;

/// The steps of a payload, and what it yields.
#[derive(Drop)]
struct Steps {
    steps: List<PayloadStep>,
    yielded: Arg,
}

fn step_of(width: Width, op: StepOp) -> PayloadStep
    ensures { result ≡ step_of width op }
{
    PayloadStep {
        ty: ElemTy::Int(width),
        op,
    }
}

// For i1, `and` and `or`.
fn bit_steps(alloc: Global, width: Width) -> Result<Steps, Memory>
    ensures { IfOk result (λ s. (s.steps ≡ step_of width (StepOp.Binary BinOp.Andi (Arg.Input 0) (Arg.Input 1)) ∷ step_of width (StepOp.Binary BinOp.Ori Arg.Out (Arg.Step 0)) ∷ []) × (s.yielded ≡ Arg.Step 1)) }
{
    let mut steps = List::new(alloc);
    steps.push(step_of(
        width,
        StepOp::Binary(BinOp::Andi, Arg::Input(0), Arg::Input(1)),
    ))?;
    steps.push(step_of(width, StepOp::Binary(BinOp::Ori, Arg::Out, Arg::Step(0))))?;
    Ok(Steps {
        steps,
        yielded: Arg::Step(1),
    })
}

// The product of inputs of the output's width.
fn plain_steps(alloc: Global, width: Width) -> Result<Steps, Memory>
    ensures { IfOk result (λ s. (s.steps ≡ step_of width (StepOp.Binary BinOp.Muli (Arg.Input 0) (Arg.Input 1)) ∷ step_of width (StepOp.Binary BinOp.Addi Arg.Out (Arg.Step 0)) ∷ []) × (s.yielded ≡ Arg.Step 1)) }
{
    let mut steps = List::new(alloc);
    steps.push(step_of(
        width,
        StepOp::Binary(BinOp::Muli, Arg::Input(0), Arg::Input(1)),
    ))?;
    steps.push(step_of(width, StepOp::Binary(BinOp::Addi, Arg::Out, Arg::Step(0))))?;
    Ok(Steps {
        steps,
        yielded: Arg::Step(1),
    })
}

// The product of narrower inputs, sign-extended.
fn extended_steps(alloc: Global, width: Width) -> Result<Steps, Memory>
    ensures { IfOk result (λ s. (s.steps ≡ step_of width (StepOp.SignExtend (Arg.Input 0)) ∷ step_of width (StepOp.SignExtend (Arg.Input 1)) ∷ step_of width (StepOp.Binary BinOp.Muli (Arg.Step 0) (Arg.Step 1)) ∷ step_of width (StepOp.Binary BinOp.Addi Arg.Out (Arg.Step 2)) ∷ []) × (s.yielded ≡ Arg.Step 3)) }
{
    let mut steps = List::new(alloc);
    steps.push(step_of(width, StepOp::SignExtend(Arg::Input(0))))?;
    steps.push(step_of(width, StepOp::SignExtend(Arg::Input(1))))?;
    steps.push(step_of(
        width,
        StepOp::Binary(BinOp::Muli, Arg::Step(0), Arg::Step(1)),
    ))?;
    steps.push(step_of(width, StepOp::Binary(BinOp::Addi, Arg::Out, Arg::Step(2))))?;
    Ok(Steps {
        steps,
        yielded: Arg::Step(3),
    })
}

fn is_bit(width: Width) -> bool
    ensures { result ≡ (width == 1) }
{
    width.bits() == 1
}

fn is_narrower(narrow: Width, width: Width) -> bool
    ensures { result ≡ nat_lt narrow width }
{
    narrow.bits() < width.bits()
}

fn multiply_add_steps(alloc: Global, narrow: Width, width: Width) -> Result<Steps, Memory>
    ensures { IfOk result (λ s. (s.steps ≡ multiply_add_steps narrow width) × (s.yielded ≡ last_step (multiply_add_steps narrow width))) }
{
    if is_bit(width) {
        bit_steps(alloc, width)
    } else if is_narrower(narrow, width) {
        extended_steps(alloc, width)
    } else {
        plain_steps(alloc, width)
    }
}

/// The payload that adds the product of its inputs to the output's element.
fn multiply_add(alloc: Global, narrow: Width, width: Width) -> Result<Option<Payload>, Memory>
    ensures { IfOk result (λ r. IsFit IsPayload r (multiply_add narrow width)) }
{
    let mut ins = List::new(alloc);
    ins.push(ElemTy::Int(narrow))?;
    ins.push(ElemTy::Int(narrow))?;
    let body = multiply_add_steps(alloc, narrow, width)?;
    Ok(payload(ins, ElemTy::Int(width), body.steps, body.yielded))
}

/// The maps to these dimensions of the operands of a product.
fn product_maps(
    alloc: Global,
    dims: u64,
    a: &[u64],
    b: &[u64],
    out: &[u64],
) -> Result<Option<List<AffineMap>>, Memory>
    ensures { IfOk result (λ r. IsFit (Each IsMap) r (select_map dims a.now ∷ select_map dims b.now ∷ select_map dims out.now ∷ [])) }
{
    let Some(a) = select_map(alloc, dims, a)? else {
        return Ok(None);
    };
    let Some(b) = select_map(alloc, dims, b)? else {
        return Ok(None);
    };
    let Some(out) = select_map(alloc, dims, out)? else {
        return Ok(None);
    };
    let mut maps = List::new(alloc);
    maps.push(a)?;
    maps.push(b)?;
    maps.push(out)?;
    Ok(Some(maps))
}

fn matmul_iterators(alloc: Global) -> Result<List<Iter>, Memory>
    ensures { IfOk result (λ r. r ≡ Parallel ∷ Parallel ∷ Reduction ∷ []) }
{
    let mut all = List::new(alloc);
    all.push(Iter::Parallel)?;
    all.push(Iter::Parallel)?;
    all.push(Iter::Reduction)?;
    Ok(all)
}

fn batch_iterators(alloc: Global) -> Result<List<Iter>, Memory>
    ensures { IfOk result (λ r. r ≡ Parallel ∷ Parallel ∷ Parallel ∷ Reduction ∷ []) }
{
    let mut all = List::new(alloc);
    all.push(Iter::Parallel)?;
    all.push(Iter::Parallel)?;
    all.push(Iter::Parallel)?;
    all.push(Iter::Reduction)?;
    Ok(all)
}

/// `linalg.matmul` as a generic, or `None` where its parts don't fit.
#[tactic(auto, unfolding(mlir_meaning::specs::Structured::matmul_form))]
pub fn matmul_form(alloc: Global, narrow: Width, width: Width) -> Result<Option<Form>, Memory>
    ensures { IfOk result (λ r. IsFit FormFits r (matmul_form narrow width)) }
{
    let Some(maps) = product_maps(alloc, 3, &[0, 2], &[2, 1], &[0, 1])? else {
        return Ok(None);
    };
    let Some(payload) = multiply_add(alloc, narrow, width)? else {
        return Ok(None);
    };
    let iterators = matmul_iterators(alloc)?;
    Ok(Some(Form {
        maps,
        iterators,
        payload,
    }))
}

/// `linalg.batch_matmul` as a generic, or `None` where its parts don't fit.
#[tactic(auto, unfolding(mlir_meaning::specs::Structured::batch_matmul_form))]
pub fn batch_matmul_form(alloc: Global, narrow: Width, width: Width) -> Result<Option<Form>, Memory>
    ensures { IfOk result (λ r. IsFit FormFits r (batch_matmul_form narrow width)) }
{
    let Some(maps) = product_maps(alloc, 4, &[0, 1, 3], &[0, 3, 2], &[0, 1, 2])? else {
        return Ok(None);
    };
    let Some(payload) = multiply_add(alloc, narrow, width)? else {
        return Ok(None);
    };
    let iterators = batch_iterators(alloc)?;
    Ok(Some(Form {
        maps,
        iterators,
        payload,
    }))
}
