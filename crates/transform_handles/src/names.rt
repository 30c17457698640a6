ghost use Rattle.std.specs.Prelude.{◌≡◌};
ghost use Rattle.transform_handles.specs.Names.{binary_name, step_name, name_of};

use mlir_ir::OpKind;
use payload_ops::{BinOp, StepOp};

fn binary_name(op: &BinOp) -> &'static [u8]
    ensures { result.now ≡ binary_name op.now }
{
    match op {
        BinOp::Addi => b"arith.addi",
        BinOp::Subi => b"arith.subi",
        BinOp::Muli => b"arith.muli",
        BinOp::Divsi => b"arith.divsi",
        BinOp::Divui => b"arith.divui",
        BinOp::Remsi => b"arith.remsi",
        BinOp::Remui => b"arith.remui",
        BinOp::Andi => b"arith.andi",
        BinOp::Ori => b"arith.ori",
        BinOp::Xori => b"arith.xori",
        BinOp::Shli => b"arith.shli",
        BinOp::Shrsi => b"arith.shrsi",
        BinOp::Shrui => b"arith.shrui",
        BinOp::Maxsi => b"arith.maxsi",
        BinOp::Maxui => b"arith.maxui",
        BinOp::Minsi => b"arith.minsi",
        BinOp::Minui => b"arith.minui",
    }
}

fn step_name(op: &StepOp) -> &'static [u8]
    ensures { result.now ≡ step_name op.now }
{
    match op {
        StepOp::Const(_) => b"arith.constant",
        StepOp::Index(_) => b"linalg.index",
        StepOp::Captured(_) => b"affine.apply",
        StepOp::Linear { .. } => b"affine.apply",
        StepOp::Binary(op, _, _) => binary_name(op),
        StepOp::Compare(_, _, _) => b"arith.cmpi",
        StepOp::Select(_, _, _) => b"arith.select",
        StepOp::SignExtend(_) => b"arith.extsi",
        StepOp::ZeroExtend(_) => b"arith.extui",
        StepOp::Truncate(_) => b"arith.trunci",
        StepOp::IndexCast(_) => b"arith.index_cast",
    }
}

/// The name with which an operation's text begins.
#[tactic(auto, unfolding(crate::specs::Names::name_of))]
pub(crate) fn name_of(kind: &OpKind) -> &'static [u8]
    ensures { result.now ≡ name_of kind.now }
{
    match kind {
        OpKind::Constant { .. } => b"arith.constant",
        OpKind::Apply { .. } => b"affine.apply",
        OpKind::Least { .. } => b"affine.min",
        OpKind::Empty { .. } => b"tensor.empty",
        OpKind::ExtractSlice { .. } => b"tensor.extract_slice",
        OpKind::InsertSlice { .. } => b"tensor.insert_slice",
        OpKind::Pad { .. } => b"tensor.pad",
        OpKind::Generic { .. } => b"linalg.generic",
        OpKind::Fill { .. } => b"linalg.fill",
        OpKind::Matmul { .. } => b"linalg.matmul",
        OpKind::BatchMatmul { .. } => b"linalg.batch_matmul",
        OpKind::Transpose { .. } => b"linalg.transpose",
        OpKind::Broadcast { .. } => b"linalg.broadcast",
        OpKind::Pack { .. } => b"linalg.pack",
        OpKind::Unpack { .. } => b"linalg.unpack",
        OpKind::For { .. } => b"scf.for",
        OpKind::Forall { .. } => b"scf.forall",
        OpKind::Yield { .. } => b"scf.yield",
        OpKind::ParallelInsert { .. } => b"tensor.parallel_insert_slice",
        OpKind::CreateMask { .. } => b"vector.create_mask",
        OpKind::TransferRead { .. } => b"vector.transfer_read",
        OpKind::TransferWrite { .. } => b"vector.transfer_write",
        OpKind::Elementwise { op, .. } => step_name(op),
        OpKind::MultiReduction { .. } => b"vector.multi_reduction",
        OpKind::Return { .. } => b"return",
    }
}
