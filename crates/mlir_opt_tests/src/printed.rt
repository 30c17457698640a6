//! Texts and their canonical texts, each of which is its own.

use crate::answers::answer;
use std::test::Fail;

/// A sum, as a person may write it.
pub const WRITTEN: &str = "#id = affine_map<(d0) -> (d0)>
func.func @add(%a: tensor<3xi32>, %b: tensor<3xi32>) -> tensor<3xi32> {
  %e = tensor.empty() : tensor<3xi32> // room for the sum
  %r = linalg.generic {indexing_maps = [#id, #id, #id], iterator_types = [\"parallel\"]}
      ins(%a, %b : tensor<3xi32>, tensor<3xi32>) outs(%e : tensor<3xi32>) {
  ^bb0(%x: i32, %y: i32, %z: i32):
    %s = arith.addi %x, %y : i32
    linalg.yield %s : i32
  } -> tensor<3xi32>
  func.return %r : tensor<3xi32>
}
";

const WRITTEN_PRINTED: &str = "#map = affine_map<(d0) -> (d0)>
module {
  func.func @add(%arg0: tensor<3xi32>, %arg1: tensor<3xi32>) -> tensor<3xi32> {
    %0 = tensor.empty() : tensor<3xi32>
    %1 = linalg.generic {indexing_maps = [#map, #map, #map], iterator_types = [\"parallel\"]} ins(%arg0, %arg1 : tensor<3xi32>, tensor<3xi32>) outs(%0 : tensor<3xi32>) {
    ^bb0(%arg2: i32, %arg3: i32, %arg4: i32):
      %2 = arith.addi %arg2, %arg3 : i32
      linalg.yield %2 : i32
    } -> tensor<3xi32>
    return %1 : tensor<3xi32>
  }
}
";

/// Functions with no, one and several results, in a module with aliases on both sides.
const SEVERAL: &str = "#id = affine_map<(d0) -> (d0)>
module {
  func.func @none() { func.return }
  func.func @two(%a: tensor<i8>, %b: tensor<2x1x4xi64>) -> (tensor<2x1x4xi64>, tensor<i8>) {
    return %b, %a : tensor<2x1x4xi64>, tensor<i8>
  }
  func.func @one(%a: tensor<0xi1>) -> tensor<0xi1> {
    %e = tensor.empty() : tensor<i8>
    return %a : tensor<0xi1>
  }
}
#last = affine_map<(d0) -> (d0)>
";

const SEVERAL_PRINTED: &str = "module {
  func.func @none() {
    return
  }
  func.func @two(%arg0: tensor<i8>, %arg1: tensor<2x1x4xi64>) -> (tensor<2x1x4xi64>, tensor<i8>) {
    return %arg1, %arg0 : tensor<2x1x4xi64>, tensor<i8>
  }
  func.func @one(%arg0: tensor<0xi1>) -> tensor<0xi1> {
    %0 = tensor.empty() : tensor<i8>
    return %arg0 : tensor<0xi1>
  }
}
";

/// Constants, of which a payload uses one, and operations by name.
const NAMED: &str = "#b = affine_map<(i, j) -> (j, i)> #a = affine_map<(i, j) -> (i, j)>
func.func @f(%a: tensor<2x3xi8>, %b: tensor<3x4xi8>, %l: tensor<1x2x3xi8>, %m: tensor<1x3x4xi8>) -> (tensor<2x4xi8>, tensor<4x2xi8>) {
  %c = arith.constant 255 : i8
  %t = arith.constant true
  %d = arith.constant dense<[7, 7, 7]> : tensor<3xi8>
  %s = arith.constant dense<[[true], [false]]> : tensor<2x1xi1>
  %n = arith.constant dense<[[1, -1], [2, -128]]> : tensor<2x2xi8>
  %o = arith.constant dense<[[], []]> : tensor<2x0xi8>
  %k = arith.constant dense<[4, 3, 2, 1]> : tensor<4xi8>
  %e = tensor.empty() : tensor<2x4xi8>
  %f = linalg.fill ins(%c : i8) outs(%e : tensor<2x4xi8>) -> tensor<2x4xi8>
  %p = linalg.matmul ins(%a, %b : tensor<2x3xi8>, tensor<3x4xi8>) outs(%f : tensor<2x4xi8>) -> tensor<2x4xi8>
  %g = tensor.empty() : tensor<1x2x4xi8>
  %q = linalg.batch_matmul ins(%l, %m : tensor<1x2x3xi8>, tensor<1x3x4xi8>) outs(%g : tensor<1x2x4xi8>) -> tensor<1x2x4xi8>
  %w = linalg.broadcast ins(%k : tensor<4xi8>) outs(%e : tensor<2x4xi8>) dimensions = [0]
  %h = tensor.empty() : tensor<4x2xi8>
  %u = linalg.transpose ins(%w : tensor<2x4xi8>) outs(%h : tensor<4x2xi8>) permutation = [1, 0]
  %r = linalg.generic {indexing_maps = [#a, #b, #a], iterator_types = [\"parallel\", \"parallel\"]} ins(%p, %u : tensor<2x4xi8>, tensor<4x2xi8>) outs(%f : tensor<2x4xi8>) {
  ^bb0(%x: i8, %y: i8, %z: i8):
    %v = arith.muli %x, %y : i8
    %i = arith.addi %c, %v : i8
    linalg.yield %i : i8
  } -> tensor<2x4xi8>
  return %r, %u : tensor<2x4xi8>, tensor<4x2xi8>
}
";

const NAMED_PRINTED: &str = "#map = affine_map<(d0, d1) -> (d0, d1)>
#map1 = affine_map<(d0, d1) -> (d1, d0)>
module {
  func.func @f(%arg0: tensor<2x3xi8>, %arg1: tensor<3x4xi8>, %arg2: tensor<1x2x3xi8>, %arg3: tensor<1x3x4xi8>) -> (tensor<2x4xi8>, tensor<4x2xi8>) {
    %0 = arith.constant -1 : i8
    %1 = arith.constant true
    %2 = arith.constant dense<7> : tensor<3xi8>
    %3 = arith.constant dense<[[true], [false]]> : tensor<2x1xi1>
    %4 = arith.constant dense<[[1, -1], [2, -128]]> : tensor<2x2xi8>
    %5 = arith.constant dense<> : tensor<2x0xi8>
    %6 = arith.constant dense<[4, 3, 2, 1]> : tensor<4xi8>
    %7 = tensor.empty() : tensor<2x4xi8>
    %8 = linalg.fill ins(%0 : i8) outs(%7 : tensor<2x4xi8>) -> tensor<2x4xi8>
    %9 = linalg.matmul ins(%arg0, %arg1 : tensor<2x3xi8>, tensor<3x4xi8>) outs(%8 : tensor<2x4xi8>) -> tensor<2x4xi8>
    %10 = tensor.empty() : tensor<1x2x4xi8>
    %11 = linalg.batch_matmul ins(%arg2, %arg3 : tensor<1x2x3xi8>, tensor<1x3x4xi8>) outs(%10 : tensor<1x2x4xi8>) -> tensor<1x2x4xi8>
    %12 = linalg.broadcast ins(%6 : tensor<4xi8>) outs(%7 : tensor<2x4xi8>) dimensions = [0]
    %13 = tensor.empty() : tensor<4x2xi8>
    %14 = linalg.transpose ins(%12 : tensor<2x4xi8>) outs(%13 : tensor<4x2xi8>) permutation = [1, 0]
    %15 = linalg.generic {indexing_maps = [#map, #map1, #map], iterator_types = [\"parallel\", \"parallel\"]} ins(%9, %14 : tensor<2x4xi8>, tensor<4x2xi8>) outs(%8 : tensor<2x4xi8>) {
    ^bb0(%arg4: i8, %arg5: i8, %arg6: i8):
      %16 = arith.muli %arg4, %arg5 : i8
      %17 = arith.constant -1 : i8
      %18 = arith.addi %17, %16 : i8
      linalg.yield %18 : i8
    } -> tensor<2x4xi8>
    return %15, %14 : tensor<2x4xi8>, tensor<4x2xi8>
  }
}
";

/// A payload with each step.
const STEPS: &str = "#map = affine_map<(d0) -> (d0)>
#map1 = affine_map<(d0, d1) -> (d0 * 2 - d1 + 5)>
#map2 = affine_map<() -> (7)>
module {
  func.func @steps(%arg0: tensor<2xi8>, %arg1: tensor<2xi16>) -> tensor<2xi8> {
    %0 = linalg.generic {indexing_maps = [#map, #map, #map], iterator_types = [\"parallel\"]} ins(%arg0, %arg1 : tensor<2xi8>, tensor<2xi16>) outs(%arg0 : tensor<2xi8>) {
    ^bb0(%arg2: i8, %arg3: i16, %arg4: i8):
      %1 = arith.addi %arg2, %arg4 : i8
      %2 = arith.subi %1, %arg4 : i8
      %3 = arith.muli %2, %arg4 : i8
      %4 = arith.divsi %3, %arg4 : i8
      %5 = arith.divui %4, %arg4 : i8
      %6 = arith.remsi %5, %arg4 : i8
      %7 = arith.remui %6, %arg4 : i8
      %8 = arith.andi %7, %arg4 : i8
      %9 = arith.ori %8, %arg4 : i8
      %10 = arith.xori %9, %arg4 : i8
      %11 = arith.shli %10, %arg4 : i8
      %12 = arith.shrsi %11, %arg4 : i8
      %13 = arith.shrui %12, %arg4 : i8
      %14 = arith.maxsi %13, %arg4 : i8
      %15 = arith.maxui %14, %arg4 : i8
      %16 = arith.minsi %15, %arg4 : i8
      %17 = arith.minui %16, %arg4 : i8
      %18 = arith.cmpi eq, %17, %arg2 : i8
      %19 = arith.cmpi ne, %17, %arg2 : i8
      %20 = arith.cmpi slt, %17, %arg2 : i8
      %21 = arith.cmpi sle, %17, %arg2 : i8
      %22 = arith.cmpi sgt, %17, %arg2 : i8
      %23 = arith.cmpi sge, %17, %arg2 : i8
      %24 = arith.cmpi ult, %17, %arg2 : i8
      %25 = arith.cmpi ule, %17, %arg2 : i8
      %26 = arith.cmpi ugt, %17, %arg2 : i8
      %27 = arith.cmpi uge, %17, %arg2 : i8
      %28 = arith.select %27, %17, %arg4 : i8
      %29 = arith.constant false
      %30 = arith.constant -128 : i8
      %31 = arith.constant -2147483648 : index
      %32 = linalg.index 0 : index
      %33 = arith.index_cast %arg3 : i16 to index
      %34 = affine.apply #map1(%32, %33)
      %35 = affine.apply #map2()
      %36 = arith.index_cast %34 : index to i8
      %37 = arith.extsi %36 : i8 to i16
      %38 = arith.extui %37 : i16 to i64
      %39 = arith.trunci %38 : i64 to i8
      linalg.yield %39 : i8
    } -> tensor<2xi8>
    return %0 : tensor<2xi8>
  }
}
";

/// A script with each step.
const SCRIPT: &str = "func.func @none() { return }
module attributes {transform.with_named_sequence} {
transform.named_sequence @__transform_main(%m: !transform.any_op {transform.readonly}) {
  %a = transform.structured.match ops{[\"linalg.generic\", \"func.func\"]} in %m : (!transform.any_op) -> !transform.any_op
  %b, %c = transform.split_handle %a : (!transform.any_op) -> (!transform.any_op, !transform.any_op)
  %d = transform.structured.generalize %b : (!transform.any_op) -> !transform.any_op
  %e = transform.structured.interchange %d iterator_interchange = [1, 0] : (!transform.any_op) -> !transform.any_op
  %f:3 = transform.structured.tile_using_for %e [4, -0, 8] : (!transform.any_op) -> (!transform.any_op, !transform.any_op, !transform.any_op)
  %g, %h = transform.structured.tile_using_forall %f#0 tile_sizes [4, 8] : (!transform.any_op) -> (!transform.any_op, !transform.any_op)
  %i, %j = transform.structured.fuse_into_containing_op %c into %h : (!transform.any_op, !transform.any_op) -> (!transform.any_op, !transform.any_op)
  %k, %l, %n = transform.structured.pad %i {padding_values = [-128 : i8, 255 : i8], padding_dimensions = [0, 2], copy_back_op = \"none\"} : (!transform.any_op) -> (!transform.any_op, !transform.any_op, !transform.any_op)
  %o = transform.structured.pack %k packed_sizes = [8, 1048576] : (!transform.any_op) -> !transform.any_op
  transform.structured.vectorize %o vector_sizes [8, 8] : !transform.any_op
  transform.structured.vectorize %g : !transform.any_op
  %p = transform.apply_registered_pass \"linalg-fuse-elementwise-ops\" to %m : (!transform.any_op) -> !transform.any_op
  %q, %r, %s, %t = transform.split_handle %m : (!transform.any_op) -> (!transform.any_op, !transform.any_op, !transform.any_op, !transform.any_op)
  transform.yield
} }
";

const SCRIPT_PRINTED: &str = "module {
  func.func @none() {
    return
  }
  module attributes {transform.with_named_sequence} {
    transform.named_sequence @__transform_main(%arg0: !transform.any_op {transform.readonly}) {
      %0 = transform.structured.match ops{[\"linalg.generic\", \"func.func\"]} in %arg0 : (!transform.any_op) -> !transform.any_op
      %1:2 = transform.split_handle %0 : (!transform.any_op) -> (!transform.any_op, !transform.any_op)
      %2 = transform.structured.generalize %1#0 : (!transform.any_op) -> !transform.any_op
      %3 = transform.structured.interchange %2 iterator_interchange = [1, 0] : (!transform.any_op) -> !transform.any_op
      %4:3 = transform.structured.tile_using_for %3 tile_sizes [4, 0, 8] : (!transform.any_op) -> (!transform.any_op, !transform.any_op, !transform.any_op)
      %5:2 = transform.structured.tile_using_forall %4#0 tile_sizes [4, 8] : (!transform.any_op) -> (!transform.any_op, !transform.any_op)
      %6:2 = transform.structured.fuse_into_containing_op %1#1 into %5#1 : (!transform.any_op, !transform.any_op) -> (!transform.any_op, !transform.any_op)
      %7:3 = transform.structured.pad %6#0 {padding_values = [-128 : i8, 255 : i8], padding_dimensions = [0, 2], pad_to_multiple_of = [1, 1], copy_back_op = \"none\"} : (!transform.any_op) -> (!transform.any_op, !transform.any_op, !transform.any_op)
      %8 = transform.structured.pack %7#0 packed_sizes = [8, 1048576] : (!transform.any_op) -> !transform.any_op
      transform.structured.vectorize %8 vector_sizes [8, 8] : !transform.any_op
      transform.structured.vectorize %5#0 : !transform.any_op
      %9 = transform.apply_registered_pass \"linalg-fuse-elementwise-ops\" to %arg0 : (!transform.any_op) -> !transform.any_op
      %10:4 = transform.split_handle %arg0 : (!transform.any_op) -> (!transform.any_op, !transform.any_op, !transform.any_op, !transform.any_op)
      transform.yield
    }
  }
}
";

#[test]
fn printed_texts(rt: HostRuntime) -> Result<(), Fail> {
    for (text, printed) in [
        (WRITTEN, WRITTEN_PRINTED),
        (SEVERAL, SEVERAL_PRINTED),
        (NAMED, NAMED_PRINTED),
        (STEPS, STEPS),
        (SCRIPT, SCRIPT_PRINTED),
    ] {
        let found = answer(rt.alloc(), "", text, &[], 0)?;
        assert!(rt; found.as_str() == printed, "{found}");
        let again = answer(rt.alloc(), "", printed, &[], 0)?;
        assert!(rt; again.as_str() == printed, "{again}");
    }
    Ok(())
}
