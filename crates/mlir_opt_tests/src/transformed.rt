//! Scripts that are applied: what they give, and why a step is refused.

use crate::answers::{answer, wrong_rows, wrong_rows_under};
use crate::limits::repeated;
use crate::printed::WRITTEN;
use std::test::Fail;

/// The word under which scripts are applied.
const APPLIED: &str = "--transform-interpreter";

/// A product, which becomes a generic operation.
const PRODUCT: &str =
    "func.func @product(%a: tensor<5x3xi32>, %b: tensor<3x7xi32>, %c: tensor<5x7xi32>) -> tensor<5x7xi32> {
  %r = linalg.matmul ins(%a, %b : tensor<5x3xi32>, tensor<3x7xi32>) outs(%c : tensor<5x7xi32>) -> tensor<5x7xi32>
  return %r : tensor<5x7xi32>
}
module attributes {transform.with_named_sequence} {
transform.named_sequence @__transform_main(%m: !transform.any_op {transform.readonly}) {
  %g = transform.structured.match ops{[\"linalg.matmul\"]} in %m : (!transform.any_op) -> !transform.any_op
  %h = transform.structured.generalize %g : (!transform.any_op) -> !transform.any_op
  transform.yield
} }
";

const PRODUCT_PRINTED: &str = "#map = affine_map<(d0, d1, d2) -> (d0, d2)>
#map1 = affine_map<(d0, d1, d2) -> (d2, d1)>
#map2 = affine_map<(d0, d1, d2) -> (d0, d1)>
module {
  func.func @product(%arg0: tensor<5x3xi32>, %arg1: tensor<3x7xi32>, %arg2: tensor<5x7xi32>) -> tensor<5x7xi32> {
    %0 = linalg.generic {indexing_maps = [#map, #map1, #map2], iterator_types = [\"parallel\", \"parallel\", \"reduction\"]} ins(%arg0, %arg1 : tensor<5x3xi32>, tensor<3x7xi32>) outs(%arg2 : tensor<5x7xi32>) {
    ^bb0(%arg3: i32, %arg4: i32, %arg5: i32):
      %1 = arith.muli %arg3, %arg4 : i32
      %2 = arith.addi %arg5, %1 : i32
      linalg.yield %2 : i32
    } -> tensor<5x7xi32>
    return %0 : tensor<5x7xi32>
  }
  module attributes {transform.with_named_sequence} {
    transform.named_sequence @__transform_main(%arg0: !transform.any_op {transform.readonly}) {
      %0 = transform.structured.match ops{[\"linalg.matmul\"]} in %arg0 : (!transform.any_op) -> !transform.any_op
      %1 = transform.structured.generalize %0 : (!transform.any_op) -> !transform.any_op
      transform.yield
    }
  }
}
";

/// An operation that knows its coordinates, with its dimensions in another order, and uses of its result.
const COORDINATES: &str = "#id = affine_map<(d0, d1) -> (d0, d1)>
func.func @coordinates(%a: tensor<4x6xi64>) -> (tensor<4x6xi64>, tensor<4x6xi64>) {
  %r = linalg.generic {indexing_maps = [#id], iterator_types = [\"parallel\", \"parallel\"]} outs(%a : tensor<4x6xi64>) {
  ^bb0(%x: i64):
    %i = linalg.index 0 : index
    %s = arith.index_cast %i : index to i64
    linalg.yield %s : i64
  } -> tensor<4x6xi64>
  return %r, %r : tensor<4x6xi64>, tensor<4x6xi64>
}
module attributes {transform.with_named_sequence} {
transform.named_sequence @__transform_main(%m: !transform.any_op {transform.readonly}) {
  %g = transform.structured.match ops{[\"linalg.generic\"]} in %m : (!transform.any_op) -> !transform.any_op
  %h = transform.structured.interchange %g iterator_interchange = [1, 0] : (!transform.any_op) -> !transform.any_op
  transform.yield
} }
";

const COORDINATES_PRINTED: &str = "#map = affine_map<(d0, d1) -> (d1, d0)>
module {
  func.func @coordinates(%arg0: tensor<4x6xi64>) -> (tensor<4x6xi64>, tensor<4x6xi64>) {
    %0 = linalg.generic {indexing_maps = [#map], iterator_types = [\"parallel\", \"parallel\"]} outs(%arg0 : tensor<4x6xi64>) {
    ^bb0(%arg1: i64):
      %1 = linalg.index 1 : index
      %2 = arith.index_cast %1 : index to i64
      linalg.yield %2 : i64
    } -> tensor<4x6xi64>
    return %0, %0 : tensor<4x6xi64>, tensor<4x6xi64>
  }
  module attributes {transform.with_named_sequence} {
    transform.named_sequence @__transform_main(%arg0: !transform.any_op {transform.readonly}) {
      %0 = transform.structured.match ops{[\"linalg.generic\"]} in %arg0 : (!transform.any_op) -> !transform.any_op
      %1 = transform.structured.interchange %0 iterator_interchange = [1, 0] : (!transform.any_op) -> !transform.any_op
      transform.yield
    }
  }
}
";

#[test]
fn transformed_texts(rt: HostRuntime) -> Result<(), Fail> {
    for (text, printed) in [
        (PRODUCT, PRODUCT_PRINTED),
        (COORDINATES, COORDINATES_PRINTED),
    ] {
        let found = answer(rt.alloc(), "", text, &[APPLIED], 0)?;
        assert!(rt; found.as_str() == printed, "{found}");
        let again = answer(rt.alloc(), "", printed, &[], 0)?;
        assert!(rt; again.as_str() == printed, "{again}");
    }
    let found = answer(rt.alloc(), "", WRITTEN, &[APPLIED], 1)?;
    assert!(rt; found.as_str() == "error: no script\n", "{found}");
    Ok(())
}

/// Reductions of `%x` into `%y` by an operation, with their dimensions in an order; `~` is what stands between the two.
const REDUCTIONS: &str = "step 2 reduction-order|arith.subi~[1, 0]
ok|arith.addi~[1, 0]
ok|arith.subi~[0, 1]
step 2 permutation|arith.addi~[0, 0]
step 2 permutation|arith.addi~[0]
step 2 permutation|arith.addi~[0, 1, 2]";

/// Steps behind `%g`, which names a generic operation with two parallel dimensions, and `%p`, which names a product; `~` is
/// a handle's type.
const STEPS: &str = "ok|
ok|%h = transform.structured.interchange %g iterator_interchange = [1, 0] : (~) -> ~
ok|%h = transform.structured.generalize %g : (~) -> ~ %i = transform.structured.generalize %h : (~) -> ~
ok|%h = transform.structured.generalize %p : (~) -> ~ %i = transform.structured.interchange %h iterator_interchange = [2, 0, 1] : (~) -> ~
ok|%n = transform.structured.match ops{[\"linalg.fill\"]} in %m : (~) -> ~ %h = transform.structured.generalize %n : (~) -> ~
step 3 permutation|%h = transform.structured.interchange %g iterator_interchange = [0, 0] : (~) -> ~
step 3 wrong-kind|%h = transform.structured.interchange %p iterator_interchange = [0, 0] : (~) -> ~
step 3 wrong-kind|%h = transform.structured.generalize %m : (~) -> ~
step 4 wrong-kind|%f = transform.structured.match ops{[\"func.func\"]} in %m : (~) -> ~ %h = transform.structured.generalize %f : (~) -> ~
step 4 wrong-kind|%b = transform.structured.match ops{[\"linalg.generic\", \"linalg.matmul\"]} in %m : (~) -> ~ %h = transform.structured.interchange %b iterator_interchange = [1, 0] : (~) -> ~
step 3 handle-count|%h, %i = transform.split_handle %g : (~) -> (~, ~)
step 4 handle-dead|%h = transform.structured.generalize %p : (~) -> ~ %i = transform.structured.generalize %p : (~) -> ~
step 5 handle-dead|%q = transform.structured.match ops{[\"linalg.matmul\"]} in %m : (~) -> ~ %h = transform.structured.generalize %p : (~) -> ~ %i = transform.structured.generalize %q : (~) -> ~
ok|%f = transform.structured.match ops{[\"func.func\"]} in %m : (~) -> ~ %h = transform.apply_registered_pass \"linalg-fuse-elementwise-ops\" to %f : (~) -> ~
step 3 wrong-kind|%h = transform.apply_registered_pass \"linalg-fuse-elementwise-ops\" to %m : (~) -> ~
step 3 wrong-kind|%h = transform.apply_registered_pass \"linalg-fuse-elementwise-ops\" to %g : (~) -> ~
step 5 handle-dead|%f = transform.structured.match ops{[\"func.func\"]} in %m : (~) -> ~ %h = transform.apply_registered_pass \"linalg-fuse-elementwise-ops\" to %f : (~) -> ~ %i = transform.structured.generalize %p : (~) -> ~
step 3 unsupported|%t, %l = transform.structured.tile_using_for %g tile_sizes [2] : (~) -> (~, ~)
step 4 unsupported|%h = transform.structured.interchange %g iterator_interchange = [0, 0] : (~) -> ~ %i = transform.structured.pack %h packed_sizes = [2] : (~) -> ~";

/// What stands around these steps.
const BEFORE: &str = "#id = affine_map<(d0, d1) -> (d0, d1)>
func.func @f(%a: tensor<4x6xi32>, %b: tensor<6x4xi32>, %c: tensor<4x4xi32>) -> (tensor<4x6xi32>, tensor<4x4xi32>) {
  %r = linalg.generic {indexing_maps = [#id, #id], iterator_types = [\"parallel\", \"parallel\"]} ins(%a : tensor<4x6xi32>) outs(%a : tensor<4x6xi32>) {
  ^bb0(%x: i32, %y: i32):
    linalg.yield %x : i32
  } -> tensor<4x6xi32>
  %s = linalg.matmul ins(%a, %b : tensor<4x6xi32>, tensor<6x4xi32>) outs(%c : tensor<4x4xi32>) -> tensor<4x4xi32>
  return %r, %s : tensor<4x6xi32>, tensor<4x4xi32>
}
module attributes {transform.with_named_sequence} {
transform.named_sequence @__transform_main(%m: !transform.any_op {transform.readonly}) {
  %g = transform.structured.match ops{[\"linalg.generic\"]} in %m : (!transform.any_op) -> !transform.any_op
  %p = transform.structured.match ops{[\"linalg.matmul\"]} in %m : (!transform.any_op) -> !transform.any_op
";

const BEHIND: &str = "\ntransform.yield } }";

#[test]
fn steps(rt: HostRuntime) -> Result<(), Fail> {
    let alloc = rt.alloc();
    let mut wrong = wrong_rows_under(
        alloc,
        &[APPLIED],
        REDUCTIONS,
        "func.func @f(%a: tensor<2x3xi32>, %b: tensor<i32>) -> tensor<i32> {
%r = linalg.generic {indexing_maps = [affine_map<(d0, d1) -> (d0, d1)>, affine_map<(d0, d1) -> ()>], iterator_types = [\"reduction\", \"reduction\"]}
ins(%a : tensor<2x3xi32>) outs(%b : tensor<i32>) { ^bb0(%x: i32, %y: i32): %s = ",
        " %y, %x : i32 linalg.yield %s : i32 } -> tensor<i32> return %r : tensor<i32> }
module attributes {transform.with_named_sequence} { transform.named_sequence @__transform_main(%m: !transform.any_op {transform.readonly}) {
%g = transform.structured.match ops{[\"linalg.generic\"]} in %m : (!transform.any_op) -> !transform.any_op
%h = transform.structured.interchange %g iterator_interchange = ",
        " : (!transform.any_op) -> !transform.any_op transform.yield } }",
    )?;
    let others = wrong_rows_under(
        alloc,
        &[APPLIED],
        STEPS,
        BEFORE,
        "!transform.any_op",
        BEHIND,
    )?;
    wrong.push_str(others.as_str())?;
    // Without the word no script is applied, and so no step is refused.
    let unapplied = wrong_rows(
        alloc,
        "ok|%h = transform.structured.generalize %m : (~) -> ~",
        BEFORE,
        "!transform.any_op",
        BEHIND,
    )?;
    wrong.push_str(unapplied.as_str())?;
    assert!(rt; wrong.is_empty(), "{wrong}");
    Ok(())
}

#[test]
fn many_steps(rt: HostRuntime) -> Result<(), Fail> {
    // The dimensions change places 512 times, so that the operation is what it was.
    let template = "#id = affine_map<(d0, d1) -> (d0, d1)>
func.func @f(%a: tensor<4x6xi32>) -> tensor<4x6xi32> {
  %r = linalg.generic {indexing_maps = [#id], iterator_types = [\"parallel\", \"parallel\"]} outs(%a : tensor<4x6xi32>) { ^bb0(%x: i32): linalg.yield %x : i32 } -> tensor<4x6xi32>
  return %r : tensor<4x6xi32>
}
module attributes {transform.with_named_sequence} { transform.named_sequence @__transform_main(%m: !transform.any_op {transform.readonly}) {
|%g~ = transform.structured.match ops{[\"linalg.generic\"]} in %m : (!transform.any_op) -> !transform.any_op
%h~ = transform.structured.interchange %g~ iterator_interchange = [1, 0] : (!transform.any_op) -> !transform.any_op
|transform.yield } }";
    let text = repeated(rt.alloc(), 512, template)?;
    let found = answer(rt.alloc(), "", text.as_str(), &[APPLIED], 0)?;
    let same = answer(rt.alloc(), "", text.as_str(), &[], 0)?;
    assert!(rt;
        found.as_str() == same.as_str() && found.ends_with("}\n"),
        "{found}"
    );
    Ok(())
}
