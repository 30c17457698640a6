//! Elementwise fusion from a script: which pairs become one, what stands then, and why the step is refused.

use crate::answers::{answer, wrong_rows_under};
use crate::limits::repeated;
use std::alloc::{AllocError, Global};
use std::test::Fail;

/// The word under which scripts are applied.
const APPLIED: &str = "--transform-interpreter";

/// Three additions, one after the other.
const ADDITIONS: &str = "#id = affine_map<(d0) -> (d0)>
func.func @additions(%a: tensor<3xi32>) -> tensor<3xi32> {
  %p = linalg.generic {indexing_maps = [#id, #id], iterator_types = [\"parallel\"]} ins(%a : tensor<3xi32>) outs(%a : tensor<3xi32>) {
  ^bb0(%x: i32, %o: i32):
    %k = arith.constant 1 : i32
    %t = arith.addi %x, %k : i32
    linalg.yield %t : i32
  } -> tensor<3xi32>
  %q = linalg.generic {indexing_maps = [#id, #id], iterator_types = [\"parallel\"]} ins(%p : tensor<3xi32>) outs(%a : tensor<3xi32>) {
  ^bb0(%x: i32, %o: i32):
    %k = arith.constant 2 : i32
    %t = arith.addi %x, %k : i32
    linalg.yield %t : i32
  } -> tensor<3xi32>
  %r = linalg.generic {indexing_maps = [#id, #id], iterator_types = [\"parallel\"]} ins(%q : tensor<3xi32>) outs(%a : tensor<3xi32>) {
  ^bb0(%x: i32, %o: i32):
    %k = arith.constant 3 : i32
    %t = arith.addi %x, %k : i32
    linalg.yield %t : i32
  } -> tensor<3xi32>
  return %r : tensor<3xi32>
}
";

const ADDITIONS_PRINTED: &str = "#map = affine_map<(d0) -> (d0)>
module {
  func.func @additions(%arg0: tensor<3xi32>) -> tensor<3xi32> {
    %0 = linalg.generic {indexing_maps = [#map, #map], iterator_types = [\"parallel\"]} ins(%arg0 : tensor<3xi32>) outs(%arg0 : tensor<3xi32>) {
    ^bb0(%arg1: i32, %arg2: i32):
      %1 = arith.constant 1 : i32
      %2 = arith.addi %arg1, %1 : i32
      %3 = arith.constant 2 : i32
      %4 = arith.addi %2, %3 : i32
      %5 = arith.constant 3 : i32
      %6 = arith.addi %4, %5 : i32
      linalg.yield %6 : i32
    } -> tensor<3xi32>
    return %0 : tensor<3xi32>
  }
";

/// A producer whose output is turned, and which knows its coordinates.
const TURNED: &str = "#id = affine_map<(d0, d1) -> (d0, d1)>
#turned = affine_map<(d0, d1) -> (d1, d0)>
func.func @turned(%a: tensor<4x6xi64>, %b: tensor<6x4xi64>) -> tensor<6x4xi64> {
  %p = linalg.generic {indexing_maps = [#id, #turned], iterator_types = [\"parallel\", \"parallel\"]} ins(%a : tensor<4x6xi64>) outs(%b : tensor<6x4xi64>) {
  ^bb0(%x: i64, %o: i64):
    %i = linalg.index 0 : index
    %j = arith.index_cast %i : index to i64
    %t = arith.subi %x, %j : i64
    linalg.yield %t : i64
  } -> tensor<6x4xi64>
  %q = linalg.generic {indexing_maps = [#id, #id, #id], iterator_types = [\"parallel\", \"parallel\"]} ins(%b, %p : tensor<6x4xi64>, tensor<6x4xi64>) outs(%b : tensor<6x4xi64>) {
  ^bb0(%x: i64, %y: i64, %o: i64):
    %t = arith.subi %x, %y : i64
    linalg.yield %t : i64
  } -> tensor<6x4xi64>
  return %q : tensor<6x4xi64>
}
";

const TURNED_PRINTED: &str = "#map = affine_map<(d0, d1) -> (d0, d1)>
#map1 = affine_map<(d0, d1) -> (d1, d0)>
#map2 = affine_map<(d0) -> (d0)>
module {
  func.func @turned(%arg0: tensor<4x6xi64>, %arg1: tensor<6x4xi64>) -> tensor<6x4xi64> {
    %0 = linalg.generic {indexing_maps = [#map, #map1, #map], iterator_types = [\"parallel\", \"parallel\"]} ins(%arg1, %arg0 : tensor<6x4xi64>, tensor<4x6xi64>) outs(%arg1 : tensor<6x4xi64>) {
    ^bb0(%arg2: i64, %arg3: i64, %arg4: i64):
      %1 = linalg.index 1 : index
      %2 = affine.apply #map2(%1)
      %3 = arith.index_cast %2 : index to i64
      %4 = arith.subi %arg3, %3 : i64
      %5 = arith.subi %arg2, %4 : i64
      linalg.yield %5 : i64
    } -> tensor<6x4xi64>
    return %0 : tensor<6x4xi64>
  }
";

const SCRIPT: &str = "module attributes {transform.with_named_sequence} {
transform.named_sequence @__transform_main(%m: !transform.any_op {transform.readonly}) {
  %f = transform.structured.match ops{[\"func.func\"]} in %m : (!transform.any_op) -> !transform.any_op
  %g = transform.apply_registered_pass \"linalg-fuse-elementwise-ops\" to %f : (!transform.any_op) -> !transform.any_op
  transform.yield
} }
";

const SCRIPT_PRINTED: &str = "  module attributes {transform.with_named_sequence} {
    transform.named_sequence @__transform_main(%arg0: !transform.any_op {transform.readonly}) {
      %0 = transform.structured.match ops{[\"func.func\"]} in %arg0 : (!transform.any_op) -> !transform.any_op
      %1 = transform.apply_registered_pass \"linalg-fuse-elementwise-ops\" to %0 : (!transform.any_op) -> !transform.any_op
      transform.yield
    }
  }
}
";

#[test]
fn fused_texts(rt: HostRuntime) -> Result<(), Fail> {
    let alloc = rt.alloc();
    for (function, printed) in [(ADDITIONS, ADDITIONS_PRINTED), (TURNED, TURNED_PRINTED)] {
        let text = format!(in alloc; "{function}{SCRIPT}")?;
        let wanted = format!(in alloc; "{printed}{SCRIPT_PRINTED}")?;
        let found = answer(alloc, "", text.as_str(), &[APPLIED], 0)?;
        assert!(rt; found.as_str() == wanted.as_str(), "{found}");
    }
    Ok(())
}

/// Whether some pair of a text's function is fused.
fn is_fused(alloc: Global, text: &str) -> Result<bool, AllocError> {
    let whole = format!(in alloc; "{text}{SCRIPT}")?;
    let fused = answer(alloc, "", whole.as_str(), &[APPLIED], 0)?;
    let plain = answer(alloc, "", whole.as_str(), &[], 0)?;
    Ok(fused.ends_with("}\n") && fused.as_str() != plain.as_str())
}

/// Two operations of which the first has `~` steps and the other one.
const STEPS: &str = "func.func @f(%a: tensor<i32>) -> tensor<i32> {
%p = linalg.generic {indexing_maps = [affine_map<() -> ()>, affine_map<() -> ()>], iterator_types = []} ins(%a : tensor<i32>) outs(%a : tensor<i32>) {
^bb0(%x: i32, %o: i32): |%s~ = arith.constant 1 : i32
|linalg.yield %x : i32 } -> tensor<i32>
%q = linalg.generic {indexing_maps = [affine_map<() -> ()>, affine_map<() -> ()>], iterator_types = []} ins(%p : tensor<i32>) outs(%a : tensor<i32>) {
^bb0(%x: i32, %o: i32): %t = arith.addi %x, %x : i32 linalg.yield %t : i32 } -> tensor<i32>
return %q : tensor<i32> }
";

/// Two operations of which the first has `~` inputs and the other two.
const INPUTS: &str = "#m = affine_map<() -> ()>
func.func @f(%a: tensor<i32>) -> tensor<i32> {
%p = linalg.generic {indexing_maps = [#m, #m|, #m|], iterator_types = []} ins(%a|, %a| : tensor<i32>|, tensor<i32>|) outs(%a : tensor<i32>) {
^bb0(%x: i32|, %x~: i32|, %o: i32): linalg.yield %x : i32 } -> tensor<i32>
%q = linalg.generic {indexing_maps = [#m, #m, #m], iterator_types = []} ins(%a, %p : tensor<i32>, tensor<i32>) outs(%a : tensor<i32>) {
^bb0(%x: i32, %y: i32, %o: i32): linalg.yield %y : i32 } -> tensor<i32>
return %q : tensor<i32> }
";

/// A sum of three windows of eight elements, of which it would take all eight without its own extent; a sum over a dimension
/// that would be selected by nothing else; and a result that is used twice.
const KEPT: [&str; 3] = [
    "func.func @f(%a: tensor<8xi32>, %e: tensor<1x3xi32>, %s: tensor<i32>) -> tensor<i32> {
%p = linalg.generic {indexing_maps = [affine_map<(d0, d1) -> (d0 + d1)>, affine_map<(d0, d1) -> (d0, d1)>], iterator_types = [\"parallel\", \"parallel\"]} ins(%a : tensor<8xi32>) outs(%e : tensor<1x3xi32>) {
^bb0(%x: i32, %o: i32): linalg.yield %x : i32 } -> tensor<1x3xi32>
%q = linalg.generic {indexing_maps = [affine_map<(d0) -> (0, d0)>, affine_map<(d0) -> ()>], iterator_types = [\"reduction\"]} ins(%p : tensor<1x3xi32>) outs(%s : tensor<i32>) {
^bb0(%x: i32, %o: i32): %t = arith.addi %o, %x : i32 linalg.yield %t : i32 } -> tensor<i32>
return %q : tensor<i32> }
",
    "func.func @f(%a: tensor<7xi32>, %e: tensor<4xi32>, %s: tensor<i32>) -> tensor<i32> {
%p = linalg.generic {indexing_maps = [affine_map<(d0) -> (d0 * 2)>, affine_map<(d0) -> (d0)>], iterator_types = [\"parallel\"]} ins(%a : tensor<7xi32>) outs(%e : tensor<4xi32>) {
^bb0(%x: i32, %o: i32): linalg.yield %x : i32 } -> tensor<4xi32>
%q = linalg.generic {indexing_maps = [affine_map<(d0) -> (d0)>, affine_map<(d0) -> ()>], iterator_types = [\"reduction\"]} ins(%p : tensor<4xi32>) outs(%s : tensor<i32>) {
^bb0(%x: i32, %o: i32): %t = arith.addi %o, %x : i32 linalg.yield %t : i32 } -> tensor<i32>
return %q : tensor<i32> }
",
    "func.func @f(%a: tensor<3xi32>) -> (tensor<3xi32>, tensor<3xi32>) {
%p = linalg.generic {indexing_maps = [affine_map<(d0) -> (d0)>, affine_map<(d0) -> (d0)>], iterator_types = [\"parallel\"]} ins(%a : tensor<3xi32>) outs(%a : tensor<3xi32>) {
^bb0(%x: i32, %o: i32): %t = arith.addi %x, %x : i32 linalg.yield %t : i32 } -> tensor<3xi32>
%q = linalg.generic {indexing_maps = [affine_map<(d0) -> (d0)>, affine_map<(d0) -> (d0)>], iterator_types = [\"parallel\"]} ins(%p : tensor<3xi32>) outs(%a : tensor<3xi32>) {
^bb0(%x: i32, %o: i32): %t = arith.addi %x, %x : i32 linalg.yield %t : i32 } -> tensor<3xi32>
return %q, %p : tensor<3xi32>, tensor<3xi32> }
",
];

#[test]
fn fitting_pairs(rt: HostRuntime) -> Result<(), Fail> {
    let alloc = rt.alloc();
    for text in KEPT {
        assert!(rt; !is_fused(alloc, text)?, "{text}");
    }
    for (most, template) in [(1_023, STEPS), (61, INPUTS)] {
        let fits = repeated(alloc, most, template)?;
        assert!(rt; is_fused(alloc, fits.as_str())?, "{fits}");
        let wider = repeated(alloc, most + 1, template)?;
        assert!(rt; !is_fused(alloc, wider.as_str())?, "{wider}");
    }
    Ok(())
}

/// Divisions of `%x` whose result is used by an addition, and what the step is told to fuse; `~` is a handle's type.
const DIVISIONS: &str = "step 2 may-trap|%k = arith.divui %x, %y : i32~%f
ok|%c = arith.constant 3 : i32 %k = arith.divui %x, %c : i32~%f
step 2 may-trap|%c = arith.constant -1 : i32 %k = arith.divsi %x, %c : i32~%f
ok|%c = arith.constant -1 : i32 %k = arith.remsi %x, %c : i32~%f
step 2 wrong-kind|%c = arith.constant 3 : i32 %k = arith.divui %x, %c : i32~%m
";

#[test]
fn traps(rt: HostRuntime) -> Result<(), Fail> {
    let wrong = wrong_rows_under(
        rt.alloc(),
        &[APPLIED],
        DIVISIONS,
        "#id = affine_map<(d0) -> (d0)>
func.func @f(%a: tensor<6xi32>, %b: tensor<6xi32>) -> tensor<6xi32> {
%p = linalg.generic {indexing_maps = [#id, #id, #id], iterator_types = [\"parallel\"]} ins(%a, %b : tensor<6xi32>, tensor<6xi32>) outs(%a : tensor<6xi32>) {
^bb0(%x: i32, %y: i32, %o: i32): ",
        " linalg.yield %k : i32 } -> tensor<6xi32>
%q = linalg.generic {indexing_maps = [#id, #id], iterator_types = [\"parallel\"]} ins(%p : tensor<6xi32>) outs(%a : tensor<6xi32>) {
^bb0(%x: i32, %o: i32): %t = arith.addi %x, %x : i32 linalg.yield %t : i32 } -> tensor<6xi32>
return %q : tensor<6xi32> }
module attributes {transform.with_named_sequence} { transform.named_sequence @__transform_main(%m: !transform.any_op {transform.readonly}) {
%f = transform.structured.match ops{[\"func.func\"]} in %m : (!transform.any_op) -> !transform.any_op
%g = transform.apply_registered_pass \"linalg-fuse-elementwise-ops\" to ",
        " : (!transform.any_op) -> !transform.any_op transform.yield } }",
    )?;
    assert!(rt; wrong.is_empty(), "{wrong}");
    Ok(())
}
