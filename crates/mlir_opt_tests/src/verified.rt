//! Modules that keep the verifier's rules, and modules that break one.

use crate::answers::wrong_rows;
use std::test::Fail;

/// Named and generic operations, scalars, extents of 0 and rank 0; `~` is the output of a generic operation that yields its
/// first argument.
const OPERATIONS: &str =
    "ok|%r = linalg.matmul ins(%a, %b : tensor<2x3xi8>, tensor<3x4xi8>) outs(%o : tensor<2x4xi8>) -> tensor<2x4xi8>
verify V7 at 0|%r = linalg.matmul ins(%a, %a : tensor<2x3xi8>, tensor<2x3xi8>) outs(%o : tensor<2x4xi8>) -> tensor<2x4xi8>
verify V2 at 0|%r = linalg.matmul ins(%a, %v : tensor<2x3xi8>, tensor<2xi8>) outs(%o : tensor<2x4xi8>) -> tensor<2x4xi8>
verify V2 at 0|%r = linalg.batch_matmul ins(%a, %b : tensor<2x3xi8>, tensor<3x4xi8>) outs(%o : tensor<2x4xi8>) -> tensor<2x4xi8>
ok|%r = linalg.batch_matmul ins(%e, %e : tensor<1x0x0xi8>, tensor<1x0x0xi8>) outs(%e : tensor<1x0x0xi8>) -> tensor<1x0x0xi8>
ok|%r = linalg.transpose ins(%a : tensor<2x3xi8>) outs(%t : tensor<3x2xi8>) permutation = [1, 0]
verify V2 at 0|%r = linalg.transpose ins(%a : tensor<2x3xi8>) outs(%t : tensor<3x2xi8>) permutation = [0, 0]
verify V7 at 0|%r = linalg.transpose ins(%a : tensor<2x3xi8>) outs(%t : tensor<3x2xi8>) permutation = [0, 1]
ok|%r = linalg.broadcast ins(%v : tensor<2xi8>) outs(%a : tensor<2x3xi8>) dimensions = [1]
verify V7 at 0|%r = linalg.broadcast ins(%v : tensor<2xi8>) outs(%a : tensor<2x3xi8>) dimensions = [0]
verify V2 at 0|%r = linalg.broadcast ins(%v : tensor<2xi8>) outs(%a : tensor<2x3xi8>) dimensions = [2]
ok|%c = arith.constant 1 : i8 %r = linalg.fill ins(%c : i8) outs(%s : tensor<i8>) -> tensor<i8>
verify V2 at 1|%c = arith.constant 1 : i16 %r = linalg.fill ins(%c : i16) outs(%s : tensor<i8>) -> tensor<i8>
ok|%c = arith.constant 1 : i8 %r = linalg.generic {indexing_maps = [affine_map<(d0) -> ()>, #i], iterator_types = [\"parallel\"]} ins(%c : i8) ~
verify V5 at 1|%c = arith.constant 1 : i8 %r = linalg.generic {indexing_maps = [#i, #i], iterator_types = [\"parallel\"]} ins(%c : i8) ~
ok|%r = linalg.generic {indexing_maps = [affine_map<(d0) -> (d0 + 1)>, #i], iterator_types = [\"parallel\"]} ins(%w : tensor<3xi8>) ~
verify V8 at 0|%r = linalg.generic {indexing_maps = [affine_map<(d0) -> (d0 + 1)>, #i], iterator_types = [\"parallel\"]} ins(%v : tensor<2xi8>) ~
verify V8 at 0|%r = linalg.generic {indexing_maps = [affine_map<(d0) -> (3)>, #i], iterator_types = [\"parallel\"]} ins(%w : tensor<3xi8>) ~
verify V7 at 0|%r = linalg.generic {indexing_maps = [#i, #i], iterator_types = [\"parallel\"]} ins(%w : tensor<3xi8>) ~
verify V6 at 0|%r = linalg.generic {indexing_maps = [#i, #i], iterator_types = [\"reduction\"]} ins(%v : tensor<2xi8>) ~
verify V5 at 0|%r = linalg.generic {indexing_maps = [affine_map<(d0) -> (d0 * 2)>, affine_map<(d0) -> (d0 * 2)>], iterator_types = [\"parallel\"]} ins(%v : tensor<2xi8>) ~
ok|%r = linalg.generic {indexing_maps = [affine_map<(d0, d1) -> (d1, d0)>, affine_map<(d0, d1) -> (d0)>], iterator_types = [\"parallel\", \"reduction\"]} ins(%z : tensor<0x2xi8>) ~
verify V5 at 1|%c = arith.constant 1 : i8 %r = linalg.generic {indexing_maps = [affine_map<(d0, d1) -> ()>, affine_map<(d0, d1) -> (d0)>], iterator_types = [\"parallel\", \"reduction\"]} ins(%c : i8) ~";

#[test]
fn rules(rt: HostRuntime) -> Result<(), Fail> {
    let wrong = wrong_rows(
        rt.alloc(),
        OPERATIONS,
        "#i = affine_map<(d0) -> (d0)> func.func @f(%a: tensor<2x3xi8>, %b: tensor<3x4xi8>, %o: tensor<2x4xi8>,
%t: tensor<3x2xi8>, %e: tensor<1x0x0xi8>, %s: tensor<i8>, %v: tensor<2xi8>, %w: tensor<3xi8>, %z: tensor<0x2xi8>) {
",
        "outs(%v : tensor<2xi8>) { ^bb0(%x: i8, %y: i8): linalg.yield %x : i8 } -> tensor<2xi8>",
        " return }",
    )?;
    assert!(rt; wrong.is_empty(), "{wrong}");
    Ok(())
}
