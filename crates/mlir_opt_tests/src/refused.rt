//! Texts that are read, and texts with one fault each: where it is told, and as what.

use crate::answers::wrong_rows;
use std::test::Fail;

/// Tokens, files, functions and what they hold; `~` is a type.
const FILES: &str = "ok|
ok|module { } #m = affine_map<(d0) -> (d0)>
ok|#m = affine_map<(d0) -> (d0)> #n = affine_map<(d0) -> (d0)>
ok|func.func @f() { return } #m = affine_map<(d0) -> (d0)> func.func @g(%a: ~) -> (~, ~) { func.return %a, %a : ~, ~ }
ok|#m = affine_map<(d0) -> (d0)> module { func.func @f() { return } func.func @g() { return } } #n = affine_map<() -> ()>
ok|func.func @f(%a: tensor<0x1048576x1048576xi8>, %b: tensor<1x2x3x4x5x6x7x8xi64>, %c: tensor<2048x2048xi1>) { return }
1:1: byte|?
1:3: byte|a ; \"
1:3: unclosed|a \"; ;
1:34: byte|func.func @f(%a: ~) { /
1:1: unclosed|tensor<3xi32 {
1:18: unclosed|func.func @f(%a: tensor<2xi8
ok|func.func @f() { return } // \" \u{e4} tensor<
1:1: syntax|}
1:1: unsupported|fun @f
1:1: syntax|return
1:11: syntax|func.func f
1:16: syntax|module { module
1:10: unsupported|module { modul
1:18: syntax|module attributes
1:36: unsupported|module { func.func @f() { return } more
1:38: syntax|module { func.func @f() { return } } more
1:36: syntax|func.func @f() { return } func.func
1:27: unsupported|func.func @f() { return } more
1:12: syntax|module { } func.func @f() { return }
1:34: syntax|func.func @f() { return } module { }
1:79: syntax|func.func @f() { return } module attributes {transform.with_named_sequence} { }
1:12: syntax|module { } module { }
1:10: syntax|module { #m = affine_map<(d0) -> (d0)> }
1:57: twice|#m = affine_map<(d0) -> (d0)> func.func @f() { return } #m = affine_map<(d0) -> (d0)>
1:42: twice|#n = affine_map<(d0) -> (d0)> module { } #n = affine_map<(d0) -> (d0)>
1:37: twice|func.func @f() { return } func.func @f() { return }
1:46: twice|module { func.func @f() { return } func.func @f() { return } }
1:18: unsupported|func.func @f(%a: tensor<2xf32>) { return }
1:18: unsupported|func.func @f(%a: tensor<2xi65>) { return }
1:18: syntax|func.func @f(%a: tensor<?xi8>) { return }
1:18: syntax|func.func @f(%a: vector<2xi8>) { return }
1:18: syntax|func.func @f(%a: i8) { return }
1:14: syntax|func.func @f(%a#0: ~) { return }
1:31: syntax|func.func @f(%a: ~ %b
1:32: twice|func.func @f(%a: ~, %a: ~) { return }
1:32: syntax|func.func @f() -> (~) { return }
1:20: syntax|func.func @f() -> () { return }
1:45: unknown-name|func.func @f(%a: ~) { return %a, %b : ~, ~ }
1:64: type-differs|func.func @f(%a: ~) { return %a, %a : ~, tensor<2x1xi8> }
1:63: syntax|func.func @f(%a: ~) { return %a, %a : ~ }
1:58: syntax|func.func @f(%a: ~) { return %a : ~, ~ }
1:44: syntax|func.func @f(%a: ~) { return %a }
1:46: syntax|func.func @f(%a: ~) { return %a : }
1:67: unknown-name|func.func @f(%a: ~) { return } func.func @g() { return %a : ~ }
1:48: type-differs|func.func @f(%a: tensor<2x2xi8>) { return %a : tensor<1048577xi8> }
1:25: unknown-name|func.func @f() { return %q : ~ } more
1:34: unsupported|func.func @f(%a: ~) { scf.for %i return }
1:34: syntax|func.func @f(%a: ~) { linalg.yield return }
1:34: twice|func.func @f(%a: ~) { %a = tensor.empty() : ~ return }
limit results|func.func @f() -> (~, ~, ~, ~, ~, ~, ~, ~, ~, ~, ~, ~, ~, ~, ~, ~, ~) { return }
limit rank|func.func @f(%a: tensor<1x1x1x1x1x1x1x1x1048577xi8>) { return }
limit elements|func.func @f(%a: tensor<2048x2049xi8>) { return }
limit elements|func.func @f(%a: tensor<1048576x1048576x1048576x1048576xi8>) { return }
limit extent|func.func @f(%a: tensor<1048577x0xi8>) { return }
limit extent|func.func @f() { %e = tensor.empty() : tensor<99999999999999999999xi8> return }
verify V7 at 0|func.func @f(%a: ~) -> tensor<4xi8> { return %a : ~ }";

#[test]
fn files(rt: HostRuntime) -> Result<(), Fail> {
    let wrong = wrong_rows(rt.alloc(), FILES, "", "tensor<2xi8>", "")?;
    assert!(rt; wrong.is_empty(), "{wrong}");
    Ok(())
}

/// Maps of an alias.
const MAPS: &str = "ok|affine_map<(i, j)[n] -> (i + j * 2, n - 3)>
ok|affine_map<() -> ()> #b = affine_map<(d0)[] -> (-d0)>
2:1: syntax|
2:23: syntax|affine_map<(d0) -> (d0
2:21: syntax|affine_map<(d0) -> (mod)>
2:24: syntax|affine_map<(d0) -> (d0 floordiv2)>
2:17: syntax|affine_map<(d0, d0) -> ()>
2:17: syntax|affine_map<(d0)[d0] -> ()>
2:21: syntax|affine_map<(d0) -> (d1)>
2:24: unsupported|affine_map<(d0) -> (d0 mod 2)>
2:26: unsupported|affine_map<(mod) -> (mod mod 2)>
2:30: unsupported|affine_map<(d0, d1) -> (d0 * d1)>
2:37: unsupported|affine_map<(d0, d1) -> (d0 * (d1 + 1))>
2:34: unsupported|affine_map<() -> (2147483648 + 1 mod 2)>
2:21: number|affine_map<(d0) -> (2147483649)>
2:40: number|affine_map<() -> (2147483648 + 1 * 0 + 1)>
2:27: number|affine_map<() -> (65536 * 65536 * 0)>
2:31: number|affine_map<(d0) -> (d0 - d0 * 3000000000000000000000000)>
2:26: number|affine_map<(d0) -> (d0 * 5000000000
2:34: number|affine_map<(d0) -> (2147483648 + 1, d0)>
2:36: syntax|affine_map<(d0) -> (2147483648 + 1 %x
2:47: syntax|affine_map<(d0) -> (d0)> #b = affine_map<(d0, d0) -> (%x
2:26: twice|affine_map<(d0) -> (d0)> #a = affine_map<(d0, d0) -> (d0)>";

/// Parentheses inside 32 others.
const DEPTHS: &str = "ok|((((((((((((((((((((((((((((((((1))))))))))))))))))))))))))))))))
2:33: syntax|(((((((((((((((((((((((((((((((((1)))))))))))))))))))))))))))))))))";

#[test]
fn maps(rt: HostRuntime) -> Result<(), Fail> {
    let mut wrong = wrong_rows(rt.alloc(), MAPS, "#a =\n", "", "")?;
    let before = "#a = affine_map<() -> (((((((((((((((((((((((((((((((((\n";
    let deep = wrong_rows(
        rt.alloc(),
        DEPTHS,
        before,
        "",
        ")))))))))))))))))))))))))))))))))>",
    )?;
    wrong.push_str(deep.as_str())?;
    assert!(rt; wrong.is_empty(), "{wrong}");
    Ok(())
}

/// Constants and operations by name; `~` are a transposition's operands, or a broadcast's.
const OPERATIONS: &str = "ok|arith.constant -128 : i8
3:16: number|arith.constant 256 : i8
3:16: number|arith.constant -129 : i8
3:26: unsupported|arith.constant dense<> : tensor<2xi8>
3:32: unsupported|arith.constant dense<[1, 2]> : tensor<3xi8>
3:34: unsupported|arith.constant dense<[1, [2]]> : tensor<2xi8>
3:27: unsupported|arith.constant dense<1> : tensor<?xi8>
3:25: syntax|arith.constant dense<[1 2]> : tensor<2xi8>
3:30: syntax|arith.constant dense<[[[[[[[[[0]]]]]]]]]> : tensor<1xi8>
3:22: number|arith.constant dense<300> : tensor<2xi8>
3:22: number|arith.constant dense<true> : tensor<2xi8>
verify V2 at 0|linalg.broadcast ~ dimensions = [1048576]
3:83: number|linalg.broadcast ~ dimensions = [-1]
3:22: unknown-name|linalg.transpose ins(%q : tensor<2x3xi8>) outs(%o : tensor<3x2xi8>) permutation = [1, 0]
3:1: unsupported|arith.divsi %a
3:1: unsupported|tensor.fill
3:1: syntax|linalg.index";

#[test]
fn operations(rt: HostRuntime) -> Result<(), Fail> {
    let wrong = wrong_rows(
        rt.alloc(),
        OPERATIONS,
        "func.func @f(%a: tensor<2x3xi8>, %o: tensor<3x2xi8>) {\n%r =\n",
        "ins(%a : tensor<2x3xi8>) outs(%o : tensor<3x2xi8>)",
        " return }",
    )?;
    assert!(rt; wrong.is_empty(), "{wrong}");
    Ok(())
}

/// The maps, iterators and operands of a generic operation; `~` is its type.
const OPERANDS: &str = "ok|[#m, #m], iterator_types = [\"parallel\"]} ins(%a : ~) outs(%a : ~) {
verify V2 at 0|[], iterator_types = [\"parallel\"]} ins(%a : ~) outs(%a : ~) {
5:6: unknown-name|[#m, #n], iterator_types = [\"parallel\"]} ins(%a : ~) outs(%a : ~) {
5:2: unsupported|[#s, #s], iterator_types = [\"parallel\"]} ins(%a : ~) outs(%a : ~) {
5:17: syntax|[affine_map<(d0)[s0] -> (d0)>, #m], iterator_types = [\"parallel\"]} ins(%a : ~) outs(%a : ~) {
5:29: syntax|[#m, #m], iterator_types = [\"window\"]} ins(%b : ~) outs(%a : ~) {
5:46: unknown-name|[#m, #m], iterator_types = [\"parallel\"]} ins(%b : ~) outs(%a : ~) {
5:70: unknown-name|[#m, #m], iterator_types = [\"parallel\"]} ins(%a : ~) outs(%r : ~) {
5:51: type-differs|[#m, #m], iterator_types = [\"parallel\"]} ins(%a : tensor<2xi16>) outs(%a : ~) {
5:75: type-differs|[#m, #m], iterator_types = [\"parallel\"]} ins(%a : ~) outs(%a : tensor<4xi8>) {
5:63: syntax|[#m, #m], iterator_types = [\"parallel\"]} ins(%a : ~, ~) outs(%a : ~) {
5:67: syntax|[#m, #m], iterator_types = [\"parallel\"]} ins(%a, %a : ~) outs(%a : ~) {
5:46: syntax|[#m, #m], iterator_types = [\"parallel\"]} ins() outs(%a : ~) {";

/// The arguments of its block.
const BLOCKS: &str = "6:16: syntax|(%x: i8, %y: i8, %z: i8)
6:8: syntax|(%x: i8)
6:10: twice|(%x: i8, %x: i8)
6:2: twice|(%a: i8, %y: i8)
6:6: type-differs|(%x: i16, %y: i8)
6:6: type-differs|(%x: index, %y: i8)
6:6: unsupported|(%x: i08, %y: i8)
6:6: unsupported|(%x: !llvm.ptr, %y: i8)
6:6: syntax|(%x: !transform.any_op, %y: i8)";

const FUNCTION: &str = "#m = affine_map<(d0) -> (d0)>
#s = affine_map<(d0)[s0] -> (d0 + s0)>
func.func @f(%a: tensor<2xi8>) -> tensor<2xi8> {
%r = linalg.generic {indexing_maps =
";

#[test]
fn generics(rt: HostRuntime) -> Result<(), Fail> {
    let alloc = rt.alloc();
    let ty = "tensor<2xi8>";
    let block =
        "^bb0(%x: i8, %y: i8): linalg.yield %x : i8 } -> tensor<2xi8> return %r : tensor<2xi8> }";
    let mut wrong = wrong_rows(alloc, OPERANDS, FUNCTION, ty, block)?;
    let before = format!(in alloc;
        "{FUNCTION}[#m, #m], iterator_types = [\"parallel\"]}} ins(%a : {ty}) outs(%a : {ty}) {{ ^bb0\n"
    )?;
    let behind = ": linalg.yield %x : i8 } -> tensor<2xi8> return %r : tensor<2xi8> }";
    let blocks = wrong_rows(alloc, BLOCKS, before.as_str(), ty, behind)?;
    wrong.push_str(blocks.as_str())?;
    assert!(rt; wrong.is_empty(), "{wrong}");
    Ok(())
}

/// Steps of a payload over `%x : i8`, `%y : i16` and `%z : i8`, the output; `~` is its yield.
const STEPS: &str = "ok|~
ok|linalg.yield %z : i8
ok|%s = arith.constant 255 : i8 linalg.yield %s : i8
ok|%s = arith.constant 0255 : i8 linalg.yield %s : i8
ok|%s = arith.constant -0 : i8 linalg.yield %s : i8
ok|%c = arith.constant -1 : i1 ~
ok|%i = arith.constant 18446744073709551615 : i64 ~
ok|%i = arith.constant -9223372036854775808 : i64 ~
ok|%i = arith.constant 2147483648 : index ~
ok|%i = arith.constant -2147483648 : index ~
verify V2 at 0|%i = linalg.index 1048576 : index ~
ok|%i = linalg.index 0 : index %j = affine.apply affine_map<(d0)[s0] -> (d0 * 2 + s0 - 5)>(%i)[%i] ~
ok|%j = affine.apply affine_map<() -> (7)>()[] ~
5:21: number|%s = arith.constant 256 : i8 ~
5:21: number|%s = arith.constant -129 : i8 ~
5:21: number|%s = arith.constant 2 : i1 ~
5:21: number|%s = arith.constant -2 : i1 ~
5:21: number|%s = arith.constant 18446744073709551616 : i64 ~
5:21: number|%s = arith.constant -9223372036854775809 : i64 ~
5:21: number|%s = arith.constant 2147483649 : index ~
5:21: number|%s = arith.constant -2147483649 : index ~
5:19: number|%s = linalg.index 1048577 : index ~
5:19: number|%s = linalg.index 99999999999999999999 : index ~
5:21: number|%r = arith.constant 256 : i8 ~
5:26: type-differs|%s = arith.addi %x, %y : i8 ~
5:27: type-differs|%s = arith.divsi %x, %z : i16 ~
5:27: type-differs|%s = arith.divsi %y, %z : i16 ~
5:31: type-differs|%s = arith.cmpi slt, %x, %z : i16 ~
5:31: type-differs|%s = arith.cmpi slt, %x, %y : i8 ~
5:52: type-differs|%s = arith.cmpi slt, %x, %z : i8 linalg.yield %s : i8
5:32: type-differs|%s = arith.select %x, %z, %x : i8 ~
5:57: type-differs|%c = arith.constant true %s = arith.select %c, %y, %x : i8 ~
5:57: type-differs|%c = arith.constant true %s = arith.select %c, %x, %y : i8 ~
5:23: type-differs|%s = arith.extsi %x : i16 to i32 ~
5:29: type-differs|%s = arith.extsi %x : i8 to i8 ~
5:30: type-differs|%s = arith.extui %y : i16 to i8 ~
5:30: type-differs|%s = arith.extui %y : i16 to index ~
5:30: type-differs|%s = arith.trunci %x : i8 to i16 ~
5:30: type-differs|%s = arith.trunci %x : i8 to i8 ~
5:34: type-differs|%s = arith.index_cast %x : i8 to i16 ~
5:65: type-differs|%i = linalg.index 0 : index %s = arith.index_cast %i : index to index ~
5:53: type-differs|%i = arith.constant 1 : index %s = arith.extsi %i : index to i64 ~
5:22: type-differs|%s = affine.apply #m(%x) ~
5:24: type-differs|%s = affine.apply #m()[%y] ~
5:19: type-differs|linalg.yield %y : i8
5:19: type-differs|linalg.yield %y : i16
5:19: type-differs|linalg.yield %x : i16
5:26: syntax|%s = arith.constant true : i1 ~
5:23: syntax|%s = linalg.index 0 : i8 ~
5:19: syntax|%s = linalg.index -1 : index ~
5:17: syntax|%s = arith.cmpi lt, %x, %z : i8 ~
5:20: syntax|%s = arith.addi %x : i8 ~
5:25: syntax|%s = arith.constant 256 ~
5:26: syntax|%s = arith.extsi %x : i8 ~
5:6: syntax|%s = affine.min #m(%x) ~
5:22: syntax|%s = affine.apply #m %x ~
5:24: syntax|%s = affine.apply #m() : index ~
5:1: syntax|return %x : i8
5:19: unsupported|%s = affine.apply #m() ~
5:47: unsupported|%i = linalg.index 0 : index %s = affine.apply #m(%i)[%i] ~
5:47: unsupported|%i = linalg.index 0 : index %s = affine.apply #m(%i)[%i] : index ~
5:19: unsupported|%s = affine.apply affine_map<() -> (1, 2)>() ~
5:6: unsupported|%s = arith.addf %x, %z : i8 ~
5:21: unsupported|%s = arith.subi %x, %a : i8 ~
5:27: unsupported|%s = arith.constant 256 : f32 ~
5:1: unsupported|linalg.yeld %x : i8
5:14: unsupported|linalg.yield %a : i8
5:14: unknown-name|linalg.yield %q : i8
5:21: unknown-name|%s = arith.subi %x, %q : i8 ~
5:17: unknown-name|%s = arith.subi %s, %x : i8 ~
5:17: unknown-name|%s = arith.subi %q, %y : i8 ~
5:19: unknown-name|%s = affine.apply #q() ~
5:1: twice|%x = arith.constant 1 : i8 ~
5:1: twice|%a = arith.constant 1 : i8 ~";

#[test]
fn payloads(rt: HostRuntime) -> Result<(), Fail> {
    let wrong = wrong_rows(
        rt.alloc(),
        STEPS,
        "#m = affine_map<(d0) -> (d0)>
func.func @f(%a: tensor<2xi8>, %b: tensor<2xi16>) -> tensor<2xi8> {
%r = linalg.generic {indexing_maps = [#m, #m, #m], iterator_types = [\"parallel\"]}
ins(%a, %b : tensor<2xi8>, tensor<2xi16>) outs(%a : tensor<2xi8>) { ^bb0(%x: i8, %y: i16, %z: i8):
",
        "linalg.yield %x : i8",
        " } -> tensor<2xi8> return %r : tensor<2xi8> }",
    )?;
    assert!(rt; wrong.is_empty(), "{wrong}");
    Ok(())
}
