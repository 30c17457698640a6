//! Where a file may hold a script, and scripts with one fault each.

use crate::answers::wrong_rows;
use std::test::Fail;

/// A script of one step.
const SCRIPT: &str =
    "transform.named_sequence @__transform_main(%m: !transform.any_op {transform.readonly}) { transform.structured.vectorize %m : !transform.any_op transform.yield }";

/// Files; `~` is a script.
const PLACES: &str = "ok|module attributes {transform.with_named_sequence} { ~ }
ok|module attributes {transform.with_named_sequence} { ~ func.func @f() { return } }
ok|module attributes {transform.with_named_sequence} { ~ } func.func @f() { return }
ok|module attributes {transform.with_named_sequence} { func.func @f() { return } ~ func.func @g() { return } }
ok|module attributes {transform.with_named_sequence} { module attributes {transform.with_named_sequence} { ~ } }
ok|func.func @f() { return } module attributes {transform.with_named_sequence} { ~ } func.func @g() { return }
ok|module { module attributes {transform.with_named_sequence} { ~ } func.func @f() { return } }
1:1: syntax|~
1:10: syntax|module { ~ }
1:214: syntax|module attributes {transform.with_named_sequence} { ~ transform.named_sequence }
1:214: syntax|module attributes {transform.with_named_sequence} { ~ module }
1:216: syntax|module attributes {transform.with_named_sequence} { ~ } module }
1:242: syntax|module attributes {transform.with_named_sequence} { func.func @f() { return } ~ } func.func @g() { return }
1:240: syntax|func.func @f() { return } module attributes {transform.with_named_sequence} { ~ func.func @g() { return } }
1:240: syntax|func.func @f() { return } module attributes {transform.with_named_sequence} { ~ builtin.unknown }
1:223: syntax|module { module attributes {transform.with_named_sequence} { ~ func.func @g() { return } } }
1:78: syntax|module attributes {transform.with_named_sequence} { transform.named_sequence @main()";

/// Steps over the root `%m`; `~` is a handle's type.
const STEPS: &str = "ok|
3:38: unknown-name|%a = transform.structured.generalize %a : (~) -> ~
3:1: twice|%m = transform.structured.generalize %m : (~) -> ~
3:5: twice|%a, %a = transform.split_handle %m : (~) -> (~, ~)
3:135: unknown-name|%t:2 = transform.split_handle %m : (~) -> (~, ~) %a = transform.structured.generalize %t#2 : (~) -> ~
3:4: number|%t:3 = transform.split_handle %x : (~) -> (~, ~)
3:144: syntax|%a, %b, %c, %d = transform.split_handle %m : (~) -> (~, ~, ~, ~, ~)
3:4: number|%t:1 = transform.split_handle %m : (~) -> (~)
3:6: unsupported|%a = transform.structured.fuse %m : (~) -> ~
3:38: unsupported|%a = transform.structured.match ops{[\"func.return\"]} in %m : (~) -> ~
3:6: syntax|%a = transform.structured.vectorize
3:10: syntax|%a, %b = transform.structured.pad
3:54: number|%a = transform.structured.pack %m packed_sizes = [8, 1048577] : (~) -> ~
3:61: number|%a, %b, %c = transform.structured.pad %m {padding_values = [-129 : i8], padding_dimensions = [0]
4:1: syntax|%a, %b, %c = transform.structured.pad %m {padding_values = [18446744073709551616 :";

const BEFORE: &str = "module attributes {transform.with_named_sequence} {
transform.named_sequence @__transform_main(%m: !transform.any_op {transform.readonly}) {
";

#[test]
fn scripts(rt: HostRuntime) -> Result<(), Fail> {
    let mut wrong = wrong_rows(rt.alloc(), PLACES, "", SCRIPT, "")?;
    let behind = "\ntransform.yield } }";
    let steps = wrong_rows(rt.alloc(), STEPS, BEFORE, "!transform.any_op", behind)?;
    wrong.push_str(steps.as_str())?;
    assert!(rt; wrong.is_empty(), "{wrong}");
    Ok(())
}
