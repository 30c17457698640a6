//! Limits: the most that is read, and one more. And each front of a text.

use crate::answers::answer;
use crate::printed::WRITTEN;
use std::alloc::{AllocError, Global};
use std::test::Fail;

/// The text of a template, whose every second part between `|` stands so often, with its number for each `~`.
pub fn repeated(alloc: Global, count: u32, template: &str) -> Result<String, AllocError> {
    let mut text = String::new(alloc);
    for (place, part) in template.split('|').enumerate() {
        if place % 2 == 0 {
            text.push_str(part)?;
            continue;
        }
        for number in 0..count {
            for (gap, piece) in part.split('~').enumerate() {
                if gap > 0 {
                    let digits = format!(in alloc; "{number}")?;
                    text.push_str(digits.as_str())?;
                }
                text.push_str(piece)?;
            }
        }
    }
    Ok(text)
}

#[test]
fn limits(rt: HostRuntime) -> Result<(), Fail> {
    let alloc = rt.alloc();
    for (word, most, template) in [
        (
            "bytes",
            65_536u32,
            "|///////////////////////////////////////////////////////////////\n|",
        ),
        (
            "operations",
            65_534,
            "func.func @f() { return }\nfunc.func @g() {\n|%r~ = tensor.empty() : tensor<1xi1>\n|return %q : tensor<i8> }",
        ),
        (
            "parameters",
            63,
            "func.func @f(%a: tensor<i8>|, %p~: tensor<i8>|) { return }",
        ),
        (
            "operands",
            62,
            "func.func @f(%a: tensor<i8>) { %r = linalg.generic {indexing_maps = [], iterator_types = []} \
ins(%a|, %a| : tensor<i8>|, tensor<i8>|) outs(%a : tensor<i8>) { ^bb0(%x: i8|, %x~: i8|, %y: i8): linalg.yield %x : i8 } -> tensor<i8> return }",
        ),
        (
            "payload-steps",
            1_024,
            "func.func @f(%a: tensor<i8>) { %r = linalg.generic {indexing_maps = [affine_map<() -> ()>], iterator_types = []} \
outs(%a : tensor<i8>) { ^bb0(%x: i8): |%s~ = arith.constant 1 : i16\n|linalg.yield %x : i8 } -> tensor<i8> return }",
        ),
        (
            "script-steps",
            1_024,
            "module attributes {transform.with_named_sequence} { transform.named_sequence @__transform_main\
(%m: !transform.any_op {transform.readonly}) { |transform.structured.vectorize %m : !transform.any_op |transform.yield } }",
        ),
    ] {
        let text = repeated(alloc, most, template)?;
        let found = answer(alloc, "", text.as_str(), &[], 1)?;
        assert!(rt; !found.starts_with("error: limit"), "{word}: {found}");
        let text = repeated(alloc, most.saturating_add(1), template)?;
        let found = answer(alloc, "", text.as_str(), &[], 1)?;
        let line = format!(in alloc; "error: limit {word}\n")?;
        assert!(rt; found.as_str() == line.as_str(), "{word}: {found}");
    }
    Ok(())
}

#[test]
fn fronts_are_refused(rt: HostRuntime) -> Result<(), Fail> {
    for end in 0..WRITTEN.len() {
        let front = WRITTEN.get(..end).ok_or("a front")?;
        let found = answer(rt.alloc(), "", front, &[], 1)?;
        // Nothing, the alias alone, and all but the last line feed are texts.
        let whole = end == 0 || end == 30 || end == 31 || end + 1 == WRITTEN.len();
        assert!(rt; found.starts_with("error: ") != whole, "{end}");
    }
    Ok(())
}
