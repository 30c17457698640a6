//! A script alone, read and printed.

use mlir_lex::tokens;
use script_text::{read_script, script_text};
use std::alloc::{AllocError, Global};
use std::test::Fail;

/// The canonical text of a script of at most 1,000 bytes, if it is one.
fn printed(alloc: Global, text: &str) -> Result<String, AllocError> {
    if text.len() > 1000 {
        return Err(AllocError);
    }
    let Ok(lexed) = tokens(alloc, text.as_bytes()) else {
        return String::from_str(alloc, "no tokens");
    };
    match read_script(alloc, &lexed, 0) {
        Ok((script, _)) => match script_text(alloc, &script) {
            Ok(written) => String::from_utf8_lossy(alloc, written.as_slice()),
            Err(_) => Err(AllocError),
        },
        Err(_) => String::from_str(alloc, "no script"),
    }
}

const SCRIPT: &str =
    "transform.named_sequence @__transform_main(%m: !transform.any_op {transform.readonly}) {
%a = transform.structured.match ops{[\"linalg.generic\"]} in %m : (!transform.any_op) -> !transform.any_op
%b, %c = transform.split_handle %a : (!transform.any_op) -> (!transform.any_op, !transform.any_op)
transform.structured.vectorize %c : !transform.any_op transform.yield } func.func";

const PRINTED: &str =
    "transform.named_sequence @__transform_main(%arg0: !transform.any_op {transform.readonly}) {
  %0 = transform.structured.match ops{[\"linalg.generic\"]} in %arg0 : (!transform.any_op) -> !transform.any_op
  %1:2 = transform.split_handle %0 : (!transform.any_op) -> (!transform.any_op, !transform.any_op)
  transform.structured.vectorize %1#1 : !transform.any_op
  transform.yield
}";

#[test]
fn a_script_goes_round(rt: HostRuntime) -> Result<(), Fail> {
    let found = printed(rt.alloc(), SCRIPT)?;
    assert!(rt; found.as_str() == PRINTED, "{found}");
    let again = printed(rt.alloc(), PRINTED)?;
    assert!(rt; again.as_str() == PRINTED, "{again}");
    Ok(())
}
