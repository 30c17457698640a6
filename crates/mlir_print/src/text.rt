//! Functions and files.

ghost use Rattle.std.specs.Prelude.{◌≡◌, ◌++◌, ◌∷◌, [], OnOk, IfOk};
ghost use Rattle.mlir_print.specs.Names.{nothing};
ghost use Rattle.mlir_print.specs.Canonical.{after_params, text_of};
ghost use Rattle.mlir_print.specs.MapParts.{after_ops_texts, after_funcs_texts, after_op_texts};
ghost use Rattle.mlir_print.specs.Parts.{param_text, params_text, body_text, result_types_text, results_text, opening_text, signature_text, func_text, function_text, functions_text, rest_text, module_text, whole_text};

use crate::aliases::Aliases;
use crate::linear::add_generic;
use crate::names::{Given, Names};
use crate::operations::{define, write_line};
use crate::types::{write_name, write_type};
use mlir_base::{List, Memory};
use mlir_file::File;
use mlir_ir::{Func, Op, OpKind, Ty, ValueId};
use script_text::{Script, write_script};
use std::alloc::Global;

fn write_param(out: &mut Vec<u8>, names: &Names, ty: &Ty) -> Result<(), Memory>
    ensures { OnOk result (out.new.items ≡ out.old.items ++ param_text names.now ty.now) }
{
    write_name(out, Given::Argument(names.next_argument()))?;
    out.extend_from_slice(b": ")?;
    write_type(out, ty)
}

fn write_params<'a>(
    out: &mut Vec<u8>,
    names: &mut Names<'a>,
    params: &'a [(ValueId, Ty)],
) -> Result<(), Memory>
    ensures text { OnOk result (out.new.items ≡ out.old.items ++ params_text [] names.old params.now) }
    ensures names { OnOk result (names.new ≡ after_params names.old params.now) }
{
    let mut before: &[u8] = b"";
    for param in params {
        out.extend_from_slice(before)?;
        write_param(out, names, &param.1)?;
        names.add_argument(param.0, &param.1)?;
        before = b", ";
    }
    Ok(())
}

fn write_body<'a>(
    out: &mut Vec<u8>,
    aliases: &Aliases,
    names: &mut Names<'a>,
    body: &'a [Op],
) -> Result<(), Memory>
    ensures { OnOk result (out.new.items ≡ out.old.items ++ body_text aliases.now names.old body.now) }
{
    for op in body {
        out.extend_from_slice(b"\n    ")?;
        write_line(out, aliases, names, op)?;
        define(names, op)?;
    }
    Ok(())
}

fn write_result_types(out: &mut Vec<u8>, types: &[Ty]) -> Result<(), Memory>
    ensures { OnOk result (out.new.items ≡ out.old.items ++ result_types_text [] types.now) }
{
    let mut before: &[u8] = b"";
    for ty in types {
        out.extend_from_slice(before)?;
        write_type(out, ty)?;
        before = b", ";
    }
    Ok(())
}

fn write_results(out: &mut Vec<u8>, results: &[Ty]) -> Result<(), Memory>
    ensures { OnOk result (out.new.items ≡ out.old.items ++ results_text results.now) }
{
    match results {
        [] => Ok(()),
        [ty] => {
            out.extend_from_slice(b" -> ")?;
            write_type(out, ty)
        }
        _ => {
            out.extend_from_slice(b" -> (")?;
            write_result_types(out, results)?;
            out.extend_from_slice(b")")?;
            Ok(())
        }
    }
}

fn write_opening(out: &mut Vec<u8>, name: &str) -> Result<(), Memory>
    ensures { OnOk result (out.new.items ≡ out.old.items ++ opening_text name.now) }
{
    out.extend_from_slice(b"func.func @")?;
    out.extend_from_slice(name.as_bytes())?;
    out.extend_from_slice(b"(")?;
    Ok(())
}

fn write_signature<'a>(
    out: &mut Vec<u8>,
    names: &mut Names<'a>,
    name: &str,
    params: &'a [(ValueId, Ty)],
    results: &[Ty],
) -> Result<(), Memory>
    requires { names.old ≡ nothing }
    ensures text { OnOk result (out.new.items ≡ out.old.items ++ signature_text name.now params.now results.now) }
    ensures names { OnOk result (names.new ≡ after_params nothing params.now) }
{
    write_opening(out, name)?;
    write_params(out, names, params)?;
    out.extend_from_slice(b")")?;
    write_results(out, results)
}

fn write_func<'a>(
    alloc: Global,
    out: &mut Vec<u8>,
    aliases: &Aliases,
    name: &str,
    params: &'a [(ValueId, Ty)],
    results: &[Ty],
    body: &'a [Op],
) -> Result<(), Memory>
    ensures { OnOk result (out.new.items ≡ out.old.items ++ func_text aliases.now name.now params.now results.now body.now) }
{
    let mut names = Names::new(alloc);
    write_signature(out, &mut names, name, params, results)?;
    out.extend_from_slice(b" {")?;
    write_body(out, aliases, &mut names, body)?;
    out.extend_from_slice(b"\n  }")?;
    Ok(())
}

fn write_function(
    alloc: Global,
    out: &mut Vec<u8>,
    aliases: &Aliases,
    func: &Func,
) -> Result<(), Memory>
    ensures { OnOk result (out.new.items ≡ out.old.items ++ function_text aliases.now func.now) }
{
    write_func(
        alloc,
        out,
        aliases,
        func.name.as_str(),
        func.params.as_slice(),
        func.results.as_slice(),
        func.body.as_slice(),
    )
}

fn write_functions(
    alloc: Global,
    out: &mut Vec<u8>,
    aliases: &Aliases,
    funcs: &[Func],
) -> Result<(), Memory>
    ensures { OnOk result (out.new.items ≡ out.old.items ++ functions_text aliases.now funcs.now) }
{
    for func in funcs {
        out.extend_from_slice(b"\n  ")?;
        write_function(alloc, out, aliases, func)?;
    }
    Ok(())
}

fn add_op(aliases: &mut Aliases, op: &Op) -> Result<(), Memory>
    ensures { OnOk result (aliases.new ≡ after_op_texts aliases.old op.now) }
{
    match &op.kind {
        OpKind::Generic { maps, payload, .. } => add_generic(aliases, maps.as_slice(), payload),
        _ => Ok(()),
    }
}

fn add_ops(aliases: &mut Aliases, body: &[Op]) -> Result<(), Memory>
    ensures { OnOk result (aliases.new ≡ after_ops_texts aliases.old body.now) }
{
    for op in body {
        add_op(aliases, op)?;
    }
    Ok(())
}

fn add_funcs(aliases: &mut Aliases, funcs: &[Func]) -> Result<(), Memory>
    ensures { OnOk result (aliases.new ≡ after_funcs_texts aliases.old funcs.now) }
{
    for func in funcs {
        add_ops(aliases, func.body.as_slice())?;
    }
    Ok(())
}

/// What stands behind the functions: a script in a module of its own, where there is one.
fn write_rest(alloc: Global, out: &mut Vec<u8>, script: &Option<Script>) -> Result<(), Memory>
    ensures { OnOk result (out.new.items ≡ out.old.items ++ rest_text script.now) }
{
    match script {
        None => {
            out.extend_from_slice(b"\n}\n")?;
            Ok(())
        }
        Some(script) => {
            out.extend_from_slice(
                b"\n  module attributes {transform.with_named_sequence} {\n    ",
            )?;
            write_script(alloc, out, 2, script)?;
            out.extend_from_slice(b"\n  }\n}\n")?;
            Ok(())
        }
    }
}

fn write_module(
    alloc: Global,
    out: &mut Vec<u8>,
    aliases: &Aliases,
    funcs: &[Func],
    script: &Option<Script>,
) -> Result<(), Memory>
    ensures { OnOk result (out.new.items ≡ out.old.items ++ whole_text aliases.now funcs.now script.now) }
{
    aliases.write_lines(out)?;
    out.extend_from_slice(b"module {")?;
    write_functions(alloc, out, aliases, funcs)?;
    write_rest(alloc, out, script)?;
    Ok(())
}

/// The canonical text of a file.
#[tactic(auto, using(crate::proofs::Bytes::text_bytes))]
pub fn file_text(alloc: Global, file: &File) -> Result<List<u8>, Memory>
    ensures { IfOk result (λ text. text ≡ text_of file.now) }
{
    let mut aliases = Aliases::new(alloc);
    add_funcs(&mut aliases, file.module.funcs.as_slice())?;
    let mut out = Vec::new(alloc);
    write_module(
        alloc,
        &mut out,
        &aliases,
        file.module.funcs.as_slice(),
        &file.script,
    )?;
    Ok(List::from_vec(out))
}
