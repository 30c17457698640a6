//! Steps with their results, and whole scripts.

ghost use Rattle.std.specs.Prelude.{◌≡◌, ◌<◌, ◌^◌, ◌++◌, OnOk, IfOk};
ghost use Rattle.script_text.specs.Names.{rows_of, next_of};
ghost use Rattle.text_format.specs.Pieces.{bytes_of};
ghost use Rattle.script_text.specs.Canonical.{sequence_at, text_of};
ghost use Rattle.script_text.specs.Texts.{results_text, kind_text, step_text, new_line, steps_text, opening_text, closing_text, sequence_text};

use crate::bodies::{write_count, write_given, write_group, write_none, write_one, write_repeated};
use crate::names::{Given, Rows, start};
use mlir_base::{List, Memory};
use script_read::{HandleId, Script, Step, StepKind};
use std::alloc::Global;

/// The results of a step, where the next have this number.
fn write_results(out: &mut Vec<u8>, number: u64, results: &[HandleId]) -> Result<(), Memory>
    ensures { OnOk result (out.new.items ≡ out.old.items ++ results_text number results.now) }
{
    match results {
        [] => Ok(()),
        [_] => {
            write_given(out, Given::Single(number))?;
            out.extend_from_slice(b" = ")?;
            Ok(())
        }
        _ => {
            write_given(out, Given::Single(number))?;
            out.extend_from_slice(b":")?;
            write_count(out, results.len() as u64)?;
            out.extend_from_slice(b" = ")?;
            Ok(())
        }
    }
}

fn write_kind(
    out: &mut Vec<u8>,
    rows: &Rows,
    results: &[HandleId],
    kind: &StepKind,
) -> Result<(), Memory>
    ensures { OnOk result (out.new.items ≡ out.old.items ++ kind_text rows.now results.now kind.now) }
{
    match results {
        [] => write_none(out, rows, kind),
        [_] => write_one(out, rows, kind),
        [_, _, more @ ..] => write_group(out, rows, more, kind),
    }
}

fn write_step(out: &mut Vec<u8>, rows: &Rows, number: u64, step: &Step) -> Result<(), Memory>
    ensures { OnOk result (out.new.items ≡ out.old.items ++ step_text rows.now number step.now) }
{
    write_results(out, number, step.results.as_slice())?;
    write_kind(out, rows, step.results.as_slice(), &step.kind)
}

/// A line at this depth.
#[tactic(auto, unfolding(crate::specs::Texts::new_line))]
fn write_new_line(out: &mut Vec<u8>, depth: usize) -> Result<(), Memory>
    ensures { OnOk result (out.new.items ≡ out.old.items ++ new_line depth) }
{
    out.extend_from_slice(b"\n")?;
    write_repeated(out, depth, b"  ")
}

/// The steps, at this depth.
fn write_steps(
    out: &mut Vec<u8>,
    depth: usize,
    rows: &mut Rows,
    steps: &[Step],
) -> Result<(), Memory>
    ensures { OnOk result (out.new.items ≡ out.old.items ++ steps_text depth rows.old 0 steps.now) }
{
    let mut number = 0u64;
    for step in steps {
        write_new_line(out, depth)?;
        write_step(out, rows, number, step)?;
        rows.add_results(number, step.results.as_slice())?;
        if !step.results.is_empty() {
            number += 1;
        }
    }
    Ok(())
}

#[tactic(auto, unfolding(crate::specs::Texts::opening_text))]
fn write_opening(out: &mut Vec<u8>) -> Result<(), Memory>
    ensures { OnOk result (out.new.items ≡ out.old.items ++ opening_text) }
{
    out.extend_from_slice(
        b"transform.named_sequence @__transform_main(%arg0: !transform.any_op {transform.readonly}) {",
    )?;
    Ok(())
}

#[tactic(auto, unfolding(crate::specs::Texts::closing_text))]
fn write_closing(out: &mut Vec<u8>, depth: usize) -> Result<(), Memory>
    requires { depth < 2 ^ 32 }
    ensures { OnOk result (out.new.items ≡ out.old.items ++ closing_text depth) }
{
    write_new_line(out, depth + 1)?;
    out.extend_from_slice(b"transform.yield")?;
    write_new_line(out, depth)?;
    out.extend_from_slice(b"}")?;
    Ok(())
}

fn write_sequence(
    alloc: Global,
    out: &mut Vec<u8>,
    depth: usize,
    script: &Script,
) -> Result<(), Memory>
    requires { depth < 2 ^ 32 }
    ensures { OnOk result (out.new.items ≡ out.old.items ++ sequence_text depth script.now) }
{
    let mut rows = start(alloc, script.root)?;
    write_opening(out)?;
    write_steps(out, depth + 1, &mut rows, script.steps.as_slice())?;
    write_closing(out, depth)
}

/// Writes the canonical text of a script as it stands in so many regions: two blanks for each.
#[tactic(auto, using(crate::proofs::Bytes::sequence_bytes))]
pub fn write_script(
    alloc: Global,
    out: &mut Vec<u8>,
    depth: usize,
    script: &Script,
) -> Result<(), Memory>
    requires { depth < 2 ^ 32 }
    ensures { OnOk result (out.new.items ≡ out.old.items ++ bytes_of (sequence_at depth script.now).pieces) }
{
    write_sequence(alloc, out, depth, script)
}

/// The canonical text of a script (Transform dialect, "transform.named_sequence").
#[tactic(auto, unfolding(crate::specs::Canonical::text_of))]
pub fn script_text(alloc: Global, s: &Script) -> Result<List<u8>, Memory>
    ensures { IfOk result (λ text. text ≡ text_of s.now) }
{
    let mut out = Vec::new(alloc);
    write_script(alloc, &mut out, 0, s)?;
    Ok(List::from_vec(out))
}
