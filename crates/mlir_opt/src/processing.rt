ghost use Rattle.std.specs.Prelude.{◌≡◌, ◌≤◌, length, take, true, Ok};
ghost use Rattle.script_run.specs.Scripts.{are_built, run, unbuilt_from};
ghost use Rattle.mlir_opt.specs.Places.{line_after, column_after};
ghost use Rattle.mlir_opt.specs.Processed.{processed, read_refusal, step_refusal, given_by, given_unless, transformed, formed, with_script, written, file_output};
ghost use Rattle.mlir_opt.specs.Steps.{FormedAs, IsTextError, ProcessIs};

use crate::place::place_after;
use crate::{Fault, Output, StepFault, TextError};
use mlir_file::{File, release, release_script};
use mlir_ir::Module;
use mlir_print::file_text;
use mlir_read::{ReadError, read_file};
use mlir_verify::{Checked, Refused, verify};
use rewrite_base::StepError;
use script_read::Script;
use script_run::{ScriptError, first_unbuilt, run_script};
use std::alloc::Global;

// A fault at a place of a text.
fn fault_at(text: &[u8], at: u32, fault: Fault) -> TextError
    requires { length text.now ≤ 4194304 }
    ensures { result ≡ TextError.Text (line_after (take at text.now)) (column_after (take at text.now)) fault }
{
    let end = text.len().min(at as usize);
    let (line, column) = place_after(&text[..end]);
    TextError::Text {
        line,
        column,
        fault,
    }
}

// Why a text isn't read.
fn text_error(text: &[u8], error: ReadError) -> TextError
    requires { length text.now ≤ 4194304 }
    ensures { IsTextError (read_refusal text.now error) result }
{
    match error {
        ReadError::Byte(at) => fault_at(text, at, Fault::Byte),
        ReadError::Unclosed(at) => fault_at(text, at, Fault::Unclosed),
        ReadError::Syntax(at) => fault_at(text, at, Fault::Syntax),
        ReadError::Unsupported(at) => fault_at(text, at, Fault::Unsupported),
        ReadError::UnknownName(at) => fault_at(text, at, Fault::UnknownName),
        ReadError::Twice(at) => fault_at(text, at, Fault::Twice),
        ReadError::TypeDiffers(at) => fault_at(text, at, Fault::TypeDiffers),
        ReadError::Number(at) => fault_at(text, at, Fault::Number),
        ReadError::Limit { which } => TextError::Limit { which },
        ReadError::Memory => TextError::Memory,
    }
}

// Why a step isn't applied.
fn step_error(error: ScriptError) -> TextError
    ensures { IsTextError (step_refusal error.step error.why) result }
{
    let step = error.step;
    match error.why {
        StepError::Rule { rule, op: _ } => TextError::Step {
            step,
            why: StepFault::Rule(rule),
        },
        StepError::Limit { which } => TextError::Step {
            step,
            why: StepFault::Limit(which),
        },
        StepError::Memory => TextError::Memory,
    }
}

// The module that the steps of a script give.
fn given_by(alloc: Global, checked: Checked, script: &Script) -> Result<Checked, TextError>
    requires { are_built script.now.steps ≡ true }
    ensures { FormedAs (given_by (run script.now checked)) result }
{
    match run_script(alloc, checked, script) {
        Ok(given) => Ok(given),
        Err(error) => Err(step_error(error)),
    }
}

// A step that isn't built.
fn unbuilt(step: u32) -> TextError
    ensures { result ≡ TextError.Step step StepFault.Unsupported }
{
    TextError::Step {
        step,
        why: StepFault::Unsupported,
    }
}

// The same, where each step is built.
fn given_unless(alloc: Global, checked: Checked, script: &Script) -> Result<Checked, TextError>
    ensures { FormedAs (given_unless (unbuilt_from script.now.steps 1) script.now checked) result }
{
    match first_unbuilt(script) {
        Some(step) => Err(unbuilt(step)),
        None => given_by(alloc, checked, script),
    }
}

// The module that is written of a verified one.
fn transformed(
    alloc: Global,
    checked: Checked,
    script: &Option<Script>,
    transform: bool,
) -> Result<Checked, TextError>
    ensures { FormedAs (transformed transform script.now checked) result }
{
    if !transform {
        return Ok(checked);
    }
    match script {
        Some(steps) => given_unless(alloc, checked, steps),
        None => Err(TextError::NoScript),
    }
}

// The module that is written of one, which has to verify.
fn formed(
    alloc: Global,
    original: Module,
    script: &Option<Script>,
    transform: bool,
) -> Result<Checked, TextError>
    ensures { FormedAs (formed transform script.now original) result }
{
    match verify(alloc, original) {
        Ok(checked) => transformed(alloc, checked, script, transform),
        Err(Refused::Rule { rule, op }) => Err(TextError::Verify { rule, op: op.0 }),
        Err(Refused::Memory) => Err(TextError::Memory),
    }
}

// A file with this module. The script stays in it.
fn with_script(checked: Checked, script: Option<Script>) -> File
    ensures { result ≡ with_script script checked }
{
    File {
        module: checked.into_module(),
        script,
    }
}

// What is written of a file.
fn written(alloc: Global, file: File, output: Output) -> Result<Vec<u8>, TextError>
    ensures { ProcessIs (Ok (written output file)) result }
{
    let text = match output {
        Output::CanonicalText => file_text(alloc, &file),
    };
    release(file);
    match text {
        Ok(text) => Ok(text.into_vec()),
        Err(_) => Err(TextError::Memory),
    }
}

// What is written for a file.
fn file_output(
    alloc: Global,
    file: File,
    transform: bool,
    output: Output,
) -> Result<Vec<u8>, TextError>
    ensures { ProcessIs (file_output transform output file) result }
{
    let File { module, script } = file;
    match formed(alloc, module, &script, transform) {
        Ok(checked) => written(alloc, with_script(checked, script), output),
        Err(error) => {
            release_script(script);
            Err(error)
        }
    }
}

/// The bytes that are written for a text, or why it is refused. Where `transform` is set, its script
/// is applied to its module first.
#[tactic(auto, unfolding(crate::specs::Processed::processed))]
pub fn process(
    alloc: Global,
    text: &[u8],
    transform: bool,
    output: Output,
) -> Result<Vec<u8>, TextError>
    requires { length text.now ≤ 4194304 }
    ensures { ProcessIs (processed transform output text.now) result }
{
    match read_file(alloc, text) {
        Ok(file) => file_output(alloc, file, transform, output),
        Err(error) => Err(text_error(text, error)),
    }
}
