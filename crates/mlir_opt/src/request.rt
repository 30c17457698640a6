// What words ask for, of what is built.
ghost use Rattle.std.specs.Prelude.{◌≡◌, map, string_bytes, option_map};
ghost use Rattle.mlir_words.specs.Request.{request_shape, source_shape, task_shape};
ghost use Rattle.mlir_opt.specs.Asked.{asked, built, command_shape, name_of, written_for};
ghost use Rattle.mlir_opt.specs.Steps.{AsksFor};

use mlir_words::{Request, Source, Task, WordsError, read_words};
use std::alloc::Global;

/// What is written of a module.
#[derive(Clone, Copy, Drop)]
pub enum Output {
    /// Its canonical text.
    CanonicalText,
}

/// A request that is built: where a module's text comes from, whether its script is applied, and
/// what is written of it then.
#[derive(Clone, Copy, Drop)]
pub struct Command<'a> {
    pub source: Source<'a>,
    pub transform: bool,
    pub output: Output,
}

/// The name of the file.
pub fn name_of<'a>(source: Source<'a>) -> &'a str
    ensures { result.now ≡ name_of (source_shape source.entry) }
{
    match source {
        Source::StandardInput => "",
        Source::File(name) => name,
    }
}

// What is written for a task, where that is built.
fn written_for<'a>(task: Task<'a>) -> Option<Output>
    ensures { result ≡ written_for (task_shape task.entry) }
{
    match task {
        Task::Print => Some(Output::CanonicalText),
        Task::Lower { function: _ } => None,
        Task::Run {
            function: _,
            input: _,
            workers: _,
        } => None,
    }
}

// The command that a request makes, where it is built.
fn built<'a>(request: Request<'a>) -> Option<Command<'a>>
    ensures { option_map command_shape result ≡ built (request_shape request.entry) }
{
    match request {
        Request::Sample { k: _ } => None,
        Request::Module {
            file,
            transform,
            task,
        } => match written_for(task) {
            Some(output) => Some(Command {
                source: file,
                transform,
                output,
            }),
            None => None,
        },
    }
}

/// The command that the words make.
#[tactic(auto, unfolding(crate::specs::Asked::asked))]
pub fn asked<'a>(alloc: Global, words: &'a [String]) -> Result<Command<'a>, WordsError>
    ensures { AsksFor (asked (map string_bytes words.now)) result }
{
    match read_words(alloc, words) {
        Ok(request) => match built(request) {
            Some(command) => Ok(command),
            None => Err(WordsError::Words),
        },
        Err(WordsError::Words) => Err(WordsError::Words),
        Err(WordsError::Memory) => Err(WordsError::Memory),
    }
}
