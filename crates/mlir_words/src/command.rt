//! The request that the values make.

ghost use Rattle.std.specs.Prelude.{◌≡◌, IfOk, IfSome, map, drop, option_map, string_bytes};
ghost use Rattle.mlir_words.specs.App.{options_given};
ghost use Rattle.mlir_words.specs.Request.{Answers, IsRequestInRange, IsTaskInRange, is_sample_alone, request_by};
ghost use Rattle.mlir_words.specs.Request.{request_of, request_shape, source_shape, task_by, task_shape};
ghost use Rattle.mlir_words.specs.Table.{ReadsRows, RefusesWords};

use crate::given::{Given, given_in};
use crate::request::{Request, Source, Task, WordsError};
use crate::values::{input_in, module_in, name_in, number_in, workers_in};
use std::alloc::Global;

// The words are the program's name and `--sample=K`, or the name, `--sample` and K, if `--sample`
// stands among them.
fn is_sample_only(words: &[String]) -> bool
    ensures { result ≡ is_sample_alone (drop 1 (map string_bytes words.now)) }
{
    match words {
        [_, _] => true,
        [_, word, _] => word.as_str() == "--sample",
        _ => false,
    }
}

// The task, by the options that name a function.
fn task_in<'a>(given: &Given<'a>, origin: Source<'a>) -> Option<Task<'a>>
    ensures task { let options = options_given given.now in option_map task_shape result
        ≡ task_by options.lower options.run (source_shape origin.entry) options }
    ensures range { IfSome result IsTaskInRange }
{
    let is_plain = given.input.is_none() && given.workers.is_none();
    match (given.lower, given.run) {
        (None, None) if is_plain => Some(Task::Print),
        (Some(function), None) if is_plain => Some(Task::Lower {
            function: name_in(function)?,
        }),
        (None, Some(function)) => Some(Task::Run {
            function: name_in(function)?,
            input: input_in(origin, given.input)?,
            workers: workers_in(given.workers)?,
        }),
        _ => None,
    }
}

// The request of the values that the words give.
fn request_in<'a>(given: &Given<'a>, is_alone: bool) -> Option<Request<'a>>
    ensures request { let options = options_given given.now in
        option_map request_shape result ≡ request_by is_alone options.sample options }
    ensures range { IfSome result IsRequestInRange }
{
    if let Some(size) = given.sample {
        return if is_alone {
            Some(Request::Sample {
                k: number_in(size)?,
            })
        } else {
            None
        };
    }
    let file = module_in(given.file)?;
    let task = task_in(given, file)?;
    Some(Request::Module {
        file,
        transform: given.transform,
        task,
    })
}

/// The request that the words make, the program's name first. `Words` where they are no command,
/// and `Memory` for want of memory.
pub fn read_words<'a>(alloc: Global, words: &'a [String]) -> Result<Request<'a>, WordsError>
    ensures request { Answers (request_of (map string_bytes words.entry.now)) result }
    ensures rows { ReadsRows (map string_bytes words.entry.now) result }
    ensures refusals { RefusesWords (map string_bytes words.entry.now) result }
    ensures range { IfOk result IsRequestInRange }
{
    if words.is_empty() {
        return Err(WordsError::Words);
    }
    let given = match given_in(alloc, words) {
        Ok(given) => given,
        Err(error) => return Err(error),
    };
    match request_in(&given, is_sample_only(words)) {
        Some(request) => Ok(request),
        None => Err(WordsError::Words),
    }
}
