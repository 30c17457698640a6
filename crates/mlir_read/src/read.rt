//! A text, read.

ghost use Rattle.std.specs.Prelude.{◌≡◌, ◌≤◌, All, IfOk, length};
ghost use Rattle.mlir_file.specs.declared.file.File.{File as Read};
ghost use Rattle.text_format.specs.Tokens.{IsSpan};
ghost use Rattle.text_format.specs.Parsing.{stop_of};
ghost use Rattle.mlir_lex.specs.Faults.{first_of, Reads};
ghost use Rattle.mlir_read.specs.declared.files.Stage.TheVariants as start_stage;
ghost use Rattle.mlir_read.specs.Resolve.{resolve};
ghost use Rattle.mlir_read.specs.Reading.{item_stage, stage_behind, behind, wants_brace, later_wants, item_wants, items_want, all_told, of_tokens, reading, StandsFor, Gives, Tells};

use crate::files::{Stage, function_stage, is_closed, module_stage, resolve_text};
use mlir_file::File;
use mlir_lex::{LexError, ReadError, Refused, Token, stop_error, tokens};
use mlir_syntax::{Enclosed, Item, ModuleRest, Text, read_tree, release};
use std::alloc::Global;
use text_format::{Class, Parser, Reason, Stopped};

/// What a text has had behind an item.
fn item_stage(stage: Stage, item: &Item) -> Stage
    ensures { result ≡ item_stage stage item.now }
{
    match item {
        Item::Alias(_) => stage,
        Item::Function(_) => function_stage(stage),
        Item::Module(enclosed) => module_stage(stage, enclosed),
    }
}

/// What a text has had behind these items.
fn stage_behind(items: &[Item]) -> Stage
    ensures { result ≡ stage_behind start_stage.Start items.now }
{
    let mut stage = Stage::Start;
    for item in items {
        stage = item_stage(stage, item);
    }
    stage
}

/// What may stand behind a text's items.
fn behind(text: &Text) -> Class
    ensures { result ≡ behind text.now }
{
    if is_closed(stage_behind(text.items.as_slice())) {
        Class::Alias
    } else {
        Class::ItemStart
    }
}

/// Whether reading stopped at this place, where a module behind a function wants its closing brace: behind its script.
fn wants_brace(rest: &ModuleRest, at: u32) -> bool
    ensures { result ≡ wants_brace rest.now at }
{
    match rest {
        ModuleRest::End(_) => false,
        ModuleRest::Script(script, end) => script.end.start() < at && at <= end.close.start(),
        ModuleRest::Nested(_, _) => false,
    }
}

fn later_wants(stage: Stage, enclosed: &Enclosed, at: u32) -> bool
    ensures { result ≡ later_wants stage enclosed.now at }
{
    match stage {
        Stage::Functions => wants_brace(&enclosed.rest, at),
        Stage::Start | Stage::Scripted | Stage::Closed => false,
    }
}

fn item_wants(stage: Stage, item: &Item, at: u32) -> bool
    ensures { result ≡ item_wants stage item.now at }
{
    match item {
        Item::Alias(_) => false,
        Item::Function(_) => false,
        Item::Module(enclosed) => later_wants(stage, enclosed, at),
    }
}

fn items_want(items: &[Item], at: u32) -> bool
    ensures { result ≡ items_want start_stage.Start items.now at }
{
    let mut stage = Stage::Start;
    for item in items {
        if item_wants(stage, item, at) {
            return true;
        }
        stage = item_stage(stage, item);
    }
    false
}

/// A stop, told as a fault of syntax where no item may stand.
fn told(text: &Text, stop: Option<Stopped>) -> Option<Stopped>
    ensures { stop_of result ≡ all_told text.now (stop_of stop) }
{
    match stop {
        None => None,
        Some(stopped) => {
            if items_want(text.items.as_slice(), stopped.at) {
                Some(Stopped {
                    at: stopped.at,
                    why: Reason::Syntax,
                })
            } else {
                Some(stopped)
            }
        }
    }
}

/// The file of a tree whose reading stopped so, or the fault that stands first: one of the tree, or the stop.
fn read_stopped(alloc: Global, tree: &Text, stop: Option<Stopped>) -> Result<File, ReadError>
    ensures { Reads result (first_of (resolve tree.now) (stop_of stop)) }
{
    match resolve_text(alloc, tree) {
        Ok(file) => match stop {
            None => Ok(file),
            Some(stopped) => Err(stop_error(stopped)),
        },
        Err(Refused::Memory) => Err(ReadError::Memory),
        Err(Refused::At(fault)) => match stop {
            None => Err(fault.error()),
            Some(stopped) => {
                if fault.reach() < stopped.at {
                    Err(fault.error())
                } else {
                    Err(stop_error(stopped))
                }
            }
        },
    }
}

/// The file that the tokens of a text stand for.
#[tactic(auto, unfolding(crate::specs::Reading::of_tokens))]
fn read_tokens(alloc: Global, text: &[u8], list: &[Token]) -> Result<File, ReadError>
    requires short { length text.now ≤ 4194304 }
    requires spans { All (IsSpan text.now) list.now }
    ensures { Reads result (of_tokens text.now list.now) }
{
    let mut parser = Parser::new(text, list);
    let tree = match read_tree(alloc, &mut parser) {
        Ok(tree) => tree,
        Err(_) => return Err(ReadError::Memory),
    };
    let stop = told(&tree, parser.end(behind(&tree)));
    let read = read_stopped(alloc, &tree, stop);
    release(tree);
    read
}

/// The file of a text, or its first fault.
fn read_text(alloc: Global, text: &[u8]) -> Result<File, ReadError>
    requires { length text.now ≤ 4194304 }
    ensures { Reads result (reading text.now) }
{
    let lexed = match tokens(alloc, text) {
        Ok(lexed) => lexed,
        Err(error) => return Err(ReadError::from(error)),
    };
    read_tokens(alloc, text, lexed.list().as_slice())
}

/// The file that a text stands for. Its operations are numbered 0, 1 and so on in tree order, and its values in the order of
/// their definitions.
///
/// # Errors
/// The first fault of the text: a fault of its bytes, and else the fault at the first token. At one token `Unsupported` comes
/// before `Syntax`, and the others behind that in the order of the variants. `Memory` may come at any text.
pub fn read_file(alloc: Global, text: &[u8]) -> Result<File, ReadError>
    requires { length text.now ≤ 4194304 }
    ensures exact { Reads result (reading text.now) }

    // What is read is what the text stands for.
    ensures found { IfOk result (λ f. StandsFor text.now f) }

    // A text that stands for a file is read as that, unless memory runs out.
    ensures only { (f : Read) → StandsFor text.now f → Gives f result }

    // What is told is a fault of the text, and no text goes on with what stands at a stop.
    ensures fault { Tells text.now result }
{
    read_text(alloc, text)
}
