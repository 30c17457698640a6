//! A script, read.

ghost use Rattle.std.specs.Prelude.{◌≡◌, ◌≤◌, ◌-◌, ℕ, IfOk, length};
ghost use Rattle.script_read.specs.declared.script.Script.{Script as Read};
ghost use Rattle.mlir_lex.specs.Faults.{first_of, Reads};
ghost use Rattle.text_format.specs.Parsing.{stop_of};
ghost use Rattle.script_syntax.specs.Lines.{sequence};
ghost use Rattle.script_read.specs.Resolve.{resolve};
ghost use Rattle.script_read.specs.Reading.{reading, StandsFor, Gives, Tells};

use crate::lines::resolve_script;
use crate::script::Script;
use mlir_lex::{ReadError, Refused, Tokens, stop_error};
use script_syntax::{Sequence, release};
use std::alloc::Global;
use text_format::{Node, Parser, Stopped};

/// The script of a tree whose reading stopped so, or the fault that stands first: one of the tree, or the stop.
fn read_stopped(alloc: Global, tree: &Sequence, stop: Option<Stopped>) -> Result<Script, ReadError>
    ensures { Reads result (first_of (resolve tree.now) (stop_of stop)) }
{
    match resolve_script(alloc, tree) {
        Ok(script) => match stop {
            None => Ok(script),
            Some(stopped) => Err(stop_error(stopped)),
        },
        Err(Refused::Memory) => Err(ReadError::Memory),
        Err(Refused::At(fault)) => match stop {
            None => Err(fault.error()),
            Some(stopped) => {
                if fault.reach() < stopped.at {
                    Err(fault.error())
                } else {
                    Err(stop_error(stopped))
                }
            }
        },
    }
}

/// The script that stands at the token `first`, and the number of the token behind it.
#[tactic(auto, unfolding(crate::specs::Reading::reading), using(crate::proofs::Fronts::few_tokens, crate::proofs::Fronts::fewer_left))]
fn read_front(alloc: Global, t: &Tokens<'_>, first: u32) -> Result<(Script, u32), ReadError>
    requires { first ≤ length t.now.list }
    ensures { Reads result (reading t.now.text t.now.list first) }
{
    let spans = t.list().as_slice();
    let (_, behind) = spans.split_at(first as usize);
    let mut parser = Parser::new(t.text(), behind);
    let tree = match Sequence::read(alloc, &mut parser) {
        Ok(tree) => tree,
        Err(_) => return Err(ReadError::Memory),
    };
    let read = read_stopped(alloc, &tree, parser.stopped());
    release(tree);
    match read {
        Ok(script) => Ok((script, (spans.len() - parser.left()) as u32)),
        Err(error) => Err(error),
    }
}

/// The named sequence that begins at the token of this number, and the number of the token behind it. Its handles are
/// numbered 0, 1 and so on in the order of their definitions, and its root is 0 (Transform dialect, "transform.named_sequence").
///
/// # Errors
/// The first fault, at the first token that has one. `Memory` may come at any text.
pub fn read_script(alloc: Global, t: &Tokens<'_>, first: u32) -> Result<(Script, u32), ReadError>
    requires { first ≤ length t.now.list }
    ensures exact { Reads result (reading t.now.text t.now.list first) }

    // What is read is what the tokens stand for.
    ensures found { IfOk result (λ r. StandsFor t.now.text t.now.list first r.0 r.1) }

    // Tokens that stand for a script are read as that, unless memory runs out.
    ensures only { (s : Read) (next : ℕ) → StandsFor t.now.text t.now.list first s next → Gives s next result }

    // What is told is a fault of the tokens, and no script goes on with what stands at a stop.
    ensures fault { Tells t.now.text t.now.list first result }
{
    read_front(alloc, t, first)
}
