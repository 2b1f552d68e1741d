//! The lines of a way.

ghost use Rattle.std.specs.Prelude.{◌≡◌, ◌++◌, ℕ, IfOk, IfSome, OnOk, option_map, string_bytes};
ghost use Rattle.pua_how.specs.Served.{IsLine};
ghost use Rattle.pua_how.specs.Steps.{action_text, made_behind, number_of, path_behind};
ghost use Rattle.pua_how.specs.Steps.{request_of_step, step_text, target_behind, whole_text};
ghost use Rattle.pua_calls.specs.Calls.{call_name};

use crate::spelled::push_seen;
use crate::step::{At, Dir, Step};
use pua_calls::{Call, Rules};
use pua_path::Start;
use pua_script::{Request, ScriptFault, read_request_by};
use pua_tree::{FileTree, NodeId, OutOfMemory};
use pua_why::TreePaths;
use std::alloc::{AllocError, Global};

/// A line of a way, and what it asks for.
#[derive(Drop)]
pub struct WayLine {
    /// The line as a script has it, without the LF at its end.
    pub text: String,
    /// The request as which it is read.
    pub request: Request,
}

/// The line of a step of a process, by where directories stand in a tree, by where the paths of the
/// process start, and by which directory was made last; the root, if none was. None where the text
/// is no line of that process by these rules: a path may be too long, or the rules have no such
/// call. The only error is that a growth was refused.
pub(crate) fn line_of<T: FileTree>(
    alloc: Global,
    rules: Rules,
    tree: &T,
    process: u32,
    from: &Start,
    step: &Step,
    made: NodeId,
) -> Result<Option<WayLine>, OutOfMemory>
    ensures own { IfOk result (λ read. IfSome read (IsLine rules process)) }
    ensures asked { IfOk result (λ read. option_map (λ line. line.request) read
        ≡ request_of_step rules (T.content tree.now) from.now process made step.now) }
{
    let text = text_of(alloc, tree, process, from, step, made)?;
    match read_request_by(alloc, rules, 1, text.as_bytes()) {
        Ok(request) if request.process() == process => Ok(Some(WayLine { text, request })),
        Err(ScriptFault::OutOfMemory) => Err(OutOfMemory),
        _ => Ok(None),
    }
}

/// The text of a step.
fn text_of<T: FileTree>(
    alloc: Global,
    tree: &T,
    process: u32,
    from: &Start,
    step: &Step,
    made: NodeId,
) -> Result<String, OutOfMemory>
    ensures { IfOk result (λ text. string_bytes text
        ≡ step_text (T.content tree.now) from.now process made step.now) }
{
    let mut paths = TreePaths::new(alloc, tree)?;
    let mut text = String::new(alloc);
    write!(text, "{process} ")?;
    push_step(alloc, &mut paths, &mut text, from, step, made)?;
    Ok(text)
}

/// Adds what a step asks for.
fn push_step<T: FileTree>(
    alloc: Global,
    paths: &mut TreePaths<'_, T>,
    text: &mut String,
    from: &Start,
    step: &Step,
    made: NodeId,
) -> Result<(), AllocError>
    ensures { OnOk result (string_bytes text.new
        ≡ string_bytes text.old ++ action_text paths.old.tree from.now made step.now) }
{
    match step {
        Step::On(call, at) => {
            push_call(text, *call)?;
            push_path(alloc, paths, text, from, at, made)
        }
        Step::Rename(old, new) => {
            text.push_str("rename")?;
            push_path(alloc, paths, text, from, old, made)?;
            push_path(alloc, paths, text, from, new, made)
        }
        Step::Link(old, new) => {
            text.push_str("link")?;
            push_path(alloc, paths, text, from, old, made)?;
            push_path(alloc, paths, text, from, new, made)
        }
    }
}

/// Adds a call, and the target of a symlink.
fn push_call(text: &mut String, call: Call) -> Result<(), AllocError>
    ensures { OnOk result (string_bytes text.new
        ≡ string_bytes text.old ++ (call_name call ++ target_behind call)) }
{
    text.push_str(call.name())?;
    if call == Call::Symlink {
        text.push_str(" target")?;
    }
    Ok(())
}

/// Adds a blank and a path.
fn push_path<T: FileTree>(
    alloc: Global,
    paths: &mut TreePaths<'_, T>,
    text: &mut String,
    from: &Start,
    at: &At,
    made: NodeId,
) -> Result<(), AllocError>
    ensures text { OnOk result (string_bytes text.new
        ≡ string_bytes text.old ++ path_behind paths.old.tree from.now made at.now) }
    ensures tree { paths.new.tree ≡ paths.old.tree }
{
    text.push_str(" ")?;
    if from.root == NodeId::ROOT {
        return push_whole(paths, text, at, made);
    }
    let mut whole = String::new(alloc);
    push_whole(paths, &mut whole, at, made)?;
    push_seen(alloc, paths, text, from, &whole)
}

/// Adds a path from the root of the tree.
fn push_whole<T: FileTree>(
    paths: &mut TreePaths<'_, T>,
    text: &mut String,
    at: &At,
    made: NodeId,
) -> Result<(), AllocError>
    ensures text { OnOk result (string_bytes text.new
        ≡ string_bytes text.old ++ whole_text paths.old.tree made at.now) }
    ensures tree { paths.new.tree ≡ paths.old.tree }
{
    match at {
        At::Directory(dir) => paths.push_dir(text, *dir),
        At::Name(dir, name) => paths.push_spot(text, number(*dir, made), name),
    }
}

/// The number of a directory.
fn number(dir: Dir, made: NodeId) -> NodeId
    ensures { result ≡ number_of dir made }
{
    match dir {
        Dir::Standing(id) => id,
        Dir::Made => made,
    }
}

/// The directory that was made last, once a step was served.
pub(crate) fn made_by<T: FileTree>(tree: &T, step: &Step, made: NodeId) -> NodeId
    ensures { result ≡ made_behind (T.content tree.now) made step.now }
{
    match step {
        Step::On(Call::Mkdir, At::Name(dir, name)) => {
            tree.look(number(*dir, made), name).unwrap_or(made)
        }
        _ => made,
    }
}
