//! Serving the steps of a plan, up to the call that is asked for.

ghost use Rattle.std.specs.Prelude.{◌≡◌, ◌++◌, ◌∷◌, [], IfOk, IfSome, is_some, option_map};
ghost use Rattle.pua_calls.specs.Calls.{effect_of};
ghost use Rattle.pua_calls.specs.declared.call.Call.{Call as AnyCall};
ghost use Rattle.pua_path.specs.Fits.{FoundsFit};
ghost use Rattle.pua_path.specs.Resolution.{resolution_of_text};
ghost use Rattle.pua_policy.specs.Verdict.{is_allowed as allows, object_named};
ghost use Rattle.pua_how.specs.Served.{AreGranted, AreWay};
ghost use Rattle.pua_how.specs.Steps.{comes, is_some_by, is_the_call, names_asked};
ghost use Rattle.pua_how.specs.Steps.{reaches as comes_to, start_in};
ghost use Rattle.pua_how.specs.Ways.{call_of as asked_for};
ghost use Rattle.pua_how.specs.declared.step.Step.{Step as AnyStep};
ghost use Rattle.pua_how.specs.declared.target.Target.{Target as Thing};
ghost use Rattle.pua_script.specs.Family.{is_exec as is_an_exec};
ghost use Rattle.pua_script.specs.Worlds.{WorldState, apply_to, world_of};

use crate::line::{WayLine, line_of, made_by};
use crate::step::Step;
use crate::target::Target;
use pua_calls::needs::ending;
use pua_calls::{Call, CallTable, Effect, Rules};
use pua_path::{Counted, Ending, Errno, Found, Last, PathText, Start, resolve};
use pua_policy::judge::verdict;
use pua_policy::{Process, Verdict};
use pua_script::{Action, Answer, PathBytes, Request, World, WorldFault};
use pua_tree::{FileTree, NodeId, OutOfMemory};
use std::alloc::Global;

/// What was served so far: the lines, and the directory that one of them made last; the root, if
/// none did.
#[derive(Drop)]
pub(crate) struct Served {
    pub(crate) lines: Vec<WayLine>,
    pub(crate) made: NodeId,
}

/// Serves the steps of a plan for the process of a number: a way to a call on what is asked about,
/// if each of them is answered `ok`, none but the last is an exec, and the last is that call, on a
/// path that names what is asked about when it is served, and allowed on it by the promises and the
/// veils, by the table by which lists for ever go (`CallTable::with_tmppath`), and not only since a
/// promise opens the path. None exactly where this is not so: where a step has no line, say, since
/// its path would be too long or the rules have no such call, and where there are no steps. After
/// None, and after the error that a growth was refused, the world has served some of the steps or
/// none. Its lines are read by these rules. What is answered `ok` is this profile's, as a script's
/// lines are (`World::apply`).
pub fn serve_way<T: FileTree>(
    alloc: Global,
    rules: Rules,
    world: &mut World<T>,
    process: u32,
    call: Call,
    target: &Target,
    steps: &[Step],
) -> Result<Option<Vec<WayLine>>, OutOfMemory>
    ensures way { IfOk result (λ served. IfSome served
        (λ lines. AreWay rules world.old process call target.now lines.items)) }
    ensures found { IfOk result (λ served. is_some served
        ≡ comes rules world.old.table process call target.now steps.now (world_of world.old) 0) }
{
    let Some((last, first)) = steps.split_last() else {
        return Ok(None);
    };
    let Some(served) = serve_first(alloc, rules, world, process, first)? else {
        return Ok(None);
    };
    let line = serve_last(alloc, rules, world, process, call, target, last, &served)?;
    let Some(line) = line else {
        return Ok(None);
    };
    let mut lines = served.lines;
    lines.push(line)?;
    Ok(Some(lines))
}

/// Serves the last step, after those that were served, and gives its line. A call that changes
/// nothing leaves the world as it was.
pub(crate) fn serve_last<T: FileTree>(
    alloc: Global,
    rules: Rules,
    world: &mut World<T>,
    process: u32,
    call: Call,
    target: &Target,
    step: &Step,
    served: &Served,
) -> Result<Option<WayLine>, OutOfMemory>
    ensures way { (before : WorldState) →
        AreGranted rules before process served.now.lines.items world.old →
        IfOk result (λ found. IfSome found (λ line. AreWay rules before process call target.now
        (served.now.lines.items ++ line ∷ []))) }
    ensures found { IfOk result (λ found. is_some found
        ≡ comes rules world.old.table process call target.now (step.now ∷ [])
        (world_of world.old) served.now.made) }
    ensures kept { IfOk result (λ found. IfSome found
        (λ _. effect_of call ≡ Effect.Looks → world.new ≡ world.old)) }
{
    let from = start_of(world, process);
    let line = line_of(
        alloc,
        rules,
        world.tree(),
        process,
        &from,
        step,
        served.made,
    )?;
    let Some(line) = line else {
        return Ok(None);
    };
    if !is_asked(world, process, call, target, &line.request) {
        return Ok(None);
    }
    let Answer::Okay = answered(world, &line.request)? else {
        return Ok(None);
    };
    Ok(Some(line))
}

/// Serves the steps before the last one.
pub(crate) fn serve_first<T: FileTree>(
    alloc: Global,
    rules: Rules,
    world: &mut World<T>,
    process: u32,
    steps: &[Step],
) -> Result<Option<Served>, OutOfMemory>
    ensures granted { IfOk result (λ served. IfSome served
        (λ served. AreGranted rules world.old process served.lines.items world.new)) }
    ensures on { IfOk result (λ served. (call : AnyCall) (target : Thing) (last : AnyStep) →
        comes rules world.old.table process call target (steps.now ++ last ∷ [])
        (world_of world.old) 0
        ≡ is_some_by (λ s. comes rules world.new.table process call target (last ∷ [])
        (world_of world.new) s.made) served) }
{
    let mut lines = Vec::new(alloc);
    let mut made = NodeId::ROOT;
    for step in steps {
        let from = start_of(world, process);
        let line = line_of(alloc, rules, world.tree(), process, &from, step, made)?;
        let Some(line) = line else {
            return Ok(None);
        };
        if is_exec(&line.request) {
            return Ok(None);
        }
        let Answer::Okay = answered(world, &line.request)? else {
            return Ok(None);
        };
        made = made_by(world.tree(), step, made);
        lines.push(line)?;
    }
    Ok(Some(Served { lines, made }))
}

/// Where the paths of a process start; at the top where there is no process of the number.
fn start_of<T: FileTree>(world: &World<T>, number: u32) -> Start
    ensures { result ≡ start_in (world_of world.now) number }
{
    match world.process(number) {
        Some(process) => process.start(),
        None => Start::from_top(NodeId::ROOT),
    }
}

/// Whether a request is an exec.
fn is_exec(request: &Request) -> bool
    ensures { result ≡ is_an_exec request.now.action }
{
    matches!(request.action(), Action::OnPath(Call::Exec, _))
}

/// Serves a request, and answers it. The only error is that a growth was refused.
fn answered<T: FileTree>(world: &mut World<T>, request: &Request) -> Result<Answer, OutOfMemory>
    ensures { IfOk result (λ answer. (answer, world.new) ≡ apply_to world.old request.now) }
{
    match world.apply(request) {
        Ok(answer) => Ok(answer),
        Err(WorldFault::OutOfMemory) => Err(OutOfMemory),
    }
}

/// Whether a request is the call, on a path that names what is asked about to the process, and is
/// allowed on it.
fn is_asked<T: FileTree>(
    world: &World<T>,
    number: u32,
    call: Call,
    target: &Target,
    request: &Request,
) -> bool
    ensures { result ≡ is_the_call world.now.table number call target.now
        (world_of world.now) request.now.action }
{
    let Some((asked, path)) = call_of(request.action()) else {
        return false;
    };
    if asked != call {
        return false;
    }
    reaches(world, number, call, target, path)
}

/// The call that an action asks for, and its path, if it has one path.
fn call_of(action: &Action) -> Option<(Call, &PathBytes)>
    ensures { option_map (λ asked. (asked.0, asked.1.now)) result ≡ asked_for action.now }
{
    match action {
        Action::OnPath(call, path) => Some((*call, path)),
        Action::Symlink(_, path) => Some((Call::Symlink, path)),
        _ => None,
    }
}

/// Whether a path names what is asked about to a process, and the call is allowed on it.
fn reaches<T: FileTree>(
    world: &World<T>,
    number: u32,
    call: Call,
    target: &Target,
    path: &PathBytes,
) -> bool
    ensures { result ≡ comes_to world.now.table number call target.now
        (world_of world.now) path.now }
{
    let Some(process) = world.process(number) else {
        return false;
    };
    judge(
        world.tree(),
        world.table(),
        process,
        call,
        target,
        path.bytes(),
    )
}

/// The same in a tree, by what the process keeps: the call is judged by the table by which lists
/// for ever go.
fn judge<T: FileTree>(
    tree: &T,
    table: &CallTable,
    process: &Process,
    call: Call,
    target: &Target,
    path: &[u8],
) -> bool
    ensures { result ≡ names_asked table.now (T.content tree.now) process.now call target.now
        (object_named (T.content tree.now) process.now call path.now) }
{
    let mut probe = Counted::new(tree);
    let wide = table.with_tmppath();
    match named(&mut probe, process.start(), path, ending(call), call.last()) {
        Ok(found) => {
            target.is(tree, process, &found)
                && is_allowed(verdict(&mut probe, process, &wide, call, &found))
        }
        Err(_errno) => false,
    }
}

/// Whether a verdict is that the call is allowed.
fn is_allowed(verdict: Verdict) -> bool
    ensures { result ≡ allows verdict }
{
    matches!(verdict, Verdict::Allowed)
}

/// What a path names from a root and a directory.
fn named<T: FileTree>(
    probe: &mut Counted<'_, T>,
    from: Start,
    path: &[u8],
    ending: Ending,
    last: Last,
) -> Result<Found, Errno>
    ensures exact { result ≡ resolution_of_text probe.old.tree from ending path.now last }
    ensures fits { FoundsFit probe.old.tree result }
    ensures tree { probe.new.tree ≡ probe.old.tree }
{
    let text = PathText::read(path, ending)?;
    resolve(probe, from, &text, last)
}
