//! The questions of a replay, and the processes that they are about.

ghost use Rattle.std.specs.Prelude.{◌≡◌, ℕ, ◌<◌, ◌+◌, ◌++◌, ◌∷◌, [], List, IfOk, OnOk, length, map};
ghost use Rattle.pua_calls.specs.Calls.{CallTable};
ghost use Rattle.pua_script.specs.Replay.{World as Replayed, answers_to, apply, world_after};
ghost use Rattle.pua_script.specs.Requests.{Asked};
ghost use Rattle.pua_script.specs.Worlds.{WorldState, apply_to, run_to, state_after_all, world_of};
ghost use Rattle.pua_since.specs.Concerns.{TouchesOnly};
ghost use Rattle.pua_since.specs.declared.watch.Question.{Question as Asking};
ghost use Rattle.pua_since.specs.Watched.{AreServed, AreWatched, IsKeptThrough, IsTopicAt};
ghost use Rattle.pua_since.specs.Watched.{forebear_by, fork_seen, fork_told, forks_done};
ghost use Rattle.pua_since.specs.Watched.{forks_left, line_at, made_by};

use crate::change::{has_changed, has_forked};
use crate::touched::{Touched, touched_by};
use crate::watch::{Question, Watch};
use pua_script::{Action, Answer, Request, World};
use pua_tree::{FileTree, OutOfMemory};
use std::alloc::Global;

/// A fork that was done: the process that asked for it, and the one that it made.
#[derive(Clone, Copy)]
struct Fork {
    parent: u32,
    child: u32,
}

/// The forks of a script that are still to be done, and the questions of its replay.
#[derive(Drop)]
pub(crate) struct Watches<'a> {
    /// The forks that are still to be done, the last one first.
    forks: Vec<Fork>,
    watches: Vec<Watch<'a>>,
}

impl<'a> Watches<'a> {
    /// No question yet, of the replay of these requests, which were answered so.
    pub(crate) fn new(
        alloc: Global,
        requests: &[Request],
        answers: &[Answer],
    ) -> Result<Watches<'a>, OutOfMemory>
        ensures watched { IfOk result (λ watches. (table : CallTable) (w : Replayed) →
            answers.now ≡ answers_to table w requests.now →
            AreWatched table w [] requests.now watches) }
        ensures none { IfOk result (λ watches. watches.watches.items ≡ []) }
    {
        Ok(Watches {
            forks: forks_of(alloc, requests, answers)?,
            watches: Vec::new(alloc),
        })
    }

    /// Adds a question about a process, whose answer is wanted after so many lines, and answers
    /// its place. It is asked of the world in which the replay begins.
    pub(crate) fn add<T: FileTree>(
        &mut self,
        alloc: Global,
        world: &World<T>,
        process: u32,
        question: Question<'a>,
        last: usize,
    ) -> Result<usize, OutOfMemory>
        ensures place { IfOk result (λ place.
            IsTopicAt self.new.watches.items place process question.entry last) }
        ensures watched { OnOk result ((left : List Asked) →
            AreWatched world.now.table (world_of world.now) [] left self.old →
            AreWatched world.now.table (world_of world.now) [] left self.new) }
        ensures kept { IsKeptThrough self.old.watches.items self.new.watches.items }
    {
        let asker = forebear(&self.forks, process);
        let watch = Watch::begin(alloc, world, process, asker, question, last)?;
        let place = self.watches.len();
        self.watches.push(watch)?;
        Ok(place)
    }

    /// Has the answer to a question wanted after so many lines too, if there is one at this place.
    pub(crate) fn extend(&mut self, place: usize, last: usize)
        ensures place { (process : ℕ) (question : Asking) (before : ℕ) →
            IsTopicAt self.old.watches.items place process question before →
            IsTopicAt self.new.watches.items place process question last }
        ensures watched { (table : CallTable) (w : Replayed) (left : List Asked) →
            AreWatched table w [] left self.old → AreWatched table w [] left self.new }
        ensures kept { IsKeptThrough self.old.watches.items self.new.watches.items }
    {
        if let Some(watch) = self.watches.get_mut(place) {
            watch.extend(last);
        }
    }

    /// Since which line the question at this place has its answer of now; None where it had it from
    /// the start, or where there is no such question.
    pub(crate) fn line(&self, place: usize) -> Option<usize>
        ensures { result ≡ line_at self.now.watches.items place }
    {
        self.watches.get(place)?.line()
    }

    /// Serves the next request of the replay, on this line, which was answered so, and asks each
    /// question again that may have another answer after it.
    pub(crate) fn serve<T: FileTree>(
        &mut self,
        alloc: Global,
        world: &mut World<T>,
        request: &Request,
        answer: Answer,
        line: usize,
    ) -> Result<(), OutOfMemory>
        ensures watched { OnOk result ((s : WorldState) (done left : List Asked) →
            world.old ≡ state_after_all s done →
            answer ≡ (apply_to (state_after_all s done) request.now).0 →
            line ≡ length done + 1 →
            AreWatched s.table (world_of s) done (request.now ∷ left) self.old →
            AreWatched s.table (world_of s) (done ++ request.now ∷ []) left self.new) }
        ensures world { OnOk result (world.new ≡ (apply_to world.old request.now).1) }
        ensures kept { IsKeptThrough self.old.watches.items self.new.watches.items }
    {
        let Ok(_) = world.apply(request) else {
            return Err(OutOfMemory);
        };
        if !has_changed(request.action(), answer) {
            return Ok(());
        }
        self.pass_fork(request.action(), answer);
        self.ask_again(alloc, world, touched_by(request, answer), line)
    }

    /// Serves all requests of the replay, which were answered so.
    pub(crate) fn serve_all<T: FileTree>(
        &mut self,
        alloc: Global,
        world: &mut World<T>,
        requests: &[Request],
        answers: &[Answer],
    ) -> Result<(), OutOfMemory>
        ensures watched { OnOk result (answers.now ≡ (run_to world.old requests.now).0 →
            AreWatched world.old.table (world_of world.old) [] requests.now self.old →
            AreWatched world.old.table (world_of world.old) requests.now [] self.new) }
        ensures world { OnOk result (answers.now ≡ (run_to world.old requests.now).0 →
            world.new ≡ state_after_all world.old requests.now) }
        ensures kept { IsKeptThrough self.old.watches.items self.new.watches.items }
    {
        for (index, (request, answer)) in requests.iter().zip(answers).enumerate() {
            self.serve(alloc, world, request, *answer, index + 1)?;
        }
        Ok(())
    }

    /// Passes the fork of an action that was answered so, if it made a process: it is no more to be
    /// done.
    fn pass_fork(&mut self, action: &Action, answer: Answer)
        ensures passed { (table : CallTable) (w : Replayed) (done : List Asked) (ask : Asked)
            (left : List Asked) → ask.action ≡ action.now →
            answer ≡ (apply table (world_after table w done) ask).0 →
            AreWatched table w done (ask ∷ left) self.old →
            AreServed table w done ask left self.new }
        ensures watches { self.new.watches ≡ self.old.watches }
    {
        if has_forked(action, answer) {
            let _ = self.forks.pop();
        }
    }

    /// Asks each question again that what was touched may concern, and whose answer is wanted
    /// after this line.
    fn ask_again<T: FileTree>(
        &mut self,
        alloc: Global,
        world: &World<T>,
        touched: Touched,
        line: usize,
    ) -> Result<(), OutOfMemory>
        ensures asked { OnOk result ((s : WorldState) (done : List Asked) (ask : Asked)
            (left : List Asked) →
            world.now ≡ (apply_to (state_after_all s done) ask).1 →
            TouchesOnly s.table (world_after s.table (world_of s) done) ask touched →
            line ≡ length done + 1 → AreServed s.table (world_of s) done ask left self.old →
            AreWatched s.table (world_of s) (done ++ ask ∷ []) left self.new) }
        ensures kept { IsKeptThrough self.old.watches.items self.new.watches.items }
    {
        for watch in self.watches.iter_mut() {
            let asker = forebear(&self.forks, watch.process());
            watch.ask(alloc, world, asker, touched, line)?;
        }
        Ok(())
    }
}

/// The forks among requests that were done, the last one first.
fn forks_of(
    alloc: Global,
    requests: &[Request],
    answers: &[Answer],
) -> Result<Vec<Fork>, OutOfMemory>
    ensures { IfOk result (λ forks. made_by forks.items ≡ forks_done requests.now answers.now) }
{
    let mut forks = Vec::new(alloc);
    for (request, answer) in requests.iter().zip(answers) {
        add_fork(&mut forks, request, *answer)?;
    }
    forks.reverse();
    Ok(forks)
}

/// Adds the fork of a request that was answered so, if it made a process.
fn add_fork(forks: &mut Vec<Fork>, request: &Request, answer: Answer) -> Result<(), OutOfMemory>
    ensures { OnOk result (map fork_seen forks.new.items
        ≡ map fork_seen forks.old.items ++ fork_told request.now answer []) }
{
    let (Action::Fork(child), Answer::Okay) = (request.action(), answer) else {
        return Ok(());
    };
    let fork = Fork {
        parent: request.process(),
        child: *child,
    };
    forks.push(fork)?;
    Ok(())
}

/// Which process this one was before these forks, of which the last one is the first here.
fn forebear(forks: &[Fork], process: u32) -> u32
    ensures { result ≡ forebear_by (made_by forks.now) process }
{
    let mut at = process;
    for fork in forks {
        if fork.child == at {
            at = fork.parent;
        }
    }
    at
}
