//! A question that is asked of each world of a replay, and since which line its answer is the same.

ghost use Rattle.std.specs.Prelude.{◌≡◌, IfOk, OnOk, max};
ghost use Rattle.pua_script.specs.Worlds.{world_of};
ghost use Rattle.pua_since.specs.Concerns.{asks_other, is_concerned};
ghost use Rattle.pua_since.specs.Watched.{IsAbout, IsAskedOnce, IsBegunIn};
ghost use Rattle.pua_since.specs.Watched.{IsSameTopic, IsToldOf, is_same_told, kept_in};

use crate::touched::Touched;
use pua_calls::Perms;
use pua_policy::Place;
use pua_script::{Action, World};
use pua_tree::{FileTree, OutOfMemory};
use pua_why::{Key, checked};
use std::alloc::Global;

/// What is asked about a process.
#[derive(Clone, Copy)]
pub(crate) enum Question<'a> {
    /// Why a request of it is answered as it is.
    Request(&'a Action),
    /// Which letters its veil at a place has.
    Veil(&'a Place),
}

/// A world's answer.
#[derive(Drop)]
pub(crate) enum Told {
    /// The key of a reason.
    Reason(Key),
    /// The letters of a veil; None where none is at the place.
    Veil(Option<Perms>),
}

/// A question, its last answer, and since which line it has this answer.
#[derive(Drop)]
pub(crate) struct Watch<'a> {
    /// The process that it is about, where the answer is wanted. In the world that is asked that is
    /// whoever the process was there: itself, or a forebear.
    process: u32,
    question: Question<'a>,
    /// After how many lines the answer is wanted at last.
    last: usize,
    told: Told,
    /// The line since which it has this answer; None where it had it from the start.
    line: Option<usize>,
}

impl<'a> Watch<'a> {
    /// A question about this process, which in the world where the replay begins was `asker`. The
    /// only error is that a growth was refused.
    pub(crate) fn begin<T: FileTree>(
        alloc: Global,
        world: &World<T>,
        process: u32,
        asker: u32,
        question: Question<'a>,
        last: usize,
    ) -> Result<Watch<'a>, OutOfMemory>
        ensures begun { IfOk result
            (λ watch. IsBegunIn world.now.table (world_of world.now) asker watch) }
        ensures about { IfOk result (IsAbout process question.entry last) }
    {
        Ok(Watch {
            process,
            question,
            last,
            told: told_of(alloc, world, asker, question)?,
            line: None,
        })
    }

    /// The process that it is about.
    pub(crate) fn process(&self) -> u32
        ensures { result ≡ self.now.process }
    {
        self.process
    }

    /// Since which line it has its last answer.
    pub(crate) fn line(&self) -> Option<usize>
        ensures { result ≡ self.now.line }
    {
        self.line
    }

    /// Has the answer wanted after so many lines too.
    pub(crate) fn extend(&mut self, last: usize)
        ensures { self.new ≡ record self.old { last = max self.old.last last } }
    {
        self.last = self.last.max(last);
    }

    /// Asks a world again, after this line, if the answer is still wanted there and what the line
    /// touched may concern whoever its process was there. The only error is that a growth was
    /// refused.
    pub(crate) fn ask<T: FileTree>(
        &mut self,
        alloc: Global,
        world: &World<T>,
        asker: u32,
        touched: Touched,
        line: usize,
    ) -> Result<(), OutOfMemory>
        ensures asked { OnOk result (IsAskedOnce world.now.table (world_of world.now) asker
            touched line self.old self.new) }
        ensures topic { IsSameTopic self.old self.new }
    {
        if self.last < line {
            return Ok(());
        }
        if !is_concerned(touched, asker, self.question) {
            return Ok(());
        }
        let told = told_of(alloc, world, asker, self.question)?;
        if !told.is_same(&self.told) {
            self.line = Some(line);
        }
        self.told = told;
        Ok(())
    }
}

/// Whether what was touched may change the answer to a question that this process asks.
fn is_concerned(touched: Touched, asker: u32, question: Question<'_>) -> bool
    ensures { result ≡ is_concerned touched asker question.entry }
{
    match touched {
        Touched::Process(process) => asker == process || asks_other(question),
        Touched::Anything => true,
    }
}

/// Whether a question is about what another process has.
fn asks_other(question: Question<'_>) -> bool
    ensures { result ≡ asks_other question.entry }
{
    match question {
        Question::Request(action) => matches!(action, Action::Take { .. }),
        Question::Veil(_) => false,
    }
}

impl Told {
    /// Whether both are the same.
    fn is_same(&self, other: &Told) -> bool
        ensures { result ≡ is_same_told self.now other.now }
    {
        match (self, other) {
            (Told::Reason(key), Told::Reason(other)) => key.is_same(other),
            (Told::Veil(perms), Told::Veil(others)) => perms == others,
            _ => false,
        }
    }
}

/// A world's answer to a question about a process. The only error is that a growth was refused.
fn told_of<T: FileTree>(
    alloc: Global,
    world: &World<T>,
    process: u32,
    question: Question<'_>,
) -> Result<Told, OutOfMemory>
    ensures { IfOk result
        (λ told. IsToldOf world.now.table (world_of world.now) process question.entry told) }
{
    match question {
        Question::Request(action) => match checked(alloc, world, process, action) {
            Ok(reason) => Ok(Told::Reason(Key::of(alloc, &reason)?)),
            Err(error) => Err(error),
        },
        Question::Veil(place) => Ok(Told::Veil(kept_by(world, process, place))),
    }
}

/// The letters of the veil that a process keeps at a place.
fn kept_by<T: FileTree>(world: &World<T>, process: u32, place: &Place) -> Option<Perms>
    ensures { result ≡ kept_in (world_of world.now) process place.now }
{
    world.process(process)?.kept(place)
}
