//! Where trials start: the world of a script before a line, so that the lines before it are served
//! once for many trials.

ghost use Rattle.std.specs.Prelude.{◌≡◌, ◌≤◌, ℕ, IfOk, List, OnOk, take};
ghost use Rattle.pua_script.specs.Requests.{Asked};
ghost use Rattle.pua_calls.specs.Calls.{CallTable as Table};
ghost use Rattle.pua_script.specs.Replay.{World as AnyWorld, answers_to, new_world};
ghost use Rattle.pua_tight.specs.Starts.{IsStart};
ghost use Rattle.pua_tight.specs.Uses.{first_other};

use crate::wanted::{Wanted, served_otherwise};
use pua_script::{Request, World, WorldFault};
use pua_tree::{OutOfMemory, SlabTree};

/// How many lines a trial serves again, at most, before its own.
const NEAR: usize = 64;

/// A line of a script, and the world before it. The only error of its functions is that a growth was
/// refused.
#[derive(Drop)]
pub(crate) struct Start {
    pub(crate) line: usize,
    pub(crate) world: World<SlabTree>,
}

impl Start {
    /// The first line of any script.
    pub(crate) fn first(wanted: &Wanted<'_>) -> Result<Start, OutOfMemory>
        ensures line { IfOk result (λ start. start.line ≡ 0) }
        ensures start { IfOk result (λ start. (asks : List Asked) →
            IsStart wanted.now.table.now (new_world wanted.now.tree) asks start) }
    {
        Ok(Start {
            line: 0,
            world: wanted.begun()?,
        })
    }

    /// Goes to the line of a script, or to one near before it.
    pub(crate) fn go_near(
        &mut self,
        wanted: &Wanted<'_>,
        requests: &[Request],
        line: usize,
    ) -> Result<(), OutOfMemory>
        ensures start { OnOk result
            (IsStart wanted.now.table.now (new_world wanted.now.tree) requests.now self.old →
            IsStart wanted.now.table.now (new_world wanted.now.tree) requests.now self.new) }
        ensures before { OnOk result (self.new.line ≤ line) }
    {
        self.go_back(wanted, line)?;
        self.go_on(requests, line - line % NEAR)?;
        Ok(())
    }

    /// Goes to the first line, if it is behind this one.
    fn go_back(&mut self, wanted: &Wanted<'_>, line: usize) -> Result<(), OutOfMemory>
        ensures start { OnOk result ((asks : List Asked) →
            IsStart wanted.now.table.now (new_world wanted.now.tree) asks self.old →
            IsStart wanted.now.table.now (new_world wanted.now.tree) asks self.new) }
        ensures before { OnOk result (self.new.line ≤ line) }
    {
        if line < self.line {
            *self = Start::first(wanted)?;
        }
        Ok(())
    }

    /// Serves the lines up to one, or to the script's end.
    fn go_on(&mut self, requests: &[Request], line: usize) -> Result<(), OutOfMemory>
        ensures start { OnOk result ((table : Table) (w : AnyWorld) →
            IsStart table w requests.now self.old → IsStart table w requests.now self.new) }
        ensures before { OnOk result ((last : ℕ) → line ≤ last → self.old.line ≤ last →
            self.new.line ≤ last) }
    {
        while self.line < line {
            let Some(request) = requests.get(self.line) else {
                return Ok(());
            };
            let Ok(_) = self.world.apply(request) else {
                return Err(OutOfMemory);
            };
            self.line += 1;
        }
        Ok(())
    }

    /// Gives back its memory: one call, as [`release`] is.
    pub(crate) fn end(self) {}

    /// The index of the first request that is answered otherwise than is wanted, if there is one, of
    /// a script whose lines before this one are as they were.
    pub(crate) fn first_other(
        &self,
        wanted: &Wanted<'_>,
        requests: &[Request],
    ) -> Result<Option<usize>, OutOfMemory>
        ensures { IfOk result (λ other. (asks : List Asked) →
            answers_to wanted.now.table.now (new_world wanted.now.tree) asks
            ≡ wanted.now.answers.items →
            IsStart wanted.now.table.now (new_world wanted.now.tree) asks self.now →
            take self.now.line requests.now ≡ take self.now.line asks → other ≡ first_other
            (answers_to wanted.now.table.now (new_world wanted.now.tree) requests.now)
            wanted.now.answers.items) }
    {
        let mut world = self.world.copy()?;
        let wanted = wanted.answers.as_slice();
        let other = served_otherwise(&mut world, requests, self.line, wanted);
        release(world);
        match other {
            Ok(other) => Ok(other),
            Err(WorldFault::OutOfMemory) => Err(OutOfMemory),
        }
    }
}

/// Gives back the memory of a world: one call, where the world's drop would else be walked and
/// proved at each exit after it.
pub(crate) fn release(world: World<SlabTree>) {}
