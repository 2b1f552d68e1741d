//! Plans that are tried one after another after the same script.

ghost use Rattle.std.specs.Prelude.{◌≡◌, ◌∷◌, [], List, IfErr, IfOk, IfSome, is_some, length};
ghost use Rattle.std.specs.List.{Contains};
ghost use Rattle.pua_calls.specs.Calls.{effect_of};
ghost use Rattle.pua_script.specs.Worlds.{WorldState, world_of};
ghost use Rattle.pua_how.specs.Served.{AreGranted, AreWay, IsStaged};
ghost use Rattle.pua_how.specs.Steps.{NoneComes, comes, plan_comes, some_plan_comes};
ghost use Rattle.pua_how.specs.declared.line.WayLine.{WayLine as AnyLine};
ghost use Rattle.pua_how.specs.declared.target.Target.{Target as Thing};

use crate::path_question::Meant;
use crate::serve::{Served, serve_first, serve_last};
use crate::step::Step;
use crate::target::Target;
use crate::way::{BestPlans, NoWay, Plan};
use pua_calls::{Call, Effect, Rules};
use pua_script::World;
use pua_tree::{CopiedTree, FileTree, OutOfMemory};
use std::alloc::Global;
use std::marker::Model;

/// A copy of a world in which the first steps of a plan were served.
#[derive(Drop)]
struct Stage<T: CopiedTree + Drop> {
    first: Vec<Step>,
    world: World<T>,
    /// What was served; None where the steps do not come as far as the last one.
    served: Option<Served>,
}

/// Trials of plans for a process after a script, each in a copy of the world that the script left.
/// A plan that begins as the one before is tried in the same copy, if the call before changed
/// nothing: a copy takes longer than all else. Contracts see the world, the process's number and
/// the rules by which lines are read.
#[derive(Drop)]
pub struct Trials<'w, T: CopiedTree + Drop> {
    alloc: Global,
    rules: Rules,
    world: &'w World<T>,
    process: u32,
    stage: Option<Stage<T>>,
}

impl<'w, T: CopiedTree + Drop> Model for Trials<'w, T> {
    ghost use Rattle.std.specs.Prelude.{IfSome};
    ghost use Rattle.pua_how.specs.Served.{IsStaged, Tried};

    ghost Value = { Tried };

    ghost view = { λ s. record { rules = s.rules; world = s.world.now; process = s.process } };

    ghost invariant = { λ s. IfSome s.stage (λ stage. IsStaged s.rules s.world.now s.process
        stage.first.items stage.world stage.served) };
}

impl<'w, T: CopiedTree + Drop> Trials<'w, T> {
    /// Trials for a process after a world, none of which was made yet.
    pub fn new(alloc: Global, rules: Rules, world: &'w World<T>, process: u32) -> Trials<'w, T>
        ensures { result ≡ record { rules = rules; world = world.now; process = process } }
    {
        Trials {
            alloc,
            rules,
            world,
            process,
            stage: None,
        }
    }

    /// The number of lines of a way, by the first of the plans that comes to one, as
    /// [`BestPlans::serve`] says. [`NoWay`] exactly where neither does. The only error is that a
    /// growth was refused.
    pub fn count(
        &mut self,
        plans: BestPlans,
        call: Call,
        meant: &Meant,
    ) -> Result<Result<usize, NoWay>, OutOfMemory>
        ensures way { IfOk result (λ counted. IfOk counted (λ count. (thing : Thing)
            × Contains meant.now.targets.items thing × (lines : List AnyLine)
            × AreWay self.old.rules self.old.world self.old.process call thing lines
            × (length lines ≡ count))) }
        ensures none { IfOk result (λ counted. IfErr counted (NoneComes self.old.rules
            self.old.world.table self.old.process call meant.now.targets.items
            (world_of self.old.world))) }
        ensures same { self.new ≡ self.old }
    {
        match self.find(&plans, call, meant)? {
            Some(count) => Ok(Ok(count)),
            None => Ok(Err(NoWay::of(plans))),
        }
    }

    /// The number of lines by the first plan that comes to a way. None exactly where neither does.
    fn find(
        &mut self,
        plans: &BestPlans,
        call: Call,
        meant: &Meant,
    ) -> Result<Option<usize>, OutOfMemory>
        ensures way { IfOk result (λ found. IfSome found (λ count. (thing : Thing)
            × Contains meant.now.targets.items thing × (lines : List AnyLine)
            × AreWay self.old.rules self.old.world self.old.process call thing lines
            × (length lines ≡ count))) }
        ensures found { IfOk result (λ found. is_some found
            ≡ some_plan_comes self.old.rules self.old.world.table self.old.process call
            meant.now.targets.items plans.now (world_of self.old.world)) }
        ensures same { self.new ≡ self.old }
    {
        if let Some(plan) = &plans.first {
            if let Some(count) = self.count_of(plan, call, meant)? {
                return Ok(Some(count));
            }
        }
        match &plans.second {
            Some(plan) => self.count_of(plan, call, meant),
            None => Ok(None),
        }
    }

    /// The number of lines by a plan. None exactly where it does not come to a way.
    fn count_of(
        &mut self,
        plan: &Plan,
        call: Call,
        meant: &Meant,
    ) -> Result<Option<usize>, OutOfMemory>
        ensures way { IfOk result (λ found. IfSome found (λ count. (thing : Thing)
            × Contains meant.now.targets.items thing × (lines : List AnyLine)
            × AreWay self.old.rules self.old.world self.old.process call thing lines
            × (length lines ≡ count))) }
        ensures found { IfOk result (λ found. is_some found
            ≡ plan_comes self.old.rules self.old.world.table self.old.process call
            meant.now.targets.items plan.now (world_of self.old.world)) }
        ensures same { self.new ≡ self.old }
    {
        let Some(target) = meant.targets.get(plan.place) else {
            return Ok(None);
        };
        self.count_to(call, target, plan.steps.as_slice())
    }

    /// The number of lines by these steps. None exactly where they do not come to the call.
    fn count_to(
        &mut self,
        call: Call,
        target: &Target,
        steps: &[Step],
    ) -> Result<Option<usize>, OutOfMemory>
        ensures way { IfOk result (λ found. IfSome found (λ count. (lines : List AnyLine)
            × AreWay self.old.rules self.old.world self.old.process call target.now lines
            × (length lines ≡ count))) }
        ensures found { IfOk result (λ found. is_some found
            ≡ comes self.old.rules self.old.world.table self.old.process call target.now steps.now
            (world_of self.old.world) 0) }
        ensures same { self.new ≡ self.old }
    {
        let Some((last, first)) = steps.split_last() else {
            return Ok(None);
        };
        let mut stage = self.stage_of(first)?;
        let Some(served) = &stage.served else {
            self.stage = Some(stage);
            return Ok(None);
        };
        let (alloc, rules, process) = (self.alloc, self.rules, self.process);
        let world = &mut stage.world;
        let count = count_lines(alloc, rules, world, process, call, target, last, served)?;
        if count.is_some() && matches!(call.effect(), Effect::Looks) {
            self.stage = Some(stage);
        }
        Ok(count)
    }

    /// A copy in which these steps were served: the one that is kept, if they were the same.
    fn stage_of(&mut self, first: &[Step]) -> Result<Stage<T>, OutOfMemory>
        ensures staged { IfOk result (λ stage. IsStaged self.old.rules self.old.world
            self.old.process first.now stage.world stage.served) }
        ensures first { IfOk result (λ stage. stage.first.items ≡ first.now) }
        ensures same { self.new ≡ self.old }
    {
        if let Some(stage) = self.stage.take() {
            if stage.first.as_slice() == first {
                return Ok(stage);
            }
        }
        let mut steps = Vec::with_capacity(self.alloc, first.len())?;
        steps.extend_from_slice(first)?;
        let mut world = self.world.copy()?;
        let served = serve_first(self.alloc, self.rules, &mut world, self.process, first)?;
        Ok(Stage {
            first: steps,
            world,
            served,
        })
    }
}

/// The number of lines, with that of the last step, where it is the call. A call that changes
/// nothing leaves the world as it was.
fn count_lines<T: FileTree>(
    alloc: Global,
    rules: Rules,
    world: &mut World<T>,
    process: u32,
    call: Call,
    target: &Target,
    step: &Step,
    served: &Served,
) -> Result<Option<usize>, OutOfMemory>
    ensures way { (before : WorldState) →
        AreGranted rules before process served.now.lines.items world.old →
        IfOk result (λ found. IfSome found (λ count. (lines : List AnyLine)
        × AreWay rules before process call target.now lines × (length lines ≡ count))) }
    ensures found { IfOk result (λ found. is_some found
        ≡ comes rules world.old.table process call target.now (step.now ∷ [])
        (world_of world.old) served.now.made) }
    ensures kept { IfOk result (λ found. IfSome found
        (λ _. effect_of call ≡ Effect.Looks → world.new ≡ world.old)) }
{
    match serve_last(alloc, rules, world, process, call, target, step, served)? {
        Some(_line) => Ok(Some(served.lines.len() + 1)),
        None => Ok(None),
    }
}
