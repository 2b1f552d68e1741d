//! Ways: which plans are served, and what they come to.

ghost use Rattle.std.specs.Prelude.{◌≡◌, IfErr, IfOk, IfSome, is_ok, is_some};
ghost use Rattle.std.specs.List.{Contains};
ghost use Rattle.pua_script.specs.Worlds.{world_of};
ghost use Rattle.pua_how.specs.Served.{AreWay};
ghost use Rattle.pua_how.specs.Steps.{NoneComes, plan_comes, some_plan_comes};
ghost use Rattle.pua_how.specs.declared.target.Target.{Target as Thing};

use crate::line::WayLine;
use crate::path_question::Meant;
use crate::plan::Planner;
use crate::serve::serve_way;
use crate::step::Step;
use crate::target::Target;
use pua_calls::{Call, Rules};
use pua_script::World;
use pua_tree::{CopiedTree, OutOfMemory};
use std::alloc::Global;

/// Steps that may come to a call on one of the things that are meant.
#[derive(Drop)]
pub(crate) struct Plan {
    /// Which of them, by its place among all.
    pub(crate) place: usize,
    pub(crate) steps: Vec<Step>,
}

/// The two plans with the fewest steps, as far as there are two: of two that are as long the one
/// for what comes first among all that is meant.
#[derive(Drop)]
pub struct BestPlans {
    pub(crate) first: Option<Plan>,
    pub(crate) second: Option<Plan>,
}

/// Plans of which none comes to a way. Only [`BestPlans::serve`] and
/// [`Trials::count`](crate::Trials::count) make one, of plans that [`Planner::find_plans`] laid: so
/// nothing else, and no want of memory, is taken for it.
#[derive(Drop)]
pub struct NoWay {
    plans: BestPlans,
}

impl NoWay {
    /// Plans that were served, and of which none came to a way.
    pub(crate) fn of(plans: BestPlans) -> NoWay
        ensures { result.plans ≡ plans }
    {
        NoWay { plans }
    }

    /// The plans, as they were before they were served.
    pub fn into_plans(self) -> BestPlans
        ensures { result ≡ self.plans }
    {
        self.plans
    }
}

impl Planner<'_> {
    /// Lays plans by which the process may come to a call on something that is meant. Nothing is
    /// promised of them: what a plan comes to is seen when it is served. The only error is that a
    /// growth was refused.
    pub fn find_plans(&self, call: Call, meant: &Meant) -> Result<BestPlans, OutOfMemory> {
        let mut best = BestPlans {
            first: None,
            second: None,
        };
        for (place, target) in meant.targets.iter().enumerate() {
            self.offer_plans(call, target, meant.name.as_ref(), place, &mut best)?;
        }
        Ok(best)
    }
}

impl BestPlans {
    /// Serves the plans, each in a copy of a world, until one comes to a way, as
    /// [`serve_way`](crate::serve_way) says. [`NoWay`] exactly where neither does. The only error
    /// is that a growth was refused.
    pub fn serve<T: CopiedTree + Drop>(
        self,
        alloc: Global,
        rules: Rules,
        world: &World<T>,
        process: u32,
        call: Call,
        meant: &Meant,
    ) -> Result<Result<Vec<WayLine>, NoWay>, OutOfMemory>
        ensures way { IfOk result (λ served. IfOk served (λ lines. (thing : Thing)
            × Contains meant.now.targets.items thing
            × AreWay rules world.now process call thing lines.items)) }
        ensures none { IfOk result (λ served. IfErr served (NoneComes rules world.now.table
            process call meant.now.targets.items (world_of world.now))) }
        ensures found { IfOk result (λ served. is_ok served
            ≡ some_plan_comes rules world.now.table process call
            meant.now.targets.items self (world_of world.now)) }
    {
        match self.find(alloc, rules, world, process, call, meant)? {
            Some(lines) => Ok(Ok(lines)),
            None => Ok(Err(NoWay::of(self))),
        }
    }

    /// The lines of the first plan that comes to a way. None exactly where neither does.
    fn find<T: CopiedTree + Drop>(
        &self,
        alloc: Global,
        rules: Rules,
        world: &World<T>,
        process: u32,
        call: Call,
        meant: &Meant,
    ) -> Result<Option<Vec<WayLine>>, OutOfMemory>
        ensures way { IfOk result (λ served. IfSome served (λ lines. (thing : Thing)
            × Contains meant.now.targets.items thing
            × AreWay rules world.now process call thing lines.items)) }
        ensures found { IfOk result (λ served. is_some served
            ≡ some_plan_comes rules world.now.table process call
            meant.now.targets.items self.now (world_of world.now)) }
    {
        if let Some(plan) = &self.first {
            if let Some(lines) = plan.serve(alloc, rules, world, process, call, meant)? {
                return Ok(Some(lines));
            }
        }
        match &self.second {
            Some(plan) => plan.serve(alloc, rules, world, process, call, meant),
            None => Ok(None),
        }
    }

    /// Keeps steps if they are among the two shortest so far.
    pub(crate) fn offer(&mut self, place: usize, steps: Vec<Step>) {
        let plan = Plan { place, steps };
        if plan.is_shorter(&self.first) {
            self.second = self.first.take();
            self.first = Some(plan);
        } else if plan.is_shorter(&self.second) {
            self.second = Some(plan);
        }
    }
}

impl Plan {
    /// Whether it has fewer steps than another one, or there is no other.
    fn is_shorter(&self, other: &Option<Plan>) -> bool {
        match other {
            Some(other) => self.steps.len() < other.steps.len(),
            None => true,
        }
    }

    /// Serves the plan for a process in a copy of a world: a way to the call on something that is
    /// meant, if each step is answered `ok`, none but the last is an exec, and the last is that
    /// call, on a path that names this thing when it is served. Its lines are read by these rules.
    /// None exactly where this is not so. The only error is that a growth was refused.
    fn serve<T: CopiedTree + Drop>(
        &self,
        alloc: Global,
        rules: Rules,
        world: &World<T>,
        process: u32,
        call: Call,
        meant: &Meant,
    ) -> Result<Option<Vec<WayLine>>, OutOfMemory>
        ensures way { IfOk result (λ served. IfSome served (λ lines. (thing : Thing)
            × Contains meant.now.targets.items thing
            × AreWay rules world.now process call thing lines.items)) }
        ensures found { IfOk result (λ served. is_some served
            ≡ plan_comes rules world.now.table process call
            meant.now.targets.items self.now (world_of world.now)) }
    {
        let Some(target) = meant.targets.get(self.place) else {
            return Ok(None);
        };
        let steps = self.steps.as_slice();
        let mut copy = world.copy()?;
        serve_way(alloc, rules, &mut copy, process, call, target, steps)
    }
}
