//! What a request passed, one check after another.

ghost use Rattle.std.specs.Prelude.{◌≡◌, ◌++◌, ◌∷◌, [], if◌then◌else◌, List};
ghost use Rattle.std.specs.Prelude.{IfOk, IfSome, OnOk, is_none, map};
ghost use Rattle.pua_path.specs.Fits.{FoundFits};
ghost use Rattle.pua_path.specs.Traces.{trace_of_text};
ghost use Rattle.pua_path.specs.declared.found.Found as founds;
ghost use Rattle.pua_calls.specs.Calls.{rule_of};
ghost use Rattle.pua_policy.specs.Reasons.{promising};
ghost use Rattle.pua_script.specs.Decide.{New, Old, Side as Seen, Sole};
ghost use Rattle.pua_script.specs.Openings.{opening_of, opening_seen};
ghost use Rattle.pua_script.specs.Worlds.{world_of};
ghost use Rattle.pua_why.specs.Facts.{Fact as Meant, Follows, call_facts, call_trace, facts};
ghost use Rattle.pua_why.specs.Facts.{facts_by, facts_named, facts_of, facts_promised};
ghost use Rattle.pua_why.specs.Facts.{facts_under, opened_facts, promise_of_row};
ghost use Rattle.pua_why.specs.Facts.{chroot_facts, names_facts, pair_facts, unveil_facts};
ghost use Rattle.pua_why.specs.Reasons.{uncovered_fault};
ghost use Rattle.pua_why.specs.Seen.{fact_seen, on_named_fact, side_seen};

use crate::checks::traced;
use crate::told::{Fact, Side};
use pua_calls::needs::ending;
use pua_calls::{Call, CallTable, PairNeed, Perms, Promises};
use pua_path::{Counted, Ending, Found, Last, Links, Probe, Spot, Start, Way};
use pua_policy::{Covering, Place, Process, Promising};
use pua_script::{Action, Opening, World, opening_of};
use pua_tree::{FileTree, NodeId, OutOfMemory};
use std::alloc::Global;
use std::marker::Model;

/// What a request passed so far, and room for the links of its paths. Contracts see the facts.
#[derive(Drop)]
struct Passed {
    links: Links,
    facts: Vec<Fact>,
}

impl Model for Passed {
    ghost use Rattle.std.specs.Prelude.{List, map};
    ghost use Rattle.pua_why.specs.Facts.{Fact as Meant};
    ghost use Rattle.pua_why.specs.Seen.{fact_seen};

    ghost Value = { List Meant };

    ghost view = { λ a. map fact_seen a.facts.items };
}

/// What this request passes, if a process of this number asks it now, one check after another: all
/// but its answer. The only error is that a growth was refused.
pub fn facts<T: FileTree>(
    alloc: Global,
    world: &World<T>,
    number: u32,
    action: &Action,
) -> Result<Vec<Fact>, OutOfMemory>
    ensures { IfOk result (λ told. map fact_seen told.items
        ≡ facts_of world.now.table (world_of world.now)
        (record { process = number; action = action.now })) }
{
    let mut passed = Passed::new(alloc)?;
    if let Some(process) = world.process(number) {
        passed.add_request(world.tree(), world.table(), process, action)?;
    }
    Ok(passed.facts)
}

impl Passed {
    /// Nothing yet.
    fn new(alloc: Global) -> Result<Passed, OutOfMemory>
        ensures { IfOk result (λ passed. passed ≡ []) }
    {
        let links = Links::new(alloc)?;
        Ok(Passed {
            links,
            facts: Vec::new(alloc),
        })
    }

    /// Adds what a process's request passes.
    fn add_request<T: FileTree>(
        &mut self,
        tree: &T,
        table: &CallTable,
        process: &Process,
        action: &Action,
    ) -> Result<(), OutOfMemory>
        ensures { OnOk result (self.new ≡ self.old
            ++ facts table.now (T.content tree.now) process.now action.now) }
    {
        match action {
            Action::OnPath(call, path) => {
                self.add_asked(tree, table, process, *call, path.bytes())
            }
            Action::Symlink(_, path) => {
                self.add_call(tree, table, process, Call::Symlink, path.bytes())
            }
            Action::Rename(old, new) => {
                let (old, new) = (old.bytes(), new.bytes());
                self.add_pair(tree, table.rename(), process, Ending::Dropped, old, new)
            }
            Action::Link(old, new) => {
                let (old, new) = (old.bytes(), new.bytes());
                self.add_pair(tree, table.link(), process, Ending::Dot, old, new)
            }
            Action::Unveil(path, _) => self.add_unveil(tree, process, path.bytes()),
            Action::Lock => self.add_promises(process, &[Promises::UNVEIL]),
            Action::Fork(_) => self.add_promises(process, &[Promises::PROC]),
            Action::Hold { call, path, .. } => {
                self.add_asked(tree, table, process, *call, path.bytes())
            }
            Action::Chroot(path) => self.add_chroot(tree, table, process, path.bytes()),
            Action::Take { .. } => self.add_promises(process, &[Promises::RECVFD]),
            Action::Close(_) | Action::Fchdir(_) => Ok(()),
            Action::Uses(any) => self.add_promises(process, any.sets()),
            Action::Pledge(_, _) | Action::Exit | Action::Comment => Ok(()),
        }
    }

    /// Adds what a call on a path passes, which a promise may open.
    fn add_asked<T: FileTree>(
        &mut self,
        tree: &T,
        table: &CallTable,
        process: &Process,
        call: Call,
        path: &[u8],
    ) -> Result<(), OutOfMemory>
        ensures { OnOk result (self.new ≡ self.old ++ facts_by table.now (T.content tree.now)
            process.now call path.now (opening_of table.now process.now call path.now)) }
    {
        match opening_of(table, process, call, path) {
            Some(row) => self.add_opened(tree, table, process, call, path, row),
            None => self.add_call(tree, table, process, call, path),
        }
    }

    /// Adds what a call on a path passes that a promise opens.
    fn add_opened<T: FileTree>(
        &mut self,
        tree: &T,
        table: &CallTable,
        process: &Process,
        call: Call,
        path: &[u8],
        row: &Opening,
    ) -> Result<(), OutOfMemory>
        ensures { OnOk result (self.new ≡ self.old ++ opened_facts table.now (T.content tree.now)
            process.now call path.now (opening_seen row.now)) }
    {
        self.add(Fact::Opened(promise_of(row)))?;
        if row.asks_veils {
            return self.add_object(tree, table, process, call, path);
        }
        self.add_named(tree, process, call, path)
    }

    /// Adds what the path of a call names.
    fn add_named<T: FileTree>(
        &mut self,
        tree: &T,
        process: &Process,
        call: Call,
        path: &[u8],
    ) -> Result<(), OutOfMemory>
        ensures { OnOk result (self.new ≡ self.old ++ facts_named Sole
            (call_trace (T.content tree.now) process.now call path.now) (λ object. [])) }
    {
        let mut probe = Counted::new(tree);
        let (from, last) = (process.start(), call.last());
        self.add_name(&mut probe, Side::Sole, from, path, ending(call), last)?;
        Ok(())
    }

    /// Adds what a call on a path passes by its promises.
    fn add_call<T: FileTree>(
        &mut self,
        tree: &T,
        table: &CallTable,
        process: &Process,
        call: Call,
        path: &[u8],
    ) -> Result<(), OutOfMemory>
        ensures { OnOk result (self.new ≡ self.old
            ++ call_facts table.now (T.content tree.now) process.now call path.now) }
    {
        match process.promising(table.alternatives(call)) {
            Promising::Holds(set) => {
                self.add(Fact::Needs(set))?;
                self.add_object(tree, table, process, call, path)
            }
            Promising::HasEnded | Promising::Lacks { .. } => Ok(()),
        }
    }

    /// Adds what a chroot passes: its promise, and then what a chdir passes by its path.
    fn add_chroot<T: FileTree>(
        &mut self,
        tree: &T,
        table: &CallTable,
        process: &Process,
        path: &[u8],
    ) -> Result<(), OutOfMemory>
        ensures { OnOk result (self.new ≡ self.old
            ++ chroot_facts table.now (T.content tree.now) process.now path.now) }
    {
        match process.promising(&[Promises::ID]) {
            Promising::Holds(set) => {
                self.add(Fact::Needs(set))?;
                self.add_object(tree, table, process, Call::Chdir, path)
            }
            Promising::HasEnded | Promising::Lacks { .. } => Ok(()),
        }
    }

    /// Adds what the path of a call names, and then what covers that.
    fn add_object<T: FileTree>(
        &mut self,
        tree: &T,
        table: &CallTable,
        process: &Process,
        call: Call,
        path: &[u8],
    ) -> Result<(), OutOfMemory>
        ensures { OnOk result (self.new ≡ self.old
            ++ facts_named Sole (call_trace (T.content tree.now) process.now call path.now)
            (λ object. facts_under Sole (T.content tree.now) process.now object
            (rule_of table.now call).perms [])) }
    {
        let mut probe = Counted::new(tree);
        let (from, last) = (process.start(), call.last());
        match self.add_name(&mut probe, Side::Sole, from, path, ending(call), last)? {
            Some(found) => {
                let perms = table.perms(call);
                self.add_last_cover(&mut probe, process, Side::Sole, &found, perms)
            }
            None => Ok(()),
        }
    }

    /// Adds what a request with two paths passes: the promises of both names are told as one set.
    fn add_pair<T: FileTree>(
        &mut self,
        tree: &T,
        need: &PairNeed,
        process: &Process,
        ending: Ending,
        old: &[u8],
        new: &[u8],
    ) -> Result<(), OutOfMemory>
        ensures { OnOk result (self.new ≡ self.old
            ++ pair_facts need.now (T.content tree.now) process.now ending old.now new.now) }
    {
        let Promising::Holds(set) = process.promising(need.old_name().alternatives()) else {
            return Ok(());
        };
        let Promising::Holds(other) = process.promising(need.new_name().alternatives()) else {
            return self.add(Fact::Needs(set));
        };
        self.add(Fact::Needs(set.union(other)))?;
        self.add_names(tree, need, process, ending, old, new)
    }

    /// Adds what two paths name, and then what covers both.
    fn add_names<T: FileTree>(
        &mut self,
        tree: &T,
        need: &PairNeed,
        process: &Process,
        ending: Ending,
        old: &[u8],
        new: &[u8],
    ) -> Result<(), OutOfMemory>
        ensures { OnOk result (self.new ≡ self.old
            ++ names_facts need.now (T.content tree.now) process.now ending old.now new.now) }
    {
        let mut probe = Counted::new(tree);
        let last = need.old_name().last();
        let Some(old) = self.add_name(&mut probe, Side::Old, process.start(), old, ending, last)?
        else {
            return Ok(());
        };
        let last = need.new_name().last();
        let Some(new) = self.add_name(&mut probe, Side::New, process.start(), new, ending, last)?
        else {
            return Ok(());
        };
        self.add_covers(&mut probe, need, process, &old, &new)
    }

    /// Adds what covers an old name and a new one.
    fn add_covers<'t, P: Probe<'t>>(
        &mut self,
        probe: &mut P,
        need: &PairNeed,
        process: &Process,
        old: &Found,
        new: &Found,
    ) -> Result<(), OutOfMemory>
        ensures { OnOk result (FoundFits (P.tree probe.old) old.now →
            FoundFits (P.tree probe.old) new.now →
            self.new ≡ self.old
            ++ facts_under Old (P.tree probe.old) process.now old.now need.now.old.needs.perms
            (facts_under New (P.tree probe.old) process.now new.now need.now.new.needs.perms [])) }
    {
        if self.add_cover(probe, process, Side::Old, old, need.old_name().perms())? {
            return self.add_last_cover(probe, process, Side::New, new, need.new_name().perms());
        }
        Ok(())
    }

    /// Adds what an unveil passes.
    fn add_unveil<T: FileTree>(
        &mut self,
        tree: &T,
        process: &Process,
        path: &[u8],
    ) -> Result<(), OutOfMemory>
        ensures { OnOk result (self.new ≡ self.old
            ++ unveil_facts (T.content tree.now) process.now path.now) }
    {
        let Promising::Holds(set) = process.promising(&[Promises::UNVEIL]) else {
            return Ok(());
        };
        self.add(Fact::Needs(set))?;
        if process.locked() {
            return Ok(());
        }
        let mut probe = Counted::new(tree);
        let (from, last) = (process.start(), Last::Followed);
        self.add_name(&mut probe, Side::Sole, from, path, Ending::Dot, last)?;
        Ok(())
    }

    /// Adds the first of these sets of promises that is held, if one is.
    fn add_promises(&mut self, process: &Process, sets: &[Promises]) -> Result<(), OutOfMemory>
        ensures { OnOk result (self.new ≡ self.old
            ++ facts_promised (promising process.now sets.now) []) }
    {
        match process.promising(sets) {
            Promising::Holds(set) => self.add(Fact::Needs(set)),
            Promising::HasEnded | Promising::Lacks { .. } => Ok(()),
        }
    }

    /// Adds the links that a path follows, and what it names, if it names something.
    fn add_name<'t, P: Probe<'t>>(
        &mut self,
        probe: &mut P,
        side: Side,
        from: Start,
        path: &[u8],
        ending: Ending,
        last: Last,
    ) -> Result<Option<Found>, OutOfMemory>
        ensures exact { IfOk result (λ named. (more : founds.Found → List Meant) →
            self.new ++ on_named_fact named more ≡ self.old ++ facts_named (side_seen side)
            (trace_of_text (P.tree probe.old) from ending path.now last) more) }
        ensures fits { IfOk result (λ named. IfSome named (FoundFits (P.tree probe.old))) }
        ensures tree { P.tree probe.new ≡ P.tree probe.old }
    {
        let outcome = traced(probe, from, path, ending, last, &mut self.links);
        add_links(&mut self.facts, side, self.links.spots())?;
        match &outcome {
            Ok(found) => {
                add(&mut self.facts, Fact::Names(side, *found))?;
                Ok(Some(*found))
            }
            Err(_) => Ok(None),
        }
    }

    /// Adds what covers an object, if that leaves it these permissions.
    fn add_last_cover<'t, P: Probe<'t>>(
        &mut self,
        probe: &mut P,
        process: &Process,
        side: Side,
        found: &Found,
        perms: Perms,
    ) -> Result<(), OutOfMemory>
        ensures { OnOk result (FoundFits (P.tree probe.old) found.now →
            self.new ≡ self.old
            ++ facts_under (side_seen side) (P.tree probe.old) process.now found.now perms []) }
    {
        self.add_cover(probe, process, side, found, perms)?;
        Ok(())
    }

    /// Adds what covers an object, if that leaves it these permissions, and answers whether it
    /// does.
    fn add_cover<'t, P: Probe<'t>>(
        &mut self,
        probe: &mut P,
        process: &Process,
        side: Side,
        found: &Found,
        perms: Perms,
    ) -> Result<bool, OutOfMemory>
        ensures exact { IfOk result (λ covered. FoundFits (P.tree probe.old) found.now →
            (more : List Meant) →
            self.new ++ (if covered then more else []) ≡ self.old
            ++ facts_under (side_seen side) (P.tree probe.old) process.now found.now perms more) }
        ensures tree { P.tree probe.new ≡ P.tree probe.old }
    {
        let over = process.covering(probe, found);
        if !leaves(&over, perms) {
            return Ok(false);
        }
        self.add(Fact::Under(side, over))?;
        Ok(true)
    }

    /// Adds a fact.
    fn add(&mut self, fact: Fact) -> Result<(), OutOfMemory>
        ensures { OnOk result (self.new ≡ self.old ++ fact_seen fact ∷ []) }
    {
        add(&mut self.facts, fact)
    }
}

/// The promise of an opening.
fn promise_of(row: &Opening) -> Promises
    ensures { result ≡ promise_of_row (opening_seen row.now) }
{
    match Promises::read(row.promise.as_bytes()) {
        Ok(promise) => promise,
        Err(_) => Promises::NONE,
    }
}

/// Whether what covers an object leaves it these permissions.
fn leaves(over: &Covering, perms: Perms) -> bool
    ensures { (side : Seen) (object : founds.Found) →
        result ≡ is_none (uncovered_fault side object perms over.now) }
{
    match over {
        Covering::InView => true,
        Covering::NoneOver => false,
        Covering::By(_, given) => given.contains(perms),
    }
}

/// Adds links in their order.
fn add_links(told: &mut Vec<Fact>, side: Side, links: &[Spot]) -> Result<(), OutOfMemory>
    ensures { OnOk result (map fact_seen told.new.items ≡ map fact_seen told.old.items
        ++ map (Follows (side_seen side)) links.now) }
{
    for spot in links {
        add(told, Fact::Follows(side, *spot))?;
    }
    Ok(())
}

/// Adds a fact. The unused values name the enums that stand inside of a fact: the proof of a push
/// has to be told of each.
fn add(told: &mut Vec<Fact>, fact: Fact) -> Result<(), OutOfMemory>
    ensures { OnOk result (map fact_seen told.new.items
        ≡ map fact_seen told.old.items ++ fact_seen fact ∷ []) }
{
    let _found: Option<Found> = None;
    let _way: Option<Way> = None;
    let _node: Option<NodeId> = None;
    let _over: Option<Covering> = None;
    let _place: Option<Place> = None;
    told.push(fact)?;
    Ok(())
}
