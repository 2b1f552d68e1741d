//! The verdict on a call.

ghost use Rattle.std.specs.Prelude.{◌≡◌, ◌+◌, ◌≤◌, [], ◌∷◌, length};
ghost use Rattle.std.specs.Prelude.{None, Some, is_none, option_map, MatchResult};
ghost use Rattle.std.specs.Result.{result_err};
ghost use Rattle.pua_tree.specs.Tree.{Tree, is_mount};
ghost use Rattle.pua_calls.specs.Calls.{rule_of};
ghost use Rattle.pua_calls.specs.CallSets.{has};
ghost use Rattle.pua_calls.specs.declared.rules.Rules.TheVariants.{Standard};
ghost use Rattle.pua_policy.specs.States.{may_any};
ghost use Rattle.pua_policy.specs.Objects.{misfit_seen, object_seen};
ghost use Rattle.pua_policy.specs.Verdict.{FoundFits, FoundsFit, verdict, verdict_of};
ghost use Rattle.pua_policy.specs.Verdict.{covered_verdict, is_allowed, refusal_of, found_fault};
ghost use Rattle.pua_policy.specs.Verdict.{cover_fault, object_fault, object_of, object_of_kind};
ghost use Rattle.pua_policy.specs.Verdict.{Object as Judged};
ghost use Rattle.pua_policy.specs.Misfits.{dotdot_misfit, misfit, misfit_by, mount_misfit};
ghost use Rattle.pua_policy.specs.Misfits.{named_misfit, rmdir_misfit};
ghost use Rattle.pua_path.specs.Walks.{found_seen, way_seen};

use crate::answer::{Cover, May, Refusal, Verdict};
use crate::object::Object;
use crate::process::Process;
use pua_calls::{Call, CallTable, Calls, Fits, Misfit, Perms, Promises, Rules};
use pua_path::{Errno, Found, LentFound, LentWay, Probe, Vacancy};
use pua_tree::{Kind, NodeId};

/// Whether a process may do what needs all of these promises. Without them the call fails with
/// `ENOSYS` where `error` is held, and else the process is killed (pledge(2)); one that has ended
/// may do nothing.
pub fn promised(process: &Process, promises: Promises) -> Result<(), Refusal>
    ensures state { result_err result
        ≡ refusal_of (may_any process.now (promises ∷ [])) }
    ensures exact { MatchResult result
        (λ _. may_any process.now (promises ∷ []) ≡ May.Yes)
        (λ refusal. refusal_of (may_any process.now (promises ∷ [])) ≡ Some refusal) }
{
    promised_any(process, &[promises])
}

/// Whether a process holds what a call needs by a table: all promises of one of its alternatives.
/// Without them the call fails, or the process is killed, as without those of `promised`.
pub fn promised_for(process: &Process, table: &CallTable, call: Call) -> Result<(), Refusal>
    ensures state { result_err result
        ≡ refusal_of (may_any process.now (rule_of table.now call).alternatives) }
    ensures exact { MatchResult result
        (λ _. may_any process.now (rule_of table.now call).alternatives ≡ May.Yes)
        (λ refusal. refusal_of (may_any process.now (rule_of table.now call).alternatives) ≡ Some refusal) }
{
    promised_any(process, table.alternatives(call))
}

/// Whether a process may do what needs all promises of one of these sets. Promises are asked here
/// and nowhere else. Where it holds none of the sets the call fails with `ENOSYS` if `error` is
/// held, and else the process is killed; one that has ended may do nothing.
pub fn promised_any(process: &Process, alternatives: &[Promises]) -> Result<(), Refusal>
    ensures state { result_err result
        ≡ refusal_of (may_any process.now alternatives.now) }
    ensures exact { MatchResult result
        (λ _. may_any process.now alternatives.now ≡ May.Yes)
        (λ refusal. refusal_of (may_any process.now alternatives.now) ≡ Some refusal) }
{
    match process.may_any(alternatives) {
        May::Yes => Ok(()),
        May::Enosys => Err(Refusal::Failed(Errno::ENOSYS)),
        May::Death => Err(Refusal::Killed),
    }
}

/// The verdict on a call by a table, on what its path names: first the promises, then the cover,
/// the permissions that it lacks, and what was found (pledge(2), unveil(2); this order: this
/// profile). Whether there is room for a new node is not asked. What was found is of the probe's
/// tree as it stands. At most four more looks at the tree than it has nodes.
pub fn verdict<'t, P: Probe<'t>>(
    probe: &mut P,
    process: &Process,
    table: &CallTable,
    call: Call,
    found: &Found,
) -> Verdict
    requires { FoundFits (P.tree probe.old) found.now }
    ensures exact { result ≡ verdict (P.tree probe.old) table.now process.now call found.now }
    ensures tree { P.tree probe.new ≡ P.tree probe.old }
    ensures cost { P.count probe.new ≤ P.count probe.old + length (P.tree probe.old).nodes + 4 }
{
    if let Err(refusal) = promised_for(process, table, call) {
        return refusal.verdict();
    }
    match object_verdict(probe, process, table, call, found) {
        Ok(()) => Verdict::Allowed,
        Err(errno) => Verdict::Failed(errno),
    }
}

/// The verdict on a call by a table, where its path may have failed: without its promises the call
/// fails by them, and else by its path (this profile).
pub fn verdict_of<'t, P: Probe<'t>>(
    probe: &mut P,
    process: &Process,
    table: &CallTable,
    call: Call,
    found: Result<Found, Errno>,
) -> Verdict
    requires { FoundsFit (P.tree probe.old) found }
    ensures exact { result ≡ verdict_of (P.tree probe.old) table.now process.now call found }
    ensures tree { P.tree probe.new ≡ P.tree probe.old }
    ensures cost { P.count probe.new ≤ P.count probe.old + length (P.tree probe.old).nodes + 4 }
{
    let errno = match found {
        Ok(found) => return verdict(probe, process, table, call, &found),
        Err(errno) => errno,
    };
    match promised_for(process, table, call) {
        Ok(()) => Verdict::Failed(errno),
        Err(refusal) => refusal.verdict(),
    }
}

/// Whether a call whose promises are held is allowed on what its path names. The first of these
/// faults is the error: nothing is left of it by the veils (`ENOENT`), they lack a permission that
/// the call needs (`EACCES`), and what is wrong with an object of this kind (unveil(2); which errno
/// a kind has: this profile). What was found is of the probe's tree as it stands. At most four more
/// looks at the tree than it has nodes.
pub fn object_verdict<'t, P: Probe<'t>>(
    probe: &mut P,
    process: &Process,
    table: &CallTable,
    call: Call,
    found: &Found,
) -> Result<(), Errno>
    requires { FoundFits (P.tree probe.old) found.now }
    ensures exact { result_err result ≡
        found_fault (P.tree probe.old) table.now process.now call found.now }
    ensures tree { P.tree probe.new ≡ P.tree probe.old }
    ensures cost { P.count probe.new ≤ P.count probe.old + length (P.tree probe.old).nodes + 4 }
{
    object_verdict_lent(probe, process, table, call, &found.lent())
}

/// The same, of what its path names with the name lent.
pub fn object_verdict_lent<'t, P: Probe<'t>>(
    probe: &mut P,
    process: &Process,
    table: &CallTable,
    call: Call,
    found: &LentFound<'_>,
) -> Result<(), Errno>
    requires { FoundFits (P.tree probe.old) (found_seen found.now) }
    ensures exact { result_err result ≡
        found_fault (P.tree probe.old) table.now process.now call (found_seen found.now) }
    ensures tree { P.tree probe.new ≡ P.tree probe.old }
    ensures cost { P.count probe.new ≤ P.count probe.old + length (P.tree probe.old).nodes + 4 }
{
    let cover = process.cover_lent(probe, found);
    if let Some(errno) = cover_fault(cover, table.perms(call)) {
        return Err(errno);
    }
    match object_fault(probe, table.rules(), call, found) {
        Some(errno) => Err(errno),
        None => Ok(()),
    }
}

/// The calls that are allowed on an object, by what the veils of the process leave of it: those on
/// which the verdict is `Verdict::Allowed`, wherever such an object stands that has this cover. The
/// tree is not asked. `Process::cover` answers the cover, and `object` what the object is.
pub fn allowed(process: &Process, table: &CallTable, cover: Cover, object: Object) -> Calls
    ensures { (t : Tree) (judged : Judged) → object ≡ object_seen t judged → (call : Call) →
        has result call ≡ is_allowed (covered_verdict t table.now process.now call cover judged) }
{
    let mut calls = Calls::NONE;
    for call in Call::ALL {
        if allows(process, table, call, &cover, object) {
            calls = calls.with(call);
        }
    }
    calls
}

/// Whether a call is allowed on an object that has this cover.
fn allows(process: &Process, table: &CallTable, call: Call, cover: &Cover, object: Object) -> bool
    ensures { (t : Tree) (judged : Judged) → object ≡ object_seen t judged →
        result ≡ is_allowed (covered_verdict t table.now process.now call cover.now judged) }
{
    promised_for(process, table, call).is_ok()
        && cover_fault(*cover, table.perms(call)).is_none()
        && suits(call, object)
}

/// What a call is on, of what its path named. One look at the tree at most.
pub fn object<'t, P: Probe<'t>>(probe: &mut P, found: &Found) -> Object
    ensures exact { result
        ≡ object_seen (P.tree probe.old) (object_of (P.tree probe.old) found.now) }
    ensures tree { P.tree probe.new ≡ P.tree probe.old }
    ensures cost { P.count probe.new ≤ P.count probe.old + 1 }
{
    match found {
        Found::Whole { dir, way } => {
            match rmdir_misfit(probe, Rules::Standard, *dir, &way.lent()) {
                Some(_) => Object::Node(Kind::Dir),
                None => Object::Removable,
            }
        }
        Found::Slot { node: Some(id), .. } => Object::at_name(probe.kind(*id)),
        Found::Slot { node: None, .. } => Object::Missing,
    }
}

/// What is wrong with a cover for a call that needs these permissions: `ENOENT` where nothing is
/// left of the object, `EACCES` where a letter lacks (unveil(2)), and None where neither is so.
pub fn cover_fault(cover: Cover, perms: Perms) -> Option<Errno>
    ensures { result ≡ cover_fault cover perms }
{
    match cover {
        Cover::All => None,
        Cover::Nothing => Some(Errno::ENOENT),
        Cover::Only(kept) if kept.contains(perms) => None,
        Cover::Only(_) => Some(Errno::EACCES),
    }
}

/// The error of what is wrong with what was found.
fn object_fault<'t, P: Probe<'t>>(
    probe: &mut P,
    whose: Rules,
    call: Call,
    found: &LentFound<'_>,
) -> Option<Errno>
    ensures exact { result ≡ object_fault whose (P.tree probe.old) call
        (object_of (P.tree probe.old) (found_seen found.now)) }
    ensures tree { P.tree probe.new ≡ P.tree probe.old }
    ensures cost { P.count probe.new ≤ P.count probe.old + 1 }
{
    let misfit = misfit_lent(probe, whose, call, found)?;
    Some(misfit.errno())
}

/// What is wrong with what a path named, for a call, the veils aside: the fault of its kind, whose
/// errno `object_verdict` answers by a table of these rules (which kind a call is on: this
/// profile). What was found is of the probe's tree as it stands. One look at the tree at most.
pub fn misfit<'t, P: Probe<'t>>(
    probe: &mut P,
    whose: Rules,
    call: Call,
    found: &Found,
) -> Option<Misfit>
    ensures exact { result
        ≡ misfit whose (P.tree probe.old) call (object_of (P.tree probe.old) found.now) }
    ensures tree { P.tree probe.new ≡ P.tree probe.old }
    ensures cost { P.count probe.new ≤ P.count probe.old + 1 }
{
    misfit_lent(probe, whose, call, &found.lent())
}

/// The same, of what its path named with the name lent.
fn misfit_lent<'t, P: Probe<'t>>(
    probe: &mut P,
    whose: Rules,
    call: Call,
    found: &LentFound<'_>,
) -> Option<Misfit>
    ensures exact { result ≡ misfit whose (P.tree probe.old) call
        (object_of (P.tree probe.old) (found_seen found.now)) }
    ensures tree { P.tree probe.new ≡ P.tree probe.old }
    ensures cost { P.count probe.new ≤ P.count probe.old + 1 }
{
    let fits = call.fits();
    match found {
        LentFound::Whole { dir, way } if fits.by_way => rmdir_misfit(probe, whose, *dir, way),
        LentFound::Whole { dir, .. } => directory_misfit(probe, &fits, *dir),
        LentFound::Slot { node: Some(id), .. } => slot_misfit(&fits, probe.kind(*id)),
        LentFound::Slot { node: None, .. } => fits.missing,
    }
}

/// Whether a call is on such an object, the veils aside: the same by all rules.
fn suits(call: Call, object: Object) -> bool
    ensures { (whose : Rules) (t : Tree) (judged : Judged) → object ≡ object_seen t judged →
        result ≡ is_none (object_fault whose t call judged) }
{
    suits_by_standard(call, object)
}

/// Whether it is by the standard rules: by others, only the error is another one.
fn suits_by_standard(call: Call, object: Object) -> bool
    ensures { (t : Tree) (judged : Judged) → object ≡ object_seen t judged →
        result ≡ is_none (object_fault Standard t call judged) }
{
    misfit_seen(&call.fits(), object).is_none()
}

/// What is wrong with an object by what a call is on, the veils aside.
fn misfit_seen(fits: &Fits, object: Object) -> Option<Misfit>
    ensures { result ≡ misfit_seen fits.now object }
{
    match object {
        Object::Missing => fits.missing,
        Object::Node(kind) => fits.on(kind),
        Object::Removable if fits.by_way => None,
        Object::Removable => fits.directory,
    }
}

/// What is wrong with removing a directory.
fn rmdir_misfit<'t, P: Probe<'t>>(
    probe: &mut P,
    whose: Rules,
    dir: NodeId,
    way: &LentWay<'_>,
) -> Option<Misfit>
    ensures exact { result ≡ rmdir_misfit whose (P.tree probe.old) dir (way_seen way.now) }
    ensures tree { P.tree probe.new ≡ P.tree probe.old }
    ensures cost { P.count probe.new ≤ P.count probe.old + 1 }
{
    match way {
        LentWay::Dot => Some(Misfit::ByDot),
        LentWay::DotDot => Some(dotdot_misfit(whose, probe.is_empty(dir))),
        LentWay::Top => Some(Misfit::ByNothing),
        LentWay::Named { .. } => named_misfit(probe.vacancy(dir)),
    }
}

/// What is wrong with removing a directory by its name: another file system is mounted there
/// (rmdir(2)), or it has rows.
fn named_misfit(vacancy: Vacancy) -> Option<Misfit>
    ensures { result ≡ named_misfit vacancy.mount vacancy.empty }
{
    if vacancy.mount {
        Some(Misfit::IsMountPoint)
    } else if vacancy.empty {
        None
    } else {
        Some(Misfit::IsNotEmpty)
    }
}

/// What is wrong with a directory for a call by which no directory is removed. One that is to be
/// unlinked may have another file system mounted there (unlink(2)).
fn directory_misfit<'t, P: Probe<'t>>(probe: &mut P, fits: &Fits, dir: NodeId) -> Option<Misfit>
    ensures exact { result ≡ option_map (λ wrong. mount_misfit wrong (is_mount (P.tree probe.old) dir))
        fits.now.directory }
    ensures tree { P.tree probe.new ≡ P.tree probe.old }
    ensures cost { P.count probe.new ≤ P.count probe.old + 1 }
{
    match fits.directory {
        Some(wrong) => Some(mount_misfit(probe, wrong, dir)),
        None => None,
    }
}

/// The same, where something is wrong with each directory.
fn mount_misfit<'t, P: Probe<'t>>(probe: &mut P, wrong: Misfit, dir: NodeId) -> Misfit
    ensures exact { result ≡ mount_misfit wrong (is_mount (P.tree probe.old) dir) }
    ensures tree { P.tree probe.new ≡ P.tree probe.old }
    ensures cost { P.count probe.new ≤ P.count probe.old + 1 }
{
    match wrong {
        Misfit::IsNoFile if probe.vacancy(dir).mount => Misfit::IsMountPoint,
        _ => wrong,
    }
}

/// What is wrong with removing a directory by `..`, by whether it is empty.
fn dotdot_misfit(whose: Rules, is_empty: bool) -> Misfit
    ensures { result ≡ dotdot_misfit whose is_empty }
{
    match whose {
        Rules::Openbsd if !is_empty => Misfit::IsNotEmpty,
        _ => Misfit::ByDotDot,
    }
}

/// What is wrong with a name where no directory stands; None where nothing stands there.
fn slot_misfit(fits: &Fits, kind: Option<Kind>) -> Option<Misfit>
    ensures { (whose : Rules) (t : Tree) →
        result ≡ misfit_by whose t fits.now (object_of_kind kind) }
{
    match kind {
        Some(kind) => fits.on(kind),
        None => fits.missing,
    }
}
