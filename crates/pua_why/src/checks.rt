//! The checks of requests on one path, and of those without one, in their order.

ghost use Rattle.std.specs.Prelude.{◌≡◌, ◌∷◌, [], ℕ, false, IfOk, Ok, Some, option_map};
ghost use Rattle.pua_path.specs.Fits.{FoundFits, StandsAsNamed};
ghost use Rattle.pua_path.specs.Paths.{is_absolute};
ghost use Rattle.pua_path.specs.Traces.{trace_of_text};
ghost use Rattle.pua_path.specs.declared.found.Found as founds;
ghost use Rattle.pua_path.specs.declared.found.Last.TheVariants.{Followed};
ghost use Rattle.pua_path.specs.declared.text.Ending.TheVariants.{Dot};
ghost use Rattle.pua_policy.specs.Reasons.{covering, promising};
ghost use Rattle.pua_policy.specs.Verdict.{place_of};
ghost use Rattle.pua_policy.specs.declared.reason.Covering.TheVariants.{By};
ghost use Rattle.pua_script.specs.Decide.{Change, call_by, chroot_by, object_by, past_promises, symlink_by};
ghost use Rattle.pua_script.specs.Decide.{unveil_by, veil_by};
ghost use Rattle.pua_why.specs.Checked.{refused_by};
ghost use Rattle.pua_why.specs.Reasons.{bad_path, fault_by, faults, faults_of, front_fault};
ghost use Rattle.pua_why.specs.Reasons.{outcome_in, place_beyond, uncovered_fault};
ghost use Rattle.pua_why.specs.Reasons.{unpromised_fault, unveil_beyond};
ghost use Rattle.pua_why.specs.Seen.{fault_seen, side_seen};

use crate::told::{Fault, Side};
use pua_calls::needs::ending;
use pua_calls::{Call, CallTable, Perms, Promises, Rules};
use pua_path::{
    Counted, Ending, Found, Last, Links, PathFault, PathText, Probe, Start, text_fault, trace,
};
use pua_policy::judge::misfit;
use pua_policy::{Covering, MOST_PLACES, Place, Process, Promising};
use pua_script::before_long;
use pua_tree::{FileTree, OutOfMemory};
use std::alloc::Global;

/// What a path names from a directory, or why it names nothing. The links that it followed by then
/// take the place of those that `links` had.
pub(crate) fn traced<'t, P: Probe<'t>>(
    probe: &mut P,
    from: Start,
    path: &[u8],
    ending: Ending,
    last: Last,
    links: &mut Links,
) -> Result<Found, PathFault>
    ensures exact { record { links = links.new; outcome = result }
        ≡ trace_of_text (P.tree probe.old) from ending path.now last }
    ensures fits { IfOk result (FoundFits (P.tree probe.old)) }
    ensures named { IfOk result (StandsAsNamed (P.tree probe.old)) }
    ensures tree { P.tree probe.new ≡ P.tree probe.old }
{
    links.clear();
    if let Some(fault) = text_fault(path) {
        return Err(PathFault::InText(fault));
    }
    match PathText::read(path, ending) {
        Ok(text) => trace(probe, from, &text, last, links),
        Err(_) => unreachable!(),
    }
}

/// What a path names from a directory by a table's rules, or why it names nothing.
pub(crate) fn named_by<'t, P: Probe<'t>>(
    probe: &mut P,
    table: &CallTable,
    from: Start,
    path: &[u8],
    ending: Ending,
    last: Last,
    links: &mut Links,
) -> Result<Found, PathFault>
    ensures exact { result ≡ outcome_in table.now.whose (P.tree probe.old) from path.now
        (trace_of_text (P.tree probe.old) from ending path.now last).outcome }
    ensures fits { IfOk result (FoundFits (P.tree probe.old)) }
    ensures named { IfOk result (StandsAsNamed (P.tree probe.old)) }
    ensures tree { P.tree probe.new ≡ P.tree probe.old }
{
    let (root, dir) = (from.root, from.dir);
    match traced(probe, Start { root, dir }, path, ending, last, links) {
        Ok(found) => Ok(found),
        Err(fault) => {
            let from = Start { root, dir };
            Err(fault_by(probe, table.rules(), from, path, fault, links))
        }
    }
}

/// Why a path with this fault names nothing: by OpenBSD's rules the fault of what stands before a
/// component that is too long, if that names no directory.
fn fault_by<'t, P: Probe<'t>>(
    probe: &mut P,
    rules: Rules,
    from: Start,
    path: &[u8],
    fault: PathFault,
    links: &mut Links,
) -> PathFault
    ensures fault { result ≡ fault_by rules (P.tree probe.old) from path.now fault }
    ensures tree { P.tree probe.new ≡ P.tree probe.old }
{
    match rules {
        Rules::Standard => fault,
        Rules::Openbsd => match before_long(path) {
            None => fault,
            Some(front) => front_fault(probe, from, front, fault, links),
        },
    }
}

/// The fault of what stands before it, if that names no directory.
fn front_fault<'t, P: Probe<'t>>(
    probe: &mut P,
    from: Start,
    front: &[u8],
    fault: PathFault,
    links: &mut Links,
) -> PathFault
    ensures fault { result ≡ front_fault fault
        (trace_of_text (P.tree probe.old) from Dot front.now Followed).outcome }
    ensures tree { P.tree probe.new ≡ P.tree probe.old }
{
    match traced(probe, from, front, Ending::Dot, Last::Followed, links) {
        Ok(_) => fault,
        Err(front) => front,
    }
}

/// The fault of a path that names nothing: it may start at a root that was removed.
pub(crate) fn bad_path<'s>(side: Side, path: &[u8], fault: PathFault) -> Fault<'s>
    ensures { fault_seen result ≡ bad_path (side_seen side) path.now fault }
{
    match fault {
        PathFault::NoStart if is_absolute(path) => Fault::NoRoot(side),
        _ => Fault::BadPath(side, fault),
    }
}

/// Whether a path starts at the root.
fn is_absolute(path: &[u8]) -> bool
    ensures { result ≡ is_absolute path.now }
{
    path.first() == Some(&b'/')
}

/// The fault of promises: none of these sets is held.
pub(crate) fn promises_fault<'s>(process: &Process, sets: &'s [Promises]) -> Option<Fault<'s>>
    ensures { option_map fault_seen result
        ≡ unpromised_fault (promising process.now sets.now) }
{
    match process.promising(sets) {
        Promising::Holds(_) => None,
        Promising::HasEnded => Some(Fault::Ends),
        Promising::Lacks { error, held, sets } => Some(Fault::LacksPromises { error, held, sets }),
    }
}

/// The fault of promises: this one set is not held.
pub(crate) fn promise_fault<'s>(process: &Process, set: Promises) -> Option<Fault<'s>>
    ensures { option_map fault_seen result
        ≡ unpromised_fault (promising process.now (set ∷ [])) }
{
    match process.promising(&[set]) {
        Promising::Holds(_) => None,
        Promising::HasEnded => Some(Fault::Ends),
        Promising::Lacks { error, .. } => Some(Fault::LacksPromise {
            error,
            lacks: set.without(process.held()),
        }),
    }
}

/// The fault of the veils: they leave an object less than these permissions.
pub(crate) fn cover_fault<'s, 't, P: Probe<'t>>(
    probe: &mut P,
    process: &Process,
    side: Side,
    found: &Found,
    perms: Perms,
) -> Option<Fault<'s>>
    ensures exact { FoundFits (P.tree probe.old) found.now → option_map fault_seen result
        ≡ uncovered_fault (side_seen side) found.now perms
        (covering (P.tree probe.old) process.now found.now) }
    ensures tree { P.tree probe.new ≡ P.tree probe.old }
{
    let over = process.covering(probe, found);
    uncovered(side, found, &over, perms)
}

/// The fault of an object that is covered so, where these permissions are needed.
fn uncovered<'s>(side: Side, found: &Found, over: &Covering, perms: Perms) -> Option<Fault<'s>>
    ensures { option_map fault_seen result
        ≡ uncovered_fault (side_seen side) found.now perms over.now }
{
    match over {
        Covering::InView => None,
        Covering::NoneOver => Some(Fault::Uncovered(side, *found)),
        Covering::By(place, given) => lacking(side, place, *given, perms),
    }
}

/// The fault of an object whose veil is kept at this place, where these permissions are needed.
fn lacking<'s>(side: Side, place: &Place, given: Perms, perms: Perms) -> Option<Fault<'s>>
    ensures { (object : founds.Found) → option_map fault_seen result
        ≡ uncovered_fault (side_seen side) object perms (By place.now given) }
{
    if given.contains(perms) {
        return None;
    }
    Some(Fault::LacksLetters {
        side,
        place: *place,
        given,
        lacks: perms.without(given),
    })
}

/// The fault of a call whose promises are held, by what its path names.
pub(crate) fn object_fault<'s, T: FileTree>(
    tree: &T,
    table: &CallTable,
    process: &Process,
    call: Call,
    path: &[u8],
    links: &mut Links,
) -> Option<Fault<'s>>
    ensures { (change : founds.Found → Change) → option_map fault_seen result
        ≡ refused_by (object_by faults table.now (T.content tree.now) (faults_of process.now) call
        path.now (λ object. Ok (change object))) }
{
    let mut probe = Counted::new(tree);
    let last = call.last();
    let from = process.start();
    let found = match named_by(&mut probe, table, from, path, ending(call), last, links) {
        Ok(found) => found,
        Err(fault) => return Some(bad_path(Side::Sole, path, fault)),
    };
    let fault = cover_fault(&mut probe, process, Side::Sole, &found, table.perms(call));
    if fault.is_some() {
        return fault;
    }
    let wrong = misfit(&mut probe, table.rules(), call, &found)?;
    Some(Fault::Unfit(Side::Sole, found, wrong))
}

/// The fault of a call that neither promises nor veils refuse, by what its path names.
pub(crate) fn fit_fault<'s, T: FileTree>(
    tree: &T,
    table: &CallTable,
    process: &Process,
    call: Call,
    path: &[u8],
    links: &mut Links,
) -> Option<Fault<'s>>
    ensures { (change : founds.Found → Change) → option_map fault_seen result
        ≡ refused_by (object_by faults table.now (T.content tree.now)
        (past_promises false (faults_of process.now)) call path.now
        (λ object. Ok (change object))) }
{
    let mut probe = Counted::new(tree);
    let last = call.last();
    let from = process.start();
    let found = match named_by(&mut probe, table, from, path, ending(call), last, links) {
        Ok(found) => found,
        Err(fault) => return Some(bad_path(Side::Sole, path, fault)),
    };
    let wrong = misfit(&mut probe, table.rules(), call, &found)?;
    Some(Fault::Unfit(Side::Sole, found, wrong))
}

/// The fault of a call on a path: its promises are asked before its path is read.
pub(crate) fn call_fault<'s, T: FileTree>(
    tree: &T,
    table: &'s CallTable,
    process: &Process,
    call: Call,
    path: &[u8],
    links: &mut Links,
) -> Option<Fault<'s>>
    ensures { option_map fault_seen result
        ≡ refused_by (call_by faults table.now (T.content tree.now) (faults_of process.now) call
        path.now) }
{
    let fault = promises_fault(process, table.alternatives(call));
    if fault.is_some() {
        return fault;
    }
    object_fault(tree, table, process, call, path, links)
}

/// The fault of a chroot: its promise is asked before its path is read, as that of a chdir.
pub(crate) fn chroot_fault<'s, T: FileTree>(
    tree: &T,
    table: &CallTable,
    process: &Process,
    path: &[u8],
    links: &mut Links,
) -> Option<Fault<'s>>
    ensures { option_map fault_seen result
        ≡ refused_by (chroot_by faults table.now (T.content tree.now) (faults_of process.now)
        path.now) }
{
    let fault = promise_fault(process, Promises::ID);
    if fault.is_some() {
        return fault;
    }
    object_fault(tree, table, process, Call::Chdir, path, links)
}

/// The fault of a symlink: the promise, then the target's text, then the path.
pub(crate) fn symlink_fault<'s, T: FileTree>(
    tree: &T,
    table: &'s CallTable,
    process: &Process,
    target: &[u8],
    path: &[u8],
    links: &mut Links,
) -> Option<Fault<'s>>
    ensures { option_map fault_seen result
        ≡ refused_by (symlink_by faults table.now (T.content tree.now) (faults_of process.now)
        target.now path.now) }
{
    let fault = promises_fault(process, table.alternatives(Call::Symlink));
    if fault.is_some() {
        return fault;
    }
    if let Some(fault) = text_fault(target) {
        return Some(Fault::BadTarget(fault));
    }
    object_fault(tree, table, process, Call::Symlink, path, links)
}

/// The fault of an unveil: the promise, the lock, the letters, the path, and what is kept at the
/// place.
pub(crate) fn unveil_fault<'s, T: FileTree>(
    alloc: Global,
    tree: &T,
    table: &CallTable,
    process: &Process,
    path: &[u8],
    perms: Option<Perms>,
    links: &mut Links,
) -> Result<Option<Fault<'s>>, OutOfMemory>
    ensures { IfOk result (λ fault. option_map fault_seen fault
        ≡ refused_by (unveil_by faults table.now.whose (T.content tree.now)
        (faults_of process.now) path.now perms)) }
{
    let fault = promise_fault(process, Promises::UNVEIL);
    if fault.is_some() {
        return Ok(fault);
    }
    if process.locked() {
        return Ok(Some(Fault::IsLocked));
    }
    veil_fault(alloc, tree, table, process, path, perms, links)
}

/// The fault of an unveil that is not locked: the letters, the path, and what is kept at the place.
fn veil_fault<'s, T: FileTree>(
    alloc: Global,
    tree: &T,
    table: &CallTable,
    process: &Process,
    path: &[u8],
    perms: Option<Perms>,
    links: &mut Links,
) -> Result<Option<Fault<'s>>, OutOfMemory>
    ensures { IfOk result (λ fault. option_map fault_seen fault
        ≡ refused_by (veil_by faults table.now.whose (T.content tree.now)
        (faults_of process.now) path.now perms)) }
{
    let Some(perms) = perms else {
        return Ok(Some(Fault::UnknownLetter));
    };
    let mut probe = Counted::new(tree);
    match named_by(
        &mut probe,
        table,
        process.start(),
        path,
        Ending::Dot,
        Last::Followed,
        links,
    ) {
        Ok(found) => place_fault(alloc, process, place_of(&found), perms),
        Err(fault) => Ok(Some(bad_path(Side::Sole, path, fault))),
    }
}

/// The fault of a veil on a place: the lock, what is kept there, and how many places have veils.
fn place_fault<'s>(
    alloc: Global,
    process: &Process,
    place: Place,
    perms: Perms,
) -> Result<Option<Fault<'s>>, OutOfMemory>
    ensures { IfOk result (λ fault. option_map fault_seen fault
        ≡ unveil_beyond process.now place perms) }
{
    if process.locked() {
        return Ok(Some(Fault::IsLocked));
    }
    if let Some(given) = process.kept(&place) {
        return Ok(beyond_kept(place, given, perms));
    }
    if process.places(alloc)?.len() < MOST_PLACES {
        Ok(None)
    } else {
        Ok(Some(Fault::NoPlaceLeft))
    }
}

/// The fault of a veil on a place where these permissions are kept.
fn beyond_kept<'s>(place: Place, given: Perms, perms: Perms) -> Option<Fault<'s>>
    ensures { (places : ℕ) → option_map fault_seen result
        ≡ place_beyond place (Some given) places perms }
{
    if given.contains(perms) {
        return None;
    }
    Some(Fault::AsksLetters {
        place,
        given,
        lacks: perms.without(given),
    })
}

/// The place of what was found.
fn place_of(found: &Found) -> Place
    ensures { result ≡ place_of found.now }
{
    match *found {
        Found::Whole { dir, .. } => Place::Dir(dir),
        Found::Slot { dir, name, .. } => Place::Slot(dir, name),
    }
}
