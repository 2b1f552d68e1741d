//! The checks of requests with two paths, in their order.

ghost use Rattle.std.specs.Prelude.{◌≡◌, ℕ, IfOk, IsTrue, option_map};
ghost use Rattle.pua_tree.specs.Edits.{is_inside, is_same_node};
ghost use Rattle.pua_tree.specs.Tree.{is_dir};
ghost use Rattle.pua_path.specs.Fits.{FoundFits, StandsAsNamed, node_named, spot_named};
ghost use Rattle.pua_path.specs.declared.found.Found as founds;
ghost use Rattle.pua_path.specs.declared.text.Ending.TheVariants as endings;
ghost use Rattle.pua_script.specs.Decide.{New, Outcome, asks_directory, covers_by, dots_by};
ghost use Rattle.pua_script.specs.Decide.{device_of, device_over, fits_by, inside_by, is_elsewhere};
ghost use Rattle.pua_script.specs.Decide.{is_whole, kinds_by, link_by, objects_by};
ghost use Rattle.pua_script.specs.Decide.{pair_by, rename_by, top_by, ways_by};
ghost use Rattle.pua_why.specs.Checked.{refused_by};
ghost use Rattle.pua_why.specs.Reasons.{Fault as Meant, faults, faults_of};
ghost use Rattle.pua_why.specs.Seen.{fault_seen, on_found, side_seen};

use crate::checks::{bad_path, cover_fault, named_by, promises_fault};
use crate::told::{Fault, Side};
use pua_calls::{CallTable, PairNeed};
use pua_path::{Counted, Ending, Found, Links, Probe, Way};
use pua_policy::{Misfit, Process};
use pua_script::asks_directory;
use pua_tree::{FileTree, Kind, NodeId};

/// What an old path and a new one name.
#[derive(Clone, Copy)]
struct Pair {
    old: Found,
    new: Found,
}

/// The fault of a rename: what is wrong with its paths, and then with what both name.
pub(crate) fn rename_fault<'s, T: FileTree>(
    tree: &T,
    table: &'s CallTable,
    process: &Process,
    old: &[u8],
    new: &[u8],
    links: &mut Links,
) -> Option<Fault<'s>>
    ensures { option_map fault_seen result
        ≡ refused_by (pair_by faults table.now.whose table.now.rename (T.content tree.now)
        (faults_of process.now) endings.Dropped old.now new.now
        (λ a b. rename_by faults (T.content tree.now)
        (asks_directory table.now.whose old.now new.now) a b (node_named a))) }
{
    let asks = asks_directory(table.rules(), old, new);
    match judged(
        tree,
        table,
        table.rename(),
        process,
        Ending::Dropped,
        old,
        new,
        links,
    ) {
        Ok(pair) => shift_fault(tree, asks, &pair),
        Err(fault) => Some(fault),
    }
}

/// The fault of a link: what is wrong with its paths, and then with what both name.
pub(crate) fn link_fault<'s, T: FileTree>(
    tree: &T,
    table: &'s CallTable,
    process: &Process,
    old: &[u8],
    new: &[u8],
    links: &mut Links,
) -> Option<Fault<'s>>
    ensures { option_map fault_seen result
        ≡ refused_by (pair_by faults table.now.whose table.now.link (T.content tree.now)
        (faults_of process.now) endings.Dot old.now new.now
        (λ a b. link_by faults (T.content tree.now) a b (node_named a))) }
{
    match judged(
        tree,
        table,
        table.link(),
        process,
        Ending::Dot,
        old,
        new,
        links,
    ) {
        Ok(pair) => tie_fault(tree, &pair),
        Err(fault) => Some(fault),
    }
}

/// What both paths name, or the fault of the promises, of the paths, and of the veils: of the old
/// name first each time.
fn judged<'s, T: FileTree>(
    tree: &T,
    table: &CallTable,
    need: &'s PairNeed,
    process: &Process,
    ending: Ending,
    old: &[u8],
    new: &[u8],
    links: &mut Links,
) -> Result<Pair, Fault<'s>>
    ensures exact { (further : founds.Found → founds.Found → Outcome Meant) →
        pair_by faults table.now.whose need.now (T.content tree.now) (faults_of process.now) ending
        old.now new.now further
        ≡ on_found result (λ pair. further pair.old pair.new) }
    ensures named { IfOk result (λ pair. StandsAsNamed (T.content tree.now) pair.new) }
{
    if let Some(fault) = promises_fault(process, need.old_name().alternatives()) {
        return Err(fault);
    }
    if let Some(fault) = promises_fault(process, need.new_name().alternatives()) {
        return Err(fault);
    }
    objects(tree, table, need, process, ending, old, new, links)
}

/// What both paths name, or the fault of the paths, and of the veils.
fn objects<'s, T: FileTree>(
    tree: &T,
    table: &CallTable,
    need: &PairNeed,
    process: &Process,
    ending: Ending,
    old: &[u8],
    new: &[u8],
    links: &mut Links,
) -> Result<Pair, Fault<'s>>
    ensures exact { (further : founds.Found → founds.Found → Outcome Meant) →
        objects_by faults table.now.whose need.now (T.content tree.now) (faults_of process.now)
        ending old.now new.now further
        ≡ on_found result (λ pair. further pair.old pair.new) }
    ensures named { IfOk result (λ pair. StandsAsNamed (T.content tree.now) pair.new) }
{
    let mut probe = Counted::new(tree);
    let old = match named_by(
        &mut probe,
        table,
        process.start(),
        old,
        ending,
        need.old_name().last(),
        links,
    ) {
        Ok(found) => found,
        Err(fault) => return Err(bad_path(Side::Old, old, fault)),
    };
    let new = match named_by(
        &mut probe,
        table,
        process.start(),
        new,
        ending,
        need.new_name().last(),
        links,
    ) {
        Ok(found) => found,
        Err(fault) => return Err(bad_path(Side::New, new, fault)),
    };
    match covers_fault(&mut probe, need, process, &old, &new) {
        Some(fault) => Err(fault),
        None => Ok(Pair { old, new }),
    }
}

/// The fault of the two covers, the old one first.
fn covers_fault<'s, 't, P: Probe<'t>>(
    probe: &mut P,
    need: &PairNeed,
    process: &Process,
    old: &Found,
    new: &Found,
) -> Option<Fault<'s>>
    ensures { FoundFits (P.tree probe.old) old.now → FoundFits (P.tree probe.old) new.now →
        option_map fault_seen result
        ≡ covers_by need.now (P.tree probe.old) (faults_of process.now) old.now new.now }
{
    let fault = cover_fault(probe, process, Side::Old, old, need.old_name().perms());
    if fault.is_some() {
        return fault;
    }
    cover_fault(probe, process, Side::New, new, need.new_name().perms())
}

/// What is wrong with a rename of what was named.
fn shift_fault<'s, T: FileTree>(tree: &T, asks: bool, pair: &Pair) -> Option<Fault<'s>>
    ensures { StandsAsNamed (T.content tree.now) pair.now.new → option_map fault_seen result
        ≡ refused_by (rename_by faults (T.content tree.now) asks pair.now.old pair.now.new
        (node_named pair.now.old)) }
{
    let Some(node) = node_named(&pair.old) else {
        return Some(Fault::Unfit(Side::Old, pair.old, Misfit::Missing));
    };
    let fault = ways_fault(pair);
    if fault.is_some() {
        return fault;
    }
    if asks && !is_whole(&pair.old) {
        return Some(Fault::Unfit(Side::Old, pair.old, Misfit::IsNoDirectory));
    }
    if is_node(node, &pair.new) {
        return None;
    }
    let fault = inside_fault(tree, node, pair);
    if fault.is_some() {
        return fault;
    }
    kinds_fault(tree, pair)
}

/// What is wrong with the ways in which they were named: `.` or `..` on either side, then the root
/// on either side.
fn ways_fault<'s>(pair: &Pair) -> Option<Fault<'s>>
    ensures { option_map fault_seen result ≡ ways_by faults.misfit pair.now.old pair.now.new }
{
    let fault = dots_fault(Side::Old, &pair.old);
    if fault.is_some() {
        return fault;
    }
    let fault = dots_fault(Side::New, &pair.new);
    if fault.is_some() {
        return fault;
    }
    let fault = top_fault(Side::Old, &pair.old);
    if fault.is_some() {
        return fault;
    }
    top_fault(Side::New, &pair.new)
}

/// What was named by `.` or `..`.
fn dots_fault<'s>(side: Side, found: &Found) -> Option<Fault<'s>>
    ensures { option_map fault_seen result
        ≡ dots_by (faults.misfit (side_seen side) found.now) found.now }
{
    match found {
        Found::Whole { way, .. } => match way {
            Way::Dot => Some(Fault::Unfit(side, *found, Misfit::ByDot)),
            Way::DotDot => Some(Fault::Unfit(side, *found, Misfit::ByDotDot)),
            Way::Named { .. } | Way::Top => None,
        },
        Found::Slot { .. } => None,
    }
}

/// What was named by no part.
fn top_fault<'s>(side: Side, found: &Found) -> Option<Fault<'s>>
    ensures { option_map fault_seen result
        ≡ top_by (faults.misfit (side_seen side) found.now) found.now }
{
    match found {
        Found::Whole { way, .. } => match way {
            Way::Top => Some(Fault::Unfit(side, *found, Misfit::ByNothing)),
            Way::Named { .. } | Way::Dot | Way::DotDot => None,
        },
        Found::Slot { .. } => None,
    }
}

/// A directory would come to stand in itself or beneath itself.
fn inside_fault<'s, T: FileTree>(tree: &T, node: NodeId, pair: &Pair) -> Option<Fault<'s>>
    ensures { StandsAsNamed (T.content tree.now) pair.now.new → option_map fault_seen result
        ≡ inside_by (faults.inside pair.now.old pair.now.new) (T.content tree.now) node
        (spot_named pair.now.new) }
{
    let dir = dir_named(&pair.new)?;
    if !is_inside(tree, node, dir) {
        return None;
    }
    Some(Fault::Inside {
        old: pair.old,
        new: pair.new,
    })
}

/// Whether a node is a directory, and this directory is it, or stands beneath it.
fn is_inside<T: FileTree>(tree: &T, node: NodeId, dir: NodeId) -> bool
    ensures { IsTrue (is_dir (T.content tree.now) dir) →
        result ≡ is_inside (T.content tree.now) node dir }
{
    tree.kind(node) == Some(Kind::Dir) && tree.is_within(dir, node)
}

/// Nothing leaves its file system, and then what the kinds of both make impossible.
fn kinds_fault<'s, T: FileTree>(tree: &T, pair: &Pair) -> Option<Fault<'s>>
    ensures { option_map fault_seen result
        ≡ kinds_by (faults.misfit New pair.now.new) (T.content tree.now) pair.now.old pair.now.new }
{
    if is_elsewhere(tree, pair) {
        return Some(Fault::Unfit(Side::New, pair.new, Misfit::IsElsewhere));
    }
    fits_fault(tree, pair)
}

/// A directory is not put in the place of anything else, nothing else in the place of a directory,
/// and nothing in the place of a directory in which something stands.
fn fits_fault<'s, T: FileTree>(tree: &T, pair: &Pair) -> Option<Fault<'s>>
    ensures { option_map fault_seen result
        ≡ fits_by (faults.misfit New pair.now.new) (T.content tree.now) pair.now.old pair.now.new }
{
    let is_dir = is_whole(&pair.old);
    let wrong = match pair.new {
        Found::Whole { .. } if !is_dir => Misfit::IsDirectory,
        Found::Whole { dir, .. } if !tree.is_empty(dir) => Misfit::IsNotEmpty,
        Found::Slot { node: Some(_), .. } if is_dir => Misfit::IsNoDirectory,
        _ => return None,
    };
    Some(Fault::Unfit(Side::New, pair.new, wrong))
}

/// What is wrong with a further name for what was named.
fn tie_fault<'s, T: FileTree>(tree: &T, pair: &Pair) -> Option<Fault<'s>>
    ensures { option_map fault_seen result
        ≡ refused_by (link_by faults (T.content tree.now) pair.now.old pair.now.new
        (node_named pair.now.old)) }
{
    if node_named(&pair.old).is_none() {
        return Some(Fault::Unfit(Side::Old, pair.old, Misfit::Missing));
    }
    if is_whole(&pair.old) {
        return Some(Fault::Unfit(Side::Old, pair.old, Misfit::IsNoFile));
    }
    if node_named(&pair.new).is_some() {
        return Some(Fault::Unfit(Side::New, pair.new, Misfit::Exists));
    }
    if is_elsewhere(tree, pair) {
        return Some(Fault::Unfit(Side::New, pair.new, Misfit::IsElsewhere));
    }
    None
}

/// The device of what was found: a directory is on its own, anything else on that of its name.
fn device_of<T: FileTree>(tree: &T, found: &Found) -> NodeId
    ensures { result ≡ device_of (T.content tree.now) found.now }
{
    match *found {
        Found::Whole { dir, .. } | Found::Slot { dir, .. } => tree.device(dir),
    }
}

/// The device of the name by which it was found.
fn device_over<T: FileTree>(tree: &T, found: &Found) -> NodeId
    ensures { result ≡ device_over (T.content tree.now) found.now }
{
    match *found {
        Found::Whole {
            way: Way::Named { parent, .. },
            ..
        } => tree.device(parent),
        Found::Whole { dir, .. } | Found::Slot { dir, .. } => tree.device(dir),
    }
}

/// Whether what gets the new name would leave its file system, or what has it is on another one.
fn is_elsewhere<T: FileTree>(tree: &T, pair: &Pair) -> bool
    ensures { result ≡ is_elsewhere (T.content tree.now) pair.now.old pair.now.new }
{
    let device = device_over(tree, &pair.new);
    device_of(tree, &pair.old) != device || device_of(tree, &pair.new) != device
}

/// The node that was found.
fn node_named(found: &Found) -> Option<NodeId>
    ensures { result ≡ node_named found.now }
{
    match *found {
        Found::Whole { dir, .. } => Some(dir),
        Found::Slot { node, .. } => node,
    }
}

/// The directory with the name that was found, if it was found by one.
fn dir_named(found: &Found) -> Option<NodeId>
    ensures { result ≡ option_map (λ spot. spot.0) (spot_named found.now) }
{
    match *found {
        Found::Whole { way, .. } => match way {
            Way::Named { parent, .. } => Some(parent),
            Way::Dot | Way::DotDot | Way::Top => None,
        },
        Found::Slot { dir, .. } => Some(dir),
    }
}

/// Whether this node was found.
fn is_node(node: NodeId, found: &Found) -> bool
    ensures { result ≡ is_same_node node (node_named found.now) }
{
    match node_named(found) {
        Some(there) => node == there,
        None => false,
    }
}

/// Whether a directory was found.
fn is_whole(found: &Found) -> bool
    ensures { result ≡ is_whole found.now }
{
    matches!(found, Found::Whole { .. })
}
