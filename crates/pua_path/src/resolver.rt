//! Resolution: what parts name in a tree.

mod tracing;

ghost use Rattle.std.specs.Prelude.{◌≡◌, ◌≤◌, ◌<◌, ◌+◌, ◌-◌, ◌*◌};
ghost use Rattle.std.specs.Prelude.{[], ◌∷◌, ◌++◌, Some, None, Ok, Err, is_some};
ghost use Rattle.std.specs.Prelude.{IsTrue, IfSome, IfOk, IfErr, OnOk};
ghost use Rattle.std.specs.Prelude.{not, true, ◌==◌, if◌then◌else◌, length};
ghost use Rattle.pua_tree.specs.Names.{is_name};
ghost use Rattle.pua_tree.specs.Tree.{is_dir};
ghost use Rattle.pua_path.specs.Resolution.{resolution, resolve_parts, step, last, follow};
ghost use Rattle.pua_path.specs.Resolution.{above_in, has_root, rooted, seen_from};
ghost use Rattle.pua_path.specs.Resolution.{standing_at, start_of, starts};
ghost use Rattle.pua_path.specs.Limits.{most_links};
ghost use Rattle.pua_path.specs.Paths.{is_absolute, part_of, parts_of};
ghost use Rattle.pua_path.specs.Walks.{way_of, way_seen, founds_seen, resolved_seen};
ghost use Rattle.pua_path.specs.Walks.{standing_seen, HasFewParts, IsSeenIn, LeadsOn, TracesOn};
ghost use Rattle.pua_path.specs.Onward.{followed, is_followed_at, onward_by, onward_seen};
ghost use Rattle.pua_path.specs.Onward.{found_alone, FollowsFew, IsByName};
ghost use Rattle.pua_path.specs.Walks.{walk_end, potential_of};
ghost use Rattle.pua_path.specs.Bounds.{part_cost, most_parts};
ghost use Rattle.pua_path.specs.Fits.{FoundFits, FoundsFit, StandsAsNamed};
ghost use Rattle.pua_path.specs.Remaining.{Remaining, rest_parts};
ghost use Rattle.pua_path.specs.declared.errno.Errno.TheVariants.{ELOOP, ENOENT, ENOTDIR};
ghost use Rattle.pua_path.specs.declared.found.Way.TheVariants as ways;
ghost use Rattle.pua_path.specs.declared.resolver.Nameless.TheVariants as nameless;
ghost use Rattle.pua_path.specs.declared.found.Part.TheVariants as parts;
ghost use Rattle.pua_path.specs.declared.lent.LentFound.TheVariants as lent;
ghost use Rattle.pua_path.specs.declared.resolver.Onward.TheVariants as onward;
ghost use Rattle.pua_path.specs.declared.text.Ending.TheVariants as ending;

use crate::errno::Errno;
use crate::found::{Found, Last, Part, Start, Way};
use crate::lent::{LentFound, LentWay};
use crate::limits::MOST_LINKS;
use crate::piece::{Piece, Readable, next_piece};
use crate::probe::Probe;
use crate::rest::{LinksLeft, Rest, unread};
use crate::text::PathText;
use pua_tree::{Kind, LentName, NodeId};
pub use tracing::trace;

/// What a path names from a root and a directory, by the rules of path resolution (intro(2),
/// symlink(7), chroot(2)): 32 links are followed at most (this profile). A path that begins with a
/// slash starts at the root, as a link's target that does, and any other at the directory; the root
/// is above itself. Errors: `ENOENT` where the one at which the path starts is no living directory,
/// or a part before the last one is missing;
/// `ENOTDIR` where such a part is no directory; `ELOOP` where a 33rd link would be followed. What
/// is found is of the tree as it stands: its directory lives, and what was found by a name stands
/// at that name. Takes no memory.
#[inline(always)]
pub fn resolve<'t, P: Probe<'t>>(
    probe: &mut P,
    from: Start,
    text: &PathText<'_>,
    mode: Last,
) -> Result<Found, Errno>
    ensures exact { result
        ≡ resolution (P.tree probe.old) from text.now.ending text.now.bytes mode }
    ensures fits { FoundsFit (P.tree probe.old) result }
    ensures named { IfOk result (StandsAsNamed (P.tree probe.old)) }
    ensures tree { P.tree probe.new ≡ P.tree probe.old }
{
    match resolve_lent(probe, from, text, mode) {
        Ok(lent) => Ok(lent.found()),
        Err(errno) => Err(errno),
    }
}

/// The same, the name of what was found lent by the path, or by the target of a link in the tree.
#[inline(always)]
pub fn resolve_lent<'a, 't: 'a, P: Probe<'t>>(
    probe: &mut P,
    from: Start,
    text: &PathText<'a>,
    mode: Last,
) -> Result<LentFound<'a>, Errno>
    ensures exact { founds_seen result
        ≡ resolution (P.tree probe.old) from text.now.ending text.now.bytes mode }
    ensures fits { FoundsFit (P.tree probe.old) (founds_seen result) }
    ensures named { IfOk (founds_seen result) (StandsAsNamed (P.tree probe.old)) }
    ensures tree { P.tree probe.new ≡ P.tree probe.old }
{
    probe.known();
    let Some(start) = start_of(probe, from, text.bytes()) else {
        return Err(Errno::ENOENT);
    };
    resolve_text(probe, start, LinksLeft::ALL, unread(text), mode)
}

/// What the parts of a text name from a directory. It has no room for the targets of links: from
/// the first link on `follow_on` goes on, which has it, so that a path without links pays for none.
fn resolve_text<'a, 't: 'a, P: Probe<'t>>(
    probe: &mut P,
    start: Start,
    left: LinksLeft,
    text: Readable<'a>,
    mode: Last,
) -> Result<LentFound<'a>, Errno>
    ensures exact { let t = rooted (P.tree probe.old) start.root in
        let parts = rest_parts text.entry.bytes.now in founds_seen result
        ≡ found_alone (resolve_parts left.count t mode start.dir ways.Top parts) }
    ensures tree { P.tree probe.new ≡ P.tree probe.old }
{
    let root = start.root;
    let mut dir = start.dir;
    let mut way = Nameless::Top;
    let mut rest = text;
    while !rest.bytes.is_empty() {
        let (piece, behind) = next_piece(rest);
        rest = behind;
        let here = Start { root, dir };
        match lead_by_piece(probe, here, piece, rest.bytes.is_empty(), mode) {
            Onward::Directory(next, named) => {
                dir = next;
                way = named;
            }
            Onward::Link(target) => {
                let from = Start { root, dir };
                return follow_on(probe, from, left, target, rest, mode);
            }
            Onward::Found(lent) => return Ok(lent),
            Onward::Nowhere(errno) => return Err(errno),
        }
    }
    Ok(LentFound::Whole {
        dir,
        way: way.lent(),
    })
}

/// Follows the first link of a resolution, and resolves what is left of the text after it.
fn follow_on<'a, 't: 'a, P: Probe<'t>>(
    probe: &mut P,
    from: Start,
    left: LinksLeft,
    target: Readable<'a>,
    text: Readable<'a>,
    mode: Last,
) -> Result<LentFound<'a>, Errno>
    ensures exact { let t = rooted (P.tree probe.old) from.root in
        let parts = rest_parts text.entry.bytes.now in founds_seen result
        ≡ found_alone (followed left.count t mode from.dir target.entry.bytes.now parts) }
    ensures tree { P.tree probe.new ≡ P.tree probe.old }
{
    match follow_counted(probe, from, left, target, text, mode) {
        Ok((lent, _left)) => Ok(lent),
        Err(errno) => Err(errno),
    }
}

/// The same, and how many links are left then.
fn follow_counted<'a, 't: 'a, P: Probe<'t>>(
    probe: &mut P,
    from: Start,
    left: LinksLeft,
    target: Readable<'a>,
    text: Readable<'a>,
    mode: Last,
) -> Result<(LentFound<'a>, u8), Errno>
    ensures exact { let t = rooted (P.tree probe.old) from.root in
        let parts = rest_parts text.entry.bytes.now in
        resolved_seen result ≡ followed left.count t mode from.dir target.entry.bytes.now parts }
    ensures left { IfOk result (λ found. found.1 ≤ left.count) }
    ensures tree { P.tree probe.new ≡ P.tree probe.old }
    ensures count { let left_parts = length (rest_parts text.entry.bytes.now) in
        HasFewParts (P.tree probe.old) target.entry.bytes.now → P.count probe.new
        ≤ P.count probe.old + 3 * (left_parts + most_parts (P.tree probe.old) * left.count) }
{
    probe.known();
    let mut walk = Resolving::new(from, Rest::of_top(text, left));
    walk.follow(target)?;
    walk.finish(probe, mode)
}

/// What one part that another follows leads to, by the rules of `resolve`, `used` links having been
/// followed before it: the directory, which lives, and the links followed by then, 32 at most; so
/// both may be handed to the next `step`, and to `last`. Needs the directory to live; where the root
/// was removed, a link may lead to that, and then what is answered need not live.
/// Errors: `ENOENT` where nothing has that name, `ENOTDIR` where it is no directory, `ELOOP` where
/// a 33rd link would be followed. Takes no memory, and a bounded number of probes.
pub fn step<'t, P: Probe<'t>>(
    probe: &mut P,
    from: Start,
    used: u8,
    part: &Part,
) -> Result<(NodeId, u8), Errno>
    requires dir { IsTrue (is_dir (P.tree probe.old) from.dir) }
    requires used { used ≤ most_links }
    ensures exact { result
        ≡ step (rooted (P.tree probe.old) from.root) from.dir used part.now }
    ensures lives { IsTrue (is_dir (P.tree probe.old) from.root) →
        IfOk result (λ next. IsTrue (is_dir (P.tree probe.old) next.0)) }
    ensures used { IfOk result (λ next. next.1 ≤ most_links) }
    ensures tree { P.tree probe.new ≡ P.tree probe.old }
    ensures cost { P.count probe.new ≤ P.count probe.old + part_cost (P.tree probe.old) }
{
    let left = LinksLeft {
        count: MOST_LINKS - used,
    };
    let (found, left) = resolve_part(probe, from, left, part, Last::Followed)?;
    match found {
        Found::Whole { dir, .. } => Ok((dir, MOST_LINKS - left)),
        Found::Slot { node, .. } => Err(not_entered(node)),
    }
}

/// Why what was found can't be entered: it is no directory, or nothing.
fn not_entered(node: Option<NodeId>) -> Errno
    ensures { result ≡ (if is_some node then ENOTDIR else ENOENT) }
{
    if node.is_some() {
        Errno::ENOTDIR
    } else {
        Errno::ENOENT
    }
}

/// What the last part names, by the rules of `resolve`, `used` links having been followed before
/// it. Needs the directory to live, and `used` to be 32 at most. Errors are those of `step`, for the
/// parts of a link's target; a last part that names nothing, or no directory, is found. What is
/// found is of the tree as it stands, as with `resolve`, where the root lives. Takes no memory.
pub fn last<'t, P: Probe<'t>>(
    probe: &mut P,
    from: Start,
    used: u8,
    part: &Part,
    mode: Last,
) -> Result<Found, Errno>
    requires dir { IsTrue (is_dir (P.tree probe.old) from.dir) }
    requires used { used ≤ most_links }
    ensures exact { result
        ≡ last (rooted (P.tree probe.old) from.root) from.dir used part.now mode }
    ensures fits { IsTrue (is_dir (P.tree probe.old) from.root) →
        FoundsFit (P.tree probe.old) result }
    ensures named { IsTrue (is_dir (P.tree probe.old) from.root) →
        IfOk result (StandsAsNamed (P.tree probe.old)) }
    ensures tree { P.tree probe.new ≡ P.tree probe.old }
    ensures cost { P.count probe.new ≤ P.count probe.old + part_cost (P.tree probe.old) }
{
    let left = LinksLeft {
        count: MOST_LINKS - used,
    };
    let (found, _) = resolve_part(probe, from, left, part, mode)?;
    Ok(found)
}

/// What the last part names where no link was followed before it and its own are, and how many that
/// are, 32 at most. It decides `last` and `step` for any number of links used before: while both
/// together are within 32, `last` names the same, and `step` leads to it, with the sum used, if it
/// is a directory; where they are not, both are `ELOOP`. Errors are those of `last`; what is found
/// is of the tree as it stands, where the root and the directory live. Takes no memory, and as many
/// probes as `step` at most.
pub fn follow<'t, P: Probe<'t>>(
    probe: &mut P,
    from: Start,
    part: &Part,
) -> Result<(Found, u8), Errno>
    ensures exact { result ≡ follow (rooted (P.tree probe.old) from.root) from.dir part.now }
    ensures fits { IsTrue (is_dir (P.tree probe.old) from.root) →
        IsTrue (is_dir (P.tree probe.old) from.dir) →
        IfOk result (λ found. FoundFits (P.tree probe.old) found.0) }
    ensures named { IsTrue (is_dir (P.tree probe.old) from.root) →
        IsTrue (is_dir (P.tree probe.old) from.dir) →
        IfOk result (λ found. StandsAsNamed (P.tree probe.old) found.0) }
    ensures links { IfOk result (λ found. found.1 ≤ most_links) }
    ensures tree { P.tree probe.new ≡ P.tree probe.old }
    ensures cost { P.count probe.new ≤ P.count probe.old + part_cost (P.tree probe.old) }
{
    let (found, left) = resolve_part(probe, from, LinksLeft::ALL, part, Last::Followed)?;
    Ok((found, MOST_LINKS - left))
}

fn resolve_part<'t, P: Probe<'t>>(
    probe: &mut P,
    from: Start,
    left: LinksLeft,
    part: &Part,
    mode: Last,
) -> Result<(Found, u8), Errno>
    ensures exact { let t = rooted (P.tree probe.old) from.root in
        result ≡ resolve_parts left.count t mode from.dir ways.Top (part.now ∷ []) }
    ensures fits { IsTrue (is_dir (P.tree probe.old) from.root) →
        IsTrue (is_dir (P.tree probe.old) from.dir) →
        IfOk result (λ found. FoundFits (P.tree probe.old) found.0) }
    ensures named { IsTrue (is_dir (P.tree probe.old) from.root) →
        IsTrue (is_dir (P.tree probe.old) from.dir) →
        IfOk result (λ found. StandsAsNamed (P.tree probe.old) found.0) }
    ensures left { IfOk result (λ found. found.1 ≤ left.count) }
    ensures tree { P.tree probe.new ≡ P.tree probe.old }
    ensures cost { P.count probe.new ≤ P.count probe.old + part_cost (P.tree probe.old) }
{
    probe.known();
    let (root, dir) = (from.root, from.dir);
    match lead_by_part(probe, Start { root, dir }, part, mode) {
        Onward::Directory(dir, way) => {
            let way = way.way();
            Ok((Found::Whole { dir, way }, left.count))
        }
        Onward::Link(target) => {
            let nothing = Readable { bytes: &[] };
            let from = Start { root, dir };
            match follow_counted(probe, from, left, target, nothing, mode) {
                Ok((lent, left)) => Ok((lent.found(), left)),
                Err(errno) => Err(errno),
            }
        }
        Onward::Found(lent) => Ok((lent.found(), left.count)),
        Onward::Nowhere(errno) => Err(errno),
    }
}

/// Where a path starts, beside the root by which it goes on; None where that is no living
/// directory.
fn start_of<'t, P: Probe<'t>>(probe: &mut P, from: Start, text: &[u8]) -> Option<Start>
    ensures start { let t = P.tree probe.old in result ≡ (if not (starts t from text.now) then None
        else Some (record {
          root = (seen_from t from).root;
          dir = start_of from.root text.now from.dir;
        })) }
    ensures tree { P.tree probe.new ≡ P.tree probe.old }
{
    probe.known();
    let has_root = has_root(probe, from.root);
    let root = if has_root { from.root } else { NodeId::ROOT };
    if is_absolute(text) {
        let dir = root;
        return has_root.then_some(Start { root, dir });
    }
    let dir = from.dir;
    match probe.kind(dir) {
        Some(Kind::Dir) => Some(Start { root, dir }),
        _ => None,
    }
}

/// Whether a root was not removed; node 0 is not asked for.
fn has_root<'t, P: Probe<'t>>(probe: &mut P, root: NodeId) -> bool
    ensures has { result ≡ has_root (P.tree probe.old) root }
    ensures tree { P.tree probe.new ≡ P.tree probe.old }
{
    probe.known();
    root == NodeId::ROOT || matches!(probe.kind(root), Some(Kind::Dir))
}

fn is_absolute(text: &[u8]) -> bool
    ensures { result ≡ is_absolute text.now }
{
    text.first() == Some(&b'/')
}

/// What stands at a name in a directory.
enum Standing<'t> {
    Directory(NodeId),
    Linked(NodeId, Readable<'t>),
    Plain(NodeId),
    Nothing,
}

#[inline(always)]
fn standing_at<'t, P: Probe<'t>>(probe: &mut P, dir: NodeId, name: LentName<'_>) -> Standing<'t>
    ensures standing { standing_seen result
        ≡ standing_at (P.tree probe.old) dir name.entry.bytes.now }
    ensures stands { IsSeenIn (P.tree probe.old) result }
    ensures tree { P.tree probe.new ≡ P.tree probe.old }
    ensures count { P.count probe.new ≤ P.count probe.old + 3 }
{
    probe.known();
    let Some((node, kind)) = probe.find_named(dir, name) else {
        return Standing::Nothing;
    };
    match kind {
        Kind::Dir => Standing::Directory(node),
        Kind::Link => {
            let bytes = probe.target(node).unwrap_or(&[]);
            Standing::Linked(node, Readable { bytes })
        }
        Kind::File | Kind::Prog | Kind::Known(_) => Standing::Plain(node),
    }
}

/// How a directory was named where that was by no name: a way that ends by a name is found at once.
#[derive(Clone, Copy)]
enum Nameless {
    Dot,
    DotDot,
    Top,
}

impl Nameless {
    fn way(self) -> Way
        ensures { result ≡ way_of self }
    {
        match self {
            Nameless::Dot => Way::Dot,
            Nameless::DotDot => Way::DotDot,
            Nameless::Top => Way::Top,
        }
    }

    /// The same, as a way whose name is lent.
    fn lent<'n>(self) -> LentWay<'n>
        ensures { way_seen result ≡ way_of self }
    {
        match self {
            Nameless::Dot => LentWay::Dot,
            Nameless::DotDot => LentWay::DotDot,
            Nameless::Top => LentWay::Top,
        }
    }
}

/// What one part leads to.
#[derive(Clone, Copy)]
enum Onward<'n> {
    /// A directory, and how it was named. By a name one is found at once where it is the last part,
    /// and otherwise nobody asks how it was named: so `Top` stands there.
    Directory(NodeId, Nameless),
    /// A link that is followed.
    Link(Readable<'n>),
    /// What the path names.
    Found(LentFound<'n>),
    /// No further, and why.
    Nowhere(Errno),
}

/// What the part that a piece is leads to from a directory; `is_last` says that none is after it.
/// As it stands in the loop over the pieces, no answer on the way is written to memory.
#[inline(always)]
fn lead_by_piece<'n, 't: 'n, P: Probe<'t>>(
    probe: &mut P,
    from: Start,
    piece: Piece<'n>,
    is_last: bool,
    mode: Last,
) -> Onward<'n>
    ensures exact { let t = rooted (P.tree probe.old) from.root in
        let part = part_of piece.entry.bytes.now in
        onward_seen result ≡ onward_by t mode from.dir part is_last }
    ensures few { FollowsFew (P.tree probe.old) result }
    ensures named { IsByName piece.entry.bytes.now result }
    ensures tree { P.tree probe.new ≡ P.tree probe.old }
    ensures count { P.count probe.new ≤ P.count probe.old + 3 }
{
    match piece.bytes {
        [b'.'] => Onward::Directory(from.dir, Nameless::Dot),
        [b'.', b'.'] => Onward::Directory(above(probe, from), Nameless::DotDot),
        bytes => lead_by_name(probe, from, LentName { bytes }, is_last, mode),
    }
}

/// The same of a part that is the last one.
fn lead_by_part<'n, 't: 'n, P: Probe<'t>>(
    probe: &mut P,
    from: Start,
    part: &'n Part,
    mode: Last,
) -> Onward<'n>
    ensures exact { let t = rooted (P.tree probe.old) from.root in
        onward_seen result ≡ onward_by t mode from.dir part.now true }
    ensures few { FollowsFew (P.tree probe.old) result }
    ensures tree { P.tree probe.new ≡ P.tree probe.old }
    ensures count { P.count probe.new ≤ P.count probe.old + 3 }
{
    match part {
        Part::Dot => Onward::Directory(from.dir, Nameless::Dot),
        Part::DotDot => Onward::Directory(above(probe, from), Nameless::DotDot),
        Part::Name(name) => {
            let bytes = name.bytes();
            lead_by_name(probe, from, LentName { bytes }, true, mode)
        }
    }
}

/// The same of a name.
#[inline(always)]
fn lead_by_name<'n, 't: 'n, P: Probe<'t>>(
    probe: &mut P,
    from: Start,
    name: LentName<'n>,
    is_last: bool,
    mode: Last,
) -> Onward<'n>
    ensures exact { let t = rooted (P.tree probe.old) from.root in
        let part = parts.Name name.entry.bytes.now in
        onward_seen result ≡ onward_by t mode from.dir part is_last }
    ensures few { FollowsFew (P.tree probe.old) result }
    ensures tree { P.tree probe.new ≡ P.tree probe.old }
    ensures count { P.count probe.new ≤ P.count probe.old + 3 }
{
    let dir = from.dir;
    match standing_at(probe, dir, name) {
        Standing::Directory(node) => {
            if !is_last {
                return Onward::Directory(node, Nameless::Top);
            }
            let way = LentWay::Named { parent: dir, name };
            Onward::Found(LentFound::Whole { dir: node, way })
        }
        Standing::Linked(node, target) => {
            if is_followed(mode, is_last) {
                return Onward::Link(target);
            }
            let node = Some(node);
            Onward::Found(LentFound::Slot { dir, name, node })
        }
        Standing::Plain(node) => end_at(dir, name, Some(node), is_last, Errno::ENOTDIR),
        Standing::Nothing => end_at(dir, name, None, is_last, Errno::ENOENT),
    }
}

fn is_followed(mode: Last, is_last: bool) -> bool
    ensures { result ≡ is_followed_at mode is_last }
{
    match mode {
        Last::Followed => true,
        Last::Kept => !is_last,
    }
}

/// What is no directory is found where no part is left.
#[inline(always)]
fn end_at<'n>(
    dir: NodeId,
    name: LentName<'n>,
    node: Option<NodeId>,
    is_last: bool,
    errno: Errno,
) -> Onward<'n>
    ensures { result ≡ (if is_last then onward.Found (lent.Slot dir name.entry node)
        else onward.Nowhere errno) }
{
    if !is_last {
        return Onward::Nowhere(errno);
    }
    Onward::Found(LentFound::Slot { dir, name, node })
}

/// The directory above a directory, by its root; node 0 where what is asked for is none.
fn above<'t, P: Probe<'t>>(probe: &mut P, from: Start) -> NodeId
    ensures above { result ≡ above_in (rooted (P.tree probe.old) from.root) from.dir }
    ensures tree { P.tree probe.new ≡ P.tree probe.old }
    ensures count { P.count probe.new ≤ P.count probe.old + 1 }
{
    probe.known();
    if from.root != NodeId::ROOT && from.dir == from.root {
        return from.root;
    }
    probe.parent(from.dir).unwrap_or(NodeId::ROOT)
}

/// A resolution on its way: the root by which it goes, the directory where it is, how that was
/// named, and the parts that are left.
#[derive(Drop)]
struct Resolving<'a> {
    root: NodeId,
    here: NodeId,
    way: Nameless,
    rest: Rest<'a>,
}

impl<'a> Resolving<'a> {
    #[inline(always)]
    fn new(from: Start, rest: Rest<'a>) -> Resolving<'a>
        ensures { result ≡ record {
          root = from.root;
          here = from.dir;
          way = nameless.Top;
          rest = rest.entry;
        } }
    {
        Resolving {
            root: from.root,
            here: from.dir,
            way: Nameless::Top,
            rest,
        }
    }

    /// Resolves the parts that are left, and answers how many links are left too.
    fn finish<'t: 'a, P: Probe<'t>>(
        &mut self,
        probe: &mut P,
        mode: Last,
    ) -> Result<(LentFound<'a>, u8), Errno>
        ensures exact { resolved_seen result ≡ walk_end (P.tree probe.old) mode self.old }
        ensures left { IfOk result (λ found. found.1 ≤ self.old.rest.left) }
        ensures tree { P.tree probe.new ≡ P.tree probe.old }
        ensures count { P.count probe.new
            ≤ P.count probe.old + 3 * potential_of (P.tree probe.old) self.old }
    {
        while let Some(piece) = self.rest.next() {
            match self.enter_piece(probe, piece, mode) {
                Ok(None) => {}
                Ok(Some(lent)) => return Ok((lent, self.rest.left())),
                Err(errno) => return Err(errno),
            }
        }
        let way = self.way.lent();
        let dir = self.here;
        Ok((LentFound::Whole { dir, way }, self.rest.left()))
    }

    /// Resolves the part that a piece is, and answers what was found, where it ends the resolution.
    fn enter_piece<'t: 'a, P: Probe<'t>>(
        &mut self,
        probe: &mut P,
        piece: Piece<'a>,
        mode: Last,
    ) -> Result<Option<LentFound<'a>>, Errno>
        ensures exact { let part = part_of piece.entry.bytes.now in
            LeadsOn (P.tree probe.old) mode part self.old result self.new }
        ensures traced { let bytes = piece.entry.bytes.now in
            TracesOn (P.tree probe.old) mode (part_of bytes) bytes self.old result self.new }
        ensures stopped { IfErr result (λ _. IsTrue (is_name piece.entry.bytes.now)) }
        ensures linked { self.new.rest.left < self.old.rest.left →
            IsTrue (is_name piece.entry.bytes.now) }
        ensures left { self.new.rest.left ≤ self.old.rest.left }
        ensures potential { let t = P.tree probe.old in
            potential_of t self.new ≤ potential_of t self.old }
        ensures tree { P.tree probe.new ≡ P.tree probe.old }
        ensures count { P.count probe.new ≤ P.count probe.old + 3 }
    {
        let here = Start {
            root: self.root,
            dir: self.here,
        };
        match lead_by_piece(probe, here, piece, self.rest.is_done(), mode) {
            Onward::Directory(dir, way) => {
                self.here = dir;
                self.way = way;
                Ok(None)
            }
            Onward::Link(target) => {
                self.follow(target)?;
                Ok(None)
            }
            Onward::Found(lent) => Ok(Some(lent)),
            Onward::Nowhere(errno) => Err(errno),
        }
    }

    /// Follows a link: its target comes before the parts that are left.
    fn follow(&mut self, target: Readable<'a>) -> Result<(), Errno>
        ensures ok { OnOk result (0 < self.old.rest.left) }
        ensures err { IfErr result (λ errno. (errno ≡ ELOOP) × (self.old.rest.left ≡ 0)) }
        ensures left { self.new.rest.left ≡ self.old.rest.left - 1 }
        ensures unchanged { self.old.rest.left ≡ 0 → self.new ≡ self.old }
        ensures root { self.new.root ≡ self.old.root }
        ensures here { 0 < self.old.rest.left → self.new.here
            ≡ start_of self.old.root target.entry.bytes.now self.old.here }
        ensures way { 0 < self.old.rest.left → self.new.way ≡ nameless.Top }
        ensures parts { 0 < self.old.rest.left →
            self.new.rest.parts
            ≡ parts_of ending.Dot target.entry.bytes.now ++ self.old.rest.parts }
    {
        self.rest.put(target)?;
        if is_absolute(target.bytes) {
            self.here = self.root;
        }
        self.way = Nameless::Top;
        Ok(())
    }
}
