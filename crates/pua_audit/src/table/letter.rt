//! What a letter is in a directory.

ghost use Rattle.std.specs.Prelude.{◌≡◌, ◌≢◌, ◌≤◌, ◌+◌, ◌*◌, ◌&&◌, ℕ, false, true, None, Some, Ok};
ghost use Rattle.std.specs.Prelude.{Err, IfOk, IfSome, IfNone, IsTrue};
ghost use Rattle.pua_tree.specs.Tree.{is_dir, found_at};
ghost use Rattle.pua_tree.specs.declared.node.Kind.{Kind};
ghost use Rattle.pua_tree.specs.declared.node.Kind.TheVariants.{Dir};
ghost use Rattle.pua_path.specs.Bounds.{part_cost};
ghost use Rattle.pua_path.specs.Resolution.{follow, last};
ghost use Rattle.pua_path.specs.declared.found.Last.TheVariants.{Kept};
ghost use Rattle.pua_policy.specs.declared.place.Place.TheVariants.{Slot};
ghost use Rattle.pua_policy.specs.States.{perms_kept};
ghost use Rattle.pua_calls.specs.CallSets.{has, keeps_link};
ghost use Rattle.pua_calls.specs.declared.call.Call.{Call};
ghost use Rattle.pua_policy.specs.Descent.{cover_in};
ghost use Rattle.pua_policy.specs.Verdict.{FoundsFit, cover, verdict_of, is_allowed};
ghost use Rattle.pua_audit.specs.Bounds.{letter_cost, object_cost};
ghost use Rattle.pua_audit.specs.Covers.{AreCovered};
ghost use Rattle.pua_audit.specs.Judge.{seen_by};
ghost use Rattle.pua_audit.specs.Ready.{judge_in};
ghost use Rattle.pua_audit.specs.Entries.{AreWithin, allowed_kept, links_of, found_of, leads_to};
ghost use Rattle.pua_audit.specs.Spots.{IsNamed};
ghost use Rattle.pua_audit.specs.Table.{IsLetter};
ghost use Rattle.pua_steps.specs.Limits.{most_links};

use crate::component::Component;
use crate::table::directories::Directories;
use crate::table::within::{Bare, Within};
use crate::terms::Terms;
use pua_calls::Calls;
use pua_path::{Errno, Found, Last, Part, Probe, Start};
use pua_policy::{Cover, Place, judge};
use pua_tree::{LentName, NodeId};

/// A letter in a directory, for any number of links that were followed before it.
#[derive(Clone, Copy)]
pub(crate) struct Letter {
    /// The calls that are allowed on it where its links may be followed.
    pub(crate) all: Calls,
    /// The calls that are allowed on it where they may not: they keep a final link.
    pub(crate) kept: Calls,
    /// How many links it follows.
    pub(crate) links: u8,
    /// The directory to which it leads, if it leads to one.
    pub(crate) leads: Option<NodeId>,
    /// What the veils leave of what it names; where it leads to a directory, of the names in that.
    pub(crate) cover: Cover,
    pub(crate) ghost keeping: { (call : Call) → has kept call ≡ (has all call && keeps_link call) },
    pub(crate) ghost few: { links ≤ most_links },
}

impl Terms {
    /// What a letter is in a living directory, by the calls on names there that have no veil of
    /// their own. A file at such a name is not resolved, and a link only to be followed.
    pub(crate) fn letter<'t, P: Probe<'t>>(
        &self,
        probe: &mut P,
        dirs: &Directories,
        dir: NodeId,
        letter: &Component,
        within: &Within,
    ) -> Letter
        requires tree { P.tree probe.old ≡ self.now.seen.tree }
        requires living { IsTrue (is_dir self.now.seen.tree dir) }
        ensures exact { AreWithin self.now.seen.tree self.now.table self.now.process dir within.now →
            AreCovered self.now.seen.tree self.now.process dirs.now →
            IsLetter (judge_in self.now) dir letter.now
            result.all result.kept result.links result.leads }
        ensures lives { IfSome result.leads (λ to. IsTrue (is_dir self.now.seen.tree to)) }
        ensures covered { AreCovered self.now.seen.tree self.now.process dirs.now →
            IfSome result.leads
            (λ to. result.cover ≡ cover_in self.now.seen.tree self.now.process to) }
        ensures tree { P.tree probe.new ≡ P.tree probe.old }
        ensures cost { P.count probe.new ≤ P.count probe.old + letter_cost self.now.seen.tree }
    {
        let kept = match self.bare(probe, dir, letter, within) {
            Some(bare) if bare.is_link => Some(bare.calls),
            Some(bare) => {
                return Letter {
                    all: bare.calls,
                    kept: bare.calls.keeping(),
                    links: 0,
                    leads: None,
                    cover: Cover::Nothing,
                };
            }
            None => None,
        };
        self.followed(probe, dirs, dir, letter, kept)
    }

    /// The calls on a letter where a file or a link stands at its name, and has no veil of its own.
    fn bare<'t, P: Probe<'t>>(
        &self,
        probe: &mut P,
        dir: NodeId,
        letter: &Component,
        within: &Within,
    ) -> Option<Bare>
        requires tree { P.tree probe.old ≡ self.now.seen.tree }
        ensures file { IfSome result (λ bare. bare.is_link ≡ false →
            IsTrue (is_dir self.now.seen.tree dir) →
            AreWithin self.now.seen.tree self.now.table self.now.process dir within.now →
            (kept : ℕ) → IsLetter (judge_in self.now) dir letter.now bare.calls kept 0 None) }
        ensures link { IfSome result (λ bare. bare.is_link ≡ true →
            IsTrue (is_dir self.now.seen.tree dir) →
            AreWithin self.now.seen.tree self.now.table self.now.process dir within.now →
            (call : Call) → has bare.calls call ≡ allowed_kept self.now.seen.tree
            self.now.table self.now.process dir letter.now call) }
        ensures none { IfNone result (IsNamed letter.now →
            perms_kept self.now.process (Slot dir letter.now) ≡ None → (node : ℕ) (kind : Kind) →
            found_at self.now.seen.tree dir letter.now ≡ Some (node, kind) → kind ≡ Dir) }
        ensures tree { P.tree probe.new ≡ P.tree probe.old }
        ensures cost { P.count probe.new ≤ P.count probe.old + 2 }
    {
        let name = letter.as_name()?;
        let (_, kind) = probe.find_named(dir, name)?;
        let bare = within.on(kind)?;
        if within.veiled && self.has_veil(dir, name) {
            return None;
        }
        Some(bare)
    }

    /// Whether a veil is kept at a name in a directory.
    fn has_veil(&self, dir: NodeId, name: LentName<'_>) -> bool
        ensures none { result ≡ false →
            perms_kept self.now.process (Slot dir name.entry.bytes.now) ≡ None }
        ensures kept { result ≡ true →
            perms_kept self.now.process (Slot dir name.entry.bytes.now) ≢ None }
    {
        let place = Place::Slot(dir, name.name());
        self.process.kept(&place).is_some()
    }

    /// Where a part is looked for that stands in a directory.
    fn start_in(&self, dir: NodeId) -> Start
        ensures root { result.root ≡ (seen_by self.now.seen.tree self.now.process).root }
        ensures lives { IsTrue (is_dir self.now.seen.tree result.root) }
        ensures dir { result.dir ≡ dir }
    {
        let root = self.root;
        Start { root, dir }
    }

    /// What a letter is in a living directory, followed once, with no link used before it. The
    /// calls where a final link is kept may be known.
    fn followed<'t, P: Probe<'t>>(
        &self,
        probe: &mut P,
        dirs: &Directories,
        dir: NodeId,
        letter: &Component,
        kept: Option<Calls>,
    ) -> Letter
        requires tree { P.tree probe.old ≡ self.now.seen.tree }
        requires living { IsTrue (is_dir self.now.seen.tree dir) }
        ensures exact { AreCovered self.now.seen.tree self.now.process dirs.now →
            IfSome kept (λ calls. (call : Call) → has calls call ≡ allowed_kept
            self.now.seen.tree self.now.table self.now.process dir letter.now call) →
            IsLetter (judge_in self.now) dir letter.now
            result.all result.kept result.links result.leads }
        ensures lives { IfSome result.leads (λ to. IsTrue (is_dir self.now.seen.tree to)) }
        ensures covered { AreCovered self.now.seen.tree self.now.process dirs.now →
            IfSome result.leads
            (λ to. result.cover ≡ cover_in self.now.seen.tree self.now.process to) }
        ensures tree { P.tree probe.new ≡ P.tree probe.old }
        ensures cost { P.count probe.new ≤ P.count probe.old
            + 2 * (part_cost self.now.seen.tree + object_cost self.now.seen.tree) }
    {
        let part = letter.part();
        let (followed, links) = counted(pua_path::follow(probe, self.start_in(dir), &part));
        let cover = self.cover_of(probe, dirs, dir, &part, &followed);
        let near = self.calls_on(probe, &followed, &cover);
        let far = match kept {
            Some(calls) => calls,
            None => self.calls_kept(probe, dirs, dir, &part, &followed, links, near),
        };
        let all = near.following().union(far.keeping());
        Letter {
            all,
            kept: all.keeping(),
            links,
            leads: directory_of(&followed),
            cover,
        }
    }

    /// The calls that are allowed on what a part names where a final link is kept: the calls on
    /// what it names where links are followed, if none was.
    fn calls_kept<'t, P: Probe<'t>>(
        &self,
        probe: &mut P,
        dirs: &Directories,
        dir: NodeId,
        part: &Part,
        followed: &Result<Found, Errno>,
        links: u8,
        near: Calls,
    ) -> Calls
        requires tree { P.tree probe.old ≡ self.now.seen.tree }
        requires living { IsTrue (is_dir self.now.seen.tree dir) }
        ensures exact { let seen = seen_by self.now.seen.tree self.now.process in
            AreCovered self.now.seen.tree self.now.process dirs.now →
            followed.now ≡ found_of (follow seen dir part.now) →
            links ≡ links_of (follow seen dir part.now) →
            ((call : Call) → has near call ≡ is_allowed
            (verdict_of self.now.seen.tree self.now.table self.now.process call followed.now)) →
            (call : Call) → has result call ≡ is_allowed
            (verdict_of self.now.seen.tree self.now.table self.now.process call
            (last seen dir 0 part.now Kept)) }
        ensures tree { P.tree probe.new ≡ P.tree probe.old }
        ensures cost { P.count probe.new ≤ P.count probe.old
            + (part_cost self.now.seen.tree + object_cost self.now.seen.tree) }
    {
        if links == 0 && followed.is_ok() {
            return near;
        }
        let kept = pua_path::last(probe, self.start_in(dir), 0, part, Last::Kept);
        let cover = self.cover_of(probe, dirs, dir, part, &kept);
        self.calls_on(probe, &kept, &cover)
    }

    /// The calls that are allowed on what a path named, by what the veils leave of it.
    pub(crate) fn calls_on<'t, P: Probe<'t>>(
        &self,
        probe: &mut P,
        found: &Result<Found, Errno>,
        left: &Cover,
    ) -> Calls
        requires tree { P.tree probe.old ≡ self.now.seen.tree }
        ensures exact { FoundsFit self.now.seen.tree found.now → IfOk found.now
            (λ object. left.now ≡ cover self.now.seen.tree self.now.process object) →
            (call : Call) → has result call ≡ is_allowed
            (verdict_of self.now.seen.tree self.now.table self.now.process call found.now) }
        ensures tree { P.tree probe.new ≡ P.tree probe.old }
        ensures cost { P.count probe.new ≤ P.count probe.old + 1 }
    {
        let Ok(found) = found else {
            return Calls::NONE;
        };
        let object = judge::object(probe, found);
        self.allowed.on(*left, object)
    }
}

/// What was found, and how many links were followed.
fn counted(followed: Result<(Found, u8), Errno>) -> (Result<Found, Errno>, u8)
    ensures found { result.0 ≡ found_of followed }
    ensures links { result.1 ≡ links_of followed }
{
    match followed {
        Ok((found, links)) => (Ok(found), links),
        Err(errno) => (Err(errno), 0),
    }
}

/// The directory that was found, if one was.
fn directory_of(found: &Result<Found, Errno>) -> Option<NodeId>
    ensures { result ≡ leads_to found.now }
{
    match *found {
        Ok(Found::Whole { dir, .. }) => Some(dir),
        Ok(Found::Slot { .. }) | Err(_) => None,
    }
}
