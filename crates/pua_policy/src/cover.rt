//! What the veils of a process leave of an object.

ghost use Rattle.std.specs.Prelude.{◌≡◌, ◌+◌, ◌≤◌, length, map, IsTrue};
ghost use Rattle.pua_tree.specs.Tree.{is_dir, climb};
ghost use Rattle.pua_path.specs.Walks.{found_seen};
ghost use Rattle.pua_policy.specs.Descent.{own_or};
ghost use Rattle.pua_policy.specs.States.{has_veil, veil_at};
ghost use Rattle.pua_policy.specs.Reasons.{covering, covering_at, covering, first_veiled};
ghost use Rattle.pua_policy.specs.Verdict.{FoundFits, cover, cover, nearest};

use crate::answer::Cover;
use crate::place::Place;
use crate::process::Process;
use crate::reason::Covering;
use pua_calls::Perms;
use pua_path::{Found, LentFound, Probe};
use pua_tree::{LentName, NodeId};

impl Process {
    /// What the veils leave of an object: everything where no veil is kept; else the permissions at
    /// its own place, or those of the nearest directory over it that has a veil. Farther veils add
    /// nothing (unveil(2); that the nearest alone counts: this profile). What was found is of the
    /// probe's tree as it stands. At most as many looks at the tree as it has nodes.
    pub fn cover<'t, P: Probe<'t>>(&self, probe: &mut P, found: &Found) -> Cover
        requires { FoundFits (P.tree probe.old) found.now }
        ensures exact { result ≡ cover (P.tree probe.old) self.now found.now }
        ensures tree { P.tree probe.new ≡ P.tree probe.old }
        ensures cost { P.count probe.new ≤ P.count probe.old + length (P.tree probe.old).nodes }
    {
        self.cover_lent(probe, &found.lent())
    }

    /// The same, of what was found with its name lent.
    pub fn cover_lent<'t, P: Probe<'t>>(&self, probe: &mut P, found: &LentFound<'_>) -> Cover
        requires { FoundFits (P.tree probe.old) (found_seen found.now) }
        ensures exact { result ≡ cover (P.tree probe.old) self.now (found_seen found.now) }
        ensures tree { P.tree probe.new ≡ P.tree probe.old }
        ensures cost { P.count probe.new ≤ P.count probe.old + length (P.tree probe.old).nodes }
    {
        if !self.is_veiled() {
            return Cover::All;
        }
        self.veiled_cover(probe, found)
    }

    /// Which veil covers an object, by the rules of `cover`: where it is kept, and its permissions.
    /// That is said of what was found in the probe's tree as it stands. Whatever the object is, it
    /// takes at most as many looks at the tree as that has nodes.
    pub fn covering<'t, P: Probe<'t>>(&self, probe: &mut P, found: &Found) -> Covering
        ensures exact { FoundFits (P.tree probe.old) found.now →
            result ≡ covering (P.tree probe.old) self.now found.now }
        ensures tree { P.tree probe.new ≡ P.tree probe.old }
        ensures cost { P.count probe.new ≤ P.count probe.old + length (P.tree probe.old).nodes }
    {
        if !self.is_veiled() {
            return Covering::InView;
        }
        probe.known();
        match *found {
            Found::Whole { dir, .. } => self.covering_from(probe, dir),
            Found::Slot { dir, name, .. } => {
                let own = Place::Slot(dir, name);
                match self.kept(&own) {
                    Some(perms) => Covering::By(own, perms),
                    None => self.covering_from(probe, dir),
                }
            }
        }
    }

    /// The permissions kept at this very place, or where it has no veil the cover of the names in
    /// the directory over it, which the caller hands on. The tree is not asked.
    pub fn own_cover(&self, place: &Place, over: Cover) -> Cover
        ensures { result ≡ own_or (veil_at self.now.veils place.now) over }
    {
        match self.kept(place) {
            Some(own) => Cover::Only(own),
            None => over,
        }
    }

    /// The same where a veil is kept, in a function of its own: a compiled function clears all its
    /// variables when it begins, and a place takes some 260 bytes.
    fn veiled_cover<'t, P: Probe<'t>>(&self, probe: &mut P, found: &LentFound<'_>) -> Cover
        requires { FoundFits (P.tree probe.old) (found_seen found.now) }
        ensures exact { IsTrue (has_veil self.now.veils) →
            result ≡ cover (P.tree probe.old) self.now (found_seen found.now) }
        ensures tree { P.tree probe.new ≡ P.tree probe.old }
        ensures cost { P.count probe.new ≤ P.count probe.old + length (P.tree probe.old).nodes }
    {
        probe.known();
        match found {
            LentFound::Whole { dir, .. } => self.cover_from(probe, *dir),
            LentFound::Slot { dir, name, .. } => match self.kept_at_name(*dir, name) {
                Some(perms) => Cover::Only(perms),
                None => self.cover_from(probe, *dir),
            },
        }
    }

    /// The permissions kept at this very name in a directory.
    fn kept_at_name(&self, dir: NodeId, name: &LentName<'_>) -> Option<Perms>
        ensures { result ≡ veil_at self.now.veils (Place.Slot dir name.now.bytes.now) }
    {
        self.kept(&Place::Slot(dir, name.name()))
    }

    /// The permissions of the first directory that has a veil, from this one up to the root.
    fn cover_from<'t, P: Probe<'t>>(&self, probe: &mut P, from: NodeId) -> Cover
        ensures exact { IsTrue (is_dir (P.tree probe.old) from) →
            result ≡ nearest (map (λ dir. veil_at self.now.veils (Place.Dir dir))
            (climb (P.tree probe.old) from)) }
        ensures tree { P.tree probe.new ≡ P.tree probe.old }
        ensures cost { P.count probe.new ≤ P.count probe.old + length (P.tree probe.old).nodes }
    {
        match self.nearest(probe, from) {
            Some(veil) => Cover::Only(veil.1),
            None => Cover::Nothing,
        }
    }

    /// The veil of the first directory that has one, from this one up to the root.
    fn covering_from<'t, P: Probe<'t>>(&self, probe: &mut P, from: NodeId) -> Covering
        ensures exact { IsTrue (is_dir (P.tree probe.old) from) →
            result ≡ covering_at (first_veiled (λ dir. veil_at self.now.veils (Place.Dir dir))
            (climb (P.tree probe.old) from)) }
        ensures tree { P.tree probe.new ≡ P.tree probe.old }
        ensures cost { P.count probe.new ≤ P.count probe.old + length (P.tree probe.old).nodes }
    {
        match self.nearest(probe, from) {
            Some((dir, perms)) => Covering::By(Place::Dir(dir), perms),
            None => Covering::NoneOver,
        }
    }

    /// The first directory that has a veil, from this one up to the root, and its permissions.
    fn nearest<'t, P: Probe<'t>>(&self, probe: &mut P, from: NodeId) -> Option<(NodeId, Perms)>
        ensures exact { IsTrue (is_dir (P.tree probe.old) from) →
            result ≡ first_veiled (λ dir. veil_at self.now.veils (Place.Dir dir))
            (climb (P.tree probe.old) from) }
        ensures tree { P.tree probe.new ≡ P.tree probe.old }
        ensures cost { P.count probe.new ≤ P.count probe.old + length (P.tree probe.old).nodes }
    {
        probe.known();
        let mut dir = from;
        loop {
            if let Some(perms) = self.kept(&Place::Dir(dir)) {
                return Some((dir, perms));
            }
            if dir == NodeId::ROOT {
                return None;
            }
            let Some(above) = probe.parent(dir) else {
                return None;
            };
            dir = above;
        }
    }
}
