//! What the veils leave of what a letter names, handed down from a directory of the table.

ghost use Rattle.std.specs.Prelude.{◌≡◌, ◌≤◌, ◌+◌, length, IfOk, IfSome, IsTrue};
ghost use Rattle.pua_tree.specs.Tree.{Tree, WellFormed, above, is_dir};
ghost use Rattle.pua_path.specs.Fits.{FoundFits, FoundsFit, StandsAsNamed};
ghost use Rattle.pua_path.specs.Resolution.{above_in};
ghost use Rattle.pua_path.specs.declared.found.Found.TheVariants.{Whole};
ghost use Rattle.pua_path.specs.declared.found.Part.TheVariants as parts;
ghost use Rattle.pua_path.specs.declared.found.Way.TheVariants.{DotDot};
ghost use Rattle.pua_policy.specs.Descent.{cover_in};
ghost use Rattle.pua_policy.specs.States.{ProcessState};
ghost use Rattle.pua_policy.specs.Verdict.{cover};
ghost use Rattle.pua_audit.specs.Covers.{AreCovered};
ghost use Rattle.pua_audit.specs.Judge.{seen_by};

use crate::table::directories::Directories;
use crate::terms::Terms;
use pua_path::{Errno, Found, Part, Probe, Way};
use pua_policy::{Cover, Place, Process};
use pua_tree::NodeId;

impl Terms {
    /// What the veils leave of what a letter named in a directory, and nothing where it named
    /// nothing. It is climbed for only where it can't be handed down or up.
    pub(crate) fn cover_of<'t, P: Probe<'t>>(
        &self,
        probe: &mut P,
        dirs: &Directories,
        from: NodeId,
        part: &Part,
        found: &Result<Found, Errno>,
    ) -> Cover
        requires tree { P.tree probe.old ≡ self.now.seen.tree }
        requires fits { FoundsFit self.now.seen.tree found.now }
        ensures exact { let seen = seen_by self.now.seen.tree self.now.process in
            IfOk found.now (StandsAsNamed self.now.seen.tree) →
            AreCovered self.now.seen.tree self.now.process dirs.now →
            IsTrue (is_dir self.now.seen.tree from) →
            IfOk found.now (λ object. part.now ≡ parts.DotDot →
            object ≡ Whole (above_in seen from) DotDot) → IfOk found.now
            (λ object. result ≡ cover self.now.seen.tree self.now.process object) }
        ensures tree { P.tree probe.new ≡ P.tree probe.old }
        ensures cost { P.count probe.new ≤ P.count probe.old + length self.now.seen.tree.nodes }
    {
        let Ok(found) = found else {
            return Cover::Nothing;
        };
        if self.process.is_veiled() {
            if let Some(cover) = dirs.handed(&self.process, from, part, found) {
                return cover;
            }
        }
        self.process.cover(probe, found)
    }
}

impl Directories {
    /// What the veils of a process leave of what a part named in a directory, if the cover of a
    /// directory with a place decides that.
    fn handed(&self, process: &Process, from: NodeId, part: &Part, found: &Found) -> Option<Cover>
        ensures { IfSome result (λ left. (t : Tree) → WellFormed t →
            FoundFits t found.now → StandsAsNamed t found.now →
            AreCovered t process.now self.now → IsTrue (is_dir t from) →
            (part.now ≡ parts.DotDot →
            found.now ≡ Whole (above_in (seen_by t process.now) from) DotDot) →
            left ≡ cover t process.now found.now) }
    {
        if let Some(cover) = self.handed_down(process, found) {
            return Some(cover);
        }
        match part {
            Part::DotDot => self.handed_up(process, from),
            Part::Dot | Part::Name(_) => None,
        }
    }

    /// What the veils of a process leave of the names in the directory above one that has a place
    /// and no veil of its own: both have the same cover.
    fn handed_up(&self, process: &Process, from: NodeId) -> Option<Cover>
        ensures here { IfSome result (λ left. (t : Tree) →
            AreCovered t process.now self.now → left ≡ cover_in t process.now from) }
        ensures above { IfSome result (λ left. (t : Tree) → WellFormed t →
            AreCovered t process.now self.now → IsTrue (is_dir t from) →
            left ≡ cover_in t process.now (above t from)) }
    {
        match process.kept(&Place::Dir(from)) {
            Some(_) => None,
            None => self.cover_in(from),
        }
    }

    /// What the veils of a process leave of what was found, if the directory over it has a place;
    /// of a directory that was found by no name, if it has a place itself.
    fn handed_down(&self, process: &Process, found: &Found) -> Option<Cover>
        ensures { IfSome result (λ left. (t : Tree) → WellFormed t →
            FoundFits t found.now → StandsAsNamed t found.now →
            AreCovered t process.now self.now → left ≡ cover t process.now found.now) }
    {
        match *found {
            Found::Whole { dir, way } => match way {
                Way::Named { parent, .. } => {
                    let over = self.cover_in(parent)?;
                    Some(process.own_cover(&Place::Dir(dir), over))
                }
                Way::Dot | Way::DotDot | Way::Top => self.cover_in(dir),
            },
            Found::Slot { dir, name, .. } => {
                let over = self.cover_in(dir)?;
                Some(process.own_cover(&Place::Slot(dir, name), over))
            }
        }
    }
}
