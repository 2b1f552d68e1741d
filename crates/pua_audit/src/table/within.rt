//! The calls on names of a directory that have no veil of their own.

ghost use Rattle.std.specs.Prelude.{◌≡◌, ℕ, true, false, Some, IfSome, IfNone, IsTrue};
ghost use Rattle.pua_tree.specs.Tree.{Tree, is_dir};
ghost use Rattle.pua_tree.specs.declared.node.Kind.TheVariants.{Dir, Link};
ghost use Rattle.pua_path.specs.Kinds.{is_file};
ghost use Rattle.pua_calls.specs.CallSets.{has};
ghost use Rattle.pua_calls.specs.Calls.{CallTable};
ghost use Rattle.pua_policy.specs.Descent.{cover_in};
ghost use Rattle.pua_policy.specs.States.{ProcessState};
ghost use Rattle.pua_policy.specs.Objects.{object_seen};
ghost use Rattle.pua_policy.specs.Verdict as judged;
ghost use Rattle.pua_policy.specs.Verdict.{covered_verdict, is_allowed, object_of_kind};
ghost use Rattle.pua_calls.specs.declared.call.Call.{Call};
ghost use Rattle.pua_audit.specs.Entries.{AreWithin, allowed_within};
ghost use Rattle.pua_audit.specs.Spots.{AreUnveiled};

use crate::terms::Terms;
use pua_calls::Calls;
use pua_policy::{Cover, Object};
use pua_tree::{FileType, Kind};

/// The calls that are allowed in a directory on names without a veil of their own, by what stands
/// there: what the veils leave of such a name is what they leave of the directory.
#[derive(Clone, Copy)]
pub(crate) struct Within {
    pub(crate) missing: Calls,
    pub(crate) file: Calls,
    pub(crate) program: Calls,
    pub(crate) plain: Calls,
    pub(crate) socket: Calls,
    pub(crate) fifo: Calls,
    pub(crate) device: Calls,
    pub(crate) link: Calls,
    /// Whether a veil may be kept at a name there.
    pub(crate) veiled: bool,
}

/// What stands at a name without a veil of its own, and is no directory.
#[derive(Clone, Copy)]
pub(crate) struct Bare {
    /// The calls that are allowed on it; on a link, where it is kept.
    pub(crate) calls: Calls,
    pub(crate) is_link: bool,
}

impl Terms {
    /// The calls on names that have no veil of their own, in any living directory that has this
    /// cover, and in which a name has a veil of its own only if that is said here.
    pub(crate) fn within(&self, cover: Cover, veiled: bool) -> Within
        ensures { (dir : ℕ) → IsTrue (is_dir self.now.seen.tree dir) →
            cover ≡ cover_in self.now.seen.tree self.now.process dir →
            (veiled ≡ false → AreUnveiled self.now.process dir) →
            AreWithin self.now.seen.tree self.now.table self.now.process dir result }
    {
        Within {
            missing: self.calls_over(&cover, Object::Missing),
            file: self.calls_over(&cover, Object::Node(Kind::File)),
            program: self.calls_over(&cover, Object::Node(Kind::Prog)),
            plain: self.calls_over(&cover, Object::Node(Kind::Known(FileType::Plain))),
            socket: self.calls_over(&cover, Object::Node(Kind::Known(FileType::Sock))),
            fifo: self.calls_over(&cover, Object::Node(Kind::Known(FileType::Fifo))),
            device: self.calls_over(&cover, Object::Node(Kind::Known(FileType::Dev))),
            link: self.calls_over(&cover, Object::Node(Kind::Link)),
            veiled,
        }
    }

    /// The calls on an object that has this cover.
    fn calls_over(&self, cover: &Cover, object: Object) -> Calls
        ensures { (t : Tree) (judged : judged.Object) → object ≡ object_seen t judged →
            (call : Call) → has result call
            ≡ is_allowed (covered_verdict t self.now.table self.now.process call cover.now judged) }
    {
        self.allowed.on(*cover, object)
    }
}

impl Within {
    /// The calls on a node of this kind, if that is a file or a link.
    pub(crate) fn on(&self, kind: Kind) -> Option<Bare>
        ensures none { IfNone result (kind ≡ Dir) }
        ensures file { IfSome result (λ bare. bare.is_link ≡ false → is_file kind ≡ true) }
        ensures link { IfSome result (λ bare. bare.is_link ≡ true → kind ≡ Link) }
        ensures calls { IfSome result (λ bare. (t : Tree) (table : CallTable) (h : ProcessState)
            (dir : ℕ) → AreWithin t table h dir self.now → (call : Call) → has bare.calls call
            ≡ allowed_within t table h dir (object_of_kind (Some kind)) call) }
    {
        let calls = match kind {
            Kind::File => self.file,
            Kind::Prog => self.program,
            Kind::Known(FileType::Plain) => self.plain,
            Kind::Known(FileType::Sock) => self.socket,
            Kind::Known(FileType::Fifo) => self.fifo,
            Kind::Known(FileType::Dev) => self.device,
            Kind::Link => {
                return Some(Bare {
                    calls: self.link,
                    is_link: true,
                });
            }
            Kind::Dir => return None,
        };
        Some(Bare {
            calls,
            is_link: false,
        })
    }
}
