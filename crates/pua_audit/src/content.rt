//! What contracts alone see of an audit.

ghost use Rattle.std.specs.Prelude.{◌≡◌};
ghost use Rattle.pua_tree.specs.Tree.{Tree};
ghost use base.Fml.{ftrue};

use std::marker::{Model, PhantomData};

/// The content of a tree, which contracts alone see. It has no bytes.
pub(crate) struct Content {
    marker: PhantomData<()>,
    pub ghost tree: { Tree },
}

impl Model for Content {
    ghost also_owns = { λ _. ftrue };
}

impl Content {
    /// What the caller's proof picks.
    pub(crate) fn of<T>(x: &T) -> Content
        ghost tree: { Tree }
        ensures { result.tree ≡ tree }
    {
        // It is there for the proof of a caller, which picks `tree` from the arguments of the call.
        let _ = x;
        Content {
            marker: PhantomData,
        }
    }
}

impl Drop for Content {
    fn drop(self) {
        let Self { marker: _ } = self;
    }
}
