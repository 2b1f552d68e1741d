//! Letters: components of paths, each in as many bytes as it has.

use pua_path::Part;
use pua_tree::{LentName, Name, OutOfMemory, are_plain};
use std::alloc::Global;
use std::marker::Model;

/// A letter: a name, or `..`. It takes no more memory than its bytes, so that many of them lie
/// close to each other. Contracts see its bytes.
#[derive(Drop)]
pub(crate) struct Component {
    bytes: Vec<u8>,
    /// Whether each byte stands for itself.
    plain: bool,
}

impl Model for Component {
    ghost use Rattle.std.specs.Prelude.{◌≡◌, ℕ, List, IsTrue};
    ghost use Rattle.std.specs.List.{list_all};
    ghost use Rattle.pua_tree.specs.Spelling.{is_plain};
    ghost use Rattle.pua_audit.specs.Judge.{is_letter};

    ghost Value = { List ℕ };

    ghost view = { λ a. a.bytes.items };

    ghost invariant = { λ a. IsTrue (is_letter a.bytes.items) ×
        (a.plain ≡ list_all is_plain a.bytes.items) };
}

ghost use Rattle.std.specs.Prelude.{◌≡◌, ◌≤◌, ℕ, List, false, true, IfNone, IfOk, IfSome, IsTrue};
ghost use Rattle.std.specs.Prelude.{codes, length};
ghost use Rattle.std.specs.List.{list_all};
ghost use Rattle.pua_tree.specs.Limits.{most_name};
ghost use Rattle.pua_tree.specs.Spelling.{is_plain};
ghost use Rattle.pua_path.specs.Paths.{part_of};
ghost use Rattle.pua_path.specs.declared.found.Part.TheVariants as part;
ghost use Rattle.pua_audit.specs.Judge.{is_letter};
ghost use Rattle.pua_audit.specs.Spots.{IsNamed};

impl Component {
    /// The letter that a name is. The only error is that a growth was refused.
    pub(crate) fn named(alloc: Global, name: &Name) -> Result<Component, OutOfMemory>
        ensures letter { IfOk result (λ letter. letter ≡ name.now) }
        ensures known { IfOk result (λ letter. IsTrue (is_letter letter)) }
    {
        Component::new(alloc, name.bytes())
    }

    /// The letter `..`. The only error is that a growth was refused.
    pub(crate) fn dots(alloc: Global) -> Result<Component, OutOfMemory>
        ensures { IfOk result (λ letter. letter ≡ codes "..") }
    {
        Component::new(alloc, b"..")
    }

    fn new(alloc: Global, bytes: &[u8]) -> Result<Component, OutOfMemory>
        requires { IsTrue (is_letter bytes.now) }
        ensures letter { IfOk result (λ letter. letter ≡ bytes.now) }
        ensures known { IfOk result (λ letter. IsTrue (is_letter letter)) }
    {
        Ok(Component {
            bytes: Vec::from_slice(alloc, bytes)?,
            plain: are_plain(bytes),
        })
    }

    /// Its bytes: no more than a name has.
    pub(crate) fn bytes(&self) -> &[u8]
        ensures bytes { result.now ≡ self.now }
        ensures short { length self.now ≤ most_name }
        ensures known { IsTrue (is_letter self.now) }
    {
        &self.bytes
    }

    /// Whether each of its bytes stands for itself.
    pub(crate) fn is_plain(&self) -> bool
        ensures { result ≡ list_all is_plain self.now }
    {
        self.plain
    }

    /// The part of a path that it is.
    pub(crate) fn part(&self) -> Part
        ensures part { result ≡ part_of self.now }
        ensures name { (name : List ℕ) → result ≡ part.Name name → name ≡ self.now }
    {
        match self.as_name() {
            Some(name) => Part::Name(name.name()),
            None => Part::DotDot,
        }
    }

    /// Its bytes, lent as a name's, if it is a name.
    pub(crate) fn as_name(&self) -> Option<LentName<'_>>
        ensures bytes { IfSome result (λ name. name.bytes.now ≡ self.now) }
        ensures name { IfSome result (λ _. IsNamed self.now) }
        ensures dots { IfNone result (part_of self.now ≡ part.DotDot) }
    {
        match self.bytes.as_slice() {
            [b'.', b'.'] => None,
            bytes => Some(LentName { bytes }),
        }
    }

    /// Whether it is a name.
    pub(crate) fn is_name(&self) -> bool
        ensures name { result ≡ true → IsNamed self.now }
        ensures dots { result ≡ false → part_of self.now ≡ part.DotDot }
    {
        self.as_name().is_some()
    }
}
