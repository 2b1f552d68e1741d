//! Where things stand in a tree, as paths are written.

ghost use Rattle.std.specs.Prelude.{◌≡◌, ◌≤◌, ◌+◌, ◌++◌, ◌∷◌, [], IfOk, OnOk, length, map};
ghost use Rattle.std.specs.Prelude.{reverse, string_bytes, vec_capacity, vec_len};
ghost use Rattle.pua_tree.specs.Spelling.{byte_spelling, spelling};
ghost use Rattle.pua_why.specs.Texts.{dir_names, dir_text, slashed_names, spot_text};

use pua_tree::{FileTree, Name, NodeId, OutOfMemory};
use std::alloc::{AllocError, Global};
use std::marker::Model;

/// A tree, and room for the names of the deepest spot in it. Contracts see the tree, and the names
/// that lead to what was looked for last.
#[derive(Drop)]
pub struct TreePaths<'t, T: FileTree> {
    tree: &'t T,
    names: Vec<&'t Name>,
}

impl<'t, T: FileTree> Model for TreePaths<'t, T> {
    ghost use Rattle.std.specs.Prelude.{◌≤◌, ◌+◌, length, map, vec_capacity};
    ghost use Rattle.pua_why.specs.TreePaths.{PathsState};

    ghost Value = { PathsState };

    ghost view = { λ a. record {
      tree = T.content a.tree.now;
      names = map (λ name. name.now) a.names.items;
    } };

    ghost invariant = { λ a. length (T.content a.tree.now).rows + 1 ≤ vec_capacity a.names };
}

impl<'t, T: FileTree> TreePaths<'t, T> {
    /// The paths of this tree as it stands. The only error is that a growth was refused: what is
    /// looked for later takes no memory.
    pub fn new(alloc: Global, tree: &'t T) -> Result<TreePaths<'t, T>, OutOfMemory>
        ensures { IfOk result (λ paths. paths.tree ≡ T.content tree.now) }
    {
        let Ok(names) = Vec::with_capacity(alloc, tree.row_count() + 1) else {
            return Err(OutOfMemory);
        };
        Ok(TreePaths { tree, names })
    }

    /// Looks for where a directory stands now, and keeps the names that lead there from the root:
    /// none for the root, and for a directory that was removed.
    pub fn find_dir(&mut self, dir: NodeId)
        ensures names { self.new.names ≡ dir_names self.old.tree dir }
        ensures tree { self.new.tree ≡ self.old.tree }
    {
        self.names.clear();
        climb(self.tree, dir, &mut self.names);
        self.names.reverse();
    }

    /// The same for a name in a directory.
    pub fn find_spot(&mut self, dir: NodeId, name: &'t Name)
        ensures names { self.new.names ≡ dir_names self.old.tree dir ++ name.now ∷ [] }
        ensures tree { self.new.tree ≡ self.old.tree }
    {
        self.names.clear();
        self.names.push_reserved(name);
        climb(self.tree, dir, &mut self.names);
        self.names.reverse();
    }

    /// The names that lead from the root to what was looked for last.
    pub fn names(&self) -> &[&'t Name]
        ensures { map (λ name. name.now) result.now ≡ self.now.names }
    {
        self.names.as_slice()
    }

    /// Adds the path of a directory to a text: a slash for the root, and for a directory that was
    /// removed. The only error is that a growth was refused.
    pub fn push_dir(&mut self, text: &mut String, dir: NodeId) -> Result<(), AllocError>
        ensures text { OnOk result
            (string_bytes text.new ≡ string_bytes text.old ++ dir_text self.old.tree dir) }
        ensures tree { self.new.tree ≡ self.old.tree }
    {
        self.find_dir(dir);
        if self.names.is_empty() {
            return text.push_str("/");
        }
        push_names(text, self.names.as_slice())
    }

    /// Adds the path of a name in a directory to a text. The only error is that a growth was
    /// refused.
    pub fn push_spot(
        &mut self,
        text: &mut String,
        dir: NodeId,
        name: &Name,
    ) -> Result<(), AllocError>
        ensures text { OnOk result (string_bytes text.new
            ≡ string_bytes text.old ++ spot_text self.old.tree (dir, name.now)) }
        ensures tree { self.new.tree ≡ self.old.tree }
    {
        self.find_dir(dir);
        push_names(text, self.names.as_slice())?;
        push_name(text, name)
    }
}

/// Adds the names of a directory and of those above it, up to the root.
fn climb<'t, T: FileTree>(tree: &'t T, dir: NodeId, names: &mut Vec<&'t Name>)
    requires room { vec_len names.old + length (T.content tree.now).rows ≤ vec_capacity names.old }
    ensures names { reverse (map (λ name. name.now) names.new.items)
        ≡ dir_names (T.content tree.now) dir ++ reverse (map (λ name. name.now) names.old.items) }
    ensures room { vec_capacity names.new ≡ vec_capacity names.old }
{
    let mut at = dir;
    for _ in 0..tree.row_count() {
        let Some(spot) = tree.spot_of(at) else {
            return;
        };
        names.push_reserved(spot.name);
        at = spot.dir;
    }
}

/// Adds a slash and a name as it is spelled, for each of these.
fn push_names(text: &mut String, names: &[&Name]) -> Result<(), AllocError>
    ensures { OnOk result (string_bytes text.new
        ≡ string_bytes text.old ++ slashed_names (map (λ name. name.now) names.now)) }
{
    for name in names {
        push_name(text, name)?;
    }
    Ok(())
}

/// Adds a slash and a name as it is spelled.
fn push_name(text: &mut String, name: &Name) -> Result<(), AllocError>
    ensures { OnOk result (string_bytes text.new
        ≡ string_bytes text.old ++ (47 ∷ spelling name.now)) }
{
    text.push_str("/")?;
    push_spelled(text, name.bytes())
}

/// Adds bytes as they are spelled.
pub(crate) fn push_spelled(text: &mut String, bytes: &[u8]) -> Result<(), AllocError>
    ensures { OnOk result (string_bytes text.new ≡ string_bytes text.old ++ spelling bytes.now) }
{
    for byte in bytes {
        push_byte(text, *byte)?;
    }
    Ok(())
}

/// Adds a byte as it is spelled.
fn push_byte(text: &mut String, byte: u8) -> Result<(), AllocError>
    ensures { OnOk result (string_bytes text.new ≡ string_bytes text.old ++ byte_spelling byte) }
{
    if 33 <= byte && byte <= 126 && byte != b'\\' {
        return text.push(char::from(byte));
    }
    text.push('\\')?;
    text.push(char::from(b'0' + byte / 64))?;
    text.push(char::from(b'0' + byte / 8 % 8))?;
    text.push(char::from(b'0' + byte % 8))
}
