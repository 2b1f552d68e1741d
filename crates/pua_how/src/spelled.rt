//! Paths as a process spells them that has a root of its own.

ghost use Rattle.std.specs.Prelude.{◌≡◌, ◌++◌, OnOk, option_map, string_bytes};
ghost use Rattle.pua_how.specs.Steps.{behind_root, below_root, climb_of, climbing};
ghost use Rattle.pua_how.specs.Steps.{climbs, seen_text};

use pua_path::Start;
use pua_tree::FileTree;
use pua_why::TreePaths;
use std::alloc::{AllocError, Global};

/// Adds a path from the root of the tree as who starts there spells it: from its own root, and from
/// its working directory where the path does not lead below that.
pub(crate) fn push_seen<T: FileTree>(
    alloc: Global,
    paths: &mut TreePaths<'_, T>,
    text: &mut String,
    from: &Start,
    whole: &str,
) -> Result<(), AllocError>
    ensures text { OnOk result (string_bytes text.new
        ≡ string_bytes text.old ++ seen_text paths.old.tree from.now whole.now) }
    ensures tree { paths.new.tree ≡ paths.old.tree }
{
    let mut root = String::new(alloc);
    paths.push_dir(&mut root, from.root)?;
    if let Some(below) = below_root(root.as_str(), whole) {
        return text.push_str(below);
    }
    let mut dir = String::new(alloc);
    paths.push_dir(&mut dir, from.dir)?;
    push_climbing(text, dir.as_bytes())?;
    text.push_str(whole)
}

/// What is behind the path of a root, or a slash where that is all. None where the root's path is
/// not the whole of the front.
fn below_root<'t>(root: &str, whole: &'t str) -> Option<&'t str>
    ensures { option_map (λ below. below.now) result ≡ below_root root.now whole.now }
{
    match whole.strip_prefix(root) {
        Some(behind) => behind_root(behind),
        None => None,
    }
}

/// What begins with a slash, or a slash where nothing is left.
fn behind_root(behind: &str) -> Option<&str>
    ensures { option_map (λ below. below.now) result ≡ behind_root behind.now }
{
    match behind.as_bytes() {
        [] => Some("/"),
        [b'/', ..] => Some(behind),
        _ => None,
    }
}

/// Adds `..` for each name of a path.
fn push_climbing(text: &mut String, path: &[u8]) -> Result<(), AllocError>
    ensures { OnOk result (string_bytes text.new ≡ string_bytes text.old ++ climbing path.now) }
{
    let Some((_slash, more)) = path.split_first() else {
        return Ok(());
    };
    text.push_str("..")?;
    push_climbs(text, more)
}

/// Adds a slash and `..` for each slash.
fn push_climbs(text: &mut String, bytes: &[u8]) -> Result<(), AllocError>
    ensures { OnOk result (string_bytes text.new ≡ string_bytes text.old ++ climbs bytes.now) }
{
    for byte in bytes {
        push_climb(text, *byte)?;
    }
    Ok(())
}

/// Adds a slash and `..` for a slash.
fn push_climb(text: &mut String, byte: u8) -> Result<(), AllocError>
    ensures { OnOk result (string_bytes text.new ≡ string_bytes text.old ++ climb_of byte) }
{
    if byte == b'/' {
        text.push_str("/..")?;
    }
    Ok(())
}
