//! Where the paths of an audit begin.

/// Where the paths of an audit begin.
#[derive(Clone, Copy, PartialEq, Eq)]
pub enum Base {
    /// At the root of the process: paths are absolute.
    Root,
    /// At the working directory of the process: paths are relative.
    Cwd,
}
