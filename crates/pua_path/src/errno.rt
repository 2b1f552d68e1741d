//! Why calls fail.

use std::fmt;

/// Why a call failed, by the name that errno(2) gives it.
#[derive(Clone, Copy, PartialEq, Eq)]
pub enum Errno {
    EPERM,
    ENOENT,
    E2BIG,
    EBADF,
    EACCES,
    EAGAIN,
    EBUSY,
    EEXIST,
    ENOTDIR,
    EISDIR,
    EINVAL,
    ENOSPC,
    ELOOP,
    ENAMETOOLONG,
    ENOTEMPTY,
    ENOSYS,
    ENOTSOCK,
    EOPNOTSUPP,
    EADDRINUSE,
    EXDEV,
}

impl fmt::Display for Errno {
    ghost use Rattle.std.specs.Prelude.{Some};
    ghost use Rattle.pua_path.specs.ErrnoNames.{errno_name};

    ghost output = { λ errno. Some (errno_name errno) };

    fn fmt<W: fmt::Write>(&self, f: &mut fmt::Formatter<W>) -> fmt::Result {
        f.write_str(match self {
            Errno::EPERM => "EPERM",
            Errno::ENOENT => "ENOENT",
            Errno::E2BIG => "E2BIG",
            Errno::EBADF => "EBADF",
            Errno::EACCES => "EACCES",
            Errno::EAGAIN => "EAGAIN",
            Errno::EBUSY => "EBUSY",
            Errno::EEXIST => "EEXIST",
            Errno::ENOTDIR => "ENOTDIR",
            Errno::EISDIR => "EISDIR",
            Errno::EINVAL => "EINVAL",
            Errno::ENOSPC => "ENOSPC",
            Errno::ELOOP => "ELOOP",
            Errno::ENAMETOOLONG => "ENAMETOOLONG",
            Errno::ENOTEMPTY => "ENOTEMPTY",
            Errno::ENOSYS => "ENOSYS",
            Errno::ENOTSOCK => "ENOTSOCK",
            Errno::EOPNOTSUPP => "EOPNOTSUPP",
            Errno::EADDRINUSE => "EADDRINUSE",
            Errno::EXDEV => "EXDEV",
        })
    }
}
