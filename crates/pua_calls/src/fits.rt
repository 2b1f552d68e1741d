//! Which objects a call is on, and what is wrong with the others.

ghost use Rattle.std.specs.Prelude.{◌≡◌};
ghost use Rattle.pua_calls.specs.Misfits.{misfit_errno, fits_on};

use pua_path::Errno;
use pua_tree::{FileType, Kind};

/// What is wrong with what a path named, for a call.
#[derive(Clone, Copy)]
pub enum Misfit {
    /// Nothing has the name.
    Missing,
    /// Something has the name.
    Exists,
    /// It is a directory, and is to be opened for writing or made.
    IsDirectory,
    /// It is a directory, and is to be unlinked.
    IsNoFile,
    /// It is no directory.
    IsNoDirectory,
    /// It is no link.
    IsNoLink,
    /// It is no program.
    IsNoProgram,
    /// It is a directory that has rows.
    IsNotEmpty,
    /// It was named by `.`.
    ByDot,
    /// It was named by `..`.
    ByDotDot,
    /// It was named by no part.
    ByNothing,
    /// It is a socket, and is to be opened.
    IsSocket,
    /// It is no socket: no file, or one of another type.
    IsNoSocket,
    /// Something has the name to which a socket is to be bound.
    InUse,
    /// It is a directory at which another file system is mounted, and is to be removed.
    IsMountPoint,
    /// It is on another file system than what is to get its name.
    IsElsewhere,
}

impl Misfit {
    /// The error of a call on such an object (this profile, but EOPNOTSUPP is open(2)'s, ENOTSOCK
    /// connect(2)'s, EBUSY of a mount point that of rmdir(2) and unlink(2), and EXDEV that of
    /// rename(2) and link(2)).
    pub fn errno(self) -> Errno
        ensures { result ≡ misfit_errno self }
    {
        match self {
            Misfit::Missing => Errno::ENOENT,
            Misfit::Exists => Errno::EEXIST,
            Misfit::IsDirectory => Errno::EISDIR,
            Misfit::IsNoFile => Errno::EPERM,
            Misfit::IsNoDirectory => Errno::ENOTDIR,
            Misfit::IsNoLink | Misfit::ByDot | Misfit::ByDotDot => Errno::EINVAL,
            Misfit::IsNoProgram => Errno::EACCES,
            Misfit::IsNotEmpty => Errno::ENOTEMPTY,
            Misfit::ByNothing | Misfit::IsMountPoint => Errno::EBUSY,
            Misfit::IsSocket => Errno::EOPNOTSUPP,
            Misfit::IsNoSocket => Errno::ENOTSOCK,
            Misfit::InUse => Errno::EADDRINUSE,
            Misfit::IsElsewhere => Errno::EXDEV,
        }
    }
}

/// What is wrong with each kind of object for a call; None where the call is on it.
#[derive(Clone, Copy)]
pub struct Fits {
    /// With a directory.
    pub directory: Option<Misfit>,
    /// Whether a directory may be wrong besides by how it was named, or since it has rows.
    pub by_way: bool,
    /// With a file of which no more is known: it may be a socket.
    pub file: Option<Misfit>,
    /// With a socket.
    pub socket: Option<Misfit>,
    /// With a file of another known type: a plain file, a fifo or a device.
    pub no_socket: Option<Misfit>,
    /// With a program.
    pub program: Option<Misfit>,
    /// With a link that is not followed.
    pub link: Option<Misfit>,
    /// With a name that nothing has.
    pub missing: Option<Misfit>,
}

/// Of a call on nothing that stands, since this is wrong with it.
macro_rules! none_standing {
    ($misfit:expr) => {
        Fits {
            directory: Some($misfit),
            by_way: false,
            file: Some($misfit),
            socket: Some($misfit),
            no_socket: Some($misfit),
            program: Some($misfit),
            link: Some($misfit),
            missing: Some(Misfit::Missing),
        }
    };
}

impl Fits {
    /// What is wrong with a node of this kind, wherever it stands. What is wrong with removing a
    /// directory rests on the way to it, which isn't asked here: something has the name.
    pub fn on(&self, kind: Kind) -> Option<Misfit>
        ensures { result ≡ fits_on self.now kind }
    {
        match kind {
            Kind::Dir if self.by_way => Some(Misfit::Exists),
            Kind::Dir => self.directory,
            Kind::File => self.file,
            Kind::Prog => self.program,
            Kind::Link => self.link,
            Kind::Known(FileType::Sock) => self.socket,
            Kind::Known(FileType::Plain | FileType::Fifo | FileType::Dev) => self.no_socket,
        }
    }

    /// Of a call on whatever stands.
    pub(crate) const STANDING: Fits = Fits {
        directory: None,
        by_way: false,
        file: None,
        socket: None,
        no_socket: None,
        program: None,
        link: None,
        missing: Some(Misfit::Missing),
    };

    /// Of a call that opens what stands: no socket is opened (open(2)).
    pub(crate) const OPENABLE: Fits = Fits {
        socket: Some(Misfit::IsSocket),
        ..Fits::STANDING
    };

    /// Of a call that writes what stands.
    pub(crate) const WRITABLE: Fits = Fits {
        directory: Some(Misfit::IsDirectory),
        ..Fits::OPENABLE
    };

    /// Of one that writes it, or makes it.
    pub(crate) const CREATABLE: Fits = Fits {
        missing: None,
        ..Fits::WRITABLE
    };

    /// Of one that unlinks it.
    pub(crate) const UNLINKABLE: Fits = Fits {
        directory: Some(Misfit::IsNoFile),
        ..Fits::STANDING
    };

    /// Of a call on links.
    pub(crate) const LINKS: Fits = Fits {
        link: None,
        ..none_standing!(Misfit::IsNoLink)
    };

    /// Of a call on directories.
    pub(crate) const DIRECTORIES: Fits = Fits {
        directory: None,
        ..none_standing!(Misfit::IsNoDirectory)
    };

    /// Of one that removes them.
    pub(crate) const REMOVABLE: Fits = Fits {
        by_way: true,
        ..Fits::DIRECTORIES
    };

    /// Of a call on programs.
    pub(crate) const PROGRAMS: Fits = Fits {
        program: None,
        ..none_standing!(Misfit::IsNoProgram)
    };

    /// Of a call on sockets, and on files that may be sockets.
    pub(crate) const SOCKETS: Fits = Fits {
        file: None,
        socket: None,
        ..none_standing!(Misfit::IsNoSocket)
    };

    /// Of a call on a name that is free.
    pub(crate) const FREE: Fits = Fits {
        missing: None,
        ..none_standing!(Misfit::Exists)
    };

    /// Of one to which a socket is bound.
    pub(crate) const BINDABLE: Fits = Fits {
        missing: None,
        ..none_standing!(Misfit::InUse)
    };
}
