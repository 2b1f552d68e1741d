//! A text that is kept in memory until all of it is known.

ghost use Rattle.std.specs.Prelude.{◌≡◌, IfOk, OnErr, OnOk, Some};
ghost use Rattle.std.specs.Io.KnownBytes.{Keeps};
ghost use Rattle.pua_io.specs.Sinks.{Puts, next_count};

use pua_io::{PutFault, Sink};

/// The bytes of a text so far. A put fails where a growth is refused.
#[derive(Drop)]
pub(crate) struct KeptText {
    pub(crate) bytes: Vec<u8>,
    pub(crate) failed: u64,
}

impl Sink for KeptText {
    ghost use Rattle.std.specs.Prelude.{Some};

    ghost written = { λ text. Some text.bytes.items };

    ghost failed = { λ text. text.failed };

    fn put(&mut self, bytes: &[u8]) -> Result<usize, PutFault>
        ensures adds { IfOk result (λ n. Puts bytes.now n (Some self.old.bytes.items)
            (Some self.new.bytes.items)) }
        ensures unfailed { OnOk result (self.new.failed ≡ self.old.failed) }
        ensures nothing { OnErr result (Keeps (Some self.old.bytes.items)
            (Some self.new.bytes.items)) }
        ensures rises { OnErr result (self.new.failed ≡ next_count self.old.failed) }
    {
        let Ok(()) = self.bytes.extend_from_slice(bytes) else {
            self.failed = self.failed.saturating_add(1);
            return Err(PutFault);
        };
        Ok(bytes.len())
    }
}
