//! Wrong bodies of `pua_texts`.

use pua_io::{PutFault, Sink};
use pua_texts::{AuditList, write_audit};
use pua_tree::FileTree;
use std::alloc::Global;

/// A sink one put of which fails, that after the first so many.
#[derive(Drop)]
struct FailingOnce {
    before: usize,
    failed: u64,
}

impl Sink for FailingOnce {
    ghost use Rattle.std.specs.Prelude.{None};

    ghost written = { λ _. None };

    ghost failed = { λ sink. sink.failed };

    fn put(&mut self, bytes: &[u8]) -> Result<usize, PutFault> {
        if self.before == 0 && self.failed == 0 {
            self.failed = 1;
            return Err(PutFault);
        }
        self.before = self.before.saturating_sub(1);
        Ok(bytes.len())
    }
}

/// A text is not done where a put failed, whatever was put after it.
fn text_put_again_after_fault<T: FileTree>(
    alloc: Global,
    list: &mut AuditList<'_, T>,
    before: usize,
) {
    let mut sink = FailingOnce { before, failed: 0 };
    let written = write_audit(alloc, "", list, &mut sink);
    if written.is_ok() && sink.failed != 0 {
        unreachable!()
    }
}
