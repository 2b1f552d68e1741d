//! Wrong bodies of counts that no answer shows alone: each function meets what such a body would
//! answer and is proved never to, by the contracts of what it calls.

ghost use Rattle.std.specs.Prelude.{◌≡◌, ◌≤◌, ◌+◌, ◌*◌, length};
ghost use Rattle.pua_steps.specs.Lists.{AreListsOf, IsOpen};
ghost use Rattle.pua_steps.specs.Table.{IsTable};

use crate::counted::CountedLists;
use crate::frame::Frame;
use crate::tables::Tables;
use crate::walk::Walk;

/// An entry of a list that is read is counted.
fn entry_read_uncounted(counted: &mut CountedLists, place: usize, end: usize) {
    let before = counted.reads();
    let entry = counted.entry(place, end);
    if entry.is_some() && before < u64::MAX && counted.reads() <= before {
        unreachable!()
    }
}

/// Tables count the letter that they gave last with those before it.
fn tables_tell_no_reads(tables: &mut Tables, left: usize, frame: &mut Frame)
    requires table { IsTable tables.old.steps }
    requires dirs { tables.old.live.dirs ≡ length tables.old.steps.rows.items }
    requires layer { left * tables.old.live.dirs + tables.old.live.dirs
        ≤ length tables.old.live.bounds.items }
    requires listed { AreListsOf tables.old.steps tables.old.live
        (length tables.old.counted.lists.layers.items) tables.old.counted.lists }
    requires open { IsOpen tables.old.steps tables.old.counted.lists frame.old }
{
    let before = tables.reads();
    let visit = tables.next_visit(left, frame);
    if visit.is_some() && before < u64::MAX && tables.reads() <= before {
        unreachable!()
    }
}

/// A walk has read as many letters as its tables count.
fn reads_one_less(walk: &Walk) {
    if walk.reads() != walk.tables.reads() {
        unreachable!()
    }
}
