//! Live states of audits, and looks and reads in numbers, by direct calls over both kinds of tree.

use self::AuditSize::{First, Whole};
use crate::LISTING;
use crate::audited::{Taken, TreeAudit};
use crate::told::{count, wrong_unless};
use crate::trees::ListedTree;
use crate::worlds::run_over;
use anyhow::Result;
use pua_calls::{Call, CallTable};
use pua_policy::Process;
use pua_tree::{FileTree, ListTree, SlabTree};
use std::alloc::Global;
use std::fs;

/// An audit of process 1 from the root, after a script, and what is found. Its components are the
/// names in rows, `..` and the candidates. With N nodes, A components, a limit L and targets of at
/// most M components it may look 33 N (L + 1) (A + 1) E + 2 (L + 1) (A + 1) E times at the tree,
/// where E is 16 (3 (1 + 32 M) + N + 4), and only to begin; and it may read 2 (L + 1) (A + 1)
/// components for a line.
#[derive(Clone, Copy)]
struct Case<'a> {
    script: &'a [u8],
    candidates: &'a [&'a [u8]],
    limit: u8,
    looks: u64,
    reads: u64,
    found: AuditSize,
}

/// How many states are live and lines come; or the path of the first line, where there are too
/// many.
#[derive(Clone, Copy)]
enum AuditSize {
    Whole(usize, usize),
    First(&'static [u8]),
}

/// A file with the listing of a directory with 20 links to it, and in it a file with 13 links to
/// it: each link leads to the one before.
const CHAINS: &str = "chains";

/// A file with the listing of a root with a hundred directories, ..
const WIDE: &str = "wide";

/// .. and one with the same, and in the root a chain: nine directories named `a`, one in another,
/// and a file in the last one.
const DEEP: &str = "deep";

/// A root in which nothing stands.
const ROOT: &[u8] = b"tree 1\n0 dir\n";

/// The cases over it.
const ROOT_CASES: [Case<'static>; 4] = [
    Case {
        script: b"",
        candidates: &[],
        limit: 0,
        looks: 116_480,
        reads: 4,
        found: Whole(0, 5),
    },
    Case {
        script: b"",
        candidates: &[],
        limit: 1,
        looks: 232_960,
        reads: 8,
        found: Whole(1, 10),
    },
    Case {
        script: b"1 pledge = -\n1 stat /\n1 exit\n",
        candidates: &[],
        limit: 3,
        looks: 465_920,
        reads: 16,
        found: Whole(0, 0),
    },
    Case {
        script: b"1 pledge stdio,cpath -\n",
        candidates: &[b"a"],
        limit: 2,
        looks: 524_160,
        reads: 18,
        found: Whole(2, 4),
    },
];

/// Cases that leave one file of the listing, ..
const LISTING_CASES: [Case<'static>; 2] = [
    Case {
        script: b"1 unveil /etc/passwd r\n1 unveil - -\n",
        candidates: &[],
        limit: 2,
        looks: 23_786_784,
        reads: 54,
        found: Whole(2, 3),
    },
    Case {
        script: b"1 unveil /etc/passwd r\n1 unveil - -\n",
        candidates: &[],
        limit: 3,
        looks: 31_715_712,
        reads: 72,
        found: Whole(8, 12),
    },
];

/// .. of chains of links, ..
const CHAIN_CASES: [Case<'static>; 1] = [Case {
    script: b"1 unveil /d/f r\n1 unveil - -\n",
    candidates: &[],
    limit: 2,
    looks: 293_768_160,
    reads: 222,
    found: Whole(22, 607),
}];

/// .. and at the end of a chain of directories.
const DEEP_CASES: [Case<'static>; 1] = [Case {
    script: b"1 unveil /a/a/a/a/a/a/a/a/a/f r\n1 unveil - -\n",
    candidates: &[],
    limit: 10,
    looks: 14_356_010_240,
    reads: 2_288,
    found: Whole(10, 3),
}];

/// Cases that leave no name, or the last of a hundred directories.
const WIDE_CASES: [Case<'static>; 2] = [
    Case {
        script: b"1 unveil /d1 =\n1 unveil - -\n",
        candidates: &[],
        limit: 16,
        looks: 18_875_352_960,
        reads: 3_468,
        found: Whole(0, 0),
    },
    Case {
        script: b"1 unveil /d100 r\n1 unveil - -\n",
        candidates: &[],
        limit: 16,
        looks: 18_875_352_960,
        reads: 3_468,
        found: First(b"/../../../../../../../../../../../../../../../d100"),
    },
];

/// Prints a line for each case that is found otherwise, and how many there are.
pub(crate) fn run(rt: &HostRuntime) -> Result<()> {
    let number = judged(rt, ROOT, &ROOT_CASES, 0)?;
    let number = judged(rt, LISTING, &LISTING_CASES, number)?;
    let number = judged_in(rt, CHAINS, &CHAIN_CASES, number)?;
    let number = judged_in(rt, DEEP, &DEEP_CASES, number)?;
    let number = judged_in(rt, WIDE, &WIDE_CASES, number)?;
    count(rt, "live states", number, "audits over two trees")
}

/// Prints a line for each case over the listing of a file that is found otherwise; the number that
/// follows.
fn judged_in(rt: &HostRuntime, file: &str, cases: &[Case<'_>], first: usize) -> Result<usize> {
    let listing = fs::read(rt, file)?;
    judged(rt, listing.as_slice(), cases, first)
}

/// Prints a line for each case over a listing that is found otherwise; the number that follows.
fn judged(rt: &HostRuntime, listing: &[u8], cases: &[Case<'_>], first: usize) -> Result<usize> {
    let mut number = first;
    for case in cases {
        let holds = is_found_twice(rt.alloc(), listing, case);
        wrong_unless(rt, holds, "live states, case", number)?;
        number = number.saturating_add(1);
    }
    Ok(number)
}

/// Whether an audit finds this over both kinds of tree.
fn is_found_twice(alloc: Global, listing: &[u8], case: &Case<'_>) -> Result<bool> {
    let is_found = is_found_over::<ListTree>(alloc, listing, case)?;
    Ok(is_found && is_found_over::<SlabTree>(alloc, listing, case)?)
}

/// Whether an audit over one kind of tree finds this, within the bounds.
fn is_found_over<T: ListedTree>(alloc: Global, listing: &[u8], case: &Case<'_>) -> Result<bool> {
    let ran = run_over(alloc, T::read(alloc, listing)?, case.script)?;
    match ran.world.process(1) {
        Some(process) => is_audited(alloc, ran.world.tree(), process, ran.world.table(), case),
        None => Ok(false),
    }
}

/// Whether an audit that begins has looked and read within the bounds, and lends what is found.
fn is_audited<T: FileTree>(
    alloc: Global,
    tree: &T,
    process: &Process,
    table: &CallTable,
    case: &Case<'_>,
) -> Result<bool> {
    let mut audit = TreeAudit::begin(alloc, tree, process, table, case.candidates, case.limit)?;
    let Taken { looks, reads, .. } = audit.taken();
    let is_begun = looks <= case.looks && reads == 0;
    Ok(is_begun && is_lent(&mut audit, case) && audit.taken().looks == looks)
}

/// Whether an audit lends what is found, within the bounds.
fn is_lent<T: FileTree>(audit: &mut TreeAudit<'_, T>, case: &Case<'_>) -> bool {
    match case.found {
        Whole(live, lines) => {
            let lent = audit.count();
            lent.most_reads <= case.reads && (audit.taken().live, lent.lines) == (live, lines)
        }
        First(path) => audit.lends(Some((path, Call::Stat))) && audit.taken().reads <= case.reads,
    }
}
