//! What an audit is asked for.

ghost use Rattle.std.specs.Prelude.{◌≡◌};
ghost use Rattle.pua_tool.specs.Texts.{given_bytes, wants_of, wanted_by};

use pua_audit::Base;
use pua_words::AuditWords;

/// What an audit is asked for, besides the tree and the script.
#[derive(Clone, Copy)]
pub struct Job<'a> {
    /// The most letters of a path, at most 16.
    pub limit: u8,
    /// The number of the process that is audited, as it stands when the script has been served.
    pub process: u32,
    /// Where paths begin.
    pub base: Base,
    /// The text `CALL:PATH` of the pair after which the audit is resumed, if it is.
    pub after: Option<&'a [u8]>,
    /// Spellings of names that are letters, whether or not the tree has them; at most 1,024.
    pub candidates: &'a [&'a [u8]],
    /// The text with the table of calls; None for the standard table.
    pub table: Option<&'a [u8]>,
}

/// What the words of an audit ask for, with these bytes of a table.
pub(crate) fn job_of<'w>(words: &'w AuditWords<'_>, table: Option<&'w [u8]>) -> Job<'w>
    ensures wanted { wants_of result ≡ wanted_by words.now }
    ensures table { given_bytes result.table ≡ given_bytes table.entry }
{
    Job {
        limit: words.limit,
        process: words.process,
        base: words.base,
        after: words.after,
        candidates: words.names.as_slice(),
        table,
    }
}
