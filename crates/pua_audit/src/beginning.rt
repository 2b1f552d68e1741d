//! What an audit begins with, or why it can't begin.

ghost use Rattle.std.specs.Prelude.{◌≡◌, ◌≢◌, ℕ, List, Option, Ok, Err, None, IfOk, IfErr, length};
ghost use Rattle.std.specs.Prelude.{map, option_map};
ghost use Rattle.pua_tree.specs.LentRows.{lent_entry};
ghost use Rattle.pua_tree.specs.Tree.{WellFormed};
ghost use Rattle.pua_calls.specs.Calls as calls;
ghost use Rattle.pua_policy.specs.States.{ProcessState};
ghost use Rattle.pua_audit.specs.Bounds.{letter_count};
ghost use Rattle.pua_audit.specs.Begin.{beginning};
ghost use Rattle.pua_audit.specs.declared.base.Base as bases;
ghost use Rattle.pua_audit.specs.Starting.{AreSound, IsChecked, scope_with, begun_in};
ghost use Rattle.pua_audit.specs.Starting.{beginning_with};

use crate::alphabet::{Alphabet, longest};
use crate::base::Base;
use crate::candidates::read_candidates;
use crate::fault::AuditFault;
use crate::limits::{MOST_CANDIDATES, MOST_LETTERS};
use crate::resume_text::{Resumption, read_pair};
use pua_calls::CallTable;
use pua_path::{MOST_PATH, Probe};
use pua_tree::LentRow;
use std::alloc::Global;

/// What an audit begins with: its letters in the order of their bytes, and the pair that it resumes
/// after, if there is one.
#[derive(Drop)]
pub(crate) struct Checked {
    pub(crate) letters: Alphabet,
    pub(crate) after: Option<Resumption>,
}

/// What an audit begins with, by the rows of its tree, its table, base, candidates, limit and
/// resume text, or the first fault; `OutOfMemory` comes wherever a growth was refused.
pub(crate) fn check<'t, P: Probe<'t>>(
    alloc: Global,
    probe: &P,
    rows: &[LentRow<'_>],
    table: &CallTable,
    base: Base,
    candidates: &[&[u8]],
    limit: u8,
    after: Option<&[u8]>,
) -> Result<Checked, AuditFault>
    requires rows { map lent_entry rows.now ≡ (P.tree probe.now).rows }
    ensures begun { IfOk result (λ b. (h : ProcessState) →
        beginning (P.tree probe.now) table.now h base (map (λ s. s.now) candidates.now) limit
        (option_map (λ s. s.now) after.entry)
        ≡ Ok (beginning_with (P.tree probe.now) table.now h base limit b)) }
    ensures refused { IfErr result (λ fault. fault ≢ AuditFault.OutOfMemory → (h : ProcessState) →
        beginning (P.tree probe.now) table.now h base (map (λ s. s.now) candidates.now) limit
        (option_map (λ s. s.now) after.entry) ≡ Err fault) }
    ensures many { IfOk result (λ b. length b.letters ≡ letter_count (P.tree probe.now)
        (map (λ s. s.now) candidates.now)) }
    ensures sound { IfOk result (λ b. IsChecked (P.tree probe.now) limit b) }
    ensures none { after.entry ≡ None → IfOk result (λ b. b.after ≡ None) }
{
    let letters = letters_within(alloc, probe, rows, candidates, limit)?;
    let after = match after {
        None => None,
        Some(text) => {
            let limit = usize::from(limit);
            Some(read_pair(alloc, table, base, &letters, limit, text)?)
        }
    };
    Ok(Checked { letters, after })
}

/// The letters of an audit, or the first fault but that of its resume text.
fn letters_within<'t, P: Probe<'t>>(
    alloc: Global,
    probe: &P,
    rows: &[LentRow<'_>],
    candidates: &[&[u8]],
    limit: u8,
) -> Result<Alphabet, AuditFault>
    requires rows { map lent_entry rows.now ≡ (P.tree probe.now).rows }
    ensures begun { IfOk result (λ letters.
        (table : calls.CallTable) (h : ProcessState) (base : bases.Base) (after : Option (List ℕ)) →
        beginning (P.tree probe.now) table h base (map (λ s. s.now) candidates.now) limit after
        ≡ begun_in (scope_with (P.tree probe.now) table h base limit letters) after) }
    ensures refused { IfErr result (λ fault. fault ≢ AuditFault.OutOfMemory →
        (table : calls.CallTable) (h : ProcessState) (base : bases.Base) (after : Option (List ℕ)) →
        beginning (P.tree probe.now) table h base (map (λ s. s.now) candidates.now) limit after
        ≡ Err fault) }
    ensures known { IfOk result (λ letters. WellFormed (P.tree probe.now)) }
    ensures many { IfOk result (λ letters. length letters ≡ letter_count (P.tree probe.now)
        (map (λ s. s.now) candidates.now)) }
    ensures sound { IfOk result (λ letters. AreSound limit letters) }
{
    if limit > MOST_LETTERS {
        return Err(AuditFault::LimitTooLarge);
    }
    if candidates.len() > MOST_CANDIDATES {
        return Err(AuditFault::TooManyNames);
    }
    let names = read_candidates(alloc, candidates)?;
    probe.known();
    let letters = Alphabet::of(alloc, rows, names.as_slice())?;
    if usize::from(limit) * (longest(letters.as_slice()) + 1) > MOST_PATH {
        return Err(AuditFault::TooLong);
    }
    Ok(letters)
}
