//! The candidates of an audit.

ghost use Rattle.std.specs.Prelude.{◌≡◌, ◌≢◌, ◌≤◌, Ok, Err, MatchResult, map, length};
ghost use Rattle.pua_audit.specs.Limits.{most_candidates};
ghost use Rattle.pua_audit.specs.Begin.{candidates_from};

use crate::fault::AuditFault;
use pua_tree::Name;
use std::alloc::Global;

/// The names that candidates spell, or the place of the first that spells none, counted from 1.
pub(crate) fn read_candidates(alloc: Global, spellings: &[&[u8]]) -> Result<Vec<Name>, AuditFault>
    requires { length spellings.now ≤ most_candidates }
    ensures { MatchResult result (λ names. candidates_from 1 (map (λ s. s.now) spellings.now)
        ≡ Ok names.items)
        (λ fault. fault ≢ AuditFault.OutOfMemory →
        candidates_from 1 (map (λ s. s.now) spellings.now) ≡ Err fault) }
{
    let mut names = Vec::new(alloc);
    for (place, spelling) in spellings.iter().enumerate() {
        let Ok(name) = Name::read(spelling) else {
            return Err(AuditFault::BadCandidate(place as u32 + 1));
        };
        if names.push(name).is_err() {
            return Err(AuditFault::OutOfMemory);
        }
    }
    Ok(names)
}
