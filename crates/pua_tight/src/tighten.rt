//! A script without the words that none of its answers needs.

ghost use Rattle.std.specs.Prelude.{◌≡◌, ◌≢◌, Err, IfOk, IfErr, Ok};
ghost use Rattle.pua_tree.specs.Listing.{listing};
ghost use Rattle.pua_script.specs.Replay.{answers_to, new_world};
ghost use Rattle.pua_script.specs.Scripts.{script_by};
ghost use Rattle.pua_tight.specs.Texts.{as_listing, as_script, text_over, tightened};
ghost use Rattle.pua_tight.specs.Left.{IsFaultOf, IsGiven};

use crate::asked::asked_in;
use crate::fault::TightFault;
use crate::text::thinned_text;
use crate::together::try_all;
use crate::trial::trials_of;
use crate::wanted::Wanted;
use pua_calls::{CallTable, Rules};
use pua_script::{Request, Script, ScriptFault, read_script_by};
use pua_tree::{ListingFault, OutOfMemory, SlabTree, read_listing_slab};
use std::alloc::Global;

/// The bytes of a script without the promises and letters that none of its answers needs, where it
/// is read by these rules and served over the tree of a listing by a table. From the last line to
/// the first, and in a line in the order of keywords and of the letters r, w, x, c, each is left
/// out without which every line is answered as before; of lines that are answered ok alone, and of
/// promises those that some call asks for, or a request without a path, but `error`. All other
/// bytes stay, comments too, and where nothing is left of an argument it is `=`.
///
/// The first that holds of `Listing` and `Script` is answered; `OutOfMemory` where a growth was
/// refused.
pub fn tight_text(
    alloc: Global,
    tree_bytes: &[u8],
    script_bytes: &[u8],
    rules: Rules,
    table: &CallTable,
) -> Result<Vec<u8>, TightFault>
    ensures done { IfOk result (λ text.
        text_over rules table.now tree_bytes.now script_bytes.now ≡ Ok text.items) }
    ensures refused { IfErr result (λ fault. fault ≢ TightFault.OutOfMemory →
        (text_over rules table.now tree_bytes.now script_bytes.now ≡ Err fault)) }
{
    let (wanted, mut requests) = begin(alloc, tree_bytes, script_bytes, rules, table)?;
    tighten(&wanted, &mut requests)?;
    Ok(thinned_text(alloc, rules, requests.as_slice(), script_bytes)?)
}

/// The requests of a script that is read by these rules, and what they are answered over the tree
/// of a listing.
pub(crate) fn begin<'a>(
    alloc: Global,
    tree_bytes: &[u8],
    script_bytes: &[u8],
    rules: Rules,
    table: &'a CallTable,
) -> Result<(Wanted<'a>, Vec<Request>), TightFault>
    ensures table { IfOk result (λ given. given.0.table.now ≡ table.now) }
    ensures given { IfOk result (λ given. IsGiven rules table.now tree_bytes.now script_bytes.now
        given.0.tree given.0.answers.items given.1.items) }
    ensures refused { IfErr result (λ fault. fault ≢ TightFault.OutOfMemory →
        IsFaultOf rules tree_bytes.now script_bytes.now fault) }
{
    let tree = read_tree(alloc, tree_bytes)?;
    let script = read_requests(alloc, rules, script_bytes)?;
    let wanted = Wanted::of(alloc, tree, table, &script)?;
    Ok((wanted, script.into_requests()))
}

/// Leaves out of requests what none of their answers needs.
pub(crate) fn tighten(wanted: &Wanted<'_>, requests: &mut Vec<Request>) -> Result<(), OutOfMemory>
    ensures { IfOk result (λ _. wanted.now.answers.items
        ≡ answers_to wanted.now.table.now (new_world wanted.now.tree) requests.old.items →
        requests.new.items ≡ tightened wanted.now.table.now wanted.now.tree requests.old.items) }
{
    let asked = asked_in(wanted.table, requests.as_slice());
    let trials = trials_of(
        wanted.alloc,
        asked,
        requests.as_slice(),
        wanted.answers.as_slice(),
    )?;
    try_all(wanted, trials.as_slice(), requests)
}

/// The tree of a listing.
fn read_tree(alloc: Global, bytes: &[u8]) -> Result<SlabTree, TightFault>
    ensures read { IfOk result (λ tree. listing bytes.now ≡ Ok tree) }
    ensures refused { IfErr result (λ fault. fault ≢ TightFault.OutOfMemory →
        (as_listing (listing bytes.now) ≡ Err fault)) }
{
    match read_listing_slab(alloc, bytes) {
        Ok(tree) => Ok(tree),
        Err(ListingFault::OutOfMemory) => Err(TightFault::OutOfMemory),
        Err(fault) => Err(TightFault::Listing(fault)),
    }
}

/// The requests of a script that is read by these rules.
fn read_requests(alloc: Global, rules: Rules, bytes: &[u8]) -> Result<Script, TightFault>
    ensures read { IfOk result (λ script. script_by rules bytes.now ≡ Ok script) }
    ensures refused { IfErr result (λ fault. fault ≢ TightFault.OutOfMemory →
        (as_script (script_by rules bytes.now) ≡ Err fault)) }
{
    match read_script_by(alloc, rules, bytes) {
        Ok(script) => Ok(script),
        Err(ScriptFault::OutOfMemory) => Err(TightFault::OutOfMemory),
        Err(fault) => Err(TightFault::Script(fault)),
    }
}
