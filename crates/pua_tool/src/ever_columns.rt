//! What stands after the calls of a line of a list for ever: the promises on which they rest, and
//! the veils under which its thing can come to stand and that let one of them through.

ghost use Rattle.std.specs.Prelude.{◌≡◌, ◌++◌, ◌∷◌, [], ℕ, List, None, IfOk, OnOk, map};
ghost use Rattle.std.specs.Prelude.{slice_index_or, string_bytes};
ghost use Rattle.std.specs.List.{AllByRecursion, AllZip, list_any};
ghost use Rattle.pua_calls.specs.CallSets.{calls_in, has};
ghost use Rattle.pua_calls.specs.Calls.{rule_of};
ghost use Rattle.pua_calls.specs.Promises.{holds};
ghost use Rattle.pua_calls.specs.TmpTable.{tmp_table};
ghost use Rattle.pua_calls.specs.declared.call.Call.{Call as AnyCall};
ghost use Rattle.pua_policy.specs.States.{ProcessState};
ghost use Rattle.pua_policy.specs.declared.place.Place.{Place as AnyPlace};
ghost use Rattle.pua_ever.specs.Comings.{AreComings, places_under};
ghost use Rattle.pua_ever.specs.EverList.{IsRowOn};
ghost use Rattle.pua_ever.specs.declared.lasting_list.ExecBound.{ExecBound as AnyExecs};
ghost use Rattle.pua_texts.specs.Lines.{with_end};
ghost use Rattle.pua_texts.specs.VeilDates.{veil_dates};
ghost use Rattle.pua_texts.specs.WhyLines.{ServedScript, world_left};
ghost use Rattle.pua_tool.specs.EverColumns.{AreReasons, AreTexts, IsKept, dated_text};
ghost use Rattle.pua_tool.specs.EverWhyTexts.{column_on, given_by, is_told, let_by_one, rests_on};
ghost use Rattle.pua_tool.specs.EverWhyTexts.{told_of, veils_told};

use pua_calls::{Call, CallTable, Calls, Perms, Promises};
use pua_ever::{ComesUnder, Comings, EverRow, ExecBound, Taking, bound, comes_under, find_comings};
use pua_policy::{Place, Process};
use pua_tree::{FileTree, OutOfMemory};
use pua_why::{TreePaths, letters, push_place, push_promises};
use std::alloc::{AllocError, Global};

/// A veil, with its text, the calls that its letters let through, and where things come to stand
/// under it.
#[derive(Drop)]
struct Kept<'p> {
    place: &'p Place,
    lets: Calls,
    taking: Taking,
    text: String,
}

/// What lets calls through: what a process holds, what the programs that it starts hold, and its
/// veils.
#[derive(Drop)]
pub(crate) struct Reasons<'p> {
    held: Promises,
    given: Promises,
    comings: Comings,
    veils: Vec<Kept<'p>>,
}

impl<'p> Reasons<'p> {
    /// What lets the calls of a process through, whose veils are so since these lines, where things
    /// come to stand as who holds what its list rests on can move and make them. The only error is
    /// that a growth was refused.
    pub(crate) fn new<T: FileTree>(
        alloc: Global,
        tree: &T,
        process: &'p Process,
        holder: &Process,
        table: &CallTable,
        execs: ExecBound,
        dates: &[Option<usize>],
    ) -> Result<Reasons<'p>, OutOfMemory>
        ensures { IfOk result (λ reasons. (p : ServedScript) (number : ℕ) →
            T.content tree.now ≡ (world_left p).tree → table.now ≡ tmp_table p.table →
            dates.now ≡ veil_dates p number process.now.veils →
            AreReasons p number process.now holder.now execs reasons) }
    {
        let comings = find_comings(alloc, tree, holder, table)?;
        Ok(Reasons {
            held: process.held(),
            given: given_by(process, table, execs),
            veils: kept_veils(alloc, tree, process, table, &comings, dates)?,
            comings,
        })
    }
}

/// What the programs hold that a process starts, where all of them are bounded; else what it holds.
fn given_by(process: &Process, table: &CallTable, execs: ExecBound) -> Promises
    ensures { result ≡ given_by table.now process.now execs }
{
    match execs {
        ExecBound::Bounded => match bound(process, table) {
            Some(given) => given,
            None => process.held(),
        },
        ExecBound::Never | ExecBound::Open => process.held(),
    }
}

/// The veils of a process, which are so since these lines.
fn kept_veils<'p, T: FileTree>(
    alloc: Global,
    tree: &T,
    process: &'p Process,
    table: &CallTable,
    comings: &Comings,
    dates: &[Option<usize>],
) -> Result<Vec<Kept<'p>>, OutOfMemory>
    ensures { IfOk result (λ kept. (p : ServedScript) (number : ℕ) (holder : ProcessState) →
        T.content tree.now ≡ (world_left p).tree → table.now ≡ tmp_table p.table →
        AreComings (world_left p).tree (tmp_table p.table) holder comings.now →
        dates.now ≡ veil_dates p number process.now.veils →
        AllZip (IsKept p number holder) process.now.veils kept.items) }
{
    let veils = process.veils(alloc)?;
    let mut paths = TreePaths::new(alloc, tree)?;
    kept_each(alloc, &mut paths, veils.as_slice(), table, comings, dates)
}

/// Each of these veils, which are so since these lines.
fn kept_each<'p, T: FileTree>(
    alloc: Global,
    paths: &mut TreePaths<'_, T>,
    veils: &[(&'p Place, &'p Perms)],
    table: &CallTable,
    comings: &Comings,
    dates: &[Option<usize>],
) -> Result<Vec<Kept<'p>>, OutOfMemory>
    ensures { IfOk result (λ kept. (p : ServedScript) (number : ℕ) (holder : ProcessState) →
        paths.old.tree ≡ (world_left p).tree → table.now ≡ tmp_table p.table →
        AreComings (world_left p).tree (tmp_table p.table) holder comings.now →
        dates.now ≡ veil_dates p number (map (λ veil. (veil.0.now, veil.1.now)) veils.now) →
        AllZip (IsKept p number holder) (map (λ veil. (veil.0.now, veil.1.now)) veils.now)
        kept.items) }
{
    let mut kept = Vec::new(alloc);
    for veil in veils {
        let (place, perms) = *veil;
        let line = date_at(dates, kept.len());
        let text = kept_text(alloc, paths, place, *perms, line)?;
        let lets = let_through(table, *perms);
        let taking = comings.taking(alloc, place)?;
        kept.push(Kept {
            place,
            lets,
            taking,
            text,
        })?;
    }
    Ok(kept)
}

/// The line at an index; None after the last.
fn date_at(dates: &[Option<usize>], index: usize) -> Option<usize>
    ensures { result ≡ slice_index_or dates.now index None }
{
    if index < dates.len() {
        return dates[index];
    }
    None
}

/// A blank, where a veil is, its letters, and since which line it has them.
fn kept_text<T: FileTree>(
    alloc: Global,
    paths: &mut TreePaths<'_, T>,
    place: &Place,
    perms: Perms,
    line: Option<usize>,
) -> Result<String, AllocError>
    ensures text { IfOk result (λ text.
        string_bytes text ≡ dated_text paths.old.tree place.now perms line) }
    ensures tree { paths.new.tree ≡ paths.old.tree }
{
    let mut text = String::from_str(alloc, " ")?;
    push_place(&mut text, paths, place)?;
    let letters = letters(perms);
    let line = line.unwrap_or(0);
    write!(text, " {letters} {line}")?;
    Ok(text)
}

/// The calls that letters let through.
fn let_through(table: &CallTable, perms: Perms) -> Calls
    ensures { (call : AnyCall) → has result call ≡ holds perms (rule_of table.now call).perms }
{
    let mut lets = Calls::NONE;
    for call in Call::ALL {
        if perms.contains(table.perms(call)) {
            lets = lets.with(call);
        }
    }
    lets
}

/// The columns of rows, each with the LF at the end of its line. The only error is that a growth
/// was refused.
pub(crate) fn columns_of<T: FileTree>(
    alloc: Global,
    tree: &T,
    holder: &Process,
    table: &CallTable,
    reasons: &Reasons<'_>,
    rows: &[EverRow<'_>],
) -> Result<Vec<String>, OutOfMemory>
    ensures { IfOk result (λ columns. (p : ServedScript) (number : ℕ) (h : ProcessState)
        (execs : AnyExecs) →
        T.content tree.now ≡ (world_left p).tree → table.now ≡ tmp_table p.table →
        AreReasons p number h holder.now execs reasons.now →
        AllByRecursion (IsRowOn (world_left p).tree holder.now) rows.now →
        AreTexts p number h holder.now execs rows.now (map string_bytes columns.items)) }
{
    let mut columns = Vec::with_capacity(alloc, rows.len())?;
    let mut above = Vec::new(alloc);
    for row in rows {
        let under = comes_under(tree, holder, table, &reasons.comings, &mut above, row)?;
        let column = column_of(alloc, table, reasons, row.line.calls, &under)?;
        columns.push(column)?;
    }
    Ok(columns)
}

/// The column of calls on what comes to stand under these veils.
fn column_of(
    alloc: Global,
    table: &CallTable,
    reasons: &Reasons<'_>,
    calls: Calls,
    under: &ComesUnder,
) -> Result<String, AllocError>
    ensures { IfOk result (λ text. (p : ServedScript) (number : ℕ) (h holder : ProcessState)
        (execs : AnyExecs) → table.now ≡ tmp_table p.table →
        AreReasons p number h holder execs reasons.now → string_bytes text
        ≡ with_end (column_on p number h execs
        (places_under (world_left p).tree holder under.now) (calls_in calls))) }
{
    let resting = rests_on(table, reasons.held, reasons.given, calls);
    let mut text = String::from_str(alloc, " ")?;
    push_promises(alloc, &mut text, resting)?;
    push_veils(&mut text, reasons.veils.as_slice(), calls, under)?;
    text.push('\n')?;
    Ok(text)
}

/// Adds the veils that are told, or three dashes where none is.
fn push_veils(
    text: &mut String,
    veils: &[Kept<'_>],
    calls: Calls,
    under: &ComesUnder,
) -> Result<(), AllocError>
    ensures { OnOk result ((p : ServedScript) (number : ℕ) (holder : ProcessState)
        (vs : List (AnyPlace × ℕ)) → AllZip (IsKept p number holder) vs veils.now →
        string_bytes text.new ≡ string_bytes text.old ++ veils_told p number vs
        (places_under (world_left p).tree holder under.now) (calls_in calls)) }
{
    let before = text.len();
    for veil in veils {
        push_told(text, veil, calls, under)?;
    }
    if text.len() > before {
        return Ok(());
    }
    text.push_str(" - - -")
}

/// Adds a veil, if it is told.
fn push_told(
    text: &mut String,
    veil: &Kept<'_>,
    calls: Calls,
    under: &ComesUnder,
) -> Result<(), AllocError>
    ensures { OnOk result ((p : ServedScript) (number : ℕ) (holder : ProcessState)
        (kept : AnyPlace × ℕ) → IsKept p number holder kept veil.now → string_bytes text.new
        ≡ string_bytes text.old ++ told_of p number
        (places_under (world_left p).tree holder under.now) (calls_in calls) (kept ∷ [])) }
{
    if is_told(veil, calls, under) {
        return text.push_str(veil.text.as_str());
    }
    Ok(())
}

/// Whether a veil is told: a thing comes to stand under it, and it lets one of the calls through.
fn is_told(veil: &Kept<'_>, calls: Calls, under: &ComesUnder) -> bool
    ensures { (p : ServedScript) (number : ℕ) (holder : ProcessState) (kept : AnyPlace × ℕ) →
        IsKept p number holder kept veil.now → result ≡ is_told (tmp_table p.table)
        (places_under (world_left p).tree holder under.now) (calls_in calls) kept }
{
    under.has(veil.place, &veil.taking) && has_some(veil.lets, calls)
}

/// Whether one of these calls is among the others.
fn has_some(others: Calls, calls: Calls) -> bool
    ensures { result ≡ list_any (has others) (calls_in calls) }
{
    !others.intersection(calls).is_empty()
}

/// The promises on which calls rest: of each call the first set that is held.
fn rests_on(table: &CallTable, held: Promises, given: Promises, calls: Calls) -> Promises
    ensures { result ≡ rests_on table.now held given (calls_in calls) }
{
    let mut resting = Promises::NONE;
    for call in Call::ALL {
        if calls.contains(call) {
            resting = resting.union(let_by_one(table.alternatives(call), held, given));
        }
    }
    resting
}

/// The first of these sets that one of two holds; none where there is none.
fn let_by_one(sets: &[Promises], held: Promises, given: Promises) -> Promises
    ensures { result ≡ let_by_one held given sets.now }
{
    let first = sets
        .iter()
        .find(|set| held.contains(**set) || given.contains(**set))
        .copied();
    first.unwrap_or(Promises::NONE)
}
