//! Since which lines the veils of processes have their letters, beside the text of a run.

ghost use Rattle.std.specs.Prelude.{◌≡◌, ◌++◌, [], List, Ok, IfOk, OnOk, flat_map, map};
ghost use Rattle.std.specs.Prelude.{string_bytes};
ghost use Rattle.pua_calls.specs.declared.rules.Rules.{Rules};
ghost use Rattle.pua_script.specs.AnswerTexts.{with_end};
ghost use Rattle.pua_script.specs.Requests.{Asked};
ghost use Rattle.pua_script.specs.Scripts.{script_by};
ghost use Rattle.pua_script.specs.Worlds.{run_to, world_of};
ghost use Rattle.pua_why.specs.Texts.{why_lines};
ghost use Rattle.pua_since.specs.Watched.{AreWatched, IsKeptThrough, line_at};
ghost use Rattle.pua_since.specs.Dates.{AreVeilsAt, veil_date, veil_seen, veils_at, with_number};

use crate::reason_lines::{lines_text, watch_lines};
use crate::watch::Question;
use crate::watches::Watches;
use pua_policy::Place;
use pua_script::{Answer, Request, World};
use pua_tree::{FileTree, OutOfMemory};
use std::alloc::Global;

/// The places of the veils of these processes, one process after another, each with its number;
/// none of a number that was never made. The only error is that a growth was refused.
pub fn veils_of<'w, T: FileTree>(
    alloc: Global,
    world: &'w World<T>,
    numbers: &[u32],
) -> Result<Vec<(u32, &'w Place)>, OutOfMemory>
    ensures { IfOk result (λ veils. map veil_seen veils.items
        ≡ flat_map (veils_at world.now) numbers.now) }
{
    let mut all = Vec::new(alloc);
    for number in numbers {
        let Some(process) = world.process(*number) else {
            continue;
        };
        add_veils(*number, process.places(alloc)?.as_slice(), &mut all)?;
    }
    Ok(all)
}

/// Adds places, with the number of their process.
fn add_veils<'w>(
    number: u32,
    places: &[&'w Place],
    all: &mut Vec<(u32, &'w Place)>,
) -> Result<(), OutOfMemory>
    ensures { OnOk result (map veil_seen all.new.items
        ≡ map veil_seen all.old.items
        ++ map (with_number number) places.now) }
{
    for place in places {
        all.push((number, *place))?;
    }
    Ok(())
}

/// The text of [`reason_text`](crate::reason_text), and since which line each of these veils, with
/// the number of its process, has the letters that it has after the script, or has none there: None
/// where that held from the start. The only error is that a growth was refused.
pub fn dated_text<T: FileTree>(
    alloc: Global,
    world: &mut World<T>,
    script_bytes: &[u8],
    requests: &[Request],
    answers: &[Answer],
    veils: &[(u32, &Place)],
) -> Result<(String, Vec<Option<usize>>), OutOfMemory>
    ensures { IfOk result (λ dated. (rules : Rules) →
        script_by rules script_bytes.now ≡ Ok requests.now →
        answers.now ≡ (run_to world.old requests.now).0 →
        (string_bytes dated.0
        ≡ flat_map with_end
        (why_lines world.old.table (world_of world.old) [] 1 requests.now))
        × (dated.1.items ≡ map (veil_date world.old.table (world_of world.old) requests.now)
        (map veil_seen veils.now))) }
{
    let mut watches = Watches::new(alloc, requests, answers)?;
    let own = watch_veils(alloc, world, veils, requests.len(), &mut watches)?;
    let places = watch_lines(alloc, world, script_bytes, requests, answers, &mut watches)?;
    let text = lines_text(
        alloc,
        world,
        requests,
        answers,
        places.as_slice(),
        &mut watches,
    )?;
    Ok((text, lines_at(alloc, &watches, own.as_slice())?))
}

/// Adds a question for each of these veils, whose answers are wanted after so many lines, and
/// answers their places.
fn watch_veils<'a, T: FileTree>(
    alloc: Global,
    world: &World<T>,
    veils: &[(u32, &'a Place)],
    last: usize,
    watches: &mut Watches<'a>,
) -> Result<Vec<usize>, OutOfMemory>
    ensures places { IfOk result (λ places.
        AreVeilsAt watches.new.watches.items last (map veil_seen veils.now) places.items) }
    ensures watched { OnOk result ((left : List Asked) →
        AreWatched world.now.table (world_of world.now) [] left watches.old →
        AreWatched world.now.table (world_of world.now) [] left watches.new) }
    ensures kept { OnOk result (IsKeptThrough watches.old.watches.items
        watches.new.watches.items) }
{
    let mut own = Vec::new(alloc);
    for (number, place) in veils {
        let question = Question::Veil(place);
        let place = watches.add(alloc, world, *number, question, last)?;
        own.push(place)?;
    }
    Ok(own)
}

/// Since which lines the questions at these places have their answers.
pub(crate) fn lines_at(
    alloc: Global,
    watches: &Watches<'_>,
    places: &[usize],
) -> Result<Vec<Option<usize>>, OutOfMemory>
    ensures { IfOk result (λ lines.
        lines.items ≡ map (line_at watches.now.watches.items) places.now) }
{
    let mut lines = Vec::new(alloc);
    for place in places {
        lines.push(watches.line(*place))?;
    }
    Ok(lines)
}
