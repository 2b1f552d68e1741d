//! The heading of a list, and what it says of the state of its process before the veils.

ghost use Rattle.std.specs.Prelude.{◌≡◌, ◌++◌, IfOk, OnOk, string_bytes};
ghost use Rattle.pua_texts.specs.States.{bound_lines, execs_told, heading_line, held_lines};
ghost use Rattle.pua_texts.specs.States.{living_lines, moment_text, opening_set};
ghost use Rattle.pua_texts.specs.States.{openings_told, own_lines, pledged_text, receive_line};
ghost use Rattle.pua_texts.specs.States.{receives_told, rules_line, title_of, unveil_word};
ghost use Rattle.pua_texts.specs.States.{unveiled_line};
ghost use Rattle.pua_texts.specs.Lines.{with_end};

use crate::openings::push_openings;
use pua_calls::{Promises, Rules};
use pua_ever::ExecBound;
use pua_policy::Process;
use pua_why::push_promises;
use std::alloc::{AllocError, Global};
use std::fmt::Write;

/// Of which time a list is.
#[derive(Clone, Copy)]
pub(crate) enum Time {
    /// What is allowed now.
    Now,
    /// What was allowed before the line of a script with this number.
    Before(usize),
    /// What can ever be, and what becomes of the list at an exec.
    Ever(ExecBound),
}

/// What the head of a list says beside the state of its process.
#[derive(Clone, Copy)]
pub(crate) struct Heading {
    pub(crate) time: Time,
    /// Whose rules the table of calls is by, whatever rows a text puts into it.
    pub(crate) rules: Rules,
    /// The number of the process.
    pub(crate) number: u32,
}

/// The heading of a list, and the lines of the state of its process before those of its veils,
/// among them this one of its root. The only error is that a growth was refused.
pub(crate) fn state_text(
    alloc: Global,
    heading: Heading,
    root: &str,
    process: &Process,
) -> Result<String, AllocError>
    ensures { IfOk result (λ text. string_bytes text
        ≡ heading_line heading ++ own_lines heading root.now process.now) }
{
    let mut text = heading_text(alloc, heading)?;
    push_own(alloc, &mut text, heading, root, process)?;
    Ok(text)
}

fn heading_text(alloc: Global, heading: Heading) -> Result<String, AllocError>
    ensures { IfOk result (λ text. string_bytes text ≡ heading_line heading) }
{
    let title = title(heading.time);
    let mut text = String::new(alloc);
    write!(text, "{title} {}", heading.number)?;
    push_moment(&mut text, heading.time)?;
    Ok(text)
}

/// Adds the line before which it was, if it is a list of what was allowed, and the heading's end.
fn push_moment(text: &mut String, time: Time) -> Result<(), AllocError>
    ensures { OnOk result (string_bytes text.new
        ≡ string_bytes text.old ++ with_end (moment_text time)) }
{
    match time {
        Time::Before(line) => writeln!(text, " before {line}"),
        Time::Now | Time::Ever(_) => text.push_str("\n"),
    }
}

fn title(time: Time) -> &'static str
    ensures { result.now ≡ title_of time }
{
    match time {
        Time::Now | Time::Before(_) => "objects",
        Time::Ever(_execs) => "ever",
    }
}

/// Adds the lines of a state before those of the veils: an ended process has one.
fn push_own(
    alloc: Global,
    text: &mut String,
    heading: Heading,
    root: &str,
    process: &Process,
) -> Result<(), AllocError>
    ensures { OnOk result (string_bytes text.new
        ≡ string_bytes text.old ++ own_lines heading root.now process.now) }
{
    if process.ended() {
        return push_line(text, "process ", "ended");
    }
    push_living(alloc, text, heading, root, process)
}

/// Adds the lines of a living process.
fn push_living(
    alloc: Global,
    text: &mut String,
    heading: Heading,
    root: &str,
    process: &Process,
) -> Result<(), AllocError>
    ensures { OnOk result (string_bytes text.new
        ≡ string_bytes text.old ++ living_lines heading root.now process.now) }
{
    push_line(text, "process ", "alive")?;
    push_held(alloc, text, heading.rules, process)?;
    push_bounds(alloc, text, heading.rules, heading.time, root, process)
}

/// Adds by which rules it is, what a process holds, and whether it may put veils. The only error is
/// that a growth was refused.
pub(crate) fn push_held(
    alloc: Global,
    text: &mut String,
    rules: Rules,
    process: &Process,
) -> Result<(), AllocError>
    ensures { OnOk result (string_bytes text.new
        ≡ string_bytes text.old ++ held_lines rules process.now) }
{
    let promises = spelled_promises(alloc, process.promises())?;
    let execpromises = spelled_promises(alloc, process.execpromises())?;
    push_rules(text, rules)?;
    push_line(text, "promises ", promises.as_str())?;
    push_line(text, "execpromises ", execpromises.as_str())?;
    push_line(text, "unveil ", unveil_state(process))
}

/// Adds what becomes of a list for ever at an exec, that files can still be received, this line of
/// a root, what promises open by themselves, and that there is no veil. The only error is that a
/// growth was refused.
pub(crate) fn push_bounds(
    alloc: Global,
    text: &mut String,
    rules: Rules,
    time: Time,
    root: &str,
    process: &Process,
) -> Result<(), AllocError>
    ensures { OnOk result (string_bytes text.new
        ≡ string_bytes text.old ++ bound_lines rules time root.now process.now) }
{
    push_execs(text, time)?;
    push_receives(text, rules, time, process)?;
    text.push_str(root)?;
    push_opened(alloc, text, rules, time, process)?;
    push_unveiled(text, process)
}

/// Adds whose rules they are; the standard ones have no line.
fn push_rules(text: &mut String, rules: Rules) -> Result<(), AllocError>
    ensures { OnOk result (string_bytes text.new ≡ string_bytes text.old ++ rules_line rules) }
{
    if rules.is_told() {
        push_line(text, "rules ", rules.word())
    } else {
        Ok(())
    }
}

/// Adds what becomes of a list for ever at an exec, where one can succeed.
pub(crate) fn push_execs(text: &mut String, time: Time) -> Result<(), AllocError>
    ensures { OnOk result (string_bytes text.new ≡ string_bytes text.old ++ execs_told time) }
{
    match time {
        Time::Now | Time::Before(_) | Time::Ever(ExecBound::Never) => Ok(()),
        Time::Ever(ExecBound::Bounded) => push_line(text, "exec ", "bounded"),
        Time::Ever(ExecBound::Open) => push_line(text, "exec ", "open"),
    }
}

/// Adds to a list for ever that files can still be received, where they can.
pub(crate) fn push_receives(
    text: &mut String,
    rules: Rules,
    time: Time,
    process: &Process,
) -> Result<(), AllocError>
    ensures { OnOk result (string_bytes text.new
        ≡ string_bytes text.old ++ receives_told rules time process.now) }
{
    match time {
        Time::Now | Time::Before(_) => Ok(()),
        Time::Ever(_) => push_receive(text, rules, opening_promises(time, process)),
    }
}

/// Adds that files can still be received, if one of these promises lets them. Scripts by the
/// standard rules know of no open file.
fn push_receive(text: &mut String, rules: Rules, promises: Promises) -> Result<(), AllocError>
    ensures { OnOk result (string_bytes text.new
        ≡ string_bytes text.old ++ receive_line rules promises) }
{
    let receives = rules == Rules::Openbsd && promises.contains(Promises::RECVFD);
    if receives {
        return push_line(text, "receive ", "open");
    }
    Ok(())
}

/// Adds what promises open by themselves, of which the standard rules know nothing.
pub(crate) fn push_opened(
    alloc: Global,
    text: &mut String,
    rules: Rules,
    time: Time,
    process: &Process,
) -> Result<(), AllocError>
    ensures { OnOk result (string_bytes text.new
        ≡ string_bytes text.old ++ openings_told rules time process.now) }
{
    if rules.has_openings() {
        push_openings(alloc, text, opening_promises(time, process))
    } else {
        Ok(())
    }
}

/// The promises by which something is opened: those that were pledged; and at some time each one
/// that can still be, also by what is started, where the list has what that can touch.
fn opening_promises(time: Time, process: &Process) -> Promises
    ensures { result ≡ opening_set time process.now }
{
    match time {
        Time::Now | Time::Before(_) => process.promises().unwrap_or(Promises::NONE),
        Time::Ever(ExecBound::Never | ExecBound::Open) => process.held(),
        Time::Ever(ExecBound::Bounded) => {
            let given = process.execpromises().unwrap_or(Promises::NONE);
            process.held().union(given)
        }
    }
}

/// Adds that there are no veils, where the process keeps none.
pub(crate) fn push_unveiled(text: &mut String, process: &Process) -> Result<(), AllocError>
    ensures { OnOk result (string_bytes text.new
        ≡ string_bytes text.old ++ unveiled_line process.now) }
{
    if process.is_veiled() {
        return Ok(());
    }
    push_line(text, "no ", "veils")
}

/// Adds a line of a label and a value.
pub(crate) fn push_line(text: &mut String, label: &str, value: &str) -> Result<(), AllocError>
    ensures { OnOk result (string_bytes text.new ≡ string_bytes text.old ++ with_end (label.now
        ++ value.now)) }
{
    writeln!(text, "{label}{value}")
}

/// Whether a process may still put veils.
fn unveil_state(process: &Process) -> &'static str
    ensures { result.now ≡ unveil_word process.now }
{
    let held = process.promises().unwrap_or(Promises::ALL_BUT_ERROR);
    if process.locked() {
        "locked"
    } else if held.contains(Promises::UNVEIL) {
        "open"
    } else {
        "given-up"
    }
}

/// Promises as a script has them: keywords with commas between them, `=` for none, and `-` where
/// none were given.
fn spelled_promises(alloc: Global, promises: Option<Promises>) -> Result<String, AllocError>
    ensures { IfOk result (λ text. string_bytes text ≡ pledged_text promises) }
{
    let Some(promises) = promises else {
        return String::from_str(alloc, "-");
    };
    let mut text = String::new(alloc);
    push_promises(alloc, &mut text, promises)?;
    Ok(text)
}
