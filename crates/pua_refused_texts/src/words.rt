//! Wrong bodies of `pua_words`.

use pua_words::{Processes, Stop, Text, UsageLine, read_words};
use std::alloc::Global;

/// No process has the number 0.
fn process_0_taken(alloc: Global, words: &[&str]) {
    let Ok(command) = read_words(alloc, words) else {
        return;
    };
    if let Text::List(words) = &command.text
        && let Processes::One(0) = words.whose
    {
        unreachable!()
    }
}

/// Nor has one of several that are named.
fn process_0_among_several(alloc: Global, words: &[&str]) {
    let Ok(command) = read_words(alloc, words) else {
        return;
    };
    if let Text::List(words) = &command.text
        && let Processes::Named(numbers) = &words.whose
        && let Some(0) = numbers.last()
    {
        unreachable!()
    }
}

/// Nor does one help that has it.
fn process_0_helping(alloc: Global, words: &[&str]) {
    let Ok(command) = read_words(alloc, words) else {
        return;
    };
    if let Text::List(words) = &command.text
        && let Some(Processes::One(0)) = &words.beside
    {
        unreachable!()
    }
}

/// A list of objects has a line of its own.
fn program_line_for_objects(alloc: Global) {
    if let Err(Stop::Usage(UsageLine::Program)) = read_words(alloc, &["objects"]) {
        unreachable!()
    }
}

/// Audits have the line of the program.
fn objects_line_for_audits(alloc: Global) {
    if let Err(Stop::Usage(UsageLine::Objects)) = read_words(alloc, &["audit", "objects"]) {
        unreachable!()
    }
}

/// Runs have the line of the program.
fn objects_line_for_runs() {
    if let UsageLine::Objects = UsageLine::of(&["run"]) {
        unreachable!()
    }
}

/// To ask why has a line of its own.
fn program_line_for_why(alloc: Global) {
    if let Err(Stop::Usage(UsageLine::Program)) = read_words(alloc, &["why"]) {
        unreachable!()
    }
}

/// A list of objects doesn't have the line of that.
fn why_line_for_objects() {
    if let UsageLine::Why = UsageLine::of(&["objects"]) {
        unreachable!()
    }
}

/// To ask for a script with fewer rights has a line of its own.
fn program_line_for_tight(alloc: Global) {
    if let Err(Stop::Usage(UsageLine::Program)) = read_words(alloc, &["tight"]) {
        unreachable!()
    }
}

/// To ask for a way has a line of its own.
fn program_line_for_how(alloc: Global) {
    if let Err(Stop::Usage(UsageLine::Program)) = read_words(alloc, &["how"]) {
        unreachable!()
    }
}

/// No process has the number 0, nor one of which a way is asked for.
fn process_0_has_a_way(alloc: Global, words: &[&str]) {
    let Ok(command) = read_words(alloc, words) else {
        return;
    };
    if let Text::How(words) = command.text
        && words.process == 0
    {
        unreachable!()
    }
}

/// No words have the line of the program.
fn objects_line_for_no_words(alloc: Global) {
    if let Err(Stop::Usage(UsageLine::Objects)) = read_words(alloc, &[]) {
        unreachable!()
    }
}

/// A text about the program has some bytes.
fn empty_text_shown(alloc: Global, words: &[&str]) {
    let Err(Stop::Display(text)) = read_words(alloc, words) else {
        return;
    };
    if text.is_empty() {
        unreachable!()
    }
}

/// Words that ask for no text about the program bring none.
fn text_shown_for_a_run(alloc: Global) {
    if let Err(Stop::Display(_)) = read_words(alloc, &["run", "T", "S"]) {
        unreachable!()
    }
}

/// The line of the program shows no list of objects.
fn lines_exchanged() {
    if UsageLine::Program.text() == UsageLine::Objects.text() {
        unreachable!()
    }
}
