//! What is wrong with a line of a script.

ghost use Rattle.std.specs.Prelude.{◌≡◌, ◌∷◌, [], ◌-◌, IfOk, Some, map, option_map, slice_get};
ghost use Rattle.std.specs.Option.{option_or};
ghost use Rattle.pua_tree.specs.Spelling.{is_field};
ghost use Rattle.pua_advice.specs.Advice.{action_advice, advice_of, advice_seen, alone_advice};
ghost use Rattle.pua_advice.specs.Advice.{arguments_advice, descriptor_advice, opening_advice};
ghost use Rattle.pua_advice.specs.Advice.{three_advice};
ghost use Rattle.pua_advice.specs.Advice.{field_advice, fields_advice, form_advice, is_visible};
ghost use Rattle.pua_advice.specs.Advice.{line_at, list_advice, misuse, number_advice, one_advice};
ghost use Rattle.pua_advice.specs.Advice.{path_advice, script_advice, text_advice, two_advice};
ghost use Rattle.pua_advice.specs.Advice.{unveil_advice};

use crate::advice::Advice;
use crate::arguments::Arguments;
use crate::promises::of_promises;
use bstr::ByteSlice;
use pua_calls::Rules;
use pua_script::{
    MOST_NUMBER, ScriptFault, has_empty_word, is_blank, is_dash, is_equals, read_descriptor,
    read_open, text_in,
};
use pua_tree::{Fields, OutOfMemory, number_within, unspelled};
use std::alloc::Global;

/// What to say of the line of a script that is to blame for this fault, if a line is. The script
/// is read by these rules, and of it only that line is looked at. The only error is that a growth
/// was refused.
pub fn advise_script<'a>(
    alloc: Global,
    rules: Rules,
    script: &'a [u8],
    fault: ScriptFault,
) -> Result<Option<Advice<'a>>, OutOfMemory>
    ensures { IfOk result (λ advice.
        option_map advice_seen advice ≡ script_advice rules script.now fault) }
{
    let (Some(number), _) = fault.told() else {
        return Ok(None);
    };
    match line_at(script, number) {
        Some(line) => advise(alloc, rules, line),
        None => Ok(None),
    }
}

/// The line of a script with this number, which counts from 1, without its end.
pub fn line_at(script: &[u8], number: u32) -> Option<&[u8]>
    ensures { option_map (λ line. line.now) result ≡ line_at script.now number }
{
    let mut left = number.saturating_sub(1);
    for line in script.lines() {
        if left == 0 {
            return Some(line);
        }
        left -= 1;
    }
    None
}

/// What to say of a line of a script, which is read by these rules: of the first thing in it that
/// is wrong, and None where it asks for something. The only error is that a growth was refused.
pub fn advise<'a>(
    alloc: Global,
    rules: Rules,
    line: &'a [u8],
) -> Result<Option<Advice<'a>>, OutOfMemory>
    ensures { IfOk result (λ advice. option_map advice_seen advice ≡ advice_of rules line.now) }
{
    let text = text_in(rules, line);
    if is_blank(rules, text) {
        return Ok(None);
    }
    of_text(alloc, rules, text)
}

/// What to say of what a line says before its comment.
fn of_text<'a>(
    alloc: Global,
    rules: Rules,
    text: &'a [u8],
) -> Result<Option<Advice<'a>>, OutOfMemory>
    ensures { IfOk result (λ advice. option_map advice_seen advice ≡ text_advice rules text.now) }
{
    match Fields::read(text) {
        None => Ok(of_form(text)),
        Some(fields) => of_fields(alloc, rules, fields.as_slice()),
    }
}

/// What makes a line no fields, None where it is some.
fn of_form(line: &[u8]) -> Option<Advice<'_>>
    ensures { option_map advice_seen result ≡ form_advice line.now }
{
    if line.is_empty() {
        return Some(Advice::EmptyLine);
    }
    let field = line
        .split(|byte| *byte == b' ')
        .find(|field| !is_field(field))?;
    of_field(field)
}

/// What makes bytes no field, None where they are one.
fn of_field(field: &[u8]) -> Option<Advice<'_>>
    ensures { option_map advice_seen result ≡ field_advice field.now }
{
    if field.is_empty() {
        return Some(Advice::ExtraBlank);
    }
    let byte = field.iter().find(|byte| !is_visible(**byte))?;
    Some(Advice::HiddenByte(*byte))
}

/// Whether bytes are a field: there is one, and each is visible ASCII.
fn is_field(field: &[u8]) -> bool
    ensures { result ≡ is_field field.now }
{
    !field.is_empty() && field.iter().all(|byte| is_visible(*byte))
}

fn is_visible(byte: u8) -> bool
    ensures { result ≡ is_visible byte }
{
    matches!(byte, b'!'..=b'~')
}

/// What to say of the fields of a line.
fn of_fields<'a>(
    alloc: Global,
    rules: Rules,
    fields: &[&'a [u8]],
) -> Result<Option<Advice<'a>>, OutOfMemory>
    ensures { IfOk result (λ advice. option_map advice_seen advice
        ≡ fields_advice rules (map (λ field. field.now) fields.now)) }
{
    let Some((process, more)) = fields.split_first() else {
        return Ok(Some(Advice::EmptyLine));
    };
    match of_number(process) {
        Some(advice) => Ok(Some(advice)),
        None => of_action(alloc, rules, more),
    }
}

/// What makes a field no number of a process.
fn of_number(field: &[u8]) -> Option<Advice<'_>>
    ensures { option_map advice_seen result ≡ number_advice field.now }
{
    match number_within(1, MOST_NUMBER, field) {
        Some(_) => None,
        None => Some(Advice::NoNumber(field)),
    }
}

/// What to say of the fields after the process's number.
fn of_action<'a>(
    alloc: Global,
    rules: Rules,
    fields: &[&'a [u8]],
) -> Result<Option<Advice<'a>>, OutOfMemory>
    ensures { IfOk result (λ advice. option_map advice_seen advice
        ≡ action_advice rules (map (λ field. field.now) fields.now)) }
{
    match fields.split_first() {
        None => Ok(Some(Advice::NoCall)),
        Some((word, arguments)) => {
            of_arguments(alloc, word, Arguments::of(rules, word), arguments)
        }
    }
}

/// Of a call that takes this, with these arguments.
fn of_arguments<'a>(
    alloc: Global,
    word: &'a [u8],
    what: Option<Arguments>,
    arguments: &[&'a [u8]],
) -> Result<Option<Advice<'a>>, OutOfMemory>
    ensures { IfOk result (λ advice. option_map advice_seen advice
        ≡ arguments_advice word.now what (map (λ field. field.now) arguments.now)) }
{
    match arguments {
        [] => Ok(of_alone(word, what)),
        [a] => of_one(alloc, word, what, a),
        [a, b] => of_two(alloc, word, what, a, b),
        [a, b, c] => of_three(alloc, word, what, a, b, c),
        _ => Ok(Some(misused(word, what))),
    }
}

/// Of a call that takes this, and has other arguments; or of none.
fn misused(word: &[u8], what: Option<Arguments>) -> Advice<'_>
    ensures { Some (advice_seen result) ≡ misuse word.now what }
{
    match what {
        Some(what) => Advice::Takes(word, what),
        None => Advice::UnknownCall(word),
    }
}

/// Of a call that takes this, without arguments.
fn of_alone(word: &[u8], what: Option<Arguments>) -> Option<Advice<'_>>
    ensures { option_map advice_seen result ≡ alone_advice word.now what }
{
    match what {
        Some(Arguments::Nothing) => None,
        _ => Some(misused(word, what)),
    }
}

/// Of a call that takes this, with one argument.
fn of_one<'a>(
    alloc: Global,
    word: &'a [u8],
    what: Option<Arguments>,
    a: &'a [u8],
) -> Result<Option<Advice<'a>>, OutOfMemory>
    ensures { IfOk result (λ advice. option_map advice_seen advice
        ≡ one_advice word.now what a.now) }
{
    match what {
        Some(Arguments::Number) => Ok(of_number(a)),
        Some(Arguments::Path) => of_path(alloc, a),
        Some(Arguments::AnyPromises) => of_promises(alloc, word, a),
        Some(Arguments::Descriptor) => Ok(of_descriptor(a)),
        _ => Ok(Some(misused(word, what))),
    }
}

/// Of a call that takes this, with two arguments.
fn of_two<'a>(
    alloc: Global,
    word: &'a [u8],
    what: Option<Arguments>,
    a: &'a [u8],
    b: &'a [u8],
) -> Result<Option<Advice<'a>>, OutOfMemory>
    ensures { IfOk result (λ advice. option_map advice_seen advice
        ≡ two_advice word.now what a.now b.now) }
{
    match what {
        Some(Arguments::TargetAndPath) => of_paths(alloc, a, b),
        Some(Arguments::TwoPaths) => of_paths(alloc, a, b),
        Some(Arguments::Promises) => Ok(of_list(a).or(of_list(b))),
        Some(Arguments::PathAndLetters) => of_unveil(alloc, word, a, b),
        _ => Ok(Some(misused(word, what))),
    }
}

/// Of a call that takes this, with three arguments.
fn of_three<'a>(
    alloc: Global,
    word: &'a [u8],
    what: Option<Arguments>,
    a: &'a [u8],
    b: &'a [u8],
    c: &'a [u8],
) -> Result<Option<Advice<'a>>, OutOfMemory>
    ensures { IfOk result (λ advice. option_map advice_seen advice
        ≡ three_advice word.now what a.now b.now c.now) }
{
    match what {
        Some(Arguments::ToHold) => {
            match of_descriptor(a).or(of_opening(b)) {
                Some(advice) => Ok(Some(advice)),
                None => of_path(alloc, c),
            }
        }
        Some(Arguments::ToTake) => Ok(of_descriptor(a).or(of_number(b)).or(of_descriptor(c))),
        _ => Ok(Some(misused(word, what))),
    }
}

/// What makes a field no number of a descriptor.
fn of_descriptor(field: &[u8]) -> Option<Advice<'_>>
    ensures { option_map advice_seen result ≡ descriptor_advice field.now }
{
    match read_descriptor(field) {
        Some(_) => None,
        None => Some(Advice::NoDescriptor(field)),
    }
}

/// What makes a field no call that opens what there is.
fn of_opening(field: &[u8]) -> Option<Advice<'_>>
    ensures { option_map advice_seen result ≡ opening_advice field.now }
{
    match read_open(field) {
        Some(_) => None,
        None => Some(Advice::NoOpening(field)),
    }
}

/// What makes one of two fields no path, the first first.
fn of_paths<'a>(
    alloc: Global,
    first: &'a [u8],
    second: &'a [u8],
) -> Result<Option<Advice<'a>>, OutOfMemory>
    ensures { IfOk result (λ advice. option_map advice_seen advice
        ≡ option_or (path_advice first.now) (path_advice second.now)) }
{
    match of_path(alloc, first)? {
        Some(advice) => Ok(Some(advice)),
        None => of_path(alloc, second),
    }
}

/// What makes a field no path.
fn of_path(alloc: Global, field: &[u8]) -> Result<Option<Advice<'_>>, OutOfMemory>
    ensures { IfOk result (λ advice. option_map advice_seen advice ≡ path_advice field.now) }
{
    if is_equals(field) {
        return Ok(None);
    }
    match unspelled(alloc, field)? {
        None => Ok(Some(Advice::NoPath(field))),
        Some(bytes) if bytes.contains(&0) => Ok(Some(Advice::HasNul(field))),
        Some(_) => Ok(None),
    }
}

/// What makes a field no list of promises.
fn of_list(field: &[u8]) -> Option<Advice<'_>>
    ensures { option_map advice_seen result ≡ list_advice field.now }
{
    if is_dash(field) || is_equals(field) {
        None
    } else if has_empty_word(field) {
        Some(Advice::EmptyPromise(field))
    } else {
        None
    }
}

/// Of an unveil, which has two NULLs or none.
fn of_unveil<'a>(
    alloc: Global,
    word: &'a [u8],
    path: &'a [u8],
    letters: &'a [u8],
) -> Result<Option<Advice<'a>>, OutOfMemory>
    ensures { IfOk result (λ advice. option_map advice_seen advice
        ≡ unveil_advice word.now path.now letters.now) }
{
    let other = Advice::Takes(word, Arguments::PathAndLetters);
    if is_dash(path) {
        return Ok(if is_dash(letters) { None } else { Some(other) });
    }
    match of_path(alloc, path)? {
        Some(advice) => Ok(Some(advice)),
        None => Ok(if is_dash(letters) { Some(other) } else { None }),
    }
}
