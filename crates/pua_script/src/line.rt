//! One line of a script.

ghost use Rattle.std.specs.Prelude.{◌≡◌, ◌∷◌, [], codes, map, not, ok_or};
ghost use Rattle.pua_tree.specs.Listing.{only_if};
ghost use Rattle.pua_tree.specs.Names.{same_bytes};
ghost use Rattle.pua_calls.specs.Neighbours.{call_asked_by};
ghost use Rattle.pua_script.specs.Added.{IsActionAdded, IsRequestAdded};
ghost use Rattle.pua_script.specs.Requests.{is_symlink};
ghost use Rattle.pua_script.specs.Scripts.{IsReadAs};
ghost use Rattle.pua_script.specs.Scripts.{is_dash, is_equals, has_empty_word, path_in};
ghost use Rattle.pua_script.specs.Scripts.{given_in, perms_in, unveil_of, with_paths, action_in};
ghost use Rattle.pua_script.specs.Scripts.{action_of, request_by, request_of, request_of_fields};
ghost use Rattle.pua_script.specs.Scripts.{request_of_text};
ghost use Rattle.pua_script.specs.Scripts.Form.{PledgeForm};
ghost use Rattle.pua_script.specs.declared.request.Action.TheVariants.{Symlink, Rename, Link};
ghost use Rattle.pua_script.specs.declared.fault.ScriptFault.TheVariants.{BadCall, BadList};
ghost use Rattle.pua_script.specs.declared.fault.ScriptFault.TheVariants.{BadPath};

use crate::any_of::{asks_promises, read_any_of};
use crate::comment::{is_blank, text_in};
use crate::descriptor::{read_one_file, read_three};
use crate::fault::ScriptFault;
use crate::limits::MOST_NUMBER;
use crate::origin::Origin;
use crate::request::{Action, Given, PathBytes, Request};
use pua_calls::{Call, Perms, Promises, Rules};
use pua_tree::{Fields, are_plain, number_within, unspelled};
use std::alloc::Global;

/// Reads one line of a script by this project's own rules, as `read_request_by` does.
pub fn read_request(alloc: Global, number: u32, line: &[u8]) -> Result<Request, ScriptFault>
    ensures { IsReadAs (request_of number line.now) result }
{
    read_request_by(alloc, Rules::Standard, number, line)
}

/// Reads one line of a script, whose number is told with a fault, with the calls that there are by
/// these rules. `OutOfMemory` where a growth was refused.
pub fn read_request_by(
    alloc: Global,
    rules: Rules,
    number: u32,
    line: &[u8],
) -> Result<Request, ScriptFault>
    ensures { IsReadAs (request_by rules number line.now) result }
{
    let mut requests = Vec::new(alloc);
    add_request(alloc, rules, &mut requests, number, line)?;
    Ok(requests.pop().unwrap())
}

/// Adds what the line of this number asks for, by OpenBSD's rules a comment where it says nothing.
pub(crate) fn add_request(
    alloc: Global,
    rules: Rules,
    requests: &mut Vec<Request>,
    number: u32,
    line: &[u8],
) -> Result<(), ScriptFault>
    ensures { IsRequestAdded (request_by rules number line.now)
        requests.old.items requests.new.items result }
{
    let text = text_in(rules, line);
    if is_blank(rules, text) {
        return Request::add_comment(requests);
    }
    read_text(alloc, rules, requests, number, text)
}

/// Adds the request of a line's text.
fn read_text(
    alloc: Global,
    rules: Rules,
    requests: &mut Vec<Request>,
    number: u32,
    text: &[u8],
) -> Result<(), ScriptFault>
    ensures { IsRequestAdded (request_of_text rules number text.now)
        requests.old.items requests.new.items result }
{
    let Some(fields) = Fields::read(text) else {
        return Err(ScriptFault::BadLine(number));
    };
    read_fields(alloc, rules, requests, number, fields.as_slice())
}

/// Adds the request of a line's fields.
fn read_fields(
    alloc: Global,
    rules: Rules,
    requests: &mut Vec<Request>,
    number: u32,
    fields: &[&[u8]],
) -> Result<(), ScriptFault>
    ensures { IsRequestAdded (request_of_fields rules number (map (λ field. field.now) fields.now))
        requests.old.items requests.new.items result }
{
    let Some((process, more)) = fields.split_first() else {
        return Err(ScriptFault::BadLine(number));
    };
    let Some(process) = number_within(1, MOST_NUMBER, process) else {
        return Err(ScriptFault::BadLine(number));
    };
    let line = number;
    read_action(alloc, rules, requests, Origin { line, process }, more)
}

/// Adds what the fields after the process's number ask for.
fn read_action(
    alloc: Global,
    rules: Rules,
    requests: &mut Vec<Request>,
    origin: Origin,
    fields: &[&[u8]],
) -> Result<(), ScriptFault>
    ensures { IsActionAdded (action_in rules origin.line (map (λ field. field.now) fields.now))
        origin.process requests.old.items requests.new.items result }
{
    match fields {
        [] => Err(ScriptFault::BadCall(origin.line)),
        [word] => read_alone(rules, requests, origin, word),
        [word, a] => read_one(alloc, rules, requests, origin, word, a),
        [word, a, b] => read_two(alloc, rules, requests, origin, word, a, b),
        [word, a, b, c] => match rules {
            Rules::Standard => Err(ScriptFault::BadCall(origin.line)),
            Rules::Openbsd => read_three(alloc, requests, origin, word, a, b, c),
        },
        _ => Err(ScriptFault::BadCall(origin.line)),
    }
}

/// A call without arguments.
fn read_alone(
    rules: Rules,
    requests: &mut Vec<Request>,
    origin: Origin,
    word: &[u8],
) -> Result<(), ScriptFault>
    ensures { IsActionAdded (action_in rules origin.line (word.now ∷ [])) origin.process
        requests.old.items requests.new.items result }
{
    match word {
        b"exit" => Request::add(requests, origin, Action::Exit),
        _ => Err(ScriptFault::BadCall(origin.line)),
    }
}

/// A call with one argument.
fn read_one(
    alloc: Global,
    rules: Rules,
    requests: &mut Vec<Request>,
    origin: Origin,
    word: &[u8],
    a: &[u8],
) -> Result<(), ScriptFault>
    ensures { IsActionAdded (action_in rules origin.line (word.now ∷ a.now ∷ [])) origin.process
        requests.old.items requests.new.items result }
{
    if is_fork(word) {
        return match number_within(1, MOST_NUMBER, a) {
            Some(new) => Request::add(requests, origin, Action::Fork(new)),
            None => Err(ScriptFault::BadCall(origin.line)),
        };
    }
    if asks_promises(rules, word) {
        let any = read_any_of(alloc, origin.line, a)?;
        return Request::add(requests, origin, Action::Uses(any));
    }
    match call_on_path(rules, word) {
        Some(call) => {
            let path = read_path(alloc, origin.line, a)?;
            Request::add(requests, origin, Action::OnPath(call, path))
        }
        None => read_one_file(alloc, rules, requests, origin, word, a),
    }
}

/// The call with this name by these rules that is made on a path alone.
fn call_on_path(rules: Rules, word: &[u8]) -> Option<Call>
    ensures { result ≡ only_if (λ call. not (is_symlink call)) (call_asked_by rules word.now) }
{
    match Call::asked_by(rules, word) {
        Some(Call::Symlink) => None,
        call => call,
    }
}

/// A call with two arguments.
fn read_two(
    alloc: Global,
    rules: Rules,
    requests: &mut Vec<Request>,
    origin: Origin,
    word: &[u8],
    a: &[u8],
    b: &[u8],
) -> Result<(), ScriptFault>
    ensures { IsActionAdded (action_in rules origin.line (word.now ∷ a.now ∷ b.now ∷ [])) origin.process
        requests.old.items requests.new.items result }
{
    if word == b"symlink".as_slice() {
        read_symlink(alloc, requests, origin, a, b)
    } else if word == b"rename".as_slice() {
        read_rename(alloc, requests, origin, a, b)
    } else if word == b"link".as_slice() {
        read_link(alloc, requests, origin, a, b)
    } else if word == b"pledge".as_slice() {
        read_pledge(requests, origin, a, b)
    } else if word == b"unveil".as_slice() {
        read_unveil(alloc, requests, origin, a, b)
    } else {
        Err(ScriptFault::BadCall(origin.line))
    }
}

/// A symlink: its target, and then its path.
fn read_symlink(
    alloc: Global,
    requests: &mut Vec<Request>,
    origin: Origin,
    target: &[u8],
    path: &[u8],
) -> Result<(), ScriptFault>
    ensures { IsActionAdded (with_paths origin.line Symlink target.now path.now) origin.process
        requests.old.items requests.new.items result }
{
    let target = read_path(alloc, origin.line, target)?;
    let path = read_path(alloc, origin.line, path)?;
    Request::add(requests, origin, Action::Symlink(target, path))
}

/// A rename: the old path, and then the new one.
fn read_rename(
    alloc: Global,
    requests: &mut Vec<Request>,
    origin: Origin,
    old: &[u8],
    new: &[u8],
) -> Result<(), ScriptFault>
    ensures { IsActionAdded (with_paths origin.line Rename old.now new.now) origin.process
        requests.old.items requests.new.items result }
{
    let old = read_path(alloc, origin.line, old)?;
    let new = read_path(alloc, origin.line, new)?;
    Request::add(requests, origin, Action::Rename(old, new))
}

/// A link: the path of a node, and then that of its further name.
fn read_link(
    alloc: Global,
    requests: &mut Vec<Request>,
    origin: Origin,
    old: &[u8],
    new: &[u8],
) -> Result<(), ScriptFault>
    ensures { IsActionAdded (with_paths origin.line Link old.now new.now) origin.process
        requests.old.items requests.new.items result }
{
    let old = read_path(alloc, origin.line, old)?;
    let new = read_path(alloc, origin.line, new)?;
    Request::add(requests, origin, Action::Link(old, new))
}

/// A pledge: its promises, and then its execpromises.
fn read_pledge(
    requests: &mut Vec<Request>,
    origin: Origin,
    promises: &[u8],
    execpromises: &[u8],
) -> Result<(), ScriptFault>
    ensures { IsActionAdded (action_of origin.line (PledgeForm promises.now execpromises.now))
        origin.process requests.old.items requests.new.items result }
{
    let promises = read_given(origin.line, promises)?;
    let execpromises = read_given(origin.line, execpromises)?;
    Request::add(requests, origin, Action::Pledge(promises, execpromises))
}

/// An unveil, which has two NULLs or none.
fn read_unveil(
    alloc: Global,
    requests: &mut Vec<Request>,
    origin: Origin,
    path: &[u8],
    perms: &[u8],
) -> Result<(), ScriptFault>
    ensures { IsActionAdded (unveil_of origin.line path.now perms.now) origin.process
        requests.old.items requests.new.items result }
{
    if is_dash(path) {
        return if is_dash(perms) {
            Request::add(requests, origin, Action::Lock)
        } else {
            Err(ScriptFault::BadList(origin.line))
        };
    }
    let path = read_path(alloc, origin.line, path)?;
    if is_dash(perms) {
        return Err(ScriptFault::BadList(origin.line));
    }
    Request::add(requests, origin, Action::Unveil(path, read_perms(perms)))
}

/// The bytes of a path or a target; `=` is the empty text. Plain bytes, as most fields have, spell
/// themselves, and none is NUL.
#[tactic(auto, using(crate::proofs::Reading::plain_path))]
pub(crate) fn read_path(alloc: Global, number: u32, field: &[u8]) -> Result<PathBytes, ScriptFault>
    ensures { IsReadAs (ok_or (path_in field.now) (BadPath number)) result }
{
    if is_equals(field) {
        return Ok(PathBytes::new(Vec::new(alloc)));
    }
    if are_plain(field) {
        return PathBytes::copied(alloc, field).map_err(|_| ScriptFault::OutOfMemory);
    }
    match unspelled(alloc, field) {
        Ok(Some(bytes)) if !bytes.contains(&0) => Ok(PathBytes::new(bytes)),
        Ok(_) => Err(ScriptFault::BadPath(number)),
        Err(_refused) => Err(ScriptFault::OutOfMemory),
    }
}

/// An argument of pledge.
fn read_given(number: u32, field: &[u8]) -> Result<Given, ScriptFault>
    ensures { result ≡ ok_or (given_in field.now) (BadList number) }
{
    if is_dash(field) {
        Ok(Given::Null)
    } else if is_equals(field) {
        Ok(Given::Good(Promises::NONE))
    } else if has_empty_word(field) {
        Err(ScriptFault::BadList(number))
    } else {
        match Promises::read(field) {
            Ok(promises) => Ok(Given::Good(promises)),
            Err(_unknown) => Ok(Given::Unknown),
        }
    }
}

/// Letters of permissions, and None where one is unknown.
fn read_perms(field: &[u8]) -> Option<Perms>
    ensures { result ≡ perms_in field.now }
{
    if is_equals(field) {
        Some(Perms::NONE)
    } else {
        Perms::read(field).ok()
    }
}

/// Whether a list of keywords has an empty word: a comma stands first, last, or after another.
pub fn has_empty_word(field: &[u8]) -> bool
    ensures { result ≡ has_empty_word field.now }
{
    field
        .split(|byte| *byte == b',')
        .any(|word| word.is_empty())
}

fn is_fork(word: &[u8]) -> bool
    ensures { result ≡ same_bytes word.now (codes "fork") }
{
    matches!(word, b"fork")
}

/// Whether a field is `-`, which is NULL.
pub fn is_dash(field: &[u8]) -> bool
    ensures { result ≡ is_dash field.now }
{
    matches!(field, [b'-'])
}

/// Whether a field is `=`, which is the empty text.
pub fn is_equals(field: &[u8]) -> bool
    ensures { result ≡ is_equals field.now }
{
    matches!(field, [b'='])
}
