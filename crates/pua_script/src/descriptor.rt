//! Lines about descriptors and the root, which there are by OpenBSD's rules alone.

ghost use Rattle.std.specs.Prelude.{◌≡◌, IfSome, IsTrue, Some};
ghost use Rattle.pua_script.specs.Added.{IsActionAdded};
ghost use Rattle.pua_script.specs.Requests.{is_descriptor, is_open};
ghost use Rattle.pua_script.specs.Requests.{letters_opened};
ghost use Rattle.pua_script.specs.Scripts.{ChrootForm, action_by, descriptor_in, file_form, files_form};
ghost use Rattle.pua_script.specs.Scripts.{hold_form, if_openbsd, open_named, take_form};
ghost use Rattle.pua_script.specs.Scripts.{number_in};

use crate::fault::ScriptFault;
use crate::limits::{MOST_DESCRIPTOR, MOST_NUMBER};
use crate::line::read_path;
use crate::origin::Origin;
use crate::request::{Action, Request};
use pua_calls::{Call, Perms, Rules};
use pua_tree::number_within;
use std::alloc::Global;

/// A line about a descriptor or the root that has one argument.
pub(crate) fn read_one_file(
    alloc: Global,
    rules: Rules,
    requests: &mut Vec<Request>,
    origin: Origin,
    word: &[u8],
    a: &[u8],
) -> Result<(), ScriptFault>
    ensures { IsActionAdded
        (action_by origin.line (if_openbsd rules (file_form word.now a.now)))
        origin.process requests.old.items requests.new.items result }
{
    match rules {
        Rules::Standard => Err(ScriptFault::BadCall(origin.line)),
        Rules::Openbsd => read_one(alloc, requests, origin, word, a),
    }
}

/// A close or an fchdir: the number of a descriptor. A chroot: a path.
fn read_one(
    alloc: Global,
    requests: &mut Vec<Request>,
    origin: Origin,
    word: &[u8],
    a: &[u8],
) -> Result<(), ScriptFault>
    ensures { IsActionAdded
        (action_by origin.line (file_form word.now a.now))
        origin.process requests.old.items requests.new.items result }
{
    let bad = ScriptFault::BadCall(origin.line);
    if word == b"close".as_slice() {
        match read_descriptor(a) {
            Some(number) => Request::add(requests, origin, Action::Close(number)),
            None => Err(bad),
        }
    } else if word == b"fchdir".as_slice() {
        match read_descriptor(a) {
            Some(number) => Request::add(requests, origin, Action::Fchdir(number)),
            None => Err(bad),
        }
    } else if word == b"chroot".as_slice() {
        read_chroot(alloc, requests, origin, a)
    } else {
        Err(bad)
    }
}

/// A chroot: the path of the new root.
fn read_chroot(
    alloc: Global,
    requests: &mut Vec<Request>,
    origin: Origin,
    path: &[u8],
) -> Result<(), ScriptFault>
    ensures { IsActionAdded
        (action_by origin.line (Some (ChrootForm path.now)))
        origin.process requests.old.items requests.new.items result }
{
    let path = read_path(alloc, origin.line, path)?;
    Request::add(requests, origin, Action::Chroot(path))
}

/// A line about a descriptor that has three arguments.
pub(crate) fn read_three(
    alloc: Global,
    requests: &mut Vec<Request>,
    origin: Origin,
    word: &[u8],
    a: &[u8],
    b: &[u8],
    c: &[u8],
) -> Result<(), ScriptFault>
    ensures { IsActionAdded
        (action_by origin.line (files_form word.now a.now b.now c.now))
        origin.process requests.old.items requests.new.items result }
{
    if word == b"hold".as_slice() {
        read_hold(alloc, requests, origin, a, b, c)
    } else if word == b"take".as_slice() {
        read_take(requests, origin, a, b, c)
    } else {
        Err(ScriptFault::BadCall(origin.line))
    }
}

/// A hold: the number of a descriptor, a call that opens, and its path.
fn read_hold(
    alloc: Global,
    requests: &mut Vec<Request>,
    origin: Origin,
    number: &[u8],
    call: &[u8],
    path: &[u8],
) -> Result<(), ScriptFault>
    ensures { IsActionAdded
        (action_by origin.line
        (hold_form (descriptor_in number.now) (open_named call.now) path.now))
        origin.process requests.old.items requests.new.items result }
{
    match (read_descriptor(number), read_open(call)) {
        (Some(number), Some(call)) => {
            let path = read_path(alloc, origin.line, path)?;
            Request::add(requests, origin, Action::Hold { number, call, path })
        }
        _ => Err(ScriptFault::BadCall(origin.line)),
    }
}

/// A take: the number of a descriptor, another process, and the number of one of its descriptors.
fn read_take(
    requests: &mut Vec<Request>,
    origin: Origin,
    number: &[u8],
    from: &[u8],
    theirs: &[u8],
) -> Result<(), ScriptFault>
    ensures { IsActionAdded
        (action_by origin.line
        (take_form (descriptor_in number.now) (number_in from.now) (descriptor_in theirs.now)))
        origin.process requests.old.items requests.new.items result }
{
    let from = number_within(1, MOST_NUMBER, from);
    match (read_descriptor(number), from, read_descriptor(theirs)) {
        (Some(number), Some(from), Some(theirs)) => {
            let action = Action::Take {
                number,
                from,
                theirs,
            };
            Request::add(requests, origin, action)
        }
        _ => Err(ScriptFault::BadCall(origin.line)),
    }
}

/// The number of a descriptor.
pub fn read_descriptor(field: &[u8]) -> Option<u32>
    ensures exact { result ≡ descriptor_in field.now }
    ensures bounded { IfSome result (λ number. IsTrue (is_descriptor number)) }
{
    number_within(0, MOST_DESCRIPTOR, field)
}

/// A call that opens what its path names, and makes nothing.
pub fn read_open(word: &[u8]) -> Option<Call>
    ensures exact { result ≡ open_named word.now }
    ensures opens { IfSome result (λ call. IsTrue (is_open call)) }
{
    let call = Call::read_by(Rules::Openbsd, word)?;
    letters_opened(call)?;
    Some(call)
}

/// The letters for which a call opens what its path names, if it is one of those that open and make
/// nothing.
pub fn letters_opened(call: Call) -> Option<Perms>
    ensures { result ≡ letters_opened call }
{
    match call {
        Call::OpenRead => Some(Perms::READ),
        Call::OpenWrite => Some(Perms::WRITE),
        Call::OpenBoth => Some(Perms::READ.union(Perms::WRITE)),
        _ => None,
    }
}
