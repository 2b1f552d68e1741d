//! Covers as bits, and what a process can do under each of them.

ghost use Rattle.std.specs.Prelude.{◌≡◌, ◌<◌, ◌≤◌, ◌==◌, ◌&&◌, ◌||◌, ℕ, if◌then◌else◌, IfOk};
ghost use Rattle.std.specs.Int.{bit_at};
ghost use Rattle.std.specs.List.{list_any};
ghost use Rattle.pua_calls.specs.CallSets.{has as has_call};
ghost use Rattle.pua_calls.specs.declared.call.Call.TheVariants.{OpenRead};
ghost use Rattle.pua_ever.specs.Ever.{turning_calls};
ghost use Rattle.pua_jointly.specs.JointCovers.{AreCallsByCover, AreCallsUnder, calls_on, cover_of};
ghost use Rattle.pua_jointly.specs.JointCovers.{does};
ghost use Rattle.pua_jointly.specs.JointWords.{AreCovers};
ghost use Rattle.pua_tree.specs.Tree.{empty_tree};
ghost use Rattle.pua_calls.specs.declared.call.Call.{Call as AnyCall};
ghost use Rattle.pua_policy.specs.Objects.{object_seen};
ghost use Rattle.pua_policy.specs.Verdict.{Object as Judged, covered_verdict, is_allowed};
ghost use Rattle.pua_jointly.specs.Jointly.{may_take as takes};

use crate::rounds::flag;
use crate::words::has;
use pua_calls::{Call, CallTable, Calls, Perms};
use pua_ever::{Made, can_link, can_move, can_turn, may_any};
use pua_policy::{Cover, Object, Process, judge};
use pua_tree::{FileType, Kind};
use std::alloc::{AllocError, Global};

/// How many covers there are: everything, nothing, and the permissions of a veil.
pub(crate) const COUNT: u32 = 18;

/// What a process does that asks for a cover.
#[derive(Clone, Copy)]
pub(crate) enum Doing {
    /// It moves something.
    Moving,
    /// It moves what is of this kind, or gives it a further name.
    Carrying(Kind),
    /// It makes such a thing.
    Making(Made),
    /// It makes a file a program, or opens it where it can send it to another one that does.
    Turning(bool),
}

impl Doing {
    /// Whether a process can do it under a cover.
    fn is_done(self, process: &Process, table: &CallTable, cover: Cover) -> bool
        ensures { result ≡ does table.now process.now self cover }
    {
        match self {
            Doing::Moving => can_move(process, table, &cover),
            Doing::Carrying(kind) => {
                can_move(process, table, &cover) || can_link(process, table, kind, cover)
            }
            Doing::Making(made) => {
                made.is_made_by(judge::allowed(process, table, cover, Object::Missing))
            }
            Doing::Turning(sends) => {
                turns(
                    sends,
                    judge::allowed(process, table, cover, Object::Node(Kind::File)),
                )
            }
        }
    }
}

/// Whether one of the calls on a file writes it or sets its mode; or opens it, if it can be sent.
fn turns(sends: bool, calls: Calls) -> bool
    ensures { result
        ≡ ((sends && has_call calls OpenRead) || list_any (has_call calls) turning_calls) }
{
    (sends && calls.contains(Call::OpenRead)) || can_turn(calls)
}

/// The calls that are allowed to a process under a cover, by what they are on.
#[derive(Clone, Copy)]
pub(crate) struct Allowed {
    /// On a name where nothing stands.
    missing: Calls,
    /// On a directory that can be removed.
    removable: Calls,
    /// On a directory.
    dir: Calls,
    /// On a file.
    file: Calls,
    /// On a program.
    program: Calls,
    /// On a link.
    link: Calls,
    /// On a plain file.
    plain: Calls,
    /// On a socket.
    socket: Calls,
    /// On a fifo.
    fifo: Calls,
    /// On a device.
    device: Calls,
}

impl Allowed {
    /// Those of a process under a cover.
    fn under(process: &Process, table: &CallTable, cover: &Cover) -> Allowed
        ensures { AreCallsUnder table.now process.now cover.now result }
    {
        Allowed {
            missing: judge::allowed(process, table, *cover, Object::Missing),
            removable: judge::allowed(process, table, *cover, Object::Removable),
            dir: on_kind(process, table, *cover, Kind::Dir),
            file: on_kind(process, table, *cover, Kind::File),
            program: on_kind(process, table, *cover, Kind::Prog),
            link: on_kind(process, table, *cover, Kind::Link),
            plain: on_kind(process, table, *cover, Kind::Known(FileType::Plain)),
            socket: on_kind(process, table, *cover, Kind::Known(FileType::Sock)),
            fifo: on_kind(process, table, *cover, Kind::Known(FileType::Fifo)),
            device: on_kind(process, table, *cover, Kind::Known(FileType::Dev)),
        }
    }

    /// Those on such an object.
    pub(crate) fn on(&self, object: Object) -> Calls
        ensures { result ≡ calls_on self.now object }
    {
        match object {
            Object::Missing => self.missing,
            Object::Removable => self.removable,
            Object::Node(Kind::Dir) => self.dir,
            Object::Node(Kind::File) => self.file,
            Object::Node(Kind::Prog) => self.program,
            Object::Node(Kind::Link) => self.link,
            Object::Node(Kind::Known(FileType::Plain)) => self.plain,
            Object::Node(Kind::Known(FileType::Sock)) => self.socket,
            Object::Node(Kind::Known(FileType::Fifo)) => self.fifo,
            Object::Node(Kind::Known(FileType::Dev)) => self.device,
        }
    }
}

/// The first bit of these covers from one on, or how many covers there are.
pub(crate) fn first_from(covers: u32, bit: u32) -> u32
    ensures more { bit ≤ 18 → bit ≤ result }
    ensures within { result ≤ 18 }
    ensures none { (between : ℕ) → bit ≤ between → between < result →
        bit_at covers between ≡ 0 }
{
    if bit >= COUNT {
        return COUNT;
    }
    let rest = covers >> bit;
    if rest == 0 {
        return COUNT;
    }
    let found = bit + rest.trailing_zeros();
    if found < COUNT { found } else { COUNT }
}

/// The calls that are allowed to a process under a cover on what is of this kind.
fn on_kind(process: &Process, table: &CallTable, cover: Cover, kind: Kind) -> Calls
    ensures { (judged : Judged) → Object.Node kind ≡ object_seen empty_tree judged →
        (call : AnyCall) → has_call result call ≡ is_allowed
        (covered_verdict empty_tree table.now process.now call cover judged) }
{
    judge::allowed(process, table, cover, Object::Node(kind))
}

/// The covers under which a process can do something.
pub(crate) fn covers_for(process: &Process, table: &CallTable, doing: Doing) -> u32
    ensures { AreCovers result (does table.now process.now doing) }
{
    let mut word = 0;
    for bit in 0..COUNT {
        word |= flag(doing.is_done(process, table, cover_at(bit)), bit);
    }
    word
}

/// The calls that are allowed to a process under each cover, by its bit. The only error is that a
/// growth was refused.
pub(crate) fn calls_by_cover(
    alloc: Global,
    process: &Process,
    table: &CallTable,
) -> Result<Vec<Allowed>, AllocError>
    ensures { IfOk result (λ calls. AreCallsByCover table.now process.now calls.items) }
{
    let mut calls = Vec::new(alloc);
    for bit in 0..COUNT {
        calls.push(Allowed::under(process, table, &cover_at(bit)))?;
    }
    Ok(calls)
}

/// The cover of a bit.
pub(crate) fn cover_at(bit: u32) -> Cover
    requires { bit < 18 }
    ensures { result ≡ cover_of bit }
{
    match bit {
        0 => Cover::All,
        1 => Cover::Nothing,
        bit => Cover::Only(perms_at(bit - 2)),
    }
}

/// The permissions of a number.
fn perms_at(number: u32) -> Perms
    requires { number < 16 }
    ensures { result ≡ number }
{
    let reading = letter_at(number, 0, Perms::READ);
    let writing = letter_at(number, 1, Perms::WRITE);
    let executing = letter_at(number, 2, Perms::EXEC);
    let creating = letter_at(number, 3, Perms::CREATE);
    reading.union(writing).union(executing.union(creating))
}

/// A letter, if the number has this bit.
fn letter_at(number: u32, bit: u32, letter: Perms) -> Perms
    requires { bit < 32 }
    ensures { result ≡ (if bit_at number bit == 1 then letter else 0) }
{
    if has(number, bit) {
        letter
    } else {
        Perms::NONE
    }
}

/// Whether a process may take a name away.
pub(crate) fn may_take(process: &Process, table: &CallTable) -> bool
    ensures { result ≡ takes table.now process.now }
{
    may_any(process, table.rename().new_name().alternatives())
        || may_any(process, table.alternatives(Call::Rmdir))
        || may_any(process, table.alternatives(Call::Unlink))
}
