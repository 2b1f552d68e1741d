//! What is worked out of several processes and a tree before their facts are found.

ghost use Rattle.std.specs.Prelude.{◌≡◌, ◌<◌, ◌+◌, ◌==◌, ◌||◌, ℕ, List, Some, None, map, length};
ghost use Rattle.std.specs.Prelude.{false, get_or, slice_get};
ghost use Rattle.std.specs.Prelude.{IfOk, IfSome, MatchOption, filter};
ghost use Rattle.std.specs.List.{Contains, fold, list_any};
ghost use Rattle.pua_tree.specs.Tree.{device};
ghost use Rattle.pua_policy.specs.States.{ProcessState, perms_kept};
ghost use Rattle.pua_ever.specs.Laws.{dir_of_place};
ghost use Rattle.pua_jointly.specs.Jointly.{can_send, sets_received};
ghost use Rattle.pua_jointly.specs.JointMembers.{Each, SameMembers, states, veil_now};
ghost use Rattle.pua_jointly.specs.JointSetting.{AreMarksOf, IsMarkOf, IsRowIn, is_on};
ghost use Rattle.pua_jointly.specs.JointPlace.{Once};
ghost use Rattle.pua_jointly.specs.JointSetting.{AreDevices, IsShape, IsSize, greater as greater_of};
ghost use Rattle.pua_jointly.specs.JointSides.{IsMoverOf, IsPart, IsPartOn, is_on_device, is_seat_on};
ghost use Rattle.pua_jointly.specs.JointSetting.{mark_spot, row_number, veil_number};
ghost use Rattle.pua_jointly.specs.JointSetup.{IsWorkedOut, crew_told};
ghost use Rattle.pua_jointly.specs.JointTable.{numbers};
ghost use Rattle.pua_jointly.specs.JointWords.{IsAgent, has_named, is_name};

use crate::agent::Agent;
use crate::crew::{Crew, Mark, Side, Watch, entry_at};
use crate::doing::{Doing, calls_by_cover, covers_for, may_take};
use crate::entries::{Entries, Rows, find_entries};
use crate::marks::{mark, no_marks};
use crate::members::{all_veils, distinct, know_perms};
use crate::mover::Mover;
use crate::parts::{HandNumber, Parts, Share};
use crate::shape::Shape;
use crate::size::Size;
use crate::watching::find_watches;
use pua_calls::{Call, CallTable, Perms, Promises};
use pua_ever::{Made, has_c, turned_by};
use pua_policy::{Cover, Place, Process};
use pua_tree::{FileTree, Kind, LentRow, Name, NodeId, OutOfMemory};
use std::alloc::{AllocError, Global};

/// Works out what the facts of several processes are found by: of equal ones there is one. The only
/// error is that a growth was refused, or that the table of facts would have more rows than can be
/// numbered.
pub(crate) fn work_out<'t, T: FileTree>(
    alloc: Global,
    tree: &'t T,
    processes: &[&'t Process],
    table: &CallTable,
) -> Result<Crew<'t>, OutOfMemory>
    ensures worked { IfOk result (λ crew. IsWorkedOut (T.content tree.now) table.now crew) }
    ensures members { IfOk result (λ crew. SameMembers (states processes.now) (crew_told crew)) }
{
    tree.known();
    let members = distinct(alloc, processes)?;
    let veils = all_veils(alloc, &members)?;
    know_perms(&veils);
    let rows = tree.rows(alloc)?;
    let last = last_number(&rows, &veils);
    let devices = devices_to(alloc, tree, last)?;
    let kinds = distinct_devices(alloc, &devices)?;
    let (watches, watch_columns) = find_watches(alloc, tree, &members, last, &veils)?;
    let Some(shape) = shape_of(members.len(), kinds.len(), last) else {
        return Err(OutOfMemory);
    };
    let Some(size) = size_of(shape, rows.len(), watches.len()) else {
        return Err(OutOfMemory);
    };
    let agents = ask_agents(alloc, &members, table, last)?;
    let named = Rows {
        tree,
        rows: &rows,
        first: size.names,
    };
    let entries = find_entries(alloc, &named)?;
    let marks = find_marks(alloc, tree, &entries, &veils)?;
    let seats = all_seats(alloc, size)?;
    let parts = Parts {
        size,
        agents: &agents,
        kinds: &kinds,
        devices: &devices,
        seats: &seats,
        marks: &marks,
        watches: &watches,
    };
    let sides = find_sides(alloc, &parts)?;
    Ok(Crew {
        shape,
        columns: size.columns,
        agents,
        sides,
        devices,
        entries: entries.all,
        watches,
        watch_columns,
    })
}

/// The greatest number of a node in a row, and of a directory in which a row or a veil is.
fn last_number(rows: &[LentRow<'_>], veils: &[(&Place, &Perms)]) -> u32
    ensures { result ≡ fold (λ last veil. greater_of last (veil_number veil))
        (fold (λ last row. greater_of last (row_number row)) 0 rows.now) veils.now }
{
    let of_rows = rows
        .iter()
        .fold(0, |last, row| greater(last, number_in(row)));
    veils
        .iter()
        .fold(of_rows, |last, veil| greater(last, number_of(veil.0)))
}

/// The greater number of a row: its directory's or its node's.
fn number_in(row: &LentRow<'_>) -> u32
    ensures { result ≡ row_number row.now }
{
    greater(row.dir.number(), row.node.number())
}

/// The number of a place's directory.
fn number_of(place: &Place) -> u32
    ensures { result ≡ dir_of_place place.now }
{
    let (Place::Dir(dir) | Place::Slot(dir, _)) = place;
    dir.number()
}

/// The greater of two numbers.
fn greater(one: u32, other: u32) -> u32
    ensures { result ≡ greater_of one other }
{
    if one < other { other } else { one }
}

/// The devices of the directories up to a number. The only error is that a growth was refused.
fn devices_to<T: FileTree>(alloc: Global, tree: &T, last: u32) -> Result<Vec<NodeId>, AllocError>
    ensures { IfOk result (λ devices.
        AreDevices (T.content tree.now) (last + 1) devices.items) }
{
    let mut devices = Vec::new(alloc);
    for number in 0..last as usize + 1 {
        let dir = NodeId::new(number as u32);
        let device = device_by(tree, devices.as_slice(), dir);
        devices.push(device)?;
    }
    Ok(devices)
}

/// The device of a directory, by those of the numbers before: a directory above it mostly has one
/// of these.
fn device_by<T: FileTree>(tree: &T, before: &[NodeId], dir: NodeId) -> NodeId
    ensures { (count : ℕ) → AreDevices (T.content tree.now) count before.now →
        result ≡ device (T.content tree.now) dir }
{
    tree.known();
    let Some(parent) = tree.parent(dir) else {
        return NodeId::ROOT;
    };
    if tree.is_mount(dir) {
        return dir;
    }
    match before.get(parent.number() as usize) {
        Some(device) => *device,
        None => tree.device(dir),
    }
}

/// These devices, each once. The only error is that a growth was refused.
fn distinct_devices(alloc: Global, devices: &[NodeId]) -> Result<Vec<NodeId>, AllocError>
    ensures once { IfOk result (λ kinds. Once kinds.items) }
    ensures all { IfOk result (λ kinds. (device : ℕ) → Contains devices.now device →
        Contains kinds.items device) }
{
    let mut kinds = Vec::new(alloc);
    for device in devices {
        if !is_among(&kinds, *device) {
            kinds.push(*device)?;
        }
    }
    Ok(kinds)
}

/// Whether a device is one of these.
fn is_among(kinds: &[NodeId], device: NodeId) -> bool
    ensures { result ≡ list_any (λ kind. kind == device) kinds.now }
{
    kinds.iter().any(|kind| *kind == device)
}

/// How much the table is of, if all rows can be numbered.
fn shape_of(agents: usize, devices: usize, last: u32) -> Option<Shape>
    ensures { IfSome result (IsShape agents devices last) }
{
    let hands = agents.checked_mul(devices)?;
    Some(Shape {
        agents,
        hands,
        last,
    })
}

/// How many words a row has, and where rows are, if all can be numbered.
fn size_of(shape: Shape, names: usize, watched: usize) -> Option<Size>
    ensures { IfSome result (IsSize shape names watched) }
{
    let columns = shape.agents.checked_add(1)?.checked_add(watched)?;
    let seats = shape.hands.checked_add(shape.last as usize + 1)?;
    let drops = seats.checked_add(shape.hands)?;
    let first = drops.checked_add(shape.hands)?;
    let _names = first.checked_add(names)?;
    Some(Size {
        shape,
        columns,
        seats,
        names: first,
    })
}

/// Whether one of these processes sets the mode of what another one sends it.
fn is_some_setter(members: &[&Process]) -> bool
    ensures { result ≡ list_any (λ process. sets_received process.now) members.now }
{
    members.iter().any(|process| sets_received(process))
}

/// Whether a process does.
fn sets_received(process: &Process) -> bool
    ensures { result ≡ sets_received process.now }
{
    let held = process.held();
    held.contains(Promises::RECVFD) && held.contains(Promises::FATTR)
}

/// Whether a process can send what it has open to one that sets its mode, by a table that has fchmod.
fn can_send(process: &Process, table: &CallTable) -> bool
    ensures { result ≡ can_send table.now process.now }
{
    !table.alternatives(Call::Fchmod).is_empty() && process.held().contains(Promises::SENDFD)
}

/// What is asked of each process, by the greatest number of a directory. The only error is that a
/// growth was refused.
fn ask_agents<'t>(
    alloc: Global,
    processes: &[&'t Process],
    table: &CallTable,
    last: u32,
) -> Result<Vec<Agent<'t>>, OutOfMemory>
    ensures crew { IfOk result (λ agents. map (λ agent. agent.process.now) agents.items
        ≡ states processes.now) }
    ensures each { IfOk result (λ agents. let crew = states processes.now in
        Each (λ i agent. IsAgent table.now crew i agent.process.now agent) agents.items) }
{
    let received = is_some_setter(processes);
    let mut agents = Vec::new(alloc);
    for (place, process) in processes.iter().enumerate() {
        let agent = ask_agent(alloc, process, table, place, last, received)?;
        agents.push(agent)?;
    }
    Ok(agents)
}

/// What is asked of the process at a place, by the greatest number of a directory, and whether one
/// of the crew sets the mode of what it is sent. The only error is that a growth was refused.
fn ask_agent<'t>(
    alloc: Global,
    process: &'t Process,
    table: &CallTable,
    place: usize,
    last: u32,
    received: bool,
) -> Result<Agent<'t>, OutOfMemory>
    ensures is { IfOk result (λ agent. (crew : List ProcessState) →
        list_any sets_received crew ≡ received →
        IsAgent table.now crew place process.now agent) }
    ensures process { IfOk result (λ agent. agent.process.now ≡ process.now) }
{
    let sends = can_send(process, table) && received;
    let sets_modes = process.held().contains(Promises::FATTR) || sends;
    let turned = turned_by(alloc, process, sets_modes)?;
    let named = has_named(alloc, process)?;
    let veiled = veiled_by(alloc, process, last as usize + 1)?;
    let calls = calls_by_cover(alloc, process, table)?;
    Ok(Agent {
        process,
        veiled,
        place,
        named,
        may_take: may_take(process, table),
        moving: covers_for(process, table, Doing::Moving),
        carrying: covers_for(process, table, Doing::Carrying(Kind::File)),
        carrying_links: covers_for(process, table, Doing::Carrying(Kind::Link)),
        making_dirs: covers_for(process, table, Doing::Making(Made::Dir)),
        making_files: covers_for(process, table, Doing::Making(Made::File)),
        making_links: covers_for(process, table, Doing::Making(Made::Link)),
        making_sockets: covers_for(process, table, Doing::Making(Made::Sock)),
        making_fifos: covers_for(process, table, Doing::Making(Made::Fifo)),
        turning: covers_for(process, table, Doing::Turning(sends)),
        turned,
        calls,
    })
}

/// What stands on each of some devices. The only error is that a growth was refused.
fn find_sides<'t>(alloc: Global, parts: &Parts<'_, 't>) -> Result<Vec<Side<'t>>, AllocError>
    ensures devices { IfOk result (λ sides.
        map (λ side. side.device) sides.items ≡ parts.now.kinds.now) }
    ensures each { IfOk result (λ sides. Each (IsPart parts.now) sides.items) }
{
    let kinds = parts.kinds;
    let mut sides = Vec::new(alloc);
    for (place, device) in kinds.iter().enumerate() {
        let share = Share {
            parts: *parts,
            device: *device,
            first: place * parts.agents.len(),
        };
        let side = side_on(alloc, &share)?;
        sides.push(side)?;
    }
    Ok(sides)
}

/// What stands on a device. The only error is that a growth was refused.
fn side_on<'t>(alloc: Global, share: &Share<'_, 't>) -> Result<Side<'t>, AllocError>
    ensures device { IfOk result (λ side. side.device ≡ share.now.device) }
    ensures first { IfOk result (λ side. side.first ≡ share.now.first) }
    ensures part { IfOk result (IsPartOn share.now.parts) }
{
    let parts = &share.parts;
    let device = share.device;
    let movers = find_movers(alloc, share)?;
    let seats = seats_on(alloc, parts.seats, parts, device, share.first)?;
    let marks = marks_on(alloc, parts.marks, parts.devices, device)?;
    let watches = watches_on(alloc, parts.watches, parts.devices, device)?;
    Ok(Side {
        device,
        first: share.first,
        movers,
        seats,
        marks,
        watches,
    })
}

/// The rows of the directories of a device, and of what each process makes there. The only error is
/// that a growth was refused.
fn seats_on(
    alloc: Global,
    seats: &[usize],
    parts: &Parts<'_, '_>,
    device: NodeId,
    first: usize,
) -> Result<Vec<usize>, AllocError>
    ensures { IfOk result (λ kept. kept.items ≡ filter
        (is_seat_on (parts.now.size.shape.last + 1) parts.now.devices.now device first
        (length parts.now.agents.now)) seats.now) }
{
    let mut kept = Vec::new(alloc);
    for seat in seats {
        if is_seat_on(parts, device, first, *seat) {
            kept.push(*seat)?;
        }
    }
    Ok(kept)
}

/// The names with veils that are on a device. The only error is that a growth was refused.
fn marks_on<'t>(
    alloc: Global,
    marks: &[Mark<'t>],
    devices: &[NodeId],
    device: NodeId,
) -> Result<Vec<Mark<'t>>, AllocError>
    ensures { IfOk result (λ kept. kept.items ≡ filter
        (λ mark. is_on_device devices.now device mark.dir) marks.now) }
{
    let mut kept = Vec::new(alloc);
    for mark in marks {
        if is_on_device(devices, mark.dir, device) {
            let Ok(()) = kept.push(Mark {
                dir: mark.dir,
                name: mark.name,
                row: mark.row,
            }) else {
                return Err(AllocError);
            };
        }
    }
    Ok(kept)
}

/// The watched directories that are on a device. The only error is that a growth was refused.
fn watches_on(
    alloc: Global,
    watches: &[Watch],
    devices: &[NodeId],
    device: NodeId,
) -> Result<Vec<Watch>, AllocError>
    ensures { IfOk result (λ kept. kept.items ≡ filter
        (λ watch. is_on_device devices.now device watch.dir) watches.now) }
{
    let mut kept = Vec::new(alloc);
    for watch in watches {
        if is_on_device(devices, watch.dir, device) {
            kept.push(*watch)?;
        }
    }
    Ok(kept)
}

/// What the processes move on a device. The only error is that a growth was refused.
fn find_movers(alloc: Global, share: &Share<'_, '_>) -> Result<Vec<Mover>, AllocError>
    ensures many { IfOk result (λ movers.
        length movers.items ≡ length share.now.parts.agents.now) }
    ensures each { IfOk result (λ movers. Each (IsMoverOf share.now.parts.agents.now
        (share.now.parts.size.shape.last + 1) share.now.parts.size.shape.hands share.now.first)
        movers.items) }
{
    let size = share.parts.size;
    let agents = share.parts.agents;
    let mut movers = Vec::new(alloc);
    for (place, agent) in agents.iter().enumerate() {
        let hand = share.first + place;
        let number = HandNumber { size, hand };
        movers.push(mover(agent, number))?;
    }
    Ok(movers)
}

/// What one of them moves there.
fn mover(agent: &Agent<'_>, number: HandNumber) -> Mover
    ensures place { result.place ≡ agent.now.place }
    ensures moving { result.moving ≡ agent.now.moving }
    ensures made { result.made ≡ (number.size.shape.last + 1) + number.hand }
    ensures landing { result.landing
        ≡ (number.size.shape.last + 1) + (number.size.shape.hands + number.hand) }
    ensures drops { result.drops ≡ (number.size.shape.last + 1)
        + (number.size.shape.hands + (number.size.shape.hands + number.hand)) }
{
    let HandNumber { size, hand } = number;
    Mover {
        place: agent.place,
        moving: agent.moving,
        made: size.shape.last as usize + 1 + hand,
        landing: size.seats + hand,
        drops: size.seats + size.shape.hands + hand,
    }
}

/// Whether a row is of a directory of a device, or of what a process makes there.
fn is_seat_on(parts: &Parts<'_, '_>, device: NodeId, first: usize, seat: usize) -> bool
    ensures { result ≡ is_seat_on (parts.now.size.shape.last + 1) parts.now.devices.now device
        first (length parts.now.agents.now) seat }
{
    let last = parts.size.shape.last as usize;
    if seat <= last {
        return is_on_device(parts.devices, NodeId::new(seat as u32), device);
    }
    let hand = seat - last - 1;
    first <= hand && hand - first < parts.agents.len()
}

/// Whether a directory is on a device.
pub(crate) fn is_on_device(devices: &[NodeId], dir: NodeId, device: NodeId) -> bool
    ensures { result ≡ is_on_device devices.now device dir }
{
    match devices.get(dir.number() as usize) {
        Some(on) => *on == device,
        None => false,
    }
}

/// Whether a process has a veil on a directory, by the numbers below this one. The only error is
/// that a growth was refused.
fn veiled_by(alloc: Global, process: &Process, count: usize) -> Result<Vec<bool>, OutOfMemory>
    ensures { IfOk result (λ veiled. (dir : ℕ) → slice_get veiled.items dir ≡ Some false →
        perms_kept process.now (Place.Dir dir) ≡ None) }
{
    let veils = process.veils(alloc)?;
    let veiled = veiled_at(alloc, &veils, count)?;
    Ok(veiled)
}

/// Whether one of these veils is on a directory, by the numbers below this one. The only error is
/// that a growth was refused.
fn veiled_at(
    alloc: Global,
    veils: &[(&Place, &Perms)],
    count: usize,
) -> Result<Vec<bool>, AllocError>
    ensures full { IfOk result (λ veiled. length veiled.items ≡ count) }
    ensures marked { IfOk result (λ veiled. (dir : ℕ) → dir < count →
        get_or veiled.items dir false ≡ list_any (λ veil. is_on dir veil.0.now) veils.now) }
{
    let mut veiled = no_marks(alloc, count)?;
    for veil in veils {
        mark_veiled(veil.0, &mut veiled);
    }
    Ok(veiled)
}

/// Marks the directory on which a veil is, if it is on one.
fn mark_veiled(place: &Place, veiled: &mut Vec<bool>)
    ensures full { length veiled.new.items ≡ length veiled.old.items }
    ensures marked { (dir : ℕ) → dir < length veiled.old.items →
        get_or veiled.new.items dir false
        ≡ (get_or veiled.old.items dir false || is_on dir place.now) }
{
    let Place::Dir(dir) = place else {
        return;
    };
    mark(veiled, *dir, true);
}

/// Whether a process has a veil at a name. The only error is that a growth was refused.
fn has_named(alloc: Global, process: &Process) -> Result<bool, OutOfMemory>
    ensures { IfOk result (λ has. has ≡ has_named process.now) }
{
    let veils = process.veils(alloc)?;
    Ok(is_some_at_name(&veils))
}

/// Whether one of these veils is at a name.
fn is_some_at_name(veils: &[(&Place, &Perms)]) -> bool
    ensures { result ≡ list_any (λ veil. is_name veil.0.now) veils.now }
{
    veils.iter().any(|veil| is_name(veil.0))
}

/// Whether a place is a name.
fn is_name(place: &Place) -> bool
    ensures { result ≡ is_name place.now }
{
    match place {
        Place::Slot(_, _) => true,
        Place::Dir(_) => false,
    }
}

/// The names with veils in directories that stand. The only error is that a growth was refused.
fn find_marks<'t, T: FileTree>(
    alloc: Global,
    tree: &T,
    entries: &Entries<'_>,
    veils: &[(&'t Place, &'t Perms)],
) -> Result<Vec<Mark<'t>>, AllocError>
    ensures { IfOk result (λ marks.
        AreMarksOf (T.content tree.now) entries.now.all.items (map veil_now veils.now) marks.items) }
{
    let mut marks = Vec::new(alloc);
    for veil in veils {
        let Some(mark) = mark_at(tree, entries, veil.0) else {
            continue;
        };
        let Ok(()) = marks.push(mark) else {
            return Err(AllocError);
        };
    }
    Ok(marks)
}

/// The name at which a veil is, if it is at a name in a directory that stands.
fn mark_at<'t, T: FileTree>(tree: &T, entries: &Entries<'_>, place: &'t Place) -> Option<Mark<'t>>
    ensures { MatchOption result (mark_spot (T.content tree.now) place.now ≡ None)
        (IsMarkOf (T.content tree.now) entries.now.all.items place.now) }
{
    match place {
        Place::Slot(dir, name) if tree.kind(*dir) == Some(Kind::Dir) => Some(Mark {
            dir: *dir,
            name,
            row: row_of(entries, *dir, name),
        }),
        _ => None,
    }
}

/// The row of what stands at a name, if anything does.
fn row_of(entries: &Entries<'_>, dir: NodeId, name: &Name) -> Option<usize>
    ensures { IsRowIn entries.now.all.items (dir, name.now) result }
{
    match entry_at(&entries.all, dir, name) {
        Some(entry) => Some(entry.row),
        None => None,
    }
}

/// The rows of directories, and of what each process makes. The only error is that a growth was
/// refused.
fn all_seats(alloc: Global, size: Size) -> Result<Vec<usize>, AllocError>
    ensures { IfOk result (λ seats. seats.items ≡ numbers size.seats) }
{
    let mut seats = Vec::new(alloc);
    for seat in 0..size.seats {
        seats.push(seat)?;
    }
    Ok(seats)
}
