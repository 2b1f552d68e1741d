//! What follows from the table of a crew, word by word.

ghost use Rattle.std.specs.Prelude.{◌≡◌, ◌<◌, ◌==◌};
ghost use Rattle.std.specs.Int.{bit_at};
ghost use Rattle.std.specs.List.{list_any};
ghost use Rattle.pua_jointly.specs.JointWords.{apart_at, apart_by, apart_word, born_at};
ghost use Rattle.pua_jointly.specs.JointWords.{clear_at, clear_by, covers_in, dropped_at};
ghost use Rattle.pua_jointly.specs.JointWords.{dropped_word, landed_at, landing_word, made_word};
ghost use Rattle.pua_jointly.specs.JointWords.{meets, moved_at, moved_word, moves_at};
ghost use Rattle.pua_jointly.specs.JointWords.{some_meets, word_at};

use crate::mover::Mover;

/// Which bits of a word are covers.
const COVERS: u32 = 0x3_ffff;

/// The covers with `c`.
pub(crate) const WITH_C: u32 = 0x3_fc01;

/// The bit of a directory's word by which a process can put another directory into it.
pub(crate) const ENTERS: u32 = 18;

/// The bit of a directory's word by which a watched one is neither it nor above it.
pub(crate) const CLEAR: u32 = 0;

/// The bit of what is so of all by which a process can make directories.
const MAKES: u32 = 0;

/// The covers by the veils of one process of the directories that another one makes, by the column of
/// what is so of all and the row of what that one makes.
pub(crate) fn made(
    told: &[u32],
    columns: usize,
    movers: &[Mover],
    common: usize,
    seat: usize,
    maker: &Mover,
    of: usize,
) -> u32
    ensures { result ≡ made_word told.now columns movers.now common seat maker.now of }
{
    moved(told, columns, movers, seat, of) | born(told, columns, common, maker, of)
}

/// Those under which they come where they are made.
fn born(told: &[u32], columns: usize, common: usize, maker: &Mover, of: usize) -> u32
    ensures { result ≡ born_at told.now columns common maker.now of }
{
    if has(word(told, columns, maker.drops, common), MAKES) {
        covers_at(told, columns, maker.landing, of)
    } else {
        0
    }
}

/// The covers by the veils of one process under which those come that can move a directory.
pub(crate) fn moved(told: &[u32], columns: usize, movers: &[Mover], seat: usize, of: usize) -> u32
    ensures { result ≡ moved_word told.now columns movers.now seat of }
{
    movers.iter().fold(
        0,
        |word, mover| word | moved_by(told, columns, seat, of, mover),
    )
}

/// Those under which one of them comes.
fn moved_by(told: &[u32], columns: usize, seat: usize, of: usize, mover: &Mover) -> u32
    ensures { result ≡ moved_at told.now columns seat of mover.now }
{
    if moves(told, columns, seat, mover) {
        covers_at(told, columns, mover.landing, of)
    } else {
        0
    }
}

/// Whether a process can move a directory.
pub(crate) fn moves(told: &[u32], columns: usize, seat: usize, mover: &Mover) -> bool
    ensures { result ≡ moves_at told.now columns seat mover.now }
{
    does_meet(word(told, columns, seat, mover.place), mover.moving)
}

/// Whether some cover of a word is one of these.
pub(crate) fn does_meet(word: u32, covers: u32) -> bool
    ensures { result ≡ meets word covers }
{
    word & covers != 0
}

/// The bits in a column of the directories into which those put a watched directory that can move
/// it, where it can come to stand: the watched one's column says where that is.
pub(crate) fn apart(
    told: &[u32],
    columns: usize,
    movers: &[Mover],
    seats: &[usize],
    seat: usize,
    watch: usize,
    of: usize,
) -> u32
    ensures { result ≡ apart_word told.now columns movers.now seats.now seat watch of }
{
    movers.iter().fold(
        0,
        |word, mover| word | apart_of(told, columns, seats, seat, watch, of, mover),
    )
}

/// Those where one of them puts it.
fn apart_of(
    told: &[u32],
    columns: usize,
    seats: &[usize],
    seat: usize,
    watch: usize,
    of: usize,
    mover: &Mover,
) -> u32
    ensures { result ≡ apart_by told.now columns seats.now seat watch of mover.now }
{
    if moves(told, columns, seat, mover) {
        seats.iter().fold(
            0,
            |word, into| word | apart_in(told, columns, mover.place, watch, of, *into),
        )
    } else {
        0
    }
}

/// Those of one directory, if it can be put there.
fn apart_in(told: &[u32], columns: usize, by: usize, watch: usize, of: usize, into: usize) -> u32
    ensures { result ≡ apart_at told.now columns by watch of into }
{
    if has(word(told, columns, into, by), ENTERS) && has(word(told, columns, into, watch), CLEAR) {
        covers_at(told, columns, into, of)
    } else {
        0
    }
}

/// Whether some process can move a watched directory into one where it can come to stand and that
/// another watched one is not above, by the columns of the two.
pub(crate) fn is_clear_apart(
    told: &[u32],
    columns: usize,
    movers: &[Mover],
    seats: &[usize],
    seat: usize,
    watch: usize,
    of: usize,
) -> bool
    ensures { result
        ≡ list_any (clear_by told.now columns seats.now seat watch of) movers.now }
{
    movers.iter().any(|mover| is_clear_by(told, columns, seats, seat, watch, of, mover))
}

/// Whether this one can.
fn is_clear_by(
    told: &[u32],
    columns: usize,
    seats: &[usize],
    seat: usize,
    watch: usize,
    of: usize,
    mover: &Mover,
) -> bool
    ensures { result ≡ clear_by told.now columns seats.now seat watch of mover.now }
{
    moves(told, columns, seat, mover)
        && is_clear_in_some(told, columns, seats, mover.place, watch, of)
}

/// Whether there is such a directory, into which it can put others.
fn is_clear_in_some(
    told: &[u32],
    columns: usize,
    seats: &[usize],
    by: usize,
    watch: usize,
    of: usize,
) -> bool
    ensures { result ≡ list_any (clear_at told.now columns by watch of) seats.now }
{
    seats
        .iter()
        .any(|into| is_clear_in(told, columns, by, watch, of, *into))
}

/// Whether this is one.
fn is_clear_in(
    told: &[u32],
    columns: usize,
    by: usize,
    watch: usize,
    of: usize,
    into: usize,
) -> bool
    ensures { result ≡ clear_at told.now columns by watch of into }
{
    has(word(told, columns, into, by), ENTERS)
        && (has(word(told, columns, into, watch), CLEAR)
            && has(word(told, columns, into, of), CLEAR))
}

/// The covers by the veils of one process of all directories into which another one can come to put
/// a directory.
pub(crate) fn landing(told: &[u32], columns: usize, seats: &[usize], by: usize, agent: usize) -> u32
    ensures { result ≡ landing_word told.now columns by agent seats.now }
{
    seats.iter().fold(
        0,
        |word, seat| word | landed(told, columns, *seat, by, agent),
    )
}

/// The covers of a directory by the veils of one process, if another one can come to put a
/// directory into it.
fn landed(told: &[u32], columns: usize, seat: usize, by: usize, agent: usize) -> u32
    ensures { result ≡ landed_at told.now columns by agent seat }
{
    if has(word(told, columns, seat, by), ENTERS) {
        covers_at(told, columns, seat, agent)
    } else {
        0
    }
}

/// The covers by the veils of one process of all directories on which another one has `c`.
pub(crate) fn dropped(told: &[u32], columns: usize, seats: &[usize], by: usize, agent: usize) -> u32
    ensures { result ≡ dropped_word told.now columns by agent seats.now }
{
    seats.iter().fold(
        0,
        |word, seat| word | dropped_in(told, columns, *seat, by, agent),
    )
}

/// The covers of a directory by the veils of one process, if another one has `c` on it.
fn dropped_in(told: &[u32], columns: usize, seat: usize, by: usize, agent: usize) -> u32
    ensures { result ≡ dropped_at told.now columns by agent seat }
{
    if does_meet(word(told, columns, seat, by), WITH_C) {
        covers_at(told, columns, seat, agent)
    } else {
        0
    }
}

/// Whether some directory has one of these covers by the veils of a process.
pub(crate) fn covers_some(
    told: &[u32],
    columns: usize,
    seats: &[usize],
    agent: usize,
    covers: u32,
) -> bool
    ensures { result ≡ some_meets told.now columns agent covers seats.now }
{
    if covers == 0 {
        return false;
    }
    seats.iter().any(|seat| does_meet(word(told, columns, *seat, agent), covers))
}

/// The covers of a word.
pub(crate) fn covers_at(told: &[u32], columns: usize, row: usize, column: usize) -> u32
    ensures { result ≡ covers_in (word_at told.now columns row column) }
{
    covers_of(word(told, columns, row, column))
}

/// The bits of a word that are covers.
pub(crate) fn covers_of(word: u32) -> u32
    ensures { result ≡ covers_in word }
{
    word & COVERS
}

/// Whether a word has a bit.
pub(crate) fn has(word: u32, bit: u32) -> bool
    requires { bit < 32 }
    ensures { result ≡ (bit_at word bit == 1) }
{
    (word >> bit) & 1 == 1
}

/// The word at a row and a column of a table with so many columns; where it has none, one without
/// facts.
pub(crate) fn word(told: &[u32], columns: usize, row: usize, column: usize) -> u32
    ensures { result ≡ word_at told.now columns row column }
{
    let Some(start) = row.checked_mul(columns) else {
        return 0;
    };
    let Some(place) = start.checked_add(column) else {
        return 0;
    };
    match told.get(place) {
        Some(word) => *word,
        None => 0,
    }
}
