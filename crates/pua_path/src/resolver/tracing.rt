//! How a path goes: the loop of resolution once more, which remembers where it was.

ghost use Rattle.std.specs.Prelude.{◌≡◌, IfOk};
ghost use Rattle.pua_path.specs.Fits.{FoundFits, StandsAsNamed};
ghost use Rattle.pua_path.specs.Traces.{trace_from};
ghost use Rattle.pua_path.specs.Walks.{stop_at};

use super::{Resolving, start_of};
use crate::errno::Errno;
use crate::found::{Found, Last, Start};
use crate::probe::Probe;
use crate::rest::{LinksLeft, Rest};
use crate::text::PathText;
use crate::traced::{Links, PathFault, Spot, Stop};
use pua_tree::LentName;

/// What a path names from a root and a directory, as `resolve` has it, or why it names nothing:
/// `NoStart` where `resolve` answers `ENOENT` for `from`, and else where the path leads no further. The links
/// that it followed by then, 32 at most, take the place of those that `links` had. Takes no memory.
pub fn trace<'t, P: Probe<'t>>(
    probe: &mut P,
    from: Start,
    text: &PathText<'_>,
    mode: Last,
    links: &mut Links,
) -> Result<Found, PathFault>
    ensures exact { record { links = links.new; outcome = result }
        ≡ trace_from (P.tree probe.old) from text.now.ending text.now.bytes mode }
    ensures fits { IfOk result (FoundFits (P.tree probe.old)) }
    ensures named { IfOk result (StandsAsNamed (P.tree probe.old)) }
    ensures tree { P.tree probe.new ≡ P.tree probe.old }
{
    links.clear();
    probe.known();
    let Some(start) = start_of(probe, from, text.bytes()) else {
        return Err(PathFault::NoStart);
    };
    let mut walk = Resolving::new(start, Rest::of_text(text, LinksLeft::ALL));
    while let Some(piece) = walk.rest.next() {
        let dir = walk.here;
        let left = walk.rest.left();
        match walk.enter_piece(probe, piece, mode) {
            Ok(None) if walk.rest.left() < left => {
                let name = LentName { bytes: piece.bytes };
                links.spots.push_reserved((dir, name.name()));
            }
            Ok(None) => {}
            Ok(Some(lent)) => return Ok(lent.found()),
            Err(errno) => {
                let name = LentName { bytes: piece.bytes };
                return Err(PathFault::Stops(stop_at((dir, name.name()), errno)));
            }
        }
    }
    Ok(Found::Whole {
        dir: walk.here,
        way: walk.way.way(),
    })
}

/// Where a name stops a resolution that fails with this error.
fn stop_at(spot: Spot, errno: Errno) -> Stop
    ensures { result ≡ stop_at spot errno }
{
    match errno {
        Errno::ENOENT => Stop::NoEntry(spot),
        Errno::ENOTDIR => Stop::NoDirectory(spot),
        _ => Stop::LinkBeyond(spot),
    }
}
