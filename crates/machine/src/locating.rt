// Where the sector with a root is: the place of its contract, its position there, and whether the stage holds it. Kept roots say it all, so no
// area is lent. What the inner functions require, their callers prove; the call requires nothing.
ghost use Rattle.std.specs.Prelude.{◌≡◌, Ok, true};
ghost use Rattle.host.specs.Order.{in_order};
ghost use Rattle.machine_rules.specs.Roots.{kept_root};
ghost use Rattle.machine_rules.specs.Seats.{first_seat, seats_in, is_staged, located_at, located};
ghost use Rattle.machine.specs.Asks.{located_of};

use crate::Location;
use host::{Host, Refusal};
use machine_rules::{Seat, Spot};

// What is looked up: of an open program as ReadSector has it, else of all committed sectors.
fn sought(host: Host, root: [u8; 32]) -> Option<Seat>
    requires { in_order host ≡ true }
    ensures { result ≡ first_seat (kept_root host.diskroots host.stageroots) root (seats_in host) }
{
    let z = host.sector;
    let places = host.places;
    let diskroots = host.diskroots;
    let stageroots = host.stageroots;
    let program = host.program;
    if !program.active {
        return machine_sight::find_in_all(z, &diskroots, &stageroots, places, root);
    }
    let terms = program.terms;
    let head = terms.head;
    let id = head.contract;
    let progress = program.progress;
    let staged = progress.staged;
    machine_sight::find_for(
        z,
        &diskroots,
        &stageroots,
        places,
        id,
        staged,
        progress.size,
        root,
    )
}

// Whether the stage holds a sector.
fn is_staged(spot: Spot) -> bool
    ensures { result ≡ is_staged spot }
{
    matches!(spot, Spot::InStage(_))
}

// What is answered of what is found.
fn located_at(sought: Option<Seat>) -> Option<Location>
    ensures { located_of (Ok result) ≡ located_at sought }
{
    let Some(seat) = sought else {
        return None;
    };
    Some(Location {
        place: seat.place as u64,
        position: seat.position as u64,
        staged: is_staged(seat.spot),
    })
}

// Where the first sector with that root is, if there is one; or 1. It changes nothing, and a program need not be open.
pub fn locate(host: Host, root: [u8; 32]) -> Result<Option<Location>, Refusal>
    ensures { located_of result ≡ located host root }
{
    if !host_order::in_order(host) {
        return Err(Refusal::NotInOrder);
    }
    let found = sought(host, root);
    Ok(located_at(found))
}
