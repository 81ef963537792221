// The look-up by root: the parent's current sectors by position, then the committed ones of the other contracts, by place, then position. Kept
// roots are compared, all 32 bytes: no sector is hashed.
ghost use Rattle.std.specs.Prelude.{◌≡◌, true, []};
ghost use Rattle.lists.specs.Pick.{pick};
ghost use Rattle.area.specs.Area.{same};
ghost use Rattle.sia.specs.Names.{read_only};
ghost use Rattle.host.specs.Places.{has_id};
ghost use Rattle.machine_rules.specs.View.{committed_spots};
ghost use Rattle.machine_rules.specs.Roots.{kept_root};
ghost use Rattle.machine_rules.specs.Seats.{seated, committed_seats, seats, all_seats, first_seat};
ghost use Rattle.machine_sight.specs.Seen.{spots_of, lies, Known};
ghost use Rattle.machine_sight.specs.Lookup.{Stands, Stand, Seeks, own_spots};

use crate::{Seen, sector_roots, sights};
use host::{Place, Progress};
use machine_rules::{Seat, Spot};
use sia::Head;

// Whether the root kept beside a sector's slot is that one, all bytes of both.
fn has_root<'a>(diskroots: &'a [u8], stageroots: &'a [u8], spot: Spot, key: [u8; 32]) -> bool
    requires { lies 32 diskroots.now stageroots.now spot ≡ true }
    ensures { result ≡ same (kept_root diskroots.now stageroots.now spot) key }
{
    let root = sector_roots::kept_root(diskroots, stageroots, spot);
    root == key.as_slice()
}

// The first sector with that root, of what is seen of the contract in a place.
fn first_in<'a>(
    diskroots: &'a [u8],
    stageroots: &'a [u8],
    place: usize,
    seen: Seen,
    key: [u8; 32],
) -> Option<Seat>
    requires { Known diskroots.now stageroots.now seen }
    ensures { result ≡ first_seat (kept_root diskroots.now stageroots.now) key (seated place 0 (spots_of seen)) }
{
    for position in 0..seen.count {
        let spot = seen.spot(position);
        if has_root(diskroots, stageroots, spot, key) {
            return Some(Seat {
                place,
                position,
                spot,
            });
        }
    }
    None
}

// The first committed sector with that root, of the contract in a place, unless it is the contract of an id.
fn first_unless<'a>(
    z: u64,
    diskroots: &'a [u8],
    stageroots: &'a [u8],
    number: usize,
    place: Place,
    id: [u8; 32],
    key: [u8; 32],
) -> Option<Seat>
    requires { Stands z diskroots.now place }
    ensures { result ≡ first_seat (kept_root diskroots.now stageroots.now) key
        (pick (has_id id place) [] (seated number 0 (committed_spots z place))) }
{
    if host::has_id(place, id) {
        return None;
    }
    let seen = sights::committed_seen(z, place);
    first_in(diskroots, stageroots, number, seen, key)
}

// The first committed sector with that root, by place, then position, of all contracts but that of an id.
fn first_of_others<'a>(
    z: u64,
    diskroots: &'a [u8],
    stageroots: &'a [u8],
    places: [Place; 8],
    id: [u8; 32],
    key: [u8; 32],
) -> Option<Seat>
    requires { Stand z diskroots.now places }
    ensures { result ≡ first_seat (kept_root diskroots.now stageroots.now) key (committed_seats z (has_id id) 0 places) }
{
    for (i, place) in places.iter().enumerate() {
        let found = first_unless(z, diskroots, stageroots, i, *place, id, key);
        if found.is_some() {
            return found;
        }
    }
    None
}

// The first sector with that root: of the contract of an id, up to a size, with its copies in the stage, and then of the other contracts.
fn find_root<'a>(
    z: u64,
    diskroots: &'a [u8],
    stageroots: &'a [u8],
    places: [Place; 8],
    id: [u8; 32],
    staged: [u8; 64],
    size: u64,
    key: [u8; 32],
) -> Option<Seat>
    requires { Seeks z diskroots.now stageroots.now places id staged size }
    ensures { result ≡ first_seat (kept_root diskroots.now stageroots.now) key
        (seats z (has_id id) (own_spots z places id staged size) places) }
{
    let parent = host::place_of(places, id);
    let number = host::place_number(places, id);
    let seen = sights::parent_seen(z, parent, staged, size);
    let own = first_in(diskroots, stageroots, number, seen, key);
    if own.is_some() {
        return own;
    }
    first_of_others(z, diskroots, stageroots, places, id, key)
}

// The first of all committed sectors with that root. Under the ReadOnly word there is no contract, so that none is the parent.
pub fn find_in_all<'a>(
    z: u64,
    diskroots: &'a [u8],
    stageroots: &'a [u8],
    places: [Place; 8],
    key: [u8; 32],
) -> Option<Seat>
    requires { Stand z diskroots.now places }
    ensures { result ≡ first_seat (kept_root diskroots.now stageroots.now) key (all_seats z places) }
{
    let nobody = Head::READ_ONLY;
    find_root(
        z,
        diskroots,
        stageroots,
        places,
        nobody,
        [Progress::NONE; 64],
        0,
        key,
    )
}

// What a program on the contract of an id finds; in read-only mode it finds the first of all committed sectors.
pub fn find_for<'a>(
    z: u64,
    diskroots: &'a [u8],
    stageroots: &'a [u8],
    places: [Place; 8],
    id: [u8; 32],
    staged: [u8; 64],
    size: u64,
    key: [u8; 32],
) -> Option<Seat>
    requires { Seeks z diskroots.now stageroots.now places id staged size }
    ensures { result ≡ first_seat (kept_root diskroots.now stageroots.now) key
        (pick (same id read_only) (all_seats z places) (seats z (has_id id) (own_spots z places id staged size) places)) }
{
    if sia::is_read_only(id) {
        return find_in_all(z, diskroots, stageroots, places, key);
    }
    find_root(z, diskroots, stageroots, places, id, staged, size, key)
}
