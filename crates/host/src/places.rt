// Contracts by id, and their sizes; the places with another one for a contract.
ghost use Rattle.std.specs.Prelude.{◌≡◌, ◌+◌, leb};
ghost use Rattle.lists.specs.Pick.{pick};
ghost use Rattle.lists.specs.Tests.{first_of};
ghost use Rattle.host.specs.Places.{has_id, whose, own_size, others};
ghost use Rattle.host.specs.Calls.{replaced};

use crate::{Host, Place};

// Whether a place holds the contract of an id, all 32 bytes.
pub fn has_id(p: Place, id: [u8; 32]) -> bool
    ensures { result ≡ has_id id p }
{
    p.held && sia::same_id(p.id, id)
}

// The contract of an id, or a place that holds none.
pub fn place_of(places: [Place; 8], id: [u8; 32]) -> Place
    ensures { result ≡ whose id places }
{
    match places.iter().find(|p| has_id(**p, id)) {
        Some(p) => *p,
        None => Place::none(),
    }
}

// The number of the place that holds the contract of an id; the number of all places where none does.
pub fn place_number(places: [Place; 8], id: [u8; 32]) -> usize
    ensures { result ≡ first_of (has_id id) places }
{
    places
        .iter()
        .position(|p| has_id(*p, id))
        .unwrap_or(Host::PLACES)
}

// What a place adds to the sizes of all contracts but that of an id.
fn own_size(p: Place, id: [u8; 32]) -> u64
    ensures { result ≡ own_size id p }
{
    if p.held && !sia::same_id(p.id, id) {
        p.size
    } else {
        0
    }
}

// Whether a size and those of all contracts but that of an id are within a limit. What is left of the limit is counted down, so that
// no sum wraps.
// Kept: places, an id and a size by themselves: they are a host's, a head's and a program's, or what an instruction asks for.
pub fn sizes_fit(places: [Place; 8], id: [u8; 32], size: u64, limit: u64) -> bool
    ensures { result ≡ leb (size + others id places) limit }
{
    let Some(mut left) = limit.checked_sub(size) else {
        return false;
    };
    for p in &places {
        match left.checked_sub(own_size(*p, id)) {
            Some(rest) => left = rest,
            None => return false,
        }
    }
    true
}

// A place, or another one for the contract of an id.
fn replacing(q: Place, id: [u8; 32], by: Place) -> Place
    ensures { result ≡ pick (has_id id q) by q }
{
    if has_id(q, id) { by } else { q }
}

// The places with another one for the contract of an id.
pub fn replaced_in(places: [Place; 8], id: [u8; 32], by: Place) -> [Place; 8]
    ensures { result ≡ replaced id by places }
{
    places.map(|q| replacing(q, id, by))
}
