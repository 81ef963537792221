// Making a host, forming a contract and dropping one: what each call answers and leaves is `host`'s definition of it. A refusal of
// forming or dropping leaves the host as it was. Rests on `host_order` (whether a host is in order) and `host`.
#![tactic(auto)]

ghost use Rattle.std.specs.Prelude.{◌≡◌, not, ◌<◌, eqb, position, IfSome};
ghost use Rattle.lists.specs.Pick.{pick};
ghost use Rattle.lists.specs.Tests.{every};
ghost use Rattle.area.specs.Area.{same};
ghost use Rattle.sia.specs.Names.{read_only};
ghost use Rattle.host.specs.Empty.{new_place, bare};
ghost use Rattle.host.specs.Order.{in_order};
ghost use Rattle.host.specs.Refusals.{told};
ghost use Rattle.host.specs.Calls.{answered, made_of, length_right, freshed, padded, formed, dropped};

use host::{Host, Place, Refusal};

// Whether an area of n bytes can be lent: whole sectors, one at least.
fn length_right(z: u64, n: u64, most: u64) -> bool
    requires { 0 < z }
    ensures { result ≡ length_right z most n }
{
    n % z == 0 && host::lent(n / z, most)
}

// What making a host leaves where it is refused: a host with no slots, which every later call refuses with 1.
pub fn unmade() -> Host
    ensures { result ≡ bare 0 0 0 }
{
    Host::bare(0, 0, 0)
}

// Makes a host with sectors of this size, any power of two from 4,096 to 4,194,304, for areas of these lengths in bytes, that holds no
// contract and no open program; or 2 for another size or a bad length, and then what it leaves is `unmade`.
pub fn fresh(sector: u64, disk: u64, stage: u64) -> Result<Host, Refusal>
    ensures { made_of (bare 0 0 0) result ≡ freshed sector disk stage }
{
    if !host::is_size(sector) {
        return Err(Refusal::WrongLength);
    }
    if !length_right(sector, disk, Host::DISK) {
        return Err(Refusal::WrongLength);
    }
    if !length_right(sector, stage, Host::STAGE) {
        return Err(Refusal::WrongLength);
    }
    Ok(Host::bare(sector, disk / sector, stage / sector))
}

// Whether all bytes are zero.
fn zeros(bytes: &[u8]) -> bool
    ensures { result ≡ every (λ b. eqb b 0) bytes.now }
{
    bytes.iter().all(|b| *b == 0)
}

// Whether an id is an identifier of the old service, four bytes filled with zeros: bytes 4 to 31 are all zero.
fn padded(id: [u8; 32]) -> bool
    ensures { result ≡ padded id }
{
    zeros(&id[4..])
}

// A contract of size 0.
fn new_place(id: [u8; 32]) -> Place
    ensures { result ≡ new_place id }
{
    Place {
        held: true,
        id,
        size: 0,
        slots: [0u8; 64],
    }
}

// The number of the lowest free place, if one is free.
fn free_place(places: &[Place; 8]) -> Option<usize>
    ensures number { result ≡ position (λ p. not p.held) places.now }
    ensures below { IfSome result (λ i. i < 8) }
{
    places.iter().position(|p| !p.held)
}

// What forming and dropping check first: 1, 3, 5 (the ReadOnly word).
fn ready(host: Host, id: [u8; 32]) -> Result<(), Refusal>
    ensures { told result ≡ pick (not (in_order host)) 1 (pick host.program.active 3 (pick (same id read_only) 5 0)) }
{
    if !host_order::in_order(host) {
        return Err(Refusal::NotInOrder);
    }
    if host.program.active {
        return Err(Refusal::Open);
    }
    if sia::is_read_only(id) {
        return Err(Refusal::ReadOnly);
    }
    Ok(())
}

// Forms the contract of an id, of size 0, in the lowest free place of a host that is lent; or 1, 3, 5, 15 (a padded short id), 6 (already
// present), 8 (no free place), and the host is as it was.
pub fn form_in(host: &mut Host, id: [u8; 32]) -> Result<(), Refusal>
    ensures { answered (told result) host.new ≡ formed host.old id }
{
    ready(*host, id)?;
    if padded(id) {
        return Err(Refusal::Padded);
    }
    if host::place_of(host.places, id).held {
        return Err(Refusal::Present);
    }
    let free = free_place(&host.places).ok_or(Refusal::NoPlace)?;
    host.places[free] = new_place(id);
    Ok(())
}

// `form_in` on a host by value: hands out the host with the contract; or the same refusals.
pub fn form(host: Host, id: [u8; 32]) -> Result<Host, Refusal>
    ensures { made_of host result ≡ formed host id }
{
    let mut after = host;
    form_in(&mut after, id)?;
    Ok(after)
}

// Drops the contract of an id, at any size, and frees its place and slots; or 1, 3, 5, 7 (not found).
pub fn drop(host: Host, id: [u8; 32]) -> Result<Host, Refusal>
    ensures { made_of host result ≡ dropped host id }
{
    ready(host, id)?;
    if !host::place_of(host.places, id).held {
        return Err(Refusal::NotFound);
    }
    let places = host::replaced_in(host.places, id, Place::none());
    Ok(Host { places, ..host })
}
