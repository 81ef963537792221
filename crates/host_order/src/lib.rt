// Whether a host is in order, decided on any record, however damaged, and whether the areas lent with it are as long as stated. Each function is one
// clause of `host`'s definition, in its order. Rests on `host` and `sia`. Inner functions: what they require, their callers prove.
#![tactic(auto)]

ghost use Rattle.std.specs.Prelude.{◌≡◌, ◌+◌, ◌≤◌, ◌<◌, leb, ltb, eqb};
ghost use Rattle.lists.specs.Pick.{pick, both};
ghost use Rattle.lists.specs.Tests.{every, apart};
ghost use Rattle.area.specs.Slots.{Size};
ghost use Rattle.host.specs.Places.{taken};
ghost use Rattle.host.specs.Order.{place_in_order, twins, places_in_order, parent_in_order, terms_in_order, progress_in_order, program_in_order, in_order};

use host::{Host, Place, Program, Progress, Terms};

mod areas; // areas.rt: whether areas are as long as stated
mod staged; // staged.rt: whether the staged positions of a program are in order

pub use areas::{areas_right, lent};
use staged::staged_in_order;

// ---- contracts

fn place_in_order(z: u64, p: Place) -> bool
    requires { 0 < z }
    ensures { result ≡ place_in_order z p }
{
    !p.held || (!sia::is_read_only(p.id) && p.size % z == 0 && p.size / z <= Place::SLOTS)
}

fn each_in_order(z: u64, places: [Place; 8]) -> bool
    requires { 0 < z }
    ensures { result ≡ every (place_in_order z) places }
{
    places.iter().all(|p| place_in_order(z, *p))
}

// Whether two places hold contracts under one id.
fn are_twins(p: Place, q: Place) -> bool
    ensures { result ≡ twins p q }
{
    p.held && q.held && sia::same_id(p.id, q.id)
}

// Whether no two places hold contracts under one id. A place that holds none has no twin.
fn no_twins(places: [Place; 8]) -> bool
    ensures { result ≡ apart twins places }
{
    host::apart_but(&places, |p| !p.held, |p, q| are_twins(*p, *q))
}

// Whether the slots that contracts take are slots of the disk, no two equal.
fn slots_in_order(z: u64, disk: u64, places: [Place; 8]) -> bool
    requires { 0 < z }
    ensures { result ≡ both (apart eqb (taken z places)) (every (λ n. ltb n disk) (taken z places)) }
{
    let taken = host::slots_taken(z, places);
    host::distinct(taken.as_slice()) && host::below(taken.as_slice(), disk)
}

fn places_in_order(z: u64, disk: u64, places: [Place; 8]) -> bool
    requires { 0 < z }
    ensures { result ≡ places_in_order z disk places }
{
    each_in_order(z, places) && no_twins(places) && slots_in_order(z, disk, places)
}

// ---- an open program

// Kept: places, an id and a size by themselves, as the definition takes them: the id is a head's, the size a program's.
fn parent_in_order(places: [Place; 8], id: [u8; 32], size: u64) -> bool
    ensures { result ≡ parent_in_order places id size }
{
    if sia::is_read_only(id) {
        size == 0
    } else {
        host::place_of(places, id).held
    }
}

fn terms_in_order(places: [Place; 8], t: &Terms, size: u64) -> bool
    ensures { result ≡ terms_in_order places t.now size }
{
    parent_in_order(places, t.head.contract, size)
        && sia::within(t.head)
        && (Terms::LEAST..=Terms::MOST).contains(&t.room)
}

// What is kept free of the output until the end.
fn owed(failed: bool) -> u64
    ensures { result ≡ pick failed 0 72 }
{
    if failed { 0 } else { Terms::LEAST }
}

// Whether a sum is within a limit; one that would wrap is not.
fn sum_fits(one: u64, two: u64, limit: u64) -> bool
    ensures { result ≡ leb (one + two) limit }
{
    one.checked_add(two).is_some_and(|sum| sum <= limit)
}

// Kept: the parts of a host by themselves, here and below, as the definition takes them: a host that is lent whole is copied first.
#[rattlefmt::skip]
fn progress_in_order(z: u64, disk: u64, stage: u64, places: [Place; 8], t: &Terms, p: &Progress) -> bool
    requires size { Size z }
    requires disk_bound { disk ≤ 64 }
    ensures { result ≡ progress_in_order z disk stage places t.now p.now }
{
    let id = t.head.contract;
    p.ran <= t.head.count
        && p.tally <= t.budget
        && sum_fits(p.written, owed(p.failed), t.room)
        && p.size % z == 0
        && host::sizes_fit(places, id, p.size, disk * z)
        && staged_in_order(z, stage, host::place_of(places, id).size / z, p.size, p.staged)
}

fn program_in_order(z: u64, disk: u64, stage: u64, places: [Place; 8], g: Program) -> bool
    requires size { Size z }
    requires disk_bound { disk ≤ 64 }
    ensures { result ≡ program_in_order z disk stage places g }
{
    terms_in_order(places, &g.terms, g.progress.size)
        && g.came <= g.terms.head.length
        && progress_in_order(z, disk, stage, places, &g.terms, &g.progress)
}

// ---- the whole record

// Whether a host is in order.
pub fn in_order(host: Host) -> bool
    ensures { result ≡ in_order host }
{
    host::is_size(host.sector)
        && host::lent(host.disk, Host::DISK)
        && host::lent(host.stage, Host::STAGE)
        && places_in_order(host.sector, host.disk, host.places)
        && (!host.program.active
            || program_in_order(
                host.sector,
                host.disk,
                host.stage,
                host.places,
                host.program,
            ))
}
